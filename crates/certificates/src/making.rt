// Making a certificate.
ghost use Rattle.std.specs.Prelude.{◌≡◌, ◌≤◌, length};
ghost use Rattle.certificates.specs.Loads.{different_loads};
ghost use Rattle.certificates.specs.Tables.{CertifySays, Filled};

use crate::row::CertRow;
use crate::sets::row_set;
use crate::values::{count_values, values_of};
use bases::BaseSystem;
use faults::{Fault, Reason};
use grades::Whole;
use steps::find_step;

// Writes one row for each different positive load, the highest first.
fn fill<S: BaseSystem>(s: &S, table: &mut [CertRow])
    requires { different_loads (S.BaseSystem.loads s.now) ≤ length table.old }
    ensures { Filled (S.BaseSystem.bases s.now) (S.BaseSystem.loads s.now) table.old table.new (different_loads (S.BaseSystem.loads s.now)) }
{
    // Each row by its place: of rows written through `iter_mut`, a proof knows the number alone.
    for (k, value) in values_of(s).enumerate() {
        table[k] = CertRow {
            value,
            set: row_set(s, value),
        };
    }
}

// Writes the rows which show that the standing base is level by whole loads to the front of the caller's table, since no call
// allocates, and answers how many. It is refused where the base is not level, and then where the table has too few rows for the
// different positive loads; a refusal writes nothing.
pub fn certify<S: BaseSystem>(s: &S, table: &mut [CertRow]) -> Result<usize, Fault>
    ensures { CertifySays (S.BaseSystem.bases s.now) (S.BaseSystem.loads s.now) (S.BaseSystem.layer s.now) table.old table.new result }
{
    if find_step(s, &Whole).is_some() {
        return Err(Fault::nowhere(Reason::NotLevel, s.kind()));
    }
    let count = count_values(s);
    if table.len() < count {
        return Err(Fault::nowhere(Reason::TooFewRows, s.kind()));
    }
    fill(s, table);
    Ok(count)
}
