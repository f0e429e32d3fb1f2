// Writing a table of legs as rows.
ghost use Rattle.std.specs.Prelude.{◌≡◌, length};
ghost use Rattle.legs.specs.Written.{row_of, leg_rows, row_share};
ghost use Rattle.std.proofs.Common.{arith};
ghost use Rattle.items.proofs.Units.{length_loads};
ghost use Rattle.legs.specs.Shares.{shape_of, amount_of};
ghost use Rattle.legs.specs.RowSums.{table_load_rows};

use crate::leg::LegRow;
use crate::moves::SharedLeg;
use crate::table::LegTable;
use faults::{Fault, Kind, Reason};
use items::Recorded;

impl LegTable {
    // The number of rows: one for each leg.
    pub fn rows(&self) -> usize
        ensures { result ≡ length self.now.legs.items }
    {
        self.legs.len()
    }
}

impl Recorded for LegTable {
    type Row = LegRow;

    ghost rows = { λ d. leg_rows d.legs.items d.first };

    ghost share = { row_share };

    ghost adds = { λ d i h.
        let len = length_loads (shape_of d.seats d.legs.items) (amount_of d.legs.items d.first) in
        table_load_rows d i (omega arith) };

    fn write_rows(&self, out: &mut [LegRow]) -> Result<usize, Fault> {
        let rows = self.rows();
        if out.len() < rows {
            return Err(Fault::nowhere(Reason::TooFewRows, Kind::Legs));
        }
        // each row by its place: of rows written through `iter_mut`, a proof knows the number alone
        for (t, leg) in self.shared().enumerate() {
            out[t] = LegRow::from(leg);
        }
        Ok(rows)
    }
}

impl From<SharedLeg> for LegRow {
    ghost from_gives = { λ shared row. row ≡ row_of shared.leg shared.first };

    fn from(shared: SharedLeg) -> LegRow {
        LegRow {
            a: shared.leg.a,
            b: shared.leg.b,
            share_a: shared.first,
            share_b: shared.leg.passages - shared.first,
        }
    }
}
