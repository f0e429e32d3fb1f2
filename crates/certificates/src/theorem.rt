// Which bases have a certificate.
ghost use Rattle.std.specs.Prelude.{◌≡◌, List};
ghost use Rattle.bases.specs.Exchange.{Same};
ghost use Rattle.grades.specs.Grades.{whole};
ghost use Rattle.optima.specs.Steps.{LevelBy};
ghost use Rattle.certificates.specs.declared.row.CertRow.{CertRow};
ghost use Rattle.certificates.specs.Tables.{Accepts};

use crate::making::certify;
use crate::row::CertRow;
use bases::BaseSystem;

// A table that passes exists exactly where the standing base is level by whole loads: one of 64 rows has room for it.
pub fn a_table_passes_exactly_when_level<S: BaseSystem>(s: &S)
    ensures shows { (rows : List CertRow) → Accepts (S.BaseSystem.bases s.now) (S.BaseSystem.loads s.now) rows → LevelBy (S.BaseSystem.bases s.now) whole (S.BaseSystem.loads s.now) }
    ensures exists { LevelBy (S.BaseSystem.bases s.now) whole (S.BaseSystem.loads s.now) → (rows : List CertRow) × Accepts (S.BaseSystem.bases s.now) (S.BaseSystem.loads s.now) rows }
{
    let mut table = [CertRow { value: 0, set: 0 }; 64];
    let _ = certify(s, &mut table);
}

// A certificate lasts: what passes for one system passes for every other with the same bases and the same standing loads.
pub fn a_certificate_lasts<S: BaseSystem, R: BaseSystem>(s: &S, later: &R)
    ensures { Same (S.BaseSystem.bases s.now) (R.BaseSystem.bases later.now) → S.BaseSystem.loads s.now ≡ R.BaseSystem.loads later.now → (rows : List CertRow) → Accepts (S.BaseSystem.bases s.now) (S.BaseSystem.loads s.now) rows → Accepts (R.BaseSystem.bases later.now) (R.BaseSystem.loads later.now) rows }
{}
