// Checking a certificate.
ghost use Rattle.std.specs.Prelude.{MatchBool};
ghost use Rattle.grades.specs.Grades.{whole};
ghost use Rattle.optima.specs.Costs.{HeaviestLeast};
ghost use Rattle.optima.specs.Steps.{LevelBy};
ghost use Rattle.certificates.specs.Tables.{Accepts, AllPass, Closed, Covered, Fits, HasValue, Passes};

use crate::row::CertRow;
use bases::{BaseSystem, standing_load, standing_reach};
use limits::HIGHEST_LOAD;
use seats::{first, has, members_of, within};

// Whether some row has this value.
fn has_value(rows: &[CertRow], value: u32) -> bool
    ensures { MatchBool result (HasValue rows.now value) (HasValue rows.now value → ⊥) }
{
    rows.iter().any(|row| row.value == value)
}

// Whether each positive load has a row.
fn all_covered<S: BaseSystem>(s: &S, rows: &[CertRow]) -> bool
    ensures { MatchBool result (Covered (S.BaseSystem.loads s.now) rows.now) (Covered (S.BaseSystem.loads s.now) rows.now → ⊥) }
{
    (0..s.count()).all(|i| {
        let load = standing_load(s, i);
        load == 0 || has_value(rows, load)
    })
}

// Whether the row's set holds every seat with at least the row's value, and none with less than one below.
fn fits<S: BaseSystem>(s: &S, row: CertRow) -> bool
    ensures { MatchBool result (Fits (S.BaseSystem.loads s.now) row.value row.set) (Fits (S.BaseSystem.loads s.now) row.value row.set → ⊥) }
{
    (0..s.count()).all(|i| {
        let load = standing_load(s, i);
        if has(row.set, i) {
            load + 1 >= row.value
        } else {
            load < row.value
        }
    })
}

// Whether the reach of each seat of the set lies in it.
fn closed<S: BaseSystem>(s: &S, set: u64) -> bool
    ensures { MatchBool result (Closed (S.BaseSystem.bases s.now) (S.BaseSystem.loads s.now) set) (Closed (S.BaseSystem.bases s.now) (S.BaseSystem.loads s.now) set → ⊥) }
{
    members_of(set).all(|i| within(standing_reach(s, i), set))
}

// Whether a row passes.
fn passes<S: BaseSystem>(s: &S, row: CertRow) -> bool
    ensures { MatchBool result (Passes (S.BaseSystem.bases s.now) (S.BaseSystem.loads s.now) row.value row.set) (Passes (S.BaseSystem.bases s.now) (S.BaseSystem.loads s.now) row.value row.set → ⊥) }
{
    (1..=HIGHEST_LOAD).contains(&row.value)
        && within(row.set, first(s.count()))
        && fits(s, row)
        && closed(s, row.set)
}

// Whether each row passes.
fn all_pass<S: BaseSystem>(s: &S, rows: &[CertRow]) -> bool
    ensures { MatchBool result (AllPass (S.BaseSystem.bases s.now) (S.BaseSystem.loads s.now) rows.now) (AllPass (S.BaseSystem.bases s.now) (S.BaseSystem.loads s.now) rows.now → ⊥) }
{
    rows.iter().all(|row| passes(s, *row))
}

// Whether each positive load has a row with its value, and each row passes. Where it says yes, the standing base is level by whole
// loads, and for each k its k heaviest loads add up to no more than those of any base.
pub fn check<S: BaseSystem>(s: &S, rows: &[CertRow]) -> bool
    ensures answers { MatchBool result (Accepts (S.BaseSystem.bases s.now) (S.BaseSystem.loads s.now) rows.now) (Accepts (S.BaseSystem.bases s.now) (S.BaseSystem.loads s.now) rows.now → ⊥) }
    ensures levels { Accepts (S.BaseSystem.bases s.now) (S.BaseSystem.loads s.now) rows.now → LevelBy (S.BaseSystem.bases s.now) whole (S.BaseSystem.loads s.now) }
    ensures heaviest_least { Accepts (S.BaseSystem.bases s.now) (S.BaseSystem.loads s.now) rows.now → HeaviestLeast (S.BaseSystem.bases s.now) (S.BaseSystem.loads s.now) }
{
    all_covered(s, rows) && all_pass(s, rows)
}
