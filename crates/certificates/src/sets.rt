// The set of seats of a row.
ghost use Rattle.certificates.specs.Tables.{RowFor};

use bases::{BaseSystem, standing_load, standing_reach};
use seats::{union, with};

// The seats with at least this load, and all seats in their reach.
pub fn row_set<S: BaseSystem>(s: &S, value: u32) -> u64
    ensures { RowFor (S.BaseSystem.bases s.now) (S.BaseSystem.loads s.now) value result }
{
    (0..s.count())
        .filter(|i| standing_load(s, *i) >= value)
        .fold(0, |set, i| union(with(set, i), standing_reach(s, i)))
}
