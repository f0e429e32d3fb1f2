// The units that a step speaks of.
ghost use Rattle.std.specs.Prelude.{◌≡◌, ◌+◌, slice_index};

use bases::{BaseSystem, standing_load};
use grades::WorkUnit;

// The last unit that seat i has.
pub fn last_unit<S: BaseSystem>(s: &S, i: u8) -> WorkUnit
    ensures { result ≡ record { seat = i; number = slice_index (S.BaseSystem.loads s.now) i } }
{
    WorkUnit {
        seat: i,
        number: standing_load(s, i),
    }
}

// The unit that seat j would get next. (Two functions, this one and the last: a parameter for the one unit more would say less.)
pub fn next_unit<S: BaseSystem>(s: &S, j: u8) -> WorkUnit
    ensures { result ≡ record { seat = j; number = slice_index (S.BaseSystem.loads s.now) j + 1 } }
{
    WorkUnit {
        seat: j,
        number: standing_load(s, j) + 1,
    }
}
