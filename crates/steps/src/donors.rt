// The donor among some seats: the one whose last unit is graded highest.
ghost use Rattle.std.specs.Prelude.{ℕ, ◌<◌, MatchOption, slice_index};
ghost use Rattle.seats.specs.Sets.{In};
ghost use Rattle.steps.specs.Chosen.{Foremost, better_donor};

use crate::foremost::foremost;
use crate::units::last_unit;
use bases::{BaseSystem, standing_load};
use grades::Grading;

// The best of the seats that have a unit to give.
pub fn best_donor<S: BaseSystem, G: Grading>(s: &S, grading: &G, seats: u64) -> Option<u8>
    ensures { MatchOption result ((i : ℕ) → In i seats → 0 < slice_index (S.BaseSystem.loads s.now) i → ⊥) (λ i. Foremost (better_donor (G.Grading.above grading.now) (S.BaseSystem.loads s.now)) (λ k. In k seats × (0 < slice_index (S.BaseSystem.loads s.now) k)) i) }
{
    foremost(
        seats,
        |i| standing_load(s, i) > 0,
        |i, best| grading.is_above(last_unit(s, i), last_unit(s, best)),
    )
}
