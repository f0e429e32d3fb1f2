// The receiver of a donor: the one whose next unit is graded lowest.
ghost use Rattle.std.specs.Prelude.{ℕ, MatchOption};
ghost use Rattle.seats.specs.Sets.{In, Exactly};
ghost use Rattle.bases.specs.Exchange.{Reaches};
ghost use Rattle.optima.specs.Steps.{Step};
ghost use Rattle.steps.specs.Chosen.{Foremost, better_receiver};

use crate::foremost::foremost;
use crate::units::{last_unit, next_unit};
use bases::BaseSystem;
use grades::Grading;

// The best receiver of a step from i, whose reach is given.
pub fn best_receiver<S: BaseSystem, G: Grading>(s: &S, grading: &G, i: u8, reach: u64) -> Option<u8>
    requires { (j : ℕ) → Exactly (In j reach) (Reaches (S.BaseSystem.bases s.now) (S.BaseSystem.loads s.now) i j) }
    ensures { MatchOption result ((j : ℕ) → Step (S.BaseSystem.bases s.now) (G.Grading.above grading.now) (S.BaseSystem.loads s.now) i j → ⊥) (λ j. Foremost (better_receiver (G.Grading.above grading.now) (S.BaseSystem.loads s.now)) (λ l. Step (S.BaseSystem.bases s.now) (G.Grading.above grading.now) (S.BaseSystem.loads s.now) i l) j) }
{
    let last = last_unit(s, i);
    foremost(
        reach,
        |j| grading.is_above(last, next_unit(s, j)),
        |j, best| grading.is_above(next_unit(s, best), next_unit(s, j)),
    )
}
