// The step to take: both seats together, donor first.
ghost use Rattle.std.specs.Option.{MatchOption};
ghost use Rattle.optima.specs.Steps.{LevelBy};
ghost use Rattle.steps.specs.Chosen.{Chosen};

use crate::donors::best_donor;
use crate::receivers::best_receiver;
use bases::{BaseSystem, standing_reach};
use grades::Grading;
use seats::{first, with, without};

// The step to take, or none exactly when there is no step. Donors are asked for their reach from the highest graded down,
// and none is asked that lies in the reach of one that has no step: it has none either. (System and grading stay two arguments: a
// struct of both would have to be made anew for each step, since the shift between takes the system.)
pub fn find_step<S: BaseSystem, G: Grading>(s: &S, grading: &G) -> Option<(u8, u8)>
    ensures { MatchOption result (LevelBy (S.BaseSystem.bases s.now) (G.Grading.above grading.now) (S.BaseSystem.loads s.now)) (λ step. Chosen (S.BaseSystem.bases s.now) (G.Grading.above grading.now) (S.BaseSystem.loads s.now) step.0 step.1) }
{
    let mut left = first(s.count());
    while let Some(i) = best_donor(s, grading, left) {
        let reach = standing_reach(s, i);
        if let Some(j) = best_receiver(s, grading, i, reach) {
            return Some((i, j));
        }
        left = without(left, with(reach, i));
    }
    None
}
