// Levelling any base system by any grading.
ghost use Rattle.std.specs.Prelude.{ℕ};
ghost use Rattle.levels.specs.Levelling.{LevelSays, Promised};

use bases::BaseSystem;
use faults::{Fault, Reason};
use grades::Grading;
use limits::MOST_STEPS;
use steps::find_step;

// Takes the best step as long as there is one and the budget lasts. Answers how many steps made the system level; or none,
// where the budget is spent and another step is there.
pub fn level<S: BaseSystem, G: Grading>(
    s: &mut S,
    grading: &G,
    budget: u32,
) -> Result<Option<u32>, Fault>
    ensures says { LevelSays S.BaseSystem.bases S.BaseSystem.loads S.BaseSystem.shifted (S.BaseSystem.layer s.old) (G.Grading.above grading.now) budget s.old s.new result }
    ensures promised { Promised (S.BaseSystem.bases s.old) (G.Grading.above grading.now) budget (S.BaseSystem.loads s.old) (S.BaseSystem.loads s.new) result }
{
    if budget > MOST_STEPS {
        return Err(Fault::nowhere(Reason::BeyondLimits, s.kind()));
    }
    // the count is the answer; a `for` up to the budget would ask for a step once more behind it, and is no plainer
    let mut made = 0;
    while let Some((i, j)) = find_step(s, grading) {
        if made == budget {
            return Ok(None);
        }
        s.shift(i, j)?;
        made += 1;
    }
    Ok(Some(made))
}
