// The grading that draws one seat's load between two limits.
ghost use Rattle.grades.specs.CapGrades.{cap_grade};
ghost use Rattle.grades.specs.Numbers.{cap_climbs};

use crate::graded::{Grade, Graded};
use crate::grading::WorkUnit;

// The units of `seat` up to `lo` are graded lowest, those beyond `lo` and `hi` highest, and all other units between.
#[derive(Clone, Copy)]
pub struct CapGrading {
    pub seat: u8,
    pub lo: u32,
    pub hi: u32,
}

impl Graded for CapGrading {
    ghost grade = { λ g. cap_grade g.seat g.lo g.hi };

    ghost climbs = { λ g. cap_climbs g.seat g.lo g.hi };

    fn grade(&self, a: WorkUnit) -> Grade {
        if a.seat != self.seat {
            Grade::Middle
        } else if a.number <= self.lo {
            Grade::Low
        } else if a.number <= self.hi {
            Grade::Middle
        } else {
            Grade::High
        }
    }
}
