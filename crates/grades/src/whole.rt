// The grading by whole loads.
ghost use Rattle.grades.specs.Grades.{whole};
ghost use Rattle.grades.specs.Numbers.{whole_grades};

use crate::grading::{Grading, WorkUnit};

// The later unit is above, whichever seats have the two.
#[derive(Clone, Copy)]
pub struct Whole;

impl Grading for Whole {
    ghost above = { λ _. whole };

    ghost order = { λ g. whole_grades };

    fn is_above(&self, a: WorkUnit, b: WorkUnit) -> bool {
        a.number > b.number
    }
}
