// Gradings that give each unit one of three grades.
ghost use Rattle.std.specs.Prelude.{◌≡◌, ◌≤◌, ℕ};
ghost use Rattle.grades.specs.ByNumber.{by_number, number_of_grade};
ghost use Rattle.grades.specs.Numbers.{number_grades};

use crate::grading::{Grading, WorkUnit};

// From the lowest to the highest; a grading with two grades has the lower two.
#[derive(Clone, Copy, PartialEq, Eq, PartialOrd, Ord, Debug)]
pub enum Grade {
    Low,
    Middle,
    High,
}

// Gives each unit a grade, which does not fall along a seat's units; it answers for all numbers.
pub trait Graded {
    // `grade g i u`: the number of the grade of unit u of seat i
    ghost grade: { Self → ℕ → ℕ → ℕ };

    fn grade(&self, a: WorkUnit) -> Grade
        ensures { number_of_grade result ≡ grade self.now a.seat a.number };

    ghost climbs: { (g : Self) (i u v : ℕ) → u ≤ v → grade g i u ≤ grade g i v };
}

// The unit of the higher grade is above.
impl<G: Graded> Grading for G {
    ghost above = { λ g. by_number (G.grade g) };

    ghost order = { λ g. number_grades (G.grade g) (G.climbs g) };

    fn is_above(&self, a: WorkUnit, b: WorkUnit) -> bool {
        self.grade(a) > self.grade(b)
    }
}
