// The grading that draws work to a set of seats, or away from it.
ghost use Rattle.grades.specs.FavourGrades.{favour_grade, is_most};
ghost use Rattle.std.proofs.Common.{arith};

use crate::graded::{Grade, Graded};
use crate::grading::WorkUnit;

// Whether the seats of a set are to have as much as they can, or as little.
#[derive(Clone, Copy, PartialEq, Eq, Debug)]
pub enum Aim {
    Most,
    Least,
}

// Where the seats of the set are to have most, their units are graded lower; where they are to have least, higher.
#[derive(Clone, Copy)]
pub struct FavourGrading {
    pub set: u64,
    pub aim: Aim,
}

impl Graded for FavourGrading {
    ghost grade = { λ g i _. favour_grade g.set (is_most g.aim) i };

    ghost climbs = { λ g i u v le. omega arith };

    fn grade(&self, a: WorkUnit) -> Grade {
        match (self.aim, seats::has(self.set, a.seat)) {
            (Aim::Most, true) | (Aim::Least, false) => Grade::Low,
            (Aim::Most, false) | (Aim::Least, true) => Grade::Middle,
        }
    }
}
