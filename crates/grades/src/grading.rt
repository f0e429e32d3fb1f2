// The interface of a grading.
ghost use Rattle.std.specs.Prelude.{◌≡◌, ℕ, Bool};
ghost use Rattle.grades.specs.Grades.{Grades};

// A unit of work: the number-th unit that the seat has.
#[derive(Clone, Copy, PartialEq, Eq, Debug)]
pub struct WorkUnit {
    pub seat: u8,
    pub number: u32,
}

// Says of any two units of work whether the first is graded above the second; it answers for all numbers.
pub trait Grading {
    // `above g i u j v`: unit u of seat i is graded above unit v of seat j
    ghost above: { Self → ℕ → ℕ → ℕ → ℕ → Bool };

    fn is_above(&self, a: WorkUnit, b: WorkUnit) -> bool
        ensures { result ≡ above self.now a.seat a.number b.seat b.number };

    ghost order: { (g : Self) → Grades (above g) };
}
