// The grading by shares: by loads that are divided by a weight for each seat.
ghost use Rattle.std.specs.Prelude.{◌≡◌, replicate, MatchResult, slice_set};
ghost use Rattle.grades.specs.Weights.{Weights, weight_of, by_shares, weigh_answer};
ghost use Rattle.grades.specs.Fractions.{share_grades};

use crate::grading::{Grading, WorkUnit};
use faults::{Fault, Kind, Reason};
use limits::MOST_WEIGHT;

// The layer that refuses.
const KIND: Kind = Kind::Shares;

// One weight, from 1 to 100, for each seat that there can be: an array of all 64, since no call may allocate.
#[derive(Drop)]
pub struct Shares {
    seats: u8,
    weights: [u32; 64],
    ghost within: { Weights weights },
}

impl Shares {
    // For so many seats, each of weight 1.
    pub fn new(seats: u8) -> Shares
        ensures seats { result.seats ≡ seats }
        ensures even { result.weights ≡ replicate 64 1 }
    {
        Shares {
            seats,
            weights: [1; 64],
        }
    }

    // Replaces the weight of one seat.
    pub fn weigh(&mut self, i: u8, w: u32) -> Result<(), Fault>
        ensures answers { result ≡ weigh_answer self.old.seats i w }
        ensures then { MatchResult result (λ _. (self.new.seats ≡ self.old.seats) × (self.new.weights ≡ slice_set self.old.weights i w)) (λ _. self.new ≡ self.old) }
    {
        if i >= self.seats || i >= 64 {
            return Err(Fault::at_seat(Reason::NoSuchSeat, i, KIND));
        }
        if !(1..=MOST_WEIGHT).contains(&w) {
            return Err(Fault::nowhere(Reason::BeyondLimits, KIND));
        }
        // by its index: of what `get_mut` of an array leaves, a proof learns the length and no weight
        self.weights[usize::from(i)] = w;
        Ok(())
    }

    // The weight of a seat; past the 64 seats it is 1.
    fn weight(&self, i: u8) -> u32
        ensures { result ≡ weight_of self.now.weights i }
    {
        self.weights.get(usize::from(i)).copied().unwrap_or(1)
    }
}

impl Grading for Shares {
    ghost above = { λ g. by_shares (weight_of g.weights) };

    ghost order = { λ g. share_grades (weight_of g.weights) (λ i. (g.within i).0) };

    fn is_above(&self, a: WorkUnit, b: WorkUnit) -> bool {
        // a's number / weight of its seat > b's number / weight of its seat
        u64::from(a.number) * u64::from(self.weight(b.seat))
            > u64::from(b.number) * u64::from(self.weight(a.seat))
    }
}
