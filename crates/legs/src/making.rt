// Making a table of legs.
ghost use Rattle.std.specs.Prelude.{◌≡◌, ℕ, ◌<◌, ◌≤◌, length, None, Some, MatchResult, slice_index};
ghost use Rattle.legs.specs.Lawful.{leg_at};
ghost use Rattle.legs.specs.Refusals.{leg_fault, legs_fault, NewSays};

use crate::leg::Leg;
use crate::table::LegTable;
use bases::pair_given;
use faults::{Fault, Kind, Reason};
use limits::{MOST_LEGS, MOST_PASSAGES, MOST_SEATS};

impl LegTable {
    // Makes a table of the caller's legs, where end a of each leg has all of it; or refuses with the first fault.
    pub fn new(seats: u8, legs: Vec<Leg>) -> Result<LegTable, Fault>
        ensures { NewSays seats legs.items result }
    {
        lawful_legs(seats, &legs)?;
        let first = all_passages(&legs);
        Ok(LegTable { seats, legs, first })
    }
}

// Refuses with the first fault that is due, if any is.
fn lawful_legs(seats: u8, legs: &[Leg]) -> Result<(), Fault>
    ensures { MatchResult result (λ _. legs_fault seats legs.now ≡ None) (λ fault. legs_fault seats legs.now ≡ Some fault) }
{
    if seats == 0 || seats > MOST_SEATS || legs.len() > MOST_LEGS {
        return Err(Fault::nowhere(Reason::BeyondLimits, Kind::Legs));
    }
    for leg in legs {
        lawful_leg(seats, *leg)?;
    }
    Ok(())
}

// Refuses a leg with the first fault that is due, if any is.
fn lawful_leg(seats: u8, leg: Leg) -> Result<(), Fault>
    ensures { MatchResult result (λ _. leg_fault seats leg ≡ None) (λ fault. leg_fault seats leg ≡ Some fault) }
{
    pair_given(leg.a, leg.b, seats, Kind::Legs)?;
    if leg.passages == 0 || leg.passages > MOST_PASSAGES {
        return Err(Fault::nowhere(Reason::BeyondLimits, Kind::Legs));
    }
    Ok(())
}

// The passages of each leg, in order.
fn all_passages(legs: &[Leg]) -> [u32; MOST_LEGS]
    requires { length legs.now ≤ 256 }
    ensures { (t : ℕ) → t < length legs.now → slice_index result t ≡ (leg_at legs.now t).passages }
{
    // each by its place: of numbers written through `iter_mut`, a proof knows the count alone
    let mut first = [0; MOST_LEGS];
    for (t, leg) in legs.iter().enumerate() {
        first[t] = leg.passages;
    }
    first
}
