// What every call looks for first: that the seats given are seats, and different.
ghost use Rattle.std.specs.Prelude.{◌≡◌, ℕ, ◌<◌, ◌≤◌, MatchResult};
ghost use Rattle.faults.specs.declared.Fault.{Fault};
ghost use Rattle.faults.specs.declared.Reason.TheVariants.{NoSuchSeat};
ghost use Rattle.faults.specs.Places.{fault_at};
ghost use Rattle.bases.specs.Says.{Two, refusal};

use faults::{Fault, Kind, Reason};

// Refuses what is no seat among n.
pub fn seat_given(i: u8, n: u8, kind: Kind) -> Result<(), Fault>
    ensures { MatchResult result (λ _. i < n) (λ fault. (n ≤ i) × (fault ≡ fault_at NoSuchSeat i kind)) }
{
    if i >= n {
        return Err(Fault::at_seat(Reason::NoSuchSeat, i, kind));
    }
    Ok(())
}

// Refuses what are not two different seats among n: the first given first, then the second, then both equal.
pub fn pair_given(i: u8, j: u8, n: u8, kind: Kind) -> Result<(), Fault>
    ensures { MatchResult result (λ _. Two n i j) (λ fault. (Two n i j → ⊥) × ((why : ℕ → ℕ → Fault) → fault ≡ refusal n kind why i j)) }
{
    seat_given(i, n, kind)?;
    seat_given(j, n, kind)?;
    if i == j {
        return Err(Fault::at_seat(Reason::SeatsEqual, i, kind));
    }
    Ok(())
}
