// What follows from the exchange law, for every base system.
ghost use Rattle.std.specs.Prelude.{◌≡◌, ℕ, List, sum, ◌≢◌, slice_index};
ghost use Rattle.seats.specs.Sets.{In, Exactly};
ghost use Rattle.bases.specs.Exchange.{Reaches};

use crate::system::BaseSystem;

// The standing load of seat i; 0 where i is no seat. (Two functions, this one and the next: one for both would take the call as a
// closure, and say no more than its one line.)
pub fn standing_load<S: BaseSystem>(s: &S, i: u8) -> u32
    ensures { result ≡ slice_index (S.BaseSystem.loads s.now) i }
{
    s.load(i).unwrap_or(0)
}

// The seats in the reach of seat i; none where i is no seat.
pub fn standing_reach<S: BaseSystem>(s: &S, i: u8) -> u64
    ensures { (j : ℕ) → Exactly (In j result) (Reaches (S.BaseSystem.bases s.now) (S.BaseSystem.loads s.now) i j) }
{
    s.reach(i).unwrap_or(0)
}

// The sum of the standing loads, which is the sum of the loads of every base.
pub fn total<S: BaseSystem>(s: &S) -> u32
    ensures { (x : List ℕ) → S.BaseSystem.bases s.now x → sum x ≡ result }
{
    (0..s.count()).map(|i| standing_load(s, i)).sum()
}

// Where i can give a unit to j, and j one to a third seat k, i can give one to k.
pub fn reach_is_transitive<S: BaseSystem>(s: &S)
    ensures { (i j k : ℕ) → (i ≢ k) → Reaches (S.BaseSystem.bases s.now) (S.BaseSystem.loads s.now) i j → Reaches (S.BaseSystem.bases s.now) (S.BaseSystem.loads s.now) j k → Reaches (S.BaseSystem.bases s.now) (S.BaseSystem.loads s.now) i k }
{}
