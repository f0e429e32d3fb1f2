// The different loads of the seats, from the highest down.
ghost use Rattle.std.specs.Prelude.{◌≡◌, ◌<◌, MatchOption};
ghost use Rattle.std.specs.Iterator.{at_most};
ghost use Rattle.certificates.specs.Loads.{NextLoad, WalksDown, different_loads};

use bases::{BaseSystem, standing_load};
use limits::HIGHEST_LOAD;

// The largest positive load below a bound, if there is one.
fn highest_below<S: BaseSystem>(s: &S, bound: u32) -> Option<u32>
    ensures { MatchOption result (NextLoad (S.BaseSystem.loads s.now) bound 0) (λ load. (0 < load) × NextLoad (S.BaseSystem.loads s.now) bound load) }
{
    (0..s.count())
        .map(|i| standing_load(s, i))
        .filter(|load| (1..bound).contains(load))
        .max()
}

// The different positive loads of a system, from the highest down: those below the bound are still to come.
#[derive(Drop)]
pub struct Values<'a, S> {
    system: &'a S,
    bound: u32,
}

impl<'a, S: BaseSystem> Iterator for Values<'a, S> {
    type Item = u32;

    ghost next_gives = { WalksDown S.BaseSystem.loads };

    ghost remaining = { λ v. at_most v.bound };

    fn next(&mut self) -> Option<u32> {
        let load = highest_below(self.system, self.bound)?;
        self.bound = load;
        Some(load)
    }
}

// All different positive loads of a system, from the highest down.
pub fn values_of<S: BaseSystem>(s: &S) -> Values<S>
    ensures system { result.system.now ≡ s.now }
    ensures all { result.bound ≡ 1000000 }
{
    Values {
        system: s,
        bound: HIGHEST_LOAD + 1,
    }
}

// How many different positive loads there are.
pub fn count_values<S: BaseSystem>(s: &S) -> usize
    ensures { result ≡ different_loads (S.BaseSystem.loads s.now) }
{
    values_of(s).count()
}
