// Relaying one unit along a shortest chain, from its last link to its first.
ghost use Rattle.std.specs.Prelude.{◌≡◌, ℕ, ◌<◌, ◌≢◌};
ghost use Rattle.seats.specs.Sets.{In};
ghost use Rattle.items.specs.Fillings.{Kept};
ghost use Rattle.chains.specs.Chains.{Distances, Passed};

use crate::spread::Spread;
use items::Division;

// Relays one unit along the chain from i to j, and answers the number of links.
pub fn relay_back<D: Division>(division: &mut D, spread: &Spread, i: u8, j: u8) -> u32
    requires distances { Distances (D.Division.shape division.old) (D.Division.amount division.old) i spread.now }
    requires reached { In j spread.now.seen }
    requires apart { j ≢ i }
    ensures passes { Passed (D.Division.shape division.old) (D.Division.amount division.old) (D.Division.amount division.new) i j result }
    ensures keeps { Kept D.Division.shape D.Division.most D.Division.sort division.old division.new }
{
    // an iterator of the seats on the way, for this one use, would be a type more and no plainer
    let mut v = j;
    let mut count = 0;
    while v != i {
        let u = spread.marks[v as usize].from;
        let _ = division.relay(u, v);
        v = u;
        count += 1;
    }
    count
}
