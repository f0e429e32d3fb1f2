// Going from seat to seat along links, breadth first.
ghost use Rattle.std.specs.Prelude.{◌≡◌, ℕ, ◌<◌};
ghost use Rattle.chains.specs.Chains.{Distances};
ghost use Rattle.chains.specs.Spreads.{Marked, Spreading};

use items::Division;
use seats::{members_of, union, with, without};

// How a seat was first come to: the seat before it on a shortest chain, and how many links away it is.
#[derive(Clone, Copy)]
pub struct Mark {
    pub from: u8,
    pub far: u8,
}

// The seats seen so far, and of each its mark.
#[derive(Drop)]
pub struct Spread {
    pub seen: u64,
    pub marks: [Mark; 64],
}

impl Spread {
    // Adds new seats, which come from u and are `depth` links away.
    fn mark(&mut self, new: u64, u: u8, depth: u8)
        ensures { Marked new u depth self.old self.new }
    {
        for v in members_of(new) {
            self.marks[v as usize] = Mark {
                from: u,
                far: depth,
            };
        }
        self.seen = union(self.seen, new);
    }

    // Follows every link from the seats of `edge`, which are `depth` links away, and answers the seats found.
    fn further<D: Division>(&mut self, division: &D, i: u8, edge: u64, depth: u8) -> u64
        requires spreading { Spreading (D.Division.shape division.now) (D.Division.amount division.now) i self.old edge 0 depth }
        requires near { depth < 64 }
        ensures { Spreading (D.Division.shape division.now) (D.Division.amount division.now) i self.new 0 result depth }
    {
        let mut next = 0;
        for u in members_of(edge) {
            let new = without(division.links(u), self.seen);
            self.mark(new, u, depth + 1);
            next = union(next, new);
        }
        next
    }

    // All seats that links lead to from seat i.
    pub fn from_seat<D: Division>(division: &D, i: u8) -> Spread
        requires { i < (D.Division.shape division.now).seats }
        ensures { Distances (D.Division.shape division.now) (D.Division.amount division.now) i result }
    {
        let mut spread = Spread {
            seen: with(0, i),
            marks: [Mark { from: 0, far: 0 }; 64],
        };
        // the edge of one turn comes from the turn before, so no iterator gives it beforehand
        let mut edge = spread.seen;
        let mut depth = 0;
        while edge != 0 {
            edge = spread.further(division, i, edge, depth);
            depth += 1;
        }
        spread
    }
}
