// One leg, and the legs of a table, as they stand.
ghost use Rattle.std.specs.Prelude.{◌≡◌, ℕ, ◌<◌, ◌≤◌, length, MatchBool, MatchOption};
ghost use Rattle.seats.specs.Sets.{In, Exactly};
ghost use Rattle.legs.specs.Lawful.{WithinLegs};
ghost use Rattle.legs.specs.Shares.{share_of, LegLinks, SomeLinks, FirstLinks};

use crate::leg::Leg;
use crate::table::LegTable;

// A leg as it stands: its end a has `first` of its passages, and its end b the rest.
#[derive(Clone, Copy)]
pub struct SharedLeg {
    pub(crate) leg: Leg,
    pub(crate) first: u32,
    ghost within: { first ≤ leg.passages },
}

impl SharedLeg {
    // The share of a seat.
    pub fn share(self, seat: u8) -> u32
        ensures { result ≡ share_of self.leg self.first seat }
    {
        if seat == self.leg.a {
            self.first
        } else if seat == self.leg.b {
            self.leg.passages - self.first
        } else {
            0
        }
    }

    // Whether the leg links u to v.
    pub fn links_to(self, u: u8, v: u8) -> bool
        ensures { MatchBool result (LegLinks self.leg self.first u v) (LegLinks self.leg self.first u v → ⊥) }
    {
        if u == self.leg.a && v == self.leg.b && self.first > 0 {
            return true;
        }
        u == self.leg.b && v == self.leg.a && self.first < self.leg.passages
    }

    // The seats that the leg links u to.
    pub fn linked(self, u: u8) -> u64
        ensures { (v : ℕ) → Exactly (In v result) ((v < 64) × LegLinks self.leg self.first u v) }
    {
        if u == self.leg.a && self.first > 0 {
            return seats::with(0, self.leg.b);
        }
        if u == self.leg.b && self.first < self.leg.passages {
            return seats::with(0, self.leg.a);
        }
        0
    }
}

// The legs of a table as they stand, in order.
#[derive(Drop)]
pub struct SharedLegs<'a> {
    legs: &'a [Leg],
    first: &'a [u32],
    ghost within: { WithinLegs legs.now first.now },
}

impl<'a> Iterator for SharedLegs<'a> {
    ghost use Rattle.std.specs.Iterator.{YieldsFirstBy, item_count};
    ghost use Rattle.legs.specs.SharedLegs.{pair_of, pairs_left};

    type Item = SharedLeg;

    ghost next_gives = { YieldsFirstBy pair_of pairs_left };

    ghost remaining = { item_count pairs_left };

    fn next(&mut self) -> Option<SharedLeg> {
        let (leg, legs) = self.legs.split_first()?;
        let (first, rest) = self.first.split_first()?;
        *self = SharedLegs { legs, first: rest };
        Some(SharedLeg {
            leg: *leg,
            first: *first,
        })
    }
}

impl LegTable {
    ghost use Rattle.legs.specs.SharedLegs.{pairs_of, pairs_left};

    // Its legs as they stand.
    pub(crate) fn shared(&self) -> SharedLegs<'_>
        ensures { pairs_left result ≡ pairs_of self.now.legs.items self.now.first }
    {
        // the shares of the legs alone, so that both slices end together
        SharedLegs {
            legs: &self.legs,
            first: &self.first[..self.legs.len()],
        }
    }

    // The first leg that links u to v.
    pub(crate) fn linking_leg(&self, u: u8, v: u8) -> Option<usize>
        ensures { MatchOption result (SomeLinks self.now.legs.items self.now.first (length self.now.legs.items) u v → ⊥) (λ t. FirstLinks self.now.legs.items self.now.first u v t) }
    {
        self.shared().position(|leg| leg.links_to(u, v))
    }
}
