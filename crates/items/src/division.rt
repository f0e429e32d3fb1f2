// A store of items, with their present division among seats.
ghost use Rattle.std.specs.Prelude.{◌≡◌, ℕ, ◌<◌, ◌≤◌, MatchBool, slice_index};
ghost use Rattle.faults.specs.declared.Kind.{Kind};
ghost use Rattle.seats.specs.Sets.{In, Exactly};
ghost use Rattle.items.specs.Fillings.{Shape, Fills, Link, Relayed, Kept, load_of, loads_of};

use faults::Kind;

// A store of items with their present division, which is always a filling: every call takes every argument.
pub trait Division {
    // the seats and items, the rooms and what is due; nothing changes it
    ghost shape: { Self → Shape };

    // what each seat has of each item (apart from the shape: one shape goes with the amounts before and after, or with none)
    ghost amount: { Self → ℕ → ℕ → ℕ };

    // a number that no load of any filling exceeds
    ghost most: { Self → ℕ };

    // the bottom that refuses
    ghost sort: { Self → Kind };

    fn kind(&self) -> Kind
        ensures { result ≡ sort self.now };

    fn seats(&self) -> u8
        ensures { result ≡ (shape self.now).seats };

    fn ceiling(&self) -> u32
        ensures { result ≡ most self.now };

    // the load of a seat; 0 where it is none
    fn held(&self, seat: u8) -> u32
        ensures { result ≡ slice_index (loads_of (shape self.now) (amount self.now)) seat };

    // the seats that u links to
    fn links(&self, u: u8) -> u64
        ensures { (v : ℕ) → Exactly (In v result) (Link (shape self.now) (amount self.now) u v) };

    // moves one unit of one item from u to v; false, and nothing is moved, where u does not link to v
    // (a `bool`, as a set's `insert` answers: a refusal would say nothing more, and relays go along links that stand)
    fn relay(&mut self, u: u8, v: u8) -> bool
        ensures moves { MatchBool result (Relayed (shape self.old) (amount self.old) (amount self.new) u v) ((Link (shape self.old) (amount self.old) u v → ⊥) × (self.new ≡ self.old)) }
        ensures keeps { Kept shape most sort self.old self.new };

    ghost few: { (d : Self) → (1 ≤ (shape d).seats) × ((shape d).seats ≤ 64) };

    ghost fills: { (d : Self) → Fills (shape d) (amount d) };

    ghost high: { (d : Self) (f : ℕ → ℕ → ℕ) → Fills (shape d) f → (seat : ℕ) → seat < (shape d).seats → load_of (shape d) f seat ≤ most d };

    ghost small: { (d : Self) → most d ≤ 999999 };
}
