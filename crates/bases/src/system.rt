// The interface of a base system.
ghost use Rattle.std.specs.Prelude.{◌≡◌, ℕ, ◌<◌, ◌≤◌, List, length, slice_index};
ghost use Rattle.faults.specs.declared.Fault.{Fault};
ghost use Rattle.faults.specs.declared.Kind.{Kind};
ghost use Rattle.bases.specs.Exchange.{moved, Exchange, Same};
ghost use Rattle.bases.specs.Family.{Family};
ghost use Rattle.bases.specs.Says.{Stands, LoadSays, ReachSays, ShiftSays, refusal};

use faults::{Fault, Kind};

// A base system has seats, bases (lists of one load for each seat) and one base on which it stands.
// Only a shift that is not refused changes the standing base, and nothing changes the bases.
// It always stands on one of its bases: that is a law of the type, so no call asks for it. Each call covers every argument.
pub trait BaseSystem {
    // the number of seats
    ghost seats: { Self → ℕ };

    // the load lists that are bases
    ghost bases: { Self → List ℕ → Type 0 };

    // the standing loads (apart from the bases: promises speak of other loads of the same bases)
    ghost loads: { Self → List ℕ };

    // a number that no load of any base exceeds
    ghost top: { Self → ℕ };

    // the layer or bottom that refuses
    ghost layer: { Self → Kind };

    // the fault of a shift between two different seats that is refused
    ghost why: { Self → ℕ → ℕ → Fault };

    // `shifted a i j count b`: one shift of a unit from i to j takes the whole state a to b, with that count
    ghost shifted: { Self → ℕ → ℕ → ℕ → Self → Type 0 };

    fn kind(&self) -> Kind
        ensures { result ≡ layer self.now };

    fn count(&self) -> u8
        ensures { result ≡ seats self.now };

    fn ceiling(&self) -> u32
        ensures { result ≡ top self.now };

    fn load(&self, i: u8) -> Result<u32, Fault>
        ensures { LoadSays (loads self.now) (layer self.now) i result };

    fn reach(&self, i: u8) -> Result<u64, Fault>
        ensures { ReachSays (bases self.now) (loads self.now) (layer self.now) i result };

    fn shift(&mut self, i: u8, j: u8) -> Result<u32, Fault>
        ensures { ShiftSays self.old self.new (bases self.old) (loads self.old) (refusal (seats self.old) (layer self.old) (why self.old) i j) (λ count. shifted self.old i j count self.new) i j result };

    // every value stands on one of its bases, and its ceiling is a load
    ghost stands: { (s : Self) → Stands (bases s) (loads s) (top s) };

    ghost few: { (s : Self) → (1 ≤ seats s) × (seats s ≤ 64) };

    ghost width: { (s : Self) (x : List ℕ) → bases s x → length x ≡ seats s };

    ghost high: { (s : Self) (x : List ℕ) → bases s x → (i : ℕ) → slice_index x i ≤ top s };

    ghost exchange: { (s : Self) → Exchange (bases s) };

    // a shift moves one unit of the standing loads
    ghost moves: { (a b : Self) (i j count : ℕ) → shifted a i j count b → loads b ≡ moved (loads a) i j };

    // and leaves the bases, the seats, the ceiling and the kind as they are
    ghost keeps: { (a b : Self) (i j count : ℕ) → shifted a i j count b → Same (bases a) (bases b) × (seats b ≡ seats a) × (top b ≡ top a) × (layer b ≡ layer a) };

    // so the bases are a family, of which every promise about bases speaks
    ghost family: { (s : Self) → Family (bases s) (seats s) (top s) } = { λ s. record { exchange = exchange s; width = width s; few = (few s).1; high = high s; low = (stands s).1 } };
}
