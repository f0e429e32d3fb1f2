// A layer that carries a number for each seat, which is added to that seat's load in every base.
#![tactic(auto)]

ghost use Rattle.std.specs.Prelude.{◌≡◌, ℕ, ◌+◌, ◌<◌, ◌≤◌, MatchResult, replicate, slice_index, slice_set, refl};
ghost use Rattle.std.proofs.Common.{ap₂, sym, ◌∙◌, ap, rules};
ghost use Rattle.faults.specs.declared.Kind.TheVariants.{Carry as CarryKind};
ghost use Rattle.faults.specs.Depth.{raised};
ghost use Rattle.carry.specs.Carried.{added, largest as largest_of, Carried, carry_answer};
ghost use Rattle.carry.specs.Layer.{stands_over, carried_width, carried_high, carried_exchange, carried_same};
ghost use Rattle.carry.specs.Added.{added_moved};

use bases::{BaseSystem, pair_given, seat_given};
use faults::{Fault, Kind, Reason, passed_up};
use limits::{HIGHEST_LOAD, MOST_CARRIED};

// One number for each seat that there can be.
#[derive(Drop)]
pub struct CarryTable {
    carried: [u32; 64],
}

// Any base system with a table of numbers above it; the highest load there can be is still a load.
#[derive(Drop)]
pub struct Carry<S: BaseSystem> {
    below: S,
    table: CarryTable,
    ghost low: { S.BaseSystem.top below + largest_of table.carried ≤ 999999 },
}

impl<S: BaseSystem> BaseSystem for Carry<S> {
    ghost seats = { λ s. S.BaseSystem.seats s.below };

    ghost bases = { λ s. Carried s.table.carried (S.BaseSystem.bases s.below) };

    ghost loads = { λ s. added s.table.carried (S.BaseSystem.loads s.below) };

    ghost top = { λ s. S.BaseSystem.top s.below + largest_of s.table.carried };

    ghost layer = { λ _. CarryKind };

    ghost why = { λ s i j. raised (S.BaseSystem.why s.below i j) };

    // the unit comes from below, not from the number carried
    ghost shifted = { λ a i j count b. (a.table.carried ≡ b.table.carried) × S.BaseSystem.shifted a.below i j count b.below × (0 < slice_index (S.BaseSystem.loads a.below) i) };

    ghost stands = { λ s.
        let b = S.BaseSystem in
        stands_over (b.bases s.below) s.table.carried (b.loads s.below) (b.top s.below) (b.stands s.below) s.low };

    ghost few = { Prim.search rules };

    ghost width = { λ s x h.
        let b = S.BaseSystem in
        carried_width (b.bases s.below) s.table.carried (b.seats s.below) (b.width s.below) x h };

    ghost high = { λ s x h i.
        let b = S.BaseSystem in
        carried_high (b.bases s.below) s.table.carried (b.top s.below) (b.high s.below) x h i };

    ghost exchange = { λ s.
        let b = S.BaseSystem in
        carried_exchange (b.bases s.below) s.table.carried (b.seats s.below) (b.width s.below) (b.exchange s.below) };

    ghost moves = { λ s t i j count h.
        let b = S.BaseSystem in
        ap₂ added (sym h.0) (b.moves s.below t.below i j count h.1)
        ∙ added_moved s.table.carried (b.loads s.below) i j h.2 };

    ghost keeps = { λ s t i j count h.
        let b = S.BaseSystem in
        let kept = b.keeps s.below t.below i j count h.1 in (
          carried_same (b.bases s.below) (b.bases t.below) s.table.carried t.table.carried h.0 kept.0,
          kept.1,
          ap₂ (λ (m n : ℕ). m + n) kept.2 (ap largest_of (sym h.0)),
          refl,
        ) };

    fn kind(&self) -> Kind {
        Kind::Carry
    }

    fn count(&self) -> u8 {
        self.below.count()
    }

    fn ceiling(&self) -> u32 {
        self.below.ceiling() + largest(&self.table.carried)
    }

    fn load(&self, i: u8) -> Result<u32, Fault> {
        seat_given(i, self.below.count(), Kind::Carry)?;
        let load = passed_up(self.below.load(i))?;
        Ok(load + self.table.carried[i as usize])
    }

    fn reach(&self, i: u8) -> Result<u64, Fault> {
        seat_given(i, self.below.count(), Kind::Carry)?;
        passed_up(self.below.reach(i))
    }

    fn shift(&mut self, i: u8, j: u8) -> Result<u32, Fault> {
        pair_given(i, j, self.below.count(), Kind::Carry)?;
        passed_up(self.below.shift(i, j))
    }
}

impl<S: BaseSystem> Carry<S> {
    // Lays the layer over a system: nothing is carried.
    pub fn over(below: S) -> Carry<S>
        ensures below { result.below ≡ below }
        ensures carried { result.table.carried ≡ replicate 64 0 }
    {
        Carry {
            below,
            table: CarryTable { carried: [0; 64] },
        }
    }

    // Replaces the number of one seat.
    pub fn carry(&mut self, i: u8, c: u32) -> Result<(), Fault>
        ensures answers { result ≡ carry_answer (S.BaseSystem.seats self.old.below) (S.BaseSystem.top self.old.below) self.old.table.carried i c }
        ensures then { MatchResult result (λ _. (self.new.below ≡ self.old.below) × (self.new.table.carried ≡ slice_set self.old.table.carried i c)) (λ _. self.new ≡ self.old) }
    {
        seat_given(i, self.below.count(), Kind::Carry)?;
        if c > MOST_CARRIED {
            return Err(Fault::nowhere(Reason::BeyondLimits, Kind::Carry));
        }
        let mut after = self.table.carried;
        after[i as usize] = c;
        if self.below.ceiling() + largest(&after) > HIGHEST_LOAD {
            return Err(Fault::at_seat(Reason::CeilingPassed, i, Kind::Carry));
        }
        self.table.carried[i as usize] = c;
        Ok(())
    }

    // The system below, for callers that want its rows.
    pub fn below(&self) -> &S
        ensures { result.now ≡ self.now.below }
    {
        &self.below
    }
}

// The largest of the numbers. (A fold from 0: the library's `max` answers an option, for a list that may be empty, and this is none.)
fn largest(numbers: &[u32; 64]) -> u32
    ensures { result ≡ largest_of numbers.now }
{
    numbers
        .iter()
        .fold(0, |most: u32, number| most.max(*number))
}
