// Divided items as a base system: its bases are the loads of all fillings.
ghost use Rattle.std.specs.Prelude.{◌≡◌, ℕ, List, slice_index};
ghost use Rattle.std.proofs.Common.{ap, ◌∙◌, sym, subst, ⊎_elim, arith, rules};
ghost use Rattle.faults.specs.declared.Reason.TheVariants.{NoSuchBase};
ghost use Rattle.faults.specs.Places.{fault_at};
ghost use Rattle.items.specs.Fillings.{Divisions, Kept, loads_of, Shape};
ghost use Rattle.chains.specs.Chains.{Shifted};
ghost use Rattle.chains.specs.Exact.{always_stands, divisions_width};
ghost use Rattle.std.proofs.lemmas.Bool.{cases_lt};
ghost use Rattle.std.proofs.lemmas.List.{get_or_past};
ghost use Rattle.items.proofs.Units.{length_loads, loads_at};
ghost use Rattle.items.proofs.Between.{divisions_exchange};

use crate::back::relay_back;
use crate::spread::Spread;
use bases::{BaseSystem, Rows, pair_given, seat_given};
use faults::{Fault, Kind, Reason};
use items::{Division, Recorded};
use seats::{has, with, without};

// A store of items with its present division.
#[derive(Drop)]
pub struct Divided<D> {
    division: D,
}

impl<D: Division> Divided<D> {
    // The system that stands on the present division.
    pub fn over(division: D) -> Divided<D>
        ensures { result.division ≡ division }
    {
        Divided { division }
    }

    // The division on which it stands.
    pub fn division(&self) -> &D
        ensures { result.now ≡ self.now.division }
    {
        &self.division
    }
}

impl<D: Division> BaseSystem for Divided<D> {
    ghost seats = { λ s. (D.Division.shape s.division).seats };

    ghost bases = { λ s. Divisions (D.Division.shape s.division) };

    ghost loads = { λ s. loads_of (D.Division.shape s.division) (D.Division.amount s.division) };

    ghost top = { λ s. D.Division.most s.division };

    ghost layer = { λ s. D.Division.sort s.division };

    ghost why = { λ s i j. fault_at NoSuchBase j (D.Division.sort s.division) };

    ghost shifted = { λ a i j count b. Shifted (D.Division.shape a.division) (D.Division.amount a.division) (D.Division.amount b.division) i j count × Kept D.Division.shape D.Division.most D.Division.sort a.division b.division };

    ghost stands = { λ s.
        let d = D.Division in
        always_stands (d.shape s.division) (d.amount s.division) (d.most s.division) (d.fills s.division) (d.small s.division) };

    ghost few = { Prim.search rules };

    ghost width = { λ s x base. divisions_width (D.Division.shape s.division) x base };

    ghost high = { λ s x (f, fills, e) i.
        let shape = D.Division.shape s.division in
        let at = ap (λ (y : List ℕ). slice_index y i) e in
        let len = length_loads shape f in
        ⊎_elim
        (λ seat. let l = loads_at shape f i seat in let h = D.Division.high s.division f fills i seat in omega arith)
        (λ past. let z = get_or_past (loads_of shape f) i 0 (omega arith) in omega arith) (cases_lt i shape.seats) };

    ghost exchange = { λ s. divisions_exchange (D.Division.shape s.division) };

    ghost moves = { λ a b i j count h. ap (λ (shape : Shape). loads_of shape (D.Division.amount b.division)) h.1.0 ∙ h.0.moves };

    ghost keeps = { λ a b i j count h. (
      λ x. (subst (λ (shape : Shape). Divisions shape x) (sym h.1.0), subst (λ (shape : Shape). Divisions shape x) h.1.0),
      ap (λ (shape : Shape). shape.seats) h.1.0,
      h.1.1,
      h.1.2,
    ) };

    fn kind(&self) -> Kind {
        self.division.kind()
    }

    fn count(&self) -> u8 {
        self.division.seats()
    }

    fn ceiling(&self) -> u32 {
        self.division.ceiling()
    }

    fn load(&self, i: u8) -> Result<u32, Fault> {
        seat_given(i, self.division.seats(), self.division.kind())?;
        Ok(self.division.held(i))
    }

    fn reach(&self, i: u8) -> Result<u64, Fault> {
        seat_given(i, self.division.seats(), self.division.kind())?;
        let spread = Spread::from_seat(&self.division, i);
        Ok(without(spread.seen, with(0, i)))
    }

    fn shift(&mut self, i: u8, j: u8) -> Result<u32, Fault> {
        let kind = self.division.kind();
        pair_given(i, j, self.division.seats(), kind)?;
        let spread = Spread::from_seat(&self.division, i);
        if !has(spread.seen, j) {
            return Err(Fault::at_seat(Reason::NoSuchBase, j, kind));
        }
        Ok(relay_back(&mut self.division, &spread, i, j))
    }
}

impl<D: Recorded> Rows for Divided<D> {
    type Row = D::Row;

    ghost rows = { λ s. D.Recorded.rows s.division };

    ghost share = { D.Recorded.share };

    ghost adds = { Prim.search rules };

    fn write_rows(&self, out: &mut [D::Row]) -> Result<usize, Fault> {
        self.division.write_rows(out)
    }
}
