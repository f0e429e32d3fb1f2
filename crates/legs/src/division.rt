// A table of legs as a division of passages among seats.
ghost use Rattle.std.specs.Prelude.{length};
ghost use Rattle.faults.specs.declared.Kind.TheVariants.{Legs as LegsKind};
ghost use Rattle.legs.specs.Shares.{shape_of, amount_of, most_of};
ghost use Rattle.legs.specs.Lawfully.{shares_fill, load_high, most_small};
ghost use Rattle.std.proofs.Common.{arith};

use crate::table::LegTable;
use faults::Kind;
use items::Division;

impl Division for LegTable {
    ghost shape = { λ d. shape_of d.seats d.legs.items };

    ghost amount = { λ d. amount_of d.legs.items d.first };

    ghost most = { λ d. most_of d.legs.items };

    ghost sort = { λ _. LegsKind };

    ghost few = { λ d. (d.few.0, d.few.1) };

    ghost fills = { λ d. shares_fill d.seats d.legs.items d.lawful d.first d.within };

    ghost high = { λ d. load_high d.seats d.legs.items d.lawful };

    ghost small = { λ d. let few = d.few in omega (arith, most_small d.seats d.legs.items d.lawful (length d.legs.items) (omega arith)) };

    fn kind(&self) -> Kind {
        Kind::Legs
    }

    fn seats(&self) -> u8 {
        self.seats
    }

    fn ceiling(&self) -> u32 {
        self.legs.iter().map(|leg| leg.passages).sum()
    }

    fn held(&self, seat: u8) -> u32 {
        self.shared().map(|leg| leg.share(seat)).sum()
    }

    fn links(&self, u: u8) -> u64 {
        self.shared()
            .fold(0, |set, leg| seats::union(set, leg.linked(u)))
    }

    fn relay(&mut self, u: u8, v: u8) -> bool {
        let Some(t) = self.linking_leg(u, v) else {
            return false;
        };
        if u == self.legs[t].a {
            self.first[t] -= 1;
        } else {
            self.first[t] += 1;
        }
        true
    }
}
