// A division that can be written down, row by row.
ghost use Rattle.std.specs.Prelude.{ℕ, List};
ghost use Rattle.bases.specs.Rows.{RowsAdd, WriteSays};
ghost use Rattle.items.specs.Fillings.{loads_of};

use crate::division::Division;
use faults::Fault;

// A store of items that writes one row for each item. (It has the members of `bases::Rows` again: a crate may not implement a trait of
// another for a generic type of a third, so a store has a trait of its own.)
pub trait Recorded: Division {
    type Row;

    // the row of each item, in order
    ghost rows: { Self → List Self.Row };

    // what a row gives to a seat
    ghost share: { Self.Row → ℕ → ℕ };

    // writes all rows to the front of the caller's table, since no call allocates, and answers how many
    fn write_rows(&self, out: &mut [Self::Row]) -> Result<usize, Fault>
        ensures { WriteSays (rows self.now) (Self.Division.sort self.now) out.old out.new result };

    // the loads are what the rows add up to
    ghost adds: { (d : Self) → RowsAdd share (rows d) (loads_of (Self.Division.shape d) (Self.Division.amount d)) };
}
