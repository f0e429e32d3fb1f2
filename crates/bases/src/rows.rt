// Base systems that can write how they divide their work.
ghost use Rattle.std.specs.Prelude.{ℕ, List};
ghost use Rattle.bases.specs.Rows.{RowsAdd, WriteSays};

use crate::system::BaseSystem;
use faults::Fault;

// A bottom whose loads come from rows: a row is what one turn or one leg gives to its seats.
pub trait Rows: BaseSystem {
    type Row;

    // the rows that stand
    ghost rows: { Self → List Self.Row };

    // what a row gives to a seat
    ghost share: { Self.Row → ℕ → ℕ };

    // Writes all rows to the front of the caller's table, since no call allocates, and answers how many.
    fn write_rows(&self, out: &mut [Self::Row]) -> Result<usize, Fault>
        ensures writes { WriteSays (rows self.now) (Self.BaseSystem.layer self.now) out.old out.new result }
        ensures adds { RowsAdd share (rows self.now) (Self.BaseSystem.loads self.now) };

    // the standing loads are what the rows add up to
    ghost adds: { (s : Self) → RowsAdd share (rows s) (Self.BaseSystem.loads s) };
}
