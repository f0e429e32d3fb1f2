// Lines of one kind, read into room that is there.
ghost use Rattle.std.specs.Prelude.{◌≡◌, ℕ, vec_items};
ghost use Rattle.cursors.specs.Lists.{numbered};
ghost use Rattle.cursors.specs.Steps.{Step, outcome, outcome_by};
ghost use Rattle.readings.specs.Rooms.{Roomy};

use cursors::Cursor;
use faults::Fault;

// A line by what it says, where it is line number `index` of its kind, and its seats or groups lie below `bound`.
pub trait Line: Sized {
    ghost line: { ℕ → ℕ → Step Self };

    fn read(cursor: &mut Cursor<'_>, bound: u8, index: u32) -> Result<Self, Fault>
        ensures { outcome result cursor.new ≡ line bound index cursor.old };
}

// So many lines.
pub fn lines<L: Line + Drop>(
    cursor: &mut Cursor<'_>,
    room: Vec<L>,
    bound: u8,
    count: u32,
) -> Result<Vec<L>, Fault>
    requires { Roomy count room }
    ensures { outcome_by vec_items result cursor.new ≡ numbered (L.Line.line bound) count 0 cursor.old }
{
    let mut rows = room;
    for index in 0..count {
        let row = L::read(cursor, bound, index)?;
        rows.push_reserved(row);
    }
    Ok(rows)
}
