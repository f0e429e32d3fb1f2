// One unit relieved through a chain, and a shift that is refused.
use crate::show::{show_changes, show_loads, show_reach, show_shift};
use bases::Rows;
use carry::Carry;
use chains::Divided;
use legs::{LegRow, LegTable};
use std::io;

// Moves one unit from station 0 to station 2 and back, and then tries what cannot be done.
pub fn relieve(rt: &HostRuntime, table: LegTable) -> io::Result<()> {
    let mut legs = Divided::over(table);
    let blank = LegRow {
        a: 0,
        b: 0,
        share_a: 0,
        share_b: 0,
    };
    let mut before = [blank; 2];
    let mut after = [blank; 2];
    println!(rt;
        "Three stations in a row, with 6 passages between 0 and 1, and 5 between 1 and 2:"
    )?;
    show_loads(rt, &legs)?;
    show_reach(rt, &legs, 0)?;
    let _ = legs.write_rows(&mut before);
    show_shift(rt, &mut legs, 0, 2)?;
    let _ = legs.write_rows(&mut after);
    show_changes(rt, &before, &after)?;
    show_loads(rt, &legs)?;
    println!(rt; "The same under two layers of carried turns, back and once too often:")?;
    let mut pile = Carry::over(Carry::over(legs));
    show_shift(rt, &mut pile, 2, 0)?;
    show_shift(rt, &mut pile, 2, 0)
}
