// What the program prints.
use bases::{BaseSystem, standing_load};
use faults::Fault;
use legs::LegRow;
use seats::members_of;
use std::io;

// The load of each seat.
pub fn show_loads<S: BaseSystem>(rt: &HostRuntime, s: &S) -> io::Result<()> {
    // seats are asked for by number, and each line may fail to be written, so a chain is no plainer
    for i in 0..s.count() {
        println!(rt; "station {i}: {}", standing_load(s, i))?;
    }
    Ok(())
}

// The seats that can take a unit from seat i.
pub fn show_reach<S: BaseSystem>(rt: &HostRuntime, s: &S, i: u8) -> io::Result<()> {
    match s.reach(i) {
        Ok(reach) => {
            print!(rt; "reach of station {i}:")?;
            show_set(rt, reach)
        }
        Err(fault) => show_fault(rt, fault),
    }
}

// The seats of a set, to the end of the line.
pub fn show_set(rt: &HostRuntime, set: u64) -> io::Result<()> {
    for seat in members_of(set) {
        print!(rt; " {seat}")?;
    }
    println!(rt; "")
}

// Shifts one unit from i to j, and tells how many passages changed ends, or why it is refused.
pub fn show_shift<S: BaseSystem>(rt: &HostRuntime, s: &mut S, i: u8, j: u8) -> io::Result<()> {
    match s.shift(i, j) {
        Ok(count) => println!(rt; "shift from {i} to {j}: {count} passages changed ends"),
        Err(fault) => show_fault(rt, fault),
    }
}

// The legs whose shares are not what they were.
pub fn show_changes(rt: &HostRuntime, before: &[LegRow], after: &[LegRow]) -> io::Result<()> {
    for (old, new) in before.iter().zip(after.iter()) {
        if old.share_a != new.share_a {
            println!(rt;
                "leg {}-{}: shares {} and {} became {} and {}",
                old.a, old.b, old.share_a, old.share_b, new.share_a, new.share_b
            )?;
        }
    }
    Ok(())
}

// A refusal in words.
pub fn show_fault(rt: &HostRuntime, fault: Fault) -> io::Result<()> {
    println!(rt; "refused: {fault}")
}
