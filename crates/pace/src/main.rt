// How long levelling takes: the largest systems of legs, with the time of each on the error output.
#![tactic(auto)]

use chains::Divided;
use grades::Whole;
use legs::{Leg, LegTable};
use levels::level;
use limits::MOST_STEPS;
use std::time::Instant;

fn main(rt: HostRuntime) -> anyhow::Result<()> {
    let star = (0..=u8::MAX)
        .map(|t| Leg {
            a: t % 8,
            b: 8 + t % 56,
            passages: 1_000,
        })
        .collect(rt.alloc())?;
    let row = (0..=u8::MAX)
        .map(|t| Leg {
            a: t % 63,
            b: t % 63 + 1,
            passages: 1_000,
        })
        .collect(rt.alloc())?;
    pace(&rt, "eight stations have all", star)?;
    pace(&rt, "stations in a row", row)
}

// Levels so many legs among 64 stations by whole loads.
fn pace(rt: &HostRuntime, name: &str, legs: Vec<Leg>) -> anyhow::Result<()> {
    let start = Instant::now(rt)?;
    match LegTable::new(64, legs) {
        Ok(table) => report(rt, name, table, start)?,
        Err(_) => println!(rt; "{name}: refused")?,
    }
    Ok(())
}

fn report(rt: &HostRuntime, name: &str, table: LegTable, start: Instant) -> anyhow::Result<()> {
    let mut legs = Divided::over(table);
    // the whole budget where it is spent
    let steps = level(&mut legs, &Whole, MOST_STEPS)?.unwrap_or(MOST_STEPS);
    let elapsed = start.elapsed(rt)?;
    println!(rt; "{name}: {steps} steps")?;
    if steps > 0 {
        let each = elapsed.as_nanos() / u128::from(steps);
        eprintln!(rt; "{name}: {each} nanoseconds a step")?;
    }
    Ok(())
}
