// Examples of what the planner does: relief through a chain, a plan with its certificate, a plan by shares.
#![tactic(auto)]

mod plans;
mod relief;
mod show;

use legs::{Leg, LegTable};
use plans::{plan, plan_by_shares};
use relief::relieve;
use show::show_fault;
use std::alloc::{AllocError, Global};
use std::io;

fn main(rt: HostRuntime) -> anyhow::Result<()> {
    let two = [Leg {
        a: 0,
        b: 1,
        passages: 2,
    }];
    with_table(&rt, 3, stations(rt.alloc())?, relieve)?;
    with_table(&rt, 3, stations(rt.alloc())?, plan)?;
    with_table(&rt, 2, two.to_vec(rt.alloc())?, plan_by_shares)?;
    Ok(())
}

// Makes a table of the legs and goes on with it, or tells why it is refused.
fn with_table<F: FnOnce(&HostRuntime, LegTable) -> io::Result<()>>(
    rt: &HostRuntime,
    seats: u8,
    legs: Vec<Leg>,
    show: F,
) -> io::Result<()>
    requires { F.IsAlwaysCallable show }
{
    match LegTable::new(seats, legs) {
        Ok(table) => show(rt, table),
        Err(fault) => show_fault(rt, fault),
    }
}

// Three stations in a row: the heaviest can only be relieved through the middle one.
fn stations(heap: Global) -> Result<Vec<Leg>, AllocError> {
    [
        Leg {
            a: 0,
            b: 1,
            passages: 6,
        },
        Leg {
            a: 1,
            b: 2,
            passages: 5,
        },
    ]
    .to_vec(heap)
}
