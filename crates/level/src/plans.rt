// Levelled plans.
use crate::show::{show_fault, show_loads, show_set};
use bases::BaseSystem;
use certificates::{CertRow, certify, check};
use chains::Divided;
use grades::{Grading, Shares, Whole};
use legs::LegTable;
use levels::level;
use std::io;

// The plan by whole loads, with its certificate.
pub fn plan(rt: &HostRuntime, table: LegTable) -> io::Result<()> {
    let mut legs = Divided::over(table);
    println!(rt; "The same stations, levelled by whole loads:")?;
    show_level(rt, &mut legs, &Whole, 100)?;
    show_loads(rt, &legs)?;
    show_certificate(rt, &legs)
}

// The plan by shares, of two stations with the weights 2 and 5.
pub fn plan_by_shares(rt: &HostRuntime, table: LegTable) -> io::Result<()> {
    let mut legs = Divided::over(table);
    let mut shares = Shares::new(2);
    let _ = shares.weigh(0, 2);
    let _ = shares.weigh(1, 5);
    println!(rt; "Two stations with 2 passages, levelled by shares of the weights 2 and 5:")?;
    show_level(rt, &mut legs, &shares, 9)?;
    show_loads(rt, &legs)
}

// Levels a system, and tells how it ended.
fn show_level<S: BaseSystem, G: Grading>(
    rt: &HostRuntime,
    s: &mut S,
    grading: &G,
    budget: u32,
) -> io::Result<()> {
    match level(s, grading, budget) {
        Ok(Some(steps)) => println!(rt; "level after {steps} steps"),
        Ok(None) => println!(rt; "spent after {budget} steps"),
        Err(fault) => show_fault(rt, fault),
    }
}

// Certifies a level system, and checks the certificate.
fn show_certificate<S: BaseSystem>(rt: &HostRuntime, s: &S) -> io::Result<()> {
    let mut table = [CertRow { value: 0, set: 0 }; 64];
    match certify(s, &mut table) {
        Ok(count) => show_rows(rt, s, &table[..count]),
        Err(fault) => show_fault(rt, fault),
    }
}

// The rows of a certificate, and whether they pass.
fn show_rows<S: BaseSystem>(rt: &HostRuntime, s: &S, rows: &[CertRow]) -> io::Result<()> {
    for row in rows {
        print!(rt; "certificate: load {}, stations", row.value)?;
        show_set(rt, row.set)?;
    }
    let passes = check(s, rows);
    println!(rt; "the certificate passes: {passes}")
}
