// Legs: passages between two seats, divided between them.
#![tactic(auto)]

pub mod division;
pub mod leg;
mod making;
mod moves;
pub mod table;
pub mod writing;

pub use leg::{Leg, LegRow};
pub use table::LegTable;
