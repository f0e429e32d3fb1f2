// Choosing the step to take.
#![tactic(auto)]

pub mod choice;
mod donors;
mod foremost;
mod receivers;
mod units;

pub use choice::find_step;
