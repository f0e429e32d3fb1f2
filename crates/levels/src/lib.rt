// Levelling: the steps to take, one after another, until none is left or the budget is spent.
#![tactic(auto)]

pub mod levelling;

pub use levelling::level;
