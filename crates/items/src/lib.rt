// Items that are divided among seats: what turns and legs have in common.
#![tactic(auto)]

pub mod division;
pub mod recorded;

pub use division::Division;
pub use recorded::Recorded;
