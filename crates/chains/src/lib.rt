// Base systems of divided items: reach and shift through chains of links.
#![tactic(auto)]

mod back;
mod spread;
pub mod system;

pub use system::Divided;
