// Base systems: what every bottom and every layer of a pile is, and what follows from the exchange law.
#![tactic(auto)]

pub mod given;
pub mod laws;
pub mod rows;
pub mod system;

pub use given::{pair_given, seat_given};
pub use laws::{reach_is_transitive, standing_load, standing_reach, total};
pub use rows::Rows;
pub use system::BaseSystem;
