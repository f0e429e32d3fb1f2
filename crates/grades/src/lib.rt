// Gradings of units of work.
#![tactic(auto)]

pub mod cap;
pub mod favour;
pub mod graded;
pub mod grading;
pub mod shares;
pub mod whole;

pub use cap::CapGrading;
pub use favour::{Aim, FavourGrading};
pub use graded::{Grade, Graded};
pub use grading::{Grading, WorkUnit};
pub use shares::Shares;
pub use whole::Whole;
