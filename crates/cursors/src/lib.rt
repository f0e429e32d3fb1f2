// Reading a page from left to right, one column after another.
#![tactic(auto)]

pub mod cursor;
mod lists;
pub mod numbers;
mod steps;

pub use cursor::Cursor;
pub use numbers::Number;
