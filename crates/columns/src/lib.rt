// Columns of a page: a number or a word in a given number of bytes.
#![tactic(auto)]

pub mod no_room;
pub mod numbers;
pub mod words;

pub use no_room::NoRoom;
pub use numbers::{number, put_number};
pub use words::{Word, holds, put_word};
