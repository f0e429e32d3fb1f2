// Reading a page of any bytes: what it says, or the first fault in it.
#![tactic(auto)]

mod line;
mod row_lines;
