// The bottom that a page describes.
use crate::rows::{Group, SeatRange, Turn};
use legs::Leg;

#[derive(Drop)]
pub enum Bottom {
    Turns(Vec<Turn>),
    Legs(Vec<Leg>),
    // the groups, and then one range for each seat
    Nests(Vec<Group>, Vec<SeatRange>),
}
