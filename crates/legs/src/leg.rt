// One leg, and one row of a written table.

// A leg between the seats a and b, with so many passages.
#[derive(Clone, Copy, PartialEq, Eq, Debug)]
pub struct Leg {
    pub a: u8,
    pub b: u8,
    pub passages: u32,
}

// How many passages of a leg each of its ends has.
#[derive(Clone, Copy, PartialEq, Eq, Debug)]
pub struct LegRow {
    pub a: u8,
    pub b: u8,
    pub share_a: u32,
    pub share_b: u32,
}
