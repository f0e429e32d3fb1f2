// The orders of a page, kind by kind, each kind in the order of the page.
use grades::Aim;

// Carries a number for a seat.
#[derive(Clone, Copy, PartialEq, Eq, Debug)]
pub struct CarryOrder {
    pub seat: u8,
    pub carried: u32,
}

// Caps the load of a seat. (Not the grading around a range, which has the same fields: an order is what a page says, and no grading yet.)
#[derive(Clone, Copy, PartialEq, Eq, Debug)]
pub struct CapOrder {
    pub seat: u8,
    pub lo: u32,
    pub hi: u32,
}

// Favours a set of seats. (Not the grading for a set, for the same reason.)
#[derive(Clone, Copy, PartialEq, Eq, Debug)]
pub struct FavourOrder {
    pub aim: Aim,
    pub set: u64,
}

// Weighs a seat for the grading by shares.
#[derive(Clone, Copy, PartialEq, Eq, Debug)]
pub struct ShareOrder {
    pub seat: u8,
    pub weight: u32,
}

// All orders of a page. On the page they come in this order of kinds, so no other order can be held.
#[derive(Drop)]
pub struct Orders {
    pub carries: Vec<CarryOrder>,
    pub caps: Vec<CapOrder>,
    pub favours: Vec<FavourOrder>,
    pub shares: Vec<ShareOrder>,
}
