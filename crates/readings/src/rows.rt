// The rows of turns and of nests. A row of legs is the leg itself.

// A turn that needs so many of its licensed seats.
#[derive(Clone, Copy, PartialEq, Eq, Debug)]
pub struct Turn {
    pub need: u8,
    pub licensed: u64,
}

// A group of nests: it lies in its parent, and its total has limits.
#[derive(Clone, Copy, PartialEq, Eq, Debug)]
pub struct Group {
    pub parent: u8,
    pub lo: u32,
    pub hi: u32,
}

// A seat of nests: it lies in its group, and its load has limits.
#[derive(Clone, Copy, PartialEq, Eq, Debug)]
pub struct SeatRange {
    pub group: u8,
    pub lo: u32,
    pub hi: u32,
}
