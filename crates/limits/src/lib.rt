// The limits, each given once. The statements cite the same numbers, under names of their own.
#![tactic(auto)]

// The most seats that a system may have.
pub const MOST_SEATS: u8 = 64;

// The most turns of one table.
pub const MOST_TURNS: usize = 512;

// The most legs of one table.
pub const MOST_LEGS: usize = 256;

// The most groups of a system of nests.
pub const MOST_GROUPS: u8 = 32;

// The most seats that one turn may need.
pub const MOST_NEED: u8 = 64;

// The most passages of one leg.
pub const MOST_PASSAGES: u32 = 1_000;

// The largest number that the limits lo and hi of a nest may be.
pub const MOST_IN_NEST: u32 = 100_000;

// The largest number that may be carried for a seat.
pub const MOST_CARRIED: u32 = 900_000;

// The largest weight of a seat.
pub const MOST_WEIGHT: u32 = 100;

// The largest budget of steps.
pub const MOST_STEPS: u32 = 999_999;

// The highest load that a seat may have; no ceiling and no limit of a cap is above it.
pub const HIGHEST_LOAD: u32 = 999_999;

// The most bytes of a page.
pub const MOST_BYTES: usize = 32_768;

// The bytes of one column of a page.
pub const COLUMN_BYTES: usize = 6;
