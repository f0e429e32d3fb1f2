// Room for all that a page can say, set up before it is read: reading itself never wants for memory.
ghost use Rattle.limits.specs.Limits.{most_seats, most_turns, most_legs, most_groups};
ghost use Rattle.readings.specs.Rooms.{Roomy, most_orders};

use crate::orders::{CapOrder, CarryOrder, FavourOrder, ShareOrder};
use crate::rows::{Group, SeatRange, Turn};
use legs::Leg;
use limits::{MOST_GROUPS, MOST_LEGS, MOST_SEATS, MOST_TURNS};
use std::alloc::{AllocError, Global};

// How many orders of one kind a page can have at the most.
pub const MOST_ORDERS: usize = 2_520;

#[derive(Drop)]
pub struct Room {
    pub turns: Vec<Turn>,
    pub legs: Vec<Leg>,
    pub groups: Vec<Group>,
    pub ranges: Vec<SeatRange>,
    pub carries: Vec<CarryOrder>,
    pub caps: Vec<CapOrder>,
    pub favours: Vec<FavourOrder>,
    pub shares: Vec<ShareOrder>,
    ghost for_turns: { Roomy most_turns turns },
    ghost for_legs: { Roomy most_legs legs },
    ghost for_groups: { Roomy most_groups groups },
    ghost for_ranges: { Roomy most_seats ranges },
    ghost for_carries: { Roomy most_orders carries },
    ghost for_caps: { Roomy most_orders caps },
    ghost for_favours: { Roomy most_orders favours },
    ghost for_shares: { Roomy most_orders shares },
}

impl Room {
    // The one call that may want for memory.
    pub fn new(heap: Global) -> Result<Room, AllocError> {
        Ok(Room {
            turns: Vec::with_capacity(heap, MOST_TURNS)?,
            legs: Vec::with_capacity(heap, MOST_LEGS)?,
            groups: Vec::with_capacity(heap, usize::from(MOST_GROUPS))?,
            ranges: Vec::with_capacity(heap, usize::from(MOST_SEATS))?,
            carries: Vec::with_capacity(heap, MOST_ORDERS)?,
            caps: Vec::with_capacity(heap, MOST_ORDERS)?,
            favours: Vec::with_capacity(heap, MOST_ORDERS)?,
            shares: Vec::with_capacity(heap, MOST_ORDERS)?,
        })
    }
}
