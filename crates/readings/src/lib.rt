// What a page says: the bottom of a pile, and the orders for its layers.
#![tactic(auto)]

pub mod bottom;
pub mod orders;
pub mod page_limits;
pub mod reading;
pub mod room;
pub mod rows;
mod weights;

pub use bottom::Bottom;
pub use grades::Aim;
pub use legs::Leg;
pub use orders::{CapOrder, CarryOrder, FavourOrder, Orders, ShareOrder};
pub use page_limits::PageLimits;
pub use reading::Reading;
pub use room::Room;
pub use rows::{Group, SeatRange, Turn};
