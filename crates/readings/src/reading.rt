// What a page says, and only what a page can say.
ghost use Rattle.std.specs.Prelude.{◌≡◌, length};
ghost use Rattle.readings.specs.Contents.{content_from};
ghost use Rattle.readings.specs.Lawful.{Lawful, stations};
ghost use Rattle.readings.specs.Texts.{text_of};

use crate::bottom::Bottom;
use crate::orders::Orders;

// `bytes` is the length of the page, so that a writer knows before it begins whether there is room.
#[derive(Drop)]
pub struct Reading {
    pub seats: u8,
    pub budget: u32,
    pub bottom: Bottom,
    pub orders: Orders,
    pub bytes: usize,
    ghost lawful: { Lawful stations (content_from seats budget bottom orders) },
    ghost sized: { bytes ≡ length (text_of (content_from seats budget bottom orders)) },
}
