// The rows of turns, legs and nests.
ghost use Rattle.reader.specs.Rows.{turn_line, leg_line, group_line, range_line};

use crate::line::Line;
use cursors::Cursor;
use faults::{Fault, Reason};
use limits::{MOST_IN_NEST, MOST_NEED, MOST_PASSAGES};
use readings::{Group, Leg, SeatRange, Turn};

impl Line for Turn {
    ghost line = { turn_line };

    fn read(cursor: &mut Cursor<'_>, bound: u8, _index: u32) -> Result<Turn, Fault> {
        let need = cursor.number(0, MOST_NEED)?;
        let size = cursor.number(0, bound)?;
        let licensed = cursor.seat_set(bound, size)?;
        cursor.close_line((need > size).then_some(Reason::FewerLicensed))?;
        Ok(Turn { need, licensed })
    }
}

impl Line for Leg {
    ghost line = { leg_line };

    fn read(cursor: &mut Cursor<'_>, bound: u8, _index: u32) -> Result<Leg, Fault> {
        let a = cursor.seat(0, bound)?;
        let b = cursor.seat(0, bound)?;
        let passages = cursor.number(1, MOST_PASSAGES)?;
        cursor.close_line((a == b).then_some(Reason::EndsEqual))?;
        Ok(Leg { a, b, passages })
    }
}

impl Line for Group {
    ghost line = { group_line };

    // Group 0 names itself as its parent, and its limits are the same; a later one lies in a lower one.
    fn read(cursor: &mut Cursor<'_>, bound: u8, index: u32) -> Result<Group, Fault> {
        let parent = cursor.below(bound)?;
        let lo = cursor.number(0, MOST_IN_NEST)?;
        let (hi, lower) = match index {
            0 => (cursor.number(lo, lo)?, parent == 0),
            _ => (cursor.number(0, MOST_IN_NEST)?, u32::from(parent) < index),
        };
        cursor.close_line((!lower).then_some(Reason::ParentNotLower))?;
        Ok(Group { parent, lo, hi })
    }
}

impl Line for SeatRange {
    ghost line = { range_line };

    fn read(cursor: &mut Cursor<'_>, bound: u8, _index: u32) -> Result<SeatRange, Fault> {
        let group = cursor.below(bound)?;
        let lo = cursor.number(0, MOST_IN_NEST)?;
        let hi = cursor.number(0, MOST_IN_NEST)?;
        cursor.end_line()?;
        Ok(SeatRange { group, lo, hi })
    }
}
