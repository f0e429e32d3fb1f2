// A cursor in a page: what is left of it, and the line and the column that come next, both from 1.
ghost use Rattle.std.specs.Prelude.{◌+◌, ◌^◌, ◌≤◌, length};

use std::marker::Model;

#[derive(Drop)]
pub struct Cursor<'a> {
    pub(crate) rest: &'a [u8],
    pub(crate) line: u32,
    pub(crate) column: u32,
}

// Contracts see the spot where it stands. Neither the line nor the column runs beyond the bytes of a page.
impl<'a> Model for Cursor<'a> {
    ghost use Rattle.std.specs.Prelude.{◌+◌, ◌^◌, ◌≤◌, length};
    ghost use Rattle.cursors.specs.Steps.{Spot};

    ghost Value = { Spot };

    ghost view = { λ c. record { rest = c.rest.now; line = c.line; column = c.column } };

    ghost invariant = { λ c. (c.line + length c.rest.now ≤ 2 ^ 20) × (c.column + length c.rest.now ≤ 2 ^ 20) };
}

impl<'a> Cursor<'a> {
    // For callers, who see the spot alone: neither the line nor the column runs beyond the bytes of a page.
    pub fn bounds(&self)
        ensures lines { self.now.line + length self.now.rest ≤ 2 ^ 20 }
        ensures columns { self.now.column + length self.now.rest ≤ 2 ^ 20 }
    {
        // a use of a field opens the cursor, and so its invariant
        let _ = &self.line;
    }
}
