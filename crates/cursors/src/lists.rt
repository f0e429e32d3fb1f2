// Lists of seats in a line.
ghost use Rattle.std.specs.Prelude.{◌≡◌};
ghost use Rattle.cursors.specs.Lists.{seat_set};
ghost use Rattle.cursors.specs.Steps.{outcome};

use crate::cursor::Cursor;
use faults::Fault;
use limits::MOST_SEATS;

impl<'a> Cursor<'a> {
    // So many seats, of the `n` that there are and at most 64, which rise strictly: as a set.
    pub fn seat_set(&mut self, n: u8, size: u8) -> Result<u64, Fault>
        ensures { outcome result self.new ≡ seat_set n size self.old }
    {
        let count = n.min(MOST_SEATS);
        let mut set = 0;
        let mut low = 0;
        // each seat is read behind the last one and must lie above it, and any may be refused, so a fold is no plainer
        for _ in 0..size {
            let seat = self.seat(low, count)?;
            set = seats::with(set, seat);
            low = seat + 1;
        }
        Ok(set)
    }
}
