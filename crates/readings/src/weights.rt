// The weights that a reading gives to its seats.
ghost use Rattle.std.specs.Prelude.{length};
ghost use Rattle.readings.specs.Weights.{LastCounts};

use crate::reading::Reading;

impl Reading {
    // The weight of a seat: of its SHARE lines the last one counts, and without one it is 1.
    pub fn weight(&self, seat: u8) -> u32
        ensures { LastCounts self.now.orders.shares.items (length self.now.orders.shares.items) seat result }
    {
        // by the place of the last line, which the check follows alone; `rev` and `find` take thirty lines of proof
        let shares = self.orders.shares.as_slice();
        let last = shares.iter().rposition(|share| share.seat == seat);
        last.map_or(1, |line| shares[line].weight)
    }
}
