// The most seats, turns and legs that a page may have.
ghost use Rattle.std.specs.Prelude.{◌≡◌, ◌≤◌};
ghost use Rattle.limits.specs.Limits.{most_seats, most_turns, most_legs};

use limits::{MOST_LEGS, MOST_SEATS, MOST_TURNS};

// Limits of a page: no higher than those of the stations.
#[derive(Clone, Copy, Drop)]
pub struct PageLimits {
    pub seats: u8,
    pub turns: u32,
    pub legs: u32,
    ghost few_seats: { seats ≤ most_seats },
    ghost few_turns: { turns ≤ most_turns },
    ghost few_legs: { legs ≤ most_legs },
}

impl PageLimits {
    // The limits of the pilot stations.
    pub fn stations() -> PageLimits
        ensures seats { result.seats ≡ most_seats }
        ensures turns { result.turns ≡ most_turns }
        ensures legs { result.legs ≡ most_legs }
    {
        // 512 and 256 fit, so nothing is cut off, and a `try_from` would have a case that never comes
        PageLimits {
            seats: MOST_SEATS,
            turns: MOST_TURNS as u32,
            legs: MOST_LEGS as u32,
        }
    }
}
