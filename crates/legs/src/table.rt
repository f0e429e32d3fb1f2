// The legs of a table with their present shares.
ghost use Rattle.legs.specs.Lawful.{FewLegs, LawfulLegs, WithinLegs};

use crate::leg::Leg;
use limits::MOST_LEGS;

// `legs` never changes; `first[t]` is the share of end a of leg t, and the rest of its passages is the share of end b.
// The two stand side by side, and not as pairs: the legs are the caller's `Vec`, and making a table allocates nothing.
#[derive(Drop)]
pub struct LegTable {
    pub(crate) seats: u8,
    pub(crate) legs: Vec<Leg>,
    pub(crate) first: [u32; MOST_LEGS],
    ghost few: { FewLegs seats legs.items },
    ghost lawful: { LawfulLegs seats legs.items },
    ghost within: { WithinLegs legs.items first },
}
