// Two worked examples of levelling, proved together from the definitions.
#![tactic(auto)]

ghost use Rattle.soundings.specs.Soundings.{LegByShares, LegWithThreeCarried};

// One leg levelled by shares, and one leg with units carried at one end, which is level from the start.
pub fn worked_examples()
    ensures { LegByShares × LegWithThreeCarried }
{}
