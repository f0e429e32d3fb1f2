// Sets of seats. A set is a number of 64 bits: bit i is one exactly when seat i belongs.
// It is a plain u64 and no type of its own: the rules speak of its count of ones and its trailing zeros.
// Every function takes every argument; each contract says which seats belong to the answer.
#![tactic(auto)]

ghost use Rattle.std.specs.Prelude.{◌≡◌, MatchBool, MatchOption, count_ones};
ghost use Rattle.std.specs.Iterator.{at_most};
ghost use Rattle.std.specs.Iterator.Runs.{YieldsInOrder};
ghost use Rattle.seats.specs.Sets.{In, Within, Inserted, Joined, Shared, Removed, Below, Lowest, Taken};
ghost use Rattle.seats.specs.Lists.{to_come, TakesLowest};

// How many seats belong.
pub fn size(set: u64) -> u32
    ensures { result ≡ count_ones set }
{
    set.count_ones()
}

// Whether the seat belongs; a seat from 64 up never does.
pub fn has(set: u64, seat: u8) -> bool
    ensures { MatchBool result (In seat set) (In seat set → ⊥) }
{
    if seat >= 64 {
        return false;
    }
    (set >> seat) & 1 == 1
}

// The set with the seat as a member more; a seat from 64 up adds nothing.
pub fn with(set: u64, seat: u8) -> u64
    ensures { Inserted set seat result }
{
    if seat >= 64 {
        return set;
    }
    set | (1 << seat)
}

// The seats of either set.
pub fn union(a: u64, b: u64) -> u64
    ensures { Joined a b result }
{
    a | b
}

// The seats of both sets.
pub fn common(a: u64, b: u64) -> u64
    ensures { Shared a b result }
{
    a & b
}

// The seats of the first set that do not belong to the second.
pub fn without(a: u64, b: u64) -> u64
    ensures { Removed a b result }
{
    a & !b
}

// Whether each seat of the first set belongs to the second.
pub fn within(a: u64, b: u64) -> bool
    ensures { MatchBool result (Within a b) (Within a b → ⊥) }
{
    without(a, b) == 0
}

// The seats below n; all 64 of them where n is 64 or more.
pub fn first(n: u8) -> u64
    ensures { Below n result }
{
    if n >= 64 {
        return u64::MAX;
    }
    (1 << n) - 1
}

// The lowest seat of a set, if any belongs.
pub fn lowest(set: u64) -> Option<u8>
    ensures { MatchOption result (set ≡ 0) (λ t. Lowest set t) }
{
    if set == 0 {
        return None;
    }
    // at most 63, so nothing is cut off, and a `try_from` would have a case that never comes
    Some(set.trailing_zeros() as u8)
}

// Takes the lowest seat out of the set and answers it.
pub fn take_lowest(left: &mut u64) -> Option<u8>
    ensures { MatchOption result ((left.old ≡ 0) × (left.new ≡ 0)) (λ t. Taken left.old left.new t) }
{
    let seat = lowest(*left)?;
    *left &= *left - 1;
    Some(seat)
}

// A walk through a set in the order of its seats, with the seats that are still to come.
#[derive(Drop)]
pub struct InOrder {
    pub left: u64,
}

impl Iterator for InOrder {
    type Item = u8;

    ghost next_gives = { TakesLowest };

    ghost remaining = { λ s. at_most (count_ones s.left) };

    fn next(&mut self) -> Option<u8> {
        take_lowest(&mut self.left)
    }
}

// The seats of a set, from the lowest up, as `for seat in members_of(set) { .. }`.
pub fn members_of(set: u64) -> InOrder
    ensures set { result.left ≡ set }
    ensures runs { YieldsInOrder TakesLowest to_come }
{
    InOrder { left: set }
}
