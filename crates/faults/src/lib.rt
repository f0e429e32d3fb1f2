// A refusal: its reason, its place, the layer that gave it, and how deep that layer lies.
#![tactic(auto)]

ghost use Rattle.std.specs.Prelude.{◌≡◌};
ghost use Rattle.faults.specs.Reasons.{number_of};
ghost use Rattle.faults.specs.Depth.{deepened, raised, passed_up};
ghost use Rattle.faults.specs.Places.{shown_place, fault_at, fault_nowhere, fault_on_page};

use std::error::Error;
use std::fmt;

// Why a call is refused, with the number under which the reason is tabled.
#[derive(Clone, Copy, PartialEq, Eq, Debug)]
pub enum Reason {
    NoSuchSeat = 1,
    SeatsEqual = 2,
    NoSuchBase = 3,
    CapForbids = 4,
    CrossesFavoured = 5,
    BeyondLimits = 6,
    BudgetSpent = 7,
    NoBaseWithinCap = 8,
    TooManyEntries = 9,
    CeilingPassed = 10,
    NotLevel = 11,
    TooFewRows = 12,
    Layout = 13,
    NumberBeyondLimits = 14,
    ListNotRising = 15,
    FewerLicensed = 16,
    EndsEqual = 17,
    ParentNotLower = 18,
    NestsHaveNoBase = 19,
    OutputTooShort = 20,
}

// Where it is refused.
#[derive(Clone, Copy, PartialEq, Eq, Debug)]
pub enum Place {
    None,
    Seat(u8),
    Entry(u8),
    Column { line: u32, column: u32 },
}

// Which layer or bottom refuses; `Page` for reader and writer, `Shares` for the weights of shares, `Foreign` for a system that others write.
#[derive(Clone, Copy, PartialEq, Eq, Debug)]
pub enum Kind {
    Page,
    Turns,
    Legs,
    Nests,
    Carry,
    Caps,
    Favour,
    Shares,
    Foreign,
}

// The depth counts the layers from 0 at the top.
#[derive(Clone, Copy, PartialEq, Eq, Debug)]
pub struct Fault {
    pub reason: Reason,
    pub place: Place,
    pub kind: Kind,
    pub depth: u32,
}

impl Reason {
    // The number under which the reason is tabled.
    pub fn number(self) -> u8
        ensures { result ≡ number_of self }
    {
        self as u8
    }
}

impl Fault {
    // A fault of the top layer: its depth is 0.
    fn of_top(reason: Reason, place: Place, kind: Kind) -> Fault
        ensures { result ≡ record { reason = reason; place = place; kind = kind; depth = 0 } }
    {
        Fault {
            reason,
            place,
            kind,
            depth: 0,
        }
    }

    // A fault of the top layer, at a seat.
    pub fn at_seat(reason: Reason, seat: u8, kind: Kind) -> Fault
        ensures { result ≡ fault_at reason seat kind }
    {
        Fault::of_top(reason, Place::Seat(seat), kind)
    }

    // A fault of the top layer, with no place.
    pub fn nowhere(reason: Reason, kind: Kind) -> Fault
        ensures { result ≡ fault_nowhere reason kind }
    {
        Fault::of_top(reason, Place::None, kind)
    }

    // A fault of a page, at a line and a column.
    pub fn on_page(reason: Reason, line: u32, column: u32) -> Fault
        ensures { result ≡ fault_on_page reason line column }
    {
        Fault::of_top(reason, Place::Column { line, column }, Kind::Page)
    }

    // The column, the seat or the entry; 0 where there is none.
    pub fn shown_place(&self) -> u32
        ensures { result ≡ shown_place self.now.place }
    {
        match self.place {
            Place::None => 0,
            Place::Seat(number) | Place::Entry(number) => u32::from(number),
            Place::Column { column, .. } => column,
        }
    }

    // The same fault, seen from one layer higher: one deeper, and the largest depth stays.
    pub fn raised(mut self) -> Fault
        ensures { result ≡ raised self }
    {
        if self.depth < 999_999 {
            self.depth += 1;
        }
        self
    }
}

// A refusal in words, as `NoSuchBase (number 3) at Seat(0), by Legs at depth 2`.
impl fmt::Display for Fault {
    fn fmt<W: fmt::Write>(&self, f: &mut fmt::Formatter<W>) -> fmt::Result {
        let number = self.reason.number();
        write!(
            f,
            "{:?} (number {number}) at {:?}, by {:?} at depth {}",
            self.reason, self.place, self.kind, self.depth
        )
    }
}

impl Error for Fault {}

// What the system below answered, its fault seen from one layer higher.
pub fn passed_up<T>(answer: Result<T, Fault>) -> Result<T, Fault>
    ensures { result ≡ passed_up answer }
{
    answer.map_err(Fault::raised)
}
