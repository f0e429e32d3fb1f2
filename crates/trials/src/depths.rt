// A fault raised through one layer after another.
use bases::BaseSystem;
use carry::Carry;
use chains::Divided;
use faults::{Fault, Kind, Place, Reason, passed_up};
use legs::{Leg, LegTable};
use std::test::Fail;

// The bottom's refusal of a receiver, seen from so many layers above.
fn no_such_base(receiver: u8, depth: u32) -> Fault {
    Fault {
        reason: Reason::NoSuchBase,
        place: Place::Seat(receiver),
        kind: Kind::Legs,
        depth,
    }
}

#[test]
fn through_two_layers(rt: HostRuntime) -> Result<(), Fail> {
    let row = [Leg {
        a: 0,
        b: 1,
        passages: 1,
    }]
    .to_vec(rt.alloc())?;
    let mut pile = Carry::over(Carry::over(Divided::over(LegTable::new(2, row)?)));
    assert_eq!(rt; pile.shift(1, 0), Err(no_such_base(0, 2)));
    assert_eq!(rt;
        pile.shift(2, 0),
        Err(Fault::at_seat(Reason::NoSuchSeat, 2, Kind::Carry))
    );
    Ok(())
}

#[test]
fn through_three_layers(rt: HostRuntime) -> Result<(), Fail> {
    let row = [Leg {
        a: 0,
        b: 1,
        passages: 1,
    }]
    .to_vec(rt.alloc())?;
    let mut pile = Carry::over(Carry::over(Carry::over(Divided::over(LegTable::new(2, row)?))));
    assert_eq!(rt; pile.shift(1, 0), Err(no_such_base(0, 3)));
    assert_eq!(rt;
        pile.shift(0, 0),
        Err(Fault::at_seat(Reason::SeatsEqual, 0, Kind::Carry))
    );
    Ok(())
}

#[test]
fn the_largest_depth_stays(rt: HostRuntime) {
    for (depth, raised) in [(0, 1), (999_998, 999_999), (999_999, 999_999)] {
        let answer: Result<u8, Fault> = passed_up(Err(no_such_base(4, depth)));
        assert_eq!(rt; answer, Err(no_such_base(4, raised)));
    }
    let answer: Result<u8, Fault> = passed_up(Ok(7));
    assert_eq!(rt; answer, Ok(7));
}

#[test]
fn refusals_in_words(rt: HostRuntime) -> Result<(), Fail> {
    for (fault, words) in [
        (
            no_such_base(0, 2),
            "NoSuchBase (number 3) at Seat(0), by Legs at depth 2",
        ),
        (
            Fault::on_page(Reason::Layout, 4, 7),
            "Layout (number 13) at Column { line: 4, column: 7 }, by Page at depth 0",
        ),
        (
            Fault::nowhere(Reason::OutputTooShort, Kind::Page),
            "OutputTooShort (number 20) at None, by Page at depth 0",
        ),
    ] {
        let text = format!(in rt.alloc(); "{fault}")?;
        assert_eq!(rt; text.as_str(), words);
    }
    Ok(())
}
