// Reach and shift through chains of legs.
use bases::{BaseSystem, Rows, total};
use chains::Divided;
use faults::{Fault, Kind, Reason};
use legs::{Leg, LegRow, LegTable};
use std::test::Fail;

#[test]
fn through_the_middle(rt: HostRuntime) -> Result<(), Fail> {
    let row = [
        Leg {
            a: 0,
            b: 1,
            passages: 6,
        },
        Leg {
            a: 1,
            b: 2,
            passages: 5,
        },
    ]
    .to_vec(rt.alloc())?;
    let mut legs = Divided::over(LegTable::new(4, row)?);
    assert_eq!(rt; total(&legs), 11);
    assert_eq!(rt; legs.reach(0)?, 0b0110);
    assert_eq!(rt; legs.reach(2)?, 0);
    assert_eq!(rt;
        legs.shift(0, 3),
        Err(Fault::at_seat(Reason::NoSuchBase, 3, Kind::Legs))
    );
    assert_eq!(rt; legs.shift(0, 2)?, 2);
    assert_eq!(rt; legs.load(0)?, 5);
    assert_eq!(rt; legs.load(1)?, 5);
    assert_eq!(rt; legs.load(2)?, 1);
    assert_eq!(rt; legs.reach(2)?, 0b0011);
    Ok(())
}

#[test]
fn seats_that_are_none(rt: HostRuntime) -> Result<(), Fail> {
    let row = [Leg {
        a: 0,
        b: 1,
        passages: 1,
    }]
    .to_vec(rt.alloc())?;
    let mut legs = Divided::over(LegTable::new(2, row)?);
    assert_eq!(rt;
        legs.load(2),
        Err(Fault::at_seat(Reason::NoSuchSeat, 2, Kind::Legs))
    );
    assert_eq!(rt;
        legs.reach(255),
        Err(Fault::at_seat(Reason::NoSuchSeat, 255, Kind::Legs))
    );
    assert_eq!(rt;
        legs.shift(2, 3),
        Err(Fault::at_seat(Reason::NoSuchSeat, 2, Kind::Legs))
    );
    assert_eq!(rt;
        legs.shift(0, 3),
        Err(Fault::at_seat(Reason::NoSuchSeat, 3, Kind::Legs))
    );
    assert_eq!(rt;
        legs.shift(1, 1),
        Err(Fault::at_seat(Reason::SeatsEqual, 1, Kind::Legs))
    );
    Ok(())
}

#[test]
fn rows_are_written(rt: HostRuntime) -> Result<(), Fail> {
    let row = [Leg {
        a: 1,
        b: 0,
        passages: 7,
    }]
    .to_vec(rt.alloc())?;
    let mut legs = Divided::over(LegTable::new(2, row)?);
    assert_eq!(rt; legs.shift(1, 0)?, 1);
    let blank = LegRow {
        a: 9,
        b: 9,
        share_a: 9,
        share_b: 9,
    };
    let mut none: [LegRow; 0] = [];
    assert_eq!(rt;
        legs.write_rows(&mut none),
        Err(Fault::nowhere(Reason::TooFewRows, Kind::Legs))
    );
    let mut table = [blank; 2];
    assert_eq!(rt; legs.write_rows(&mut table)?, 1);
    assert_eq!(rt;
        table[0],
        LegRow {
            a: 1,
            b: 0,
            share_a: 6,
            share_b: 1,
        }
    );
    assert_eq!(rt; table[1], blank);
    Ok(())
}
