// The limits of legs, on both sides.
use faults::{Fault, Kind, Reason};
use items::Division;
use legs::{Leg, LegTable};
use std::alloc::{AllocError, Global};
use std::test::Fail;

// The fault of a table with one leg, if it is refused.
fn refused(heap: Global, seats: u8, leg: Leg) -> Result<Option<Fault>, AllocError> {
    Ok(LegTable::new(seats, [leg].to_vec(heap)?).err())
}

// The fault of so many equal legs, if they are refused.
fn refused_many(heap: Global, count: usize) -> Result<Option<Fault>, AllocError> {
    let legs = vec![in heap; Leg {
        a: 0,
        b: 1,
        passages: 1_000
    }; count]?;
    Ok(match LegTable::new(2, legs) {
        Ok(table) if table.ceiling() == 256_000 => None,
        Ok(_) => Some(Fault::nowhere(Reason::CeilingPassed, Kind::Legs)),
        Err(fault) => Some(fault),
    })
}

#[test]
fn seats_and_ends(rt: HostRuntime) -> Result<(), Fail> {
    let beyond = Some(Fault::nowhere(Reason::BeyondLimits, Kind::Legs));
    let heap = rt.alloc();
    assert_eq!(rt;
        refused(
            heap,
            0,
            Leg {
                a: 0,
                b: 1,
                passages: 1,
            },
        )?,
        beyond
    );
    assert_eq!(rt;
        refused(
            heap,
            1,
            Leg {
                a: 0,
                b: 1,
                passages: 1,
            },
        )?,
        Some(Fault::at_seat(Reason::NoSuchSeat, 1, Kind::Legs))
    );
    assert_eq!(rt;
        refused(
            heap,
            2,
            Leg {
                a: 0,
                b: 1,
                passages: 1,
            },
        )?,
        None
    );
    assert_eq!(rt;
        refused(
            heap,
            64,
            Leg {
                a: 63,
                b: 0,
                passages: 1,
            },
        )?,
        None
    );
    assert_eq!(rt;
        refused(
            heap,
            64,
            Leg {
                a: 64,
                b: 64,
                passages: 0,
            },
        )?,
        Some(Fault::at_seat(Reason::NoSuchSeat, 64, Kind::Legs))
    );
    assert_eq!(rt;
        refused(
            heap,
            65,
            Leg {
                a: 0,
                b: 1,
                passages: 1,
            },
        )?,
        beyond
    );
    assert_eq!(rt;
        refused(
            heap,
            9,
            Leg {
                a: 7,
                b: 7,
                passages: 0,
            },
        )?,
        Some(Fault::at_seat(Reason::SeatsEqual, 7, Kind::Legs))
    );
    Ok(())
}

#[test]
fn passages_and_legs(rt: HostRuntime) -> Result<(), Fail> {
    let beyond = Some(Fault::nowhere(Reason::BeyondLimits, Kind::Legs));
    let heap = rt.alloc();
    assert_eq!(rt;
        refused(
            heap,
            2,
            Leg {
                a: 0,
                b: 1,
                passages: 0,
            },
        )?,
        beyond
    );
    assert_eq!(rt;
        refused(
            heap,
            2,
            Leg {
                a: 1,
                b: 0,
                passages: 1_000,
            },
        )?,
        None
    );
    assert_eq!(rt;
        refused(
            heap,
            2,
            Leg {
                a: 0,
                b: 1,
                passages: 1_001,
            },
        )?,
        beyond
    );
    assert_eq!(rt; refused_many(heap, 256)?, None);
    assert_eq!(rt; refused_many(heap, 257)?, beyond);
    Ok(())
}
