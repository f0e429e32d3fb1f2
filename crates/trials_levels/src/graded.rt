// Gradings.
use faults::{Fault, Kind, Reason};
use grades::{Aim, CapGrading, FavourGrading, Grading, Shares, WorkUnit};

fn unit(seat: u8, number: u32) -> WorkUnit {
    WorkUnit { seat, number }
}

#[test]
fn limits_of_weights(rt: HostRuntime) {
    let mut shares = Shares::new(3);
    assert_eq!(rt;
        shares.weigh(3, 0),
        Err(Fault::at_seat(Reason::NoSuchSeat, 3, Kind::Shares))
    );
    assert_eq!(rt;
        shares.weigh(2, 0),
        Err(Fault::nowhere(Reason::BeyondLimits, Kind::Shares))
    );
    assert_eq!(rt;
        shares.weigh(2, 101),
        Err(Fault::nowhere(Reason::BeyondLimits, Kind::Shares))
    );
    assert_eq!(rt; shares.weigh(2, 1), Ok(()));
    assert_eq!(rt; shares.weigh(2, 100), Ok(()));
    assert!(rt; shares.is_above(unit(0, 1), unit(2, 99)));
    assert!(rt; !shares.is_above(unit(0, 1), unit(2, 100)));
}

#[test]
fn around_a_range_and_a_set(rt: HostRuntime) {
    let cap = CapGrading {
        seat: 4,
        lo: 2,
        hi: 5,
    };
    assert!(rt; cap.is_above(unit(4, 6), unit(0, 1)));
    assert!(rt; !cap.is_above(unit(4, 5), unit(0, 1)));
    assert!(rt; cap.is_above(unit(0, 1), unit(4, 2)));
    assert!(rt; !cap.is_above(unit(0, 1), unit(4, 3)));
    let most = FavourGrading {
        set: 0b10,
        aim: Aim::Most,
    };
    assert!(rt; most.is_above(unit(0, 1), unit(1, 9)));
    assert!(rt; !most.is_above(unit(1, 9), unit(0, 1)));
}
