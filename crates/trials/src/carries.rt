// Carried numbers, on both sides of their limits.
use bases::BaseSystem;
use carry::Carry;
use chains::Divided;
use faults::{Fault, Kind, Reason};
use legs::{Leg, LegTable};
use std::test::Fail;

#[test]
fn replaces_one_number(rt: HostRuntime) -> Result<(), Fail> {
    let row = [Leg {
        a: 0,
        b: 1,
        passages: 4,
    }]
    .to_vec(rt.alloc())?;
    let mut pile = Carry::over(Divided::over(LegTable::new(2, row)?));
    assert_eq!(rt; pile.carry(1, 3), Ok(()));
    assert_eq!(rt; pile.load(1)?, 3);
    assert_eq!(rt; pile.carry(1, 2), Ok(()));
    assert_eq!(rt; pile.load(1)?, 2);
    assert_eq!(rt; pile.load(0)?, 4);
    assert_eq!(rt; pile.ceiling(), 6);
    assert_eq!(rt; pile.reach(1)?, 0);
    assert_eq!(rt; pile.shift(0, 1)?, 1);
    assert_eq!(rt; pile.load(1)?, 3);
    Ok(())
}

#[test]
fn limits_of_a_number(rt: HostRuntime) -> Result<(), Fail> {
    let row = [Leg {
        a: 0,
        b: 1,
        passages: 1_000,
    }]
    .to_vec(rt.alloc())?;
    let mut pile = Carry::over(Divided::over(LegTable::new(2, row)?));
    assert_eq!(rt;
        pile.carry(2, 900_001),
        Err(Fault::at_seat(Reason::NoSuchSeat, 2, Kind::Carry))
    );
    assert_eq!(rt;
        pile.carry(0, 900_001),
        Err(Fault::nowhere(Reason::BeyondLimits, Kind::Carry))
    );
    assert_eq!(rt; pile.carry(0, 900_000), Ok(()));
    assert_eq!(rt; pile.ceiling(), 901_000);
    Ok(())
}

#[test]
fn limits_of_the_ceiling(rt: HostRuntime) -> Result<(), Fail> {
    let row = [Leg {
        a: 0,
        b: 1,
        passages: 999,
    }]
    .to_vec(rt.alloc())?;
    let mut pile = Carry::over(Divided::over(LegTable::new(2, row)?));
    assert_eq!(rt; pile.carry(0, 900_000), Ok(()));
    let mut higher = Carry::over(pile);
    assert_eq!(rt;
        higher.carry(1, 99_001),
        Err(Fault::at_seat(Reason::CeilingPassed, 1, Kind::Carry))
    );
    assert_eq!(rt; higher.ceiling(), 900_999);
    assert_eq!(rt; higher.carry(1, 99_000), Ok(()));
    assert_eq!(rt; higher.ceiling(), 999_999);
    Ok(())
}
