// Levelling, on both sides of its budget.
use bases::BaseSystem;
use carry::Carry;
use chains::Divided;
use faults::{Fault, Kind, Reason};
use grades::{Shares, Whole};
use legs::{Leg, LegTable};
use levels::level;
use std::test::Fail;

#[test]
fn through_a_chain_until_the_budget_is_spent(rt: HostRuntime) -> Result<(), Fail> {
    let row = [
        Leg {
            a: 0,
            b: 1,
            passages: 6,
        },
        Leg {
            a: 1,
            b: 2,
            passages: 5,
        },
    ]
    .to_vec(rt.alloc())?;
    let mut legs = Divided::over(LegTable::new(3, row)?);
    assert_eq!(rt; level(&mut legs, &Whole, 0)?, None);
    assert_eq!(rt; legs.load(0)?, 6);
    assert_eq!(rt; level(&mut legs, &Whole, 1)?, None);
    assert_eq!(rt; legs.load(2)?, 1);
    assert_eq!(rt; level(&mut legs, &Whole, 2)?, Some(2));
    assert_eq!(rt; legs.load(0)?, 4);
    assert_eq!(rt; legs.load(2)?, 3);
    assert_eq!(rt; level(&mut legs, &Whole, 0)?, Some(0));
    Ok(())
}

#[test]
fn limits_of_the_budget(rt: HostRuntime) -> Result<(), Fail> {
    let row = [Leg {
        a: 0,
        b: 1,
        passages: 1,
    }]
    .to_vec(rt.alloc())?;
    let mut legs = Divided::over(LegTable::new(2, row)?);
    assert_eq!(rt;
        level(&mut legs, &Whole, 1_000_000),
        Err(Fault::nowhere(Reason::BeyondLimits, Kind::Legs))
    );
    assert_eq!(rt; level(&mut legs, &Whole, 999_999)?, Some(0));
    Ok(())
}

#[test]
fn by_shares_and_with_carried_turns(rt: HostRuntime) -> Result<(), Fail> {
    let two = [Leg {
        a: 0,
        b: 1,
        passages: 2,
    }]
    .to_vec(rt.alloc())?;
    let mut legs = Divided::over(LegTable::new(2, two)?);
    let mut shares = Shares::new(2);
    assert_eq!(rt; shares.weigh(0, 2), Ok(()));
    assert_eq!(rt; shares.weigh(1, 5), Ok(()));
    assert_eq!(rt; level(&mut legs, &shares, 9)?, Some(2));
    assert_eq!(rt; legs.load(1)?, 2);
    let four = [Leg {
        a: 0,
        b: 1,
        passages: 4,
    }]
    .to_vec(rt.alloc())?;
    let mut pile = Carry::over(Divided::over(LegTable::new(2, four)?));
    assert_eq!(rt; pile.carry(1, 3), Ok(()));
    assert_eq!(rt; level(&mut pile, &Whole, 9)?, Some(0));
    assert_eq!(rt; pile.load(0)?, 4);
    Ok(())
}
