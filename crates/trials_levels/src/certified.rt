// Certificates, right and wrong.
use certificates::{CertRow, certify};
use chains::Divided;
use faults::{Fault, Kind, Reason};
use grades::Whole;
use legs::{Leg, LegTable};
use levels::level;
use std::test::Fail;

#[test]
fn certified_when_level(rt: HostRuntime) -> Result<(), Fail> {
    let row = [Leg {
        a: 0,
        b: 1,
        passages: 3,
    }]
    .to_vec(rt.alloc())?;
    let mut legs = Divided::over(LegTable::new(2, row)?);
    let mut table = [CertRow { value: 7, set: 7 }; 2];
    assert_eq!(rt;
        certify(&legs, &mut table),
        Err(Fault::nowhere(Reason::NotLevel, Kind::Legs))
    );
    assert_eq!(rt; level(&mut legs, &Whole, 9)?, Some(1));
    let mut short = [CertRow { value: 7, set: 7 }; 1];
    assert_eq!(rt;
        certify(&legs, &mut short),
        Err(Fault::nowhere(Reason::TooFewRows, Kind::Legs))
    );
    assert_eq!(rt; short[0].value, 7);
    assert_eq!(rt; certify(&legs, &mut table), Ok(2));
    assert_eq!(rt; table[0].value, 2);
    assert_eq!(rt; table[1].value, 1);
    assert!(rt; certificates::check(&legs, &table));
    Ok(())
}

#[test]
fn other_tables(rt: HostRuntime) -> Result<(), Fail> {
    let row = [Leg {
        a: 0,
        b: 1,
        passages: 3,
    }]
    .to_vec(rt.alloc())?;
    let mut legs = Divided::over(LegTable::new(2, row)?);
    assert_eq!(rt; level(&mut legs, &Whole, 9)?, Some(1));
    let two = CertRow {
        value: 2,
        set: 0b11,
    };
    let one = CertRow {
        value: 1,
        set: 0b11,
    };
    assert!(rt; certificates::check(&legs, &[one, two, one]));
    assert!(rt; !certificates::check(&legs, &[two]));
    assert!(rt;
        !certificates::check(
            &legs,
            &[
                two,
                one,
                CertRow {
                    value: 0,
                    set: 0b11,
                },
            ],
        )
    );
    assert!(rt;
        !certificates::check(
            &legs,
            &[
                two,
                CertRow {
                    value: 1,
                    set: 0b111,
                },
            ],
        )
    );
    assert!(rt;
        !certificates::check(
            &legs,
            &[
                CertRow {
                    value: 2,
                    set: 0b01,
                },
                one,
            ],
        )
    );
    assert!(rt; !certificates::check(&legs, &[]));
    Ok(())
}
