// Sets of seats.
use seats::{first, has, members_of, size, take_lowest, union, with, within, without};
use std::test::Fail;

#[test]
fn sizes_and_members(rt: HostRuntime) {
    for (set, members, highest) in [
        (0, 0, false),
        (0b1011, 3, false),
        (u64::MAX, 64, true),
        (1 << 63, 1, true),
    ] {
        assert_eq!(rt; size(set), members);
        assert_eq!(rt; has(set, 63), highest);
        assert_eq!(rt; has(set, 64), false);
    }
}

#[test]
fn first_seats(rt: HostRuntime) {
    for (n, set) in [
        (0, 0),
        (1, 1),
        (3, 0b111),
        (63, u64::MAX / 2),
        (64, u64::MAX),
        (65, u64::MAX),
    ] {
        assert_eq!(rt; first(n), set);
    }
}

#[test]
fn joined_and_removed(rt: HostRuntime) {
    assert_eq!(rt; with(0b100, 1), 0b110);
    assert_eq!(rt; with(0b100, 64), 0b100);
    assert_eq!(rt; union(0b101, 0b011), 0b111);
    assert_eq!(rt; without(0b101, 0b001), 0b100);
    assert!(rt; within(0b001, 0b101));
    assert!(rt; !within(0b010, 0b101));
}

#[test]
fn walks_in_seat_order(rt: HostRuntime) {
    let mut left = (1 << 63) | 0b1010;
    assert_eq!(rt; take_lowest(&mut left), Some(1));
    assert_eq!(rt; take_lowest(&mut left), Some(3));
    assert_eq!(rt; take_lowest(&mut left), Some(63));
    assert_eq!(rt; take_lowest(&mut left), None);
}

#[test]
fn members_in_seat_order(rt: HostRuntime) -> Result<(), Fail> {
    let seats: Vec<u8> = members_of((1 << 63) | 0b1010).collect(rt.alloc())?;
    assert_eq!(rt; seats.as_slice(), [1, 3, 63].as_slice());
    assert_eq!(rt; members_of(0).count(), 0);
    Ok(())
}
