// Orders of bits, and the lists that are none.
use crate::expected::there;
use bits::order::{NotAnOrder, Order};
use bits::width::Width;
use std::process::Abort;
use std::test::Fail;

// Each of the first `size` bits to itself, and zeros after them. The trials of drafts push such a list byte by byte: a crate
// of helpers for both would be longer than the function.
fn plain(size: usize) -> [u8; 64] {
    let mut places = [0; 64];
    for (place, bit) in places.iter_mut().zip(0u8..64).take(size) {
        *place = bit;
    }
    places
}

// The list is refused at this place.
fn faulty(rt: &impl Abort, bits: u32, places: [u8; 64], place: usize) -> Result<(), Fail> {
    let order = Order::new(there(Width::new(bits), bits)?, places);
    assert_eq!(rt; order.err(), Some(NotAnOrder { place }));
    Ok(())
}

fn order_of(bits: u32, places: [u8; 64]) -> Result<Order, Fail> {
    Order::new(there(Width::new(bits), bits)?, places).map_err(|fault| Fail::new(fault.place))
}

#[test]
fn bits_move_to_their_places(rt: HostRuntime) -> Result<(), Fail> {
    let mut places = plain(24);
    places[0] = 1;
    places[1] = 2;
    places[2] = 0;
    let order = order_of(24, places)?;
    for (x, moved) in [(1, 2), (2, 4), (4, 1), (8, 8), (0x80_0001, 0x80_0002)] {
        assert_eq!(rt; order.apply(x), moved);
        assert_eq!(rt; order.undo(moved), x);
    }
    // Bits above the size do not count.
    assert_eq!(rt; order.apply(0x100_0001), 2);
    assert_eq!(rt; order.undo(0x100_0002), 1);
    Ok(())
}

// Each bit one up, and the last to the first: an order that is not its own way back.
#[test]
fn bits_turned_round_at_64(rt: HostRuntime) -> Result<(), Fail> {
    let mut places = plain(64);
    places.rotate_left(1);
    let order = order_of(64, places)?;
    for (x, moved) in [
        (1, 2),
        (1 << 63, 1),
        (0xf0, 0x1e0),
        (u64::MAX - 1, u64::MAX - 2),
    ] {
        assert_eq!(rt; order.apply(x), moved);
        assert_eq!(rt; order.undo(moved), x);
    }
    Ok(())
}

// The first bit changes places with the last, and so on inwards: an order that is its own way back.
#[test]
fn bits_mirrored_at_64(rt: HostRuntime) -> Result<(), Fail> {
    let mut places = plain(64);
    places.reverse();
    let order = order_of(64, places)?;
    assert_eq!(rt; order.apply(1), 1 << 63);
    assert_eq!(rt; order.apply(0xf0), 0x0f << 56);
    assert_eq!(rt; order.undo(1 << 63), 1);
    assert_eq!(rt; order.apply(u64::MAX), u64::MAX);
    Ok(())
}

#[test]
fn faults_at_their_first_place(rt: HostRuntime) -> Result<(), Fail> {
    for at in 0..24 {
        let mut large = plain(24);
        large[at] = 24;
        faulty(&rt, 24, large, at)?;
    }
    for at in 1..24 {
        let mut repeated = plain(24);
        repeated[at] = 0;
        faulty(&rt, 24, repeated, at)?;
    }
    for at in 24..64 {
        let mut left_over = plain(24);
        left_over[at] = 1;
        faulty(&rt, 24, left_over, at)?;
    }
    // Of two faults the first counts, and a list of another size is faulty where it differs.
    let mut two = plain(24);
    two[5] = 24;
    two[40] = 1;
    faulty(&rt, 24, two, 5)?;
    faulty(&rt, 24, plain(25), 24)?;
    faulty(&rt, 25, plain(24), 24)?;
    faulty(&rt, 64, plain(63), 63)
}

#[test]
fn sums_wrap_at_the_width(rt: HostRuntime) -> Result<(), Fail> {
    for (bits, last) in [(1, 1), (24, 0xff_ffff), (33, 0x1_ffff_ffff), (64, u64::MAX)] {
        let width = there(Width::new(bits), bits)?;
        assert_eq!(rt; width.mask(), last);
        assert_eq!(rt; width.add(last, 1), 0);
        assert_eq!(rt; width.add(last, last), last - 1);
        assert_eq!(rt; width.sub(0, 1), last);
        assert_eq!(rt; width.sub(last, last), 0);
    }
    assert!(rt; Width::new(0).is_none());
    assert!(rt; Width::new(65).is_none());
    Ok(())
}

#[test]
fn bits_come_round(rt: HostRuntime) -> Result<(), Fail> {
    let five = there(Width::new(5), 5)?;
    assert_eq!(rt; five.rotate_left(0b10010, 2), 0b01010);
    assert_eq!(rt; five.rotate_right(0b01010, 2), 0b10010);
    assert_eq!(rt; five.rotate_left(0b10010, 5), 0b10010);
    assert_eq!(rt; five.rotate_left(0b10010, 7), 0b01010);
    let whole = there(Width::new(64), 64)?;
    assert_eq!(rt; whole.rotate_left(1 << 63, 1), 1);
    assert_eq!(rt; whole.rotate_right(1, 1), 1 << 63);
    assert_eq!(rt; whole.rotate_right(1, 64), 1);
    Ok(())
}
