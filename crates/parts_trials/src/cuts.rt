// The boxes of every width, found again by the search as it is worded, and rows of boxes there and back.
use crate::expected::there;
use bits::width::Width;
use boxes::cell::Cell;
use boxes::kind::{BoxKind, Cpa, Flex, Turned};
use boxes::layout::boxes_of;
use boxes::row::Boxes;
use boxes::shape::Shape;
use std::test::Fail;

const PERMITTED: [u32; 37] = [
    5, 6, 7, 8, 9, 10, 12, 14, 15, 16, 18, 20, 21, 24, 25, 27, 28, 30, 32, 33, 34, 36, 38, 39, 40,
    42, 44, 45, 48, 49, 50, 52, 54, 55, 56, 60, 64,
];

fn permitted(width: u32) -> bool {
    PERMITTED.contains(&width)
}

// The cut that a width gives, if it gives one.
fn tried(n: u32, l: u32) -> Option<Shape> {
    if l == 0 || !permitted(l) {
        return None;
    }
    let count = n.div_ceil(l);
    let fewer = count.saturating_sub(1);
    let rest = n.saturating_sub(l.saturating_mul(fewer));
    let joined = rest.saturating_add(l);
    if l < count {
        None
    } else if n % l == 0 {
        Some(Shape {
            wide: l,
            last: l,
            count,
        })
    } else if permitted(rest) && rest >= count {
        Some(Shape {
            wide: l,
            last: rest,
            count,
        })
    } else if permitted(joined) && joined >= fewer {
        Some(Shape {
            wide: l,
            last: joined,
            count: fewer,
        })
    } else {
        None
    }
}

// Even cuts first, whose boxes are all of one width, then the least difference between width and count.
fn rank(shape: &Shape) -> (bool, u32) {
    (shape.last != shape.wide, shape.wide.abs_diff(shape.count))
}

// The best cut, and of equals the first, which has the smaller width.
fn found(n: u32) -> Option<Shape> {
    (8..29).filter_map(|l| tried(n, l)).min_by_key(rank)
}

#[test]
fn boxes_by_the_search(rt: HostRuntime) {
    for n in 24..65 {
        assert_eq!(rt; boxes_of(n), found(n));
    }
    assert_eq!(rt; boxes_of(23), None);
    assert_eq!(rt; boxes_of(65), None);
    assert_eq!(rt;
        boxes_of(26),
        Some(Shape {
            wide: 8,
            last: 10,
            count: 3,
        })
    );
    assert_eq!(rt;
        boxes_of(59),
        Some(Shape {
            wide: 9,
            last: 14,
            count: 6,
        })
    );
}

#[test]
fn cpa_boxes_of_five_bits(rt: HostRuntime) -> Result<(), Fail> {
    let cell = there(Cell::of_width(5), 5)?;
    let first = Cpa { r0: 0, r1: 15 };
    let second = Cpa { r0: 0, r1: 24 };
    assert_eq!(rt; first.send(cell, 0, 2), 4);
    assert_eq!(rt; second.send(cell, 0, 0), 3);
    Ok(())
}

// Of the width's lowest bits, through and back.
#[test]
fn rows_there_and_back(rt: HostRuntime) -> Result<(), Fail> {
    let r0 = 0x0123_4567_89ab_cdef;
    let r1 = 0xfedc_ba98_7654_3210;
    for n in 24..65 {
        let boxes = there(Boxes::of_width(n), n)?;
        let width = there(Width::new(n), n)?;
        for x in [0, 1, 0x00ff_00ff_00ff_00ff, 0xdead_beef_0bad_cafe, u64::MAX] {
            let x = width.cut(x);
            assert_eq!(rt; boxes.send(&Flex, boxes.send(&Flex, x)), x);
            let code = boxes.send(&Cpa { r0, r1 }, x);
            assert_eq!(rt; boxes.send(&Turned(Cpa { r0, r1 }), code), x);
            assert_eq!(rt; boxes.back(&Cpa { r0, r1 }, code), x);
        }
    }
    Ok(())
}

// The lowest box of width 26 has ten bits: bit 9 is its own, bit 10 that of the next box.
#[test]
fn the_last_width_is_lowest(rt: HostRuntime) -> Result<(), Fail> {
    let boxes = there(Boxes::of_width(26), 26)?;
    assert_eq!(rt; boxes.send(&Flex, 1 << 10), 1 << 10);
    let ten = there(Cell::of_width(10), 10)?;
    assert_eq!(rt; boxes.send(&Flex, 1 << 9), ten.invert(1 << 9));
    Ok(())
}
