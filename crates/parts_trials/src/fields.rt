// Every value of the widths 5 to 10 against the field's rule worked out another way, and the widths that have a field.
use crate::expected::there;
use field::field::Field;
use std::process::Abort;
use std::test::Fail;

// A width, its low part, and the number of its values.
struct Shape {
    width: u32,
    low: u64,
    values: u64,
}

const SHAPES: [Shape; 6] = [
    Shape {
        width: 5,
        low: 0x05,
        values: 32,
    },
    Shape {
        width: 6,
        low: 0x03,
        values: 64,
    },
    Shape {
        width: 7,
        low: 0x03,
        values: 128,
    },
    Shape {
        width: 8,
        low: 0x1b,
        values: 256,
    },
    Shape {
        width: 9,
        low: 0x03,
        values: 512,
    },
    Shape {
        width: 10,
        low: 0x09,
        values: 1024,
    },
];

// The product by doubling one factor, and taking the polynomial off as soon as a bit leaves the width.
fn slow_product(shape: &Shape, a: u64, b: u64) -> u64 {
    let mut sum = 0;
    let mut doubled = a;
    let mut left = b;
    for _ in 0..shape.width {
        if left % 2 == 1 {
            sum ^= doubled;
        }
        doubled = doubled.wrapping_mul(2);
        if doubled >= shape.values {
            doubled ^= shape.values ^ shape.low;
        }
        left /= 2;
    }
    sum
}

fn walks_right(rt: &impl Abort, shape: &Shape) -> Result<(), Fail> {
    let field = there(Field::of_width(shape.width), shape.width)?;
    assert_eq!(rt; field.width(), shape.width);
    assert_eq!(rt; field.low(), shape.low);
    assert_eq!(rt; field.inverse(0), 0);
    for x in 1..shape.values {
        let inverse = field.inverse(x);
        assert!(rt; inverse < shape.values);
        assert_eq!(rt; slow_product(shape, x, inverse), 1);
        assert_eq!(rt; field.multiply(x, inverse), 1);
        assert_eq!(rt; field.inverse(inverse), x);
        assert_eq!(rt; field.multiply(x, 3), slow_product(shape, x, 3));
        assert_eq!(rt; field.multiply(x, x), slow_product(shape, x, x));
    }
    Ok(())
}

#[test]
fn each_value_has_its_inverse(rt: HostRuntime) -> Result<(), Fail> {
    for shape in &SHAPES {
        walks_right(&rt, shape)?;
    }
    Ok(())
}

#[test]
fn known_inverses_come_out(rt: HostRuntime) -> Result<(), Fail> {
    let known = [
        (5, 2, 18),
        (8, 0x53, 0xca),
        (14, 2, 8_208),
        (25, 2, 16_777_220),
    ];
    for (width, of, inverse) in known {
        let field = there(Field::of_width(width), width)?;
        assert_eq!(rt; field.inverse(of), inverse);
        assert_eq!(rt; field.inverse(inverse), of);
    }
    Ok(())
}

// Bits above the width are not read.
#[test]
fn higher_bits_do_not_count(rt: HostRuntime) -> Result<(), Fail> {
    let field = there(Field::of_width(5), 5)?;
    assert_eq!(rt; field.inverse(32 + 2), 18);
    assert_eq!(rt; field.multiply(u64::MAX, 64 + 1), 31);
    Ok(())
}

#[test]
fn nine_widths_have_a_field(rt: HostRuntime) {
    let widths = [5, 6, 7, 8, 9, 10, 12, 14, 25];
    for width in 0..70 {
        assert_eq!(rt; Field::of_width(width).is_some(), widths.contains(&width));
    }
}
