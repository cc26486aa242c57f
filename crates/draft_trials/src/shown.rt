// How layers, flows, faults and parts are shown: plain, under `#`, and where a width is given.
use spelling::fault::{Fault, Layer, Reason};
use spelling::parts::{Flow, Parts};
use std::fmt;
use std::process::Abort;
use std::test::Fail;

// The text plain and under `#`, and in a column of 40.
fn shows<T: fmt::Display>(
    rt: &(impl Abort + AllocGlobal),
    value: &T,
    plain: &str,
    column: &str,
) -> Result<(), Fail> {
    assert_eq!(rt; format!(in rt.alloc(); "{value}")?.as_str(), plain);
    assert_eq!(rt; format!(in rt.alloc(); "{value:#}")?.as_str(), plain);
    assert_eq!(rt; format!(in rt.alloc(); "{value:>40}")?.as_str(), column);
    Ok(())
}

// The same text whatever is asked for, also in a column that is wider than it.
fn shows_alike<T: fmt::Display>(
    rt: &(impl Abort + AllocGlobal),
    value: &T,
    text: &str,
) -> Result<(), Fail> {
    shows(rt, value, text, text)?;
    assert_eq!(rt; format!(in rt.alloc(); "{value:>4000}")?.as_str(), text);
    Ok(())
}

// A name keeps to its column, and a line does not.
#[test]
fn names_and_faults(rt: HostRuntime) -> Result<(), Fail> {
    for (layer, name, column) in [
        (
            Layer::Bytes,
            "bytes",
            "                                   bytes",
        ),
        (
            Layer::Commands,
            "commands",
            "                                commands",
        ),
        (
            Layer::Orders,
            "orders",
            "                                  orders",
        ),
    ] {
        shows(&rt, &layer, name, column)?;
    }
    for (flow, name, column) in [
        (
            Flow::Flex,
            "Flex",
            "                                    Flex",
        ),
        (Flow::Cpa, "CPA", "                                     CPA"),
    ] {
        shows(&rt, &flow, name, column)?;
    }
    for (reason, offset, line) in [
        (
            Reason::NoByte,
            usize::MAX,
            "1 offset 18446744073709551615 layer bytes: the draft ends too early",
        ),
        (
            Reason::NoCommand,
            0,
            "2 offset 0 layer commands: this is no command letter",
        ),
        (
            Reason::OutOfSequence,
            9,
            "3 offset 9 layer commands: W comes first, and each command once",
        ),
        (
            Reason::NoUse,
            10,
            "4 offset 10 layer commands: this width has no use for the command",
        ),
        (
            Reason::BadWidth,
            99,
            "5 offset 99 layer commands: the width is not 24 to 64",
        ),
        (
            Reason::TooLarge,
            100,
            "6 offset 100 layer commands: C0 does not fit into the width",
        ),
        (
            Reason::NoOrder(0),
            2,
            "7 offset 2 layer orders place 0: the list is no order",
        ),
        (
            Reason::NoOrder(63),
            usize::MAX,
            "7 offset 18446744073709551615 layer orders place 63: the list is no order",
        ),
        (
            Reason::Missing,
            12,
            "8 offset 12 layer commands: something needed has not been given",
        ),
        (
            Reason::GoesOn,
            usize::MAX,
            "9 offset 18446744073709551615 layer bytes: the draft goes on after Z",
        ),
    ] {
        shows_alike(&rt, &Fault { reason, offset }, line)?;
    }
    Ok(())
}

// The places of a list that has each place at itself.
const TO_23: &str = " 0 1 2 3 4 5 6 7 8 9 10 11 12 13 14 15 16 17 18 19 20 21 22 23";

const TO_31: &str = " 24 25 26 27 28 29 30 31";

const TO_63: &str =
    " 32 33 34 35 36 37 38 39 40 41 42 43 44 45 46 47 48 49 50 51 52 53 54 55 56 57 58 59 60 61 62 63";

// Up to 32 bits C1 and the orders 4 and 5 are not shown, whatever they are.
#[test]
fn parts_by_lines(rt: HostRuntime) -> Result<(), Fail> {
    let list = std::array::from_fn(|place| place as u8);
    for (width, flow, c0, c1, head, places, last) in [
        (
            24,
            Flow::Flex,
            0,
            7,
            "width 24, flow Flex\nC0 0",
            [TO_23, "", ""],
            4,
        ),
        (
            32,
            Flow::Cpa,
            4294967295,
            7,
            "width 32, flow CPA\nC0 4294967295",
            [TO_23, TO_31, ""],
            4,
        ),
        (
            64,
            Flow::Cpa,
            9223372036854775809,
            18446744073709551615,
            "width 64, flow CPA\nC0 9223372036854775809\nC1 18446744073709551615",
            [TO_23, TO_31, TO_63],
            6,
        ),
    ] {
        let mut text = String::from_str(rt.alloc(), head)?;
        for order in [
            "\norder 0:",
            "\norder 1:",
            "\norder 2:",
            "\norder 3:",
            "\norder 4:",
            "\norder 5:",
        ]
        .into_iter()
        .take(last)
        {
            text.push_str(order)?;
            for some in places {
                text.push_str(some)?;
            }
        }
        let parts = Parts {
            width,
            flow,
            c0,
            c1,
            orders: [list; 6],
        };
        shows_alike(&rt, &parts, text.as_str())?;
    }
    Ok(())
}
