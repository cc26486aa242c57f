// The marked cases, by the code.
use crate::sample::{crossing, each_to_itself, key_length, long_key, spelt, there};
use bits::order::Order;
use bits::width::Width;
use boxes::cell::Cell;
use boxes::kind::{BoxKind, Cpa};
use boxes::layout::boxes_of;
use codings::chain::Chain;
use codings::coding::Coding;
use codings::narrowed::Narrowed;
use codings::plus::Plus;
use field::field::Field;
use flows::case::{Claim, Plain, Rule, Shift};
use flows::marked::marked_cases;
use kcipher::make::make;
use std::alloc::Global;
use std::process::Abort;
use std::test::Fail;

#[test]
fn marked_cases_come_out(rt: HostRuntime) -> Result<(), Fail> {
    for case in marked_cases() {
        comes_out(&rt, rt.alloc(), case)?;
    }
    Ok(())
}

fn comes_out(rt: &impl Abort, alloc: Global, case: &[Claim]) -> Result<(), Fail> {
    for claim in case {
        match *claim {
            Claim::Boxes(width, shape) => assert_eq!(rt; boxes_of(width), Some(shape)),
            Claim::Sends(rule, x, result) => assert_eq!(rt; sent(alloc, rule, x)?, result),
        }
    }
    Ok(())
}

fn sent(alloc: Global, rule: Rule, x: u64) -> Result<u64, Fail> {
    match rule {
        Rule::Inverse(width) => Ok(there(Field::of_width(width))?.inverse(x)),
        Rule::CpaBox(width, r0, r1) => {
            let cell = there(Cell::of_width(width))?;
            Ok(Cpa { r0, r1 }.send(cell, 0, x))
        }
        Rule::ThreeTurned(size) => Ok(three_turned(size)?.apply(x)),
        Rule::Cipher(plain) => ciphered(alloc, plain, x),
        Rule::Narrowed(shift, to) => Ok(Narrowed::new(plus(shift)?, to).code(x)?),
        Rule::Chained(first, then) => Ok(Chain::new(plus(first)?, plus(then)?).code(x)?),
    }
}

fn plus(shift: Shift) -> Result<Plus, Fail> {
    Ok(Plus::new(shift.top, shift.k)?)
}

fn three_turned(size: u32) -> Result<Order, Fail> {
    let mut list = each_to_itself((size % 65) as u8);
    list[..3].copy_from_slice(&[1, 2, 0]);
    Ok(Order::new(there(Width::new(size))?, list)?)
}

fn ciphered(alloc: Global, plain: Plain, x: u64) -> Result<u64, Fail> {
    let Plain {
        width,
        flow,
        first,
        c1,
        crossed,
    } = plain;
    let order1 = if crossed {
        crossing()
    } else {
        each_to_itself(width)
    };
    let draft = spelt(alloc, width, flow, c1, &order1)?;
    let key = long_key(first);
    let key = there(key.get(..key_length(width, flow)))?;
    Ok(make(&draft, key, &mut [0; 24])?.code(x)?)
}
