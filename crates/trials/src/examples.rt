// Examples of the supplied codings and the layers.
use codings::chain::Chain;
use codings::clear::Clear;
use codings::coding::Coding;
use codings::narrowed::Narrowed;
use codings::plus::Plus;
use codings::refusal::AboveTop;
use codings::turned::Turned;
use laws::{back_and_there, laws_at, there_and_back};
use std::process::Abort;
use std::test::Fail;

const LARGEST: u64 = u64::MAX;

// Each number in the list has the code after it.
fn codes<C: Coding>(rt: &impl Abort, coding: &C, table: &[(u64, u64)]) {
    for (number, code) in table {
        assert_eq!(rt; coding.code(*number), Ok(*code));
        assert_eq!(rt; coding.back(*code), Ok(*number));
    }
}

// The coding has this top: it takes the top, and refuses the number above it.
fn ends_at<C: Coding>(rt: &impl Abort, coding: &C, top: u64) {
    assert_eq!(rt; coding.top(), top);
    assert_eq!(rt; there_and_back(coding, top), Ok(top));
    assert_eq!(rt; back_and_there(coding, top), Ok(top));
    if let Some(above) = top.checked_add(1) {
        assert_eq!(rt; coding.code(above), Err(AboveTop));
        assert_eq!(rt; coding.back(above), Err(AboveTop));
    }
}

#[test]
fn plus_narrowed(rt: HostRuntime) -> Result<(), Fail> {
    let narrowed = Narrowed::new(Plus::new(7, 3)?, 4);
    codes(&rt, &narrowed, &[(0, 3), (1, 4), (2, 0), (3, 1), (4, 2)]);
    ends_at(&rt, &narrowed, 4);
    Ok(())
}

#[test]
fn plus_chained(rt: HostRuntime) -> Result<(), Fail> {
    let chain = Chain::new(Plus::new(3, 1)?, Plus::new(7, 1)?);
    codes(&rt, &chain, &[(3, 1), (5, 6), (7, 0)]);
    ends_at(&rt, &chain, 7);
    ends_at(&rt, &Turned::new(chain), 7);
    Ok(())
}

#[test]
fn smallest_tops(rt: HostRuntime) -> Result<(), Fail> {
    ends_at(&rt, &Clear::new(0), 0);
    ends_at(&rt, &Plus::new(0, 0)?, 0);
    ends_at(&rt, &Narrowed::new(Plus::new(9, 4)?, 0), 0);
    Ok(())
}

#[test]
fn largest_tops(rt: HostRuntime) -> Result<(), Fail> {
    let plus = Plus::new(LARGEST, LARGEST)?;
    codes(&rt, &plus, &[(0, LARGEST), (1, 0), (LARGEST, LARGEST - 1)]);
    ends_at(&rt, &plus, LARGEST);
    ends_at(&rt, &Clear::new(LARGEST), LARGEST);
    ends_at(&rt, &Chain::new(Clear::new(4), plus), LARGEST);
    Ok(())
}

#[test]
fn refusals(rt: HostRuntime) {
    assert!(rt; Plus::new(7, 7).is_ok());
    assert!(rt; Plus::new(7, 8).is_err());
    assert_eq!(rt; AboveTop.number(), 13);
}

// Chaining and then narrowing is not narrowing and then chaining.
#[test]
fn narrowed_chain_is_another(rt: HostRuntime) -> Result<(), Fail> {
    let a = Plus::new(7, 3)?;
    let b = Plus::new(7, 1)?;
    assert_eq!(rt; Narrowed::new(Chain::new(&a, &b), 4).code(1), Ok(1));
    assert_eq!(rt;
        Chain::new(Narrowed::new(a, 4), Narrowed::new(b, 4)).code(1),
        Ok(0)
    );
    Ok(())
}

// A number that is small enough already is still coded once.
#[test]
fn narrowed_takes_a_step(rt: HostRuntime) -> Result<(), Fail> {
    let narrowed = Narrowed::new(Plus::new(7, 3)?, 4);
    for x in 0..5u64 {
        assert_ne!(rt; narrowed.code(x), Ok(x));
    }
    Ok(())
}

#[test]
fn five_laws(rt: HostRuntime) -> Result<(), Fail> {
    let laws = laws_at(
        &Plus::new(7, 3)?,
        &Plus::new(3, 1)?,
        &Clear::new(9),
        5,
        4,
        2,
    );
    assert_eq!(rt; laws.regrouped.left, laws.regrouped.right);
    assert_eq!(rt; laws.regrouped.left, Ok(5));
    assert_eq!(rt; laws.turned_twice.right, Ok(5));
    assert_eq!(rt; laws.turned_chain.left, laws.turned_chain.right);
    assert_eq!(rt; laws.turned_narrowed.left, laws.turned_narrowed.right);
    assert_eq!(rt; laws.narrowed_twice.right, Ok(0));
    Ok(())
}

#[test]
fn a_refusal_reads_as_its_words(rt: HostRuntime) -> Result<(), Fail> {
    let heap = rt.alloc();
    let words = "the number is above the coding's top";
    let wide = "                        the number is above the coding's top";
    assert_eq!(rt; format!(in heap; "{AboveTop}")?.as_str(), words);
    assert_eq!(rt; format!(in heap; "{AboveTop:#}")?.as_str(), words);
    assert_eq!(rt; format!(in heap; "{AboveTop:>60}")?.as_str(), wide);
    Ok(())
}
