// Piles put together at run time.
use crate::mirror::Mirror;
use codings::coding::Coding;
use codings::refusal::AboveTop;
use laws::{back_and_there, laws_at, there_and_back};
use piles::error::PileError;
use piles::pile::Pile;
use std::alloc::Global;
use std::test::Fail;

// Mirrors of different tops, chained, turned and narrowed.
#[test]
fn mirrors(rt: HostRuntime) -> Result<(), Fail> {
    let heap = rt.alloc();
    let first = Pile::leaf(Mirror::new(9)).narrowed(heap, 7)?;
    let pile = first
        .chain(heap, Pile::leaf(Mirror::new(5)))?
        .turned(heap)?
        .narrowed(heap, 6)?;
    assert_eq!(rt; pile.height(), 5);
    assert_eq!(rt; pile.top(), 6);
    for x in 0..7u64 {
        assert_eq!(rt; there_and_back(&pile, x), Ok(x));
        assert_eq!(rt; back_and_there(&pile, x), Ok(x));
    }
    assert_eq!(rt; pile.code(7), Err(AboveTop));
    let laws = laws_at(&Mirror::new(9), &pile, &Mirror::new(5), 7, 6, 3);
    assert_eq!(rt; laws.regrouped.left, laws.regrouped.right);
    assert_eq!(rt; laws.turned_twice.left, laws.turned_twice.right);
    assert_eq!(rt; laws.turned_chain.left, laws.turned_chain.right);
    assert_eq!(rt; laws.turned_narrowed.left, laws.turned_narrowed.right);
    assert_eq!(rt; laws.narrowed_twice.left, laws.narrowed_twice.right);
    Ok(())
}

// A pile so many layers high, with layers of all kinds.
fn tower(heap: Global, height: u32) -> Result<Pile<Mirror>, PileError> {
    let mut pile = Pile::leaf(Mirror::new(9));
    for layer in 1..height {
        pile = match layer % 3 {
            0 => pile.turned(heap)?,
            1 => pile.narrowed(heap, 8)?,
            _ => pile.chain(heap, Pile::leaf(Mirror::new(8)))?,
        };
    }
    Ok(pile)
}

#[test]
fn as_high_as_may_be(rt: HostRuntime) -> Result<(), Fail> {
    let heap = rt.alloc();
    for (below, height) in [(1, 2), (5, 6), (99, 100), (999, 1000)] {
        assert_eq!(rt; tower(heap, height)?.height(), height);
        assert_eq!(rt; tower(heap, below)?.turned(heap)?.height(), height);
        assert_eq!(rt; tower(heap, below)?.narrowed(heap, 3)?.height(), height);
        let under = Pile::leaf(Mirror::new(5)).chain(heap, tower(heap, below)?)?;
        assert_eq!(rt; under.height(), height);
        let over = tower(heap, below)?.chain(heap, Pile::leaf(Mirror::new(5)))?;
        assert_eq!(rt; over.height(), height);
    }
    let pile = tower(heap, 1000)?;
    assert_eq!(rt; pile.top(), 8);
    for x in 0..9u64 {
        assert_eq!(rt; there_and_back(&pile, x), Ok(x));
        assert_eq!(rt; back_and_there(&pile, x), Ok(x));
    }
    Ok(())
}

// A mirror turned is that mirror again, however often.
#[test]
fn turned_as_often_as_may_be(rt: HostRuntime) -> Result<(), Fail> {
    let heap = rt.alloc();
    let mut pile = Pile::leaf(Mirror::new(9));
    for _ in 1..1000u32 {
        pile = pile.turned(heap)?;
    }
    assert_eq!(rt; pile.height(), 1000);
    assert_eq!(rt; pile.code(2), Ok(7));
    assert_eq!(rt; pile.turned(heap).err(), Some(PileError::TooHigh));
    Ok(())
}

#[test]
fn too_high(rt: HostRuntime) -> Result<(), Fail> {
    let heap = rt.alloc();
    let too_high = Some(PileError::TooHigh);
    let leaf = || Pile::leaf(Mirror::new(9));
    assert_eq!(rt; tower(heap, 1001).err(), too_high);
    assert_eq!(rt; tower(heap, 1000)?.turned(heap).err(), too_high);
    assert_eq!(rt; tower(heap, 1000)?.narrowed(heap, 0).err(), too_high);
    assert_eq!(rt; tower(heap, 1000)?.chain(heap, leaf()).err(), too_high);
    assert_eq!(rt; leaf().chain(heap, tower(heap, 1000)?).err(), too_high);
    Ok(())
}

#[test]
fn narrowed_to_0(rt: HostRuntime) -> Result<(), Fail> {
    let heap = rt.alloc();
    for height in [1, 6, 999] {
        let pile = tower(heap, height)?.narrowed(heap, 0)?;
        assert_eq!(rt; pile.top(), 0);
        assert_eq!(rt; pile.code(0), Ok(0));
        assert_eq!(rt; pile.back(0), Ok(0));
        assert_eq!(rt; pile.code(1), Err(AboveTop));
        assert_eq!(rt; pile.back(u64::MAX), Err(AboveTop));
    }
    Ok(())
}

#[test]
fn an_error_reads_as_its_words(rt: HostRuntime) -> Result<(), Fail> {
    let heap = rt.alloc();
    let table = [
        (
            PileError::NoMemory,
            "there is no memory for another layer",
            "                        there is no memory for another layer",
        ),
        (
            PileError::TooHigh,
            "a pile has at most 1000 layers above one another",
            "            a pile has at most 1000 layers above one another",
        ),
    ];
    for (error, words, wide) in table {
        assert_eq!(rt; format!(in heap; "{error}")?.as_str(), words);
        assert_eq!(rt; format!(in heap; "{error:#}")?.as_str(), words);
        assert_eq!(rt; format!(in heap; "{error:>60}")?.as_str(), wide);
    }
    Ok(())
}
