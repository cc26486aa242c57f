// The mill's colours: the pile that codes them, and what is printed of it.
use crate::refusals::tell_refused;
use codings::coding::Coding;
use codings::plus::Plus;
use laws::laws_at;
use laws::sides::Sides;
use piles::pile::Pile;
use std::alloc::Global;
use std::io;

// The last colour number of the mill's card.
const LAST_COLOUR: u64 = 749;

const COLOURS: [u64; 6] = [0, 1, 376, 377, 749, 750];

// Two codings of different tops, one after the other, on the numbers of the card.
pub fn colour_coding(heap: Global) -> anyhow::Result<Pile<Plus>> {
    let first = Pile::leaf(Plus::new(999, 123)?);
    let then = Pile::leaf(Plus::new(499, 77)?);
    Ok(first.chain(heap, then)?.narrowed(heap, LAST_COLOUR)?)
}

// The weavers' numbers, turned so that the two codings differ in kind.
pub fn hands_coding(heap: Global) -> anyhow::Result<Pile<Plus>> {
    Ok(Pile::leaf(Plus::new(199, 31)?).turned(heap)?)
}

pub fn tell_all(rt: &impl Print, coding: &Pile<Plus>) -> anyhow::Result<()> {
    let top = coding.top();
    println!(rt; "plus(999, 123), then plus(499, 77), narrowed to {LAST_COLOUR}: top {top}")?;
    for colour in COLOURS {
        tell_code(rt, coding, colour)?;
    }
    tell_laws(rt, coding, 376)?;
    Ok(())
}

fn tell_code(rt: &impl Print, coding: &Pile<Plus>, colour: u64) -> io::Result<()> {
    match coding.code(colour) {
        Ok(code) => {
            println!(rt; "colour {colour} has code {code}")?;
            tell_back(rt, coding, code)
        }
        Err(refusal) => tell_refused(rt, &format_args!("colour {colour}"), refusal.into()),
    }
}

fn tell_back(rt: &impl Print, coding: &Pile<Plus>, code: u64) -> io::Result<()> {
    match coding.back(code) {
        Ok(colour) => println!(rt; "  code {code} is colour {colour}"),
        Err(refusal) => tell_refused(rt, &format_args!("code {code}"), refusal.into()),
    }
}

// Both sides of the five laws at a colour, over the coding, its first part and a coding of few numbers.
fn tell_laws(rt: &impl Print, coding: &Pile<Plus>, colour: u64) -> anyhow::Result<()> {
    let sides = laws_at(
        coding,
        &Plus::new(999, 123)?,
        &Plus::new(9, 4)?,
        500,
        400,
        colour,
    );
    println!(rt; "the five laws at colour {colour}, left and right side:")?;
    tell_sides(rt, "chains regrouped", sides.regrouped)?;
    tell_sides(rt, "turned twice", sides.turned_twice)?;
    tell_sides(rt, "turned chain", sides.turned_chain)?;
    tell_sides(rt, "turned, narrowed to 500", sides.turned_narrowed)?;
    tell_sides(rt, "narrowed to 500, then to 400", sides.narrowed_twice)?;
    Ok(())
}

fn tell_sides(rt: &impl Print, law: &str, sides: Sides) -> io::Result<()> {
    match (sides.left, sides.right) {
        (Ok(left), Ok(right)) => println!(rt; "  {law}: {left} and {right}"),
        _ => println!(rt; "  {law}: refused"),
    }
}
