// Reading a pile that is written out.
ghost use Rattle.std.specs.Prelude.{◌≡◌, ◌+◌, IfOk, MatchOption, MatchResult, slice_get, List, ℕ};
ghost use Rattle.jobs.specs.declared.parse.Form.TheVariants.{Clear as FormClear, Plus as FormPlus, KCipher as FormKCipher, Chain as FormChain, Turned as FormTurned, Narrowed as FormNarrowed};
ghost use Rattle.jobs.specs.Faults.{InText, Nameless, Parses};
ghost use Rattle.jobs.specs.Places.{place_at, rest_of};
ghost use Rattle.jobs.specs.Parsed.{texts, Grown, Placed, form_name, Said, PileRead, InsideRead, NameRead};

use crate::cursor::{Cursor, Source};
use crate::place::{BadText, Place, Sign, Wrong};
use crate::written::Written;
use std::alloc::{AllocError, Global};

// As many layers may stand above one another as a pile may have.
const DEEPEST: u32 = 1000;

// The codings that have a name.
#[derive(Clone, Copy)]
enum Form {
    Clear,
    Plus,
    KCipher,
    Chain,
    Turned,
    Narrowed,
}

// A pile that was read, and where its text ends.
type Read<'a> = Result<(Written, Cursor<'a>), BadText>;

fn form_of(word: &[u8]) -> Option<Form>
    ensures { MatchOption result (Nameless word.now) (λ f. word.now ≡ form_name f) }
{
    match word {
        b"clear" => Some(Form::Clear),
        b"plus" => Some(Form::Plus),
        b"kcipher" => Some(Form::KCipher),
        b"chain" => Some(Form::Chain),
        b"turned" => Some(Form::Turned),
        b"narrowed" => Some(Form::Narrowed),
        _ => None,
    }
}

// The pile that a text spells. The text starts at this line and column of a file; the names of files are put into the list
// once each, and stand in the pile by their places in it.
pub fn parse_written(
    heap: Global,
    text: &str,
    line: usize,
    column: usize,
    names: &mut Vec<String>,
) -> Result<Written, BadText>
    ensures grown { Grown (texts names.old) (texts names.new) }
    ensures read { Parses (texts names.new) DEEPEST text.now (place_at line column) result }
{
    let source = Source::new(text, Place { line, column });
    whole(heap, Cursor::new(source), names)
}

// The pile that the rest of a text spells.
pub(crate) fn whole(
    heap: Global,
    cursor: Cursor<'_>,
    names: &mut Vec<String>,
) -> Result<Written, BadText>
    ensures grown { Grown (texts names.old) (texts names.new) }
    ensures read { MatchResult result (λ w. Said (texts names.new) DEEPEST (rest_of cursor.entry) w) (λ e. InText cursor.entry.source e) }
{
    let (written, after) = pile(heap, cursor, DEEPEST, names)?;
    after.finish()?;
    Ok(written)
}

// The pile that is spelt next, with at most so many layers above one another.
#[cycle(parser)]
fn pile<'a>(heap: Global, cursor: Cursor<'a>, depth: u32, names: &mut Vec<String>) -> Read<'a>
    ensures grown { Grown (texts names.old) (texts names.new) }
    ensures read { MatchResult result (λ r. PileRead (texts names.new) depth cursor.entry r.1 r.0) (λ e. InText cursor.entry.source e) }
{
    let here = cursor.past_spaces();
    let below = here.given(depth.checked_sub(1), Wrong::TooDeep)?;
    let (word, named) = here.word();
    let form = here.given(form_of(word), Wrong::UnknownName)?;
    let (written, after) = inside(heap, form, named.past_sign(Sign::Open)?, below, names)?;
    Ok((written, after.past_sign(Sign::Close)?))
}

// What stands in the brackets, where so many layers may stand above one another below it.
#[cycle(parser)]
fn inside<'a>(
    heap: Global,
    form: Form,
    cursor: Cursor<'a>,
    depth: u32,
    names: &mut Vec<String>,
) -> Read<'a>
    ensures grown { Grown (texts names.old) (texts names.new) }
    ensures read { MatchResult result (λ r. InsideRead (texts names.new) (depth + 1) form cursor.entry r.1 r.0) (λ e. InText cursor.entry.source e) }
{
    match form {
        Form::Clear => clear(cursor),
        Form::Plus => plus(cursor),
        Form::KCipher => cipher(heap, cursor, names),
        Form::Chain => chain(heap, cursor, depth, names),
        Form::Turned => turned(heap, cursor, depth, names),
        Form::Narrowed => narrowed(heap, cursor, depth, names),
    }
}

fn clear(cursor: Cursor<'_>) -> Read<'_>
    ensures { MatchResult result (λ r. (names : List (List ℕ)) → InsideRead names 1 FormClear cursor.entry r.1 r.0) (λ e. InText cursor.entry.source e) }
{
    let (top, after) = cursor.number()?;
    Ok((Written::Clear(top), after))
}

fn plus(cursor: Cursor<'_>) -> Read<'_>
    ensures { MatchResult result (λ r. (names : List (List ℕ)) → InsideRead names 1 FormPlus cursor.entry r.1 r.0) (λ e. InText cursor.entry.source e) }
{
    let (top, after) = cursor.number()?;
    let (constant, after) = after.past_sign(Sign::Comma)?.number()?;
    Ok((Written::Plus(top, constant), after))
}

fn cipher<'a>(heap: Global, cursor: Cursor<'a>, names: &mut Vec<String>) -> Read<'a>
    ensures grown { Grown (texts names.old) (texts names.new) }
    ensures read { MatchResult result (λ r. InsideRead (texts names.new) 1 FormKCipher cursor.entry r.1 r.0) (λ e. InText cursor.entry.source e) }
{
    let (draft, after) = file(heap, cursor, names)?;
    let (key, after) = file(heap, after.past_sign(Sign::Comma)?, names)?;
    Ok((Written::Cipher(draft, key), after))
}

#[cycle(parser)]
fn chain<'a>(heap: Global, cursor: Cursor<'a>, depth: u32, names: &mut Vec<String>) -> Read<'a>
    ensures grown { Grown (texts names.old) (texts names.new) }
    ensures read { MatchResult result (λ r. InsideRead (texts names.new) (depth + 1) FormChain cursor.entry r.1 r.0) (λ e. InText cursor.entry.source e) }
{
    let (first, comma) = pile(heap, cursor, depth, names)?;
    let (then, after) = pile(heap, comma.past_sign(Sign::Comma)?, depth, names)?;
    let first = boxed(heap, cursor, first)?;
    let then = boxed(heap, cursor, then)?;
    Ok((Written::Chain(first, then), after))
}

#[cycle(parser)]
fn turned<'a>(heap: Global, cursor: Cursor<'a>, depth: u32, names: &mut Vec<String>) -> Read<'a>
    ensures grown { Grown (texts names.old) (texts names.new) }
    ensures read { MatchResult result (λ r. InsideRead (texts names.new) (depth + 1) FormTurned cursor.entry r.1 r.0) (λ e. InText cursor.entry.source e) }
{
    let (below, after) = pile(heap, cursor, depth, names)?;
    let below = boxed(heap, cursor, below)?;
    Ok((Written::Turned(below), after))
}

#[cycle(parser)]
fn narrowed<'a>(heap: Global, cursor: Cursor<'a>, depth: u32, names: &mut Vec<String>) -> Read<'a>
    ensures grown { Grown (texts names.old) (texts names.new) }
    ensures read { MatchResult result (λ r. InsideRead (texts names.new) (depth + 1) FormNarrowed cursor.entry r.1 r.0) (λ e. InText cursor.entry.source e) }
{
    let (below, comma) = pile(heap, cursor, depth, names)?;
    let (to, after) = comma.past_sign(Sign::Comma)?.number()?;
    let below = boxed(heap, cursor, below)?;
    Ok((Written::Narrowed(below, to), after))
}

fn boxed(heap: Global, here: Cursor<'_>, written: Written) -> Result<Box<Written>, BadText>
    ensures { MatchResult result (λ b. b.value ≡ written) (λ e. InText here.entry.source e) }
{
    match Box::new(heap, written) {
        Ok(boxed) => Ok(boxed),
        Err(_) => Err(here.bad(Wrong::NoMemory)),
    }
}

// The file whose name comes next, as its place in the list.
fn file<'a>(
    heap: Global,
    cursor: Cursor<'a>,
    names: &mut Vec<String>,
) -> Result<(usize, Cursor<'a>), BadText>
    ensures grown { Grown (texts names.old) (texts names.new) }
    ensures read { MatchResult result (λ r. NameRead (texts names.new) cursor.entry r.1 r.0) (λ e. InText cursor.entry.source e) }
{
    let (name, after) = cursor.name()?;
    match place_of(heap, names, name) {
        Ok(place) => Ok((place, after)),
        Err(_) => Err(cursor.bad(Wrong::NoMemory)),
    }
}

// The place of a name in the list, where it is put if it is new.
fn place_of(heap: Global, names: &mut Vec<String>, name: &str) -> Result<usize, AllocError>
    ensures grown { Grown (texts names.old) (texts names.new) }
    ensures named { IfOk result (λ i. slice_get (texts names.new) i ≡ Some name.now) }
    ensures placed { IfOk result (λ i. Placed (texts names.old) (texts names.new) name.now i) }
{
    for (place, known) in names.iter().enumerate() {
        if known.as_str() == name {
            return Ok(place);
        }
    }
    let place = names.len();
    names.push(String::from_str(heap, name)?)?;
    Ok(place)
}
