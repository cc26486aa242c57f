// Going over a text.
ghost use Rattle.std.specs.List.{AllByRecursion};
ghost use Rattle.std.specs.Prelude.{◌≡◌, ◌≤◌, ◌<◌, ◌++◌, false, length, take, drop, MatchOption};
ghost use Rattle.jobs.specs.Signs.{is_space, ends_word, spaces_first, squeezed, words, WordOver, Flush, code_of, Numeral, IsNoNumber, IsName, IsNoName};

use crate::place::{BadText, Place, Sign, Wrong};
use std::str;

// A text, and where in a file it starts.
#[derive(Clone, Copy)]
pub(crate) struct Source<'a> {
    pub(crate) bytes: &'a [u8],
    pub(crate) start: Place,
}

// A place in a text.
#[derive(Clone, Copy)]
pub(crate) struct Cursor<'a> {
    source: Source<'a>,
    at: usize,
    ghost within: { at ≤ length source.bytes.now },
}

fn is_space(byte: u8) -> bool
    ensures { result ≡ is_space byte }
{
    byte == b' ' || byte == b'\t'
}

// What ends a word: a space or a sign.
fn ends_word(byte: u8) -> bool
    ensures { result ≡ ends_word byte }
{
    is_space(byte) || matches!(byte, b'(' | b',' | b')')
}

// How many spaces come first.
fn count_spaces(bytes: &[u8]) -> usize
    ensures is { result ≡ spaces_first bytes.now }
    ensures within { result ≤ length bytes.now }
    ensures blank { squeezed (drop result bytes.now) ≡ squeezed bytes.now }
    ensures apart { words (drop result bytes.now) ≡ words bytes.now }
    ensures flush { Flush (drop result bytes.now) }
{
    for (i, byte) in bytes.iter().enumerate() {
        if !is_space(*byte) {
            return i;
        }
    }
    bytes.len()
}

// How many bytes the word has that comes first.
fn count_word(bytes: &[u8]) -> usize
    ensures within { result ≤ length bytes.now }
    ensures first { squeezed bytes.now ≡ take result bytes.now ++ squeezed (drop result bytes.now) }
    ensures whole { AllByRecursion (λ b. ends_word b ≡ false) (take result bytes.now) }
    ensures over { WordOver (drop result bytes.now) }
{
    for (i, byte) in bytes.iter().enumerate() {
        if ends_word(*byte) {
            return i;
        }
    }
    bytes.len()
}

impl Sign {
    fn byte(self) -> u8
        ensures { result ≡ code_of self }
    {
        match self {
            Sign::Open => b'(',
            Sign::Comma => b',',
            Sign::Close => b')',
        }
    }
}

impl<'a> Source<'a> {
    pub(crate) fn new(text: &'a str, start: Place) -> Source<'a>
        ensures bytes { result.bytes.now ≡ text.now }
        ensures start { result.start ≡ start }
    {
        Source {
            bytes: text.as_bytes(),
            start,
        }
    }
}

impl<'a> Cursor<'a> {
    ghost use Rattle.std.specs.Prelude.{◌+◌, ◌==◌, [], ◌∷◌, IfErr, IfOk, MatchResult};
    ghost use Rattle.jobs.specs.Faults.{Blames, NotFirst};
    ghost use Rattle.jobs.specs.Places.{After, First, NextWord, NumberRead, SignPast, bad_at, left_of, past as past_of, place_of, rest_of, words_left};
    ghost use Rattle.jobs.specs.declared.place.Wrong.TheVariants.{GoesOn, MissingSign, NoName, NoNumber};

    pub(crate) fn new(source: Source<'a>) -> Cursor<'a>
        ensures source { result.source ≡ source.entry }
        ensures at { result.at ≡ 0 }
    {
        Cursor { source, at: 0 }
    }

    pub(crate) fn place(self) -> Place
        ensures { result ≡ place_of self.entry }
    {
        Place {
            line: self.source.start.line,
            column: self.source.start.column.saturating_add(self.at),
        }
    }

    pub(crate) fn bad(self, wrong: Wrong) -> BadText
        ensures { result ≡ bad_at self.entry wrong }
    {
        BadText {
            place: self.place(),
            wrong,
        }
    }

    // What is there, or what is wrong here.
    pub(crate) fn given<T: Drop>(self, found: Option<T>, wrong: Wrong) -> Result<T, BadText>
        ensures found { IfOk result (λ x. found ≡ Some x) }
        ensures fault { IfErr result (λ e. (found ≡ None) × (e ≡ bad_at self.entry wrong)) }
    {
        match found {
            Some(x) => Ok(x),
            None => Err(self.bad(wrong)),
        }
    }

    fn rest(self) -> &'a [u8]
        ensures bytes { result.now ≡ drop self.entry.at self.entry.source.bytes.now }
        ensures long { length result.now + self.entry.at ≡ length self.entry.source.bytes.now }
    {
        &self.source.bytes[self.at..]
    }

    // So many bytes on.
    fn past(self, count: usize) -> Cursor<'a>
        requires { count + self.at ≤ length self.source.bytes.now }
        ensures same { result.source ≡ self.entry.source }
        ensures at { result.at ≡ self.entry.at + count }
    {
        Cursor {
            source: self.source,
            at: self.at + count,
        }
    }

    pub(crate) fn past_spaces(self) -> Cursor<'a>
        ensures after { After self.entry result [] }
        ensures at { result.at ≡ past_of self.entry }
        ensures apart { words_left result ≡ words_left self.entry }
        ensures flush { Flush (left_of result) }
    {
        self.past(count_spaces(self.rest()))
    }

    pub(crate) fn is_end(self) -> bool
        ensures { result ≡ (self.entry.at == length self.entry.source.bytes.now) }
    {
        self.at == self.source.bytes.len()
    }

    // The word that starts here, which may be empty, and where it ends.
    pub(crate) fn word(self) -> (&'a [u8], Cursor<'a>)
        ensures after { After self.entry result.1 result.0.now }
        ensures at { result.1.at ≡ self.entry.at + length result.0.now }
        ensures is { left_of self.entry ≡ result.0.now ++ left_of result.1 }
        ensures whole { AllByRecursion (λ b. ends_word b ≡ false) result.0.now }
        ensures over { WordOver (left_of result.1) }
    {
        let rest = self.rest();
        let count = count_word(rest);
        (&rest[..count], self.past(count))
    }

    // The next byte, which is this sign.
    fn past_byte(self, sign: Sign) -> Result<Cursor<'a>, BadText>
        ensures read { IfOk result (λ c. After self.entry c (code_of sign ∷ [])) }
        ensures at { IfOk result (λ c. c.at ≡ self.entry.at + 1) }
        ensures first { IfOk result (λ _. First (code_of sign) (left_of self.entry)) }
        ensures fault { IfErr result (λ e. e ≡ bad_at self.entry (MissingSign sign)) }
        ensures absent { IfErr result (λ _. NotFirst (code_of sign) (left_of self.entry)) }
    {
        let rest = self.rest();
        if !rest.is_empty() && rest[0] == sign.byte() {
            Ok(self.past(1))
        } else {
            Err(self.bad(Wrong::MissingSign(sign)))
        }
    }

    // Past spaces and this sign.
    pub(crate) fn past_sign(self, sign: Sign) -> Result<Cursor<'a>, BadText>
        ensures read { IfOk result (λ c. After self.entry c (code_of sign ∷ [])) }
        ensures on { IfOk result (SignPast self.entry sign) }
        ensures fault { IfErr result (Blames self.entry (MissingSign sign)) }
    {
        self.past_spaces().past_byte(sign)
    }

    // Nothing but spaces follows.
    pub(crate) fn finish(self) -> Result<(), BadText>
        ensures { MatchResult result (λ _. rest_of self.entry ≡ []) (Blames self.entry GoesOn) }
    {
        let here = self.past_spaces();
        if here.is_end() {
            Ok(())
        } else {
            Err(here.bad(Wrong::GoesOn))
        }
    }

    // A number after spaces.
    pub(crate) fn number(self) -> Result<(u64, Cursor<'a>), BadText>
        ensures read { IfOk result (λ r. NumberRead self.entry r.1 r.0) }
        ensures fault { IfErr result (Blames self.entry NoNumber) }
    {
        let here = self.past_spaces();
        let (word, after) = here.word();
        let number = here.given(number_in(word), Wrong::NoNumber)?;
        Ok((number, after))
    }

    // A number after spaces that counts something.
    pub(crate) fn count(self) -> Result<(usize, Cursor<'a>), BadText>
        ensures read { IfOk result (λ r. NumberRead self.entry r.1 r.0) }
        ensures fault { IfErr result (Blames self.entry NoNumber) }
    {
        let (number, after) = self.number()?;
        Ok((number as usize, after))
    }

    // A name after spaces.
    pub(crate) fn name(self) -> Result<(&'a str, Cursor<'a>), BadText>
        ensures read { IfOk result (λ r. NextWord self.entry r.1 r.0.now) }
        ensures fault { IfErr result (Blames self.entry NoName) }
    {
        let here = self.past_spaces();
        let (word, after) = here.word();
        let name = here.given(name_in(word), Wrong::NoName)?;
        Ok((name, after))
    }
}

// The number of a word that is all digits.
#[tactic(auto, using(crate::proofs::Faults::no_text))]
fn number_in(word: &[u8]) -> Option<u64>
    ensures { MatchOption result (IsNoNumber word.now) (λ n. Numeral word.now n) }
{
    // Where `parse` also takes a plus first, nothing but digits is a number here.
    if !word.is_empty() && word[0] == b'+' {
        None
    } else {
        match str::from_utf8(word) {
            Ok(text) => text.parse().ok(),
            Err(_) => None,
        }
    }
}

fn name_in(word: &[u8]) -> Option<&str>
    ensures { MatchOption result (IsNoName word.now) (λ s. IsName word.now s.now) }
{
    if word.is_empty() {
        None
    } else {
        str::from_utf8(word).ok()
    }
}
