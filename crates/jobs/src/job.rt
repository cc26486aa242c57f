// Reading a job: its head, and then its steps, a line each.
ghost use Rattle.std.specs.Prelude.{◌≡◌, ◌+◌, ◌<◌, ◌^◌, ◌++◌, [], ◌∷◌, true, false, IfErr, IfOk, MatchResult, MatchOption};
ghost use Rattle.std.specs.Str.{chars};
ghost use Rattle.std.specs.Str.Lines.{lines as lines_of};
ghost use Rattle.jobs.specs.Heads.{SpellsRoles, Whole, Spoilt, missing};
ghost use Rattle.jobs.specs.declared.job.LineWord.{LineWord as LineWordOf};
ghost use Rattle.jobs.specs.Faults.{InText};
ghost use Rattle.jobs.specs.Places.{left_of, words_left};
ghost use Rattle.jobs.specs.Signs.{words, WordOver, Apart};
ghost use Rattle.jobs.specs.Steps.{BeginsWith, NoWord, Says, StepWrong, StepRead, OneName, OneRow, OneEntry, OperandsBlamed, operands_of, a_name, a_number, word_text};

use crate::cursor::{Cursor, Source};
use crate::parse::whole;
use crate::place::{BadText, HeadWord, Place, Wrong};
use crate::written::Written;
use book::entry::Entry;
use std::alloc::{AllocError, Global};

// What a job says of its release before the first step.
#[derive(Drop)]
pub struct Head {
    pub yarn: Written,
    pub hands: Written,
    // The files of both piles.
    pub files: Vec<String>,
    pub roles: Vec<char>,
    pub records: usize,
    // How many lines the head has; the steps stand on those after them.
    pub lines: usize,
}

#[derive(Clone, Copy, PartialEq, Eq, Debug)]
pub enum Step<'a> {
    // rows FILE
    Rows(&'a str),
    // withdraw ROW
    Withdraw(usize),
    // show ROW COLUMN
    Show(Entry),
    // turnback ROW COLUMN
    TurnBack(Entry),
    // tally
    Tally,
    // draft FILE
    Draft(&'a str),
    // sheet FILE
    Sheet(&'a str),
}

#[derive(Clone, Copy)]
enum StepWord {
    Rows,
    Withdraw,
    Show,
    TurnBack,
    Tally,
    Draft,
    Sheet,
}

#[derive(Clone, Copy)]
enum LineWord {
    Head(HeadWord),
    Step(StepWord),
}

// A line with a word, and where the word starts and ends.
#[derive(Clone, Copy)]
struct WordLine<'a> {
    word: LineWord,
    here: Cursor<'a>,
    after: Cursor<'a>,
}

fn word_of(word: &[u8]) -> Option<LineWord>
    ensures { MatchOption result ((w : LineWordOf) → word.now ≡ word_text w → ⊥) (λ w. word.now ≡ word_text w) }
{
    match word {
        b"yarn" => Some(LineWord::Head(HeadWord::Yarn)),
        b"hands" => Some(LineWord::Head(HeadWord::Hands)),
        b"roles" => Some(LineWord::Head(HeadWord::Roles)),
        b"records" => Some(LineWord::Head(HeadWord::Records)),
        b"rows" => Some(LineWord::Step(StepWord::Rows)),
        b"withdraw" => Some(LineWord::Step(StepWord::Withdraw)),
        b"show" => Some(LineWord::Step(StepWord::Show)),
        b"turnback" => Some(LineWord::Step(StepWord::TurnBack)),
        b"tally" => Some(LineWord::Step(StepWord::Tally)),
        b"draft" => Some(LineWord::Step(StepWord::Draft)),
        b"sheet" => Some(LineWord::Step(StepWord::Sheet)),
        _ => None,
    }
}

// The word of a line, or None where the line is empty or a comment.
fn word_line(line: &str, number: usize) -> Result<Option<WordLine<'_>>, BadText>
    ensures { MatchResult result (BeginsWith line.now number) (NoWord line.now number) }
{
    let start = Place {
        line: number,
        column: 1,
    };
    let here = Cursor::new(Source::new(line, start)).past_spaces();
    let (word, after) = here.word();
    if here.is_end() {
        return Ok(None);
    }
    if !word.is_empty() && word[0] == b'#' {
        return Ok(None);
    }
    match word_of(word) {
        Some(word) => Ok(Some(WordLine { word, here, after })),
        None => Err(here.bad(Wrong::UnknownWord)),
    }
}

// The step on a line of this number, or None where the line is empty or a comment. A line of the head is refused: it belongs
// before the first step.
#[tactic(auto, using(crate::proofs::Wording::step_said))]
pub fn read_step(line: &str, number: usize) -> Result<Option<Step<'_>>, BadText>
    ensures { MatchResult result (Says line.now) (StepWrong line.now number) }
{
    let Some(found) = word_line(line, number)? else {
        return Ok(None);
    };
    match found.word {
        LineWord::Head(_) => Err(found.here.bad(Wrong::LateHead)),
        LineWord::Step(word) => Ok(Some(step_of(word, found.after)?)),
    }
}

// The step of this word, whose operands stand after it.
fn step_of(word: StepWord, after: Cursor<'_>) -> Result<Step<'_>, BadText>
    requires over { WordOver (left_of after) }
    ensures read { IfOk result (StepRead word after.entry) }
    ensures wrong { IfErr result (OperandsBlamed (operands_of word) after.entry) }
{
    match word {
        StepWord::Rows => Ok(Step::Rows(file_of(after)?)),
        StepWord::Withdraw => Ok(Step::Withdraw(row_of(after)?)),
        StepWord::Show => Ok(Step::Show(entry_of(after)?)),
        StepWord::TurnBack => Ok(Step::TurnBack(entry_of(after)?)),
        StepWord::Tally => {
            after.finish()?;
            Ok(Step::Tally)
        }
        StepWord::Draft => Ok(Step::Draft(file_of(after)?)),
        StepWord::Sheet => Ok(Step::Sheet(file_of(after)?)),
    }
}

#[tactic(auto, using(crate::proofs::Operands::no_name, crate::proofs::Operands::past_name))]
fn file_of(after: Cursor<'_>) -> Result<&str, BadText>
    requires over { WordOver (left_of after) }
    ensures read { IfOk result (λ s. OneName after.entry s.now) }
    ensures wrong { IfErr result (OperandsBlamed (a_name ∷ []) after.entry) }
{
    let (name, after) = after.name()?;
    after.finish()?;
    Ok(name)
}

#[tactic(auto, using(crate::proofs::Operands::no_number, crate::proofs::Operands::past_number))]
fn row_of(after: Cursor<'_>) -> Result<usize, BadText>
    requires over { WordOver (left_of after) }
    ensures read { IfOk result (OneRow after.entry) }
    ensures wrong { IfErr result (OperandsBlamed (a_number ∷ []) after.entry) }
{
    let (row, after) = after.count()?;
    after.finish()?;
    Ok(row)
}

#[tactic(auto, using(crate::proofs::Operands::no_number, crate::proofs::Operands::past_number))]
fn entry_of(after: Cursor<'_>) -> Result<Entry, BadText>
    requires over { WordOver (left_of after) }
    ensures read { IfOk result (OneEntry after.entry) }
    ensures wrong { IfErr result (OperandsBlamed (a_number ∷ a_number ∷ []) after.entry) }
{
    let (row, after) = after.count()?;
    let (column, after) = after.count()?;
    after.finish()?;
    Ok(Entry { row, column })
}

// What was found of a head so far.
#[derive(Drop)]
struct Found {
    yarn: Option<Written>,
    hands: Option<Written>,
    files: Vec<String>,
    roles: Option<Vec<char>>,
    records: Option<usize>,
}

impl Found {
    ghost use Rattle.jobs.specs.Heads.{RightSoFar, HeadFrom, LineRead, PutIn, has_line};
    ghost use Rattle.jobs.specs.Steps.{head_text};

    fn nothing(heap: Global) -> Found
        ensures { RightSoFar [] result }
    {
        Found {
            yarn: None,
            hands: None,
            files: Vec::new(heap),
            roles: None,
            records: None,
        }
    }

    fn has(&self, word: HeadWord) -> bool
        ensures { result ≡ has_line self.now word }
    {
        match word {
            HeadWord::Yarn => self.yarn.is_some(),
            HeadWord::Hands => self.hands.is_some(),
            HeadWord::Roles => self.roles.is_some(),
            HeadWord::Records => self.records.is_some(),
        }
    }

    // Takes a line of this number in. Answers whether the head is over: the line is a step, and was left alone.
    fn take_line(&mut self, heap: Global, line: &str, number: usize) -> Result<bool, BadText>
        ensures { LineRead line.now number self.old self.new result }
    {
        let Some(next) = word_line(line, number)? else {
            return Ok(false);
        };
        match next.word {
            LineWord::Head(word) => {
                self.put(heap, word, next.here, next.after)?;
                Ok(false)
            }
            LineWord::Step(_) => Ok(true),
        }
    }

    // A line of the head, whose operand stands after its word.
    fn put(
        &mut self,
        heap: Global,
        word: HeadWord,
        here: Cursor<'_>,
        after: Cursor<'_>,
    ) -> Result<(), BadText>
        requires same { after.source ≡ here.source }
        requires text { words here.source.bytes.now ≡ words (head_text word ++ left_of after) }
        requires over { WordOver (left_of after) }
        requires words { Apart (left_of after) → words here.source.bytes.now ≡ head_text word ∷ words_left after }
        ensures { PutIn here.entry (has_line self.old word) self.old self.new result }
    {
        if self.has(word) {
            return Err(here.bad(Wrong::TwiceGiven));
        }
        match word {
            HeadWord::Yarn => self.yarn = Some(whole(heap, after, &mut self.files)?),
            HeadWord::Hands => self.hands = Some(whole(heap, after, &mut self.files)?),
            HeadWord::Roles => self.roles = Some(letters(heap, after)?),
            HeadWord::Records => self.records = Some(row_of(after)?),
        }
        Ok(())
    }

    // The head, if it ends at this line.
    fn head(self, lines: usize) -> Result<Head, BadText>
        requires { lines + 1 < 2 ^ 64 }
        ensures { HeadFrom self lines result }
    {
        let Found {
            yarn,
            hands,
            files,
            roles,
            records,
        } = self;
        Ok(Head {
            yarn: needed(yarn, HeadWord::Yarn, lines)?,
            hands: needed(hands, HeadWord::Hands, lines)?,
            files,
            roles: needed(roles, HeadWord::Roles, lines)?,
            records: needed(records, HeadWord::Records, lines)?,
            lines,
        })
    }
}

// What a head of so many lines needs.
fn needed<T: Drop>(found: Option<T>, word: HeadWord, lines: usize) -> Result<T, BadText>
    requires { lines + 1 < 2 ^ 64 }
    ensures found { IfOk result (λ x. found ≡ Some x) }
    ensures lacks { IfErr result (λ e. (found ≡ None) × (e ≡ missing (lines + 1) word)) }
{
    match found {
        Some(x) => Ok(x),
        None => Err(BadText {
            place: Place {
                line: lines + 1,
                column: 1,
            },
            wrong: Wrong::MissingLine(word),
        }),
    }
}

fn letters(heap: Global, after: Cursor<'_>) -> Result<Vec<char>, BadText>
    requires over { WordOver (left_of after) }
    ensures { MatchResult result (λ v. Apart (left_of after.entry) × SpellsRoles (words_left after.entry) v) (λ e. InText after.entry.source e) }
{
    let letters = file_of(after)?;
    match chars_of(heap, letters) {
        Ok(letters) => Ok(letters),
        Err(_) => Err(after.bad(Wrong::NoMemory)),
    }
}

fn chars_of(heap: Global, text: &str) -> Result<Vec<char>, AllocError>
    ensures { IfOk result (λ v. v.items ≡ chars text.now) }
{
    text.chars().collect(heap)
}

// The head of a job: every line before the first step, each once and in any order.
pub fn read_head(heap: Global, text: &str) -> Result<Head, BadText>
    ensures { MatchResult result (λ head. Whole (lines_of text.now) head) (λ e. Spoilt (lines_of text.now) e) }
{
    let mut found = Found::nothing(heap);
    let mut lines = 0;
    for line in text.lines() {
        if found.take_line(heap, line, lines + 1)? {
            return found.head(lines);
        }
        lines += 1;
    }
    found.head(lines)
}
