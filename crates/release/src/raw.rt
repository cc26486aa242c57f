// The bodies of the calls, by the questions that they ask in sequence; the first no decides.
ghost use Rattle.std.specs.Prelude.{◌≡◌, ◌≢◌, length, take, replicate, MatchResult};
ghost use Rattle.book.specs.declared.refusal.Refusal.TheVariants.{MemoryLength};
ghost use Rattle.book.specs.Raw.{put_answer, put_memory, put_taken, withdraw_answer, withdraw_memory, show_answer, turn_back_answer, tally_answer, count_marks};
ghost use Rattle.book.specs.Rows.{blank};
ghost use Rattle.book.specs.Runs.{answer, after};
ghost use Rattle.release.specs.Listed.{asked_of, state_of};
ghost use Rattle.release.specs.Views.{meanings_of, setup_of, plain_setup, with_taken, Standing, StandingRecord};
ghost use Rattle.std.specs.Option.{option_map};

use crate::column_codings::ColumnCodings;
use crate::plain::Plain;
use book::call::{Answer, Call};
use book::entry::Entry;
use book::refusal::Refusal;
use book::row::Row;
use codings::coding::Coding;

impl Plain {
    // Row memory has to have the length that the release was opened with.
    fn ask_length(&self, memory: &[Row]) -> Result<(), Refusal>
        ensures { MatchResult result (λ _. length memory.now ≡ self.now.records) (λ e. (length memory.now ≢ self.now.records) × (e ≡ MemoryLength)) }
    {
        if memory.len() == self.records {
            Ok(())
        } else {
            Err(Refusal::MemoryLength)
        }
    }

    // The records of the places taken.
    fn given_out<'a>(&self, memory: &'a [Row]) -> &'a [Row]
        ensures { result.now ≡ take self.now.taken memory.now }
    {
        &memory[..self.taken.min(memory.len())]
    }

    // The place of the record of this row, where the row stands.
    fn standing_place(&self, memory: &[Row], row: usize) -> Option<usize>
        ensures { Standing self.now.taken memory.now row result }
    {
        let place = row.checked_sub(1)?;
        let record = self.given_out(memory).get(place)?;
        record.standing.then_some(place)
    }

    // The record of this row, where the row stands.
    fn standing_record<'a>(&self, memory: &'a [Row], row: usize) -> Option<&'a Row>
        ensures { StandingRecord self.now.taken memory.now row (option_map (λ x. x.now) result) }
    {
        let place = self.standing_place(memory, row)?;
        Some(&memory[place])
    }

    pub(crate) fn put_row<Y: Coding, H: Coding>(
        &mut self,
        memory: &mut [Row],
        codings: &ColumnCodings<Y, H>,
        numbers: &[u64],
    ) -> Result<usize, Refusal>
        ensures answer { result ≡ put_answer (setup_of self.old (meanings_of Y.means H.means codings.now)) self.old.taken memory.old numbers.now }
        ensures memory { memory.new ≡ put_memory (setup_of self.old (meanings_of Y.means H.means codings.now)) self.old.taken memory.old numbers.now }
        ensures release { self.new ≡ with_taken self.old (put_taken (setup_of self.old (meanings_of Y.means H.means codings.now)) self.old.taken memory.old numbers.now) }
    {
        self.ask_length(memory)?;
        if numbers.len() != self.columns.as_slice().len() {
            return Err(Refusal::NumberCount);
        }
        if self.taken >= self.records {
            return Err(Refusal::NoPlaceFree);
        }
        let codes = codings.coded_row(&self.columns, numbers)?;
        memory[self.taken] = Row {
            numbers: codes,
            standing: true,
        };
        self.taken += 1;
        Ok(self.taken)
    }

    pub(crate) fn withdraw_row(&self, memory: &mut [Row], row: usize) -> Result<(), Refusal>
        ensures answer { result ≡ withdraw_answer (plain_setup self.now) self.now.taken memory.old row }
        ensures memory { memory.new ≡ withdraw_memory (plain_setup self.now) self.now.taken memory.old row }
    {
        self.ask_length(memory)?;
        let place = self
            .standing_place(memory, row)
            .ok_or(Refusal::NotStanding)?;
        memory[place] = Row::BLANK;
        Ok(())
    }

    pub(crate) fn show_code(&self, memory: &[Row], entry: Entry) -> Result<u64, Refusal>
        ensures { result ≡ show_answer (plain_setup self.now) self.now.taken memory.now entry }
    {
        self.ask_length(memory)?;
        let record = self
            .standing_record(memory, entry.row)
            .ok_or(Refusal::NotStanding)?;
        if entry.column >= self.columns.as_slice().len() {
            return Err(Refusal::NoSuchColumn);
        }
        Ok(record.numbers[entry.column])
    }

    pub(crate) fn count(&self, memory: &[Row]) -> Result<(usize, usize), Refusal>
        ensures { result ≡ tally_answer (plain_setup self.now) self.now.taken memory.now }
    {
        self.ask_length(memory)?;
        Ok((self.taken, marks(self.given_out(memory))))
    }

    pub(crate) fn turn_code<Y: Coding, H: Coding>(
        &self,
        memory: &[Row],
        codings: &ColumnCodings<Y, H>,
        entry: Entry,
    ) -> Result<u64, Refusal>
        ensures { result ≡ turn_back_answer (setup_of self.now (meanings_of Y.means H.means codings.now)) self.now.taken memory.now entry }
    {
        let code = self.show_code(memory, entry)?;
        codings.back_in(self.columns.as_slice()[entry.column], code)
    }

    // One call.
    pub(crate) fn made<Y: Coding, H: Coding>(
        &mut self,
        memory: &mut [Row],
        codings: &ColumnCodings<Y, H>,
        call: Call<'_>,
    ) -> Result<Answer, Refusal>
        ensures answer { result ≡ answer (setup_of self.old (meanings_of Y.means H.means codings.now)) (state_of self.old memory.old) (asked_of call.entry) }
        ensures state { state_of self.new memory.new ≡ after (setup_of self.old (meanings_of Y.means H.means codings.now)) (state_of self.old memory.old) (asked_of call.entry) }
        ensures release { self.new ≡ with_taken self.old self.new.taken }
    {
        match call {
            Call::Put(numbers) => self.put_row(memory, codings, numbers).map(Answer::Put),
            Call::Withdraw(row) => self.withdraw_row(memory, row).map(|()| Answer::Withdrawn),
            Call::Show(entry) => self.show_code(memory, entry).map(Answer::Shown),
            Call::TurnBack(entry) => self
                .turn_code(memory, codings, entry)
                .map(Answer::TurnedBack),
            Call::Tally => self.count(memory).map(Answer::Tally),
        }
    }
}

// Sets all records to zero.
pub(crate) fn blank_all(memory: &mut [Row])
    ensures { memory.new ≡ replicate (length memory.old) blank }
{
    memory.fill(Row::BLANK);
}

// How many records have the mark.
fn marks(records: &[Row]) -> usize
    ensures { result ≡ count_marks records.now }
{
    let mut standing = 0;
    for record in records {
        if record.standing {
            standing += 1;
        }
    }
    standing
}
