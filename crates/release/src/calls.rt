// The calls on a release.
ghost use Rattle.std.specs.Prelude.{◌≡◌, length, replicate};
ghost use Rattle.book.specs.Rows.{blank};
ghost use Rattle.release.specs.Calls.{Allowed, Opened, PutDone, WithdrawDone, ShowDone, TurnBackDone, TallyDone};
ghost use Rattle.release.specs.Handed.{plain_of, CallMade};
ghost use Rattle.release.specs.Views.{meanings_of};

use crate::column_codings::ColumnCodings;
use crate::columns::Columns;
use crate::plain::Plain;
use crate::raw::blank_all;
use crate::states::{Open, Release, Sealed};
use book::call::{Answer, Call};
use book::entry::Entry;
use book::refusal::Refusal;
use book::row::Row;
use codings::coding::Coding;

impl Plain {
    // The questions of opening: 1 to 8 columns (14), role letters (15), 1 to 4096 row records (16).
    pub(crate) fn allowed(letters: &[char], records: usize) -> Result<Plain, Refusal>
        ensures { Allowed letters.now records result }
    {
        let columns = Columns::read(letters)?;
        if records == 0 || records > 4096 {
            return Err(Refusal::RowRecords);
        }
        Ok(Plain {
            columns,
            records,
            taken: 0,
        })
    }
}

impl<S> Release<S> {
    // The code of an entry.
    pub fn show(&self, memory: &[Row], entry: Entry) -> Result<u64, Refusal>
        ensures { ShowDone self.now.plain memory.now entry result }
    {
        self.plain.show_code(memory, entry)
    }

    // The places taken and the rows standing.
    pub fn tally(&self, memory: &[Row]) -> Result<(usize, usize), Refusal>
        ensures { TallyDone self.now.plain memory.now result }
    {
        self.plain.count(memory)
    }
}

impl Release<Open> {
    // Opens a release with a column for each role letter over all of the row memory, which it sets to zero.
    #[tactic(auto, using(crate::proofs::Done::opened))]
    pub fn open(letters: &[char], memory: &mut [Row]) -> Result<Release<Open>, Refusal>
        ensures { Opened letters.now memory.old (plain_of result) memory.new }
    {
        let plain = Plain::allowed(letters, memory.len())?;
        blank_all(memory);
        Ok(Release { plain, state: Open })
    }

    // Puts a row, a number for each column, at the next place, and answers its number, counted from 1.
    pub fn put<Y: Coding, H: Coding>(
        &mut self,
        memory: &mut [Row],
        codings: &ColumnCodings<Y, H>,
        numbers: &[u64],
    ) -> Result<usize, Refusal>
        ensures { PutDone self.old.plain memory.old (meanings_of Y.means H.means codings.now) numbers.now result self.new.plain memory.new }
    {
        self.plain.put_row(memory, codings, numbers)
    }

    // Blanks the record of a standing row. No later put takes its place.
    pub fn withdraw(&mut self, memory: &mut [Row], row: usize) -> Result<(), Refusal>
        ensures done { WithdrawDone self.old.plain memory.old row result memory.new }
        ensures release { self.new ≡ self.old }
    {
        self.plain.withdraw_row(memory, row)
    }

    // The number whose code is an entry's.
    pub fn turn_back<Y: Coding, H: Coding>(
        &self,
        memory: &[Row],
        codings: &ColumnCodings<Y, H>,
        entry: Entry,
    ) -> Result<u64, Refusal>
        ensures { TurnBackDone self.now.plain memory.now (meanings_of Y.means H.means codings.now) entry result }
    {
        self.plain.turn_code(memory, codings, entry)
    }

    // Makes a call, whichever it is.
    pub fn call<Y: Coding, H: Coding>(
        &mut self,
        memory: &mut [Row],
        codings: &ColumnCodings<Y, H>,
        call: Call<'_>,
    ) -> Result<Answer, Refusal>
        ensures { CallMade Y.means H.means codings.now self.old memory.old call.entry result
            self.new memory.new }
    {
        self.plain.made(memory, codings, call)
    }

    // Seals the release: from here on its rows can only be shown and counted.
    pub fn seal(self) -> Release<Sealed>
        ensures { result.plain ≡ self.plain }
    {
        let Release { plain, state: Open } = self;
        Release {
            plain,
            state: Sealed,
        }
    }

    // Ends the release and sets all of the row memory given to zero, of whatever length.
    pub fn scrap(self, memory: &mut [Row])
        ensures { memory.new ≡ replicate (length memory.old) blank }
    {
        let Release { state: Open, .. } = self;
        blank_all(memory);
    }
}
