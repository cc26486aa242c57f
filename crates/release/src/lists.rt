// Lists of calls on a release, with the whole promise in contract.
ghost use Rattle.std.specs.Prelude.{◌≡◌, ◌≤◌, [], map, length, vec_capacity, IfOk, IfErr, MatchResult};
ghost use Rattle.release.specs.Handed.{ListMade};
ghost use Rattle.release.specs.Listed.{asked_of};
ghost use Rattle.release.specs.Promises.{RanFrom, UnopenedBy};
ghost use Rattle.release.specs.Views.{meanings_of};

use crate::column_codings::ColumnCodings;
use crate::plain::Plain;
use crate::ran::{Ran, Unopened};
use crate::raw::blank_all;
use crate::states::{Open, Release};
use book::call::{Answer, Call};
use book::refusal::Refusal;
use book::row::Row;
use codings::coding::Coding;
use std::alloc::{AllocError, Global};

impl Release<Open> {
    // Makes the calls one after the other and answers each. Want of memory for the answers changes nothing.
    pub fn make_calls<Y: Coding, H: Coding>(
        &mut self,
        heap: Global,
        memory: &mut [Row],
        codings: &ColumnCodings<Y, H>,
        calls: &[Call<'_>],
    ) -> Result<Vec<Result<Answer, Refusal>>, AllocError>
        ensures made { IfOk result (λ told. ListMade Y.means H.means codings.now self.old memory.old
            calls.now told.items self.new memory.new) }
        ensures unmade { IfErr result (λ _. (self.new ≡ self.old) × (memory.new ≡ memory.old)) }
    {
        let mut told = Vec::with_capacity(heap, calls.len())?;
        self.call_each(memory, codings, calls, &mut told);
        Ok(told)
    }

    // Makes the calls one after the other, and tells their answers.
    fn call_each<Y: Coding, H: Coding>(
        &mut self,
        memory: &mut [Row],
        codings: &ColumnCodings<Y, H>,
        calls: &[Call<'_>],
        told: &mut Vec<Result<Answer, Refusal>>,
    )
        requires none { told.old.items ≡ [] }
        requires room { length calls.now ≤ vec_capacity told.old }
        ensures { ListMade Y.means H.means codings.now self.old memory.old calls.now told.new.items
            self.new memory.new }
    {
        // A loop: of a chain whose closure changes the release and row memory a proof knows nothing.
        for call in calls {
            told.push_reserved(self.call(memory, codings, *call));
        }
    }
}

// Opens a release and makes a list of calls on it. Memory for the answers is asked for when nothing else refuses the opening, and
// before row memory is written.
pub fn open_and_call<Y: Coding, H: Coding>(
    heap: Global,
    letters: &[char],
    memory: &mut [Row],
    codings: &ColumnCodings<Y, H>,
    calls: &[Call<'_>],
) -> Result<Ran, Unopened>
    ensures { MatchResult result (λ ran. RanFrom letters.now memory.old (meanings_of Y.means H.means codings.now) (map asked_of calls.now) ran.release.plain ran.answers.items memory.new) (λ e. (memory.new ≡ memory.old) × UnopenedBy letters.now (length memory.old) e) }
{
    let plain = Plain::allowed(letters, memory.len())?;
    let mut answers = Vec::with_capacity(heap, calls.len())?;
    blank_all(memory);
    let mut release = Release { plain, state: Open };
    release.call_each(memory, codings, calls, &mut answers);
    Ok(Ran { release, answers })
}
