// Building the pile that is written.
ghost use Rattle.std.specs.Prelude.{◌≡◌, MatchResult};
ghost use Rattle.jobs.specs.Building.{Answers, LeafOf};
ghost use Rattle.jobs.specs.Leaves.{leaf_means};
ghost use Rattle.jobs.specs.Refused.{PlusRefused, CipherRefused};
ghost use Rattle.jobs.specs.Written.{bytes_at, IsPlus, IsCipherOf};

use crate::built::Built;
use crate::leaf::Leaf;
use crate::unbuilt::Unbuilt;
use crate::written::Written;
use codings::clear::Clear;
use codings::plus::Plus;
use kcipher::bytes::{NoCipher, cipher_of};
use kcipher::cipher::KCipher;
use piles::error::PileError;
use std::alloc::Global;

// The pile that is written, over these files, or what refuses it.
pub fn build(heap: Global, written: &Written, files: &[Vec<u8>]) -> Result<Built, Unbuilt>
    ensures { Answers files.now written.now result }
{
    let built = match written {
        Written::Clear(top) => Built::leaf(Leaf::Clear(Clear::new(*top))),
        Written::Plus(top, k) => Built::leaf(plus(*top, *k)?),
        Written::Cipher(draft, key) => Built::leaf(cipher(heap, files, *draft, *key)?),
        Written::Chain(first, then) => {
            let first = build(heap, first, files)?;
            first.chain(heap, build(heap, then, files)?)?
        }
        Written::Turned(below) => build(heap, below, files)?.turned(heap)?,
        Written::Narrowed(below, to) => build(heap, below, files)?.narrowed(heap, *to)?,
    };
    Ok(built)
}

fn plus(top: u64, k: u64) -> Result<Leaf, Unbuilt>
    ensures { MatchResult result (λ l. IsPlus top k (leaf_means l)) (λ e. PlusRefused top k e) }
{
    match Plus::new(top, k) {
        Ok(coding) => Ok(Leaf::Plus(coding)),
        Err(_) => Err(Unbuilt::AboveTop),
    }
}

// The cipher of two files.
fn cipher(heap: Global, files: &[Vec<u8>], draft: usize, key: usize) -> Result<Leaf, Unbuilt>
    ensures { MatchResult result (λ l. IsCipherOf files.now draft key (leaf_means l)) (λ e. CipherRefused files.now draft key e) }
{
    let draft_bytes = file(files, draft)?;
    let key_bytes = file(files, key)?;
    match cipher_of(draft_bytes, key_bytes) {
        Ok(coding) => on_heap(heap, coding),
        Err(NoCipher::Draft(fault)) => Err(Unbuilt::Draft(draft, fault)),
        Err(NoCipher::Key(refusal)) => Err(Unbuilt::Key(key, refusal)),
    }
}

// A cipher as a leaf.
fn on_heap(heap: Global, coding: KCipher) -> Result<Leaf, Unbuilt>
    ensures { LeafOf coding result }
{
    match Box::new(heap, coding) {
        Ok(boxed) => Ok(Leaf::Cipher(boxed)),
        Err(_) => Err(Unbuilt::Pile(PileError::NoMemory)),
    }
}

// The bytes of a file.
fn file<'a>(files: &'a [Vec<u8>], place: usize) -> Result<&'a [u8], Unbuilt>
    ensures { MatchResult result (λ bytes. bytes_at files.now place ≡ Some bytes.now) (λ e. (e ≡ Unbuilt.NoFile place) × (bytes_at files.now place ≡ None)) }
{
    match files.get(place) {
        Some(bytes) => Ok(bytes),
        None => Err(Unbuilt::NoFile(place)),
    }
}
