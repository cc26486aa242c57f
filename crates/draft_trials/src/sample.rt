// Drafts spelt out for the tests.
use draft::read::read;
use spelling::fault::{Fault, Reason};
use std::alloc::{AllocError, Global};
use std::process::Abort;

// The bytes of a draft, and where its last command stands.
#[derive(Drop)]
pub(crate) struct Sample {
    bytes: Vec<u8>,
    pub(crate) last: usize,
}

impl Sample {
    pub(crate) fn new(alloc: Global) -> Sample {
        Sample {
            bytes: Vec::new(alloc),
            last: 0,
        }
    }

    pub(crate) fn push(&mut self, byte: u8) -> Result<(), AllocError> {
        self.bytes.push(byte)?;
        Ok(())
    }

    // A byte so many times.
    pub(crate) fn repeat(&mut self, byte: u8, times: usize) -> Result<(), AllocError> {
        for _ in 0..times {
            self.push(byte)?;
        }
        Ok(())
    }

    pub(crate) fn number(&mut self, number: u64) -> Result<(), AllocError> {
        self.bytes.extend_from_slice(&number.to_le_bytes())
    }

    // Each of the first `size` bits to itself, and zeros after them.
    pub(crate) fn plain(&mut self, size: u8) -> Result<(), AllocError> {
        for place in 0..64 {
            self.push(if place < size { place } else { 0 })?;
        }
        Ok(())
    }

    // A letter and what belongs to it: the width, 0, or the plain list of the size.
    pub(crate) fn command(&mut self, width: u8, letter: char) -> Result<(), AllocError> {
        self.last = self.len();
        self.push(if letter.is_ascii() { letter as u8 } else { 0 })?;
        match letter {
            'W' => self.push(width),
            'A' | 'B' => self.number(0),
            '0' | '1' | '2' | '3' => self.plain(width),
            '4' | '5' => self.plain(64),
            _ => Ok(()),
        }
    }

    pub(crate) fn set(&mut self, at: usize, byte: u8) {
        if let Some(place) = self.bytes.get_mut(at) {
            *place = byte;
        }
    }

    pub(crate) fn len(&self) -> usize {
        self.bytes.len()
    }

    // The first bytes, as many as asked for and there.
    pub(crate) fn first(&self, len: usize) -> &[u8] {
        self.bytes.get(..len).unwrap_or(&self.bytes)
    }

    pub(crate) fn all(&self) -> &[u8] {
        &self.bytes
    }
}

// The commands of these letters. The width and the letters go together through the trials as two words of their tables; a
// struct of both would be written out in each row.
pub(crate) fn spelt(alloc: Global, width: u8, letters: &str) -> Result<Sample, AllocError> {
    let mut sample = Sample::new(alloc);
    for letter in letters.chars() {
        sample.command(width, letter)?;
    }
    Ok(sample)
}

// The bytes are no draft, and this is their fault.
pub(crate) fn faulty(rt: &impl Abort, bytes: &[u8], reason: Reason, offset: usize) {
    assert_eq!(rt; read(bytes).err(), Some(Fault { reason, offset }));
}
