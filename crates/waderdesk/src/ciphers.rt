// Coding numbers by the K-Cipher of a draft and a key, and back.
use crate::refusals::tell_answer;
use anyhow::{Context, anyhow};
use codings::coding::Coding;
use codings::turned::Turned;
use kcipher::bytes::{NoCipher, cipher_of};
use kcipher::cipher::KCipher;
use std::io::{BufRead, BufReader};
use std::{fs, str};

// The cipher of a draft and a key, each a file of raw bytes. Which of them is refused stands on standard error.
fn read_cipher(rt: &HostRuntime, draft: &str, key: &str) -> anyhow::Result<KCipher> {
    let draft_bytes = fs::read(rt, draft).context(draft)?;
    let key_bytes = fs::read(rt, key).context(key)?;
    match cipher_of(&draft_bytes, &key_bytes) {
        Ok(cipher) => Ok(cipher),
        Err(refused) => {
            let file = match refused {
                NoCipher::Draft(_) => draft,
                NoCipher::Key(_) => key,
            };
            eprintln!(rt; "{file}: {refused}")?;
            Err(anyhow!("no cipher"))
        }
    }
}

// The codes of the numbers on standard input, one line for each.
pub fn tell_codes(rt: &HostRuntime, draft: &str, key: &str) -> anyhow::Result<()> {
    tell_each(rt, &read_cipher(rt, draft, key)?)
}

// The numbers of the codes on standard input, one line for each.
pub fn tell_numbers(rt: &HostRuntime, draft: &str, key: &str) -> anyhow::Result<()> {
    tell_each(rt, &Turned::new(read_cipher(rt, draft, key)?))
}

// What each line of standard input is coded as. A line that has no number is told in its place, so that the lines that come out
// stay beside those that went in.
fn tell_each<C: Coding>(rt: &HostRuntime, coding: &C) -> anyhow::Result<()> {
    let heap = rt.alloc();
    let lines = BufReader::new(heap, rt.reader())?.split(heap, b'\n');
    for (i, line) in lines.enumerate() {
        match number_in(&line?) {
            Some(x) => tell_answer(rt, coding.code(x))?,
            None => println!(rt; "line {}: no number from 0 to {}", i + 1, u64::MAX)?,
        }
    }
    Ok(())
}

// The decimal number that a line has, digits with nothing but space around them.
fn number_in(line: &[u8]) -> Option<u64> {
    let word = str::from_utf8(line).ok()?.trim();
    if word.bytes().all(|byte| byte.is_ascii_digit()) {
        word.parse().ok()
    } else {
        None
    }
}
