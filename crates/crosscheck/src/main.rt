// Answers the questions of test vectors, so that they can be held against another program's answers. Of the lines on standard
// input `cipher DRAFT KEY` opens the cipher of a draft and a key in hexadecimal, and `code N` and `back N` ask it; each of these
// has one line of answer. A line that is none of these, or whose cipher is refused, ends the program.
#![tactic(auto)]

use anyhow::{anyhow, bail};
use codings::coding::Coding;
use codings::refusal::AboveTop;
use kcipher::bytes::cipher_of;
use kcipher::cipher::KCipher;
use std::alloc::Global;
use std::io::{BufRead, BufReader};

fn main(rt: HostRuntime) -> anyhow::Result<()> {
    let heap = rt.alloc();
    let mut cipher = None;
    for line in BufReader::new(heap, rt.reader())?.lines(heap) {
        take(&rt, &mut cipher, &line?)?;
    }
    Ok(())
}

// Opens a cipher, or asks the one that is open.
fn take(rt: &HostRuntime, cipher: &mut Option<KCipher>, line: &str) -> anyhow::Result<()> {
    let mut words = line.split_whitespace();
    match (words.next(), words.next(), words.next()) {
        (Some("cipher"), Some(draft), Some(key)) => {
            *cipher = Some(opened(rt.alloc(), draft, key)?);
            Ok(())
        }
        (Some("code"), Some(number), None) => tell(rt, asked(cipher)?.code(number.parse()?)),
        (Some("back"), Some(code), None) => tell(rt, asked(cipher)?.back(code.parse()?)),
        _ => bail!("{line}: no question"),
    }
}

fn opened(heap: Global, draft: &str, key: &str) -> anyhow::Result<KCipher> {
    let draft = hex::decode(heap, draft)?;
    let key = hex::decode(heap, key)?;
    Ok(cipher_of(&draft, &key)?)
}

fn asked(cipher: &Option<KCipher>) -> anyhow::Result<&KCipher> {
    cipher
        .as_ref()
        .ok_or(anyhow!("a question before any cipher"))
}

fn tell(rt: &impl Print, answer: Result<u64, AboveTop>) -> anyhow::Result<()> {
    println!(rt; "{}", answer?)?;
    Ok(())
}
