// A pile as it is written out.

// The files are places in a list of files.
#[derive(Drop)]
pub enum Written {
    // clear(top)
    Clear(u64),
    // plus(top, constant)
    Plus(u64, u64),
    // kcipher(draft file, key file)
    Cipher(usize, usize),
    // chain(first, then)
    Chain(Box<Written>, Box<Written>),
    // turned(below)
    Turned(Box<Written>),
    // narrowed(below, to)
    Narrowed(Box<Written>, u64),
}
