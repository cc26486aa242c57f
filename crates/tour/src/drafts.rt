// Drafts that are spoilt.
use draft::read::read;
use std::io;

// Three drafts of width 24 that are spoilt: one with a letter that is no command, one that ends inside C0, and one whose
// order 0 sends each bit to bit 0.
pub fn show_spoilt(rt: &impl Print) -> io::Result<()> {
    println!(rt; "three spoilt drafts:")?;
    tell_fault(rt, b"W\x18FX")?;
    tell_fault(rt, b"W\x18FA\x07\x00\x00")?;
    let mut all_to_one = [0; 68];
    all_to_one[..4].copy_from_slice(b"W\x18F0");
    tell_fault(rt, &all_to_one)
}

fn tell_fault(rt: &impl Print, bytes: &[u8]) -> io::Result<()> {
    match read(bytes) {
        Ok(_) => println!(rt; "  accepted"),
        Err(fault) => println!(rt; "  refused {fault}"),
    }
}
