// What a draft says, or why its bytes are none.
use anyhow::Context;
use draft::read::read;
use std::fs;

pub fn tell_draft(rt: &HostRuntime, path: &str) -> anyhow::Result<()> {
    let bytes = fs::read(rt, path).context(path)?;
    match read(&bytes) {
        Ok(draft) => println!(rt; "{}", draft.parts())?,
        Err(fault) => println!(rt; "refused {fault}")?,
    }
    Ok(())
}

// Whether the bytes are a draft, as one line behind the name of their file.
pub fn tell_whether_draft(rt: &impl Print, name: &str, bytes: &[u8]) -> anyhow::Result<()> {
    match read(bytes) {
        Ok(draft) => {
            let parts = draft.parts();
            println!(rt;
                "{name}: a draft of width {}, flow {}",
                parts.width, parts.flow
            )?;
        }
        Err(fault) => println!(rt; "{name}: refused {fault}")?,
    }
    Ok(())
}
