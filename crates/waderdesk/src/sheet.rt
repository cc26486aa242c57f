// The coded sheet of a release: for each standing row a line of its number and its codes, with commas between.
use crate::folder::Folder;
use anyhow::Context;
use book::entry::Entry;
use book::row::Row;
use release::states::{Release, Sealed};
use std::fs::{self, File};
use std::io::{BufWriter, Write};

pub fn write_sheet(
    rt: &HostRuntime,
    folder: Folder<'_>,
    name: &str,
    sealed: &Release<Sealed>,
    memory: &[Row],
    columns: usize,
) -> anyhow::Result<()> {
    let file = fs::create(rt, &folder.path(rt, name)?).context(name)?;
    let mut out = BufWriter::new(rt.alloc(), file)?;
    let (taken, standing) = sealed.tally(memory)?;
    for row in 1..=taken {
        write_row(&mut out, sealed, memory, row, columns).context(name)?;
    }
    out.flush().context(name)?;
    println!(rt; "{name}: {standing} rows written")?;
    Ok(())
}

// A row that was withdrawn is left out.
fn write_row(
    out: &mut impl Write,
    sealed: &Release<Sealed>,
    memory: &[Row],
    row: usize,
    columns: usize,
) -> anyhow::Result<()> {
    if sealed.show(memory, Entry { row, column: 0 }).is_err() {
        return Ok(());
    }
    write!(out, "{row}")?;
    for column in 0..columns {
        let code = sealed.show(memory, Entry { row, column })?;
        write!(out, ",{code}")?;
    }
    writeln!(out)?;
    Ok(())
}
