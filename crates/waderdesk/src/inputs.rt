// The files that a job reads: over these no sheet is written.
use crate::folder::Folder;
use jobs::job::{Head, Step, read_step};
use std::fs;
use std::os::unix::fs::MetadataExt;
use std::path::AsPath;

// A file by its numbers in the system, whatever names and links lead to it.
#[derive(Clone, Copy, PartialEq, Eq)]
struct FileNumbers {
    device: u64,
    number: u64,
}

// None where there is no such file.
fn numbers_of<P: AsPath>(rt: &HostRuntime, path: P) -> Option<FileNumbers> {
    let found = fs::metadata(rt, path).ok()?;
    Some(FileNumbers {
        device: found.dev(),
        number: found.ino(),
    })
}

// Whether the sheet's file is the job itself, or one that its head or a step reads.
pub fn job_reads(
    rt: &HostRuntime,
    folder: Folder<'_>,
    job: &str,
    text: &str,
    head: &Head,
    sheet: &str,
) -> anyhow::Result<bool> {
    let Some(sheet) = numbers_of(rt, &folder.path(rt, sheet)?) else {
        return Ok(false);
    };
    if numbers_of(rt, job) == Some(sheet) {
        return Ok(true);
    }
    for file in &head.files {
        if numbers_of(rt, &folder.path(rt, file)?) == Some(sheet) {
            return Ok(true);
        }
    }
    for (i, line) in text.lines().enumerate().skip(head.lines) {
        if let Ok(Some(Step::Rows(file) | Step::Draft(file))) = read_step(line, i + 1) {
            if numbers_of(rt, &folder.path(rt, file)?) == Some(sheet) {
                return Ok(true);
            }
        }
    }
    Ok(false)
}
