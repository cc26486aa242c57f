// The folder of a job, from which its files are named.
use anyhow::Context;
use std::fs::{self, File};
use std::path::{Path, PathBuf};

#[derive(Clone, Copy)]
pub struct Folder<'a>(Option<Path<'a>>);

impl<'a> Folder<'a> {
    pub fn of(job: &'a str) -> Folder<'a> {
        Folder(Path::new(job).parent())
    }

    pub fn path(self, rt: &HostRuntime, name: &str) -> anyhow::Result<PathBuf> {
        let folder = self.0.unwrap_or(Path::new(""));
        Ok(folder.join(rt.alloc(), name)?)
    }

    pub fn read(self, rt: &HostRuntime, name: &str) -> anyhow::Result<Vec<u8>> {
        let path = self.path(rt, name)?;
        fs::read(rt, &path).context(name)
    }

    pub fn open(self, rt: &HostRuntime, name: &str) -> anyhow::Result<File> {
        let path = self.path(rt, name)?;
        fs::open(rt, &path).context(name)
    }
}
