// Doing a job: a release is opened, the calls of the job are made in their order and told, and the release is sealed. What cannot
// be read or is refused on the way is told with its file and line, and the rest goes on.
use crate::drafts::tell_whether_draft;
use crate::folder::Folder;
use crate::inputs::job_reads;
use crate::refusals::tell_refused;
use crate::sheet::write_sheet;
use anyhow::{Context, anyhow};
use book::call::Call;
use book::row::Row;
use jobs::build::build;
use jobs::job::{Head, Step, read_head, read_step};
use jobs::leaf::Leaf;
use jobs::place::{BadText, Place, Wrong};
use jobs::row::read_row;
use jobs::unbuilt::Unbuilt;
use jobs::written::Written;
use piles::pile::Pile;
use release::column_codings::ColumnCodings;
use release::states::{Open, Release};
use std::io::{self, BufRead, BufReader};
use std::{fs, str};

// A release has at most 4096 row records, so opening it refuses one more as it would refuse a million.
const ONE_RECORD_TOO_MANY: usize = 4097;

// What the calls of a job are made with.
#[derive(Drop)]
struct Shed<'a> {
    rt: &'a HostRuntime,
    folder: Folder<'a>,
    codings: ColumnCodings<Pile<Leaf>, Pile<Leaf>>,
}

// Every way out seals the release or scraps it.
pub fn do_job(rt: &HostRuntime, job: &str) -> anyhow::Result<()> {
    let text = fs::read_to_string(rt, job).context(job)?;
    let head = match read_head(rt.alloc(), &text) {
        Ok(head) => head,
        Err(bad) => {
            eprintln!(rt; "{job} {bad}")?;
            return Err(anyhow!("no release"));
        }
    };
    let folder = Folder::of(job);
    let shed = Shed {
        rt,
        folder,
        codings: codings_of(rt, folder, &head)?,
    };
    let records = head.records.min(ONE_RECORD_TOO_MANY);
    let mut memory = vec![in rt.alloc(); Row::BLANK; records]?;
    let mut release = match Release::open(&head.roles, &mut memory) {
        Ok(release) => release,
        Err(refusal) => {
            return Err(anyhow!("no release: refused {}: {refusal}", refusal.number()));
        }
    };
    match shed.do_steps(job, &text, head.lines, &mut release, &mut memory) {
        Ok(sheet) => {
            let sealed = release.seal();
            let Some(name) = sheet else {
                return Ok(());
            };
            if job_reads(rt, folder, job, &text, &head, name)? {
                eprintln!(rt; "{name}: no sheet is written over a file that the job reads")?;
                return Err(anyhow!("no sheet"));
            }
            write_sheet(rt, folder, name, &sealed, &memory, head.roles.len())
        }
        Err(error) => {
            release.scrap(&mut memory);
            Err(error)
        }
    }
}

// The yarn and the hands coding. A long narrowing is warned of before any work.
fn codings_of(
    rt: &HostRuntime,
    folder: Folder<'_>,
    head: &Head,
) -> anyhow::Result<ColumnCodings<Pile<Leaf>, Pile<Leaf>>> {
    let mut files = Vec::new(rt.alloc());
    for name in &head.files {
        files.push(folder.read(rt, name)?)?;
    }
    Ok(ColumnCodings {
        yarn: coding_of(rt, "yarn", &head.yarn, &head.files, &files)?,
        hands: coding_of(rt, "hands", &head.hands, &head.files, &files)?,
    })
}

fn coding_of(
    rt: &HostRuntime,
    which: &str,
    written: &Written,
    names: &[String],
    files: &[Vec<u8>],
) -> anyhow::Result<Pile<Leaf>> {
    let built = match build(rt.alloc(), written, files) {
        Ok(built) => built,
        Err(unbuilt) => {
            tell_unbuilt(rt, which, names, unbuilt)?;
            return Err(anyhow!("no release"));
        }
    };
    if built.long > 0 {
        println!(rt;
            "{which}: a code may take more than a million steps, by {} of its narrowings",
            built.long
        )?;
    }
    Ok(built.pile)
}

fn tell_unbuilt(
    rt: &HostRuntime,
    which: &str,
    names: &[String],
    unbuilt: Unbuilt,
) -> io::Result<()> {
    match unbuilt {
        Unbuilt::Draft(file, _) | Unbuilt::Key(file, _) => {
            eprintln!(rt; "{which}: {}: refused {unbuilt}", name_of(names, file))
        }
        Unbuilt::AboveTop => eprintln!(rt; "{which}: refused {unbuilt}"),
        Unbuilt::NoFile(_) | Unbuilt::Pile(_) => eprintln!(rt; "{which}: {unbuilt}"),
    }
}

fn name_of(names: &[String], file: usize) -> &str {
    match names.get(file) {
        Some(name) => name,
        None => "a file",
    }
}

impl Shed<'_> {
    // The steps stand after the lines of the head. Answers where the sheet is to be written, by the last line that says so.
    fn do_steps<'t>(
        &self,
        job: &str,
        text: &'t str,
        head_lines: usize,
        release: &mut Release<Open>,
        memory: &mut [Row],
    ) -> anyhow::Result<Option<&'t str>> {
        let rt = self.rt;
        let mut sheet = None;
        for (i, line) in text.lines().enumerate().skip(head_lines) {
            match read_step(line, i + 1) {
                Ok(Some(Step::Sheet(name))) => sheet = Some(name),
                Ok(Some(Step::Rows(name))) => {
                    if let Err(error) = self.put_rows(name, release, memory) {
                        println!(rt; "{job} line {}: {error:#}", i + 1)?;
                    }
                }
                Ok(Some(step)) => {
                    print!(rt; "{job} line {}: ", i + 1)?;
                    if let Err(error) = self.do_step(step, release, memory) {
                        println!(rt; "{error:#}")?;
                    }
                }
                Ok(None) => {}
                Err(bad) => println!(rt; "{job} {bad}")?,
            }
        }
        self.call(Call::Tally, release, memory)?;
        Ok(sheet)
    }

    // A step that has one line of answer.
    fn do_step(
        &self,
        step: Step<'_>,
        release: &mut Release<Open>,
        memory: &mut [Row],
    ) -> anyhow::Result<()> {
        match step {
            Step::Withdraw(row) => self.call(Call::Withdraw(row), release, memory),
            Step::Show(entry) => self.call(Call::Show(entry), release, memory),
            Step::TurnBack(entry) => self.call(Call::TurnBack(entry), release, memory),
            Step::Tally => self.call(Call::Tally, release, memory),
            Step::Draft(name) => {
                tell_whether_draft(self.rt, name, &self.folder.read(self.rt, name)?)
            }
            Step::Rows(_) | Step::Sheet(_) => Ok(()),
        }
    }

    // Makes a call and tells its answer.
    fn call(
        &self,
        call: Call<'_>,
        release: &mut Release<Open>,
        memory: &mut [Row],
    ) -> anyhow::Result<()> {
        let rt = self.rt;
        print!(rt; "{call}: ")?;
        match release.call(memory, &self.codings, call) {
            Ok(answer) => println!(rt; "{answer}")?,
            Err(refusal) => tell_refused(rt, refusal)?,
        }
        Ok(())
    }

    // Puts the rows of a file.
    fn put_rows(
        &self,
        name: &str,
        release: &mut Release<Open>,
        memory: &mut [Row],
    ) -> anyhow::Result<()> {
        let rt = self.rt;
        let heap = rt.alloc();
        let file = self.folder.open(rt, name)?;
        let mut numbers = Vec::new(heap);
        for (i, line) in BufReader::new(heap, file)?.split(heap, b'\n').enumerate() {
            let line = line.context(name)?;
            match row_of(&line, i + 1, &mut numbers) {
                Ok(()) => {
                    print!(rt; "{name} line {}: ", i + 1)?;
                    self.call(Call::Put(&numbers), release, memory)?;
                }
                Err(bad) => println!(rt; "{name} {bad}")?,
            }
        }
        Ok(())
    }
}

// Bytes that are no text have no number from the first that is none.
fn row_of(line: &[u8], number: usize, numbers: &mut Vec<u64>) -> Result<(), BadText> {
    match str::from_utf8(line) {
        Ok(text) => read_row(text.trim_end(), number, numbers),
        Err(error) => Err(BadText {
            place: Place {
                line: number,
                column: error.valid_up_to() + 1,
            },
            wrong: Wrong::NoNumber,
        }),
    }
}
