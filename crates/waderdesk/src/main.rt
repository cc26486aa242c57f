// The desk: what a mill and a school run.
#![tactic(auto)]

mod ciphers;
mod drafts;
mod folder;
mod inputs;
mod job;
mod refusals;
mod sheet;

use anyhow::anyhow;
use ciphers::{tell_codes, tell_numbers};
use drafts::tell_draft;
use job::do_job;
use std::env;

const HELP: &str = "\
waderdesk codes the colours, lots and weavers of loom records.

  waderdesk draft FILE       what a draft says, or its fault
  waderdesk code DRAFT KEY   the codes of the numbers on standard input
  waderdesk back DRAFT KEY   the numbers of the codes on standard input
  waderdesk release JOB      opens a release, makes the calls of a job and
                             writes the coded sheet
  waderdesk --help           this

DRAFT and KEY are files of raw bytes. Numbers are decimal, one a line, and
each line has one line of answer. A refusal reads `refused N: words`; one that
ends the program goes to standard error, with status 1. docs/SPEC.md has the
rules and the numbers, docs/JOBS.md the lines of a job. A month to try:

  waderdesk release examples/month/month.job";

// The task that the arguments name, and the files that it is asked of.
fn run(rt: &HostRuntime) -> anyhow::Result<()> {
    let mut args = env::args(rt)?;
    args.next();
    let (task, first, second) = (args.next(), args.next(), args.next());
    let more = args.next();
    match (task.as_deref(), first.as_deref(), second.as_deref()) {
        _ if more.is_some() => Err(anyhow!("too many words; try waderdesk --help")),
        (None, _, _) | (Some("--help"), None, None) => Ok(println!(rt; "{HELP}")?),
        (Some("draft"), Some(path), None) => tell_draft(rt, path),
        (Some("code"), Some(draft), Some(key)) => tell_codes(rt, draft, key),
        (Some("back"), Some(draft), Some(key)) => tell_numbers(rt, draft, key),
        (Some("release"), Some(job), None) => do_job(rt, job),
        _ => Err(anyhow!("no such task; try waderdesk --help")),
    }
}

fn main(rt: HostRuntime) -> anyhow::Result<()> {
    run(&rt)
}
