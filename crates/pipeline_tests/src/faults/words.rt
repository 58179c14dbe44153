// What the words of the program ask for, and words that ask for nothing.
use crate::shared::comparing::{expect_text, holds};
use crate::shared::given_texts::owned;
use crate::shared::tables::{Subject, each_line};
use rn_merge::{Job, ProgramFault, plan};
use std::process::Abort;

/// The words that a line writes, each but the first behind a slash.
fn words(rt: &(impl Abort + AllocGlobal), line: &str) -> Vec<String> {
    let mut words = Vec::new(rt.alloc());
    for word in line.split('/') {
        words.push(owned(rt, word)).expect(rt, "no memory");
    }
    words
}

/// What the words of a line ask for.
fn planned(rt: &(impl Abort + AllocGlobal), line: &str) -> Result<Job, ProgramFault> {
    plan(rt.alloc(), words(rt, line).as_slice())
}

/// Whether this is the job that was asked for.
fn is_job(answer: &Result<Job, ProgramFault>, job: &Job) -> bool {
    match answer {
        Ok(found) => found == job,
        Err(_) => false,
    }
}

/// The words of a line ask for this job.
fn plans(rt: &(impl Abort + AllocGlobal), line: &str, job: &Job) {
    holds(rt, is_job(&planned(rt, line), job), line);
}

/// The words of a line have this fault.
fn refuses(rt: &(impl Abort + AllocGlobal), line: &str, fault: &ProgramFault) {
    let is_refused = match &planned(rt, line) {
        Ok(_) => false,
        Err(found) => found == fault,
    };
    holds(rt, is_refused, line);
}

#[test]
fn no_words_print_standard_input(rt: HostRuntime) {
    let files = words(&rt, "-");
    let is_print = is_job(&plan(rt.alloc(), &[]), &Job::Print { files });
    holds(&rt, is_print, "no words ask for standard input");
}

/// The job of printing the files that a line writes.
struct PrintJob;

impl Subject for PrintJob {
    fn answers<R: Abort + AllocGlobal>(&self, rt: &R, given: &str, wanted: &str) {
        let files = words(rt, wanted);
        plans(rt, given, &Job::Print { files });
    }
}

/// Words, and the files that they name.
const FILES: &str = "print/a => a
print/- => -
print/a/-/b => a/-/b
print/--/-x => -x
print/a/--/-x/--/--help => a/-x/--/--help
print/a/--/- => a/-
print/a/b/-- => a/b
print//print => /print
print/--/-- => --";

#[test]
fn words_name_files_to_print(rt: HostRuntime) {
    each_line(&rt, &PrintJob, FILES);
}

/// Words that have the form of no command. The empty line is one empty word.
const USAGE: &str = "print
zap
--help
help
help/print
-h
--version
-V

-
--
--/print/a
-x/print/a
print/--
print/-x
print/a/-x
print/--help
print/a/--help
print/-h
print/a/-1
check/a/b
check
pack/a/0
pack/a/x/f/g
pack/a/-1/f
withdraw/a
withdraw/a/1/f
join
prin/a
list/--";

#[test]
fn other_words_are_refused(rt: HostRuntime) {
    for line in USAGE.split('\n') {
        refuses(&rt, line, &ProgramFault::Usage);
    }
    refuses(&rt, "join/-/-", &ProgramFault::Dash);
    refuses(&rt, "list/a/-/--/b/-", &ProgramFault::Dash);
}

/// This is no revision, where a module is packed and where it is withdrawn.
fn refuses_revision(rt: &(impl Abort + AllocGlobal), revision: &str) {
    let pack = expect_text(rt, format!(in rt.alloc(); "pack/a/{revision}/f"));
    refuses(rt, pack.as_str(), &ProgramFault::Rev);
    let withdraw = expect_text(rt, format!(in rt.alloc(); "withdraw/a/{revision}"));
    refuses(rt, withdraw.as_str(), &ProgramFault::Rev);
}

#[test]
fn revisions_are_plain_numbers(rt: HostRuntime) {
    let revisions = [
        "01",
        "",
        "+1",
        "1 ",
        "00",
        "x",
        "-",
        "18446744073709551616",
        "1e3",
        "0x1",
    ];
    for revision in revisions {
        refuses_revision(&rt, revision);
    }
}

/// The job of packing a module.
fn job_of_packing(rt: &(impl Abort + AllocGlobal), name: &str, revision: u64, file: &str) -> Job {
    Job::Pack {
        name: owned(rt, name),
        revision,
        file: owned(rt, file),
    }
}

#[test]
fn words_name_one_module(rt: HostRuntime) {
    plans(&rt, "pack/a/0/-", &job_of_packing(&rt, "a", 0, "-"));
    let named_as_input = job_of_packing(&rt, "-", 18_446_744_073_709_551_615, "--x");
    plans(&rt, "pack/-/18446744073709551615/--/--x", &named_as_input);
    plans(&rt, "pack/--/-a/10/", &job_of_packing(&rt, "-a", 10, ""));
    let name = owned(&rt, "");
    plans(&rt, "withdraw//7", &Job::Withdraw { name, revision: 7 });
}

#[test]
fn words_ask_for_other_jobs(rt: HostRuntime) {
    let file = owned(&rt, "-");
    plans(&rt, "check/-", &Job::Check { file });
    let files = words(&rt, "a");
    plans(&rt, "join/a", &Job::Join { files });
    let files = words(&rt, "a");
    plans(&rt, "list/a", &Job::List { files });
}
