// Files of a row, and the modules that they become. A file follows a line `@NAME`; the first one is the root.
use crate::outlines::outline_of;
use rn_lift::{Lifted, lift};
use rn_outline::{FilePartKind, Outline};
use rn_scopes::Lifting;
use std::alloc::{AllocError, Global};
use std::process::Abort;

// A file of a row, with the numbers of the files that it names.
#[derive(Drop)]
struct File {
    name: String,
    text: String,
    outline: Outline,
    targets: Vec<usize>,
}

// The name and the text of a written file.
fn name_and_text(written: &str) -> (&str, &str) {
    written.split_once('\n').unwrap_or((written, ""))
}

// The number of the file of a name among the files of a row.
fn file_number(row: &str, name: &str) -> Option<usize> {
    for (number, written) in row.split('@').skip(1).enumerate() {
        if name_and_text(written).0 == name {
            return Some(number);
        }
    }
    None
}

// The numbers of the files that the externals and includes of an outline name.
fn targets_of(rt: &(impl Abort + AllocGlobal), row: &str, outline: &Outline) -> Vec<usize> {
    let mut targets = Vec::new(rt.alloc());
    for part in &outline.parts {
        if let FilePartKind::External { literal, .. }
        | FilePartKind::Include { literal, .. } = &part.kind
        {
            let target = file_number(row, literal.as_str()).expect(rt, "no file of the name");
            targets.push(target).expect(rt, "no memory");
        }
    }
    targets
}

// The file that a row writes.
fn read_file(rt: &(impl Abort + AllocGlobal), row: &str, written: &str) -> File {
    let (name, text) = name_and_text(written);
    let outline = outline_of(rt, text);
    let targets = targets_of(rt, row, &outline);
    File {
        name: String::from_str(rt.alloc(), name).expect(rt, "no memory"),
        text: String::from_str(rt.alloc(), text).expect(rt, "no memory"),
        outline,
        targets,
    }
}

// The files that a row writes.
fn read_files(rt: &(impl Abort + AllocGlobal), row: &str) -> Vec<File> {
    let mut files = Vec::new(rt.alloc());
    for written in row.split('@').skip(1) {
        files
            .push(read_file(rt, row, written))
            .expect(rt, "no memory");
    }
    files
}

// Modules, written as a row writes files.
fn written_modules(alloc: Global, lifted: &Lifted) -> Result<String, AllocError> {
    let mut out = String::new(alloc);
    for module in &lifted.modules {
        let (name, text) = (module.name.as_str(), module.text.as_str());
        out.push_str(format!(in alloc; "@{name}\n{text}\n")?.as_str())?;
    }
    Ok(out)
}

// The modules that the files of a row become, or the fault.
fn answer(rt: &(impl Abort + AllocGlobal), row: &str) -> String {
    let files = read_files(rt, row);
    let mut liftings = Vec::new(rt.alloc());
    for file in files.as_slice() {
        let lifting = Lifting {
            name: file.name.as_str(),
            text: file.text.as_str(),
            outline: &file.outline,
            targets: file.targets.as_slice(),
        };
        liftings.push(lifting).expect(rt, "no memory");
    }
    match lift(rt.alloc(), liftings.as_slice(), &[0]) {
        Ok(lifted) => written_modules(rt.alloc(), &lifted).expect(rt, "no memory"),
        Err(fault) => format!(in rt.alloc(); "{fault:?}").expect(rt, "no memory"),
    }
}

/// The files of each row become the modules that are wanted, or have that fault. Rows are parted by `====`, and what is wanted
/// follows `=>`.
pub fn each_lifted(rt: &(impl Abort + AllocGlobal), rows: &str) {
    for row in rows.split("\n====\n") {
        let (given, wanted) = row.split_once("\n=>\n").unwrap_or((row, ""));
        assert_eq!(rt; answer(rt, given).as_str(), wanted, "{given}");
    }
}
