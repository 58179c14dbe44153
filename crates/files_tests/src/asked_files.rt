// What is answered where files in memory are asked for, as rows write them.
use crate::comparing::{expect_text, same_for};
use rn_files::{
    Asked, FaultPlace, LinkFault, Map, MemoryFiles, Reading, ReadingFault, ReferenceFault,
    SourceFaultKind, Sources, Tried, read_catalogs, read_files, read_sources,
};
use std::alloc::{AllocError, Global};
use std::process::Abort;

/// What a row gives.
#[derive(Drop)]
struct Row {
    files: MemoryFiles,
    words: Vec<String>,
    root: Option<String>,
    maps: Vec<Vec<Map>>,
    catalogs: Vec<String>,
    input: Option<String>,
}

/// Takes in a line of a row: its kind, and the one or two words behind it.
fn take_line(
    alloc: Global,
    row: &mut Row,
    kind: &str,
    first: &str,
    second: &str,
) -> Result<(), AllocError> {
    match kind {
        "file" => row.files.add_file(alloc, first, second.as_bytes()),
        "pipe" => row.files.add_pipe(alloc, first, second.as_bytes()),
        "link" => row.files.add_link(alloc, first, second),
        "swapped" => row.files.add_swapped(alloc, first, second),
        "word" => Ok(row.words.push(String::from_str(alloc, first)?)?),
        "catalog" => Ok(row.catalogs.push(String::from_str(alloc, first)?)?),
        "root" => {
            row.root = Some(String::from_str(alloc, first)?);
            Ok(())
        }
        "input" => {
            row.input = Some(String::from_str(alloc, first)?);
            Ok(())
        }
        _ => add_map(alloc, row, first, second),
    }
}

/// Adds a map to what a row gives.
fn add_map(alloc: Global, row: &mut Row, prefix: &str, folder: &str) -> Result<(), AllocError> {
    let map = Map::below(alloc, prefix, folder)?;
    match row.maps.first_mut() {
        Some(group) => Ok(group.push(map)?),
        None => Ok(()),
    }
}

/// What a row gives, read from its lines. The current folder is `/w`.
fn row_of(alloc: Global, lines: &str) -> Result<Row, AllocError> {
    let mut row = Row {
        files: MemoryFiles::new(alloc, "/w")?,
        words: Vec::new(alloc),
        root: None,
        maps: vec![in alloc; Vec::new(alloc)]?,
        catalogs: Vec::new(alloc),
        input: None,
    };
    for line in lines.split('\n') {
        let (kind, rest) = line.split_once('\t').unwrap_or((line, ""));
        let (first, second) = rest.split_once('\t').unwrap_or((rest, ""));
        take_line(alloc, &mut row, kind, first, second)?;
    }
    Ok(row)
}

/// The names and the targets of sources, and the roots.
fn sources_line(alloc: Global, sources: &Sources) -> Result<String, AllocError> {
    let mut out = String::new(alloc);
    for source in &sources.files {
        let (name, targets) = (&source.name, &source.targets);
        write!(out, "{name} {targets:?} ")?;
    }
    let roots = &sources.roots;
    write!(out, "roots {roots:?}")?;
    Ok(out)
}

/// Whether a message on a fault tells what was tried.
fn tells_tried(place: FaultPlace, fault: LinkFault) -> bool {
    matches!(place, FaultPlace::Text { .. } | FaultPlace::Catalogs)
        && matches!(
            fault,
            LinkFault::File(_)
                | LinkFault::Reference(
                    ReferenceFault::Scheme | ReferenceFault::Elsewhere | ReferenceFault::Delegated,
                )
        )
}

/// Why a link leads to no file, and what was tried for it where a message tells that.
fn push_link(
    out: &mut String,
    place: FaultPlace,
    fault: LinkFault,
    tried: &Tried,
) -> Result<(), AllocError> {
    write!(out, "{fault:?}")?;
    if tells_tried(place, fault) {
        let place = &tried.place;
        write!(out, " {place:?}")?;
        if let Some(uri) = &tried.uri {
            write!(out, " for {uri:?}")?;
        }
    }
    Ok(())
}

/// The faults of files.
fn faults_line(alloc: Global, reading: &Reading) -> Result<String, AllocError> {
    let mut out = String::new(alloc);
    for fault in &reading.faults {
        let place = fault.place;
        write!(out, "{place:?} ")?;
        match &fault.kind {
            SourceFaultKind::Link { fault, tried } => push_link(&mut out, place, *fault, tried)?,
            kind => write!(out, "{kind:?}")?,
        }
        out.push_str(";")?;
    }
    Ok(out)
}

/// The sources that are read, or the faults, in one line.
pub fn answer_line(
    alloc: Global,
    answer: Result<Sources, ReadingFault>,
) -> Result<String, AllocError> {
    match answer {
        Ok(sources) => sources_line(alloc, &sources),
        Err(ReadingFault::Faults(reading)) => faults_line(alloc, &reading),
        Err(ReadingFault::Memory) => Err(AllocError),
    }
}

/// Adds what catalogs say to what a row gives.
fn add_groups(row: &mut Row, groups: Vec<Vec<Map>>) -> Result<(), AllocError> {
    for group in groups {
        row.maps.push(group)?;
    }
    Ok(())
}

/// The fault of catalogs, behind the catalog that it is in.
fn catalog_line(alloc: Global, reading: &Reading) -> Result<String, AllocError> {
    let mut out = String::new(alloc);
    for file in &reading.files {
        out.push_str(file.shown.as_str())?;
        out.push_str(" ")?;
    }
    out.push_str(faults_line(alloc, reading)?.as_str())?;
    Ok(out)
}

/// What is answered for a row.
fn answer_for_row(alloc: Global, lines: &str) -> Result<String, AllocError> {
    let mut row = row_of(alloc, lines)?;
    match read_catalogs(alloc, &row.files, row.catalogs.as_slice()) {
        Ok(groups) => add_groups(&mut row, groups)?,
        Err(ReadingFault::Faults(reading)) => return catalog_line(alloc, &reading),
        Err(ReadingFault::Memory) => return Err(AllocError),
    }
    answer_line(alloc, read_sources(alloc, &row.files, &asked_by(&row)))
}

/// What a row asks for.
fn asked_by(row: &Row) -> Asked<'_> {
    Asked {
        files: row.words.as_slice(),
        root: row.root.as_ref().map(|root| root.as_str()),
        maps: row.maps.as_slice(),
        input: row.input.as_ref().map(|input| input.as_str()),
    }
}

/// How the files of a row are told, and the loop that they are in, if they are in one.
fn told_for_row(alloc: Global, lines: &str) -> Result<String, AllocError> {
    let row = row_of(alloc, lines)?;
    let linked = match read_files(alloc, &row.files, &asked_by(&row)) {
        Ok(linked) => linked,
        Err(ReadingFault::Faults(reading)) => return faults_line(alloc, &reading),
        Err(ReadingFault::Memory) => return Err(AllocError),
    };
    let mut out = String::new(alloc);
    for source in &linked.sources.files {
        out.push_str(source.shown.as_str())?;
        out.push_str(" ")?;
    }
    if let Some(fault) = &linked.fault {
        let kind = &fault.kind;
        write!(out, "{kind:?}")?;
    }
    Ok(out)
}

/// Of each row the files are told so.
pub fn each_told(rt: &(impl Abort + AllocGlobal), rows: &[(&str, &str)]) {
    for (lines, wanted) in rows {
        let found = expect_text(rt, told_for_row(rt.alloc(), lines));
        same_for(rt, lines, found.as_str(), wanted);
    }
}

/// Each row has its answer. A row is written in lines (a file with its text, a pipe, a link, a file that is swapped for another, a word, a root folder, a map, the path of
/// standard input), and what is wanted
/// has the modules with their targets, and the roots; or the faults.
pub fn each_answered(rt: &(impl Abort + AllocGlobal), rows: &[(&str, &str)]) {
    for (lines, wanted) in rows {
        let found = expect_text(rt, answer_for_row(rt.alloc(), lines));
        same_for(rt, lines, found.as_str(), wanted);
    }
}

/// The word `a.rnc` alone.
fn lone_word(alloc: Global) -> Result<Vec<String>, AllocError> {
    let mut words = Vec::new(alloc);
    words.push(String::from_str(alloc, "a.rnc")?)?;
    Ok(words)
}

/// What is answered where the file `/w/a.rnc` is asked for.
pub fn answer_for_a(alloc: Global, files: &MemoryFiles) -> Result<Sources, ReadingFault> {
    let words = lone_word(alloc)?;
    let asked = Asked {
        files: words.as_slice(),
        root: None,
        maps: &[],
        input: None,
    };
    read_sources(alloc, files, &asked)
}

/// What is answered where `/w/a.rnc` is asked for and holds these bytes, in one line.
pub fn answer_for_bytes(alloc: Global, bytes: &[u8]) -> Result<String, AllocError> {
    let mut files = MemoryFiles::new(alloc, "/w")?;
    files.add_file(alloc, "/w/a.rnc", bytes)?;
    answer_line(alloc, answer_for_a(alloc, &files))
}
