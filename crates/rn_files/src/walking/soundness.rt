// What sources keep: targets, names and no loops along references; and the fault where they do not.
ghost use Rattle.std.specs.Prelude.{◌≡◌, ◌==◌, ℕ, true, IfNone, IfOk, MatchOption, length, string_bytes};
ghost use Rattle.std.specs.List.{list_all};
ghost use Rattle.rn_modset.specs.Contributions.{is_module_name};
ghost use Rattle.rn_graph.specs.Graph.{IsGraph, rows_of};
ghost use Rattle.rn_graph.specs.Loops.{IsLoop};
ghost use Rattle.rn_graph.specs.Ranks.{HasNoLoop, IsFirstLoop};
ghost use Rattle.rn_files.specs.Sources.{AreSoundSources, count_links, edges_of};
ghost use Rattle.rn_files.specs.inside.Sources.{are_below, differ_in_name, have_own_names};

use super::following::link_of;
use crate::source_faults::{FaultPlace, SourceFault, SourceFaultKind};
use crate::sources::{SourceFile, Sources};
use rn_graph::Rows;
use rn_graph::loops::shortest_loop;
use rn_graph::ranks::least_looped;
use rn_modset::is_module_name;
use std::alloc::{AllocError, Global};

/// Whether all numbers are less than the count.
fn are_below(numbers: &[usize], count: usize) -> bool
    ensures { result ≡ are_below count numbers.now }
{
    numbers.iter().all(|number| *number < count)
}

/// For each file, the numbers of those that its includes and externals mean.
fn file_graph(alloc: Global, files: &[SourceFile]) -> Result<Rows, AllocError>
    ensures { IfOk result (λ edges. rows_of edges ≡ edges_of files.now) }
{
    let mut edges = Rows::with_capacity(alloc, files.len())?;
    for source in files {
        edges.push_row(source.targets.as_slice())?;
    }
    Ok(edges)
}

/// Whether each include and external of all files means one of them.
fn is_graph(files: &[SourceFile]) -> bool
    ensures { result ≡ list_all (λ f. are_below (length files.now) f.targets.items) files.now }
{
    let count = files.len();
    files
        .iter()
        .all(|source| are_below(source.targets.as_slice(), count))
}

/// Whether the names of all files are those of modules.
fn have_names(files: &[SourceFile]) -> bool
    ensures { result ≡ list_all (λ f. is_module_name (string_bytes f.name)) files.now }
{
    files
        .iter()
        .all(|source| is_module_name(source.name.as_str()))
}

/// Whether none of the others has the name of the file.
fn differs_from(source: &SourceFile, others: &[SourceFile]) -> bool
    ensures { result ≡ list_all (differ_in_name source.now) others.now }
{
    others
        .iter()
        .all(|other| source.name.as_str() != other.name.as_str())
}

/// Whether no two files have one name. Each is compared with those after it, of which there are not many: a set has
/// 1,024 modules at most.
fn have_own_names(files: &[SourceFile]) -> bool
    ensures { result ≡ have_own_names files.now }
{
    let mut rest = files;
    while let [first, others @ ..] = rest {
        if !differs_from(first, others) {
            return false;
        }
        rest = others;
    }
    true
}

/// How many includes and externals a file has.
fn count_links(source: &SourceFile) -> usize
    ensures { result ≡ count_links source.now }
{
    source
        .outline
        .parts
        .iter()
        .filter(|part| link_of(part).is_some())
        .count()
}

/// Whether each include and external of all files has a target.
fn have_targets(files: &[SourceFile]) -> bool
    ensures { result ≡ list_all (λ f. length f.targets.items == count_links f) files.now }
{
    files
        .iter()
        .all(|source| source.targets.len() == count_links(source))
}

/// The files of a loop along references, in order, through the first file that comes back to itself; none where no file
/// does.
fn first_loop(alloc: Global, edges: &Rows) -> Result<Option<Vec<usize>>, AllocError>
    requires { IsGraph (rows_of edges.now) }
    ensures { IfOk result (λ found. MatchOption found (HasNoLoop (rows_of edges.now))
        (λ files. (first : ℕ) × IsFirstLoop (rows_of edges.now) first
        × IsLoop (rows_of edges.now) first files.items)) }
{
    match least_looped(alloc, edges)? {
        Some(first) => shortest_loop(alloc, edges, first),
        None => Ok(None),
    }
}

/// The byte where the link with this number begins.
fn link_place(source: &SourceFile, number: usize) -> usize {
    match source.outline.parts.iter().filter_map(link_of).nth(number) {
        Some((_, at)) => at,
        None => 0,
    }
}

/// Where a loop closes: the link of its last file that means its first one.
fn closing_place(sources: &[SourceFile], files: &[usize]) -> Option<FaultPlace> {
    let first = files.first()?;
    let file = *files.last()?;
    let source = sources.get(file)?;
    let number = source.targets.iter().position(|target| target == first)?;
    let at = link_place(source, number);
    Some(FaultPlace::Text { file, at })
}

/// That the sources don't keep what is promised of them.
fn unsound_fault() -> SourceFault {
    SourceFault {
        place: FaultPlace::Current,
        kind: SourceFaultKind::Unsound,
    }
}

/// A loop along references, as a fault at the reference that closes it.
fn closed_loop(sources: &[SourceFile], looped: Vec<usize>) -> SourceFault {
    let place = closing_place(sources, looped.as_slice()).unwrap_or(FaultPlace::Current);
    SourceFault {
        place,
        kind: SourceFaultKind::Loop(looped),
    }
}

/// A loop along references; or that the sources don't keep what else is promised of them.
pub fn sources_fault(alloc: Global, sources: &Sources) -> Result<Option<SourceFault>, AllocError>
    ensures { IfOk result (λ fault. IfNone fault (AreSoundSources sources.now)) }
{
    let files = sources.files.as_slice();
    if !is_graph(files) {
        return Ok(Some(unsound_fault()));
    }
    if !are_below(sources.roots.as_slice(), files.len()) {
        return Ok(Some(unsound_fault()));
    }
    if !have_names(files) {
        return Ok(Some(unsound_fault()));
    }
    if !have_targets(files) {
        return Ok(Some(unsound_fault()));
    }
    if !have_own_names(files) {
        return Ok(Some(unsound_fault()));
    }
    let edges = file_graph(alloc, files)?;
    match first_loop(alloc, &edges)? {
        Some(looped) => Ok(Some(closed_loop(files, looped))),
        None => Ok(None),
    }
}
