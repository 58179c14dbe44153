// All faults of files, in the order in which they are told: those without a place, and then in the order of the names
// of files and of their texts.
ghost use Rattle.std.specs.Prelude.{IfOk};
ghost use Rattle.rn_report.specs.Messages.{IsFew};

use super::check_sentences::{check_kind, check_sentence, fault_byte, is_of_meaning};
use super::fault_messages::{lift_message, lift_spot, reading_message, reading_spot};
use crate::report::{Message, Messages, Page, Spot, attempt_pages, source_pages, text_of_page};
use rn_files::{Asked, Reading, SourceFault, SourceFile};
use rn_lift::LiftedModule;
use rn_merge::{Place, check};
use rn_scopes::LiftFault;
use std::alloc::{AllocError, Global};
use std::collections::BTreeSet;

/// A fault before it is a sentence.
#[derive(Drop)]
enum FoundFault<'f> {
    Reading(&'f SourceFault),
    /// A fault of lifting these files.
    Lift {
        files: &'f [SourceFile],
        fault: &'f LiftFault,
    },
    /// A fault of what the text of a file means: of its prefixes, datatypes and values.
    Meaning {
        file: usize,
        place: Place,
    },
}

/// Where a fault is told.
fn spot_of(fault: &FoundFault<'_>) -> Option<Spot> {
    match fault {
        FoundFault::Reading(fault) => reading_spot(fault.place),
        FoundFault::Lift { fault, .. } => lift_spot(fault),
        FoundFault::Meaning { file, place } => Some(Spot {
            file: *file,
            at: fault_byte(place),
        }),
    }
}

/// What is told of reading what is asked for, where that failed: its faults, and those of what the texts mean.
pub fn reading_messages(
    alloc: Global,
    asked: &Asked<'_>,
    reading: &Reading,
) -> Result<Messages, AllocError>
    ensures { IfOk result IsFew }
{
    let pages = attempt_pages(alloc, reading.files.as_slice())?;
    let mut faults = Vec::new(alloc);
    for fault in &reading.faults {
        faults.push(FoundFault::Reading(fault))?;
    }
    gather_meanings(alloc, pages.as_slice(), &mut faults)?;
    messages_in_order(alloc, asked, pages.as_slice(), faults.as_slice())
}

/// What is told of lifting that failed: its fault, and those of what the texts mean.
pub fn lift_messages(
    alloc: Global,
    files: &[SourceFile],
    fault: &LiftFault,
) -> Result<Messages, AllocError>
    ensures { IfOk result IsFew }
{
    let pages = source_pages(alloc, files)?;
    let mut faults = vec![in alloc; FoundFault::Lift { files, fault }]?;
    gather_meanings(alloc, pages.as_slice(), &mut faults)?;
    messages_in_order(
        alloc,
        &Asked::nothing(),
        pages.as_slice(),
        faults.as_slice(),
    )
}

/// Adds the faults of what the texts mean.
fn gather_meanings(
    alloc: Global,
    pages: &[Page<'_>],
    faults: &mut Vec<FoundFault<'_>>,
) -> Result<(), AllocError> {
    for (file, page) in pages.iter().enumerate() {
        if let Some(place) = fault_of(alloc, page.text)? {
            if is_of_meaning(&place) {
                faults.push(FoundFault::Meaning { file, place })?;
            }
        }
    }
    Ok(())
}

/// The fault of a text.
fn fault_of(alloc: Global, text: &str) -> Result<Option<Place>, AllocError> {
    match check(alloc, text.as_bytes()) {
        Ok(()) => Ok(None),
        Err(Place::Memory) => Err(AllocError),
        Err(place) => Ok(Some(place)),
    }
}

/// Messages of the first faults in order.
fn messages_in_order(
    alloc: Global,
    asked: &Asked<'_>,
    pages: &[Page<'_>],
    faults: &[FoundFault<'_>],
) -> Result<Messages, AllocError>
    ensures { IfOk result IsFew }
{
    let mut told = Messages::new(alloc);
    for number in telling_order(alloc, pages, faults)? {
        if let Some(fault) = faults.get(number) {
            tell_fault(alloc, &mut told, asked, pages, fault)?;
        }
    }
    Ok(told)
}

/// Adds the message of a fault, or counts it.
fn tell_fault(
    alloc: Global,
    told: &mut Messages,
    asked: &Asked<'_>,
    pages: &[Page<'_>],
    fault: &FoundFault<'_>,
) -> Result<(), AllocError>
    requires { IsFew told.old }
    ensures { IsFew told.new }
{
    if told.count_if_full() {
        return Ok(());
    }
    told.messages.push(message(alloc, asked, pages, fault)?)?;
    Ok(())
}

/// The numbers of the faults, in the order in which they are told.
fn telling_order(
    alloc: Global,
    pages: &[Page<'_>],
    faults: &[FoundFault<'_>],
) -> Result<Vec<usize>, AllocError> {
    let ranks = ranks(alloc, pages)?;
    let mut places = Vec::new(alloc);
    for (number, fault) in faults.iter().enumerate() {
        let (rank, at) = match spot_of(fault) {
            Some(spot) => (ranks.get(spot.file).copied(), spot.at),
            None => (None, 0),
        };
        places.push((rank, at, number))?;
    }
    places.sort()?;
    places.iter().map(|place| place.2).collect(alloc)
}

/// For each file, its place in the order of the names.
fn ranks(alloc: Global, pages: &[Page<'_>]) -> Result<Vec<usize>, AllocError> {
    let mut named = Vec::new(alloc);
    for (file, page) in pages.iter().enumerate() {
        named.push((page.name, file))?;
    }
    named.sort()?;
    let mut ranks = vec![in alloc; 0; pages.len()]?;
    for (rank, (_, file)) in named.iter().enumerate() {
        if let Some(place) = ranks.get_mut(*file) {
            *place = rank;
        }
    }
    Ok(ranks)
}

/// The message of a fault.
fn message(
    alloc: Global,
    asked: &Asked<'_>,
    pages: &[Page<'_>],
    fault: &FoundFault<'_>,
) -> Result<Message, AllocError> {
    match fault {
        FoundFault::Reading(fault) => reading_message(alloc, asked, pages, fault),
        FoundFault::Lift { files, fault } => lift_message(alloc, files, fault),
        FoundFault::Meaning { file, place } => {
            let sentence = check_sentence(alloc, text_of_page(pages, *file), place)?;
            Ok(Message::new(alloc, check_kind(place), spot_of(fault), sentence))
        }
    }
}

/// What is told of modules whose texts are at fault, in the order of their names: the first one is the one that is
/// refused. What comes from one place of a file is told once. Nothing where no text is at fault.
pub fn text_messages(alloc: Global, modules: &[LiftedModule]) -> Result<Messages, AllocError>
    ensures { IfOk result IsFew }
{
    let mut seen = BTreeSet::new(alloc);
    let mut told = Messages::new(alloc);
    for module in modules {
        if let Some(place) = fault_of(alloc, module.text.as_str())? {
            let origin = module.origin(fault_byte(&place));
            if seen.insert(origin)? {
                tell_text(alloc, &mut told, module, origin, &place)?;
            }
        }
    }
    Ok(told)
}

/// Adds the message of the fault of a module's text, or counts it.
fn tell_text(
    alloc: Global,
    told: &mut Messages,
    module: &LiftedModule,
    origin: Option<(usize, usize)>,
    place: &Place,
) -> Result<(), AllocError>
    requires { IsFew told.old }
    ensures { IsFew told.new }
{
    if told.count_if_full() {
        return Ok(());
    }
    let spot = origin.map(|(file, at)| Spot { file, at });
    let sentence = check_sentence(alloc, module.text.as_str(), place)?;
    told.messages
        .push(Message::new(alloc, check_kind(place), spot, sentence))?;
    Ok(())
}
