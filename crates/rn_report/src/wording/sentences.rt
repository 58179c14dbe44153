// Each refusal of a set as a sentence, with the places that it speaks of.
ghost use Rattle.std.specs.Prelude.{IfOk};
ghost use Rattle.rn_report.specs.Messages.{IsFew};

use super::file_messages::text_messages;
use super::general_sentences::{general_kind, general_sentence};
use crate::finding::findings::{
    Extent, FindingKind, Telling, ToldFinding, diagnosis_of, finding_alike, first_alike,
    has_findings, name_of_key, spelled_key, told_finding,
};
use crate::finding::nearest_keys::{provided_advice, undefined_name};
use crate::message_kinds::MessageKind;
use crate::placing::sites::{Site, sites_of};
use crate::report::{
    MAX_TOLD, Message, Messages, Page, Spot, is_xml_page, place_text, shown_name, source_pages,
};
use rn_assemble::{Diagnosis, Refusal};
use rn_files::SourceFile;
use rn_lift::Lifted;
use rn_modset::ModuleSet;
use std::alloc::{AllocError, Global};
use std::collections::BTreeSet;

/// What is told of modules whose set is refused. Where texts are at fault, it is the fault of each text; else the
/// refusal, at the first place that it speaks of, and then those that would be answered once it is mended, of the kinds of
/// which all can be found. What is the same for several modules of one file is told once.
pub fn refusal_messages(
    alloc: Global,
    files: &[SourceFile],
    lifted: &Lifted,
    set: &ModuleSet,
    refusal: &Refusal,
) -> Result<Messages, AllocError>
    ensures { IfOk result IsFew }
{
    messages_to(alloc, files, lifted, set, refusal, Extent::Whole)
}

/// What is told of modules that are parts of a schema and are refused, as [`refusal_messages`] tells it, but for the lack
/// of a start and names that nothing defines.
pub fn refusal_messages_of_parts(
    alloc: Global,
    files: &[SourceFile],
    lifted: &Lifted,
    set: &ModuleSet,
    refusal: &Refusal,
) -> Result<Messages, AllocError>
    ensures { IfOk result IsFew }
{
    messages_to(alloc, files, lifted, set, refusal, Extent::Parts)
}

/// What is told of modules whose set is refused.
fn messages_to(
    alloc: Global,
    files: &[SourceFile],
    lifted: &Lifted,
    set: &ModuleSet,
    refusal: &Refusal,
    extent: Extent,
) -> Result<Messages, AllocError>
    ensures { IfOk result IsFew }
{
    if is_of_text(refusal) {
        let told = text_messages(alloc, lifted.modules.as_slice())?;
        if !told.messages.is_empty() {
            return Ok(told);
        }
    }
    match diagnosis_of(alloc, set, Some(refusal))? {
        Some(diagnosis) => diagnosis_messages(alloc, files, lifted, &diagnosis, refusal, extent),
        None => Messages::of_message(alloc, general_message(alloc, refusal)?),
    }
}

/// What is told of a refusal, where all that stands against the set is known.
fn diagnosis_messages(
    alloc: Global,
    files: &[SourceFile],
    lifted: &Lifted,
    diagnosis: &Diagnosis<'_>,
    refusal: &Refusal,
    extent: Extent,
) -> Result<Messages, AllocError>
    ensures { IfOk result IsFew }
{
    let pages = source_pages(alloc, files)?;
    let sites = sites_of(alloc, lifted)?;
    let telling = Telling {
        alloc,
        pages: pages.as_slice(),
        sites: &sites,
        diagnosis,
    };
    if has_findings(refusal) {
        tell(&telling, extent)
    } else {
        Messages::of_message(alloc, refusal_message(&telling, refusal)?)
    }
}

/// Whether the refusal says that the text of a module is at fault. No other refusal is answered where one is.
fn is_of_text(refusal: &Refusal) -> bool {
    matches!(
        refusal,
        Refusal::Encoding { .. }
            | Refusal::Lexical { .. }
            | Refusal::Deep { .. }
            | Refusal::Syntax { .. }
            | Refusal::Prefix { .. }
            | Refusal::Builtin { .. }
            | Refusal::ContextValue { .. }
            | Refusal::Except { .. }
    )
}

/// The messages of the findings that are faults.
fn tell(telling: &Telling<'_>, extent: Extent) -> Result<Messages, AllocError>
    ensures { IfOk result IsFew }
{
    let firsts = first_alike(telling.alloc, telling.sites.lifted)?;
    let mut seen = BTreeSet::new(telling.alloc);
    let mut told = Messages::new(telling.alloc);
    for finding in &telling.diagnosis.findings {
        let finding = told_finding(telling, finding);
        let is_fault = extent.counts(finding.kind);
        if is_fault && seen.insert(finding_alike(firsts.as_slice(), finding))? {
            tell_finding(telling, &mut told, finding)?;
        }
    }
    Ok(told)
}

/// Adds the message of a finding, or counts it.
fn tell_finding(
    telling: &Telling<'_>,
    told: &mut Messages,
    finding: ToldFinding<'_>,
) -> Result<(), AllocError>
    requires { IsFew told.old }
    ensures { IsFew told.new }
{
    if told.count_if_full() {
        return Ok(());
    }
    told.messages.push(finding_message(telling, finding)?)?;
    Ok(())
}

/// The message of a finding.
fn finding_message(telling: &Telling<'_>, finding: ToldFinding<'_>) -> Result<Message, AllocError> {
    let spot = spot_of(telling, finding.here);
    let sentence = finding_sentence(telling, finding)?;
    let kind = finding_kind(finding.kind);
    let mut message = Message::new(telling.alloc, kind, spot, sentence);
    for site in [finding.there, finding.elsewhere] {
        push_other(telling, &mut message, site)?;
    }
    Ok(message)
}

/// Adds a further place of a message, where it is found.
fn push_other(
    telling: &Telling<'_>,
    message: &mut Message,
    site: Option<Site>,
) -> Result<(), AllocError> {
    if let Some(spot) = spot_of(telling, site) {
        message.others.push(spot)?;
    }
    Ok(())
}

/// What a message on a refusal is about.
fn finding_kind(kind: FindingKind) -> MessageKind {
    match kind {
        FindingKind::Override => MessageKind::Override,
        FindingKind::PlainTwice => MessageKind::Duplicate,
        FindingKind::MixedMethods => MessageKind::Combine,
        FindingKind::NoStart => MessageKind::Start,
        FindingKind::Undefined => MessageKind::Undefined,
    }
}

/// The message of a refusal for which no others are looked for.
fn refusal_message(telling: &Telling<'_>, refusal: &Refusal) -> Result<Message, AllocError> {
    match refusal {
        Refusal::Recursive { name } => recursive_name(telling, name.as_str()),
        Refusal::NameClass { key } => name_class(telling, name_of_key(key)),
        _ => general_message(telling.alloc, refusal),
    }
}

/// The message of a refusal that is about all files together.
fn general_message(alloc: Global, refusal: &Refusal) -> Result<Message, AllocError> {
    let sentence = general_sentence(alloc, refusal)?;
    Ok(Message::new(alloc, general_kind(refusal), None, sentence))
}

fn finding_sentence(telling: &Telling<'_>, finding: ToldFinding<'_>) -> Result<String, AllocError> {
    match finding.kind {
        FindingKind::Override => unfounded_override(telling, finding),
        FindingKind::PlainTwice => plain_twice(telling, finding),
        FindingKind::MixedMethods => mixed_methods(telling, finding),
        FindingKind::NoStart => general_sentence(telling.alloc, &Refusal::NoStart),
        FindingKind::Undefined => undefined_name(telling, finding),
    }
}

/// Where a site is in the files.
fn spot_of(telling: &Telling<'_>, site: Option<Site>) -> Option<Spot> {
    site.and_then(|site| telling.sites.spot(site))
}

/// Whether a site is in a file in the XML syntax.
fn is_xml(telling: &Telling<'_>, site: Site) -> bool {
    telling
        .sites
        .spot(site)
        .is_some_and(|spot| is_xml_page(telling.pages, spot.file))
}

/// Where a site is, as `FILE:LINE:COLUMN`.
fn site_text(telling: &Telling<'_>, site: Site) -> Result<String, AllocError> {
    place_text(telling.alloc, telling.pages, telling.sites.spot(site))
}

/// Two definitions by `=`, or one that two includes bring.
fn plain_twice(telling: &Telling<'_>, finding: ToldFinding<'_>) -> Result<String, AllocError> {
    let name = shown_name(telling.alloc, finding.name)?;
    match (finding.here, finding.there, finding.elsewhere) {
        (Some(here), Some(one), Some(other)) => {
            let one = site_text(telling, one)?;
            let other = site_text(telling, other)?;
            let by = if is_xml(telling, here) {
                "without combine"
            } else {
                "with ="
            };
            format!(in telling.alloc;
                "`{name}` is defined here {by}, and comes twice: by the includes in {one} and in {other}"
            )
        }
        (Some(here), Some(other), None) => {
            let other = site_text(telling, other)?;
            let by = if is_xml(telling, here) {
                "both times without combine"
            } else {
                "neither with |= nor &="
            };
            format!(in telling.alloc; "`{name}` is defined here and in {other}, {by}")
        }
        (Some(_), None, _) => sentence_on(
            telling,
            finding,
            "is defined here with =, and comes twice",
        ),
        _ => sentence_on(
            telling,
            finding,
            "is defined twice, neither time with |= nor &=",
        ),
    }
}

/// Definitions by `|=` and by `&=`.
fn mixed_methods(telling: &Telling<'_>, finding: ToldFinding<'_>) -> Result<String, AllocError> {
    let (Some(here), Some(interleave)) = (finding.here, finding.there) else {
        return sentence_on(telling, finding, "is combined by |= and by &=");
    };
    let name = shown_name(telling.alloc, finding.name)?;
    let other = site_text(telling, interleave)?;
    if is_xml(telling, here) {
        return format!(in telling.alloc;
            "`{name}` is combined by choice here, and by interleave in {other}"
        );
    }
    format!(in telling.alloc; "`{name}` is combined by |= here, and by &= in {other}")
}

/// An include that overrides what the included file lacks.
fn unfounded_override(
    telling: &Telling<'_>,
    finding: ToldFinding<'_>,
) -> Result<String, AllocError> {
    let Some(include) = finding.there else {
        let what = "replaces what the included file does not define";
        return sentence_on(telling, finding, what);
    };
    let name = shown_name(telling.alloc, finding.name)?;
    let file = included_path(telling, include);
    let place = site_text(telling, include)?;
    let advice = provided_advice(telling, finding, include)?;
    format!(in telling.alloc;
        "`{name}` replaces nothing: {file}, which is included in {place}, does not define it{advice}"
    )
}

/// The path of the file that is included there.
fn included_path<'a>(telling: &Telling<'a>, include: Site) -> &'a str {
    match included_page(telling, include) {
        Some(page) => page.path,
        None => "the file",
    }
}

/// The file that is included there.
fn included_page<'a>(telling: &Telling<'a>, include: Site) -> Option<&'a Page<'a>> {
    let module = telling.sites.included_module(include)?;
    let basis = telling.sites.lifted.modules.get(module)?.basis?;
    telling.pages.get(basis.file)
}

/// The sentence that says this of the name.
fn sentence_on(
    telling: &Telling<'_>,
    finding: ToldFinding<'_>,
    what: &str,
) -> Result<String, AllocError> {
    let name = shown_name(telling.alloc, finding.name)?;
    format!(in telling.alloc; "`{name}` {what}")
}

/// A name that comes back to itself outside elements.
fn recursive_name(telling: &Telling<'_>, name: &str) -> Result<Message, AllocError> {
    let way = way_sites(telling)?;
    let spot = spot_of(telling, way.first().copied());
    let sentence = recursive_sentence(telling, name, way.as_slice())?;
    let mut message = Message::new(telling.alloc, MessageKind::Recursive, spot, sentence);
    for site in way.iter().skip(1).take(MAX_TOLD - 1) {
        push_other(telling, &mut message, Some(*site))?;
    }
    Ok(message)
}

/// Where the definitions are by which the refusal comes about.
fn way_sites(telling: &Telling<'_>) -> Result<Vec<Site>, AllocError> {
    let mut sites = Vec::new(telling.alloc);
    for place in &telling.diagnosis.way {
        if let Some(site) = telling.sites.definition(*place) {
            sites.push(site)?;
        }
    }
    Ok(sites)
}

/// That a name comes back to itself by these definitions.
fn recursive_sentence(
    telling: &Telling<'_>,
    name: &str,
    way: &[Site],
) -> Result<String, AllocError> {
    let written = shown_name(telling.alloc, spelled_key(telling, name))?;
    let mut sentence = format!(in telling.alloc; "`{written}` refers to itself outside elements")?;
    for (number, site) in way.iter().copied().enumerate().take(MAX_TOLD) {
        if number > 0 {
            sentence.push_str(if number == 1 { ": by `" } else { ", then `" })?;
            let name = shown_name(telling.alloc, name_at(telling, site))?;
            sentence.push_str(name.as_str())?;
            sentence.push_str("` in ")?;
            sentence.push_str(site_text(telling, site)?.as_str())?;
        }
    }
    push_others(telling.alloc, &mut sentence, way.len())?;
    Ok(sentence)
}

/// Appends how many members of a loop are not told.
fn push_others(alloc: Global, sentence: &mut String, count: usize) -> Result<(), AllocError> {
    if count > MAX_TOLD {
        let others = count.saturating_sub(MAX_TOLD);
        sentence.push_str(format!(in alloc; ", then {others} more")?.as_str())?;
    }
    Ok(())
}

/// The key that is defined there, as the file writes it.
fn name_at<'t>(telling: &Telling<'t>, site: Site) -> &'t str {
    match telling.sites.key(site) {
        Some(key) => spelled_key(telling, key),
        None => "start",
    }
}

/// Definitions with a name class that is not allowed in one of them.
fn name_class(telling: &Telling<'_>, key: &str) -> Result<Message, AllocError> {
    let name = shown_name(telling.alloc, spelled_key(telling, key))?;
    let sentence = format!(in telling.alloc;
        "a definition of `{name}`, of which this is the first, has a name class that is not allowed: * excepts *, p:* excepts * or p:*, or an attribute may be named xmlns (RELAX NG, section 4.16)"
    )?;
    let way = way_sites(telling)?;
    let spot = spot_of(telling, way.first().copied());
    Ok(Message::new(telling.alloc, MessageKind::NameClass, spot, sentence))
}
