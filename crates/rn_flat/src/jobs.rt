// The work of the program: files are read and lifted, and what is asked for is made, and written or compared.
ghost use Rattle.std.specs.Prelude.{◌≡◌, ℕ, List, false, map, string_bytes, All, IfNone, IfOk, IfSome, OnOk};
ghost use Rattle.rn_assemble.specs.GrammarView.{grammar_view};
ghost use Rattle.rn_assemble.specs.ShortTexts.{short_texts};
ghost use Rattle.rn_files.specs.ReadableFiles.{IsGiven, IsReadFor, IsReadSource};
ghost use Rattle.rn_files.specs.Sources.{AreSoundSources};
ghost use Rattle.rn_flat.specs.FlatFaults.{LeavesOutput};
ghost use Rattle.rn_flat.specs.JobResults.{Delivers, HasFlatSchema, IsFlatGrammarOf, IsFlatSchema, IsFlatSchemaOf, IsProduct, IsSchemaIn, IsUnusedText, TellsByEnding, WritesNothing};
ghost use Rattle.rn_flat.specs.ModuleSets.{IsSetOf};
ghost use Rattle.rn_flat.specs.inside.ToldFiles.{told_of};
ghost use Rattle.rn_rng.specs.Written.{IsXmlOf};

use crate::catalogs::job_maps;
use crate::compare::check_file;
use crate::definition_lines::{origins_text, unused_text};
use crate::ending::Ending;
use crate::flat_fault::{FlatFault, plain_lines};
use crate::gathering::{fault_with_messages, lift_files, module_set};
use crate::lint::lint;
use crate::outputs::{Outputs, check_output, write_file, write_standard};
use crate::products::{graph_text, list_text};
use crate::reading_faults::reading_fault;
use crate::words::{Job, Product, Syntax, Task};
use rn_assemble::{Refusal, ShortGrammar, assemble_short};
use rn_files::{Asked, Files, LinkedFiles, Map, SourceFile, Sources, read_files, sources_of};
use rn_lift::Lifted;
use rn_merge::{Sink, merge};
use rn_modset::{ModuleSet, write_bundle};
use rn_report::{Format, MessageKind, refusal_messages};
use rn_rng::{XmlFault, schema_xml};
use std::alloc::{AllocError, Global};

/// What is said of a schema that has more than [`rn_rng::MAX_XML`] bytes in the XML syntax.
const TOO_LARGE_XML: &str =
    "the flat schema would have more than 67,108,864 bytes in the XML syntax";

/// Reads the catalogs of a job, and its files with all that they reach, makes what is asked for, and writes or compares
/// it, or looks for faults alone. Nothing is written where there is a fault. `Refused` where a catalog is at fault, the
/// files are no schema, or the file that is checked is not the schema; `Usage` where the output is one of the files that
/// were read; `Unread` where a file or a catalog can't be read; `Unwritten` where the output failed: a file is then as it
/// was, standard output took a front.
///
/// A bundle is refused only where files can't be read or lifted or their modules are no set; a list, only for reading
/// and lifting; a graph, only for reading: where files refer to themselves, it is drawn, and the answer is `Found`. So it
/// is where unused definitions are told. Whether the modules of a bundle, a list or a graph have a schema is not looked
/// at. Faults are looked for alone as for a schema, but it may lack a start and definitions.
pub fn perform<F: Files, S: Outputs, W: Sink>(
    alloc: Global,
    files: &F,
    job: &Job,
    format: Format,
    outputs: &mut S,
    out: &mut W,
) -> Result<Ending, FlatFault>
    requires { W.has_failed out.old ≡ false }
    ensures delivers { Delivers job.now.task (W.contents out.old) (W.contents out.new)
        (S.holds outputs.new) (F.gives files.now) result }
    ensures sink { LeavesOutput result (out.new ≡ out.old) }
    ensures outputs { LeavesOutput result (outputs.new ≡ outputs.old) }
    ensures unwritten { WritesNothing job.now.task (out.new ≡ out.old) (outputs.new ≡ outputs.old) }
{
    let maps = job_maps(alloc, files, job, format)?;
    let asked = asked_of(job, maps.as_slice());
    let linked = match read_files(alloc, files, &asked) {
        Ok(linked) => linked,
        Err(reading) => return Err(reading_fault(alloc, &asked, &reading, format)),
    };
    match &job.task {
        Task::Write {
            product,
            output: Some(path),
        } => {
            let read = linked.sources.files.as_slice();
            check_output(alloc, files, read, path.as_str(), format)?;
            let made = made_of(alloc, files, &asked, linked, *product, format)?;
            match write_file(alloc, outputs, path.as_str(), made.text.as_slice(), format) {
                Ok(()) => Ok(made.ending),
                Err(fault) => Err(fault),
            }
        }
        Task::Write {
            product,
            output: None,
        } => {
            let made = made_of(alloc, files, &asked, linked, *product, format)?;
            match write_standard(alloc, out, made.text.as_slice(), format) {
                Ok(()) => Ok(made.ending),
                Err(fault) => Err(fault),
            }
        }
        Task::Check { file, syntax } => {
            let sources = sound_sources(alloc, files, &asked, linked, format)?;
            check_schema(alloc, files, sources, file.as_str(), *syntax, format)?;
            Ok(Ending::Clean)
        }
        Task::Lint => {
            let sources = sound_sources(alloc, files, &asked, linked, format)?;
            lint(alloc, &sources, format)?;
            Ok(Ending::Clean)
        }
    }
}

/// Refuses a file that is not the schema in this syntax.
fn check_schema<F: Files>(
    alloc: Global,
    files: &F,
    sources: Sources,
    file: &str,
    syntax: Syntax,
    format: Format,
) -> Result<(), FlatFault>
    ensures { OnOk result ((text : List ℕ) × IsSchemaIn syntax text
        × IsGiven (F.gives files.now) file.now text) }
{
    let schema = schema_text(alloc, sources, format)?;
    let text = spelled(alloc, schema, syntax, format)?;
    check_file(alloc, files, file, text.as_slice(), format)
}

/// What the words of a job ask for of files, where URIs lie by these maps.
fn asked_of<'a>(job: &'a Job, maps: &'a [Vec<Map>]) -> Asked<'a> {
    Asked {
        files: job.files.as_slice(),
        root: job.root.as_ref().map(|root| root.as_str()),
        maps,
        input: job.input.as_ref().map(|input| input.as_str()),
    }
}

/// The files as sources. `Refused` where they refer to themselves.
fn sound_sources<F: Files>(
    alloc: Global,
    files: &F,
    asked: &Asked<'_>,
    linked: LinkedFiles,
    format: Format,
) -> Result<Sources, FlatFault>
    requires sound { IfNone linked.fault (AreSoundSources linked.sources) }
    requires texts { All (IsReadSource
        (IsReadFor (F.leads files.now) (F.gives files.now) asked.now)) linked.sources.files.items }
{
    match sources_of(alloc, files, asked, linked) {
        Ok(sources) => Ok(sources),
        Err(reading) => Err(reading_fault(alloc, asked, &reading, format)),
    }
}

/// What is made of files, and what was found in them.
#[derive(Drop)]
struct Made {
    text: Vec<u8>,
    ending: Ending,
}

/// A product that tells of no faults.
fn clean(text: Vec<u8>) -> Made
    ensures text { result.text ≡ text }
    ensures ending { result.ending ≡ Ending.Clean }
{
    Made {
        text,
        ending: Ending::Clean,
    }
}

/// The lines of unused definitions. Where there are any, they are what was found.
fn told(alloc: Global, lines: String) -> Made
    ensures text { result.text.items ≡ string_bytes lines }
    ensures ending { TellsByEnding result.ending result.text.items }
{
    let ending = if lines.is_empty() {
        Ending::Clean
    } else {
        Ending::Found(String::new(alloc))
    };
    Made {
        text: lines.into_bytes(),
        ending,
    }
}

/// What is asked for, made of the files.
fn made_of<F: Files>(
    alloc: Global,
    files: &F,
    asked: &Asked<'_>,
    linked: LinkedFiles,
    product: Product,
    format: Format,
) -> Result<Made, FlatFault>
    requires sound { IfNone linked.fault (AreSoundSources linked.sources) }
    requires texts { All (IsReadSource
        (IsReadFor (F.leads files.now) (F.gives files.now) asked.now)) linked.sources.files.items }
    ensures { IfOk result (λ made. IsProduct product made.ending made.text.items) }
{
    let drawn = drawn_loop(alloc, &linked, product)?;
    match (sound_sources(alloc, files, asked, linked, format), drawn) {
        (Ok(sources), _) => product_of(alloc, sources, product, format),
        (Err(FlatFault::Refused(lines)), Some(drawn)) => Ok(Made {
            text: drawn.into_bytes(),
            ending: Ending::Found(lines),
        }),
        (Err(fault), _) => Err(fault),
    }
}

/// The graph, where it is asked for and files refer to themselves.
fn drawn_loop(
    alloc: Global,
    linked: &LinkedFiles,
    product: Product,
) -> Result<Option<String>, AllocError>
    ensures { IfOk result (λ drawn. IfSome drawn (λ _. product ≡ Product.Graph)) }
{
    match (product, &linked.fault) {
        (Product::Graph, Some(fault)) => {
            let files = linked.sources.files.as_slice();
            Ok(Some(graph_text(alloc, files, Some(fault))?))
        }
        _ => Ok(None),
    }
}

/// What is made of sources.
fn product_of(
    alloc: Global,
    sources: Sources,
    product: Product,
    format: Format,
) -> Result<Made, FlatFault>
    ensures { IfOk result (λ made. IsProduct product made.ending made.text.items) }
{
    match product {
        Product::Schema(syntax) => {
            let schema = schema_text(alloc, sources, format)?;
            Ok(clean(spelled(alloc, schema, syntax, format)?))
        }
        Product::Bundle => Ok(clean(bundle(alloc, &sources, format)?)),
        Product::List => Ok(clean(list(alloc, &sources, format)?)),
        Product::Graph => {
            let text = graph_text(alloc, sources.files.as_slice(), None)?;
            Ok(clean(text.into_bytes()))
        }
        Product::Unused => Ok(told(alloc, unused(alloc, &sources, format)?)),
        Product::Origins => Ok(clean(origins(alloc, &sources, format)?)),
    }
}

/// A schema in one of its syntaxes.
fn spelled(
    alloc: Global,
    schema: String,
    syntax: Syntax,
    format: Format,
) -> Result<Vec<u8>, FlatFault>
    requires { IsFlatSchema (string_bytes schema) }
    ensures { IfOk result (λ text. IsSchemaIn syntax text.items) }
{
    match syntax {
        Syntax::Compact => Ok(schema.into_bytes()),
        Syntax::Xml => xml_bytes(alloc, schema.as_str(), format),
    }
}

/// The XML of a schema. `Refused` where it would be too long.
fn xml_bytes(alloc: Global, schema: &str, format: Format) -> Result<Vec<u8>, FlatFault>
    ensures { IfOk result (λ text. IsXmlOf schema.now text.items) }
{
    match schema_xml(alloc, schema) {
        Ok(xml) => Ok(xml.into_bytes()),
        Err(XmlFault::Memory) => Err(FlatFault::Memory),
        Err(XmlFault::TooLarge | XmlFault::NoSchema) => {
            let sentence = String::from_str(alloc, TOO_LARGE_XML)?;
            let lines = plain_lines(alloc, MessageKind::Limit, sentence, format)?;
            Err(FlatFault::Refused(lines))
        }
    }
}

/// The list of the modules that the files become.
fn list(alloc: Global, sources: &Sources, format: Format) -> Result<Vec<u8>, FlatFault> {
    let lifted = lift_files(alloc, sources, format)?;
    Ok(list_text(alloc, &lifted, sources.files.as_slice())?.into_bytes())
}

/// The schema, made of the files.
fn schema_text(alloc: Global, sources: Sources, format: Format) -> Result<String, FlatFault>
    ensures { IfOk result (λ text. IsFlatSchema (string_bytes text)) }
{
    let lifted = lift_files(alloc, &sources, format)?;
    let mut files = sources.files;
    give_up_outlines(alloc, &mut files);
    let set = module_set(alloc, &lifted, files.as_slice(), format)?;
    schema(alloc, &set, &lifted, files.as_slice(), format)
}

/// Drops the outlines of lifted files: messages need their names and texts alone.
fn give_up_outlines(alloc: Global, files: &mut Vec<SourceFile>)
    ensures { map told_of files.new.items ≡ map told_of files.old.items }
{
    for number in 0..files.len() {
        give_up_outline(alloc, &mut files[number]);
    }
}

/// Drops what a file was lifted by.
fn give_up_outline(alloc: Global, file: &mut SourceFile)
    ensures { told_of file.new ≡ told_of file.old }
{
    file.outline.parts = Vec::new(alloc);
    file.targets = Vec::new(alloc);
}

/// The bundle of the modules, made of the files.
fn bundle(alloc: Global, sources: &Sources, format: Format) -> Result<Vec<u8>, FlatFault> {
    let lifted = lift_files(alloc, sources, format)?;
    let set = module_set(alloc, &lifted, sources.files.as_slice(), format)?;
    Ok(write_bundle(alloc, &set)?)
}

/// The lines that tell of unused definitions.
fn unused(alloc: Global, sources: &Sources, format: Format) -> Result<String, FlatFault>
    ensures { IfOk result (λ text. IsUnusedText (string_bytes text)) }
{
    let lifted = lift_files(alloc, sources, format)?;
    let files = sources.files.as_slice();
    let set = module_set(alloc, &lifted, files, format)?;
    let grammar = grammar(alloc, &set, &lifted, files, format)?;
    Ok(unused_text(alloc, &grammar.grammar, &lifted, &set, files)?)
}

/// The lines that tell where the definitions of the schema are.
fn origins(alloc: Global, sources: &Sources, format: Format) -> Result<Vec<u8>, FlatFault>
    ensures { IfOk result (λ _. HasFlatSchema) }
{
    let lifted = lift_files(alloc, sources, format)?;
    let files = sources.files.as_slice();
    let set = module_set(alloc, &lifted, files, format)?;
    let schema = schema(alloc, &set, &lifted, files, format)?;
    Ok(origins_text(alloc, schema.as_str(), &lifted, &set, files)?.into_bytes())
}

/// The grammar of the modules, whose set this is.
fn grammar(
    alloc: Global,
    set: &ModuleSet,
    lifted: &Lifted,
    files: &[SourceFile],
    format: Format,
) -> Result<ShortGrammar, FlatFault>
    ensures { IsSetOf lifted.now.modules.items set.now
        → IfOk result (λ g. IsFlatGrammarOf lifted.now.modules.items
        (short_texts g.uris) (grammar_view g.grammar)) }
{
    match assemble_short(alloc, set) {
        Ok(grammar) => Ok(grammar),
        Err(refusal) => Err(set_fault(alloc, set, lifted, files, &refusal, format)?),
    }
}

/// The fault of a set that is refused.
fn set_fault(
    alloc: Global,
    set: &ModuleSet,
    lifted: &Lifted,
    files: &[SourceFile],
    refusal: &Refusal,
    format: Format,
) -> Result<FlatFault, AllocError> {
    if *refusal == Refusal::Memory {
        return Ok(FlatFault::Memory);
    }
    let told = refusal_messages(alloc, files, lifted, set, refusal)?;
    fault_with_messages(alloc, files, &told, format)
}

/// The schema of the modules, whose set this is.
fn schema(
    alloc: Global,
    set: &ModuleSet,
    lifted: &Lifted,
    files: &[SourceFile],
    format: Format,
) -> Result<String, FlatFault>
    ensures { IsSetOf lifted.now.modules.items set.now
        → IfOk result (λ text. IsFlatSchemaOf lifted.now.modules.items (string_bytes text)) }
{
    match merge(alloc, set) {
        Ok(text) => Ok(text),
        Err(refusal) => Err(set_fault(alloc, set, lifted, files, &refusal, format)?),
    }
}
