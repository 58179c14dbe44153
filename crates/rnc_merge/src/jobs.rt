// What each command does.
ghost use Rattle.std.specs.Prelude.{◌≡◌, IfOk, false, string_bytes};
ghost use Rattle.rn_merge.specs.Runs.{bundles_view};
ghost use Rattle.rnc_merge.specs.Jobs.{IsBundleOf, IsChecked, IsPackFault, IsPerformed, IsPrinted, IsUnionBundle, IsUnionFault, IsUnionList, IsWritten, KeepsOutput, Writes, list_lines};
ghost use Rattle.rnc_merge.specs.inside.Steps.{KeepsAtFault, one_member};

use crate::inputs::{Inputs, read_file, read_files};
use rn_merge::{
    Job, ProgramFault, Sink, Status, check, list_line, read_bundles, run_print, write_output,
};
use rn_modset::{Contribution, ModuleSet, write_bundle};
use std::alloc::{AllocError, Global};

/// Reads all files of a job, does it, and writes what it gives: the bundle of one contribution, the
/// bundle or the list of a union, or its schema as [`run_print`] says it; a check writes nothing. At
/// every fault but `Write` nothing is written. `Write` is answered only where the output has failed,
/// which then took a front of what the job gives.
pub fn perform<I: Inputs, W: Sink>(
    alloc: Global,
    inputs: &I,
    job: Job,
    out: &mut W,
) -> Result<(), ProgramFault>
    requires { W.has_failed out.old ≡ false }
    ensures performed { IsPerformed job (I.gives inputs.now) (I.refuses inputs.now)
        (W.contents out.old) (W.contents out.new) (W.has_failed out.new) result }
    ensures kept { KeepsOutput job result (out.new ≡ out.old) }
{
    match job {
        Job::Pack {
            name,
            revision,
            file,
        } => {
            let text = read_file(alloc, inputs, 0, file.as_str())?;
            write_contribution(alloc, name, revision, Some(text), out)
        }
        Job::Withdraw { name, revision } => write_contribution(alloc, name, revision, None, out),
        Job::Join { files } => {
            let bundles = read_files(alloc, inputs, files.as_slice())?;
            write_union(alloc, bundles.as_slice(), out)
        }
        Job::List { files } => {
            let bundles = read_files(alloc, inputs, files.as_slice())?;
            write_list(alloc, bundles.as_slice(), out)
        }
        Job::Print { files } => {
            let bundles = read_files(alloc, inputs, files.as_slice())?;
            write_schema(alloc, bundles.as_slice(), out)
        }
        Job::Check { file } => {
            let text = read_file(alloc, inputs, 0, file.as_str())?;
            check_text(alloc, text.as_slice())
        }
    }
}

/// Writes the bundle of one contribution: of a module text, or of a withdrawal where there is none.
fn write_contribution<W: Sink>(
    alloc: Global,
    name: String,
    revision: u64,
    text: Option<Vec<u8>>,
    out: &mut W,
) -> Result<(), ProgramFault>
    requires { W.has_failed out.old ≡ false }
    ensures written { let m = one_member name revision text in Writes (IsBundleOf m) (IsPackFault m)
        (W.contents out.old) (W.contents out.new) (W.has_failed out.new) result }
    ensures kept { KeepsAtFault result (out.new ≡ out.old) }
{
    let mut set = ModuleSet::new(alloc);
    let contribution = Contribution {
        name,
        revision,
        text,
    };
    match set.add(contribution) {
        Ok(_) => write(write_bundle(alloc, &set)?.as_slice(), out),
        Err((_, fault)) => Err(ProgramFault::Add(fault)),
    }
}

/// Writes the bundle of the union of bundles.
fn write_union<W: Sink>(alloc: Global, bundles: &[Vec<u8>], out: &mut W) -> Result<(), ProgramFault>
    requires { W.has_failed out.old ≡ false }
    ensures written { Writes (IsUnionBundle (bundles_view bundles.now))
        (IsUnionFault (bundles_view bundles.now))
        (W.contents out.old) (W.contents out.new) (W.has_failed out.new) result }
    ensures kept { KeepsAtFault result (out.new ≡ out.old) }
{
    let union = read_bundles(alloc, bundles)?;
    write(write_bundle(alloc, &union)?.as_slice(), out)
}

/// Writes a line for each contribution of the union of bundles.
fn write_list<W: Sink>(alloc: Global, bundles: &[Vec<u8>], out: &mut W) -> Result<(), ProgramFault>
    requires { W.has_failed out.old ≡ false }
    ensures written { Writes (IsUnionList (bundles_view bundles.now))
        (IsUnionFault (bundles_view bundles.now))
        (W.contents out.old) (W.contents out.new) (W.has_failed out.new) result }
    ensures kept { KeepsAtFault result (out.new ≡ out.old) }
{
    let union = read_bundles(alloc, bundles)?;
    let lines = list_lines(alloc, &union)?;
    write(lines.as_bytes(), out)
}

/// A line for each contribution of a set, in order.
fn list_lines(alloc: Global, set: &ModuleSet) -> Result<String, AllocError>
    ensures { IfOk result (λ lines. string_bytes lines ≡ list_lines set.now) }
{
    let mut lines = String::new(alloc);
    for contribution in set.iter() {
        lines.push_str(list_line(alloc, contribution)?.as_str())?;
        lines.push_str("\n")?;
    }
    Ok(lines)
}

/// Writes the schema of the union of bundles.
fn write_schema<W: Sink>(
    alloc: Global,
    bundles: &[Vec<u8>],
    out: &mut W,
) -> Result<(), ProgramFault>
    requires { W.has_failed out.old ≡ false }
    ensures printed { IsPrinted (bundles_view bundles.now)
        (W.contents out.old) (W.contents out.new) (W.has_failed out.new) result }
    ensures kept { KeepsAtFault result (out.new ≡ out.old) }
{
    match run_print(alloc, bundles, out)? {
        Status::Done => Ok(()),
        Status::Refused(refusal) => Err(ProgramFault::Refused(refusal)),
    }
}

/// Tests one module text, and writes nothing.
fn check_text(alloc: Global, text: &[u8]) -> Result<(), ProgramFault>
    ensures { IsChecked text.now result }
{
    match check(alloc, text) {
        Ok(()) => Ok(()),
        Err(place) => Err(ProgramFault::Check(place)),
    }
}

/// Writes bytes to the sink.
fn write<W: Sink>(bytes: &[u8], out: &mut W) -> Result<(), ProgramFault>
    requires { W.has_failed out.old ≡ false }
    ensures { IsWritten bytes.now (W.contents out.old) (W.contents out.new)
        (W.has_failed out.new) result }
{
    match write_output(out, bytes) {
        Ok(()) => Ok(()),
        Err(_) => Err(ProgramFault::Write),
    }
}
