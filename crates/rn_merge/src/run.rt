// From bundles and sets to the printed schema.
ghost use Rattle.std.specs.Prelude.{◌≡◌, ◌≤◌, false, length, IfOk, IfErr};
ghost use Rattle.rn_modset.specs.Limits.{max_contributions};
ghost use Rattle.rn_modset.specs.Sets.{IsNotJoined, IsSet, union};
ghost use Rattle.rn_merge.specs.Runs.{bundles_view, IsUnion, HasNoUnion, IsRun, LeavesSink};
ghost use Rattle.rn_merge.specs.inside.Outcomes.{refusal_outcome};

use crate::streams::{Sink, write_output};
use crate::verdict::merge;
use rn_assemble::Refusal;
use rn_modset::{AddFault, BundleFault, ModuleSet, read_bundle};
use std::alloc::Global;
use thiserror::Error;

/// What came of a run: all of the text was written, or nothing was, for there is a refusal, which
/// is never `Memory`.
#[derive(Debug, Drop, PartialEq, Eq)]
pub enum Status {
    /// All of the text was written.
    Done,
    /// The union has no schema; nothing was written.
    Refused(Refusal),
}

/// Why a run failed. Bundles count from 0.
#[derive(Debug, Drop, PartialEq, Eq, Error)]
pub enum RunFault {
    /// The bytes of this number are no bundle.
    #[error("bundle {index}: {fault}")]
    Bundle {
        /// How many bundles come before it.
        index: usize,
        /// Why the bytes are no bundle.
        fault: BundleFault,
    },
    /// The union has more than [`rn_modset::MAX_CONTRIBUTIONS`] contributions.
    #[error("the union is full")]
    Full,
    /// A request for memory was refused.
    #[error("out of memory")]
    Memory,
    /// The sink failed before it had all of the text; it has taken a front of it.
    #[error("not all was written")]
    Write,
}

impl From<AddFault> for RunFault {
    ghost use Rattle.rn_merge.specs.inside.Outcomes.{join_fault};

    ghost from_gives = { λ fault r. r ≡ join_fault fault };

    fn from(fault: AddFault) -> Self {
        match fault {
            AddFault::Memory => RunFault::Memory,
            _ => RunFault::Full,
        }
    }
}

/// The union of the sets of which these are the bundles. `Bundle` where the first that is no bundle
/// comes before the union has more than [`rn_modset::MAX_CONTRIBUTIONS`] contributions, else `Full`
/// where it has; `Memory` where a request for memory was refused before.
pub fn read_bundles(alloc: Global, bundles: &[Vec<u8>]) -> Result<ModuleSet, RunFault>
    ensures ok { IfOk result (IsUnion (bundles_view bundles.now)) }
    ensures err { IfErr result (HasNoUnion (bundles_view bundles.now)) }
{
    let mut union = ModuleSet::new(alloc);
    for (index, bundle) in bundles.iter().enumerate() {
        let set = match read_bundle(alloc, bundle.as_slice()) {
            Ok(set) => set,
            Err(BundleFault::Memory) => return Err(RunFault::Memory),
            Err(fault) => return Err(RunFault::Bundle { index, fault }),
        };
        union = united(union, set)?;
    }
    Ok(union)
}

/// The union of two sets, which it consumes. Where one is empty, the other is the answer, and no text of it is
/// copied. `Full` and `Memory` as [`ModuleSet::join`] says them.
fn united(mut held: ModuleSet, other: ModuleSet) -> Result<ModuleSet, AddFault>
    requires { IsSet other }
    ensures ok { IfOk result (λ s. s ≡ union held other) }
    ensures few { IfOk result (λ s. length s ≤ max_contributions) }
    ensures err { IfErr result (IsNotJoined held other) }
{
    if held.is_empty() {
        return Ok(other);
    }
    held.join(&other)?;
    Ok(held)
}

/// Writes the schema of the union of the bundles to a sink that has not failed, or answers the
/// refusal that is the union's verdict, of modules the first that is true. What is written has all
/// that [`merge`] promises of a text. `Bundle` and `Full` where the bundles have no union, as
/// [`read_bundles`] says them; `Memory` where a request for memory was refused; `Write` where the
/// sink has failed, which then took a front of the text. In all cases but `Done` and `Write` nothing
/// is written, and the sink is what it was.
pub fn run_print<W: Sink>(
    alloc: Global,
    bundles: &[Vec<u8>],
    out: &mut W,
) -> Result<Status, RunFault>
    requires { W.has_failed out.old ≡ false }
    ensures run { IsRun (bundles_view bundles.now) (W.contents out.old) (W.contents out.new)
        (W.has_failed out.new) result }
    ensures kept { LeavesSink result (out.new ≡ out.old) }
{
    let union = read_bundles(alloc, bundles)?;
    let text = match merge(alloc, &union) {
        Ok(text) => text,
        Err(refusal) => return refusal_outcome(refusal),
    };
    match write_output(out, text.as_bytes()) {
        Ok(()) => Ok(Status::Done),
        Err(_) => Err(RunFault::Write),
    }
}

/// What a run answers where `merge` refuses the union: that memory ran out is no refusal of the
/// modules.
fn refusal_outcome(refusal: Refusal) -> Result<Status, RunFault>
    ensures { result ≡ refusal_outcome refusal }
{
    match refusal {
        Refusal::Memory => Err(RunFault::Memory),
        refusal => Ok(Status::Refused(refusal)),
    }
}
