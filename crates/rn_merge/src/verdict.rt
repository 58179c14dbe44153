// From a set of modules to its flat schema, or to the refusal that is its verdict.
ghost use Rattle.std.specs.Prelude.{IfOk, IfErr, string_bytes};
ghost use Rattle.rn_simplify.specs.ReadAgain.{IsReadAgain};
ghost use Rattle.rn_merge.specs.Schemas.{DefinesPlainlyOnce, CombinesByOneMethod, IsPrintedAgain, IsPrintedAlone, IsUnrefused, RefusesFirst};
ghost use Rattle.rn_merge.specs.Verdicts.{IsAnswer};

use rn_assemble::{Refusal, ShortGrammar, assemble_short};
use rn_modset::ModuleSet;
use rn_simplify::{normalise, print_long};
use std::alloc::Global;

/// The verdict of the set: its flat schema in the canonical text, or the first refusal that is true,
/// or `OutputTooLarge` or `OutputTooDeep` where the text would be more than may be printed.
/// `Memory` is for out of memory alone.
///
/// A text is read back as a module that is valid for exactly the documents of the set's
/// definitions, combined in any pairs and any order (RELAX NG 2001, 4.17). No refusal is true of
/// the set, so no name is defined plainly twice there, or combined by both methods. Merged as the
/// one effective module of a set, or as a contribution alone, under any name, it is answered again.
pub fn merge(alloc: Global, set: &ModuleSet) -> Result<String, Refusal>
    ensures verdict { IsAnswer set.now result }
    ensures documents { IfOk result (λ text. IsReadAgain set.now (string_bytes text)) }
    ensures unrefused { IfOk result (λ text. IsUnrefused set.now) }
    ensures plain_once { IfOk result (λ text. DefinesPlainlyOnce set.now) }
    ensures one_method { IfOk result (λ text. CombinesByOneMethod set.now) }
    ensures again { IfOk result (λ text. IsPrintedAgain (string_bytes text)) }
    ensures alone { IfOk result (λ text. IsPrintedAlone (string_bytes text)) }
    ensures first { IfErr result (RefusesFirst set.now) }
{
    let ShortGrammar { grammar, uris } = assemble_short(alloc, set)?;
    let normal = normalise(alloc, &grammar)?;
    print_long(alloc, &normal, &uris)
}
