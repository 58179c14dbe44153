// Laws of merging, over what `merge`, `run_print` and `check` promise.
ghost use Rattle.std.specs.Prelude.{◌≡◌, ◌≢◌, ◌↔◌, ℕ, Bool, Contains, IfSome, IsSomeAnd, List, Option, Some};
ghost use Rattle.rn_modset.specs.Contributions.{Member};
ghost use Rattle.rn_modset.specs.Laws.{Call};
ghost use Rattle.rn_pattern.specs.Matching.{Grammar};
ghost use Rattle.rn_pattern.specs.Reached.{IsCanonicalOf};
ghost use Rattle.rn_syntax.specs.declared.fault.FaultKind.{FaultKind};
ghost use Rattle.rn_assemble.specs.Refusal.{HasTextFault, IsAssembled, IsFirst, IsFirstFault, Refusal, Stands};
ghost use Rattle.rn_assemble.specs.declared.refusal.Refusal as code;
ghost use Rattle.rn_assemble.specs.declared.refusal.Refusal.TheVariants as refusing;
ghost use Rattle.rn_simplify.specs.Verdict.{IsVerdict, Verdict};
ghost use Rattle.rn_merge.specs.Kinds.{kind_of};
ghost use Rattle.rn_merge.specs.Laws.{AreSame, BringAlike, BringSame, Brings, IsLeftBy, Tells};
ghost use Rattle.rn_merge.specs.Runs.{HasNoUnion, IsRun, IsUnion};
ghost use Rattle.rn_merge.specs.Schemas.{RefusesFirst};
ghost use Rattle.rn_merge.specs.TextFaults.{HasPlace, IsGood};
ghost use Rattle.rn_merge.specs.Verdicts.{Answer, answer_view, IsAnswer, verdict_view};
ghost use Rattle.rn_merge.specs.declared.run.RunFault.{RunFault};
ghost use Rattle.rn_merge.specs.declared.run.RunFault.TheVariants as failing;
ghost use Rattle.rn_merge.specs.declared.run.Status.{Status};

use crate::text_faults::Place;

/// Every set has a verdict: that it has none is impossible. So it is with each step to it. Where a
/// refusal is true of the set, there is a first one; where none is, the set has a grammar. Each
/// grammar has a canonical grammar, whose text is printed or is too long or too deep.
pub fn every_set_has_a_verdict()
    ensures verdict { (s : List Member) → ¬ ((v : Verdict) → ¬ IsVerdict s v) }
    ensures first { (s : List Member) (q : Refusal) → Stands s q
        → ¬ ((r : Refusal) → ¬ IsFirst s r) }
    ensures grammar { (s : List Member) → ((q : Refusal) → ¬ Stands s q)
        → ¬ ((g : Grammar) → ¬ IsAssembled s g) }
    ensures canonical { (g : Grammar) → ¬ ((n : Grammar) → ¬ IsCanonicalOf g n) }
{}

/// A refusal that is the verdict of a set is the first that is true of it, of those of modules. Where
/// the text would be too long or too deep, none of modules is true.
pub fn verdicts_refuse_first()
    ensures { (s : List Member) (q : code.Refusal) → IsSomeAnd (verdict_view q) (IsVerdict s)
        → RefusesFirst s q }
{}

/// Lists of calls of `add` and `join` that answered Ok and brought the same contributions, in any
/// order, however joined and however often, leave one set. Whatever `merge` answers for what the
/// one left and for what the other left is the same text, byte for byte, or the same refusal with
/// all its fields, out of memory aside. In particular `merge` has one answer for a set.
pub fn one_answer()
    ensures set { (calls others : List Call) (s t : List Member)
        → IsLeftBy calls s → IsLeftBy others t → BringAlike calls others → s ≡ t }
    ensures answer { (calls others : List Call) (s t : List Member)
        → IsLeftBy calls s → IsLeftBy others t → BringAlike calls others
        → (a b : Answer) → IsAnswer s a → IsAnswer t b
        → a ≢ Err refusing.Memory → b ≢ Err refusing.Memory → answer_view a ≡ answer_view b }
    ensures of_set { (s : List Member) (a b : Answer) → IsAnswer s a → IsAnswer s b
        → a ≢ Err refusing.Memory → b ≢ Err refusing.Memory → answer_view a ≡ answer_view b }
{}

/// The union of bundles holds exactly what they bring. So bundles that bring the same contributions
/// have one union, however the contributions are spread over them, and where the one have a union
/// the others are not too many; and bundles that have a union have one in any other order too, and
/// however often each comes.
pub fn contributions_alone_make_the_union()
    ensures held { (bundles : List (List ℕ)) (s : List Member) → IsUnion bundles s
        → (m : Member) → Contains s m ↔ Brings bundles m }
    ensures one_union { (bundles others : List (List ℕ)) (s t : List Member)
        → IsUnion bundles s → IsUnion others t → BringSame bundles others → s ≡ t }
    ensures never_full { (bundles others : List (List ℕ)) (s : List Member) (fault : RunFault)
        → IsUnion bundles s → BringSame bundles others → HasNoUnion others fault
        → fault ≢ failing.Full }
    ensures same_union { (bundles others : List (List ℕ)) (s : List Member)
        → IsUnion bundles s → AreSame bundles others → IsUnion others s }
    ensures any_order { (bundles others : List (List ℕ)) (s : List Member) (fault : RunFault)
        → IsUnion bundles s → AreSame bundles others → HasNoUnion others fault
        → fault ≡ failing.Memory }
{}

/// Runs that are done, over bundles that bring the same contributions, however spread over them,
/// report one verdict: they wrote the same text, or answered the same refusal. Where the one is
/// done, the other is not `Full`. The same bundles, in any order and however often, bring the same.
pub fn runs_tell_one_verdict()
    ensures one_verdict { (bundles others : List (List ℕ)) (old new before after : Option (List ℕ))
        (failed broken : Bool) (status other : Status)
        → IsRun bundles old new failed (Ok status) → IsRun others before after broken (Ok other)
        → BringSame bundles others
        → (v : Verdict) × Tells old new status v × Tells before after other v }
    ensures never_full { (bundles others : List (List ℕ)) (old new before after : Option (List ℕ))
        (failed broken : Bool) (status : Status) (fault : RunFault)
        → IsRun bundles old new failed (Ok status) → IsRun others before after broken (Err fault)
        → BringSame bundles others → fault ≢ failing.Full }
    ensures any_order { (bundles others : List (List ℕ))
        → AreSame bundles others → BringSame bundles others }
{}

/// A module text has at most one fault with one place, out of memory aside, and none where it is
/// good. That it is not good and has no fault either is impossible.
pub fn texts_are_good_or_have_one_place()
    ensures never_neither { (text : List ℕ)
        → ¬ ((¬ IsGood text) × ((place : Place) → HasPlace text place → place ≡ Place.Memory)) }
    ensures not_both { (text : List ℕ) (place : Place)
        → IsGood text → HasPlace text place → place ≡ Place.Memory }
    ensures one_place { (text : List ℕ) (place other : Place)
        → HasPlace text place → HasPlace text other
        → place ≢ Place.Memory → other ≢ Place.Memory → place ≡ other }
{}

/// What `check` accepts or names is what `merge` accepts or names. A good text has none of the
/// faults that refuse a module, and the place of any other text has the kind of its first one. That
/// a text has no such fault and is not good, or that no place has the kind of its first fault, is
/// impossible.
pub fn checked_texts_are_merged()
    ensures good { (text : List ℕ) → IsGood text → (fault : FaultKind) → ¬ HasTextFault text fault }
    ensures faultless { (text : List ℕ) → ((fault : FaultKind) → ¬ HasTextFault text fault)
        → ¬ (¬ IsGood text) }
    ensures first { (text : List ℕ) (place : Place)
        → HasPlace text place → IfSome (kind_of place) (IsFirstFault text) }
    ensures placed { (text : List ℕ) (fault : FaultKind) → IsFirstFault text fault
        → ¬ ((place : Place) → HasPlace text place → kind_of place ≢ Some fault) }
{}
