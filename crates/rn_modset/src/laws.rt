//! Laws over the definitions that the contracts cite. Each function does nothing: what it ensures is the law.
ghost use Rattle.std.specs.Prelude.{◌≡◌, ◌≢◌, ◌↔◌, ◌⊎◌, ◌||◌, ◌++◌, ◌∷◌, [], Bool, true, List, ℕ};
ghost use Rattle.std.specs.List.{Contains};
ghost use Rattle.rn_modset.specs.declared.faults.BundleFault.{BundleFault};
ghost use Rattle.rn_modset.specs.declared.faults.BundleFault.TheVariants.{Memory};
ghost use Rattle.rn_modset.specs.Contributions.{Member};
ghost use Rattle.rn_modset.specs.Sets.{IsSet, IsUnion, Rises, has, with_member, union};
ghost use Rattle.rn_modset.specs.BundleGrammar.{IsBundle};
ghost use Rattle.rn_modset.specs.Bundles.{bundle};
ghost use Rattle.rn_modset.specs.BundleFaults.{IsFront, IsFaultBehind, HasBundleFault};
ghost use Rattle.rn_modset.specs.Laws.{AreUnionLaws, AreCallLaws};

/// A set holds its members. With a contribution it holds that one too, and a union holds what one of both sets holds.
/// Members stay in their order, each once.
pub fn unions_hold_the_members_of_both()
    ensures members { (s : List Member) (m : Member) → (has s m ≡ true) ↔ Contains s m }
    ensures with_one { (s : List Member) (m q : Member) → Contains (with_member s m) q
        ↔ ((q ≡ m) ⊎ Contains s q) }
    ensures of_both { (s t : List Member) (q : Member) → Contains (union s t) q
        ↔ (Contains s q ⊎ Contains t q) }
    ensures tests { (s t : List Member) (q : Member) → has (union s t) q ≡ (has s q || has t q) }
    ensures one_rises { (s : List Member) (m : Member) → Rises s → Rises (with_member s m) }
    ensures both_rise { (s t : List Member) → Rises s → Rises (union s t) }
{}

/// What is held alone makes a union: of two lists there is one that rises and holds what one of both holds. It is the
/// union, and with one contribution the set with it.
pub fn members_alone_make_a_union()
    ensures union { (s t : List Member) → Rises s → IsUnion s t (union s t) }
    ensures with_one { (s : List Member) (m : Member) → Rises s
        → IsUnion s (m ∷ []) (with_member s m) }
    ensures one { (s t first second : List Member) → IsUnion s t first → IsUnion s t second
        → first ≡ second }
{}

/// The union of sets is commutative, associative and idempotent, and the empty set changes nothing.
pub fn union_joins()
    ensures { AreUnionLaws }
{}

/// After any list of calls that answered Ok, of `add` and `join`, also of sets that were read, a set that began empty
/// is the union of what the calls brought. So sets that were brought the same contributions, in whatever order and
/// however often, are equal.
pub fn calls_bring_their_union()
    ensures { AreCallLaws }
{}

/// The grammar of bundles allows of each set one text, the spelled one, and of nothing else any.
pub fn grammar_is_the_spelling()
    ensures { (bytes : List ℕ) (s : List Member) → IsBundle bytes s
        ↔ (IsSet s × (bytes ≡ bundle s)) }
{}

/// Distinct sets have distinct bundles: no bytes are the bundles of two.
pub fn distinct_sets_have_distinct_bundles()
    ensures { (bytes : List ℕ) (s t : List Member) → IsBundle bytes s → IsBundle bytes t → s ≡ t }
{}

/// Each set has a bundle, and no other.
pub fn sets_have_one_bundle()
    ensures exists { (s : List Member) → IsSet s → (bytes : List ℕ) × IsBundle bytes s }
    ensures one { (a b : List ℕ) (s : List Member) → IsBundle a s → IsBundle b s → a ≡ b }
{}

/// Bytes are the bundle of a set, or they have a fault, unless memory runs out.
pub fn bytes_are_a_bundle_or_have_a_fault()
    ensures { (bytes : List ℕ) → ((s : List Member) × IsBundle bytes s)
        ⊎ ((fault : BundleFault) × HasBundleFault bytes fault × (fault ≢ Memory)) }
{}

/// Bytes have at most one fault, unless memory runs out.
pub fn bytes_have_one_fault()
    ensures { (bytes : List ℕ) (fault other : BundleFault) → HasBundleFault bytes fault
        → HasBundleFault bytes other → fault ≢ Memory → other ≢ Memory → fault ≡ other }
{}

/// A fault follows the longest front of good entries: those of any front are the first of these.
pub fn faults_stand_behind_the_longest_front()
    ensures { (bytes : List ℕ) (first second : Bool) (ms ns : List Member) (left rest : List ℕ)
        (fault : BundleFault)
        → IsFront bytes first ms left → IsFaultBehind first ms left fault → fault ≢ Memory
        → IsFront bytes second ns rest
        → (more : List Member) × (ms ≡ ns ++ more) }
{}

/// A set's bundle has no fault unless memory runs out.
pub fn bundles_have_no_fault()
    ensures { (bytes : List ℕ) (s : List Member) (fault : BundleFault) → IsBundle bytes s
        → HasBundleFault bytes fault → fault ≡ Memory }
{}
