// Laws of what each form of a left side asks of a term.
ghost use Rattle.std.specs.Prelude.{◌≡◌, List};
ghost use Rattle.kp_kore.specs.Syntax.{Text, KoreSort};
ghost use Rattle.kp_kore.specs.Parts.{SortedName};
ghost use Rattle.kp_kore.specs.Signature.{KoreSignature, construction, meaning_of};
ghost use Rattle.kp_kore.specs.Value.{Value, constructed, Values};
ghost use Rattle.kp_symbolic.specs.Terms.{SymbolicTerm, known, headed, SymbolicTerms, term_variables};
ghost use Rattle.kp_symbolic.specs.WellFormed.{IsWellSorted, AreAtHand};
ghost use Rattle.kp_rules.specs.Skeletons.{nothing, fixed};
ghost use Rattle.kp_case_laws.specs.Parts.{StatePart};
ghost use Rattle.kp_case_laws.specs.Courses.{AsksNever, all_known, IsOfSort};
ghost use Rattle.kp_case_laws.specs.Rows.{IsMadeOf};
ghost use Rattle.kp_case_laws.specs.CaseLaws.{AnythingAsksNothing, AnyAsksNothing, FirstIsBound, AgainIsEqual, ValueIsEqual, SameAsksNothing, ConstructorAsksMembers, IsMadeOfNewVariables, OtherHeadNever, OtherNumberNever, OtherSortNever, UnsharedSortNever, MissingHeadNever, NotOfOtherHead, NotOutsideMeet, NotOutsideItsHeads, HasSortByHead, HasSortByValues};

/// What forms ask that stand for any value, any of a sort, or one value of a sort: nothing more, a term for a variable that
/// stands first, an equality where it stands again, or for a value.
pub fn variables_ask()
    ensures anything { (g : KoreSignature) → AnythingAsksNothing g }
    ensures any { (g : KoreSignature) → AnyAsksNothing g }
    ensures first { (g : KoreSignature) → FirstIsBound g }
    ensures again { (g : KoreSignature) → AgainIsEqual g }
    ensures value { (g : KoreSignature) → ValueIsEqual g }
    ensures same { (g : KoreSignature) → SameAsksNothing g }
{}

/// A constructor against the same constructor asks its members, one by one; so does a value of it.
pub fn constructors_ask()
    ensures members { (g : KoreSignature) → ConstructorAsksMembers g }
    ensures headed { (g : KoreSignature) (hand : List SortedName) (c : Text) (ts : SymbolicTerms) →
        meaning_of g c ≡ construction → IsMadeOf g hand (headed c ts) c ts }
    ensures known { (g : KoreSignature) (hand : List SortedName) (c : Text) (us : Values) → IsMadeOf g hand (known (constructed c us)) c (all_known us) }
    ensures new { (g : KoreSignature) → IsMadeOfNewVariables g }
{}

/// What is never admitted: anything by nothing, another head, another number of members, another sort, another value.
pub fn others_are_never_admitted()
    ensures nothing { (g : KoreSignature) (p : StatePart) (t : SymbolicTerm) → AsksNever g p (record { form = nothing; term = t }) }
    ensures head { (g : KoreSignature) → OtherHeadNever g }
    ensures number { (g : KoreSignature) → OtherNumberNever g }
    ensures sort { (g : KoreSignature) → OtherSortNever g }
    ensures value { (g : KoreSignature) (p : StatePart) (u z : Value) → ¬ (z ≡ u) → AsksNever g p (record { form = fixed u; term = known z }) }
    ensures no_shared_value { (g : KoreSignature) → UnsharedSortNever g }
    ensures no_such_head { (g : KoreSignature) → MissingHeadNever g }
{}

/// Where a variable is narrowed, the form isn't admitted in the part that is split off.
pub fn what_is_split_off_is_not_admitted()
    ensures constructor { (g : KoreSignature) → NotOfOtherHead g }
    ensures meet { (g : KoreSignature) → NotOutsideMeet g }
    ensures heads { (g : KoreSignature) → NotOutsideItsHeads g }
{}

/// A term has a sort for each instance of a part by its form, by its head, or by the heads that were asked for.
pub fn terms_have_sorts()
    ensures by_form { (g : KoreSignature) (p : StatePart) (s : KoreSort) (t : SymbolicTerm) →
        IsWellSorted g s t → AreAtHand (term_variables t) p.state.variables → IsOfSort g p s t }
    ensures by_head { (g : KoreSignature) → HasSortByHead g }
    ensures by_heads { (g : KoreSignature) → HasSortByValues g }
{}
