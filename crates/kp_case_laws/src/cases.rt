// Laws of parts of states, of narrowing, and of the cases of a part under a left side.
ghost use Rattle.std.specs.Prelude.{◌↔◌, List, [], ◌∷◌, ◌++◌, Some, None, false, true};
ghost use Rattle.kp_kore.specs.Syntax.{Text, KoreSort};
ghost use Rattle.kp_kore.specs.Parts.{SortedName};
ghost use Rattle.kp_kore.specs.Signature.{KoreSignature};
ghost use Rattle.kp_kore.specs.Value.{HasSort};
ghost use Rattle.kp_kore.specs.Instance.{Valuation};
ghost use Rattle.kp_kore.specs.Rules.{Rewrite, rewrite};
ghost use Rattle.kp_kore.specs.Steps.{Fires};
ghost use Rattle.kp_kore.specs.Scopes.{IsWithin};
ghost use Rattle.kp_symbolic.specs.Terms.{unknown, under_replaced};
ghost use Rattle.kp_symbolic.specs.States.{HeadTest, head_of_sort, Literal, AreTrue, SymbolicState};
ghost use Rattle.kp_symbolic_laws.specs.Runs.{IsSortedState};
ghost use Rattle.kp_rules.specs.Skeletons.{Form, Admits};
ghost use Rattle.kp_case_laws.specs.Parts.{StatePart, OfEachInstance, IsPartBelow, IsDivided, IsRestricted, with_clauses, IsTold, DependsOnHand, AreNew, IsGrown};
ghost use Rattle.kp_case_laws.specs.Narrowings.{IsNarrowing, equates, head_clauses, heads_inside, heads_outside};
ghost use Rattle.kp_case_laws.specs.Cases.{MetPart, IsMetBy, IsApart, AreCases, left_side, IsLeftOf};
ghost use Rattle.kp_case_laws.specs.CaseLaws.{IsDividedInTwo, IsDividedInOne, IsNarrowedByConstructor, IsRestrictedByTerm, IsSortedWithTerm, AreCasesOfParts, FiresByItsCondition, LiesWhereItFires, LiesWhereItIsSilent, IsSilentInTheOpposite, IsExcludedOnceMore, NextIsFound, NextFollows};

/// A part of a part is a part, and what was added is true of each of its instances.
pub fn parts_of_parts_are_parts()
    ensures below { (g : KoreSignature) (s p r : StatePart) → IsPartBelow g s p → IsPartBelow g p r → IsPartBelow g s r }
    ensures told { (g : KoreSignature) (p r : StatePart) → IsPartBelow g p r → IsTold g r }
{}

/// A division of which one part is divided further is a division; a part without instances falls away.
pub fn parts_are_divided_further()
    ensures further { (g : KoreSignature) (s p : StatePart) (ps qs rs : List StatePart) →
        IsDivided g s (ps ++ p ∷ qs) → IsDivided g p rs → IsDivided g s (ps ++ (rs ++ qs)) }
    ensures empty { (g : KoreSignature) (s p : StatePart) (ps qs : List StatePart) →
        IsDivided g s (ps ++ p ∷ qs) → OfEachInstance g p (λ w c. ⊥) → IsDivided g s (ps ++ qs) }
    ensures itself { (g : KoreSignature) (p : StatePart) → IsTold g p → IsDivided g p (p ∷ []) }
{}

/// A part with further clauses has the instances of the part under which these are true.
pub fn further_clauses_restrict_a_part()
    ensures { (g : KoreSignature) (p : StatePart) (clauses : List (List Literal)) → IsRestricted g p clauses [] (with_clauses p clauses) }
{}

/// A part of a part that has new variables has those of both, and its own.
pub fn variables_only_grow()
    ensures none { (g : KoreSignature) (used : List Text) (p : StatePart) → IsGrown g used p p }
    ensures more { (g : KoreSignature) (used : List Text) (p r q : StatePart) → IsGrown g used p r → IsGrown g used r q → IsGrown g used p q }
{}

/// Which instances a state has depends on its variables at hand, where all that stands in it is at hand.
pub fn instances_depend_on_variables_at_hand()
    ensures { (g : KoreSignature) (s : SymbolicState) → IsSortedState g s → DependsOnHand g s }
{}

/// A narrowing divides a part in two: where its clauses are true for some values of the new variables, and where the others
/// are true; where these never are, the first is all of it.
pub fn a_narrowing_divides()
    ensures two { (g : KoreSignature) → IsDividedInTwo g }
    ensures one { (g : KoreSignature) → IsDividedInOne g }
{}

/// A variable is narrowed by a constructor of new variables, by a new variable of another sort, or its head is asked for: by a
/// test, or by all heads that it may share with another sort.
pub fn variables_are_narrowed()
    ensures constructor { (g : KoreSignature) → IsNarrowedByConstructor g }
    ensures sort { (g : KoreSignature) (scope : List SortedName) (x y : SortedName) → IsWithin g (x ∷ []) scope → AreNew scope (y ∷ []) →
        IsNarrowing g scope (y ∷ []) (equates x (unknown y)) (head_clauses g false x (head_of_sort y.sort)) }
    ensures head { (g : KoreSignature) (scope : List SortedName) (x : SortedName) (test : HeadTest) → IsWithin g (x ∷ []) scope →
        IsNarrowing g scope [] (head_clauses g true x test) (head_clauses g false x test) }
    ensures heads { (g : KoreSignature) (scope : List SortedName) (x : SortedName) (s : KoreSort) → IsWithin g (x ∷ []) scope →
        IsNarrowing g scope [] (heads_inside g x s) (heads_outside g x s) }
{}

/// A variable has one of the heads that its sort shares with another exactly where its value has that sort, and none of them
/// exactly where it hasn't.
pub fn shared_heads_tell_the_sort()
    ensures inside { (g : KoreSignature) (w : Valuation) (x : SortedName) (s : KoreSort) → HasSort g x.sort (w x.name) →
        AreTrue g w (heads_inside g x s) ↔ HasSort g s (w x.name) }
    ensures outside { (g : KoreSignature) (w : Valuation) (x : SortedName) (s : KoreSort) → HasSort g x.sort (w x.name) →
        AreTrue g w (heads_outside g x s) ↔ (¬ HasSort g s (w x.name)) }
{}

/// The part in which a variable is a term has the instances of the part in which its value is the term's, and the sorts of its
/// places.
pub fn a_term_stands_for_a_variable()
    ensures instances { (g : KoreSignature) → IsRestrictedByTerm g }
    ensures sorts { (g : KoreSignature) → IsSortedWithTerm g }
{}

/// The cases of a part are those of one of its parts and the others, where these are apart. A part that is met, and one that
/// is apart, is its own case.
pub fn cases_are_those_of_the_parts()
    ensures parts { (g : KoreSignature) → AreCasesOfParts g }
    ensures met { (g : KoreSignature) (left : Form) (m : MetPart) →
        IsTold g m.part → IsMetBy g (left_side g left) m → AreCases g (left_side g left) m.part (Some m) [] }
    ensures apart { (g : KoreSignature) (left : Form) (p : StatePart) →
        IsTold g p → IsApart g (left_side g left) p → AreCases g (left_side g left) p None (p ∷ []) }
{}

/// In a part that is met, the left side stands for the instance under the valuation that the bindings give, exactly where the
/// equations are true.
pub fn a_met_part_gives_the_rules_valuation()
    ensures { (g : KoreSignature) (left : Form) (m : MetPart) → IsMetBy g (left_side g left) m →
        OfEachInstance g m.part (λ w c. AreTrue g w m.equations ↔ Admits g (under_replaced g m.bindings w) left c) }
{}

/// A rule whose left side the form is fires on an instance of the part that is met exactly where the equations and clauses that
/// say its condition are true, and on none of a part that is apart.
pub fn a_rule_fires_where_its_condition_is_true()
    ensures met { (g : KoreSignature) → FiresByItsCondition g }
    ensures apart { (g : KoreSignature) (r : Rewrite) (left : Form) (p : StatePart) → IsLeftOf g left r p →
        IsApart g (left_side g left) p → OfEachInstance g p (λ w c. ¬ Fires g (rewrite r) c) }
{}

/// Where a rule fires exactly where these clauses are true in the part that is met, and in none that is apart: the instances on
/// which it fires are those of the part by the clauses, the others those of the part by their opposite and of those apart.
pub fn a_rule_fires_in_one_part()
    ensures fires { (g : KoreSignature) → LiesWhereItFires g }
    ensures others { (g : KoreSignature) → LiesWhereItIsSilent g }
    ensures silent { (g : KoreSignature) → IsSilentInTheOpposite g }
{}

/// Where parts divide the instances on which none of some rules fires, and one of them is divided by where one more doesn't
/// fire, they divide those on which that rule doesn't fire either.
pub fn rules_are_excluded_one_by_one()
    ensures { (g : KoreSignature) → IsExcludedOnceMore g }
{}

/// The next state of a part in which a rule fires has exactly the configurations that the rule leads to: each is an instance of
/// it for some values of the new variables, and each of its instances is one.
pub fn a_rule_leads_to_its_next_state()
    ensures found { (g : KoreSignature) → NextIsFound g }
    ensures only { (g : KoreSignature) → NextFollows g }
{}
