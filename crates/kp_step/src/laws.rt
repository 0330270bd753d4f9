// Laws of a rule's condition and of the opposite of clauses, in a part of a state.
ghost use Rattle.kp_kore.specs.Signature.{KoreSignature};
ghost use Rattle.kp_step.specs.Laws.{FiresByTheClauses, IsExcludedByTheOpposite, ConditionsSayTheSame, ConditionsAreRight, OppositesAreSorted, OppositesAreRight, OppositesSayTheContrary};

/// The clauses of a verified condition, with terms in the place of its variables, say what the condition says where these stand
/// for the terms' instances; each literal has the sorts of its places, and is in normal form where these terms are.
pub fn conditions_say_what_they_said()
    ensures truth { (g : KoreSignature) → ConditionsSayTheSame g }
    ensures right { (g : KoreSignature) → ConditionsAreRight g }
{}

/// The opposite of clauses has the sorts of its places, is in normal form, and is true where not all of the clauses are: if each
/// clause can be written, where the opposite is too large to be opened.
pub fn opposites_are_true_where_not_all_clauses_are()
    ensures sorted { (g : KoreSignature) → OppositesAreSorted g }
    ensures right { (g : KoreSignature) → OppositesAreRight g }
    ensures truth { (g : KoreSignature) → OppositesSayTheContrary g }
{}

/// A rule fires on a part that its left side meets where the equations and the clauses of its condition are true.
pub fn a_rule_fires_by_the_clauses()
    ensures { (g : KoreSignature) → FiresByTheClauses g }
{}

/// A rule doesn't fire on the part with the opposite of the clauses, nor on those that its left side doesn't meet.
pub fn a_rule_is_excluded_by_the_opposite()
    ensures { (g : KoreSignature) → IsExcludedByTheOpposite g }
{}
