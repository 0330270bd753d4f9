// Laws of what a step makes of a state: all of it is sourced in the state and in rules.
ghost use Rattle.std.specs.Prelude.{List, Option};
ghost use Rattle.kp_kore.specs.Signature.{KoreSignature};
ghost use Rattle.kp_kore.specs.Rules.{RewriteRule};
ghost use Rattle.kp_kore.specs.Theory.{Theory};
ghost use Rattle.kp_step.specs.Remainders.{IsOneOf, IsOfTheory};
ghost use Rattle.kp_source_laws.specs.Laws.{IsPartSourced, IsGrownSourced, IsShownSourced, IsShownSourcedInTheory, NoneIsSourcedInNothing, NoneIsSourcedBeside, NowhereIsNoneSourced, IsNextSourced, IsRemainderSourced, IsUndecidedSourced, IsConditionSourced, IsCaseSourced};

/// Of a part that comes of a state and rules step by step, the term and each atom are sourced in them, its new variables being those
/// that stand behind the state's; also where these are known to have new names.
pub fn what_comes_of_a_state_is_sourced()
    ensures by_rules { (g : KoreSignature) (rule : Option RewriteRule) (turns : List RewriteRule) → IsPartSourced g (IsOneOf rule turns) }
    ensures in_theory { (t : Theory) → IsPartSourced t.signature (IsOfTheory t) }
    ensures new { (t : Theory) → IsGrownSourced t }
{}

/// Where a step leaves something undecided, each atom that is shown is sourced in the state and in the rules: the one that is asked
/// for, if there is one, and those that take from it, all of which meet the state.
pub fn what_is_shown_is_sourced()
    ensures by_rules { (t : Theory) → IsShownSourced t }
    ensures in_theory { (t : Theory) → IsShownSourcedInTheory t }
{}

/// So is what a step tells: the part of each next state and each part that remains, with what was added, and each atom that is shown
/// as undecided.
pub fn what_a_step_tells_is_sourced()
    ensures next { (t : Theory) → IsNextSourced t }
    ensures remainder { (t : Theory) → IsRemainderSourced t }
    ensures undecided { (t : Theory) → IsUndecidedSourced t }
{}

/// So is the part on which a rule's condition passes a limit, and the part of the case for which one is passed by what is written, in the
/// theory's rules that meet the state.
pub fn what_passes_a_limit_is_sourced()
    ensures condition { (t : Theory) → IsConditionSourced t }
    ensures written { (t : Theory) → IsCaseSourced t }
{}

/// Nothing is sourced in nothing: a state without clauses, where there are no rules, has no sourced atom, and no term but its own.
/// Nor is anything beside the tests of heads where they alone stand in the clauses, but for what is written for clauses.
pub fn nothing_is_sourced_in_nothing()
    ensures nothing { (g : KoreSignature) → NoneIsSourcedInNothing g }
    ensures beside { (g : KoreSignature) → NoneIsSourcedBeside g }
{}

/// A constructor that stands neither in the state, nor in the rules' left sides and conditions, stands in no sourced atom and term,
/// tests of heads and the text of quoted predicates aside.
pub fn a_constructor_that_stands_nowhere_is_in_nothing_sourced()
    ensures { (g : KoreSignature) → NowhereIsNoneSourced g }
{}
