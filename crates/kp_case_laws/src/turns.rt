// Laws of a symbolic step: where a rule fires on a part, who has a turn, and what the next states are as patterns.
ghost use Rattle.std.specs.Prelude.{List, [], ◌∷◌, Some, None};
ghost use Rattle.kp_kore.specs.Syntax.{Text};
ghost use Rattle.kp_kore.specs.Signature.{KoreSignature};
ghost use Rattle.kp_kore.specs.Rules.{RuleBody, RewriteRule};
ghost use Rattle.kp_kore.specs.Theory.{Theory};
ghost use Rattle.kp_kore.specs.Steps.{Fires};
ghost use Rattle.kp_case_laws.specs.Parts.{StatePart, IsTold};
ghost use Rattle.kp_case_laws.specs.Firing.{FiresNowhere, AreFiringCases, AreWhere};
ghost use Rattle.kp_case_laws.specs.Turns.{RemainsTo};
ghost use Rattle.kp_case_laws.specs.TurnLaws.{FiresWhereItIsMet, FiresNowhereApart, FiresInOnePart, IsExcludedFromParts, FiresNowhereAtAll, FiresEverywhere};
ghost use Rattle.kp_case_laws.specs.TurnLaws.{SetsOut, GoesOn, Arrives, TakesNothing, DropsFromWhatRemains, DropsFromWhereItIsExcluded};
ghost use Rattle.kp_symbolic.specs.States.{SymbolicState};
ghost use Rattle.kp_case_laws.specs.Runs.{StatePasses, HasRunTo};
ghost use Rattle.kp_case_laws.specs.EndLaws.{SaysStuck, SaysBranching, SaysCutPoint, SaysSome, SaysNone, GivesValues};
ghost use Rattle.kp_case_laws.specs.RunLaws.{GoesOnAlone, PassesOnAlone, EndsByAlone, LeadsAsPatterns, PassesAsPattern, ReachesAsPattern, EndsAsPattern};
ghost use Rattle.kp_case_laws.specs.TurnLaws.{HasNoTurn, HasTurnWhereItRemains, NoneFiresOnTheRemainder, GivesNextStates, LeadsOnAlone, HasItsTurnAlone};

/// Of the cases of a part under a rule's left side, the one that is met is where the rule fires exactly if the equations and
/// the condition are true; on the others it doesn't.
pub fn a_rule_fires_where_it_is_met()
    ensures met { (g : KoreSignature) → FiresWhereItIsMet g }
    ensures apart { (g : KoreSignature) → FiresNowhereApart g }
{}

/// The part where a rule fires: the one that is met, where the clauses are true.
pub fn the_part_where_a_rule_fires()
    ensures one { (g : KoreSignature) → FiresInOnePart g }
    ensures none { (g : KoreSignature) (body : RuleBody) (p : StatePart) (apart : List StatePart) →
        AreFiringCases g body p None apart → AreWhere g (λ c. Fires g body c) p [] }
{}

/// The parts where a rule doesn't fire: where the opposites of the clauses are true, and where its left side isn't met. A part
/// on which it fires nowhere stays whole; where no part is left, the rule fires on each instance. Nothing decides whether it
/// fires.
pub fn a_rule_is_excluded()
    ensures met { (g : KoreSignature) → IsExcludedFromParts g }
    ensures apart { (g : KoreSignature) (body : RuleBody) (p : StatePart) (apart : List StatePart) →
        AreFiringCases g body p None apart → AreWhere g (λ c. ¬ Fires g body c) p apart }
    ensures untouched { (g : KoreSignature) (body : RuleBody) (p : StatePart) →
        IsTold g p → FiresNowhere g body p → AreWhere g (λ c. ¬ Fires g body c) p (p ∷ []) }
    ensures nowhere { (g : KoreSignature) → FiresNowhereAtAll g }
    ensures everywhere { (g : KoreSignature) → FiresEverywhere g }
{}

/// What the rules found so far leave to a rule, or to none: at first where it fires, or all. A rule takes where it fires, part by
/// part; those that are done and those that wait divide what is left. A part without an instance falls away.
pub fn rules_leave_parts_to_others()
    ensures none { (g : KoreSignature) (p : StatePart) → IsTold g p → AreWhere g (RemainsTo g None []) p (p ∷ []) }
    ensures some { (g : KoreSignature) (r : RewriteRule) (p : StatePart) (parts : List StatePart) →
        AreWhere g (λ c. Fires g r.body c) p parts → AreWhere g (RemainsTo g (Some r) []) p parts }
    ensures sets_out { (g : KoreSignature) → SetsOut g }
    ensures goes_on { (g : KoreSignature) → GoesOn g }
    ensures arrives { (g : KoreSignature) → Arrives g }
    ensures passed { (g : KoreSignature) → TakesNothing g }
    ensures empty { (g : KoreSignature) → DropsFromWhatRemains g }
    ensures empty_without { (g : KoreSignature) → DropsFromWhereItIsExcluded g }
{}

/// A rule that fires first nowhere, among the rules found before it, has no turn. Where all rules that have their turn are
/// found, the parts where a rule fires first are those where it has its turn, and where none of them fires, no rule does.
pub fn turns_are_found()
    ensures none { (t : Theory) → HasNoTurn t }
    ensures turn { (t : Theory) → HasTurnWhereItRemains t }
    ensures remainder { (t : Theory) → NoneFiresOnTheRemainder t }
{}

/// The cases of a step, as they are written, are the next states of the state: its parts, and all that follows in each case.
pub fn a_step_gives_the_next_states()
    ensures { (t : Theory) → GivesNextStates t }
{}

/// Where one rule alone has its turn and nothing remains, the state leads to what follows; where the rule fires on each
/// instance, it has its turn there, and no other has.
pub fn a_rule_alone_leads_on()
    ensures leads { (t : Theory) → LeadsOnAlone t }
    ensures turn { (t : Theory) → HasItsTurnAlone t }
{}

/// A run of symbolic states begins with the state itself, and goes on by one rule alone; the state that it passes isn't final, and
/// no listed rule has its turn there but the one by which the run ends.
pub fn a_run_goes_on_by_one_rule_alone()
    ensures begins { (t : Theory) (used : List Text) (s : SymbolicState) → HasRunTo t used s s 0 }
    ensures passes_none { (t : Theory) (listed : List Text) (s : SymbolicState) → StatePasses t listed s 0 }
    ensures goes_on { (t : Theory) → GoesOnAlone t }
    ensures passes { (t : Theory) → PassesOnAlone t }
    ensures ends { (t : Theory) → EndsByAlone t }
{}

/// The same of the patterns of the first state and of the last one.
pub fn a_run_is_one_of_patterns()
    ensures leads { (t : Theory) → LeadsAsPatterns t }
    ensures passes { (t : Theory) → PassesAsPattern t }
    ensures reaches { (t : Theory) → ReachesAsPattern t }
    ensures ends { (t : Theory) → EndsAsPattern t }
{}

/// What a step says of the pattern at which a run ends: where no rule has a turn, it is stuck; of two cases it branches; a rule
/// alone may be one to stop before. The pattern has instances exactly where the state has.
pub fn a_step_says_how_a_run_ends()
    ensures stuck { (t : Theory) → SaysStuck t }
    ensures branching { (t : Theory) → SaysBranching t }
    ensures cut_point { (t : Theory) → SaysCutPoint t }
    ensures some { (t : Theory) → SaysSome t }
    ensures none { (t : Theory) → SaysNone t }
    ensures values { (t : Theory) → GivesValues t }
{}
