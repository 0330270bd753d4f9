// Foreign rules that may rewrite an instance of a state.
ghost use Rattle.std.specs.Prelude.{◌≡◌, IfOk, List, [], ◌∷◌, MatchOption};
ghost use Rattle.kp_kore.specs.Syntax.{Text};
ghost use Rattle.kp_kore.specs.Theory.{Theory};
ghost use Rattle.kp_symbolic.specs.States.{SymbolicState};
ghost use Rattle.kp_symbolic_laws.specs.Runs.{HasOneSortEach};
ghost use Rattle.kp_rules.specs.Skeletons.{skeleton_view};
ghost use Rattle.kp_case_laws.specs.Courses.{form_variables};
ghost use Rattle.kp_unify.specs.Views.{signature_of, HasItsTable};
ghost use Rattle.kp_step.specs.Answers.{TellsForeign, TellsKnown, TellsFirst};
ghost use Rattle.kp_step.specs.declared.foreign.UndecidedRule.{UndecidedRule};
ghost use Rattle.kp_step.specs.RightSteps.{IsRightStep};
ghost use Rattle.kp_step.specs.Promises.{TellsMet, TellsSkeletonMeets, OfEachStep};

use crate::constrained;
use crate::counted_variables::{most_of_left, told_within};
use crate::left_variables::has_one_sort_each;
use crate::lowered_sides::lowered;
use crate::met_rules::{answer_where_met, can_meet};
use crate::outcome::StepOutcome;
use crate::part_answers::{PartAnswer, UndecidedClauses};
use crate::rules::foreign_at;
use kp_compile::CompileError;
use kp_rule_sets::RuleSet;
use kp_rules::Skeleton;
use kp_unify::{MetPart, Part, Setting, meet};
use std::alloc::Global;

/// Whether the part that the left side meets has an instance, by its equations and what follows of them, and where the left side meets
/// the state at all.
fn met_answer(
    alloc: Global,
    setting: Setting<'_>,
    whole: &Part,
    skeleton: &Skeleton,
    met: &MetPart,
) -> Result<PartAnswer, CompileError>
    requires { HasItsTable setting }
    ensures { TellsMet (signature_of setting.entry) whole.now skeleton.now met.now result }
{
    let part = constrained(alloc, &met.part, &met.equations)?;
    match answer_where_met(alloc, setting, &whole.state, &part.state, skeleton)? {
        PartAnswer::Instance => Ok(PartAnswer::Instance),
        PartAnswer::Nothing => Ok(PartAnswer::Nothing),
        PartAnswer::UndecidedClauses { told } => {
            let most = most_of_left(alloc, setting, &whole.state, skeleton)?;
            let told = told_within(alloc, setting, most, &part.state, told)?;
            Ok(PartAnswer::UndecidedClauses { told })
        }
    }
}

/// Whether a left side in which each name stands at one sort stands for an instance of the part.
fn meets_at_one_sort(
    alloc: Global,
    setting: Setting<'_>,
    whole: &Part,
    skeleton: &Skeleton,
) -> Result<PartAnswer, CompileError>
    requires { HasItsTable setting }
    ensures { HasOneSortEach (form_variables (skeleton_view skeleton.now)) → TellsSkeletonMeets setting.entry whole.now skeleton.now result }
{
    match meet(alloc, &setting, whole, skeleton)? {
        Some(meeting) => met_answer(alloc, setting, whole, skeleton, &meeting.met),
        None => Ok(PartAnswer::Nothing),
    }
}

/// Whether a left side, in which each name is put at a sort of what its sorts share, stands for an instance of the part. Refused where
/// there is no such sort.
fn meets_lowered(
    alloc: Global,
    setting: Setting<'_>,
    whole: &Part,
    skeleton: &Skeleton,
) -> Result<PartAnswer, CompileError>
    requires { HasItsTable setting }
    ensures { TellsSkeletonMeets setting.entry whole.now skeleton.now result }
{
    let low = lowered(alloc, setting.language.signature, skeleton, skeleton)?;
    if !has_one_sort_each(&low) {
        return Err(CompileError::Shape);
    }
    meets_at_one_sort(alloc, setting, whole, &low)
}

/// Whether a left side with one name at two sorts stands for an instance of the part: for none, where it stands for no value that
/// the state's term may have. Refused where it does, and there is no sort of what two sorts of a name share.
fn meets_at_two_sorts(
    alloc: Global,
    setting: Setting<'_>,
    whole: &Part,
    skeleton: &Skeleton,
) -> Result<PartAnswer, CompileError>
    requires { HasItsTable setting }
    ensures { TellsSkeletonMeets setting.entry whole.now skeleton.now result }
{
    if !can_meet(alloc, setting, &whole.state, skeleton)? {
        return Ok(PartAnswer::Nothing);
    }
    meets_lowered(alloc, setting, whole, skeleton)
}

/// Whether the left side of a foreign rule stands for an instance of the part. Refused where it has one name at two sorts and stands
/// for a value that the state's term may have, and there is no sort of all values that two such sorts share.
fn meets(
    alloc: Global,
    setting: Setting<'_>,
    whole: &Part,
    skeleton: &Skeleton,
) -> Result<PartAnswer, CompileError>
    requires { HasItsTable setting }
    ensures { TellsSkeletonMeets setting.entry whole.now skeleton.now result }
{
    if has_one_sort_each(skeleton) {
        return meets_at_one_sort(alloc, setting, whole, skeleton);
    }
    meets_at_two_sorts(alloc, setting, whole, skeleton)
}

/// Whether the rule at this place is foreign and may rewrite an instance.
fn answer_at(
    alloc: Global,
    setting: Setting<'_>,
    rules: &RuleSet,
    whole: &Part,
    place: usize,
) -> Result<PartAnswer, CompileError>
    requires { HasItsTable setting }
    ensures { OfEachStep setting.entry rules.now whole.now (λ t used s. IfOk result (TellsForeign t s place)) }
{
    match foreign_at(rules, place) {
        Some(skeleton) => meets(alloc, setting, whole, skeleton),
        None => Ok(PartAnswer::Nothing),
    }
}

/// What is left open of a foreign rule, with its place.
#[derive(Drop)]
pub struct UndecidedRule {
    pub told: UndecidedClauses,
    pub place: usize,
}

/// The first of these, if there is one.
fn first_undecided(opened: Vec<UndecidedRule>) -> Option<UndecidedRule>
    ensures { MatchOption result (opened.items ≡ []) (λ o. (rest : List UndecidedRule) × (opened.items ≡ o ∷ rest)) }
{
    for open in opened {
        return Some(open);
    }
    None
}

/// Of the foreign rules none of which is known to rewrite an instance, the first for which that isn't decided.
fn undecided_rule(opened: Vec<UndecidedRule>) -> Option<StepOutcome>
    ensures { let all = opened.items in (t : Theory) (used : List Text) (s : SymbolicState) → TellsFirst t s all → MatchOption result (all ≡ []) (IsRightStep t used s) }
{
    match first_undecided(opened) {
        Some(UndecidedRule { told, place }) => {
            let rule = Some(place);
            Some(StepOutcome::Undecided { told, rule })
        }
        None => None,
    }
}

/// The first foreign rule by turn that may rewrite an instance; else the first of which that isn't decided.
pub fn foreign(
    alloc: Global,
    setting: Setting<'_>,
    rules: &RuleSet,
    whole: &Part,
) -> Result<Option<StepOutcome>, CompileError>
    requires { HasItsTable setting }
    ensures { OfEachStep setting.entry rules.now whole.now (λ t used s. IfOk result (TellsKnown t used s)) }
{
    let mut opened = Vec::new(alloc);
    for place in rules.in_turn() {
        let place = *place;
        match answer_at(alloc, setting, rules, whole, place)? {
            PartAnswer::Instance => return Ok(Some(StepOutcome::Foreign { rule: place })),
            PartAnswer::Nothing => {}
            PartAnswer::UndecidedClauses { told } => opened.push(UndecidedRule { told, place })?,
        }
    }
    Ok(undecided_rule(opened))
}
