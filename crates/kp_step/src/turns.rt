// The rules that have their turn on some instance of a state, and where.
ghost use Rattle.std.specs.Prelude.{◌≡◌, IfOk};
ghost use Rattle.kp_unify.specs.Views.{numbered_view, HasItsTable};
ghost use Rattle.kp_step.specs.Tries.{narrowed_of};
ghost use Rattle.kp_step.specs.Answers.{TellsTurns, firing_model};
ghost use Rattle.kp_step.specs.Promises.{LeavesTo, TellsMayMeet, TellsWideCondition, TellsRemainingParts, TellsTurnParts, MakesTurn, TriesRule, TriesSides, TriesFiring, OfEachSearch};

use crate::left_variables::are_of_left;
use crate::limits::wide_in;
use crate::met_rules::answer_where_met;
use crate::outcome::{StepLimit, StepOutcome};
use crate::part_answers::{Decided, PartAnswer, decided_parts};
use crate::remainders::left_after;
use crate::rules::{priority_at, read_at};
use crate::{Firing, all_clauses, constrained, fire};
use kp_compile::CompileError;
use kp_rule_sets::RuleSet;
use kp_rules::{ReadSides, Skeleton};
use kp_solving::constrain;
use kp_symbolic::{Replaced, State};
use kp_unify::{Part, Setting};
use std::alloc::{AllocError, Global};

/// The parts where the rule at this place has its turn, and what its variables stand for there.
#[derive(Drop)]
pub struct Turn {
    pub place: usize,
    pub priority: u32,
    pub parts: Vec<Part>,
    pub bindings: Vec<Replaced>,
}

/// What is found of a rule: that it has no turn, its turn, or why the step ends.
#[derive(Drop)]
enum Tried {
    NoTurn,
    Turn { turn: Turn },
    Ended { outcome: StepOutcome },
}

/// What is found of all rules: those that have their turn, or why the step ends.
#[derive(Drop)]
pub enum Searched {
    Found { turns: Vec<Turn> },
    Ended { outcome: StepOutcome },
}

/// Whether the rule meets the state, and it isn't known that its left side stands for no instance of the part that it meets; where it
/// doesn't, that is known.
fn may_meet(
    alloc: Global,
    setting: Setting<'_>,
    whole: &Part,
    left: &Skeleton,
    firing: &Firing,
) -> Result<bool, AllocError>
    requires { HasItsTable setting }
    ensures { TellsMayMeet setting.entry whole.now left.now firing.now result }
{
    let met = constrain(alloc, &firing.part.state, &firing.equations)?;
    match answer_where_met(alloc, setting, &whole.state, &met, left)? {
        PartAnswer::Nothing => Ok(false),
        PartAnswer::Instance | PartAnswer::UndecidedClauses { .. } => Ok(true),
    }
}

/// The part where the rule fires: the one that is met, by the equations and the condition.
fn narrowed_part(alloc: Global, firing: &Firing) -> Result<Part, AllocError>
    ensures { IfOk result (λ p. numbered_view p ≡ narrowed_of (firing_model firing.now)) }
{
    let clauses = all_clauses(alloc, firing)?;
    constrained(alloc, &firing.part, &clauses)
}

/// The number beyond 128 bits that the rule's condition computes, where its left side may meet the part.
fn wide_condition(
    alloc: Global,
    setting: Setting<'_>,
    whole: &Part,
    left: &Skeleton,
    firing: &Firing,
    narrowed: &State,
) -> Result<Option<StepLimit>, AllocError>
    requires { HasItsTable setting }
    ensures { TellsWideCondition setting.entry whole.now left.now firing.now narrowed.now result }
{
    match wide_in(setting, narrowed)? {
        Some(limit) => {
            if may_meet(alloc, setting, whole, left, firing)? {
                return Ok(Some(limit));
            }
            Ok(None)
        }
        None => Ok(None),
    }
}

/// The parts of the part where the rule of this number fires that those found before leave to it.
fn left_to(
    alloc: Global,
    setting: Setting<'_>,
    rules: &RuleSet,
    turns: &[Turn],
    priority: u32,
    part: Part,
) -> Result<Vec<Part>, CompileError>
    requires { HasItsTable setting }
    ensures { LeavesTo setting.entry rules.now turns.now priority part result }
{
    let mut parts = Vec::new(alloc);
    parts.push(part)?;
    left_after(alloc, setting, rules, turns, Some(priority), parts)
}

/// The parts where the rule of this number has its turn, of the part where it fires, or what is left open of one.
fn parts_left(
    alloc: Global,
    setting: Setting<'_>,
    rules: &RuleSet,
    turns: &[Turn],
    whole: &Part,
    left: &Skeleton,
    priority: u32,
    part: Part,
) -> Result<Decided, CompileError>
    requires { HasItsTable setting }
    ensures { TellsRemainingParts setting.entry rules.now turns.now whole.now left.now priority part result }
{
    let parts = left_to(alloc, setting, rules, turns, priority, part)?;
    Ok(decided_parts(
        alloc,
        setting,
        rules,
        turns,
        Some(left),
        &whole.state,
        parts,
    )?)
}

/// The same, where the rule's left side may meet none of the state's instances.
fn turn_parts(
    alloc: Global,
    setting: Setting<'_>,
    rules: &RuleSet,
    turns: &[Turn],
    whole: &Part,
    left: &Skeleton,
    priority: u32,
    part: Part,
) -> Result<Decided, CompileError>
    requires { HasItsTable setting }
    ensures { TellsTurnParts setting.entry rules.now turns.now whole.now left.now priority part result }
{
    match answer_where_met(alloc, setting, &whole.state, &part.state, left)? {
        PartAnswer::Nothing => {
            let parts = Vec::new(alloc);
            Ok(Decided::Parts { parts })
        }
        PartAnswer::Instance | PartAnswer::UndecidedClauses { .. } => parts_left(
            alloc, setting, rules, turns, whole, left, priority, part,
        ),
    }
}

/// A rule's turn, if it has one.
fn turn_of(place: usize, priority: u32, parts: Vec<Part>, bindings: Vec<Replaced>) -> Tried
    ensures { MakesTurn place priority parts bindings result }
{
    if parts.is_empty() {
        return Tried::NoTurn;
    }
    let turn = Turn {
        place,
        priority,
        parts,
        bindings,
    };
    Tried::Turn { turn }
}

/// What is found of the rule at this place, where it fires under these clauses.
fn try_firing(
    alloc: Global,
    setting: Setting<'_>,
    rules: &RuleSet,
    turns: &[Turn],
    whole: &Part,
    place: usize,
    left: &Skeleton,
    firing: Firing,
) -> Result<Tried, CompileError>
    requires { HasItsTable setting }
    ensures { TriesFiring setting.entry rules.now turns.now whole.now place left.now firing result }
{
    let narrowed = narrowed_part(alloc, &firing)?;
    if let Some(limit) = wide_condition(alloc, setting, whole, left, &firing, &narrowed.state)? {
        let outcome = StepOutcome::Limited { limit };
        return Ok(Tried::Ended { outcome });
    }
    let priority = priority_at(rules, place);
    match turn_parts(
        alloc, setting, rules, turns, whole, left, priority, narrowed,
    )? {
        Decided::Parts { parts } => Ok(turn_of(place, priority, parts, firing.bindings)),
        Decided::UndecidedClauses { told } => {
            let rule = Some(place);
            let outcome = StepOutcome::Undecided { told, rule };
            Ok(Tried::Ended { outcome })
        }
    }
}

/// What is found of a rule that is read. A term that stands for no variable of its left side couldn't be made; want of memory
/// is told.
fn try_sides(
    alloc: Global,
    setting: Setting<'_>,
    rules: &RuleSet,
    turns: &[Turn],
    whole: &Part,
    place: usize,
    sides: &ReadSides,
) -> Result<Tried, CompileError>
    requires { HasItsTable setting }
    ensures { TriesSides setting.entry rules.now turns.now whole.now place sides.now result }
{
    match fire(alloc, &setting, whole, sides)? {
        Some(firing) => {
            if !are_of_left(&sides.left, &firing.bindings) {
                return Err(CompileError::Memory);
            }
            try_firing(
                alloc,
                setting,
                rules,
                turns,
                whole,
                place,
                &sides.left,
                firing,
            )
        }
        None => Ok(Tried::NoTurn),
    }
}

/// What is found of the rule at this place.
fn try_rule(
    alloc: Global,
    setting: Setting<'_>,
    rules: &RuleSet,
    turns: &[Turn],
    whole: &Part,
    place: usize,
) -> Result<Tried, CompileError>
    requires { HasItsTable setting }
    ensures { TriesRule setting.entry rules.now turns.now whole.now place result }
{
    match read_at(rules, place) {
        Some(rewrite) => try_sides(alloc, setting, rules, turns, whole, place, &rewrite.sides),
        None => Ok(Tried::NoTurn),
    }
}

/// The turns of all rules that are read, by turn, or why the step ends.
pub fn find_turns(
    alloc: Global,
    setting: Setting<'_>,
    rules: &RuleSet,
    whole: &Part,
) -> Result<Searched, CompileError>
    requires { HasItsTable setting }
    ensures { OfEachSearch setting.entry rules.now whole.now (λ t used s. IfOk result (TellsTurns t used s)) }
{
    let mut turns = Vec::new(alloc);
    for place in rules.in_turn() {
        match try_rule(alloc, setting, rules, &turns, whole, *place)? {
            Tried::NoTurn => {}
            Tried::Turn { turn } => turns.push(turn)?,
            Tried::Ended { outcome } => return Ok(Searched::Ended { outcome }),
        }
    }
    Ok(Searched::Found { turns })
}
