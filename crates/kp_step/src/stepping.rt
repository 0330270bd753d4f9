// One symbolic step.
ghost use Rattle.std.specs.Prelude.{◌≡◌, None};
ghost use Rattle.kp_symbolic.specs.View.{state_view};
ghost use Rattle.kp_limits.specs.Wide.{first_wide};
ghost use Rattle.kp_step.specs.Promises.{StepsFrom, StepsFromInstance, StepsFromUndecided, StepsByRules, StepsBySearch, StepsByTurns, StepsByCases, LeavesRemainder};
ghost use Rattle.kp_unify.specs.Views.{signature_of, HasItsTable};

use crate::counted_variables::{most_alone, told_within};
use crate::foreign::foreign;
use crate::limits::{first_limit, limit_of, wide_in};
use crate::next_states::{all_settled, nexts_of};
use crate::outcome::StepOutcome;
use crate::part_answers::{Decided, PartAnswer, UndecidedClauses, answer_alone, decided_parts};
use crate::remainders::left_after;
use crate::turns::{Searched, Turn, find_turns};
use kp_compile::CompileError;
use kp_rule_sets::RuleSet;
use kp_symbolic::State;
use kp_unify::part::whole;
use kp_unify::{Part, Setting};
use std::alloc::{AllocError, Global};

/// The cases, where no limit is passed.
fn cases(
    alloc: Global,
    setting: Setting<'_>,
    rules: &RuleSet,
    turns: &[Turn],
    remainder: Vec<Part>,
) -> Result<StepOutcome, CompileError>
    requires { HasItsTable setting }
    ensures { StepsByCases setting.entry rules.now turns.now remainder result }
{
    let nexts = nexts_of(alloc, setting, rules, turns)?;
    let remainder = all_settled(alloc, setting, remainder)?;
    match first_limit(alloc, setting, &nexts, &remainder)? {
        Some(limit) => Ok(StepOutcome::Limited { limit }),
        None => Ok(StepOutcome::Cases { nexts, remainder }),
    }
}

/// The parts of the state where no rule fires, or what is left open of one.
fn remainder_of(
    alloc: Global,
    setting: Setting<'_>,
    rules: &RuleSet,
    part: &Part,
    turns: &[Turn],
) -> Result<Decided, CompileError>
    requires { HasItsTable setting }
    ensures { LeavesRemainder setting.entry rules.now part.now turns.now result }
{
    let mut parts = Vec::new(alloc);
    parts.push(part.share(alloc)?)?;
    let left = left_after(alloc, setting, rules, turns, None, parts)?;
    Ok(decided_parts(alloc, setting, rules, turns, None, &part.state, left)?)
}

/// The step by the rules that have their turn.
fn by_turns(
    alloc: Global,
    setting: Setting<'_>,
    rules: &RuleSet,
    part: &Part,
    turns: &[Turn],
) -> Result<StepOutcome, CompileError>
    requires { HasItsTable setting }
    ensures { StepsByTurns setting.entry rules.now part.now turns.now result }
{
    match remainder_of(alloc, setting, rules, part, turns)? {
        Decided::Parts { parts } => cases(alloc, setting, rules, turns, parts),
        Decided::UndecidedClauses { told } => Ok(StepOutcome::Undecided { told, rule: None }),
    }
}

/// The step by all rules that are read.
fn by_search(
    alloc: Global,
    setting: Setting<'_>,
    rules: &RuleSet,
    part: &Part,
) -> Result<StepOutcome, CompileError>
    requires { HasItsTable setting }
    ensures { StepsBySearch setting.entry rules.now part.now result }
{
    match find_turns(alloc, setting, rules, part)? {
        Searched::Found { turns } => by_turns(alloc, setting, rules, part, &turns),
        Searched::Ended { outcome } => Ok(outcome),
    }
}

/// The step of a state that has an instance and passes no limit.
fn by_rules(
    alloc: Global,
    setting: Setting<'_>,
    rules: &RuleSet,
    part: &Part,
) -> Result<StepOutcome, CompileError>
    requires { HasItsTable setting }
    ensures { StepsByRules setting.entry rules.now part.now result }
{
    match foreign(alloc, setting, rules, part)? {
        Some(outcome) => Ok(outcome),
        None => by_search(alloc, setting, rules, part),
    }
}

/// The step of a state that has an instance.
fn from_state(
    alloc: Global,
    setting: Setting<'_>,
    rules: &RuleSet,
    state: &State,
    next: u64,
) -> Result<StepOutcome, CompileError>
    requires { HasItsTable setting }
    ensures { StepsFromInstance setting.entry rules.now (state_view state.now) next result }
{
    match limit_of(alloc, setting, state)? {
        Some(limit) => Ok(StepOutcome::Limited { limit }),
        None => by_rules(alloc, setting, rules, &whole(alloc, state, next)?),
    }
}

/// What is left open of a state alone, where none of its numbers leaves 128 bits.
fn open_alone(
    alloc: Global,
    setting: Setting<'_>,
    state: &State,
    told: UndecidedClauses,
) -> Result<StepOutcome, AllocError>
    ensures { first_wide (signature_of setting.entry) (state_view state.now) ≡ None → StepsFromUndecided setting.entry (state_view state.now) told result }
{
    let most = most_alone(alloc, setting, state)?;
    let told = told_within(alloc, setting, most, state, told)?;
    Ok(StepOutcome::Undecided { told, rule: None })
}

/// The step of a state whose clauses aren't decided: a number beyond 128 bits goes before them.
fn from_open(
    alloc: Global,
    setting: Setting<'_>,
    state: &State,
    told: UndecidedClauses,
) -> Result<StepOutcome, AllocError>
    ensures { StepsFromUndecided setting.entry (state_view state.now) told result }
{
    match wide_in(setting, state)? {
        Some(limit) => Ok(StepOutcome::Limited { limit }),
        None => open_alone(alloc, setting, state, told),
    }
}

/// One step of a state by the rules of a rule set. `Fresh` with each number from 1 below the next one is in use. Refused where
/// a sum can't be written, where a foreign rule's left side has one name at two sorts, stands for a value that the state's term may have,
/// and no sort has all values that the two share, or for want of memory.
pub fn step(
    alloc: Global,
    setting: Setting<'_>,
    rules: &RuleSet,
    state: &State,
    next: u64,
) -> Result<StepOutcome, CompileError>
    requires { HasItsTable setting }
    ensures { StepsFrom setting.entry rules.now (state_view state.now) next result }
{
    match answer_alone(alloc, setting, state)? {
        PartAnswer::Nothing => Ok(StepOutcome::Empty),
        PartAnswer::Instance => from_state(alloc, setting, rules, state, next),
        PartAnswer::UndecidedClauses { told } => Ok(from_open(alloc, setting, state, told)?),
    }
}
