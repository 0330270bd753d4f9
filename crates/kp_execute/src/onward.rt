// What a run does behind a step.
ghost use Rattle.std.specs.Prelude.{◌≡◌, ◌≤◌, length, IsTrue, List, [], ◌∷◌, IfOk};
ghost use Rattle.kp_kore.specs.Syntax.{Text};
ghost use Rattle.kp_heads.specs.Made.{IsHeadTableOf};
ghost use Rattle.kp_kore.specs.Theory.{Theory};
ghost use Rattle.kp_kore.specs.Executions as model;
ghost use Rattle.kp_symbolic.specs.States.{SymbolicState};
ghost use Rattle.kp_symbolic.specs.View.{state_view};
ghost use Rattle.kp_results.specs.View.{options_view};
ghost use Rattle.kp_rule_sets.specs.RuleSets.{RunsAs};
ghost use Rattle.kp_unify.specs.Views.{signature_of};
ghost use Rattle.kp_step.specs.RightSteps.{AreCasesOf, IsRightStep};
ghost use Rattle.kp_execute.specs.Endings.{AreOfTwo, IsEndOfStep, IsRunFrom};
ghost use Rattle.kp_execute.specs.Onward.{IsRightOnward};

use crate::ending::Ending;
use crate::listed_rules::is_listed;
use kp_compile::CompileError;
use kp_results::Options;
use kp_rule_sets::RuleSet;
use kp_step::{Next, StepOutcome, step};
use kp_symbolic::State;
use kp_unify::{Part, Setting};
use std::alloc::{AllocError, Global};

/// What a run does behind a step: it ends where it is; it takes the step, by the rule of this place, and stops behind it; or it
/// takes the step and goes on.
#[derive(Drop)]
pub enum Onward {
    Ends {
        ending: Ending,
    },
    Stops {
        rule: usize,
        state: State,
        next: u64,
    },
    Steps {
        state: State,
        next: u64,
    },
}

/// What one next state alone means: a rule that is one to stop before and behind is one to stop before.
fn by_one(rules: &RuleSet, options: &Options, next: Next) -> Onward
    ensures { let options' = options_view options.now in
        (t : Theory) (used : List Text) (s : SymbolicState) → RunsAs t rules.now → AreCasesOf t used s (next ∷ []) [] → IsRightOnward t options' used s result }
{
    if is_listed(rules, &options.cut_points, next.rule) {
        return Onward::Ends {
            ending: Ending::CutPoint { next },
        };
    }
    if is_listed(rules, &options.terminals, next.rule) {
        return Onward::Stops {
            rule: next.rule,
            state: next.state,
            next: next.next,
        };
    }
    Onward::Steps {
        state: next.state,
        next: next.next,
    }
}

/// How a run ends where parts remain in which no rule fires.
fn with_remainder(nexts: Vec<Next>, remainder: Vec<Part>) -> Ending
    ensures { let the_rest = remainder.items in
        (t : Theory) (o : model.Options) (used : List Text) (s : SymbolicState) → AreCasesOf t used s nexts.items the_rest → ¬ (the_rest ≡ []) → IsEndOfStep t o used s result }
{
    if nexts.is_empty() {
        return Ending::Stuck { remainder };
    }
    Ending::Branching { nexts, remainder }
}

/// Whether the first and the last of these are of two rules.
fn are_of_two(nexts: &[Next]) -> bool
    ensures { IsTrue result → AreOfTwo nexts.now }
{
    match nexts.first() {
        Some(first) => match nexts.last() {
            Some(last) => first.rule != last.rule,
            None => false,
        },
        None => false,
    }
}

/// What several next states mean beside which nothing remains. They come by turn, and one rule alone has one part: were they not
/// of two rules, want of memory would be told.
fn by_several(nexts: Vec<Next>, remainder: Vec<Part>) -> Result<Onward, AllocError>
    ensures { let the_rest = remainder.items in
        (t : Theory) (o : model.Options) (used : List Text) (s : SymbolicState) → AreCasesOf t used s nexts.items the_rest → the_rest ≡ [] → IfOk result (IsRightOnward t o used s) }
{
    if !are_of_two(&nexts) {
        return Err(AllocError);
    }
    Ok(Onward::Ends {
        ending: Ending::Branching { nexts, remainder },
    })
}

/// What at most one next state means beside which nothing remains. Where there is none, the state has no instance.
fn by_at_most_one(rules: &RuleSet, options: &Options, nexts: Vec<Next>) -> Onward
    ensures { let options' = options_view options.now in let next_states = nexts.items in
        (t : Theory) (used : List Text) (s : SymbolicState) → RunsAs t rules.now → AreCasesOf t used s next_states [] → length next_states ≤ 1 → IsRightOnward t options' used s result }
{
    let mut nexts = nexts;
    match nexts.pop() {
        Some(next) => by_one(rules, options, next),
        None => Onward::Ends {
            ending: Ending::Vacuous,
        },
    }
}

/// What the cases of a step mean.
fn by_cases(
    rules: &RuleSet,
    options: &Options,
    nexts: Vec<Next>,
    remainder: Vec<Part>,
) -> Result<Onward, AllocError>
    ensures { let options' = options_view options.now in
        (t : Theory) (used : List Text) (s : SymbolicState) → RunsAs t rules.now → AreCasesOf t used s nexts.items remainder.items → IfOk result (IsRightOnward t options' used s) }
{
    if !remainder.is_empty() {
        return Ok(Onward::Ends {
            ending: with_remainder(nexts, remainder),
        });
    }
    if nexts.len() > 1 {
        return by_several(nexts, remainder);
    }
    Ok(by_at_most_one(rules, options, nexts))
}

/// What the outcome of a step means.
fn by_outcome(
    rules: &RuleSet,
    options: &Options,
    outcome: StepOutcome,
) -> Result<Onward, AllocError>
    ensures { let options' = options_view options.now in
        (t : Theory) (used : List Text) (s : SymbolicState) → RunsAs t rules.now → IsRightStep t used s outcome → IfOk result (IsRightOnward t options' used s) }
{
    match outcome {
        StepOutcome::Empty => Ok(Onward::Ends {
            ending: Ending::Vacuous,
        }),
        StepOutcome::Cases { nexts, remainder } => by_cases(rules, options, nexts, remainder),
        why => Ok(Onward::Ends {
            ending: Ending::Aborted { why },
        }),
    }
}

/// What a run does in a state below its bound: the step from it, and what that means. Refused where the step is.
pub fn after_step(
    alloc: Global,
    setting: Setting<'_>,
    rules: &RuleSet,
    options: &Options,
    state: &State,
    next: u64,
) -> Result<Onward, CompileError>
    requires { IsHeadTableOf (signature_of setting) setting.table.now }
    ensures { (t : Theory) (used : List Text) → let s = state_view state.now in IsRunFrom t used s setting.entry rules.now next → IfOk result (IsRightOnward t (options_view options.now) used s) }
{
    let outcome = step(alloc, setting, rules, state, next)?;
    Ok(by_outcome(rules, options, outcome)?)
}
