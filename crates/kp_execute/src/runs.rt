// A run from a symbolic state.
ghost use Rattle.std.specs.Prelude.{List, IfOk};
ghost use Rattle.kp_kore.specs.Syntax.{Text};
ghost use Rattle.kp_kore.specs.Signature.{KoreSignature};
ghost use Rattle.kp_heads.specs.Made.{IsHeadTableOf};
ghost use Rattle.kp_kore.specs.Theory.{Theory};
ghost use Rattle.kp_symbolic.specs.States.{SymbolicState};
ghost use Rattle.kp_symbolic.specs.View.{state_view};
ghost use Rattle.kp_satisfiability.specs.Read.{HasSortedClauses};
ghost use Rattle.kp_results.specs.View.{options_view};
ghost use Rattle.kp_unify.specs.Views.{signature_of};
ghost use Rattle.kp_step.specs.Answers.{IsRightAnswerAlone};
ghost use Rattle.kp_execute.specs.Endings.{IsRunFrom, IsEndAtBound, IsRightRun};

use crate::ending::{Ending, Run};
use crate::onward::{Onward, after_step};
use kp_compile::CompileError;
use kp_results::Options;
use kp_rule_sets::RuleSet;
use kp_step::part_answers::{PartAnswer, answer_alone};
use kp_symbolic::State;
use kp_unify::Setting;
use std::alloc::{AllocError, Global};

/// How a run ends in a state at its bound of which this is answered.
fn ending_of(answer: &PartAnswer) -> Ending
    ensures { (g : KoreSignature) (s : SymbolicState) → IsRightAnswerAlone g s answer.now → IsEndAtBound g s result }
{
    match answer {
        PartAnswer::Nothing => Ending::Vacuous,
        PartAnswer::Instance => Ending::DepthBound,
        PartAnswer::UndecidedClauses { .. } => Ending::DepthBound,
    }
}

/// How a run ends in a state at its bound: whether it has an instance is asked before any rule.
fn at_bound(alloc: Global, setting: Setting<'_>, state: &State) -> Result<Ending, AllocError>
    requires { IsHeadTableOf (signature_of setting) setting.table.now }
    ensures { let g = signature_of setting.entry in let s = state_view state.now in IfOk result (λ e. HasSortedClauses g s → IsEndAtBound g s e) }
{
    let answer = answer_alone(alloc, setting, state)?;
    Ok(ending_of(&answer))
}

/// Runs the rule set from a state for at most as many steps as the bound says. `Fresh` with each number from 1 below the next
/// one is in use. Refused where a step is, or for want of memory.
pub fn run(
    alloc: Global,
    setting: Setting<'_>,
    rules: &RuleSet,
    state: State,
    next: u64,
    options: &Options,
) -> Result<Run, CompileError>
    requires { IsHeadTableOf (signature_of setting) setting.table.now }
    ensures { (t : Theory) (used : List Text) → let s = state_view state in IsRunFrom t used s setting.entry rules.now next → IfOk result (IsRightRun t (options_view options.now) used s) }
{
    let mut state = state;
    let mut next = next;
    for depth in 0..options.bound {
        match after_step(alloc, setting, rules, options, &state, next)? {
            Onward::Ends { ending } => {
                return Ok(Run {
                    state,
                    next,
                    depth,
                    ending,
                });
            }
            Onward::Stops {
                rule,
                state: last,
                next: number,
            } => {
                return Ok(Run {
                    state: last,
                    next: number,
                    depth: depth + 1,
                    ending: Ending::Terminal { rule },
                });
            }
            Onward::Steps {
                state: after,
                next: number,
            } => {
                state = after;
                next = number;
            }
        }
    }
    let ending = at_bound(alloc, setting, &state)?;
    Ok(Run {
        state,
        next,
        depth: options.bound,
        ending,
    })
}
