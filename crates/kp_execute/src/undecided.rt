// What isn't decided of a run's last state, as it is told.
ghost use Rattle.std.specs.Prelude.{◌≡◌, IfErr, IfOk, string_bytes};
ghost use Rattle.kp_kore.specs.Theory.{Theory};
ghost use Rattle.kp_outward.specs.Errors.{IsNoInjection};
ghost use Rattle.kp_results.specs.View.{undecided_view};
ghost use Rattle.kp_symbolic.specs.States.{SymbolicState};
ghost use Rattle.kp_symbolic.specs.Languages.{language_view};
ghost use Rattle.kp_symbolic.specs.View.{clauses_view, state_view};
ghost use Rattle.kp_step.specs.RightSteps.{IsToldUndecided};
ghost use Rattle.kp_step.specs.Limits.{IsPassed};
ghost use Rattle.kp_step.specs.Views.{limit_view};
ghost use Rattle.kp_limits.specs.Calls.{call_view};
ghost use Rattle.kp_execute.specs.Answers.{IsUndecidedBy, call_of};
ghost use Rattle.kp_execute.specs.Wants.{ClausesWant};

use crate::written::predicate_of;
use kp_limits::WideCall;
use kp_outward::WritingError;
use kp_results::Undecided;
use kp_simplify::limits::{deep_term, limit_of, wide_number};
use kp_step::StepLimit;
use kp_step::part_answers::UndecidedClauses;
use kp_symbolic::{Language, State};
use std::alloc::{AllocError, Global};
use std::sync::Arc;

/// The clauses that aren't decided, with the weight that they pass. There are some: where there are none, nothing is undecided.
pub fn clauses_told(
    alloc: Global,
    language: &Language,
    state: &State,
    told: &UndecidedClauses,
    place: Option<usize>,
) -> Result<Undecided, WritingError>
    ensures told { let state' = state_view state.now in (t : Theory) → language_view language.now ≡ t.signature → IsToldUndecided t state' (clauses_view told.now.shown.items) told.now.over place → IfOk result (λ u. IsUndecidedBy t state' (undecided_view u)) }
    ensures wants { IfErr result (λ e. IsNoInjection e → ClausesWant (language_view language.now) (state_view state.now).sort (clauses_view told.now.shown.items)) }
{
    match predicate_of(alloc, language, &state.sort, &told.shown)? {
        Some(predicate) => Ok(Undecided::Predicate {
            predicate,
            limit: limit_of(told.over),
        }),
        None => Err(WritingError::Memory),
    }
}

/// The call of a symbol of two numbers.
fn wide_call(symbol: &Arc<String>, first: i128, second: i128) -> WideCall<'_>
    ensures { call_view result ≡ call_of (string_bytes symbol.now.value) first second }
{
    WideCall {
        symbol,
        first,
        second,
    }
}

/// A limit that is passed.
pub fn limit_told(alloc: Global, limit: &StepLimit) -> Result<Undecided, AllocError>
    ensures { (t : Theory) (s : SymbolicState) → IsPassed t s (limit_view limit.now) → IfOk result (λ u. IsUndecidedBy t s (undecided_view u)) }
{
    match limit {
        StepLimit::Number {
            symbol,
            first,
            second,
        } => wide_number(alloc, wide_call(symbol, *first, *second)),
        StepLimit::Depth { levels } => Ok(deep_term(*levels)),
    }
}
