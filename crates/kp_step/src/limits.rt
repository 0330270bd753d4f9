// What leaves the bounds of what is computed.
ghost use Rattle.std.specs.Prelude.{◌≡◌, IfOk, ◌++◌, map};
ghost use Rattle.std.specs.Option.{option_map};
ghost use Rattle.kp_symbolic.specs.View.{clauses_view, state_view};
ghost use Rattle.kp_simplify.specs.Answers.{first_deep, state_sides};
ghost use Rattle.kp_unify.specs.Views.{signature_of};
ghost use Rattle.kp_limits.specs.Calls.{call_view};
ghost use Rattle.kp_limits.specs.Wide as wide;
ghost use Rattle.kp_step.specs.Limits as model;
ghost use Rattle.kp_step.specs.Views.{limit_view, next_told, part_told};
ghost use Rattle.kp_step.specs.Promises.{TellsLimit, TellsLimitAmong};

use crate::outcome::{Next, StepLimit};
use kp_limits::{WideCall, first_wide};
use kp_simplify::depth::deep_in;
use kp_symbolic::state::share_variables;
use kp_symbolic::{Clause, State};
use kp_unify::{Part, Setting};
use std::alloc::{AllocError, Global};

/// A call as it is told.
fn number(call: WideCall<'_>) -> Result<StepLimit, AllocError>
    ensures { IfOk result (λ l. limit_view l ≡ model.number (call_view call.entry)) }
{
    let WideCall {
        symbol,
        first,
        second,
    } = call;
    Ok(StepLimit::Number {
        symbol: symbol.clone()?,
        first,
        second,
    })
}

/// The first call of a state that leaves 128 bits.
pub fn wide_in(setting: Setting<'_>, state: &State) -> Result<Option<StepLimit>, AllocError>
    ensures { IfOk result (λ o. option_map limit_view o ≡ option_map model.number (wide.first_wide (signature_of setting.entry) (state_view state.now))) }
{
    match first_wide(setting.language.signature, state) {
        Some(call) => Ok(Some(number(call)?)),
        None => Ok(None),
    }
}

/// The levels of the first term of a state that is too deep.
fn deep(alloc: Global, setting: Setting<'_>, state: &State) -> Result<Option<StepLimit>, AllocError>
    ensures { IfOk result (λ o. option_map limit_view o ≡ option_map model.depth (first_deep (signature_of setting.entry) (state_sides (state_view state.now)))) }
{
    match deep_in(alloc, setting.language, state)? {
        Some(levels) => Ok(Some(StepLimit::Depth { levels })),
        None => Ok(None),
    }
}

/// The first limit that a state passes.
pub fn limit_of(
    alloc: Global,
    setting: Setting<'_>,
    state: &State,
) -> Result<Option<StepLimit>, AllocError>
    ensures { IfOk result (TellsLimit (signature_of setting.entry) (state_view state.now)) }
{
    match wide_in(setting, state)? {
        Some(limit) => Ok(Some(limit)),
        None => deep(alloc, setting, state),
    }
}

/// A state with these clauses behind its own: with the predicate that is told beside it.
fn with_more(alloc: Global, state: &State, clauses: &[Clause]) -> Result<State, AllocError>
    ensures { IfOk result (λ s. state_view s ≡ model.with_more (state_view state.now) (clauses_view clauses.now)) }
{
    let mut both = Clause::share_all(alloc, &state.clauses)?;
    let mut more = Clause::share_all(alloc, clauses)?;
    both.append(&mut more)?;
    Ok(State {
        term: state.term.share(alloc)?,
        sort: state.sort.clone()?,
        clauses: both,
        variables: share_variables(alloc, &state.variables)?,
    })
}

/// The first limit that is passed by what is written for a case: its state and its predicate.
fn limit_with(
    alloc: Global,
    setting: Setting<'_>,
    state: &State,
    added: &[Clause],
) -> Result<Option<StepLimit>, AllocError>
    ensures { IfOk result (TellsLimit (signature_of setting.entry) (model.with_more (state_view state.now) (clauses_view added.now))) }
{
    limit_of(alloc, setting, &with_more(alloc, state, added)?)
}

/// The first limit that is passed by what follows.
fn next_limit(
    alloc: Global,
    setting: Setting<'_>,
    nexts: &[Next],
) -> Result<Option<StepLimit>, AllocError>
    ensures { IfOk result (TellsLimitAmong (signature_of setting.entry) (map next_told nexts.now)) }
{
    for next in nexts {
        if let Some(limit) = limit_with(alloc, setting, &next.state, &next.part.added)? {
            return Ok(Some(limit));
        }
    }
    Ok(None)
}

/// The first limit that is passed by a part that remains.
fn remainder_limit(
    alloc: Global,
    setting: Setting<'_>,
    remainder: &[Part],
) -> Result<Option<StepLimit>, AllocError>
    ensures { IfOk result (TellsLimitAmong (signature_of setting.entry) (map part_told remainder.now)) }
{
    for part in remainder {
        if let Some(limit) = limit_with(alloc, setting, &part.state, &part.added)? {
            return Ok(Some(limit));
        }
    }
    Ok(None)
}

/// The first limit that is passed by what follows or by a part that remains.
pub fn first_limit(
    alloc: Global,
    setting: Setting<'_>,
    nexts: &[Next],
    remainder: &[Part],
) -> Result<Option<StepLimit>, AllocError>
    ensures { IfOk result (TellsLimitAmong (signature_of setting.entry) (map next_told nexts.now ++ map part_told remainder.now)) }
{
    match next_limit(alloc, setting, nexts)? {
        Some(limit) => Ok(Some(limit)),
        None => remainder_limit(alloc, setting, remainder),
    }
}
