// Whether what is written mentions a variable that the state's pattern has lost.
ghost use Rattle.std.specs.Prelude.{◌≡◌, IfOk, map, true};
ghost use Rattle.std.specs.List.{list_all};
ghost use Rattle.std.specs.Str.{bytes_eq};
ghost use Rattle.kp_kore.specs.View.{sorted_variable_view};
ghost use Rattle.kp_results.specs.View.{state_view, next_view, nexts_view};
ghost use Rattle.kp_kore.specs.Instance.{is_named as named_among};
ghost use Rattle.kp_symbolic.specs.View.{variable_view, variables_view};
ghost use Rattle.kp_execute.specs.Lost.{is_kept, mentions_none_lost, parts_variables};
ghost use Rattle.kp_execute.specs.Written.{IsShown};

use kp_compile::conjuncts;
use kp_kore::SortedVariable;
use kp_results::{NextState, ReplyState};
use kp_rules::is_named;
use kp_symbolic::Variable;
use std::alloc::{AllocError, Global};
use std::sync::Arc;

/// Whether the variable at hand has this name.
fn is_called(variable: &Variable, name: &str) -> bool
    ensures { result ≡ bytes_eq (variable_view variable.now).name name.now }
{
    variable.name.as_str() == name
}

/// Whether one of the variables at hand has this name.
fn is_at_hand(hand: &[Arc<Variable>], name: &str) -> bool
    ensures { result ≡ named_among name.now (variables_view hand.now) }
{
    for variable in hand {
        if is_called(variable, name) {
            return true;
        }
    }
    false
}

/// Whether the variable is shown or isn't at hand.
fn is_kept_by(hand: &[Arc<Variable>], shown: &[SortedVariable], variable: &SortedVariable) -> bool
    ensures { result ≡ is_kept (variables_view hand.now) (map sorted_variable_view shown.now) (sorted_variable_view variable.now) }
{
    is_named(&variable.name, shown) || !is_at_hand(hand, &variable.name)
}

/// Whether each of these variables is shown or isn't at hand.
fn are_kept(hand: &[Arc<Variable>], shown: &[SortedVariable], variables: &[SortedVariable]) -> bool
    ensures { let kept = is_kept (variables_view hand.now) (map sorted_variable_view shown.now) in result ≡ list_all kept (map sorted_variable_view variables.now) }
{
    for variable in variables {
        if !is_kept_by(hand, shown, variable) {
            return false;
        }
    }
    true
}

/// The variables of a state's term and predicate.
fn variables_of(alloc: Global, state: &ReplyState) -> Result<Vec<SortedVariable>, AllocError>
    ensures { IfOk result (λ xs. map sorted_variable_view xs.items ≡ parts_variables (state_view state.now)) }
{
    let mut found = state.term.free_vars(alloc)?;
    if let Some(predicate) = &state.predicate {
        let mut more = predicate.free_vars(alloc)?;
        found.append(&mut more)?;
    }
    Ok(found)
}

/// Whether the next state mentions only variables that are shown or aren't at hand.
fn keeps(
    alloc: Global,
    hand: &[Arc<Variable>],
    shown: &[SortedVariable],
    next: &NextState,
) -> Result<bool, AllocError>
    ensures { IfOk result (λ b. b ≡ mentions_none_lost (variables_view hand.now) (map sorted_variable_view shown.now) (next_view next.now)) }
{
    let variables = variables_of(alloc, &next.state)?;
    if !are_kept(hand, shown, &variables) {
        return Ok(false);
    }
    let asked = next.predicate.free_vars(alloc)?;
    Ok(are_kept(hand, shown, &asked))
}

/// Whether none of the next states mentions a variable at hand that the state's pattern has lost.
pub fn none_lost(
    alloc: Global,
    hand: &[Arc<Variable>],
    state: &ReplyState,
    nexts: &[NextState],
) -> Result<bool, AllocError>
    ensures { IfOk result (λ b. b ≡ list_all (mentions_none_lost (variables_view hand.now) (parts_variables (state_view state.now))) (nexts_view nexts.now)) }
{
    let shown = variables_of(alloc, state)?;
    for next in nexts {
        if !keeps(alloc, hand, &shown, next)? {
            return Ok(false);
        }
    }
    Ok(true)
}

/// Whether the predicate that is written has a member.
pub fn is_predicate_shown(alloc: Global, state: &ReplyState) -> Result<bool, AllocError>
    ensures { IfOk result (λ b. b ≡ true → IsShown (state_view state.now).predicate) }
{
    match &state.predicate {
        Some(predicate) => {
            let members = conjuncts(alloc, predicate)?;
            Ok(!members.is_empty())
        }
        None => Ok(true),
    }
}
