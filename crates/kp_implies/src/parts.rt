// Whether a state, a part or one with a goal's opposite has an instance.
ghost use Rattle.std.specs.Prelude.{IfOk, Option};
ghost use Rattle.std.specs.List.{AllByRecursion};
ghost use Rattle.kp_satisfiability.specs.Answers.{IsWeighedAs};
ghost use Rattle.kp_satisfiability.specs.Read.{HasSortedClauses};
ghost use Rattle.kp_signature.specs.View.{signature_view};
ghost use Rattle.kp_step.specs.Views.{numbered_views};
ghost use Rattle.kp_symbolic.specs.Verdicts as verdicts;
ghost use Rattle.kp_symbolic.specs.View.{clauses_view, state_view};
ghost use Rattle.kp_unify.specs.Views.{signature_of, HasItsTable};
ghost use Rattle.kp_implies.specs.Steps.{IsCompared, IsLeft, IsOneOf, TellsParts, TellsState};

use crate::shown::Open;
use kp_limits::{Weighed, compared};
use kp_satisfiability::{Verdict, decide};
use kp_signature::Signature;
use kp_symbolic::{Clause, State};
use kp_unify::{Part, Setting};
use std::alloc::{AllocError, Global};

/// Whether a state has an instance.
#[derive(Drop)]
pub enum Found {
    Instance,
    Nothing,
    Undecided { open: Open },
}

/// Where a weight is passed, how many whole-number variables the state compares.
fn compared_where_weighed(
    alloc: Global,
    signature: &Signature,
    state: &State,
    over: &Option<Weighed>,
) -> Result<usize, AllocError>
    ensures { let g = signature_view signature.now in let s = state_view state.now in IfOk result (λ n. (h : Option verdicts.Weighed) → IsWeighedAs h over.now → IsCompared g s h n) }
{
    match over {
        Some(_weight) => compared(alloc, signature, state),
        None => Ok(0),
    }
}

/// What is left open of a state.
fn open_of(
    alloc: Global,
    signature: &Signature,
    state: &State,
    shown: Vec<Clause>,
    over: Option<Weighed>,
) -> Result<Open, AllocError>
    ensures { let g = signature_view signature.now in let s = state_view state.now in let cs = clauses_view shown.items in
        IfOk result (λ o. (h : Option verdicts.Weighed) → IsWeighedAs h over → verdicts.IsRightVerdict g s (verdicts.undecided cs h) → IsLeft g s o) }
{
    let compared = compared_where_weighed(alloc, signature, state, &over)?;
    Ok(Open {
        shown,
        over,
        compared,
    })
}

/// Whether the state has an instance.
pub fn found_of(alloc: Global, setting: &Setting<'_>, state: &State) -> Result<Found, AllocError>
    requires { HasItsTable setting.now }
    ensures { let g = signature_of setting.now in let s = state_view state.now in IfOk result (λ f. HasSortedClauses g s → TellsState g s f) }
{
    match decide(alloc, setting.language.signature, setting.table, state)? {
        Verdict::SomeValuation => Ok(Found::Instance),
        Verdict::NoValuation => Ok(Found::Nothing),
        Verdict::Undecided { shown, over } => {
            let open = open_of(alloc, setting.language.signature, state, shown, over)?;
            Ok(Found::Undecided { open })
        }
    }
}

/// What is found of several questions: an instance of one; else the first that wasn't decided, if there is one.
#[derive(Drop)]
pub enum FoundAmong {
    Instance,
    Rest { open: Option<Open> },
}

/// The first of two that aren't decided, one over a weight before the others.
pub fn first_open(before: Option<Open>, next: Open) -> Option<Open>
    ensures { IsOneOf before next result }
{
    match before {
        Some(first) => {
            if first.over.is_none() && next.over.is_some() {
                return Some(next);
            }
            Some(first)
        }
        None => Some(next),
    }
}

/// Whether one of these parts has an instance.
pub fn search_parts(
    alloc: Global,
    setting: &Setting<'_>,
    parts: &[Part],
) -> Result<FoundAmong, AllocError>
    requires { HasItsTable setting.now }
    ensures { let g = signature_of setting.now in let qs = numbered_views parts.now in IfOk result (λ r. AllByRecursion (λ q. HasSortedClauses g q.part.state) qs → TellsParts g qs r) }
{
    let mut kept = None;
    for part in parts {
        match found_of(alloc, setting, &part.state)? {
            Found::Instance => return Ok(FoundAmong::Instance),
            Found::Nothing => {}
            Found::Undecided { open: next } => kept = first_open(kept, next),
        }
    }
    Ok(FoundAmong::Rest { open: kept })
}
