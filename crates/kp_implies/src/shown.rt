// What is shown of an implication that isn't decided.
ghost use Rattle.std.specs.Prelude.{IfErr, IfOk, Option};
ghost use Rattle.kp_kore.specs.View.{sort_view, view};
ghost use Rattle.kp_limits.specs.Calls.{call_view};
ghost use Rattle.kp_limits.specs.Wide as wide;
ghost use Rattle.kp_satisfiability.specs.Answers.{IsWeighedAs};
ghost use Rattle.kp_symbolic.specs.Languages.{language_view};
ghost use Rattle.kp_symbolic.specs.Shown as causes;
ghost use Rattle.kp_symbolic.specs.Verdicts as verdicts;
ghost use Rattle.kp_symbolic.specs.View.{clauses_view, state_view};
ghost use Rattle.kp_implies.specs.Told.{IsUnanswered, ShowsClauses, ShowsPredicate, ShowsWide, TellsCall, TellsCause};

use crate::answer::{Implication, ImpliesError};
use kp_kore::{Pattern, Sort};
use kp_limits::{Weighed, WideCall, first_wide};
use kp_outward::predicate_out;
use kp_results::Undecided;
use kp_simplify::limits::{deep_term, limit_of, wide_number};
use kp_symbolic::{Clause, Language, State};
use std::alloc::{AllocError, Global};

/// Clauses that aren't decided, with the weight that is passed, if one is, and how many whole-number variables are compared then.
#[derive(Drop)]
pub struct Open {
    pub shown: Vec<Clause>,
    pub over: Option<Weighed>,
    pub compared: usize,
}

/// A predicate that is shown, with the limit of the weight that is passed.
fn predicate_shown(predicate: Box<Pattern>, over: Option<Weighed>) -> Implication
    ensures { (h : Option verdicts.Weighed) → IsWeighedAs h over → ShowsPredicate (view predicate.value) h result }
{
    Implication::Undecided {
        undecided: Undecided::Predicate {
            predicate: Box::into_inner(predicate),
            limit: limit_of(over),
        },
    }
}

/// The predicate of clauses that aren't decided, with the limit of the weight that they pass. There are some: where there are none,
/// nothing is undecided.
pub fn shown_open(
    alloc: Global,
    language: &Language,
    sort: &Sort,
    clauses: &[Clause],
    over: Option<Weighed>,
) -> Result<Implication, ImpliesError>
    ensures shown { let g = language_view language.now in let s = sort_view sort.now in let cs = clauses_view clauses.now in
        IfOk result (λ r. (h : Option verdicts.Weighed) → IsWeighedAs h over → ShowsClauses g s cs h r) }
    ensures refused { IfErr result (IsUnanswered (language_view language.now)) }
{
    let written = predicate_out(alloc, language, sort, clauses)?;
    match written {
        Some(predicate) => Ok(predicate_shown(predicate, over)),
        None => Err(ImpliesError::Memory),
    }
}

/// A call that leaves 128 bits.
fn shown_call(alloc: Global, call: WideCall<'_>) -> Result<Implication, AllocError>
    ensures { IfOk result (TellsCall (call_view call.entry)) }
{
    let undecided = wide_number(alloc, call)?;
    Ok(Implication::Undecided { undecided })
}

/// The first call of a state that leaves 128 bits, shown.
pub fn shown_wide(
    alloc: Global,
    language: &Language,
    state: &State,
) -> Result<Option<Implication>, AllocError>
    ensures { let g = language_view language.now in let s = state_view state.now in IfOk result (λ o. ShowsWide (wide.first_wide g s) o) }
{
    match first_wide(language.signature, state) {
        Some(call) => Ok(Some(shown_call(alloc, call)?)),
        None => Ok(None),
    }
}

/// A term that is too deep, shown.
pub fn shown_deep(levels: u64) -> Implication
    ensures { TellsCause (causes.deep levels) result }
{
    Implication::Undecided {
        undecided: deep_term(levels),
    }
}
