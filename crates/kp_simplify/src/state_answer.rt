// What is answered of a state.
ghost use Rattle.std.specs.Prelude.{◌≡◌, ◌≢◌, IfErr, IfOk, None, Option};
ghost use Rattle.std.specs.Option.{option_map};
ghost use Rattle.kp_satisfiability.specs.Answers.{IsWeighedAs};
ghost use Rattle.kp_heads.specs.Made.{IsHeadTableOf};
ghost use Rattle.kp_kore.specs.Signature.{injection, meaning_of};
ghost use Rattle.kp_kore.specs.View.{view};
ghost use Rattle.kp_outward.specs.Errors.{IsNoInjection};
ghost use Rattle.kp_results.specs.View.{undecided_view};
ghost use Rattle.kp_signature.specs.View.{signature_view};
ghost use Rattle.kp_compile.specs.Spelled.{injection_name};
ghost use Rattle.kp_symbolic.specs.States as states;
ghost use Rattle.kp_symbolic.specs.Verdicts as verdicts;
ghost use Rattle.kp_symbolic.specs.WellFormed.{IsWellFormed};
ghost use Rattle.kp_symbolic.specs.Languages.{language_view};
ghost use Rattle.kp_symbolic.specs.View.{clauses_view, state_view};
ghost use Rattle.kp_limits.specs.Wide as wide;
ghost use Rattle.kp_simplify.specs.Answers as model;
ghost use Rattle.kp_simplify.specs.Told.{IsAnswered, ShowsPredicate, WantsInjection, WantsInjectionFor, WantsInjectionAsState, parts_of_call};

use crate::answer::Simplified;
use crate::depth::deep_in;
use crate::limits::{deep_term, limit_of, wide_number};
use kp_heads::HeadTable;
use kp_kore::Pattern;
use kp_limits::{Weighed, first_wide};
use kp_outward::{WritingError, predicate_out, state_out};
use kp_results::Undecided;
use kp_satisfiability::{Verdict, decide};
use kp_signature::Signature;
use kp_symbolic::{Clause, Language, State};
use std::alloc::{AllocError, Global};

/// The first call of a state that leaves 128 bits, as it is shown.
fn wide_in(
    alloc: Global,
    signature: &Signature,
    state: &State,
) -> Result<Option<Undecided>, AllocError>
    ensures { IfOk result (λ o. option_map undecided_view o ≡ option_map parts_of_call (wide.first_wide (signature_view signature.now) (state_view state.now))) }
{
    match first_wide(signature, state) {
        Some(call) => Ok(Some(wide_number(alloc, call)?)),
        None => Ok(None),
    }
}

/// A predicate that is shown, with the limit of the weight that is passed.
fn predicate_shown(predicate: Box<Pattern>, over: Option<Weighed>) -> Simplified
    ensures { (h : Option verdicts.Weighed) → IsWeighedAs h over → ShowsPredicate (view predicate.value) h result }
{
    Simplified::UndecidedStep {
        undecided: Undecided::Predicate {
            predicate: Box::into_inner(predicate),
            limit: limit_of(over),
        },
    }
}

/// The predicate of the clauses that are shown, with the limit of the weight that they pass. There are some: where there are
/// none, nothing is undecided.
fn shown(
    alloc: Global,
    language: &Language,
    state: &State,
    clauses: &[Clause],
    over: Option<Weighed>,
) -> Result<Simplified, WritingError>
    ensures answered { let g = language_view language.now in let s = state_view state.now in let cs = clauses_view clauses.now in
        IfOk result (λ a. (h : Option verdicts.Weighed) → verdicts.IsRightVerdict g s (verdicts.undecided cs h) → IsWeighedAs h over → wide.first_wide g s ≡ None → IsAnswered g s a) }
    ensures refused { IfErr result (λ e. IsNoInjection e → meaning_of (language_view language.now) injection_name ≢ injection) }
    ensures wants { let g = language_view language.now in let s = state_view state.now in
        IfErr result (λ e. IsNoInjection e → wide.first_wide g s ≡ None → WantsInjectionFor g s (clauses_view clauses.now)) }
{
    let written = predicate_out(alloc, language, &state.sort, clauses)?;
    match written {
        Some(predicate) => Ok(predicate_shown(predicate, over)),
        None => Err(WritingError::Memory),
    }
}

/// The answer where the clauses aren't decided.
fn what_is_undecided(
    alloc: Global,
    language: &Language,
    state: &State,
    clauses: &[Clause],
    over: Option<Weighed>,
) -> Result<Simplified, WritingError>
    ensures answered { let g = language_view language.now in let s = state_view state.now in let cs = clauses_view clauses.now in
        IfOk result (λ a. (h : Option verdicts.Weighed) → verdicts.IsRightVerdict g s (verdicts.undecided cs h) → IsWeighedAs h over → IsAnswered g s a) }
    ensures refused { IfErr result (λ e. IsNoInjection e → meaning_of (language_view language.now) injection_name ≢ injection) }
    ensures wants { let g = language_view language.now in IfErr result (λ e. IsNoInjection e → WantsInjectionFor g (state_view state.now) (clauses_view clauses.now)) }
{
    let call = wide_in(alloc, language.signature, state)?;
    match call {
        Some(undecided) => Ok(Simplified::UndecidedStep { undecided }),
        None => shown(alloc, language, state, clauses, over),
    }
}

/// The state as it is written.
fn state_shown(
    alloc: Global,
    language: &Language,
    state: &State,
) -> Result<Simplified, WritingError>
    ensures answered { let g = language_view language.now in let s = state_view state.now in
        IfOk result (λ a. verdicts.IsRightVerdict g s verdicts.some_valuation → wide.first_wide g s ≡ None → model.first_deep g (model.state_sides s) ≡ None → IsAnswered g s a) }
    ensures refused { IfErr result (λ e. IsNoInjection e → meaning_of (language_view language.now) injection_name ≢ injection) }
    ensures wants { IfErr result (λ e. IsNoInjection e → WantsInjectionAsState (language_view language.now) (state_view state.now)) }
{
    match state_out(alloc, language, state) {
        Ok(pattern) => Ok(Simplified::State { pattern }),
        Err(error) => Err(error),
    }
}

/// The state itself, where no term in it is too deep.
fn written(alloc: Global, language: &Language, state: &State) -> Result<Simplified, WritingError>
    ensures answered { let g = language_view language.now in let s = state_view state.now in
        IfOk result (λ a. verdicts.IsRightVerdict g s verdicts.some_valuation → wide.first_wide g s ≡ None → IsAnswered g s a) }
    ensures refused { IfErr result (λ e. IsNoInjection e → meaning_of (language_view language.now) injection_name ≢ injection) }
    ensures wants { let g = language_view language.now in let s = state_view state.now in
        IfErr result (λ e. IsNoInjection e → verdicts.IsRightVerdict g s verdicts.some_valuation → wide.first_wide g s ≡ None → WantsInjection g s) }
{
    let deep = deep_in(alloc, language, state)?;
    match deep {
        Some(depth) => Ok(Simplified::UndecidedStep {
            undecided: deep_term(depth),
        }),
        None => state_shown(alloc, language, state),
    }
}

/// The answer where the clauses can be true.
fn found(alloc: Global, language: &Language, state: &State) -> Result<Simplified, WritingError>
    ensures answered { let g = language_view language.now in let s = state_view state.now in
        IfOk result (λ a. verdicts.IsRightVerdict g s verdicts.some_valuation → IsAnswered g s a) }
    ensures refused { IfErr result (λ e. IsNoInjection e → meaning_of (language_view language.now) injection_name ≢ injection) }
    ensures wants { let g = language_view language.now in let s = state_view state.now in
        IfErr result (λ e. IsNoInjection e → verdicts.IsRightVerdict g s verdicts.some_valuation → WantsInjection g s) }
{
    let call = wide_in(alloc, language.signature, state)?;
    match call {
        Some(undecided) => Ok(Simplified::UndecidedStep { undecided }),
        None => written(alloc, language, state),
    }
}

/// What is answered of a well-formed state: nothing where its clauses can't be true, then the first of its calls that leaves 128
/// bits, what isn't decided, a term that is too deep, and else the state.
///
/// # Errors
/// `NoInjection` where an `inj` would stand in what is written that the signature doesn't have.
pub fn answer_of(
    alloc: Global,
    language: &Language,
    table: &HeadTable,
    state: &State,
) -> Result<Simplified, WritingError>
    requires { IsHeadTableOf (language_view language.now) table.now }
    ensures answered { let g = language_view language.now in let s = state_view state.now in IfOk result (λ a. IsWellFormed g s → IsAnswered g s a) }
    ensures refused { IfErr result (λ e. IsNoInjection e → meaning_of (language_view language.now) injection_name ≢ injection) }
    ensures wants { let g = language_view language.now in let s = state_view state.now in IfErr result (λ e. IsNoInjection e → IsWellFormed g s → WantsInjection g s) }
{
    let verdict = decide(alloc, language.signature, table, state)?;
    match verdict {
        Verdict::NoValuation => Ok(Simplified::Nothing),
        Verdict::SomeValuation => found(alloc, language, state),
        Verdict::Undecided { shown, over } => what_is_undecided(
            alloc, language, state, &shown, over,
        ),
    }
}
