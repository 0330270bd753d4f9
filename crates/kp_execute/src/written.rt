// States and predicates as a reply has them.
ghost use Rattle.std.specs.Prelude.{◌≡◌, IfErr, IfOk, option_map};
ghost use Rattle.kp_kore.specs.View.{view, sort_view};
ghost use Rattle.kp_results.specs.View as results;
ghost use Rattle.kp_signature.specs.View.{signature_view};
ghost use Rattle.kp_symbolic.specs.Writing.{InjectsWhereItStands, written_term};
ghost use Rattle.kp_symbolic.specs.Languages.{language_view};
ghost use Rattle.kp_symbolic.specs.View.{clauses_view, state_view};
ghost use Rattle.kp_outward.specs.Errors.{IsNoInjection};
ghost use Rattle.kp_execute.specs.Wants.{ClausesWant, StateWants, TermWants};
ghost use Rattle.kp_execute.specs.Written.{AreWritten, IsAddedWritten, IsStateWritten};

use kp_compile::{has_injection, injects};
use kp_kore::{Pattern, Sort};
use kp_outward::{WritingError, boxed_term, predicate_out};
use kp_results::ReplyState;
use kp_signature::Signature;
use kp_symbolic::{Clause, Language, State};
use std::alloc::Global;

/// The pattern, unless an `inj` stands in it that the signature doesn't have.
fn checked(
    alloc: Global,
    signature: &Signature,
    pattern: Box<Pattern>,
) -> Result<Box<Pattern>, WritingError>
    ensures same { IfOk result (λ p. view p.value ≡ view pattern.value) }
    ensures injects { IfOk result (λ p. InjectsWhereItStands (signature_view signature.now) (view p.value)) }
    ensures refused { IfErr result (λ e. IsNoInjection e → ¬ InjectsWhereItStands (signature_view signature.now) (view pattern.value)) }
{
    if has_injection(signature) {
        return Ok(pattern);
    }
    if injects(alloc, &pattern)? {
        return Err(WritingError::NoInjection);
    }
    Ok(pattern)
}

/// The state's term.
fn term_of(alloc: Global, language: &Language, state: &State) -> Result<Pattern, WritingError>
    ensures is { let g = language_view language.now in let s = state_view state.now in IfOk result (λ p. view p ≡ written_term g s.sort s.term) }
    ensures injects { IfOk result (λ p. InjectsWhereItStands (language_view language.now) (view p)) }
    ensures wants { IfErr result (λ e. IsNoInjection e → TermWants (language_view language.now) (state_view state.now)) }
{
    let term = boxed_term(alloc, language, &state.sort, &state.term)?;
    match checked(alloc, language.signature, term) {
        Ok(pattern) => Ok(Box::into_inner(pattern)),
        Err(error) => Err(error),
    }
}

/// The predicate of clauses, if there are any.
pub fn predicate_of(
    alloc: Global,
    language: &Language,
    sort: &Sort,
    clauses: &[Clause],
) -> Result<Option<Pattern>, WritingError>
    ensures written { IfOk result (λ o. AreWritten (language_view language.now) (sort_view sort.now) (clauses_view clauses.now) (option_map view o)) }
    ensures wants { IfErr result (λ e. IsNoInjection e → ClausesWant (language_view language.now) (sort_view sort.now) (clauses_view clauses.now)) }
{
    match predicate_out(alloc, language, sort, clauses) {
        Ok(Some(predicate)) => Ok(Some(Box::into_inner(predicate))),
        Ok(None) => Ok(None),
        Err(error) => Err(error),
    }
}

/// A state's term and predicate.
///
/// # Errors
/// `NoInjection` where an `inj` would stand in them that the signature doesn't have; `Shape` where a number in a predicate that
/// isn't opened can't be read.
pub fn state_parts(
    alloc: Global,
    language: &Language,
    state: &State,
) -> Result<ReplyState, WritingError>
    ensures written { IfOk result (λ x. IsStateWritten (language_view language.now) (state_view state.now) (results.state_view x)) }
    ensures wants { IfErr result (λ e. IsNoInjection e → StateWants (language_view language.now) (state_view state.now)) }
{
    let predicate = predicate_of(alloc, language, &state.sort, &state.clauses)?;
    match term_of(alloc, language, state) {
        Ok(term) => Ok(ReplyState { term, predicate }),
        Err(error) => Err(error),
    }
}

/// The predicate of the clauses that were added to a part of a state of this sort; `\top` where there are none.
///
/// # Errors
/// As of `state_parts`.
pub fn added_predicate(
    alloc: Global,
    language: &Language,
    sort: &Sort,
    clauses: &[Clause],
) -> Result<Pattern, WritingError>
    ensures written { IfOk result (λ q. IsAddedWritten (language_view language.now) (sort_view sort.now) (clauses_view clauses.now) (view q)) }
    ensures wants { IfErr result (λ e. IsNoInjection e → ClausesWant (language_view language.now) (sort_view sort.now) (clauses_view clauses.now)) }
{
    match predicate_of(alloc, language, sort, clauses)? {
        Some(predicate) => Ok(predicate),
        None => Ok(Pattern::Top {
            sort: sort.copy(alloc)?,
        }),
    }
}
