// Predicates and states as patterns.
ghost use Rattle.std.specs.Prelude.{◌≡◌, ◌↔◌, List, IfOk, IfErr, OnOk, map};
ghost use Rattle.std.specs.List.{AllByRecursion, AllZip};
ghost use Rattle.kp_compile.specs.declared.error.CompileError.TheVariants.{Memory};
ghost use Rattle.std.specs.Option.{option_map};
ghost use Rattle.kp_kore.specs.Parts.{free_variables};
ghost use Rattle.kp_kore.specs.View.{view, sort_view};
ghost use Rattle.kp_kore.specs.Instance.{Valuation, GivesSorts, IsInstance};
ghost use Rattle.kp_kore.specs.Value.{Value};
ghost use Rattle.kp_signature.specs.View.{signature_view};
ghost use Rattle.kp_symbolic.specs.States as states;
ghost use Rattle.kp_symbolic.specs.States.{IsStateInstance};
ghost use Rattle.kp_symbolic.specs.WellFormed.{AreAtHand};
ghost use Rattle.kp_symbolic_laws.specs.Runs.{HasRoomClause, IsSoundState};
ghost use Rattle.kp_symbolic.specs.Writing.{InjectsWhereItStands, written_clause, written_predicate, written_state};
ghost use Rattle.kp_symbolic.specs.Languages.{language_view};
ghost use Rattle.kp_symbolic.specs.View.{clauses_view, state_view};
ghost use Rattle.kp_outward.specs.Arranged.{AreArranged, IsSpelledClause, with_clauses};
ghost use Rattle.kp_outward.specs.Errors.{AreFaultless, AreFaultlessIn, InjectsIfThere, IsNoInjection, IsUnread};
ghost use Rattle.kp_outward.specs.View.{patterns_in};

use crate::boxed_term;
use crate::clause::clause_out;
use crate::error::WritingError;
use crate::joined::{all_out, beside_out};
use crate::order::{each_once, put_in_order};
use crate::texts::{Spelled, spell};
use kp_compile::{CompileError, has_injection, injects};
use kp_kore::{Pattern, Sort};
use kp_signature::Signature;
use kp_symbolic::{Clause, Language, State};
use std::alloc::{AllocError, Global};

/// The clauses as predicates.
fn clauses_out(
    alloc: Global,
    language: &Language,
    sort: &Sort,
    clauses: &[Clause],
) -> Result<Vec<Spelled>, CompileError>
    ensures written { let g = language_view language.now in IfOk result (λ ps. AllZip (IsSpelledClause g (sort_view sort.now)) clauses.now ps.items) }
    ensures room { OnOk result (AllByRecursion (HasRoomClause (language_view language.now)) (clauses_view clauses.now)) }
    ensures refused { IfErr result (λ e. AreFaultlessIn (language_view language.now) clauses.now → e ≡ Memory) }
{
    let mut found = Vec::new(alloc);
    for clause in clauses {
        found.push(spell(alloc, clause_out(alloc, language, sort, clause)?)?)?;
    }
    Ok(found)
}

/// The clauses as predicates in the order of their texts, each once.
fn arranged_out(
    alloc: Global,
    language: &Language,
    sort: &Sort,
    clauses: &[Clause],
) -> Result<Vec<Spelled>, CompileError>
    ensures written { let g = language_view language.now in let s = sort_view sort.now in IfOk result (λ ps. (ds : List (List states.Literal)) × AreArranged g s (clauses_view clauses.now) ds × (patterns_in ps.items ≡ map (written_clause g s) ds)) }
    ensures room { OnOk result (AllByRecursion (HasRoomClause (language_view language.now)) (clauses_view clauses.now)) }
    ensures refused { IfErr result (λ e. AreFaultlessIn (language_view language.now) clauses.now → e ≡ Memory) }
{
    let mut spelled = clauses_out(alloc, language, sort, clauses)?;
    put_in_order(&mut spelled);
    Ok(each_once(alloc, spelled)?)
}

/// The pattern, unless an `inj` stands in it that the signature doesn't have.
fn checked(
    alloc: Global,
    signature: &Signature,
    pattern: Box<Pattern>,
) -> Result<Box<Pattern>, WritingError>
    ensures same { IfOk result (λ p. view p.value ≡ view pattern.value) }
    ensures injects { IfOk result (λ p. InjectsWhereItStands (signature_view signature.now) (view p.value)) }
    ensures refused { IfErr result (λ e. IsNoInjection e → ¬ InjectsWhereItStands (signature_view signature.now) (view pattern.value)) }
    ensures read { IfErr result (λ e. ¬ IsUnread e) }
{
    if has_injection(signature) {
        return Ok(pattern);
    }
    if injects(alloc, &pattern)? {
        return Err(WritingError::NoInjection);
    }
    Ok(pattern)
}

/// The pattern, if there is one, unless an `inj` stands in it that the signature doesn't have.
fn checked_if_any(
    alloc: Global,
    signature: &Signature,
    pattern: Option<Box<Pattern>>,
) -> Result<Option<Box<Pattern>>, WritingError>
    ensures same { IfOk result (λ o. option_map (λ p. view p.value) o ≡ option_map (λ p. view p.value) pattern) }
    ensures injects { IfOk result (λ o. InjectsIfThere (signature_view signature.now) (option_map (λ p. view p.value) o)) }
    ensures refused { IfErr result (λ e. IsNoInjection e → ¬ InjectsIfThere (signature_view signature.now) (option_map (λ p. view p.value) pattern)) }
    ensures read { IfErr result (λ e. ¬ IsUnread e) }
{
    match pattern {
        Some(pattern) => match checked(alloc, signature, pattern) {
            Ok(pattern) => Ok(Some(pattern)),
            Err(error) => Err(error),
        },
        None => Ok(None),
    }
}

/// The predicate as it is written, whether or not the signature has `inj`.
fn predicate_unchecked(
    alloc: Global,
    language: &Language,
    sort: &Sort,
    clauses: &[Clause],
) -> Result<Option<Box<Pattern>>, CompileError>
    ensures written { let g = language_view language.now in let s = sort_view sort.now in IfOk result (λ o. (ds : List (List states.Literal)) × AreArranged g s (clauses_view clauses.now) ds × (option_map (λ p. view p.value) o ≡ written_predicate g s ds)) }
    ensures room { OnOk result (AllByRecursion (HasRoomClause (language_view language.now)) (clauses_view clauses.now)) }
    ensures refused { IfErr result (λ e. AreFaultlessIn (language_view language.now) clauses.now → e ≡ Memory) }
{
    let spelled = arranged_out(alloc, language, sort, clauses)?;
    Ok(all_out(alloc, sort, spelled)?)
}

/// The predicate that says that all of these clauses are true: their `\and` in the order of their texts, each once; one alone,
/// and none where there is none.
///
/// # Errors
/// `NoInjection` where an `inj` would stand in it that the signature doesn't have; `Shape` where a number in a predicate that
/// isn't opened, and has a verify fault, can't be read.
pub fn predicate_out(
    alloc: Global,
    language: &Language,
    sort: &Sort,
    clauses: &[Clause],
) -> Result<Option<Box<Pattern>>, WritingError>
    ensures written { let g = language_view language.now in let s = sort_view sort.now in IfOk result (λ o. (ds : List (List states.Literal)) × AreArranged g s (clauses_view clauses.now) ds × (option_map (λ p. view p.value) o ≡ written_predicate g s ds)) }
    ensures injects { IfOk result (λ o. InjectsIfThere (language_view language.now) (option_map (λ p. view p.value) o)) }
    ensures room { OnOk result (AllByRecursion (HasRoomClause (language_view language.now)) (clauses_view clauses.now)) }
    ensures refused { let g = language_view language.now in let s = sort_view sort.now in IfErr result (λ e. IsNoInjection e → (ds : List (List states.Literal)) × AreArranged g s (clauses_view clauses.now) ds × ¬ InjectsIfThere g (written_predicate g s ds)) }
    ensures unread { IfErr result (λ e. IsUnread e → ¬ AreFaultless (language_view language.now) (clauses_view clauses.now)) }
{
    let predicate = predicate_unchecked(alloc, language, sort, clauses)?;
    checked_if_any(alloc, language.signature, predicate)
}

/// The state as it is written, whether or not the signature has `inj`.
fn unchecked(
    alloc: Global,
    language: &Language,
    state: &State,
) -> Result<Box<Pattern>, CompileError>
    ensures written { let g = language_view language.now in let s = state_view state.now in IfOk result (λ p. (ds : List (List states.Literal)) × AreArranged g s.sort s.clauses ds × (view p.value ≡ written_state g (with_clauses s ds))) }
    ensures room { OnOk result (AllByRecursion (HasRoomClause (language_view language.now)) (state_view state.now).clauses) }
    ensures refused { IfErr result (λ e. AreFaultlessIn (language_view language.now) state.now.clauses.items → e ≡ Memory) }
{
    let spelled = arranged_out(alloc, language, &state.sort, &state.clauses)?;
    let term = boxed_term(alloc, language, &state.sort, &state.term)?;
    Ok(beside_out(alloc, &state.sort, term, spelled)?)
}

/// A state as a pattern: the term alone, or the `\and` of the term and the clauses in the order of their texts, each once.
///
/// # Errors
/// `NoInjection` where an `inj` would stand in it that the signature doesn't have; `Shape` where a number in a predicate that
/// isn't opened, and has a verify fault, can't be read.
pub fn state_out(
    alloc: Global,
    language: &Language,
    state: &State,
) -> Result<Box<Pattern>, WritingError>
    ensures written { let g = language_view language.now in let s = state_view state.now in IfOk result (λ p. (ds : List (List states.Literal)) × AreArranged g s.sort s.clauses ds × (view p.value ≡ written_state g (with_clauses s ds))) }
    ensures injects { IfOk result (λ p. InjectsWhereItStands (language_view language.now) (view p.value)) }
    ensures room { OnOk result (AllByRecursion (HasRoomClause (language_view language.now)) (state_view state.now).clauses) }
    ensures instances { let g = language_view language.now in let s = state_view state.now in IfOk result (λ p. IsSoundState g s → (v : Valuation) (u : Value) → GivesSorts g v s.variables → IsInstance g v (view p.value) u ↔ IsStateInstance g v s u) }
    ensures variables { let g = language_view language.now in let s = state_view state.now in IfOk result (λ p. IsSoundState g s → AreAtHand (free_variables (view p.value)) s.variables) }
    ensures refused { let g = language_view language.now in let s = state_view state.now in IfErr result (λ e. IsNoInjection e → (ds : List (List states.Literal)) × AreArranged g s.sort s.clauses ds × ¬ InjectsWhereItStands g (written_state g (with_clauses s ds))) }
    ensures unread { IfErr result (λ e. IsUnread e → ¬ AreFaultless (language_view language.now) (state_view state.now).clauses) }
{
    let pattern = unchecked(alloc, language, state)?;
    checked(alloc, language.signature, pattern)
}
