// The state that a request gives.
ghost use Rattle.std.specs.Prelude.{◌≡◌, [], IfErr, IfOk, OnOk, IsTrue, true, false, Some, None, string_bytes};
ghost use Rattle.std.specs.List.{filter_map};
ghost use Rattle.std.specs.Option.{option_map};
ghost use Rattle.kp_kore.specs.Parts.{is_term as term_test, free_variables};
ghost use Rattle.kp_kore.specs.View.{view, sort_view};
ghost use Rattle.kp_signature.specs.View.{signature_view};
ghost use Rattle.kp_signature.specs.Places.{Place};
ghost use Rattle.kp_signature.specs.Verify.{VerifiesAs, first_fault};
ghost use Rattle.kp_kore.specs.Instance.{Valuation, instance};
ghost use Rattle.kp_kore.specs.Numbers.{computes_wide};
ghost use Rattle.kp_ground.specs.Slots.{term_reads};
ghost use Rattle.kp_ground.specs.Terms.{stays_narrow, term_value};
ghost use Rattle.kp_ground.specs.TermView.{term_view};
ghost use Rattle.kp_ground.specs.View.{value_view};
ghost use Rattle.kp_compile.specs.Parts.{seen};
ghost use Rattle.kp_compile.specs.declared.error.CompileError.TheVariants as compiling;
ghost use Rattle.kp_compile.specs.declared.state_error.StateError.TheVariants.{OtherShape};
ghost use Rattle.kp_compile.specs.Spelled.{IsGroundState, IsOtherShape, first_member, first_foreign as first_foreign_in, foreign_name as foreign_name_at};
ghost use Rattle.kp_compile.specs.States.{IsNoForeign, IsTold};
ghost use Rattle.kp_compile.specs.Verified.{HasMeanings};

use crate::state_error::StateError;
use crate::{CompileError, compile_term, is_term, no_names, subpatterns};
use kp_ground::{CompiledTerm, EvaluationError, Value};
use kp_kore::{Name, Pattern, Sort};
use kp_signature::{Meaning, Signature, meaning_of};
use std::alloc::{AllocError, Global};

/// A configuration and the sort that it is written at.
pub struct GroundState {
    pub value: Value,
    pub sort: Sort,
}

// Written out: a derived one is proved again in each crate that owns such a value.
impl Drop for GroundState {
    fn drop(self) {
        let GroundState {
            value: _value,
            sort: _sort,
        } = self;
    }
}

/// The state that a verified pattern of this sort is: T1 of the first foreign symbol that stands in it, then T2 where it
/// isn't one ground term or a number leaves 128 bits.
pub fn state_of(
    alloc: Global,
    signature: &Signature,
    pattern: &Pattern,
    sort: Sort,
) -> Result<GroundState, StateError>
    ensures state { let g = signature_view signature.now in let sort' = sort_view sort in let pattern' = view pattern.now in VerifiesAs g pattern' sort' → IfOk result (λ state. IsGroundState g pattern' (sort_view state.sort) (value_view state.value)) }
    ensures sort { IfOk result (λ state. state.sort ≡ sort) }
    ensures no_foreign { OnOk result (first_foreign_in (signature_view signature.now) (view pattern.now) ≡ None) }
    ensures refused { IfErr result (IsTold (first_foreign_in (signature_view signature.now) (view pattern.now))) }
    ensures other_shape { let g = signature_view signature.now in VerifiesAs g (view pattern.now) (sort_view sort) → IfErr result (λ e. e ≡ OtherShape → IsOtherShape g (view pattern.now)) }
    ensures shape { IfOk result (λ _. ¬ IsOtherShape (signature_view signature.now) (view pattern.now)) }
{
    match first_foreign(alloc, signature, pattern)? {
        Some(name) => Err(StateError::ForeignSymbol { name }),
        None => Ok(GroundState {
            value: value_of(alloc, signature, pattern)?,
            sort,
        }),
    }
}

/// The first foreign symbol that stands in a pattern.
pub fn first_foreign(
    alloc: Global,
    signature: &Signature,
    pattern: &Pattern,
) -> Result<Option<Name>, AllocError>
    ensures { IfOk result (λ o. option_map string_bytes o ≡ first_foreign_in (signature_view signature.now) (view pattern.now)) }
{
    let parts = subpatterns(alloc, pattern)?;
    match first_name(signature, &parts) {
        Some(name) => Ok(Some(name.clone()?)),
        None => Ok(None),
    }
}

/// The first foreign symbol at the head of one of these patterns.
fn first_name<'a>(signature: &Signature, parts: &[&'a Pattern]) -> Option<&'a Name>
    ensures { option_map (λ n. string_bytes n.now) result ≡ first_member (filter_map (foreign_name_at (signature_view signature.now)) (seen parts.now)) }
{
    for i in 0..parts.len() {
        if let Some(name) = foreign_name(signature, parts[i]) {
            return Some(name);
        }
    }
    None
}

/// The foreign symbol of an application.
fn foreign_name<'a>(signature: &Signature, pattern: &'a Pattern) -> Option<&'a Name>
    ensures { option_map (λ n. string_bytes n.now) result ≡ foreign_name_at (signature_view signature.now) (view pattern.now) }
{
    match pattern {
        Pattern::Application { symbol, .. } => match meaning_of(signature, symbol) {
            Meaning::Foreign => Some(symbol),
            Meaning::Injection | Meaning::Constructor | Meaning::Interpreted(_) => None,
        },
        _ => None,
    }
}

/// The value of one ground term; T2 of another pattern.
fn value_of(alloc: Global, signature: &Signature, pattern: &Pattern) -> Result<Value, StateError>
    ensures term { OnOk result (IsTrue (term_test (view pattern.now))) }
    ensures closed { OnOk result (free_variables (view pattern.now) ≡ []) }
    ensures meant { IfOk result (λ u. (v : Valuation) → instance (signature_view signature.now) v (view pattern.now) ≡ value_view u) }
    ensures narrow { OnOk result ((v : Valuation) → computes_wide (signature_view signature.now) v (view pattern.now) ≡ false) }
    ensures refused { IfErr result IsNoForeign }
    ensures other_shape { (c : Place) → let g = signature_view signature.now in let pattern' = view pattern.now in first_fault g c pattern' ≡ None → HasMeanings g pattern' → IfErr result (λ e. e ≡ OtherShape → IsOtherShape g pattern') }
{
    if !is_term(pattern) {
        return Err(StateError::OtherShape);
    }
    if !pattern.free_vars(alloc)?.is_empty() {
        return Err(StateError::OtherShape);
    }
    match compile_term(alloc, signature, &no_names(alloc), pattern) {
        Ok(term) => evaluated(alloc, &term),
        Err(error) => Err(refused(error)),
    }
}

/// Want of memory, or T2.
fn refused(error: CompileError) -> StateError
    ensures none_foreign { IsNoForeign result }
    ensures other_shape { result ≡ OtherShape → ¬ (error ≡ compiling.Memory) }
{
    match error {
        CompileError::Memory => StateError::Memory,
        CompileError::Shape => StateError::OtherShape,
    }
}

/// The value of a term without variables.
fn evaluated(alloc: Global, term: &CompiledTerm) -> Result<Value, StateError>
    requires { term_reads [] term.now ≡ true }
    ensures meant { IfOk result (λ u. (v : Valuation) → value_view u ≡ term_value v (term_view term.now)) }
    ensures narrow { OnOk result ((v : Valuation) → stays_narrow v (term_view term.now) ≡ true) }
    ensures refused { IfErr result IsNoForeign }
    ensures wide { IfErr result (λ e. e ≡ OtherShape → (v : Valuation) → stays_narrow v (term_view term.now) ≡ false) }
{
    match term.evaluate(alloc, &[]) {
        Ok(value) => Ok(value),
        Err(EvaluationError::Number) => Err(StateError::OtherShape),
        Err(EvaluationError::Memory) => Err(StateError::Memory),
    }
}
