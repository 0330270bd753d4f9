// A pattern simplified.
ghost use Rattle.std.specs.Prelude.{◌≡◌, ◌≢◌, None, IfErr, IfOk, OnOk};
ghost use Rattle.kp_clauses.specs.Faults.{state_fault};
ghost use Rattle.kp_clauses.specs.View.{IsToldOf};
ghost use Rattle.kp_heads.specs.Made.{IsHeadTableOf};
ghost use Rattle.kp_kore.specs.Signature.{KoreSignature, injection, meaning_of};
ghost use Rattle.kp_kore.specs.Syntax.{KorePattern};
ghost use Rattle.kp_kore.specs.View.{view, sort_view};
ghost use Rattle.kp_outward.specs.Errors.{IsNoInjection};
ghost use Rattle.kp_signature.specs.Verify.{VerifiesAs};
ghost use Rattle.kp_compile.specs.Spelled.{injection_name};
ghost use Rattle.kp_symbolic.specs.WellFormed.{IsWellFormed};
ghost use Rattle.kp_symbolic.specs.Languages.{language_view};
ghost use Rattle.kp_symbolic.specs.View.{state_view};
ghost use Rattle.kp_simplify.specs.Told.{IsAnswered, IsFound, IsUnsimplified, LacksInjection, TellsNoInjection, WantsInjection};

use crate::answer::Simplified;
use crate::state_answer::answer_of;
use kp_clauses::TermFault;
use kp_heads::HeadTable;
use kp_kore::{Pattern, Sort};
use kp_outward::WritingError;
use kp_solving::inward;
use kp_symbolic::{Language, State};
use std::alloc::Global;

/// Why a pattern isn't simplified.
#[derive(Drop)]
pub enum SimplifyError {
    Memory,
    /// T1: a foreign symbol or an alias, by its name.
    ForeignSymbol { name: String },
    /// T2: not one term and predicates.
    OtherShape,
    /// An `inj` would stand in what is written, and the signature has none.
    NoInjection,
}

/// Why the pattern isn't read. The literals of a verified pattern can be read.
fn unread(error: TermFault) -> SimplifyError
    ensures told { (g : KoreSignature) (p : KorePattern) → IsToldOf (state_fault g p) error → IsUnsimplified g p result }
    ensures wants { ¬ TellsNoInjection result }
{
    match error {
        TermFault::Memory | TermFault::Unread => SimplifyError::Memory,
        TermFault::ForeignSymbol { name } => SimplifyError::ForeignSymbol { name },
        TermFault::OtherShape => SimplifyError::OtherShape,
    }
}

/// Why the answer isn't written. The numbers of a verified pattern can be read.
fn unwritten(error: WritingError) -> SimplifyError
    ensures told { (g : KoreSignature) (p : KorePattern) → (IsNoInjection error → meaning_of g injection_name ≢ injection) → IsUnsimplified g p result }
    ensures wants { TellsNoInjection result → IsNoInjection error }
{
    match error {
        WritingError::Memory | WritingError::Shape => SimplifyError::Memory,
        WritingError::NoInjection => SimplifyError::NoInjection,
    }
}

/// What is answered of the state that was read.
fn answered(
    alloc: Global,
    language: &Language,
    table: &HeadTable,
    state: &State,
) -> Result<Simplified, SimplifyError>
    requires { IsHeadTableOf (language_view language.now) table.now }
    ensures found { let g = language_view language.now in let s = state_view state.now in IfOk result (λ a. IsWellFormed g s → IsAnswered g s a) }
    ensures refused { let g = language_view language.now in IfErr result (λ e. (p : KorePattern) → IsUnsimplified g p e) }
    ensures wants { let g = language_view language.now in let s = state_view state.now in IfErr result (λ e. TellsNoInjection e → IsWellFormed g s → WantsInjection g s) }
{
    match answer_of(alloc, language, table, state) {
        Ok(simplified) => Ok(simplified),
        Err(error) => Err(unwritten(error)),
    }
}

/// The same, the state let go.
fn finished(
    alloc: Global,
    language: &Language,
    table: &HeadTable,
    state: State,
) -> Result<Simplified, SimplifyError>
    requires { IsHeadTableOf (language_view language.now) table.now }
    ensures found { let g = language_view language.now in let s = state_view state in IfOk result (λ a. IsWellFormed g s → IsAnswered g s a) }
    ensures refused { let g = language_view language.now in IfErr result (λ e. (p : KorePattern) → IsUnsimplified g p e) }
    ensures wants { let g = language_view language.now in let s = state_view state in IfErr result (λ e. TellsNoInjection e → IsWellFormed g s → WantsInjection g s) }
{
    answered(alloc, language, table, &state)
}

/// What simplify answers of a verified pattern of this sort, over the table of its signature's heads.
///
/// # Errors
/// T1 or T2 of the first thing from the left that can't stand in a state; `NoInjection` where an `inj` would stand in what is
/// written that the signature doesn't have.
pub fn simplify(
    alloc: Global,
    language: &Language,
    table: &HeadTable,
    pattern: &Pattern,
    sort: Sort,
) -> Result<Simplified, SimplifyError>
    requires { IsHeadTableOf (language_view language.now) table.now }
    ensures found { let g = language_view language.now in let p = view pattern.now in VerifiesAs g p (sort_view sort) → IfOk result (IsFound g p) }
    ensures clear { OnOk result (state_fault (language_view language.now) (view pattern.now) ≡ None) }
    ensures refused { IfErr result (IsUnsimplified (language_view language.now) (view pattern.now)) }
    ensures wants { let g = language_view language.now in let p = view pattern.now in VerifiesAs g p (sort_view sort) → IfErr result (λ e. TellsNoInjection e → LacksInjection g p) }
{
    match inward(alloc, language, pattern, sort) {
        Ok(state) => finished(alloc, language, table, state),
        Err(error) => Err(unread(error)),
    }
}
