// A pattern read as a symbolic state: opened, and its equations solved.
ghost use Rattle.std.specs.Prelude.{◌≡◌, None, Option, Some, IfErr, IfOk, OnOk};
ghost use Rattle.kp_compile.specs.declared.error.CompileError.TheVariants.{Memory};
ghost use Rattle.kp_clauses.specs.Faults.{StateFault, state_fault};
ghost use Rattle.kp_clauses.specs.View.{IsToldOf, IsUnread};
ghost use Rattle.kp_kore.specs.View.{view, sort_view};
ghost use Rattle.kp_signature.specs.Verify.{VerifiesAs};
ghost use Rattle.kp_symbolic.specs.Solving.{Solving, IsReadAs, opened_state};
ghost use Rattle.kp_symbolic.specs.States.{SymbolicState, HasInstancesOf};
ghost use Rattle.kp_symbolic.specs.WellFormed.{IsWellFormed};
ghost use Rattle.kp_symbolic_laws.specs.Kept.{CanBeWritten};
ghost use Rattle.kp_symbolic_laws.specs.Runs.{ComesBy, IsSoundState, OfEachKept};
ghost use Rattle.kp_solving.specs.Readable.{IsReadable, IsWrittenFaultless};
ghost use Rattle.kp_symbolic.specs.Languages.{language_view};
ghost use Rattle.kp_symbolic.specs.View.{state_view};

use crate::solving::settle;
use kp_clauses::{TermFault, open_state};
use kp_compile::CompileError;
use kp_kore::{Pattern, Sort};
use kp_symbolic::{Language, State};
use std::alloc::Global;

/// What is told where the equations aren't solved: nothing of the pattern's shape.
fn unsolved(error: CompileError) -> TermFault
    ensures told { (first : Option StateFault) → IsToldOf first result }
    ensures read { error ≡ Memory → ¬ IsUnread result }
{
    match error {
        CompileError::Memory => TermFault::Memory,
        CompileError::Shape => TermFault::Unread,
    }
}

/// The state that was opened, its equations solved.
fn solved(alloc: Global, language: &Language, opened: State) -> Result<State, TermFault>
    ensures solving { IfOk result (λ s. Solving (language_view language.now) (state_view opened) (state_view s)) }
    ensures right { OnOk result (OfEachKept (language_view language.now) (CanBeWritten (language_view language.now)) (state_view opened)) }
    ensures refused { (first : Option StateFault) → IfErr result (IsToldOf first) }
    ensures unread { let g = language_view language.now in IfErr result (λ e. IsUnread e → ¬ ((s : SymbolicState) → ComesBy g (state_view opened) s → IsReadable g s)) }
{
    match settle(alloc, language, opened) {
        Ok(state) => Ok(state),
        Err(error) => Err(unsolved(error)),
    }
}

/// The state that a verified pattern of this sort is read as.
///
/// # Errors
/// T1 or T2 of the first thing from the left that can't stand in a state; `Unread` where a clause that solving keeps whole has a
/// verify fault, as it is written, and a number in it can't be read.
pub fn inward(
    alloc: Global,
    language: &Language,
    pattern: &Pattern,
    sort: Sort,
) -> Result<State, TermFault>
    ensures read { let g = language_view language.now in let pattern' = view pattern.now in VerifiesAs g pattern' (sort_view sort) → IfOk result (λ s. IsReadAs g pattern' (state_view s)) }
    ensures right { let g = language_view language.now in let p = view pattern.now in VerifiesAs g p (sort_view sort) → OnOk result ((o : SymbolicState) → opened_state g p ≡ Some o → OfEachKept g (CanBeWritten g) o) }
    ensures instances { let g = language_view language.now in let p = view pattern.now in VerifiesAs g p (sort_view sort) → IfOk result (λ s. IsSoundState g (state_view s) × HasInstancesOf g p (state_view s)) }
    ensures formed { let g = language_view language.now in VerifiesAs g (view pattern.now) (sort_view sort) → IfOk result (λ s. IsWellFormed g (state_view s)) }
    ensures clear { OnOk result (state_fault (language_view language.now) (view pattern.now) ≡ None) }
    ensures refused { IfErr result (IsToldOf (state_fault (language_view language.now) (view pattern.now))) }
    ensures unread { let g = language_view language.now in let p = view pattern.now in VerifiesAs g p (sort_view sort) → IfErr result (λ e. IsUnread e → ¬ ((o : SymbolicState) → opened_state g p ≡ Some o → OfEachKept g (IsWrittenFaultless g) o)) }
{
    match open_state(alloc, language, pattern, sort) {
        Ok(opened) => solved(alloc, language, opened),
        Err(error) => Err(error),
    }
}
