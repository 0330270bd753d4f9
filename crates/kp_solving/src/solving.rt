// A state with all its equations solved.
ghost use Rattle.std.specs.Prelude.{◌≡◌, Some, IfOk, IfErr, OnOk};
ghost use Rattle.std.specs.Option.{option_map};
ghost use Rattle.kp_compile.specs.declared.error.CompileError.TheVariants.{Memory};
ghost use Rattle.kp_symbolic.specs.Solving as model;
ghost use Rattle.kp_symbolic.specs.Solving.{Solving};
ghost use Rattle.kp_symbolic.specs.Languages.{language_view};
ghost use Rattle.kp_symbolic.specs.View.{state_view};
ghost use Rattle.kp_symbolic_laws.specs.Kept.{CanBeWritten};
ghost use Rattle.kp_symbolic.specs.States.{SymbolicState};
ghost use Rattle.kp_symbolic_laws.specs.Runs.{ComesBy, OfKeptAt, OfEachKept};
ghost use Rattle.kp_solving.specs.Readable.{IsReadable};

use crate::first_equation::first_solvable;
use crate::solved_equation::solve_at;
use kp_compile::CompileError;
use kp_symbolic::{Language, State};
use std::alloc::Global;

/// The state with its first equation that can be solved solved, if there is one.
fn solve_first(
    alloc: Global,
    language: &Language,
    state: &State,
) -> Result<Option<State>, CompileError>
    ensures solved { let g = language_view language.now in let s = state_view state.now in IfOk result (λ o. option_map state_view o ≡ option_map (λ e. model.solved_at g e s) (model.first_solvable g s)) }
    ensures right { let g = language_view language.now in let s = state_view state.now in OnOk result ((o : model.Solvable) → model.first_solvable g s ≡ Some o → OfKeptAt g (CanBeWritten g) s o) }
    ensures refused { IfErr result (λ e. IsReadable (language_view language.now) (state_view state.now) → e ≡ Memory) }
{
    match first_solvable(alloc, language.signature, state)? {
        Some(solvable) => {
            let solved = solve_at(alloc, language, state, solvable.place, &solvable.equation)?;
            Ok(Some(solved))
        }
        None => Ok(None),
    }
}

/// The state with the first of its equations that can be solved solved, until none can be. Where each state on the way has sums
/// that can be written and predicates without verify faults, it is refused for want of memory alone.
pub fn settle(alloc: Global, language: &Language, state: State) -> Result<State, CompileError>
    ensures solved { IfOk result (λ s. Solving (language_view language.now) (state_view state) (state_view s)) }
    ensures right { OnOk result (OfEachKept (language_view language.now) (CanBeWritten (language_view language.now)) (state_view state)) }
    ensures refused { IfErr result (λ e. ((s : SymbolicState) → ComesBy (language_view language.now) (state_view state) s → IsReadable (language_view language.now) s) → e ≡ Memory) }
{
    let mut settled = state;
    for _round in 0..u64::MAX {
        match solve_first(alloc, language, &settled)? {
            Some(solved) => settled = solved,
            None => return Ok(settled),
        }
    }
    Err(CompileError::Memory)
}
