// A state with terms in the place of variables.
ghost use Rattle.std.specs.Prelude.{◌≡◌, IfOk, IfErr, map};
ghost use Rattle.std.specs.List.{AllByRecursion};
ghost use Rattle.kp_compile.specs.declared.error.CompileError.TheVariants.{Memory};
ghost use Rattle.kp_kore.specs.View.{sort_view};
ghost use Rattle.kp_symbolic.specs.Languages.{language_view};
ghost use Rattle.kp_symbolic.specs.View.{clauses_view, literal_view, replaced_view, state_view};
ghost use Rattle.kp_clause_substitution.specs.Substituted as model;
ghost use Rattle.kp_clause_substitution.specs.Sums.{HasWrittenSums};
ghost use Rattle.kp_outward.specs.Errors.{AreFaultlessIn};
ghost use Rattle.kp_solving.specs.Readable.{IsReadable};

use crate::solved_equation::with_literals;
use crate::substitute_clause::substitute_clause;
use crate::substitute_variables::variables_under;
use kp_compile::CompileError;
use kp_formulas::joined::kept_once;
use kp_kore::Sort;
use kp_symbolic::{Clause, Language, Replaced, State};
use std::alloc::Global;

/// The clauses with terms in the place of variables, repeats included.
fn substitute_clauses(
    alloc: Global,
    language: &Language,
    sort: &Sort,
    by: &[Replaced],
    clauses: &[Clause],
) -> Result<Vec<Clause>, CompileError>
    ensures substituted { let substituted = model.substituted_clauses (language_view language.now) (sort_view sort.now) (map replaced_view by.now) 0 (clauses_view clauses.now) in IfOk result (λ cs. clauses_view cs.items ≡ substituted) }
    ensures refused { let g = language_view language.now in let cs = clauses.now in IfErr result (λ e. AllByRecursion (λ c. AllByRecursion (λ l. HasWrittenSums g (literal_view l).atom) c.literals.value.items) cs → AreFaultlessIn g cs → e ≡ Memory) }
{
    let mut found = Vec::new(alloc);
    let mut so_far: u64 = 0;
    for i in 0..clauses.len() {
        let mut substituted = substitute_clause(alloc, language, sort, by, so_far, &clauses[i])?;
        so_far = with_literals(so_far, &substituted);
        found.append(&mut substituted)?;
    }
    Ok(found)
}

/// The state with these terms in the place of the variables of their names, all at once; of two for one name the first. The
/// clauses in which one of the variables stands are opened again, and none is solved. Refused where a sum can't be written,
/// where a number in a predicate that isn't opened can't be read, or for want of memory.
pub fn substitute(
    alloc: Global,
    language: &Language,
    by: &[Replaced],
    state: &State,
) -> Result<State, CompileError>
    ensures substituted { IfOk result (λ s. state_view s ≡ model.substituted (language_view language.now) (map replaced_view by.now) (state_view state.now)) }
    ensures refused { IfErr result (λ e. IsReadable (language_view language.now) (state_view state.now) → e ≡ Memory) }
{
    let sort = state.sort.clone()?;
    let clauses = substitute_clauses(alloc, language, &sort, by, &state.clauses)?;
    let clauses = kept_once(alloc, clauses)?;
    let variables = variables_under(alloc, by, &state.variables)?;
    let term = state.term.replaced(alloc, language, by)?;
    Ok(State {
        term,
        sort,
        clauses,
        variables,
    })
}
