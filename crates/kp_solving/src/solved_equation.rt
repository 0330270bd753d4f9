// A state in which one equation is solved.
ghost use Rattle.std.specs.Prelude.{◌≡◌, ◌+◌, min, false, Some, IfOk, IfErr, OnOk, map};
ghost use Rattle.std.specs.List.{AllByRecursion};
ghost use Rattle.kp_compile.specs.declared.error.CompileError.TheVariants.{Memory};
ghost use Rattle.kp_kore.specs.View.{sort_view};
ghost use Rattle.kp_symbolic.specs.Solving as model;
ghost use Rattle.kp_symbolic_laws.specs.Runs.{IfKeptWhole, OfKeptWhole, OfKeptAt};
ghost use Rattle.kp_symbolic_laws.specs.Kept.{CanBeWritten, CanBeWrittenAt};
ghost use Rattle.kp_symbolic.specs.Languages.{language_view};
ghost use Rattle.kp_symbolic.specs.View.{clause_view, clauses_view, literal_view, replaced_view, state_view};
ghost use Rattle.kp_formulas.specs.Distribution.{most_counted};
ghost use Rattle.kp_literals.specs.Equations.{equation_view};
ghost use Rattle.kp_solving.specs.Solvables.{solved_or_kept, solvable_of};
ghost use Rattle.kp_solving.specs.Readable.{IsReadable};
ghost use Rattle.kp_outward.specs.Errors.{AreFaultlessIn};
ghost use Rattle.kp_clause_substitution.specs.Sums.{HasWrittenSums};
ghost use Rattle.kp_outward.specs.Parts.{IsFaultlessAtom};

use crate::clause::{clause_alone, replacement, solve_clause};
use crate::first_equation::literals_in;
use crate::size::is_too_large;
use kp_compile::CompileError;
use kp_formulas::count::at_most;
use kp_formulas::joined::kept_once;
use kp_kore::Sort;
use kp_literals::equation::Equation;
use kp_symbolic::state::share_variables;
use kp_symbolic::{Clause, Language, Replaced, State};
use std::alloc::Global;
use std::sync::Arc;

/// The literals of clauses behind so many, up to one more than a state may have.
pub fn with_literals(so_far: u64, clauses: &[Clause]) -> u64
    ensures { result ≡ min (so_far + model.literals_in (clauses_view clauses.now)) most_counted }
{
    at_most(so_far.saturating_add(literals_in(clauses) as u64))
}

/// The equation's own clause as it stands, and another with the equation solved in it, behind so many literals.
fn solve_or_keep(
    alloc: Global,
    language: &Language,
    sort: &Sort,
    equation: &Equation<'_>,
    by: &Arc<Vec<Replaced>>,
    so_far: u64,
    own: bool,
    clause: &Clause,
) -> Result<Vec<Clause>, CompileError>
    requires { map replaced_view by.now.value.items ≡ model.replacement (equation_view equation.now) }
    ensures solved { let e = equation_view equation.now in let solved = solved_or_kept (language_view language.now) (sort_view sort.now) e so_far own (clause_view clause.now) in IfOk result (λ cs. clauses_view cs.items ≡ solved) }
    ensures right { let g = language_view language.now in let e = equation_view equation.now in OnOk result (own ≡ false → IfKeptWhole g e (CanBeWrittenAt g (sort_view sort.now)) so_far (clause_view clause.now)) }
    ensures refused { let g = language_view language.now in let ls = clause.now.literals.value.items in IfErr result (λ e. AllByRecursion (λ l. HasWrittenSums g (literal_view l).atom) ls → AllByRecursion (λ l. IsFaultlessAtom g (literal_view l).atom) ls → e ≡ Memory) }
{
    if own {
        return Ok(clause_alone(alloc, clause)?);
    }
    solve_clause(alloc, language, sort, equation, by, so_far, clause)
}

/// The clauses with the equation of the one at this place solved in the others.
fn solve_clauses(
    alloc: Global,
    language: &Language,
    sort: &Sort,
    equation: &Equation<'_>,
    by: &Arc<Vec<Replaced>>,
    place: usize,
    clauses: &[Clause],
) -> Result<Vec<Clause>, CompileError>
    requires { map replaced_view by.now.value.items ≡ model.replacement (equation_view equation.now) }
    ensures solved { let e = equation_view equation.now in let solved = model.solved_clauses (language_view language.now) (sort_view sort.now) e 0 (Some place) (clauses_view clauses.now) in IfOk result (λ cs. clauses_view cs.items ≡ solved) }
    ensures right { let g = language_view language.now in let e = equation_view equation.now in OnOk result (OfKeptWhole g (sort_view sort.now) e (CanBeWrittenAt g (sort_view sort.now)) 0 (Some place) (clauses_view clauses.now)) }
    ensures refused { let g = language_view language.now in let cs = clauses.now in IfErr result (λ e. AllByRecursion (λ c. AllByRecursion (λ l. HasWrittenSums g (literal_view l).atom) c.literals.value.items) cs → AreFaultlessIn g cs → e ≡ Memory) }
{
    let mut found = Vec::new(alloc);
    let mut so_far: u64 = 0;
    for i in 0..clauses.len() {
        let own = i == place;
        let mut solved = solve_or_keep(
            alloc,
            language,
            sort,
            equation,
            by,
            so_far,
            own,
            &clauses[i],
        )?;
        so_far = with_literals(so_far, &solved);
        found.append(&mut solved)?;
    }
    Ok(found)
}

/// The state with the equation of the clause at this place solved: the term stands in the variable's place in its term and
/// in the other clauses. A state whose sums can be written and whose predicates have no verify fault is refused for want of
/// memory alone, as where it gets too many parts.
pub fn solve_at(
    alloc: Global,
    language: &Language,
    state: &State,
    place: usize,
    equation: &Equation<'_>,
) -> Result<State, CompileError>
    ensures solved { let o = solvable_of place (equation_view equation.now) in IfOk result (λ s. state_view s ≡ model.solved_at (language_view language.now) o (state_view state.now)) }
    ensures right { let g = language_view language.now in OnOk result (OfKeptAt g (CanBeWritten g) (state_view state.now) (solvable_of place (equation_view equation.now))) }
    ensures refused { IfErr result (λ e. IsReadable (language_view language.now) (state_view state.now) → e ≡ Memory) }
{
    let by = replacement(alloc, equation)?;
    let sort = state.sort.clone()?;
    let clauses = solve_clauses(alloc, language, &sort, equation, &by, place, &state.clauses)?;
    let term = state.term.replaced(alloc, language, &by)?;
    if is_too_large(alloc, &term, &clauses) {
        return Err(CompileError::Memory);
    }
    let clauses = kept_once(alloc, clauses)?;
    let variables = share_variables(alloc, &state.variables)?;
    Ok(State {
        term,
        sort,
        clauses,
        variables,
    })
}
