// A state in which a variable is a term: it stands in the variable's place, and a clause says so.
ghost use Rattle.std.specs.Prelude.{◌≡◌, ◌++◌, ◌∷◌, [], IfOk, map};
ghost use Rattle.std.specs.List.{flat_map};
ghost use Rattle.kp_symbolic.specs.Clauses.{without_repeats};
ghost use Rattle.kp_symbolic.specs.Solving as solving;
ghost use Rattle.kp_symbolic.specs.Languages.{language_view};
ghost use Rattle.kp_symbolic.specs.View.{clause_view, clauses_view, replaced_view, state_view, variables_view};
ghost use Rattle.kp_literals.specs.Equations.{equation_view};
ghost use Rattle.kp_case_laws.specs.Narrowings.{put_clause};
ghost use Rattle.kp_unify.specs.Narrowed as model;

use crate::literals::{clauses_of, is_room};
use kp_clause_substitution::open_clause;
use kp_compile::CompileError;
use kp_formulas::joined::kept_once;
use kp_literals::equation::Equation;
use kp_literals::names::some_has_name;
use kp_symbolic::state::share_variables;
use kp_symbolic::{Clause, Language, Replaced, State, Variable};
use std::alloc::{AllocError, Global};
use std::sync::Arc;

/// Both lists of clauses, the second behind the first, sharing them.
pub fn behind(alloc: Global, first: &[Clause], second: &[Clause]) -> Result<Vec<Clause>, AllocError>
    ensures { IfOk result (λ cs. clauses_view cs.items ≡ clauses_view first.now ++ clauses_view second.now) }
{
    let mut clauses = Clause::share_all(alloc, first)?;
    let mut more = Clause::share_all(alloc, second)?;
    clauses.append(&mut more)?;
    Ok(clauses)
}

/// The term of an equation in its variable's place, as a list of one.
pub fn replacement(alloc: Global, equation: &Equation<'_>) -> Result<Vec<Replaced>, AllocError>
    ensures { IfOk result (λ by. map replaced_view by.items ≡ solving.replacement (equation_view equation.now)) }
{
    let one = Replaced {
        name: Arc::new(alloc, equation.variable.name.clone()?)?,
        term: equation.term.share(alloc)?,
    };
    let mut replaced = Vec::new(alloc);
    replaced.push(one)?;
    Ok(replaced)
}

/// A clause alone.
fn clause_alone(alloc: Global, clause: &Clause) -> Result<Vec<Clause>, AllocError>
    ensures { IfOk result (λ cs. clauses_view cs.items ≡ clause_view clause.now ∷ []) }
{
    let mut clauses = Vec::new(alloc);
    clauses.push(clause.share()?)?;
    Ok(clauses)
}

/// The clauses of a clause with the term in the variable's place, opened again; as it stands where that makes too many
/// literals.
fn put_opened(
    alloc: Global,
    language: &Language,
    equation: &Equation<'_>,
    by: &[Replaced],
    clause: &Clause,
) -> Result<Vec<Clause>, CompileError>
    requires { map replaced_view by.now ≡ solving.replacement (equation_view equation.now) }
    ensures { IfOk result (λ cs. clauses_view cs.items ≡ model.put_opened (language_view language.now) (equation_view equation.now) (clause_view clause.now)) }
{
    let opened = open_clause(alloc, language, by, clause)?;
    if is_room(&opened) {
        return Ok(clauses_of(opened));
    }
    Ok(clause_alone(alloc, clause)?)
}

/// The same where the variable stands in the clause; another clause is shared.
fn put_in_clause(
    alloc: Global,
    language: &Language,
    equation: &Equation<'_>,
    by: &[Replaced],
    clause: &Clause,
) -> Result<Vec<Clause>, CompileError>
    requires { map replaced_view by.now ≡ solving.replacement (equation_view equation.now) }
    ensures { let e = equation_view equation.now in IfOk result (λ cs. clauses_view cs.items ≡ put_clause (language_view language.now) e (clause_view clause.now)) }
{
    if some_has_name(alloc, &clause.literals, &equation.variable.name)? {
        return put_opened(alloc, language, equation, by, clause);
    }
    Ok(clause_alone(alloc, clause)?)
}

/// The same of each clause.
fn put_in_clauses(
    alloc: Global,
    language: &Language,
    equation: &Equation<'_>,
    by: &[Replaced],
    clauses: &[Clause],
) -> Result<Vec<Clause>, CompileError>
    requires { map replaced_view by.now ≡ solving.replacement (equation_view equation.now) }
    ensures { IfOk result (λ cs. clauses_view cs.items ≡ flat_map (put_clause (language_view language.now) (equation_view equation.now)) (clauses_view clauses.now)) }
{
    let mut found = Vec::new(alloc);
    for clause in clauses {
        let mut put = put_in_clause(alloc, language, equation, by, clause)?;
        found.append(&mut put)?;
    }
    Ok(found)
}

/// The clauses with further ones behind them, each once.
pub fn kept_with(
    alloc: Global,
    first: &[Clause],
    second: &[Clause],
) -> Result<Vec<Clause>, AllocError>
    ensures { IfOk result (λ cs. clauses_view cs.items ≡ without_repeats (clauses_view first.now ++ clauses_view second.now)) }
{
    kept_once(alloc, behind(alloc, first, second)?)
}

/// The variables with new ones behind them.
fn with_variables(
    alloc: Global,
    variables: &[Arc<Variable>],
    new: &[Arc<Variable>],
) -> Result<Vec<Arc<Variable>>, AllocError>
    ensures { IfOk result (λ xs. variables_view xs.items ≡ variables_view variables.now ++ variables_view new.now) }
{
    let mut all = share_variables(alloc, variables)?;
    let mut more = share_variables(alloc, new)?;
    all.append(&mut more)?;
    Ok(all)
}

/// The state in which the equation's variable is its term, of new variables: the term stands in the variable's place, and the
/// clauses that say so stand behind the others. Refused where a sum can't be written, or for want of memory.
pub fn put_term(
    alloc: Global,
    language: &Language,
    state: &State,
    equation: &Equation<'_>,
    is: &[Clause],
    new: &[Arc<Variable>],
) -> Result<State, CompileError>
    ensures { let e = equation_view equation.now in let is' = clauses_view is.now in let new' = variables_view new.now in
        IfOk result (λ s. state_view s ≡ model.state_with_term (language_view language.now) e is' new' (state_view state.now)) }
{
    let by = replacement(alloc, equation)?;
    let clauses = put_in_clauses(alloc, language, equation, &by, &state.clauses)?;
    let clauses = kept_with(alloc, &clauses, is)?;
    let variables = with_variables(alloc, &state.variables, new)?;
    let term = state.term.replaced(alloc, language, &by)?;
    Ok(State {
        term,
        sort: state.sort.clone()?,
        clauses,
        variables,
    })
}
