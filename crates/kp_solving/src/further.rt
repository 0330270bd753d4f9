// A state with further clauses, and one in which a variable is a term.
ghost use Rattle.std.specs.Prelude.{◌≡◌, ◌∷◌, [], ◌++◌, IfOk, IfErr};
ghost use Rattle.kp_compile.specs.declared.error.CompileError.TheVariants.{Memory};
ghost use Rattle.kp_symbolic.specs.Languages.{language_view};
ghost use Rattle.kp_symbolic.specs.View.{variable_view, term_view, clause_view, clauses_view, variables_view, state_view};
ghost use Rattle.kp_literals.specs.Equations.{equation_view};
ghost use Rattle.kp_solving.specs.Further as model;
ghost use Rattle.kp_solving.specs.Readable.{IsReadable};

use crate::solved_equation::solve_at;
use kp_compile::CompileError;
use kp_formulas::joined::{kept_once, make_clause};
use kp_literals::equation::Equation;
use kp_symbolic::state::share_variables;
use kp_symbolic::{Atom, Clause, Language, Literal, State, Term, Variable};
use std::alloc::{AllocError, Global};
use std::sync::Arc;

/// Both lists of clauses, sharing them.
fn both(alloc: Global, first: &[Clause], second: &[Clause]) -> Result<Vec<Clause>, AllocError>
    ensures { IfOk result (λ cs. clauses_view cs.items ≡ clauses_view first.now ++ clauses_view second.now) }
{
    let mut clauses = Clause::share_all(alloc, first)?;
    let mut more = Clause::share_all(alloc, second)?;
    clauses.append(&mut more)?;
    Ok(clauses)
}

/// The state with further clauses, in which nothing more is solved.
pub fn constrain(alloc: Global, state: &State, clauses: &[Clause]) -> Result<State, AllocError>
    ensures { IfOk result (λ s. state_view s ≡ model.constrained (state_view state.now) (clauses_view clauses.now)) }
{
    let clauses = kept_once(alloc, both(alloc, &state.clauses, clauses)?)?;
    let variables = share_variables(alloc, &state.variables)?;
    Ok(State {
        term: state.term.share(alloc)?,
        sort: state.sort.clone()?,
        clauses,
        variables,
    })
}

/// The equation of a variable with a term.
fn make_equation<'a>(variable: &'a Variable, term: &'a Term) -> Equation<'a>
    ensures { equation_view result ≡ model.equation_of (variable_view variable.now) (term_view term.now) }
{
    Equation { variable, term }
}

/// The clause that a variable is a term.
fn equality(alloc: Global, variable: &Arc<Variable>, term: &Term) -> Result<Clause, AllocError>
    ensures { IfOk result (λ c. clause_view c ≡ model.equality_clause (model.equation_of (variable_view variable.now.value) (term_view term.now))) }
{
    let left = Term::Unknown {
        variable: variable.clone()?,
    };
    let atom = Atom::Same {
        sort: Arc::new(alloc, variable.sort.copy(alloc)?)?,
        left,
        right: term.share(alloc)?,
    };
    make_clause(alloc, Literal { holds: true, atom })
}

/// The clauses with one more behind them.
fn with_clause(alloc: Global, clauses: &[Clause], clause: Clause) -> Result<Vec<Clause>, AllocError>
    ensures { IfOk result (λ cs. clauses_view cs.items ≡ clauses_view clauses.now ++ clause_view clause ∷ []) }
{
    let mut all = Clause::share_all(alloc, clauses)?;
    all.push(clause)?;
    Ok(all)
}

/// The variables with new ones behind them.
fn with_variables(
    alloc: Global,
    variables: &[Arc<Variable>],
    new: &[Arc<Variable>],
) -> Result<Vec<Arc<Variable>>, AllocError>
    ensures { IfOk result (λ xs. variables_view xs.items ≡ variables_view variables.now ++ variables_view new.now) }
{
    let mut all = share_variables(alloc, variables)?;
    let mut more = share_variables(alloc, new)?;
    all.append(&mut more)?;
    Ok(all)
}

/// The state with the clause that a variable is a term behind the others, and new variables behind those at hand.
fn with_equality(
    alloc: Global,
    state: &State,
    variable: &Arc<Variable>,
    term: &Term,
    new: &[Arc<Variable>],
) -> Result<State, AllocError>
    ensures { let e = model.equation_of (variable_view variable.now.value) (term_view term.now) in IfOk result (λ s. state_view s ≡ model.with_equality e (variables_view new.now) (state_view state.now)) }
{
    let clause = equality(alloc, variable, term)?;
    let clauses = with_clause(alloc, &state.clauses, clause)?;
    let variables = with_variables(alloc, &state.variables, new)?;
    Ok(State {
        term: state.term.share(alloc)?,
        sort: state.sort.clone()?,
        clauses,
        variables,
    })
}

/// The state in which a variable is a term: the clause that says so stands behind the others, the term stands in the
/// variable's place in all else, and the new variables are at hand. A state whose sums can be written and whose predicates have
/// no verify fault is refused for want of memory alone.
pub fn refine(
    alloc: Global,
    language: &Language,
    state: &State,
    variable: &Arc<Variable>,
    term: &Term,
    new: &[Arc<Variable>],
) -> Result<State, CompileError>
    ensures refined { let e = model.equation_of (variable_view variable.now.value) (term_view term.now) in IfOk result (λ s. state_view s ≡ model.refined (language_view language.now) e (variables_view new.now) (state_view state.now)) }
    ensures refused { let q = model.equation_of (variable_view variable.now.value) (term_view term.now) in let larger = model.with_equality q (variables_view new.now) (state_view state.now) in IfErr result (λ e. IsReadable (language_view language.now) larger → e ≡ Memory) }
{
    let larger = with_equality(alloc, state, variable, term, new)?;
    let equation = make_equation(variable, term);
    solve_at(alloc, language, &larger, state.clauses.len(), &equation)
}
