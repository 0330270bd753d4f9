// A clause in which an equation is solved.
ghost use Rattle.std.specs.Prelude.{◌≡◌, true, not, [], ◌∷◌, IfOk, IfErr, OnOk, map};
ghost use Rattle.std.specs.List.{AllByRecursion};
ghost use Rattle.kp_compile.specs.declared.error.CompileError.TheVariants.{Memory};
ghost use Rattle.kp_kore.specs.View.{view, sort_view};
ghost use Rattle.kp_symbolic.specs.Clauses.{is_too_large};
ghost use Rattle.kp_symbolic.specs.Formulas.{Formula};
ghost use Rattle.kp_symbolic.specs.Solving as model;
ghost use Rattle.kp_symbolic.specs.States as states;
ghost use Rattle.kp_symbolic.specs.Writing.{written_clause};
ghost use Rattle.kp_symbolic_laws.specs.Runs.{IfKeptWhole};
ghost use Rattle.kp_symbolic_laws.specs.Kept.{CanBeWrittenAt};
ghost use Rattle.kp_symbolic.specs.Languages.{language_view};
ghost use Rattle.kp_symbolic.specs.View.{clause_view, clauses_view, literal_view, replaced_view};
ghost use Rattle.kp_formulas.specs.Distribution.{distribution_of};
ghost use Rattle.kp_formulas.specs.DistributionView.{distributed_view};
ghost use Rattle.kp_literals.specs.Equations.{equation_view};
ghost use Rattle.kp_solving.specs.Solvables.{quoted_clause, solved_holding};
ghost use Rattle.kp_clause_substitution.specs.Sums.{HasWrittenSums};
ghost use Rattle.kp_outward.specs.Parts.{IsFaultlessAtom};

use crate::quoted_clause::kept_out;
use kp_clause_substitution::open_clause;
use kp_compile::CompileError;
use kp_formulas::Distributed;
use kp_formulas::count::MOST_OPENED;
use kp_formulas::joined::make_clause;
use kp_kore::{Pattern, Sort};
use kp_literals::equation::Equation;
use kp_literals::names::some_has_name;
use kp_symbolic::{Atom, Clause, Language, Literal, Replaced};
use std::alloc::{AllocError, Global};
use std::sync::Arc;

/// The term of an equation in its variable's place, as a list of one.
pub fn replacement(alloc: Global, equation: &Equation<'_>) -> Result<Arc<Vec<Replaced>>, AllocError>
    ensures { IfOk result (λ by. map replaced_view by.value.items ≡ model.replacement (equation_view equation.now)) }
{
    let one = Replaced {
        name: Arc::new(alloc, equation.variable.name.clone()?)?,
        term: equation.term.share(alloc)?,
    };
    let mut replaced = Vec::new(alloc);
    replaced.push(one)?;
    Ok(Arc::new(alloc, replaced)?)
}

/// Whether the clauses of a formula, behind so many literals, aren't too many for a state.
pub fn is_room(so_far: u64, opened: &Distributed) -> bool
    ensures { (f : Formula states.Literal) → distributed_view opened.now ≡ distribution_of f → result ≡ not (is_too_large so_far f) }
{
    so_far.saturating_add(opened.count.literals) <= MOST_OPENED
}

/// The clauses that are kept of a formula.
pub fn clauses_of(opened: Distributed) -> Vec<Clause>
    ensures { clauses_view result.items ≡ (distributed_view opened).clauses }
{
    let Distributed { clauses, .. } = opened;
    clauses
}

/// A clause alone.
pub fn clause_alone(alloc: Global, clause: &Clause) -> Result<Vec<Clause>, AllocError>
    ensures { IfOk result (λ cs. clauses_view cs.items ≡ clause_view clause.now ∷ []) }
{
    let mut clauses = Vec::new(alloc);
    clauses.push(clause.share()?)?;
    Ok(clauses)
}

/// A predicate with terms in the place of variables, as a clause of one literal, alone.
fn quote_alone(
    alloc: Global,
    pattern: &Arc<Pattern>,
    by: &Arc<Vec<Replaced>>,
) -> Result<Vec<Clause>, AllocError>
    ensures { IfOk result (λ cs. clauses_view cs.items ≡ quoted_clause (view pattern.now.value) (map replaced_view by.now.value.items) ∷ []) }
{
    let atom = Atom::Quoted {
        pattern: pattern.clone()?,
        replaced: by.clone()?,
    };
    let literal = Literal { holds: true, atom };
    let mut clauses = Vec::new(alloc);
    clauses.push(make_clause(alloc, literal)?)?;
    Ok(clauses)
}

/// What is written for a clause, with terms in the place of variables, as one literal.
fn quote_clause(
    alloc: Global,
    language: &Language,
    sort: &Sort,
    by: &Arc<Vec<Replaced>>,
    clause: &Clause,
) -> Result<Vec<Clause>, CompileError>
    ensures quoted { let pattern = written_clause (language_view language.now) (sort_view sort.now) (clause_view clause.now) in IfOk result (λ cs. clauses_view cs.items ≡ quoted_clause pattern (map replaced_view by.now.value.items) ∷ []) }
    ensures right { OnOk result (CanBeWrittenAt (language_view language.now) (sort_view sort.now) (clause_view clause.now)) }
    ensures refused { IfErr result (λ e. AllByRecursion (λ l. IsFaultlessAtom (language_view language.now) (literal_view l).atom) clause.now.literals.value.items → e ≡ Memory) }
{
    let pattern = Arc::new(alloc, kept_out(alloc, language, sort, clause)?)?;
    Ok(quote_alone(alloc, &pattern, by)?)
}

/// The clauses of a clause that holds the variable, behind so many literals: opened again with the term in the variable's
/// place, or as one literal where that makes too many.
fn solve_holding(
    alloc: Global,
    language: &Language,
    sort: &Sort,
    equation: &Equation<'_>,
    by: &Arc<Vec<Replaced>>,
    so_far: u64,
    clause: &Clause,
) -> Result<Vec<Clause>, CompileError>
    requires { map replaced_view by.now.value.items ≡ model.replacement (equation_view equation.now) }
    ensures solved { let e = equation_view equation.now in let solved = solved_holding (language_view language.now) (sort_view sort.now) e so_far (clause_view clause.now) in IfOk result (λ cs. clauses_view cs.items ≡ solved) }
    ensures right { let g = language_view language.now in let c = clause_view clause.now in OnOk result (is_too_large so_far (model.opened_clause g (equation_view equation.now) c) ≡ true → CanBeWrittenAt g (sort_view sort.now) c) }
    ensures refused { let g = language_view language.now in let ls = clause.now.literals.value.items in IfErr result (λ e. AllByRecursion (λ l. HasWrittenSums g (literal_view l).atom) ls → AllByRecursion (λ l. IsFaultlessAtom g (literal_view l).atom) ls → e ≡ Memory) }
{
    let opened = open_clause(alloc, language, by, clause)?;
    if is_room(so_far, &opened) {
        return Ok(clauses_of(opened));
    }
    quote_clause(alloc, language, sort, by, clause)
}

/// The clauses of a clause in which the equation is solved, behind so many literals; a clause in which the variable doesn't
/// stand is shared. Where each sum in it can be written and no predicate in it has a verify fault, it is refused for want of
/// memory alone.
pub fn solve_clause(
    alloc: Global,
    language: &Language,
    sort: &Sort,
    equation: &Equation<'_>,
    by: &Arc<Vec<Replaced>>,
    so_far: u64,
    clause: &Clause,
) -> Result<Vec<Clause>, CompileError>
    requires { map replaced_view by.now.value.items ≡ model.replacement (equation_view equation.now) }
    ensures solved { let e = equation_view equation.now in let solved = model.solved_clause (language_view language.now) (sort_view sort.now) e so_far (clause_view clause.now) in IfOk result (λ cs. clauses_view cs.items ≡ solved) }
    ensures right { let g = language_view language.now in let e = equation_view equation.now in OnOk result (IfKeptWhole g e (CanBeWrittenAt g (sort_view sort.now)) so_far (clause_view clause.now)) }
    ensures refused { let g = language_view language.now in let ls = clause.now.literals.value.items in IfErr result (λ e. AllByRecursion (λ l. HasWrittenSums g (literal_view l).atom) ls → AllByRecursion (λ l. IsFaultlessAtom g (literal_view l).atom) ls → e ≡ Memory) }
{
    if some_has_name(alloc, &clause.literals, &equation.variable.name)? {
        return solve_holding(alloc, language, sort, equation, by, so_far, clause);
    }
    Ok(clause_alone(alloc, clause)?)
}
