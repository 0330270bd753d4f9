// Whether a variable of a name stands in literals and clauses.
ghost use Rattle.std.specs.Prelude.{◌≡◌, ◌++◌, IfOk, map};
ghost use Rattle.std.specs.List.{flat_map};
ghost use Rattle.kp_kore.specs.View.{sorted_variable_view};
ghost use Rattle.kp_kore.specs.Instance.{is_named};
ghost use Rattle.kp_symbolic.specs.Plain as model;
ghost use Rattle.kp_symbolic.specs.States.{variables_for, atom_variables, clause_variables};
ghost use Rattle.kp_symbolic.specs.Terms.{replacement_for};
ghost use Rattle.kp_symbolic.specs.View.{replaced_view, atom_view, literal_view, clauses_view, state_view};
ghost use Rattle.kp_literals.specs.Names.{is_named_in};

use kp_kore::SortedVariable;
use kp_symbolic::replaced::replacement_of;
use kp_symbolic::{Atom, Clause, Literal, Replaced, State};
use std::alloc::{AllocError, Global};

/// Whether the name stands for a variable of a predicate: it is its own, or stands in the term in its place.
fn stands_for(variable: &SortedVariable, replaced: &[Replaced], name: &str) -> bool
    ensures { let variable' = sorted_variable_view variable.now in result ≡ is_named name.now (variables_for variable' (replacement_for (map replaced_view replaced.now) variable'.name)) }
{
    match replacement_of(replaced, &variable.name) {
        Some(term) => term.has_name(name),
        None => variable.name.as_str() == name,
    }
}

/// Whether it does for one of these.
fn stands_for_one(variables: &[SortedVariable], replaced: &[Replaced], name: &str) -> bool
    ensures { result ≡ is_named name.now (flat_map (λ x. variables_for x (replacement_for (map replaced_view replaced.now) x.name)) (map sorted_variable_view variables.now)) }
{
    for variable in variables {
        if stands_for(variable, replaced, name) {
            return true;
        }
    }
    false
}

/// Whether a variable of the name stands in the atom.
fn atom_has_name(alloc: Global, atom: &Atom, name: &str) -> Result<bool, AllocError>
    ensures { IfOk result (λ b. b ≡ is_named name.now (atom_variables (atom_view atom.now))) }
{
    match atom {
        Atom::Same { left, right, .. } => Ok(left.has_name(name) || right.has_name(name)),
        Atom::Head { variable, .. } => Ok(variable.name.as_str() == name),
        Atom::Quoted { pattern, replaced } => {
            let variables = pattern.free_vars(alloc)?;
            Ok(stands_for_one(&variables, replaced, name))
        }
    }
}

/// Whether a variable of the name stands in one of the literals.
pub fn some_has_name(alloc: Global, literals: &[Literal], name: &str) -> Result<bool, AllocError>
    ensures { IfOk result (λ b. b ≡ is_named name.now (clause_variables (map literal_view literals.now))) }
{
    for literal in literals {
        if atom_has_name(alloc, &literal.atom, name)? {
            return Ok(true);
        }
    }
    Ok(false)
}

/// Whether a variable of the name stands in one of the clauses.
fn clauses_have_name(alloc: Global, clauses: &[Clause], name: &str) -> Result<bool, AllocError>
    ensures { IfOk result (λ b. b ≡ is_named_in name.now (clauses_view clauses.now)) }
{
    for clause in clauses {
        if some_has_name(alloc, &clause.literals, name)? {
            return Ok(true);
        }
    }
    Ok(false)
}

/// Whether the variable stands in no other clause than the one between these.
pub fn stands_in_none(
    alloc: Global,
    before: &[Clause],
    after: &[Clause],
    name: &str,
) -> Result<bool, AllocError>
    ensures { IfOk result (λ b. b ≡ model.stands_in_none (clauses_view before.now ++ clauses_view after.now) name.now) }
{
    if clauses_have_name(alloc, before, name)? {
        return Ok(false);
    }
    Ok(!clauses_have_name(alloc, after, name)?)
}

/// Whether the variable stands in no other clause than the one between these, and not in the term.
pub fn stands_alone(
    alloc: Global,
    state: &State,
    before: &[Clause],
    after: &[Clause],
    name: &str,
) -> Result<bool, AllocError>
    ensures { IfOk result (λ b. b ≡ model.stands_alone (state_view state.now) (clauses_view before.now ++ clauses_view after.now) name.now) }
{
    if state.term.has_name(name) {
        return Ok(false);
    }
    if clauses_have_name(alloc, before, name)? {
        return Ok(false);
    }
    Ok(!clauses_have_name(alloc, after, name)?)
}
