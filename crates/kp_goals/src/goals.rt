// What a consequent asks of a part of the antecedent that its term meets, clause by clause.
ghost use Rattle.std.specs.Prelude.{◌≡◌, ◌++◌, IfOk, OnOk, IfSome, map};
ghost use Rattle.std.specs.List.{flat_map, list_any};
ghost use Rattle.kp_kore.specs.Instance.{is_named};
ghost use Rattle.kp_symbolic.specs.States.{clause_variables};
ghost use Rattle.kp_symbolic.specs.Languages.{language_view};
ghost use Rattle.kp_symbolic.specs.View.{state_view, variables_view, literal_view, clause_view, clauses_view, replaced_view};
ghost use Rattle.kp_case_laws.specs.Parts.{whole};
ghost use Rattle.kp_goals.specs.Goals as model;
ghost use Rattle.kp_goals.specs.View.{consequent_view, given_view, given_seen, first_given, IsAskedOf};
ghost use Rattle.kp_goals.specs.Taken.{KeepsGiven, AsksOf};

use crate::consequent::Consequent;
use crate::equations::new_by_goal;
use crate::given::{Given, by_match, match_clauses};
use crate::solved::all_put;
use kp_clause_substitution::open_clause;
use kp_clauses::clauses_of_all;
use kp_compile::CompileError;
use kp_formulas::joined::kept_once;
use kp_literals::names::some_has_name;
use kp_symbolic::{Clause, Language, Literal, Replaced, State, Variable};
use kp_unify::literals::{clauses_of, is_room};
use std::alloc::{AllocError, Global};
use std::sync::Arc;

/// Adds the clause with the terms in its variables' places; as it stands, where that makes too many literals.
fn add_put(
    alloc: Global,
    language: &Language,
    put: &[Replaced],
    clause: &Clause,
    found: &mut Vec<Clause>,
) -> Result<(), CompileError>
    ensures { let g = language_view language.now in OnOk result (clauses_view found.new.items ≡ clauses_view found.old.items ++ model.put_in_clause g (map replaced_view put.now) (clause_view clause.now)) }
{
    let opened = open_clause(alloc, language, put, clause)?;
    if is_room(&opened) {
        let mut clauses = clauses_of(opened);
        found.append(&mut clauses)?;
        return Ok(());
    }
    Ok(found.push(clause.share()?)?)
}

/// The clauses with the terms in their variables' places.
fn all_opened(
    alloc: Global,
    language: &Language,
    put: &[Replaced],
    clauses: &[Clause],
) -> Result<Vec<Clause>, CompileError>
    ensures { IfOk result (λ cs. clauses_view cs.items ≡ flat_map (model.put_in_clause (language_view language.now) (map replaced_view put.now)) (clauses_view clauses.now)) }
{
    let mut found = Vec::new(alloc);
    for clause in clauses {
        add_put(alloc, language, put, clause, &mut found)?;
    }
    Ok(found)
}

/// The clauses of the match that gave nothing, and those of the condition, with what is given in the variables' places.
fn goals_of(
    alloc: Global,
    language: &Language,
    consequent: &Consequent<'_>,
    state: &State,
    given: &Given,
) -> Result<Vec<Clause>, CompileError>
    ensures { let g = language_view language.now in IfOk result (λ cs. clauses_view cs.items ≡ model.goals_of g (consequent_view consequent.now) (whole (state_view state.now)) (given_view given.now)) }
{
    let put = all_put(alloc, language.signature, state, &given.put)?;
    let mut goals = all_opened(alloc, language, &put, &given.rest)?;
    let mut asked = clauses_of_all(alloc, language, &put, &consequent.predicates)?;
    goals.append(&mut asked)?;
    Ok(kept_once(alloc, goals)?)
}

/// The first that a goal gives.
fn first_new(
    alloc: Global,
    language: &Language,
    bound: &[Arc<Variable>],
    told: &[Arc<Variable>],
    put: &[Replaced],
    goals: &[Clause],
) -> Result<Option<Replaced>, AllocError>
    ensures { let g = language_view language.now in IfOk result (λ o. given_seen o ≡ first_given g (variables_view bound.now) (variables_view told.now) (map replaced_view put.now) (clauses_view goals.now)) }
{
    for goal in goals {
        if let Some(found) = new_by_goal(alloc, language, bound, told, put, goal)? {
            return Ok(Some(found));
        }
    }
    Ok(None)
}

/// The goals, if none gives more; else what one gives is taken.
fn take_goal(
    alloc: Global,
    language: &Language,
    consequent: &Consequent<'_>,
    told: &[Arc<Variable>],
    state: &State,
    given: &mut Given,
) -> Result<Option<Vec<Clause>>, CompileError>
    ensures given { let g = language_view language.now in OnOk result (KeepsGiven g (consequent_view consequent.now) (variables_view told.now) (state_view state.now) (given_view given.old) (given_view given.new)) }
    ensures asked { let g = language_view language.now in IfOk result (λ o. IfSome o (λ cs. AsksOf g (consequent_view consequent.now) (variables_view told.now) (state_view state.now) (given_view given.old) (clauses_view cs.items))) }
{
    let goals = goals_of(alloc, language, consequent, state, given)?;
    match first_new(alloc, language, &consequent.bound, told, &given.put, &goals)? {
        Some(found) => {
            given.put.push(found)?;
            Ok(None)
        }
        None => Ok(Some(goals)),
    }
}

/// What the consequent asks of a part with this state: what the match gives of the variables that are told, then what the goals
/// give, as long as one gives more.
///
/// # Errors
/// Where memory runs out, and where a predicate has a verify fault.
pub fn asked_in(
    alloc: Global,
    language: &Language,
    consequent: &Consequent<'_>,
    told: &[Arc<Variable>],
    state: &State,
) -> Result<Vec<Clause>, CompileError>
    ensures asked { let g = language_view language.now in IfOk result (λ cs. IsAskedOf g (consequent_view consequent.now) (variables_view told.now) (state_view state.now) (clauses_view cs.items)) }
{
    let clauses = match_clauses(alloc, language.signature, state, consequent)?;
    let mut given = by_match(alloc, language, &consequent.bound, told, &clauses)?;
    for _variable in told {
        if let Some(goals) = take_goal(alloc, language, consequent, told, state, &mut given)? {
            return Ok(goals);
        }
    }
    match take_goal(alloc, language, consequent, told, state, &mut given)? {
        Some(goals) => Ok(goals),
        None => Err(CompileError::Memory),
    }
}

/// Whether one of these variables stands in one of the literals.
fn some_stands(
    alloc: Global,
    variables: &[Arc<Variable>],
    literals: &[Literal],
) -> Result<bool, AllocError>
    ensures { IfOk result (λ b. b ≡ list_any (λ x. is_named x.name (clause_variables (map literal_view literals.now))) (variables_view variables.now)) }
{
    for variable in variables {
        if some_has_name(alloc, literals, &variable.name)? {
            return Ok(true);
        }
    }
    Ok(false)
}

/// Whether a bound variable stands in the clause.
pub fn is_unbound(
    alloc: Global,
    bound: &[Arc<Variable>],
    clause: &Clause,
) -> Result<bool, AllocError>
    ensures { IfOk result (λ b. b ≡ model.is_unbound (variables_view bound.now) (clause_view clause.now)) }
{
    some_stands(alloc, bound, &clause.literals)
}
