// What the match of a part with the consequent gives.
ghost use Rattle.std.specs.Prelude.{◌≡◌, [], IfOk, OnOk};
ghost use Rattle.kp_signature.specs.View.{signature_view};
ghost use Rattle.kp_symbolic.specs.Languages.{language_view};
ghost use Rattle.kp_symbolic.specs.View.{state_view, variables_view, clause_view, clauses_view};
ghost use Rattle.kp_case_laws.specs.Parts.{whole};
ghost use Rattle.kp_goals.specs.Gives as model;
ghost use Rattle.kp_goals.specs.View.{consequent_view, given_view, with_clause, with_clauses, nothing_given};

use crate::consequent::Consequent;
use crate::equations::new_by_match;
use kp_signature::Signature;
use kp_symbolic::{Clause, Language, Replaced, State, Variable};
use kp_unify::literals::equal_clauses;
use std::alloc::{AllocError, Global};
use std::sync::Arc;

/// The clauses of the match that are still to be asked, and the terms that bound variables stand for.
#[derive(Drop)]
pub struct Given {
    pub rest: Vec<Clause>,
    pub put: Vec<Replaced>,
}

/// The clauses that the state's term is the consequent's.
pub fn match_clauses(
    alloc: Global,
    signature: &Signature,
    state: &State,
    consequent: &Consequent<'_>,
) -> Result<Vec<Clause>, AllocError>
    ensures { IfOk result (λ cs. clauses_view cs.items ≡ model.match_clauses (signature_view signature.now) (consequent_view consequent.now) (whole (state_view state.now))) }
{
    equal_clauses(alloc, signature, &state.sort, &state.term, &consequent.term)
}

/// Takes what the clause gives that nothing gave before; a clause that gives nothing is left.
fn take_clause(
    alloc: Global,
    language: &Language,
    bound: &[Arc<Variable>],
    told: &[Arc<Variable>],
    clause: &Clause,
    given: &mut Given,
) -> Result<(), AllocError>
    ensures { let g = language_view language.now in OnOk result (given_view given.new ≡ with_clause g (variables_view bound.now) (variables_view told.now) (given_view given.old) (clause_view clause.now)) }
{
    match new_by_match(alloc, language, bound, told, &given.put, clause)? {
        Some(found) => Ok(given.put.push(found)?),
        None => Ok(given.rest.push(clause.share()?)?),
    }
}

/// Nothing yet.
fn nothing(alloc: Global) -> Given
    ensures { given_view result ≡ nothing_given }
{
    Given {
        rest: Vec::new(alloc),
        put: Vec::new(alloc),
    }
}

/// What the clauses of the match give, in their order; a clause that gave is used up.
pub fn by_match(
    alloc: Global,
    language: &Language,
    bound: &[Arc<Variable>],
    told: &[Arc<Variable>],
    clauses: &[Clause],
) -> Result<Given, AllocError>
    ensures { let g = language_view language.now in IfOk result (λ o. given_view o ≡ with_clauses g (variables_view bound.now) (variables_view told.now) nothing_given (clauses_view clauses.now)) }
{
    let mut given = nothing(alloc);
    for clause in clauses {
        take_clause(alloc, language, bound, told, clause, &mut given)?;
    }
    Ok(given)
}
