// What a clause gives of the variables that a consequent binds.
ghost use Rattle.std.specs.Prelude.{◌≡◌, ◌&&◌, not, neg_ℤ, [], ◌∷◌, is_some, IfOk, map};
ghost use Rattle.std.specs.List.{list_any};
ghost use Rattle.kp_kore.specs.Instance.{is_named};
ghost use Rattle.kp_signature.specs.View.{signature_view};
ghost use Rattle.kp_symbolic.specs.Languages.{language_view};
ghost use Rattle.kp_symbolic.specs.Terms.{term_variables, replacement_for};
ghost use Rattle.kp_symbolic.specs.View.{variable_view, variables_view, term_view, literal_view, clause_view, replaced_view};
ghost use Rattle.kp_symbolic.specs.WellFormed.{term_sort, is_sort_below};
ghost use Rattle.kp_goals.specs.Gives as model;
ghost use Rattle.kp_goals.specs.View.{given_seen, put_of, new_put};

use crate::sums::shifted;
use kp_literals::equation::{equation_of, is_solved_by};
use kp_signature::Signature;
use kp_symbolic::replaced::replacement_of;
use kp_symbolic::{Atom, Clause, Language, Literal, Replaced, Term, Variable};
use std::alloc::{AllocError, Global};
use std::sync::Arc;

/// Whether one of these variables has the name.
pub fn is_among(name: &str, variables: &[Arc<Variable>]) -> bool
    ensures { result ≡ is_named name.now (variables_view variables.now) }
{
    for variable in variables {
        if variable.name.as_str() == name {
            return true;
        }
    }
    false
}

/// Whether one of these variables stands in the term.
fn some_stands(variables: &[Arc<Variable>], term: &Term) -> bool
    ensures { result ≡ list_any (λ x. is_named x.name (term_variables (term_view term.now))) (variables_view variables.now) }
{
    for variable in variables {
        if term.has_name(&variable.name) {
            return true;
        }
    }
    false
}

/// Whether a bound variable stands in the term.
pub fn has_bound(bound: &[Arc<Variable>], term: &Term) -> bool
    ensures { result ≡ model.has_bound (variables_view bound.now) (term_view term.now) }
{
    some_stands(bound, term)
}

/// Whether the variable is a bound one, and the term one without bound variables whose own sort is the variable's or below it.
fn is_given_by(
    signature: &Signature,
    bound: &[Arc<Variable>],
    variable: &Variable,
    term: &Term,
) -> bool
    ensures { let g = signature_view signature.now in let bound' = variables_view bound.now in let x = variable_view variable.now in let t = term_view term.now in result ≡ (is_named x.name bound' && (not (model.has_bound bound' t) && is_sort_below g (term_sort g t) x.sort)) }
{
    is_among(&variable.name, bound)
        && !has_bound(bound, term)
        && is_solved_by(signature, variable, term)
}

/// The term in the variable's place.
pub fn put_for(alloc: Global, variable: &Variable, term: &Term) -> Result<Replaced, AllocError>
    ensures { IfOk result (λ r. replaced_view r ≡ record { name = (variable_view variable.now).name; term = term_view term.now }) }
{
    Ok(Replaced {
        name: Arc::new(alloc, variable.name.clone()?)?,
        term: term.share(alloc)?,
    })
}

/// The bound variable as the term, where that gives it.
fn given_if(
    alloc: Global,
    signature: &Signature,
    bound: &[Arc<Variable>],
    variable: &Variable,
    term: &Term,
) -> Result<Option<Replaced>, AllocError>
    ensures { let g = signature_view signature.now in IfOk result (λ o. given_seen o ≡ put_of (model.bound_if g (variables_view bound.now) (variable_view variable.now) (term_view term.now))) }
{
    if is_given_by(signature, bound, variable, term) {
        return Ok(Some(put_for(alloc, variable, term)?));
    }
    Ok(None)
}

/// The same of the term less a constant.
fn given_less(
    alloc: Global,
    language: &Language,
    bound: &[Arc<Variable>],
    variable: &Variable,
    constant: i128,
    term: &Term,
) -> Result<Option<Replaced>, AllocError>
    ensures { let g = language_view language.now in IfOk result (λ o. given_seen o ≡ put_of (model.bound_at g (variables_view bound.now) (variable_view variable.now) (model.shifted g (neg_ℤ constant) (term_view term.now)))) }
{
    match shifted(language, term, constant)? {
        Some(less) => given_if(alloc, language.signature, bound, variable, &less),
        None => Ok(None),
    }
}

/// What an equality of two terms gives, of which the first is a bound variable, alone or with a constant.
fn given_at(
    alloc: Global,
    language: &Language,
    bound: &[Arc<Variable>],
    side: &Term,
    term: &Term,
) -> Result<Option<Replaced>, AllocError>
    ensures { IfOk result (λ o. given_seen o ≡ put_of (model.bound_side (language_view language.now) (variables_view bound.now) (term_view side.now) (term_view term.now))) }
{
    match side {
        Term::Unknown { variable } => given_if(alloc, language.signature, bound, variable, term),
        Term::Offset { variable, constant } => {
            given_less(alloc, language, bound, variable, *constant, term)
        }
        Term::Known { .. } | Term::Headed { .. } => Ok(None),
    }
}

/// What the literal gives, where it is an equality with a bound variable on a side.
fn given_by_literal(
    alloc: Global,
    language: &Language,
    bound: &[Arc<Variable>],
    literal: &Literal,
) -> Result<Option<Replaced>, AllocError>
    ensures { IfOk result (λ o. given_seen o ≡ put_of (model.given_by (language_view language.now) (variables_view bound.now) (literal_view literal.now ∷ []))) }
{
    if !literal.holds {
        return Ok(None);
    }
    match &literal.atom {
        Atom::Same { left, right, .. } => match given_at(alloc, language, bound, right, left)? {
            Some(put) => Ok(Some(put)),
            None => given_at(alloc, language, bound, left, right),
        },
        Atom::Head { .. } | Atom::Quoted { .. } => Ok(None),
    }
}

/// What the literal gives, solved as an equation of a bound variable too.
fn given_in_literal(
    alloc: Global,
    language: &Language,
    bound: &[Arc<Variable>],
    literal: &Literal,
) -> Result<Option<Replaced>, AllocError>
    ensures { IfOk result (λ o. given_seen o ≡ put_of (model.given_in (language_view language.now) (variables_view bound.now) (literal_view literal.now ∷ []))) }
{
    if let Some(put) = given_by_literal(alloc, language, bound, literal)? {
        return Ok(Some(put));
    }
    match equation_of(language.signature, literal) {
        Some(equation) => given_if(
            alloc,
            language.signature,
            bound,
            equation.variable,
            equation.term,
        ),
        None => Ok(None),
    }
}

/// What a clause of the match gives.
fn given_by(
    alloc: Global,
    language: &Language,
    bound: &[Arc<Variable>],
    clause: &[Literal],
) -> Result<Option<Replaced>, AllocError>
    ensures { IfOk result (λ o. given_seen o ≡ put_of (model.given_by (language_view language.now) (variables_view bound.now) (map literal_view clause.now))) }
{
    match clause {
        [literal] => given_by_literal(alloc, language, bound, literal),
        _ => Ok(None),
    }
}

/// What a goal gives.
fn given_in(
    alloc: Global,
    language: &Language,
    bound: &[Arc<Variable>],
    clause: &[Literal],
) -> Result<Option<Replaced>, AllocError>
    ensures { IfOk result (λ o. given_seen o ≡ put_of (model.given_in (language_view language.now) (variables_view bound.now) (map literal_view clause.now))) }
{
    match clause {
        [literal] => given_in_literal(alloc, language, bound, literal),
        _ => Ok(None),
    }
}

/// Whether nothing was put for the variable of this name, one of those that are told.
fn is_new(told: &[Arc<Variable>], put: &[Replaced], name: &str) -> bool
    ensures { result ≡ (not (is_some (replacement_for (map replaced_view put.now) name.now)) && is_named name.now (variables_view told.now)) }
{
    match replacement_of(put, name) {
        Some(_) => false,
        None => is_among(name, told),
    }
}

/// What is given, where it is new.
fn if_new(told: &[Arc<Variable>], put: &[Replaced], found: Option<Replaced>) -> Option<Replaced>
    ensures { given_seen result ≡ new_put (variables_view told.now) (map replaced_view put.now) (given_seen found) }
{
    match found {
        Some(found) => {
            if is_new(told, put, &found.name) {
                return Some(found);
            }
            None
        }
        None => None,
    }
}

/// What a clause of the match gives that nothing gave before.
pub fn new_by_match(
    alloc: Global,
    language: &Language,
    bound: &[Arc<Variable>],
    told: &[Arc<Variable>],
    put: &[Replaced],
    clause: &Clause,
) -> Result<Option<Replaced>, AllocError>
    ensures { let g = language_view language.now in let put' = map replaced_view put.now in IfOk result (λ o. given_seen o ≡ put_of (model.if_new (variables_view told.now) put' (model.given_by g (variables_view bound.now) (clause_view clause.now)))) }
{
    let found = given_by(alloc, language, bound, &clause.literals)?;
    Ok(if_new(told, put, found))
}

/// What a goal gives that nothing gave before.
pub fn new_by_goal(
    alloc: Global,
    language: &Language,
    bound: &[Arc<Variable>],
    told: &[Arc<Variable>],
    put: &[Replaced],
    clause: &Clause,
) -> Result<Option<Replaced>, AllocError>
    ensures { let g = language_view language.now in let put' = map replaced_view put.now in IfOk result (λ o. given_seen o ≡ put_of (model.if_new (variables_view told.now) put' (model.given_in g (variables_view bound.now) (clause_view clause.now)))) }
{
    let found = given_in(alloc, language, bound, &clause.literals)?;
    Ok(if_new(told, put, found))
}
