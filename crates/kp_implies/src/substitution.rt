// The substitution as it is written: equalities that tell the bound variables, in the binders' order.
ghost use Rattle.std.specs.Prelude.{◌≡◌, ◌∷◌, [], true, IfErr, IfOk, map};
ghost use Rattle.kp_kore.specs.View.{view, patterns_of, sort_view};
ghost use Rattle.kp_kore.specs.Syntax.{conjunction, top};
ghost use Rattle.kp_signature.specs.View.{signature_view};
ghost use Rattle.kp_symbolic.specs.Languages.{language_view};
ghost use Rattle.kp_symbolic.specs.View.{atom_view, clause_view, clauses_view, state_view, variables_view};
ghost use Rattle.kp_symbolic.specs.Writing.{InjectsWhereItStands, written_atom};
ghost use Rattle.kp_goals.specs.View.{consequent_view};
ghost use Rattle.kp_outward.specs.Errors.{IsNoInjection};
ghost use Rattle.kp_implies.specs.Printed as model;
ghost use Rattle.kp_implies.specs.View.{telling_view};

use crate::entries;
use crate::tellings::{Telling, all_tellings, in_binders_order, told_variables};
use kp_clauses::clauses_of_all;
use kp_compile::{CompileError, has_injection, injects};
use kp_goals::{Consequent, match_clauses};
use kp_kore::{Pattern, Sort};
use kp_outward::{WritingError, equality_out};
use kp_pattern_substitution::build::conjunction_of;
use kp_signature::Signature;
use kp_symbolic::{Atom, Clause, Language, Literal, State, Variable};
use std::alloc::{AllocError, Global};
use std::sync::Arc;

/// What the match of the two terms as they were read tells, and what the predicates do.
pub fn tellings_of(
    alloc: Global,
    language: &Language,
    consequent: &Consequent<'_>,
    state: &State,
) -> Result<Vec<Telling>, CompileError>
    ensures { IfOk result (λ ts. map telling_view ts.items ≡ model.tellings_of (language_view language.now) (consequent_view consequent.now) (state_view state.now)) }
{
    let matched = match_clauses(alloc, language.signature, state, consequent)?;
    let asked = clauses_of_all(alloc, language, &[], &consequent.predicates)?;
    let all = entries::equalities(alloc, language, &matched, &asked)?;
    Ok(all_tellings(alloc, language.signature, &consequent.bound, &all)?)
}

/// The bound variables that the substitution tells.
pub fn told_of(
    alloc: Global,
    language: &Language,
    consequent: &Consequent<'_>,
    state: &State,
) -> Result<Vec<Arc<Variable>>, CompileError>
    ensures { IfOk result (λ xs. variables_view xs.items ≡ model.told_of (language_view language.now) (consequent_view consequent.now) (state_view state.now)) }
{
    let tellings = tellings_of(alloc, language, consequent, state)?;
    Ok(told_variables(alloc, &tellings)?)
}

/// The equalities of the substitution.
pub fn equalities(
    alloc: Global,
    language: &Language,
    consequent: &Consequent<'_>,
    state: &State,
) -> Result<Vec<Atom>, CompileError>
    ensures { IfOk result (λ all. map atom_view all.items ≡ model.equalities_of (language_view language.now) (consequent_view consequent.now) (state_view state.now)) }
{
    let tellings = tellings_of(alloc, language, consequent, state)?;
    Ok(in_binders_order(alloc, &tellings, &consequent.bound)?)
}

/// An atom as a clause.
fn alone(alloc: Global, atom: &Atom) -> Result<Clause, AllocError>
    ensures { IfOk result (λ c. clause_view c ≡ record { holds = true; atom = atom_view atom.now } ∷ []) }
{
    let mut literals = Vec::new(alloc);
    literals.push(Literal {
        holds: true,
        atom: atom.share(alloc)?,
    })?;
    Ok(Clause {
        literals: Arc::new(alloc, literals)?,
    })
}

/// The equalities as clauses.
pub fn alone_clauses(alloc: Global, all: &[Atom]) -> Result<Vec<Clause>, AllocError>
    ensures { IfOk result (λ cs. clauses_view cs.items ≡ model.alone_clauses (map atom_view all.now)) }
{
    let mut found = Vec::new(alloc);
    for atom in all {
        found.push(alone(alloc, atom)?)?;
    }
    Ok(found)
}

/// An equality as a predicate.
fn written(
    alloc: Global,
    language: &Language,
    sort: &Sort,
    atom: &Atom,
) -> Result<Box<Pattern>, AllocError>
    ensures { IfOk result (λ p. view p.value ≡ written_atom (language_view language.now) (sort_view sort.now) (atom_view atom.now)) }
{
    match atom {
        Atom::Same {
            sort: compared,
            left,
            right,
        } => equality_out(alloc, language, sort, compared, left, right),
        Atom::Head { .. } | Atom::Quoted { .. } => Err(AllocError),
    }
}

/// The equalities as predicates.
fn all_written(
    alloc: Global,
    language: &Language,
    sort: &Sort,
    all: &[Atom],
) -> Result<Vec<Pattern>, AllocError>
    ensures { let g = language_view language.now in IfOk result (λ ps. map view ps.items ≡ map (λ a. written_atom g (sort_view sort.now) a) (map atom_view all.now)) }
{
    let mut found = Vec::new(alloc);
    for atom in all {
        let pattern = written(alloc, language, sort, atom)?;
        found.push(Box::into_inner(pattern))?;
    }
    Ok(found)
}

/// `\top`.
fn top_at(alloc: Global, sort: &Sort) -> Result<Box<Pattern>, AllocError>
    ensures { IfOk result (λ p. view p.value ≡ top (sort_view sort.now)) }
{
    let pattern = Pattern::Top {
        sort: sort.copy(alloc)?,
    };
    Ok(Box::new(alloc, pattern)?)
}

/// The `\and` of several equalities.
fn several(
    alloc: Global,
    language: &Language,
    sort: &Sort,
    all: &[Atom],
) -> Result<Box<Pattern>, AllocError>
    ensures { let g = language_view language.now in let s = sort_view sort.now in IfOk result (λ p. view p.value ≡ conjunction s (patterns_of (map (λ a. written_atom g s a) (map atom_view all.now)))) }
{
    let patterns = all_written(alloc, language, sort, all)?;
    Ok(Box::new(alloc, conjunction_of(alloc, sort, patterns)?)?)
}

/// The `\and` of the equalities, one alone, and `\top` of none.
fn joined_unchecked(
    alloc: Global,
    language: &Language,
    sort: &Sort,
    all: &[Atom],
) -> Result<Box<Pattern>, AllocError>
    ensures { IfOk result (λ p. view p.value ≡ model.joined_atoms (language_view language.now) (sort_view sort.now) (map atom_view all.now)) }
{
    match all {
        [] => top_at(alloc, sort),
        [atom] => written(alloc, language, sort, atom),
        _ => several(alloc, language, sort, all),
    }
}

/// The pattern, unless an `inj` stands in it that the signature doesn't have.
fn checked(
    alloc: Global,
    signature: &Signature,
    pattern: Box<Pattern>,
) -> Result<Box<Pattern>, WritingError>
    ensures same { IfOk result (λ p. view p.value ≡ view pattern.value) }
    ensures injects { IfOk result (λ p. InjectsWhereItStands (signature_view signature.now) (view p.value)) }
    ensures refused { IfErr result (λ e. IsNoInjection e → ¬ InjectsWhereItStands (signature_view signature.now) (view pattern.value)) }
{
    if has_injection(signature) {
        return Ok(pattern);
    }
    if injects(alloc, &pattern)? {
        return Err(WritingError::NoInjection);
    }
    Ok(pattern)
}

/// The substitution of these equalities.
///
/// # Errors
/// `NoInjection` where an `inj` would stand in it that the signature doesn't have.
pub fn joined(
    alloc: Global,
    language: &Language,
    sort: &Sort,
    all: &[Atom],
) -> Result<Box<Pattern>, WritingError>
    ensures is { IfOk result (λ p. view p.value ≡ model.joined_atoms (language_view language.now) (sort_view sort.now) (map atom_view all.now)) }
    ensures injects { IfOk result (λ p. InjectsWhereItStands (language_view language.now) (view p.value)) }
    ensures refused { let g = language_view language.now in IfErr result (λ e. IsNoInjection e → ¬ InjectsWhereItStands g (model.joined_atoms g (sort_view sort.now) (map atom_view all.now))) }
{
    let pattern = joined_unchecked(alloc, language, sort, all)?;
    checked(alloc, language.signature, pattern)
}
