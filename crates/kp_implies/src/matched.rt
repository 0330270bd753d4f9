// A variable of the antecedent that is matched twice: in the place of the second match stands that the two terms are equal.
ghost use Rattle.std.specs.Prelude.{◌≡◌, ◌++◌, ◌&&◌, [], ◌∷◌, if◌then◌else◌, IfOk, OnOk, Some, map, option_map};
ghost use Rattle.std.specs.Str.{bytes_eq};
ghost use Rattle.kp_kore.specs.Attributes.{sorts_equal};
ghost use Rattle.kp_kore.specs.Signature.{meaning_of as named};
ghost use Rattle.kp_kore.specs.View.{sort_view};
ghost use Rattle.kp_signature.specs.View.{signature_view};
ghost use Rattle.kp_symbolic.specs.Heads.{is_construction as test};
ghost use Rattle.kp_symbolic.specs.States.{same};
ghost use Rattle.kp_symbolic.specs.Terms.{unknown};
ghost use Rattle.kp_symbolic.specs.View.{atom_view, clause_view, clauses_view, term_view, variable_view};
ghost use Rattle.kp_implies.specs.Printed as model;
ghost use Rattle.kp_implies.specs.View.{matched_view};

use crate::entries::only_atom;
use kp_kore::Sort;
use kp_literals::value_kinds::is_same;
use kp_signature::{Meaning, Signature, meaning_of};
use kp_symbolic::{Atom, Clause, Term, Variable};
use kp_unify::literals::equal_clauses;
use std::alloc::{AllocError, Global};
use std::sync::Arc;

/// A variable that is matched at a sort with the application of a constructor.
#[derive(Drop)]
pub struct Matched {
    pub variable: Arc<Variable>,
    pub sort: Arc<Sort>,
    pub term: Term,
}

/// Whether a symbol is a constructor.
pub fn is_construction(signature: &Signature, symbol: &str) -> bool
    ensures { result ≡ test (named (signature_view signature.now) symbol.now) }
{
    matches!(meaning_of(signature, symbol), Meaning::Constructor)
}

/// Whether a term is the application of a constructor.
fn is_constructed(signature: &Signature, term: &Term) -> bool
    ensures { result ≡ model.is_constructed (signature_view signature.now) (term_view term.now) }
{
    match term {
        Term::Headed { symbol, .. } => is_construction(signature, symbol),
        Term::Unknown { .. } | Term::Offset { .. } | Term::Known { .. } => false,
    }
}

/// A match of the variable with the term.
fn match_of(
    alloc: Global,
    sort: &Arc<Sort>,
    variable: &Arc<Variable>,
    term: &Term,
) -> Result<Matched, AllocError>
    ensures { IfOk result (λ m. matched_view m ≡ record { variable = variable_view variable.now.value; sort = sort_view sort.now.value; term = term_view term.now }) }
{
    Ok(Matched {
        variable: variable.clone()?,
        sort: sort.clone()?,
        term: term.share(alloc)?,
    })
}

/// The match of the variable, where the term is the application of a constructor.
fn match_if(
    alloc: Global,
    signature: &Signature,
    sort: &Arc<Sort>,
    variable: &Arc<Variable>,
    term: &Term,
) -> Result<Option<Matched>, AllocError>
    ensures { let g = signature_view signature.now in let x = variable_view variable.now.value in IfOk result (λ o. option_map matched_view o ≡ model.matched_if g (sort_view sort.now.value) x (term_view term.now)) }
{
    if is_constructed(signature, term) {
        return Ok(Some(match_of(alloc, sort, variable, term)?));
    }
    Ok(None)
}

/// The match that an atom is.
fn match_in_atom(
    alloc: Global,
    signature: &Signature,
    atom: &Atom,
) -> Result<Option<Matched>, AllocError>
    ensures { IfOk result (λ o. option_map matched_view o ≡ model.matched_in (signature_view signature.now) (Some (atom_view atom.now))) }
{
    match atom {
        Atom::Same {
            sort,
            left: Term::Unknown { variable },
            right,
        } => match_if(alloc, signature, sort, variable, right),
        Atom::Same {
            left: Term::Offset { .. } | Term::Known { .. } | Term::Headed { .. },
            ..
        }
        | Atom::Head { .. }
        | Atom::Quoted { .. } => Ok(None),
    }
}

/// The match that a clause is.
fn match_in(
    alloc: Global,
    signature: &Signature,
    clause: &Clause,
) -> Result<Option<Matched>, AllocError>
    ensures { IfOk result (λ o. option_map matched_view o ≡ model.matched_in (signature_view signature.now) (model.only_atom (clause_view clause.now))) }
{
    match only_atom(clause) {
        Some(atom) => match_in_atom(alloc, signature, atom),
        None => Ok(None),
    }
}

/// Whether it is of the same variable at the same sort.
fn is_of(first: &Matched, next: &Matched) -> bool
    ensures { let n = matched_view first.now in let m = matched_view next.now in result ≡ (bytes_eq n.variable.name m.variable.name && sorts_equal n.sort m.sort) }
{
    first.variable.name.as_str() == next.variable.name.as_str() && is_same(&first.sort, &next.sort)
}

/// What the same variable was matched with first.
fn first_of<'a>(before: &'a [Matched], next: &Matched) -> Option<&'a Term>
    ensures { option_map (λ t. term_view t.now) result ≡ model.first_of (map matched_view before.now) (matched_view next.now) }
{
    for first in before {
        if is_of(first, next) {
            return Some(&first.term);
        }
    }
    None
}

/// Adds the clause, or that the term is what its variable was matched with before.
fn add_for(
    alloc: Global,
    signature: &Signature,
    before: &[Matched],
    clause: &Clause,
    next: &Matched,
    found: &mut Vec<Clause>,
) -> Result<(), AllocError>
    ensures { let g = signature_view signature.now in let m = matched_view next.now in OnOk result (clauses_view found.new.items ≡ clauses_view found.old.items ++ model.exchanged_for g (clause_view clause.now) m (model.first_of (map matched_view before.now) m)) }
{
    match first_of(before, next) {
        Some(first) => {
            let mut clauses = equal_clauses(alloc, signature, &next.sort, first, &next.term)?;
            Ok(found.append(&mut clauses)?)
        }
        None => Ok(found.push(clause.share()?)?),
    }
}

/// Adds what stands in a clause's place, and its match.
fn add_exchanged(
    alloc: Global,
    signature: &Signature,
    clause: &Clause,
    before: &mut Vec<Matched>,
    found: &mut Vec<Clause>,
) -> Result<(), AllocError>
    ensures clauses { let g = signature_view signature.now in let c = clause_view clause.now in OnOk result (clauses_view found.new.items ≡ clauses_view found.old.items ++ model.exchanged_one g (map matched_view before.old.items) c (model.matched_in g (model.only_atom c))) }
    ensures matches { let g = signature_view signature.now in OnOk result (map matched_view before.new.items ≡ model.with_match (map matched_view before.old.items) (model.matched_in g (model.only_atom (clause_view clause.now)))) }
{
    match match_in(alloc, signature, clause)? {
        Some(next) => {
            add_for(alloc, signature, before, clause, &next, found)?;
            Ok(before.push(next)?)
        }
        None => Ok(found.push(clause.share()?)?),
    }
}

/// The clauses of a match, those exchanged that match a variable again.
pub fn exchanged(
    alloc: Global,
    signature: &Signature,
    clauses: &[Clause],
) -> Result<Vec<Clause>, AllocError>
    ensures { IfOk result (λ cs. clauses_view cs.items ≡ model.exchanged (signature_view signature.now) [] (clauses_view clauses.now)) }
{
    let mut before = Vec::new(alloc);
    let mut found = Vec::new(alloc);
    for clause in clauses {
        add_exchanged(alloc, signature, clause, &mut before, &mut found)?;
    }
    Ok(found)
}
