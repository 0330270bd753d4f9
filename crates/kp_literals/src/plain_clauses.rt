// Which clauses are plain, and which aren't.
ghost use Rattle.std.specs.Prelude.{◌≡◌, IfOk, OnOk, not, map, if◌then◌else◌, ◌++◌, ◌∷◌, []};
ghost use Rattle.std.specs.List.{list_any, list_all, filter};
ghost use Rattle.kp_symbolic.specs.Plain as model;
ghost use Rattle.kp_symbolic.specs.View as terms;
ghost use Rattle.kp_literals.specs.Readings.{read_view, clauses_view};
ghost use Rattle.kp_literals.specs.Parts.{clauses_of, is_plain_read};

use crate::ReadLiteral;
use kp_symbolic::{Clause, Literal};
use std::alloc::{AllocError, Global};
use std::sync::Arc;

/// Whether a literal says what is decided.
fn has_form(literal: ReadLiteral) -> bool
    ensures { result ≡ model.has_form (read_view literal.entry) }
{
    literal.form.is_some()
}

/// Whether all literals say what is decided.
pub fn is_plain(clause: &[ReadLiteral]) -> bool
    ensures { result ≡ model.is_plain_clause (map read_view clause.now) }
{
    for literal in clause {
        if !has_form(*literal) {
            return false;
        }
    }
    true
}

/// Whether a literal says what is decided.
fn has_plain(clause: &[ReadLiteral]) -> bool
    ensures { result ≡ list_any model.has_form (map read_view clause.now) }
{
    for literal in clause {
        if has_form(*literal) {
            return true;
        }
    }
    false
}

/// Whether each clause has a literal that says what is decided.
pub fn have_plain(clauses: &[Vec<ReadLiteral>]) -> bool
    ensures { result ≡ list_all (λ c. list_any model.has_form c) (clauses_view clauses.now) }
{
    for clause in clauses {
        if !has_plain(clause) {
            return false;
        }
    }
    true
}

/// The same literals.
fn same_clause<'a>(
    alloc: Global,
    clause: &[ReadLiteral<'a>],
) -> Result<Vec<ReadLiteral<'a>>, AllocError>
    ensures view { IfOk result (λ c. map read_view c.items ≡ map read_view clause.now) }
    ensures same { IfOk result (λ c. c.items ≡ clause.now) }
{
    let mut same = Vec::new(alloc);
    for literal in clause {
        same.push(*literal)?;
    }
    Ok(same)
}

/// Adds a clause, where it is plain.
fn add_plain<'a>(
    plain: &mut Vec<Vec<ReadLiteral<'a>>>,
    alloc: Global,
    clause: &[ReadLiteral<'a>],
) -> Result<(), AllocError>
    ensures view { OnOk result (clauses_view plain.new.items ≡ clauses_view plain.old.items ++ filter model.is_plain_clause (map read_view clause.now ∷ [])) }
    ensures same { OnOk result (clauses_of plain.new.items ≡ clauses_of plain.old.items ++ filter is_plain_read (clause.now ∷ [])) }
{
    if is_plain(clause) {
        plain.push(same_clause(alloc, clause)?)?;
    }
    Ok(())
}

/// The clauses that are plain.
pub fn plain_clauses<'a>(
    alloc: Global,
    clauses: &[Vec<ReadLiteral<'a>>],
) -> Result<Vec<Vec<ReadLiteral<'a>>>, AllocError>
    ensures view { IfOk result (λ cs. clauses_view cs.items ≡ filter model.is_plain_clause (clauses_view clauses.now)) }
    ensures same { IfOk result (λ cs. clauses_of cs.items ≡ filter is_plain_read (clauses_of clauses.now)) }
{
    let mut plain = Vec::new(alloc);
    for clause in clauses {
        add_plain(&mut plain, alloc, clause)?;
    }
    Ok(plain)
}

/// The literals of a clause, without what they say.
fn literals_of(alloc: Global, clause: &[ReadLiteral]) -> Result<Vec<Literal>, AllocError>
    ensures { IfOk result (λ ls. map terms.literal_view ls.items ≡ model.literals_of (map read_view clause.now)) }
{
    let mut literals = Vec::new(alloc);
    for literal in clause {
        literals.push(literal.literal.share(alloc)?)?;
    }
    Ok(literals)
}

/// Adds the clause of literals, where it isn't plain.
fn add_rough(
    rough: &mut Vec<Clause>,
    alloc: Global,
    clause: &[ReadLiteral],
) -> Result<(), AllocError>
    ensures { let added = filter (λ c. not (model.is_plain_clause c)) (map read_view clause.now ∷ []) in OnOk result (terms.clauses_view rough.new.items ≡ terms.clauses_view rough.old.items ++ map model.literals_of added) }
{
    if !is_plain(clause) {
        let literals = literals_of(alloc, clause)?;
        rough.push(Clause {
            literals: Arc::new(alloc, literals)?,
        })?;
    }
    Ok(())
}

/// The clauses that aren't plain.
pub fn rough_clauses(alloc: Global, clauses: &[Vec<ReadLiteral>]) -> Result<Vec<Clause>, AllocError>
    ensures { IfOk result (λ cs. terms.clauses_view cs.items ≡ map model.literals_of (filter (λ c. not (model.is_plain_clause c)) (clauses_view clauses.now))) }
{
    let mut rough = Vec::new(alloc);
    for clause in clauses {
        add_rough(&mut rough, alloc, clause)?;
    }
    Ok(rough)
}
