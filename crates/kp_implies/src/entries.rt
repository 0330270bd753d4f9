// The equalities that may be written in a substitution.
ghost use Rattle.std.specs.Prelude.{◌≡◌, ◌++◌, if◌then◌else◌, neg_ℤ, IfOk, OnOk, None, Some, map, option_map};
ghost use Rattle.kp_kore.specs.View.{sort_view};
ghost use Rattle.kp_signature.specs.View.{signature_view};
ghost use Rattle.kp_symbolic.specs.Languages.{language_view};
ghost use Rattle.kp_symbolic.specs.States.{same};
ghost use Rattle.kp_symbolic.specs.Terms.{unknown};
ghost use Rattle.kp_symbolic.specs.View.{atom_view, clause_view, clauses_view, literal_view, term_view, variable_view};
ghost use Rattle.kp_goals.specs.Gives as gives;
ghost use Rattle.kp_implies.specs.Printed as model;

use crate::matched::exchanged;
use kp_goals::shifted;
use kp_kore::Sort;
use kp_literals::equation::is_solved_by;
use kp_signature::Signature;
use kp_symbolic::{Atom, Clause, Language, Literal, Term, Variable};
use kp_unify::literals::make_unknown;
use std::alloc::{AllocError, Global};
use std::sync::Arc;

/// An equality at a sort.
fn equality(alloc: Global, sort: &Sort, left: &Term, right: &Term) -> Result<Atom, AllocError>
    ensures { IfOk result (λ a. atom_view a ≡ same (sort_view sort.now) (term_view left.now) (term_view right.now)) }
{
    Ok(Atom::Same {
        sort: Arc::new(alloc, sort.copy(alloc)?)?,
        left: left.share(alloc)?,
        right: right.share(alloc)?,
    })
}

/// The equality of a variable with a term, at the variable's sort.
fn variable_is(alloc: Global, variable: &Arc<Variable>, term: &Term) -> Result<Atom, AllocError>
    ensures { let x = variable_view variable.now.value in IfOk result (λ a. atom_view a ≡ same x.sort (unknown x) (term_view term.now)) }
{
    let alone = make_unknown(variable)?;
    equality(alloc, &variable.sort, &alone, term)
}

/// The equality of two terms at the first's sort, where it is a variable that can be solved for.
fn at_variable(
    alloc: Global,
    signature: &Signature,
    sort: &Sort,
    left: &Term,
    right: &Term,
) -> Result<Atom, AllocError>
    ensures { IfOk result (λ a. atom_view a ≡ model.at_variable (signature_view signature.now) (sort_view sort.now) (term_view left.now) (term_view right.now)) }
{
    match left {
        Term::Unknown { variable } => {
            if is_solved_by(signature, variable, right) {
                return equality(alloc, &variable.sort, left, right);
            }
            equality(alloc, sort, left, right)
        }
        Term::Offset { .. } | Term::Known { .. } | Term::Headed { .. } => {
            equality(alloc, sort, left, right)
        }
    }
}

/// The equality of two terms where it says that the variable is the last: that first, where it can be solved for.
fn alone_first(
    alloc: Global,
    signature: &Signature,
    sort: &Sort,
    left: &Term,
    right: &Term,
    variable: &Arc<Variable>,
    alone: &Term,
) -> Result<Atom, AllocError>
    ensures { let g = signature_view signature.now in let y = variable_view variable.now.value in IfOk result (λ a. atom_view a ≡ model.alone_first g (sort_view sort.now) (term_view left.now) (term_view right.now) y (Some (term_view alone.now))) }
{
    if is_solved_by(signature, variable, alone) {
        return variable_is(alloc, variable, alone);
    }
    at_variable(alloc, signature, sort, left, right)
}

/// The same of a variable with a constant.
fn less_first(
    alloc: Global,
    language: &Language,
    sort: &Sort,
    left: &Term,
    right: &Term,
    variable: &Arc<Variable>,
    constant: i128,
) -> Result<Atom, AllocError>
    ensures { let g = language_view language.now in let u = gives.shifted g (neg_ℤ constant) (term_view left.now) in
        IfOk result (λ a. atom_view a ≡ model.alone_first g (sort_view sort.now) (term_view left.now) (term_view right.now) (variable_view variable.now.value) u) }
{
    match shifted(language, left, constant)? {
        Some(less) => alone_first(
            alloc,
            language.signature,
            sort,
            left,
            right,
            variable,
            &less,
        ),
        None => at_variable(alloc, language.signature, sort, left, right),
    }
}

/// How the equality of a part of the antecedent's term with one of the consequent's is written.
fn oriented(
    alloc: Global,
    language: &Language,
    sort: &Sort,
    left: &Term,
    right: &Term,
) -> Result<Atom, AllocError>
    ensures { IfOk result (λ a. atom_view a ≡ model.oriented (language_view language.now) (sort_view sort.now) (term_view left.now) (term_view right.now)) }
{
    match right {
        Term::Unknown { variable } => alone_first(
            alloc,
            language.signature,
            sort,
            left,
            right,
            variable,
            left,
        ),
        Term::Offset { variable, constant } => {
            less_first(alloc, language, sort, left, right, variable, *constant)
        }
        Term::Known { .. } | Term::Headed { .. } => {
            at_variable(alloc, language.signature, sort, left, right)
        }
    }
}

/// The atom of a literal that holds.
fn held_atom(literal: &Literal) -> Option<&Atom>
    ensures { let l = literal_view literal.now in option_map (λ a. atom_view a.now) result ≡ (if l.holds then Some l.atom else None) }
{
    if literal.holds {
        return Some(&literal.atom);
    }
    None
}

/// The atom of a clause of one literal that holds.
pub fn only_atom(clause: &Clause) -> Option<&Atom>
    ensures { option_map (λ a. atom_view a.now) result ≡ model.only_atom (clause_view clause.now) }
{
    match clause.literals.as_slice() {
        [literal] => held_atom(literal),
        _ => None,
    }
}

/// Adds an equality of the match as it is written.
fn add_oriented(
    alloc: Global,
    language: &Language,
    atom: &Atom,
    found: &mut Vec<Atom>,
) -> Result<(), AllocError>
    ensures { let g = language_view language.now in OnOk result (map atom_view found.new.items ≡ map atom_view found.old.items ++ model.equality_in (model.oriented g) (Some (atom_view atom.now))) }
{
    match atom {
        Atom::Same { sort, left, right } => {
            Ok(found.push(oriented(alloc, language, sort, left, right)?)?)
        }
        Atom::Head { .. } | Atom::Quoted { .. } => Ok(()),
    }
}

/// The same of a clause.
fn add_clause_oriented(
    alloc: Global,
    language: &Language,
    clause: &Clause,
    found: &mut Vec<Atom>,
) -> Result<(), AllocError>
    ensures { let g = language_view language.now in OnOk result (map atom_view found.new.items ≡ map atom_view found.old.items ++ model.equality_in (model.oriented g) (model.only_atom (clause_view clause.now))) }
{
    match only_atom(clause) {
        Some(atom) => add_oriented(alloc, language, atom, found),
        None => Ok(()),
    }
}

/// The same of each of these.
fn add_all_oriented(
    alloc: Global,
    language: &Language,
    clauses: &[Clause],
    found: &mut Vec<Atom>,
) -> Result<(), AllocError>
    ensures { let g = language_view language.now in OnOk result (map atom_view found.new.items ≡ map atom_view found.old.items ++ model.equalities_in (model.oriented g) (clauses_view clauses.now)) }
{
    for clause in clauses {
        add_clause_oriented(alloc, language, clause, found)?;
    }
    Ok(())
}

/// Adds an equality of the predicates as it stands.
fn add_asked(alloc: Global, atom: &Atom, found: &mut Vec<Atom>) -> Result<(), AllocError>
    ensures { OnOk result (map atom_view found.new.items ≡ map atom_view found.old.items ++ model.equality_in same (Some (atom_view atom.now))) }
{
    match atom {
        Atom::Same { sort, left, right } => Ok(found.push(equality(alloc, sort, left, right)?)?),
        Atom::Head { .. } | Atom::Quoted { .. } => Ok(()),
    }
}

/// The same of a clause.
fn add_clause_asked(alloc: Global, clause: &Clause, found: &mut Vec<Atom>) -> Result<(), AllocError>
    ensures { OnOk result (map atom_view found.new.items ≡ map atom_view found.old.items ++ model.equality_in same (model.only_atom (clause_view clause.now))) }
{
    match only_atom(clause) {
        Some(atom) => add_asked(alloc, atom, found),
        None => Ok(()),
    }
}

/// The same of each of these.
fn add_all_asked(alloc: Global, clauses: &[Clause], found: &mut Vec<Atom>) -> Result<(), AllocError>
    ensures { OnOk result (map atom_view found.new.items ≡ map atom_view found.old.items ++ model.equalities_in same (clauses_view clauses.now)) }
{
    for clause in clauses {
        add_clause_asked(alloc, clause, found)?;
    }
    Ok(())
}

/// The equalities of the match, and those of the predicates as they stand.
pub fn equalities(
    alloc: Global,
    language: &Language,
    matched: &[Clause],
    asked: &[Clause],
) -> Result<Vec<Atom>, AllocError>
    ensures { IfOk result (λ all. map atom_view all.items ≡ model.equalities (language_view language.now) (clauses_view matched.now) (clauses_view asked.now)) }
{
    let matched = exchanged(alloc, language.signature, matched)?;
    let mut found = Vec::new(alloc);
    add_all_oriented(alloc, language, &matched, &mut found)?;
    add_all_asked(alloc, asked, &mut found)?;
    Ok(found)
}
