// Formulas and clauses as texts.
use kp_formulas::Formula;
use kp_symbolic::{Atom, Clause, Literal};
use std::alloc::AllocError;

/// The mark of a literal's kind: none for an equality.
fn kind(literal: &Literal) -> &'static str {
    match literal.atom {
        Atom::Same { .. } => "",
        Atom::Head { .. } => "h",
        Atom::Quoted { .. } => "q",
    }
}

/// Adds a literal by its sign and kind.
fn add_literal(literal: &Literal, form: &mut String) -> Result<(), AllocError> {
    form.push_str(if literal.holds { "+" } else { "-" })?;
    form.push_str(kind(literal))
}

/// Adds the formula's form: facts as literals, what is under 'all of' in round brackets, under 'one of' in square ones.
#[cycle(form)]
pub(crate) fn add_formula(formula: &Formula, form: &mut String) -> Result<(), AllocError> {
    match formula {
        Formula::Fact { literal } => add_literal(literal, form),
        Formula::AllOf { parts } => {
            form.push_str("(")?;
            add_formulas(parts, form)?;
            form.push_str(")")
        }
        Formula::OneOf { parts } => {
            form.push_str("[")?;
            add_formulas(parts, form)?;
            form.push_str("]")
        }
    }
}

/// The same of each part.
#[cycle(form)]
fn add_formulas(formulas: &[Formula], form: &mut String) -> Result<(), AllocError> {
    for formula in formulas {
        add_formula(formula, form)?;
    }
    Ok(())
}

/// Adds the clauses' form: the literals of each in square brackets.
pub(crate) fn add_clauses(clauses: &[Clause], form: &mut String) -> Result<(), AllocError> {
    for clause in clauses {
        add_clause(clause, form)?;
    }
    Ok(())
}

/// The same of a clause.
fn add_clause(clause: &Clause, form: &mut String) -> Result<(), AllocError> {
    form.push_str("[")?;
    for literal in &*clause.literals {
        add_literal(literal, form)?;
    }
    form.push_str("]")
}
