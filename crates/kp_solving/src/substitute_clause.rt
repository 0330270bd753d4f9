// A clause with terms in the place of variables.
ghost use Rattle.std.specs.Prelude.{◌≡◌, [], ◌∷◌, IfOk, IfErr, map};
ghost use Rattle.std.specs.List.{AllByRecursion};
ghost use Rattle.kp_compile.specs.declared.error.CompileError.TheVariants.{Memory};
ghost use Rattle.kp_kore.specs.View.{view, sort_view};
ghost use Rattle.kp_symbolic.specs.Writing.{written_clause};
ghost use Rattle.kp_symbolic.specs.Languages.{language_view};
ghost use Rattle.kp_symbolic.specs.View.{literal_view, clause_view, clauses_view, replaced_view};
ghost use Rattle.kp_clause_substitution.specs.Substituted as model;
ghost use Rattle.kp_clause_substitution.specs.Sums.{HasWrittenSums};
ghost use Rattle.kp_outward.specs.Parts.{IsFaultlessAtom};
ghost use Rattle.kp_solving.specs.Holding as holding;
ghost use Rattle.kp_solving.specs.Holding.{quoted_under, substituted_holding};

use crate::clause::{clause_alone, clauses_of, is_room};
use crate::quoted_clause::whole_out;
use kp_clause_substitution::open_clause;
use kp_compile::CompileError;
use kp_formulas::joined::make_clause;
use kp_formulas::quotation::quoted_literal;
use kp_kore::{Pattern, Sort};
use kp_literals::names::some_has_name;
use kp_symbolic::{Clause, Language, Literal, Replaced};
use std::alloc::{AllocError, Global};

/// Whether one of the variables in the place of which a term stands is in one of the literals.
fn holds_one(alloc: Global, by: &[Replaced], literals: &[Literal]) -> Result<bool, AllocError>
    ensures { IfOk result (λ b. b ≡ holding.holds_one (map replaced_view by.now) (map literal_view literals.now)) }
{
    for one in by {
        if some_has_name(alloc, literals, &one.name)? {
            return Ok(true);
        }
    }
    Ok(false)
}

/// A predicate with terms in the place of its variables, as a clause of one literal, alone.
fn quote_alone(alloc: Global, by: &[Replaced], pattern: &Pattern) -> Result<Vec<Clause>, AllocError>
    ensures { IfOk result (λ cs. clauses_view cs.items ≡ quoted_under (map replaced_view by.now) (view pattern.now) ∷ []) }
{
    let literal = quoted_literal(alloc, by, true, pattern)?;
    let mut clauses = Vec::new(alloc);
    clauses.push(make_clause(alloc, literal)?)?;
    Ok(clauses)
}

/// What is written for a clause, with terms in the place of variables, as one literal.
fn quote_clause(
    alloc: Global,
    language: &Language,
    sort: &Sort,
    by: &[Replaced],
    clause: &Clause,
) -> Result<Vec<Clause>, CompileError>
    ensures quoted { let pattern = written_clause (language_view language.now) (sort_view sort.now) (clause_view clause.now) in IfOk result (λ cs. clauses_view cs.items ≡ quoted_under (map replaced_view by.now) pattern ∷ []) }
    ensures refused { IfErr result (λ e. AllByRecursion (λ l. IsFaultlessAtom (language_view language.now) (literal_view l).atom) clause.now.literals.value.items → e ≡ Memory) }
{
    let pattern = whole_out(alloc, language, sort, clause)?;
    Ok(quote_alone(alloc, by, &pattern)?)
}

/// The clauses of a clause that holds one of the variables, behind so many literals: opened again with the terms in their
/// places, or as one literal where that makes too many.
fn substitute_holding(
    alloc: Global,
    language: &Language,
    sort: &Sort,
    by: &[Replaced],
    so_far: u64,
    clause: &Clause,
) -> Result<Vec<Clause>, CompileError>
    ensures substituted { let substituted = substituted_holding (language_view language.now) (sort_view sort.now) (map replaced_view by.now) so_far (clause_view clause.now) in IfOk result (λ cs. clauses_view cs.items ≡ substituted) }
    ensures refused { let g = language_view language.now in let ls = clause.now.literals.value.items in IfErr result (λ e. AllByRecursion (λ l. HasWrittenSums g (literal_view l).atom) ls → AllByRecursion (λ l. IsFaultlessAtom g (literal_view l).atom) ls → e ≡ Memory) }
{
    let opened = open_clause(alloc, language, by, clause)?;
    if is_room(so_far, &opened) {
        return Ok(clauses_of(opened));
    }
    quote_clause(alloc, language, sort, by, clause)
}

/// The clauses of a clause with terms in the place of variables, behind so many literals; a clause in which none of them
/// stands is shared. Refused where a sum in it can't be written, where a number in a predicate that isn't opened can't be
/// read, or for want of memory.
pub fn substitute_clause(
    alloc: Global,
    language: &Language,
    sort: &Sort,
    by: &[Replaced],
    so_far: u64,
    clause: &Clause,
) -> Result<Vec<Clause>, CompileError>
    ensures substituted { let substituted = model.substituted_clause (language_view language.now) (sort_view sort.now) (map replaced_view by.now) so_far (clause_view clause.now) in IfOk result (λ cs. clauses_view cs.items ≡ substituted) }
    ensures refused { let g = language_view language.now in let ls = clause.now.literals.value.items in IfErr result (λ e. AllByRecursion (λ l. HasWrittenSums g (literal_view l).atom) ls → AllByRecursion (λ l. IsFaultlessAtom g (literal_view l).atom) ls → e ≡ Memory) }
{
    if holds_one(alloc, by, &clause.literals)? {
        return substitute_holding(alloc, language, sort, by, so_far, clause);
    }
    Ok(clause_alone(alloc, clause)?)
}
