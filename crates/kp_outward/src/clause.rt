// Clauses as predicates.
ghost use Rattle.std.specs.Prelude.{◌≡◌, List, IfOk, IfErr, OnOk, map};
ghost use Rattle.std.specs.List.{AllByRecursion};
ghost use Rattle.kp_compile.specs.declared.error.CompileError.TheVariants.{Memory};
ghost use Rattle.kp_kore.specs.Syntax.{disjunction};
ghost use Rattle.kp_kore.specs.View.{view, sort_view};
ghost use Rattle.kp_symbolic.specs.States as states;
ghost use Rattle.kp_symbolic.specs.Writing.{written_literal, written_literals};
ghost use Rattle.kp_symbolic_laws.specs.Runs.{HasRoomAtom, HasRoomClause};
ghost use Rattle.kp_symbolic.specs.Languages.{language_view};
ghost use Rattle.kp_symbolic.specs.View.{clause_view, literal_view};
ghost use Rattle.kp_outward.specs.Arranged.{IsArrangedClause, IsWrittenClause};
ghost use Rattle.kp_outward.specs.View.{patterns_in};
ghost use Rattle.kp_outward.specs.Parts.{IsFaultlessAtom};

use crate::joined::{bottom_out, either_out};
use crate::literal_out;
use crate::order::put_in_order;
use crate::own_clause::alone_out;
use crate::texts::{Spelled, spell};
use kp_compile::CompileError;
use kp_kore::{Pattern, Sort};
use kp_symbolic::{Clause, Language, Literal};
use std::alloc::Global;

/// The literals as predicates.
fn literals_out(
    alloc: Global,
    language: &Language,
    sort: &Sort,
    literals: &[Literal],
) -> Result<Vec<Spelled>, CompileError>
    ensures written { let g = language_view language.now in IfOk result (λ ps. patterns_in ps.items ≡ map (written_literal g (sort_view sort.now)) (map literal_view literals.now)) }
    ensures room { OnOk result (AllByRecursion (λ l. HasRoomAtom (language_view language.now) (literal_view l).atom) literals.now) }
    ensures refused { IfErr result (λ e. AllByRecursion (λ l. IsFaultlessAtom (language_view language.now) (literal_view l).atom) literals.now → e ≡ Memory) }
{
    let mut found = Vec::new(alloc);
    for literal in literals {
        found.push(spell(alloc, literal_out(alloc, language, sort, literal)?)?)?;
    }
    Ok(found)
}

/// The `\or` of these literals, in the order of their texts.
fn several_out(
    alloc: Global,
    language: &Language,
    sort: &Sort,
    literals: &[Literal],
) -> Result<Box<Pattern>, CompileError>
    ensures written { let g = language_view language.now in let s = sort_view sort.now in IfOk result (λ p. (d : List states.Literal) × IsArrangedClause g s (map literal_view literals.now) d × (view p.value ≡ disjunction s (written_literals g s d))) }
    ensures room { OnOk result (AllByRecursion (λ l. HasRoomAtom (language_view language.now) (literal_view l).atom) literals.now) }
    ensures refused { IfErr result (λ e. AllByRecursion (λ l. IsFaultlessAtom (language_view language.now) (literal_view l).atom) literals.now → e ≡ Memory) }
{
    let mut spelled = literals_out(alloc, language, sort, literals)?;
    put_in_order(&mut spelled);
    Ok(either_out(alloc, sort, spelled)?)
}

/// The clause of these literals as a predicate.
fn of_literals(
    alloc: Global,
    language: &Language,
    sort: &Sort,
    literals: &[Literal],
) -> Result<Box<Pattern>, CompileError>
    ensures written { let g = language_view language.now in IfOk result (λ p. IsWrittenClause g (sort_view sort.now) (map literal_view literals.now) (view p.value)) }
    ensures room { OnOk result (AllByRecursion (λ l. HasRoomAtom (language_view language.now) (literal_view l).atom) literals.now) }
    ensures refused { IfErr result (λ e. AllByRecursion (λ l. IsFaultlessAtom (language_view language.now) (literal_view l).atom) literals.now → e ≡ Memory) }
{
    if literals.is_empty() {
        return Ok(bottom_out(alloc, sort)?);
    }
    if literals.len() == 1 {
        return alone_out(alloc, language, sort, &literals[0]);
    }
    several_out(alloc, language, sort, literals)
}

/// A clause as a predicate: its literals in the order of their texts, under `\or` where there are several, `\bottom` where
/// there is none. It is refused for want of memory alone, but for a predicate that isn't opened and has a verify fault: that also
/// where a number in it can't be read.
pub fn clause_out(
    alloc: Global,
    language: &Language,
    sort: &Sort,
    clause: &Clause,
) -> Result<Box<Pattern>, CompileError>
    ensures written { let g = language_view language.now in IfOk result (λ p. IsWrittenClause g (sort_view sort.now) (clause_view clause.now) (view p.value)) }
    ensures room { OnOk result (HasRoomClause (language_view language.now) (clause_view clause.now)) }
    ensures refused { IfErr result (λ e. AllByRecursion (λ l. IsFaultlessAtom (language_view language.now) (literal_view l).atom) clause.now.literals.value.items → e ≡ Memory) }
{
    of_literals(alloc, language, sort, &clause.literals)
}
