// A clause as a predicate, its literals in the order in which they stand.
ghost use Rattle.std.specs.Prelude.{◌≡◌, IfOk, IfErr, OnOk, map};
ghost use Rattle.std.specs.List.{AllByRecursion};
ghost use Rattle.kp_compile.specs.declared.error.CompileError.TheVariants.{Memory};
ghost use Rattle.kp_kore.specs.Syntax.{disjunction};
ghost use Rattle.kp_kore.specs.View.{view, sort_view, patterns_view};
ghost use Rattle.kp_signature.specs.View.{signature_view};
ghost use Rattle.kp_symbolic.specs.Writing as model;
ghost use Rattle.kp_symbolic.specs.Writing.{InjectsWhereItStands};
ghost use Rattle.kp_symbolic_laws.specs.Runs.{HasRoomAtom, HasRoomClause};
ghost use Rattle.kp_symbolic.specs.Languages.{language_view};
ghost use Rattle.kp_symbolic.specs.View.{literal_view, clause_view};
ghost use Rattle.kp_symbolic_laws.specs.Kept.{CanBeWrittenAt};
ghost use Rattle.kp_outward.specs.Parts.{IsFaultlessAtom};

use kp_compile::{CompileError, has_injection, injects};
use kp_kore::{Pattern, Sort};
use kp_outward::joined::bottom_out;
use kp_outward::literal_out;
use kp_outward::own_clause::alone_out;
use kp_pattern_substitution::build::disjunction_of;
use kp_signature::Signature;
use kp_symbolic::{Clause, Language, Literal};
use std::alloc::Global;

/// The literals as predicates.
fn literals_out(
    alloc: Global,
    language: &Language,
    sort: &Sort,
    literals: &[Literal],
) -> Result<Vec<Pattern>, CompileError>
    ensures written { IfOk result (λ ps. patterns_view ps.items ≡ model.written_literals (language_view language.now) (sort_view sort.now) (map literal_view literals.now)) }
    ensures room { OnOk result (AllByRecursion (λ l. HasRoomAtom (language_view language.now) (literal_view l).atom) literals.now) }
    ensures refused { IfErr result (λ e. AllByRecursion (λ l. IsFaultlessAtom (language_view language.now) (literal_view l).atom) literals.now → e ≡ Memory) }
{
    let mut patterns = Vec::new(alloc);
    for literal in literals {
        patterns.push(Box::into_inner(literal_out(alloc, language, sort, literal)?))?;
    }
    Ok(patterns)
}

/// The `\or` of several literals.
fn several_out(
    alloc: Global,
    language: &Language,
    sort: &Sort,
    literals: &[Literal],
) -> Result<Pattern, CompileError>
    ensures written { let g = language_view language.now in let s = sort_view sort.now in IfOk result (λ p. view p ≡ disjunction s (model.written_literals g s (map literal_view literals.now))) }
    ensures room { OnOk result (AllByRecursion (λ l. HasRoomAtom (language_view language.now) (literal_view l).atom) literals.now) }
    ensures refused { IfErr result (λ e. AllByRecursion (λ l. IsFaultlessAtom (language_view language.now) (literal_view l).atom) literals.now → e ≡ Memory) }
{
    let patterns = literals_out(alloc, language, sort, literals)?;
    Ok(disjunction_of(alloc, sort, patterns)?)
}

/// Literals as a clause, in which a literal alone has the variable first that it is solved for.
fn clause_out(
    alloc: Global,
    language: &Language,
    sort: &Sort,
    literals: &[Literal],
) -> Result<Pattern, CompileError>
    ensures written { IfOk result (λ p. view p ≡ model.written_clause (language_view language.now) (sort_view sort.now) (map literal_view literals.now)) }
    ensures room { OnOk result (AllByRecursion (λ l. HasRoomAtom (language_view language.now) (literal_view l).atom) literals.now) }
    ensures refused { IfErr result (λ e. AllByRecursion (λ l. IsFaultlessAtom (language_view language.now) (literal_view l).atom) literals.now → e ≡ Memory) }
{
    match literals {
        [] => Ok(Box::into_inner(bottom_out(alloc, sort)?)),
        [literal] => Ok(Box::into_inner(alone_out(alloc, language, sort, literal)?)),
        [_, _, ..] => several_out(alloc, language, sort, literals),
    }
}

/// A clause as a predicate, `\bottom` where it has no literal. It is refused for want of memory alone, where no predicate in it
/// that isn't opened has a verify fault.
pub fn whole_out(
    alloc: Global,
    language: &Language,
    sort: &Sort,
    clause: &Clause,
) -> Result<Pattern, CompileError>
    ensures written { IfOk result (λ p. view p ≡ model.written_clause (language_view language.now) (sort_view sort.now) (clause_view clause.now)) }
    ensures room { OnOk result (HasRoomClause (language_view language.now) (clause_view clause.now)) }
    ensures refused { IfErr result (λ e. AllByRecursion (λ l. IsFaultlessAtom (language_view language.now) (literal_view l).atom) clause.now.literals.value.items → e ≡ Memory) }
{
    clause_out(alloc, language, sort, &clause.literals)
}

/// The pattern, unless an `inj` stands in it that the signature doesn't have: then none is made, as for want of memory.
fn checked(alloc: Global, signature: &Signature, pattern: Pattern) -> Result<Pattern, CompileError>
    ensures same { IfOk result (λ p. view p ≡ view pattern) }
    ensures injects { IfOk result (λ p. InjectsWhereItStands (signature_view signature.now) (view p)) }
    ensures refused { IfErr result (λ e. e ≡ Memory) }
{
    if has_injection(signature) {
        return Ok(pattern);
    }
    if injects(alloc, &pattern)? {
        return Err(CompileError::Memory);
    }
    Ok(pattern)
}

/// A clause as a predicate that can stand in its place: what is written for it has room for its new names, and `inj` only where
/// it is what it should be.
pub fn kept_out(
    alloc: Global,
    language: &Language,
    sort: &Sort,
    clause: &Clause,
) -> Result<Pattern, CompileError>
    ensures written { IfOk result (λ p. view p ≡ model.written_clause (language_view language.now) (sort_view sort.now) (clause_view clause.now)) }
    ensures right { OnOk result (CanBeWrittenAt (language_view language.now) (sort_view sort.now) (clause_view clause.now)) }
    ensures refused { IfErr result (λ e. AllByRecursion (λ l. IsFaultlessAtom (language_view language.now) (literal_view l).atom) clause.now.literals.value.items → e ≡ Memory) }
{
    let pattern = whole_out(alloc, language, sort, clause)?;
    checked(alloc, language.signature, pattern)
}
