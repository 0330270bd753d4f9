// The clauses of a predicate: each conjunct is opened and distributed, unless that makes too many literals.
ghost use Rattle.std.specs.Prelude.{◌≡◌, ℕ, true, [], ◌∷◌, ◌+◌, min, ◌++◌, IfOk, IfErr, OnOk, map};
ghost use Rattle.std.specs.List.{AllByRecursion};
ghost use Rattle.kp_compile.specs.declared.error.CompileError.TheVariants.{Memory};
ghost use Rattle.kp_kore.specs.View.{view};
ghost use Rattle.kp_symbolic.specs.Clauses as model;
ghost use Rattle.kp_symbolic.specs.Faultless.{IsFaultless};
ghost use Rattle.kp_symbolic.specs.Languages.{language_view};
ghost use Rattle.kp_symbolic.specs.View.{clauses_view, literal_view, replaced_view};
ghost use Rattle.kp_compile.specs.Parts.{seen};
ghost use Rattle.kp_formulas.specs.Distribution.{most_counted};

use crate::open_predicate;
use kp_compile::{CompileError, conjuncts};
use kp_formulas::count::{MOST_OPENED, at_most};
use kp_formulas::joined::{kept_once, make_clause};
use kp_formulas::quotation::quoted_literal;
use kp_kore::Pattern;
use kp_symbolic::{Clause, Language, Literal, Replaced};
use std::alloc::{AllocError, Global};

/// The predicate as one literal, with the sign of its negations.
#[cycle(quoted)]
#[tactic(auto, using(crate::proofs::ConjunctLemmas::quoted_as_is))]
fn quoted_whole(
    pattern: &Pattern,
    alloc: Global,
    replaced: &[Replaced],
    sign: bool,
) -> Result<Literal, AllocError>
    ensures { IfOk result (λ l. literal_view l ≡ model.quoted_literal (map replaced_view replaced.now) sign (view pattern.now)) }
{
    match pattern {
        Pattern::Not { pattern, .. } => quoted_whole(pattern, alloc, replaced, !sign),
        _ => quoted_literal(alloc, replaced, sign, pattern),
    }
}

/// Adds the predicate as one literal.
fn add_quoted(
    alloc: Global,
    replaced: &[Replaced],
    pattern: &Pattern,
    found: &mut Vec<Clause>,
) -> Result<(), AllocError>
    ensures { let one_literal = model.quoted_literal (map replaced_view replaced.now) true (view pattern.now) in OnOk result (clauses_view found.new.items ≡ clauses_view found.old.items ++ (one_literal ∷ []) ∷ []) }
{
    let literal = quoted_whole(pattern, alloc, replaced, true)?;
    Ok(found.push(make_clause(alloc, literal)?)?)
}

/// Adds the clauses of a conjunct behind so many literals, as they are counted, or the conjunct as one literal where it
/// makes too many; how many there are then.
fn add_conjunct(
    alloc: Global,
    language: &Language,
    replaced: &[Replaced],
    so_far: u64,
    pattern: &Pattern,
    found: &mut Vec<Clause>,
) -> Result<u64, CompileError>
    ensures clauses { let g = language_view language.now in (n : ℕ) → so_far ≡ min n most_counted → OnOk result (clauses_view found.new.items ≡ clauses_view found.old.items ++ model.clauses_of_conjunct g (map replaced_view replaced.now) n (view pattern.now)) }
    ensures literals { let g = language_view language.now in (n : ℕ) → let further = model.literals_of_conjunct g (map replaced_view replaced.now) n (view pattern.now) in so_far ≡ min n most_counted → IfOk result (λ m. m ≡ min (n + further) most_counted) }
    ensures refused { IfErr result (λ e. IsFaultless (language_view language.now) (view pattern.now) → e ≡ Memory) }
{
    let mut opened = open_predicate(alloc, language, replaced, pattern)?;
    let literals = so_far.saturating_add(opened.count.literals);
    if literals <= MOST_OPENED {
        found.append(&mut opened.clauses)?;
        return Ok(literals);
    }
    add_quoted(alloc, replaced, pattern, found)?;
    Ok(at_most(so_far.saturating_add(1)))
}

/// The clauses of predicates together, with terms in the place of variables. Predicates without verify faults are refused for
/// want of memory alone, others also where a literal in them can't be read.
pub fn clauses_of_all(
    alloc: Global,
    language: &Language,
    replaced: &[Replaced],
    predicates: &[&Pattern],
) -> Result<Vec<Clause>, CompileError>
    ensures made { let g = language_view language.now in let rs = map replaced_view replaced.now in IfOk result (λ cs. clauses_view cs.items ≡ model.without_repeats (model.clauses_of_conjuncts g rs 0 (seen predicates.now))) }
    ensures refused { IfErr result (λ e. AllByRecursion (IsFaultless (language_view language.now)) (seen predicates.now) → e ≡ Memory) }
{
    let mut found = Vec::new(alloc);
    let mut so_far = 0;
    for i in 0..predicates.len() {
        so_far = add_conjunct(alloc, language, replaced, so_far, predicates[i], &mut found)?;
    }
    Ok(kept_once(alloc, found)?)
}

/// The clauses of a predicate, with terms in the place of variables. A predicate without verify faults is refused for want of
/// memory alone, another also where a literal in it can't be read.
pub fn clauses_of(
    alloc: Global,
    language: &Language,
    replaced: &[Replaced],
    pattern: &Pattern,
) -> Result<Vec<Clause>, CompileError>
    ensures made { IfOk result (λ cs. clauses_view cs.items ≡ model.clauses_of (language_view language.now) (map replaced_view replaced.now) (view pattern.now)) }
    ensures refused { IfErr result (λ e. IsFaultless (language_view language.now) (view pattern.now) → e ≡ Memory) }
{
    let predicates = conjuncts(alloc, pattern)?;
    clauses_of_all(alloc, language, replaced, &predicates)
}
