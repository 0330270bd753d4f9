// A clause with terms in the place of variables, opened again.
ghost use Rattle.std.specs.Prelude.{◌≡◌, IfOk, IfErr, map};
ghost use Rattle.std.specs.List.{AllByRecursion};
ghost use Rattle.kp_compile.specs.declared.error.CompileError.TheVariants.{Memory};
ghost use Rattle.kp_symbolic.specs.Solving.{is_single};
ghost use Rattle.kp_symbolic.specs.Languages.{language_view};
ghost use Rattle.kp_symbolic.specs.View.{clause_view, literal_view, replaced_view};
ghost use Rattle.kp_formulas.specs.Distribution.{distribution_of, distributions_of};
ghost use Rattle.kp_formulas.specs.DistributionView.{distributed_view};
ghost use Rattle.kp_clause_substitution.specs.Replacing as model;
ghost use Rattle.kp_clause_substitution.specs.Sums.{HasWrittenSums};

use crate::atom::open_under;
use kp_compile::CompileError;
use kp_formulas::distributed::one_of;
use kp_formulas::{Distributed, distribute};
use kp_symbolic::{Clause, Language, Literal, Replaced};
use std::alloc::Global;

/// Whether this is a clause's only literal.
fn is_alone(literals: &[Literal]) -> bool
    ensures { result ≡ is_single (map literal_view literals.now) }
{
    literals.len() == 1
}

/// What is kept of the clauses of a literal with terms in the place of variables.
fn open_literal(
    alloc: Global,
    language: &Language,
    by: &[Replaced],
    alone: bool,
    literal: &Literal,
) -> Result<Distributed, CompileError>
    ensures opened { let literal' = literal_view literal.now in let g = language_view language.now in IfOk result (λ d. distributed_view d ≡ distribution_of (model.opened_under g (map replaced_view by.now) alone literal'.holds literal'.atom)) }
    ensures refused { IfErr result (λ e. HasWrittenSums (language_view language.now) (literal_view literal.now).atom → e ≡ Memory) }
{
    let formula = open_under(alloc, language, by, alone, literal)?;
    Ok(distribute(&formula, alloc)?)
}

/// What is kept of the clauses of each literal with terms in the place of variables.
fn open_literals(
    alloc: Global,
    language: &Language,
    by: &[Replaced],
    literals: &[Literal],
) -> Result<Vec<Distributed>, CompileError>
    ensures opened { let g = language_view language.now in IfOk result (λ ds. map distributed_view ds.items ≡ distributions_of (model.all_opened_under g (map replaced_view by.now) (is_single (map literal_view literals.now)) (map literal_view literals.now))) }
    ensures refused { IfErr result (λ e. AllByRecursion (λ l. HasWrittenSums (language_view language.now) (literal_view l).atom) literals.now → e ≡ Memory) }
{
    let alone = is_alone(literals);
    let mut found = Vec::new(alloc);
    for literal in literals {
        found.push(open_literal(alloc, language, by, alone, literal)?)?;
    }
    Ok(found)
}

/// What is kept of the clauses of a clause with terms in the place of variables. Where each sum in it can
/// be written, it is refused for want of memory alone.
#[tactic(auto, using(crate::proofs::ClauseLemmas::one_of_literals))]
pub fn open_clause(
    alloc: Global,
    language: &Language,
    by: &[Replaced],
    clause: &Clause,
) -> Result<Distributed, CompileError>
    ensures opened { IfOk result (λ d. distributed_view d ≡ distribution_of (model.clause_under (language_view language.now) (map replaced_view by.now) (clause_view clause.now))) }
    ensures refused { IfErr result (λ e. AllByRecursion (λ l. HasWrittenSums (language_view language.now) (literal_view l).atom) clause.now.literals.value.items → e ≡ Memory) }
{
    let parts = open_literals(alloc, language, by, &clause.literals)?;
    Ok(one_of(alloc, &parts)?)
}
