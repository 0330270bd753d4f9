// A quoted predicate with terms in the place of variables: they come into the terms that stand in it, and into the place of
// its own variables.
ghost use Rattle.std.specs.Prelude.{◌≡◌, ◌&&◌, ◌++◌, not, IfOk, IfErr, OnOk, map};
ghost use Rattle.std.specs.List.{AllByRecursion};
ghost use Rattle.std.specs.Option.{is_some};
ghost use Rattle.kp_compile.specs.declared.error.CompileError.TheVariants.{Memory};
ghost use Rattle.kp_kore.specs.Parts.{free_variables};
ghost use Rattle.kp_kore.specs.View.{view, sorted_variable_view};
ghost use Rattle.kp_kore.specs.Instance.{is_named as named_among};
ghost use Rattle.kp_symbolic.specs.Opening.{literal_fact};
ghost use Rattle.kp_symbolic.specs.States.{quoted};
ghost use Rattle.kp_symbolic.specs.Terms.{replacement_for};
ghost use Rattle.kp_symbolic.specs.Folding.{AreWritten};
ghost use Rattle.kp_symbolic.specs.Languages.{language_view};
ghost use Rattle.kp_symbolic.specs.View.{replaced_view, term_view};
ghost use Rattle.kp_formulas.specs.FormulaView.{formula_view};
ghost use Rattle.kp_clause_substitution.specs.Replacing as model;

use kp_compile::CompileError;
use kp_formulas::Formula;
use kp_formulas::quotation::is_named;
use kp_kore::{Pattern, SortedVariable};
use kp_symbolic::replaced::replacement_of;
use kp_symbolic::{Atom, Language, Literal, Replaced};
use std::alloc::{AllocError, Global};
use std::sync::Arc;

/// The terms that stand in a predicate, with terms in the place of their variables.
fn with_terms(
    alloc: Global,
    language: &Language,
    by: &[Replaced],
    replaced: &[Replaced],
) -> Result<Vec<Replaced>, CompileError>
    ensures made { IfOk result (λ rs. map replaced_view rs.items ≡ model.with_terms (language_view language.now) (map replaced_view by.now) (map replaced_view replaced.now)) }
    ensures refused { IfErr result (λ e. AllByRecursion (λ r. AreWritten (language_view language.now) (term_view r.term)) replaced.now → e ≡ Memory) }
{
    let mut found = Vec::new(alloc);
    for one in replaced {
        found.push(Replaced {
            name: one.name.clone()?,
            term: one.term.replaced(alloc, language, by)?,
        })?;
    }
    Ok(found)
}

/// Whether it is of one of these variables, in the place of which no term stands yet.
fn is_new(one: &Replaced, variables: &[SortedVariable], replaced: &[Replaced]) -> bool
    ensures { let one' = replaced_view one.now in result ≡ (named_among one'.name (map sorted_variable_view variables.now) && not (is_some (replacement_for (map replaced_view replaced.now) one'.name))) }
{
    is_named(&one.name, variables) && replacement_of(replaced, &one.name).is_none()
}

/// Adds the replacements of these variables, in the place of which no term stands yet.
fn add_new(
    alloc: Global,
    by: &[Replaced],
    variables: &[SortedVariable],
    replaced: &[Replaced],
    found: &mut Vec<Replaced>,
) -> Result<(), AllocError>
    ensures { let added = model.new_for (map sorted_variable_view variables.now) (map replaced_view replaced.now) (map replaced_view by.now) in OnOk result (map replaced_view found.new.items ≡ map replaced_view found.old.items ++ added) }
{
    for one in by {
        if is_new(one, variables, replaced) {
            found.push(one.share(alloc)?)?;
        }
    }
    Ok(())
}

/// The terms in a predicate, with terms in the place of their variables and of the predicate's own.
fn beside(
    alloc: Global,
    language: &Language,
    by: &[Replaced],
    pattern: &Pattern,
    replaced: &[Replaced],
) -> Result<Vec<Replaced>, CompileError>
    ensures made { let g = language_view language.now in let replaced' = map replaced_view replaced.now in IfOk result (λ rs. map replaced_view rs.items ≡ model.beside g (map replaced_view by.now) (view pattern.now) replaced') }
    ensures refused { IfErr result (λ e. AllByRecursion (λ r. AreWritten (language_view language.now) (term_view r.term)) replaced.now → e ≡ Memory) }
{
    let mut found = with_terms(alloc, language, by, replaced)?;
    let variables = pattern.free_vars(alloc)?;
    add_new(alloc, by, &variables, replaced, &mut found)?;
    Ok(found)
}

/// A quoted predicate with terms in the place of variables.
pub fn quote_under(
    alloc: Global,
    language: &Language,
    by: &[Replaced],
    sign: bool,
    pattern: &Arc<Pattern>,
    replaced: &[Replaced],
) -> Result<Formula, CompileError>
    ensures made { let g = language_view language.now in IfOk result (λ f. formula_view f ≡ literal_fact sign (quoted (view pattern.now.value) (model.beside g (map replaced_view by.now) (view pattern.now.value) (map replaced_view replaced.now)))) }
    ensures refused { IfErr result (λ e. AllByRecursion (λ r. AreWritten (language_view language.now) (term_view r.term)) replaced.now → e ≡ Memory) }
{
    let replaced = beside(alloc, language, by, pattern, replaced)?;
    let atom = Atom::Quoted {
        pattern: pattern.clone()?,
        replaced: Arc::new(alloc, replaced)?,
    };
    Ok(Formula::Fact {
        literal: Literal { holds: sign, atom },
    })
}
