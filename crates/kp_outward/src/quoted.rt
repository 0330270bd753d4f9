// Predicates that aren't opened, with terms in the place of their free variables.
ghost use Rattle.std.specs.Prelude.{◌≡◌, [], IfOk, IfErr, OnOk, map, string_bytes, unwrap_or};
ghost use Rattle.std.specs.List.{AllByRecursion};
ghost use Rattle.kp_compile.specs.declared.error.CompileError.TheVariants.{Memory};
ghost use Rattle.kp_kore.specs.Syntax.{sort_variable};
ghost use Rattle.kp_kore.specs.View.{view, sort_view, patterns_view};
ghost use Rattle.kp_signature.specs.Places.{own_sort as sort_of_pattern};
ghost use Rattle.kp_signature.specs.View.{signature_view};
ghost use Rattle.kp_symbolic.specs.Writing as model;
ghost use Rattle.kp_symbolic.specs.Writing.{all_written_under, written_term, written_under};
ghost use Rattle.kp_symbolic_laws.specs.Runs.{AllHaveRoom, HasRoom};
ghost use Rattle.kp_symbolic.specs.Faultless.{IsFaultless};
ghost use Rattle.kp_symbolic.specs.Languages.{language_view};
ghost use Rattle.kp_symbolic.specs.View.{replaced_view, term_view};
ghost use Rattle.kp_outward.specs.Parts.{HasRoomUnder, written_bound, written_leaf};

use crate::binder::{bound_name, renamed};
use crate::term::term_out;
use kp_compile::CompileError;
use kp_kore::{Name, Pattern, Sort};
use kp_pattern_substitution::build;
use kp_signature::{Signature, own_sort};
use kp_symbolic::{Language, Replaced, Term, term_under};
use std::alloc::{AllocError, Global};

/// The sort variable without a name.
fn nameless_sort(alloc: Global) -> Result<Sort, AllocError>
    ensures { IfOk result (λ s. sort_view s ≡ sort_variable []) }
{
    Ok(Sort::Variable {
        name: String::from_str(alloc, "")?,
    })
}

/// The sort of a pattern; one that is no sort of the signature where its symbol isn't declared.
fn sort_or_none(alloc: Global, signature: &Signature, pattern: &Pattern) -> Result<Sort, AllocError>
    ensures { let own = sort_of_pattern (signature_view signature.now) (view pattern.now) in IfOk result (λ s. sort_view s ≡ unwrap_or own (sort_variable [])) }
{
    match own_sort(alloc, signature, pattern)? {
        Some(sort) => Ok(sort),
        None => nameless_sort(alloc),
    }
}

/// A term that is let go, as a pattern of this sort.
fn written(
    alloc: Global,
    language: &Language,
    sort: &Sort,
    term: Term,
) -> Result<Pattern, AllocError>
    ensures { IfOk result (λ p. view p ≡ written_term (language_view language.now) (sort_view sort.now) (term_view term)) }
{
    term_out(&term, alloc, language, sort)
}

/// A term of a predicate, folded, at its own sort.
fn leaf_out(
    alloc: Global,
    language: &Language,
    replaced: &[Replaced],
    pattern: &Pattern,
) -> Result<Pattern, CompileError>
    ensures written { let rs = map replaced_view replaced.now in IfOk result (λ p. view p ≡ written_leaf (language_view language.now) rs (view pattern.now)) }
    ensures refused { IfErr result (λ e. IsFaultless (language_view language.now) (view pattern.now) → e ≡ Memory) }
{
    let sort = sort_or_none(alloc, language.signature, pattern)?;
    let term = term_under(pattern, alloc, language, replaced)?;
    Ok(written(alloc, language, &sort, term)?)
}

/// A predicate with terms in the place of its free variables; its terms are folded, and a binder that would bind a variable
/// of such a term has another name. A pattern without verify faults is refused for want of memory alone, another also where a
/// number in it can't be read.
#[cycle(quoted)]
pub fn quoted_out(
    pattern: &Pattern,
    alloc: Global,
    language: &Language,
    replaced: &[Replaced],
) -> Result<Pattern, CompileError>
    ensures written { let rs = map replaced_view replaced.now in IfOk result (λ p. view p ≡ written_under (language_view language.now) rs (view pattern.now)) }
    ensures room { OnOk result (HasRoom (map replaced_view replaced.now) (view pattern.now)) }
    ensures refused { IfErr result (λ e. IsFaultless (language_view language.now) (view pattern.now) → e ≡ Memory) }
{
    match pattern {
        Pattern::Variable { .. } | Pattern::Literal { .. } | Pattern::Application { .. } => {
            leaf_out(alloc, language, replaced, pattern)
        }
        Pattern::SetVariable { .. }
        | Pattern::StringLiteral { .. }
        | Pattern::Top { .. }
        | Pattern::Bottom { .. }
        | Pattern::Next { .. }
        | Pattern::Rewrites { .. }
        | Pattern::Mu { .. }
        | Pattern::Nu { .. } => Ok(pattern.copy(alloc)?),
        Pattern::Not { sort, pattern } => {
            let pattern = quoted_box(pattern, alloc, language, replaced)?;
            Ok(build::negation_of(alloc, sort, pattern)?)
        }
        Pattern::And { sort, patterns } => {
            let patterns = all_quoted(patterns, alloc, language, replaced)?;
            Ok(build::conjunction_of(alloc, sort, patterns)?)
        }
        Pattern::Or { sort, patterns } => {
            let patterns = all_quoted(patterns, alloc, language, replaced)?;
            Ok(build::disjunction_of(alloc, sort, patterns)?)
        }
        Pattern::Implies { sort, left, right } => {
            let left = quoted_box(left, alloc, language, replaced)?;
            let right = quoted_box(right, alloc, language, replaced)?;
            Ok(build::implication_of(alloc, sort, left, right)?)
        }
        Pattern::Iff { sort, left, right } => {
            let left = quoted_box(left, alloc, language, replaced)?;
            let right = quoted_box(right, alloc, language, replaced)?;
            Ok(build::equivalence_of(alloc, sort, left, right)?)
        }
        Pattern::Exists {
            sort,
            name,
            name_sort,
            pattern,
        } => {
            let (other, pattern) = under_binder(
                pattern, alloc, language, replaced, name, name_sort,
            )?;
            Ok(build::exists_of(alloc, sort, &other, name_sort, pattern)?)
        }
        Pattern::Forall {
            sort,
            name,
            name_sort,
            pattern,
        } => {
            let (other, pattern) = under_binder(
                pattern, alloc, language, replaced, name, name_sort,
            )?;
            Ok(build::forall_of(alloc, sort, &other, name_sort, pattern)?)
        }
        Pattern::Ceil {
            argument_sort,
            sort,
            pattern,
        } => {
            let pattern = quoted_box(pattern, alloc, language, replaced)?;
            Ok(build::ceil_of(alloc, argument_sort, sort, pattern)?)
        }
        Pattern::Floor {
            argument_sort,
            sort,
            pattern,
        } => {
            let pattern = quoted_box(pattern, alloc, language, replaced)?;
            Ok(build::floor_of(alloc, argument_sort, sort, pattern)?)
        }
        Pattern::Equals {
            argument_sort,
            sort,
            left,
            right,
        } => {
            let left = quoted_box(left, alloc, language, replaced)?;
            let right = quoted_box(right, alloc, language, replaced)?;
            Ok(build::equals_of(alloc, argument_sort, sort, left, right)?)
        }
        Pattern::In {
            argument_sort,
            sort,
            left,
            right,
        } => {
            let left = quoted_box(left, alloc, language, replaced)?;
            let right = quoted_box(right, alloc, language, replaced)?;
            Ok(build::membership_of(alloc, argument_sort, sort, left, right)?)
        }
    }
}

/// The same of a predicate, boxed.
#[cycle(quoted)]
fn quoted_box(
    pattern: &Pattern,
    alloc: Global,
    language: &Language,
    replaced: &[Replaced],
) -> Result<Box<Pattern>, CompileError>
    ensures written { let rs = map replaced_view replaced.now in IfOk result (λ p. view p.value ≡ written_under (language_view language.now) rs (view pattern.now)) }
    ensures room { OnOk result (HasRoom (map replaced_view replaced.now) (view pattern.now)) }
    ensures refused { IfErr result (λ e. IsFaultless (language_view language.now) (view pattern.now) → e ≡ Memory) }
{
    Ok(Box::new(alloc, quoted_out(pattern, alloc, language, replaced)?)?)
}

/// The name that a binder has now, and the predicate under it.
#[cycle(quoted)]
fn under_binder(
    pattern: &Pattern,
    alloc: Global,
    language: &Language,
    replaced: &[Replaced],
    name: &Name,
    sort: &Sort,
) -> Result<(Name, Box<Pattern>), CompileError>
    ensures named { let rs = map replaced_view replaced.now in IfOk result (λ t. string_bytes t.0 ≡ model.bound_name rs (string_bytes name.now) (view pattern.now)) }
    ensures written { let rs = map replaced_view replaced.now in IfOk result (λ t. view t.1.value ≡ written_bound (language_view language.now) rs (string_bytes name.now) (sort_view sort.now) (view pattern.now)) }
    ensures room { OnOk result (HasRoomUnder (map replaced_view replaced.now) (string_bytes name.now) (sort_view sort.now) (view pattern.now)) }
    ensures refused { IfErr result (λ e. IsFaultless (language_view language.now) (view pattern.now) → e ≡ Memory) }
{
    let other = bound_name(alloc, replaced, name, pattern)?;
    let under = renamed(alloc, replaced, name, &other, sort)?;
    let pattern = quoted_box(pattern, alloc, language, &under)?;
    Ok((other, pattern))
}

/// The same of each of these predicates.
#[cycle(quoted)]
fn all_quoted(
    patterns: &[Pattern],
    alloc: Global,
    language: &Language,
    replaced: &[Replaced],
) -> Result<Vec<Pattern>, CompileError>
    ensures written { let rs = map replaced_view replaced.now in IfOk result (λ ps. patterns_view ps.items ≡ all_written_under (language_view language.now) rs (patterns_view patterns.now)) }
    ensures room { OnOk result (AllHaveRoom (map replaced_view replaced.now) (patterns_view patterns.now)) }
    ensures refused { IfErr result (λ e. AllByRecursion (λ p. IsFaultless (language_view language.now) (view p)) patterns.now → e ≡ Memory) }
{
    let mut found = Vec::new(alloc);
    for pattern in patterns {
        found.push(quoted_out(pattern, alloc, language, replaced)?)?;
    }
    Ok(found)
}
