// A term of Kore as a symbolic term.
ghost use Rattle.std.specs.Prelude.{◌≡◌, IfOk, IfErr, map, string_bytes};
ghost use Rattle.std.specs.List.{AllByRecursion};
ghost use Rattle.kp_kore.specs.Syntax.{literal};
ghost use Rattle.kp_kore.specs.Parts.{SortedName};
ghost use Rattle.kp_kore.specs.View.{view, sort_view, patterns_view};
ghost use Rattle.kp_kore.specs.Instance.{literal_value as value_written};
ghost use Rattle.kp_kore.specs.Interpretation.{no_meaning as nothing_meant};
ghost use Rattle.kp_compile.specs.declared.error.CompileError.TheVariants.{Memory};
ghost use Rattle.kp_signature.specs.View.{signature_view};
ghost use Rattle.kp_symbolic.specs.Terms.{replacement_for, unknown, known};
ghost use Rattle.kp_symbolic.specs.Folding as model;
ghost use Rattle.kp_symbolic.specs.View.{term_view, terms_of, replaced_view};
ghost use Rattle.kp_symbolic.specs.Languages.{language_view};
ghost use Rattle.kp_symbolic.specs.Faultless.{IsFaultless};

use crate::atom::Replaced;
use crate::language::Language;
use crate::made::{apply, no_meaning};
use crate::replaced::replacement_of;
use crate::term::Term;
use crate::variable::Variable;
use kp_compile::{CompileError, literal_value};
use kp_kore::{Name, Pattern, Sort};
use kp_signature::Signature;
use std::alloc::{AllocError, Global};
use std::sync::Arc;

/// The term that a pattern is, with terms in the place of its variables; what is no term has no meaning. A pattern without
/// verify faults is refused for want of memory alone, another as a Shape where a number in it can't be read.
#[cycle(fold)]
pub fn term_under(
    pattern: &Pattern,
    alloc: Global,
    language: &Language,
    replaced: &[Replaced],
) -> Result<Term, CompileError>
    ensures meant { IfOk result (λ t. term_view t ≡ model.folded (language_view language.now) (map replaced_view replaced.now) (view pattern.now)) }
    ensures refused { IfErr result (λ e. IsFaultless (language_view language.now) (view pattern.now) → e ≡ Memory) }
{
    match pattern {
        Pattern::Variable { name, sort } => Ok(variable_under(alloc, replaced, name, sort)?),
        Pattern::Literal { sort, text } => literal_term(alloc, language.signature, sort, text),
        Pattern::Application {
            symbol,
            arguments,
            ..
        } => {
            let terms = terms_under(arguments, alloc, language, replaced)?;
            Ok(apply_named(alloc, language, symbol, terms)?)
        }
        _ => Ok(no_term()),
    }
}

/// The terms that patterns are, one by one.
#[cycle(fold)]
pub fn terms_under(
    patterns: &[Pattern],
    alloc: Global,
    language: &Language,
    replaced: &[Replaced],
) -> Result<Vec<Term>, CompileError>
    ensures meant { let language' = language_view language.now in let patterns' = patterns_view patterns.now in IfOk result (λ ts. terms_of (map term_view ts.items) ≡ model.all_folded language' (map replaced_view replaced.now) patterns') }
    ensures refused { IfErr result (λ e. AllByRecursion (λ p. IsFaultless (language_view language.now) (view p)) patterns.now → e ≡ Memory) }
{
    let mut terms = Vec::new(alloc);
    for pattern in patterns {
        terms.push(term_under(pattern, alloc, language, replaced)?)?;
    }
    Ok(terms)
}

/// What stands for a pattern that is no term.
fn no_term() -> Term
    ensures { term_view result ≡ known nothing_meant }
{
    Term::Known {
        value: no_meaning(),
    }
}

/// A symbol by its name, applied to folded arguments.
fn apply_named(
    alloc: Global,
    language: &Language,
    symbol: &Name,
    arguments: Vec<Term>,
) -> Result<Term, AllocError>
    ensures { let language' = language_view language.now in IfOk result (λ t. term_view t ≡ model.applied_term language' (string_bytes symbol.now) (terms_of (map term_view arguments.items))) }
{
    let name = Arc::new(alloc, symbol.clone()?)?;
    apply(alloc, language, name, Arc::new(alloc, arguments)?)
}

/// A variable, or the term in its place.
fn variable_under(
    alloc: Global,
    replaced: &[Replaced],
    name: &Name,
    sort: &Sort,
) -> Result<Term, AllocError>
    ensures { let name' = string_bytes name.now in IfOk result (λ t. term_view t ≡ model.term_for (record { name = name'; sort = sort_view sort.now }) (replacement_for (map replaced_view replaced.now) name')) }
{
    match replacement_of(replaced, name) {
        Some(term) => term.share(alloc),
        None => make_variable(alloc, name, sort),
    }
}

/// A variable as a term.
fn make_variable(alloc: Global, name: &Name, sort: &Sort) -> Result<Term, AllocError>
    ensures { IfOk result (λ t. term_view t ≡ unknown (record { name = string_bytes name.now; sort = sort_view sort.now })) }
{
    let variable = Variable {
        name: name.clone()?,
        sort: sort.copy(alloc)?,
    };
    Ok(Term::Unknown {
        variable: Arc::new(alloc, variable)?,
    })
}

/// The value that a literal writes, as a term.
fn literal_term(
    alloc: Global,
    signature: &Signature,
    sort: &Sort,
    text: &Name,
) -> Result<Term, CompileError>
    ensures written { IfOk result (λ t. term_view t ≡ known (value_written (signature_view signature.now) (sort_view sort.now) (string_bytes text.now))) }
    ensures refused { IfErr result (λ e. IsFaultless (signature_view signature.now) (literal (sort_view sort.now) (string_bytes text.now)) → e ≡ Memory) }
{
    let value = literal_value(alloc, signature, sort, text)?;
    Ok(Term::Known { value })
}
