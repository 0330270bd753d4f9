// A predicate without connectives, opened with a sign.
ghost use Rattle.std.specs.Prelude.{◌≡◌, not, [], Some, IfOk, IfErr, map};
ghost use Rattle.std.specs.List.{AllByRecursion};
ghost use Rattle.std.specs.Option.{option_map};
ghost use Rattle.kp_compile.specs.declared.error.CompileError.TheVariants.{Memory};
ghost use Rattle.kp_kore.specs.Syntax.{KoreSort, conjunction};
ghost use Rattle.kp_kore.specs.View.{view, sort_view, patterns_view};
ghost use Rattle.kp_signature.specs.View.{signature_view};
ghost use Rattle.kp_symbolic.specs.Folding.{folded};
ghost use Rattle.kp_symbolic.specs.Opening as model;
ghost use Rattle.kp_symbolic.specs.Faultless.{IsFaultless};
ghost use Rattle.kp_symbolic.specs.Languages.{language_view};
ghost use Rattle.kp_symbolic.specs.View.{replaced_view, term_view, test_view};
ghost use Rattle.kp_formulas.specs.FormulaView.{formula_view};
ghost use Rattle.kp_formulas.specs.Leaves.{opened_question, IsFaultlessQuestion};
ghost use Rattle.kp_formulas.specs.LeafView.{question_view};

use crate::formula::make_fixed;
use crate::head_test::open_test;
use crate::question::{HeadQuestion, denied_question, head_question};
use crate::quotation::quoted_literal;
use crate::{Formula, open_same};
use kp_compile::CompileError;
use kp_kore::{Pattern, Sort};
use kp_signature::Signature;
use kp_symbolic::{HeadTest, Language, Replaced, Term, term_under};
use std::alloc::{AllocError, Global};

/// An equality of two patterns at a sort.
fn open_equality(
    alloc: Global,
    language: &Language,
    replaced: &[Replaced],
    alone: bool,
    sign: bool,
    sort: &Sort,
    left: &Pattern,
    right: &Pattern,
) -> Result<Formula, CompileError>
    ensures opened { let g = language_view language.now in IfOk result (λ f. formula_view f ≡ model.opened_same g alone sign (sort_view sort.now) (folded g (map replaced_view replaced.now) (view left.now)) (folded g (map replaced_view replaced.now) (view right.now))) }
    ensures refused { IfErr result (λ e. IsFaultless (language_view language.now) (view left.now) → IsFaultless (language_view language.now) (view right.now) → e ≡ Memory) }
{
    let left = term_under(left, alloc, language, replaced)?;
    open_beside(alloc, language, replaced, alone, sign, sort, &left, right)
}

/// An equality of a term and a pattern at a sort.
fn open_beside(
    alloc: Global,
    language: &Language,
    replaced: &[Replaced],
    alone: bool,
    sign: bool,
    sort: &Sort,
    left: &Term,
    right: &Pattern,
) -> Result<Formula, CompileError>
    ensures opened { let g = language_view language.now in IfOk result (λ f. formula_view f ≡ model.opened_same g alone sign (sort_view sort.now) (term_view left.now) (folded g (map replaced_view replaced.now) (view right.now))) }
    ensures refused { IfErr result (λ e. IsFaultless (language_view language.now) (view right.now) → e ≡ Memory) }
{
    let right = term_under(right, alloc, language, replaced)?;
    Ok(open_terms(alloc, language.signature, alone, sign, sort, left, right)?)
}

/// An equality of two terms at a sort.
fn open_terms(
    alloc: Global,
    signature: &Signature,
    alone: bool,
    sign: bool,
    sort: &Sort,
    left: &Term,
    right: Term,
) -> Result<Formula, AllocError>
    ensures { IfOk result (λ f. formula_view f ≡ model.opened_same (signature_view signature.now) alone sign (sort_view sort.now) (term_view left.now) (term_view right)) }
{
    open_same(alloc, signature, alone, sign, sort, left, &right)
}

/// `\ceil` of a term is true, of two conjoined terms their equality.
fn open_ceil(
    alloc: Global,
    language: &Language,
    replaced: &[Replaced],
    alone: bool,
    sign: bool,
    sort: &Sort,
    pattern: &Pattern,
) -> Result<Formula, CompileError>
    ensures opened { let g = language_view language.now in let replaced' = map replaced_view replaced.now in IfOk result (λ f. formula_view f ≡ model.opened_ceil g replaced' alone sign (sort_view sort.now) (view pattern.now)) }
    ensures refused { IfErr result (λ e. IsFaultless (language_view language.now) (view pattern.now) → e ≡ Memory) }
{
    match pattern {
        Pattern::And { patterns, .. } => open_defined(
            alloc, language, replaced, alone, sign, sort, patterns,
        ),
        _ => Ok(make_fixed(alloc, sign)?),
    }
}

/// `\ceil` of a conjunction: of two members their equality, of others true.
#[tactic(auto, using(crate::proofs::LeafLemmas::two_members, crate::proofs::LeafLemmas::other_members))]
fn open_defined(
    alloc: Global,
    language: &Language,
    replaced: &[Replaced],
    alone: bool,
    sign: bool,
    sort: &Sort,
    members: &[Pattern],
) -> Result<Formula, CompileError>
    ensures opened { let g = language_view language.now in (s : KoreSort) → IfOk result (λ f. formula_view f ≡ model.opened_ceil g (map replaced_view replaced.now) alone sign (sort_view sort.now) (conjunction s (patterns_view members.now))) }
    ensures refused { IfErr result (λ e. AllByRecursion (λ p. IsFaultless (language_view language.now) (view p)) members.now → e ≡ Memory) }
{
    if members.len() != 2 {
        return Ok(make_fixed(alloc, sign)?);
    }
    open_equality(
        alloc,
        language,
        replaced,
        alone,
        sign,
        sort,
        &members[0],
        &members[1],
    )
}

/// A question for a head, where there is one, with the sign of what it asks, else the predicate as it stands.
fn open_question(
    alloc: Global,
    language: &Language,
    replaced: &[Replaced],
    asked: bool,
    sign: bool,
    pattern: &Pattern,
    question: &Option<HeadQuestion<'_>>,
) -> Result<Formula, CompileError>
    ensures opened { let g = language_view language.now in let question' = option_map question_view question.now in IfOk result (λ f. formula_view f ≡ opened_question g (map replaced_view replaced.now) asked sign (view pattern.now) question') }
    ensures refused { IfErr result (λ e. IsFaultlessQuestion (language_view language.now) (option_map question_view question.now) → e ≡ Memory) }
{
    match question {
        Some(question) => open_asked(alloc, language, replaced, asked, sign, pattern, question),
        None => Ok(open_quoted(alloc, replaced, sign, pattern)?),
    }
}

/// A question for a head.
fn open_asked(
    alloc: Global,
    language: &Language,
    replaced: &[Replaced],
    asked: bool,
    sign: bool,
    pattern: &Pattern,
    question: &HeadQuestion<'_>,
) -> Result<Formula, CompileError>
    ensures opened { let g = language_view language.now in let question' = question_view question.now in IfOk result (λ f. formula_view f ≡ opened_question g (map replaced_view replaced.now) asked sign (view pattern.now) (Some question')) }
    ensures refused { IfErr result (λ e. IsFaultlessQuestion (language_view language.now) (Some (question_view question.now)) → e ≡ Memory) }
{
    let term = term_under(question.subject, alloc, language, replaced)?;
    Ok(ask(
        alloc,
        language.signature,
        replaced,
        asked,
        sign,
        pattern,
        &question.test,
        term,
    )?)
}

/// A test of a term's head, as the predicate asks it.
fn ask(
    alloc: Global,
    signature: &Signature,
    replaced: &[Replaced],
    asked: bool,
    sign: bool,
    pattern: &Pattern,
    test: &HeadTest,
    term: Term,
) -> Result<Formula, AllocError>
    ensures { let g = signature_view signature.now in IfOk result (λ f. formula_view f ≡ model.opened_test g asked (test_view test.now) (model.literal_fact sign (model.quotation (map replaced_view replaced.now) (view pattern.now))) (term_view term)) }
{
    match quoted_literal(alloc, replaced, sign, pattern) {
        Ok(kept) => open_test(alloc, signature, asked, test, &kept, &term),
        Err(error) => Err(error),
    }
}

/// A predicate under \exists.
fn open_exists(
    alloc: Global,
    language: &Language,
    replaced: &[Replaced],
    sign: bool,
    pattern: &Pattern,
) -> Result<Formula, CompileError>
    ensures opened { let g = language_view language.now in let pattern' = view pattern.now in IfOk result (λ f. formula_view f ≡ opened_question g (map replaced_view replaced.now) sign sign pattern' (model.head_question g [] pattern')) }
    ensures refused { IfErr result (λ e. IsFaultless (language_view language.now) (view pattern.now) → e ≡ Memory) }
{
    let question = head_question(pattern, alloc, language.signature, Vec::new(alloc))?;
    open_question(alloc, language, replaced, sign, sign, pattern, &question)
}

/// A predicate under \forall.
fn open_forall(
    alloc: Global,
    language: &Language,
    replaced: &[Replaced],
    sign: bool,
    pattern: &Pattern,
) -> Result<Formula, CompileError>
    ensures opened { let g = language_view language.now in let pattern' = view pattern.now in IfOk result (λ f. formula_view f ≡ opened_question g (map replaced_view replaced.now) (not sign) sign pattern' (model.denied_question g [] pattern')) }
    ensures refused { IfErr result (λ e. IsFaultless (language_view language.now) (view pattern.now) → e ≡ Memory) }
{
    let question = denied_question(pattern, alloc, language.signature, Vec::new(alloc))?;
    open_question(alloc, language, replaced, !sign, sign, pattern, &question)
}

/// A predicate that isn't opened.
fn open_quoted(
    alloc: Global,
    replaced: &[Replaced],
    sign: bool,
    pattern: &Pattern,
) -> Result<Formula, AllocError>
    ensures { IfOk result (λ f. formula_view f ≡ model.literal_fact sign (model.quotation (map replaced_view replaced.now) (view pattern.now))) }
{
    let literal = quoted_literal(alloc, replaced, sign, pattern)?;
    Ok(Formula::Fact { literal })
}

/// A predicate without connectives, as a clause's only literal or one of several. A predicate without verify faults is refused
/// for want of memory alone, another also where a literal in it can't be read.
pub fn open_leaf(
    alloc: Global,
    language: &Language,
    replaced: &[Replaced],
    alone: bool,
    sign: bool,
    pattern: &Pattern,
) -> Result<Formula, CompileError>
    ensures opened { IfOk result (λ f. formula_view f ≡ model.opened_leaf (language_view language.now) (map replaced_view replaced.now) alone sign (view pattern.now)) }
    ensures refused { IfErr result (λ e. IsFaultless (language_view language.now) (view pattern.now) → e ≡ Memory) }
{
    match pattern {
        Pattern::Equals {
            argument_sort,
            left,
            right,
            ..
        }
        | Pattern::In {
            argument_sort,
            left,
            right,
            ..
        } => {
            open_equality(
                alloc,
                language,
                replaced,
                alone,
                sign,
                argument_sort,
                left,
                right,
            )
        }
        Pattern::Ceil {
            argument_sort,
            pattern,
            ..
        } => {
            open_ceil(
                alloc,
                language,
                replaced,
                alone,
                sign,
                argument_sort,
                pattern,
            )
        }
        Pattern::Exists { .. } => open_exists(alloc, language, replaced, sign, pattern),
        Pattern::Forall { .. } => open_forall(alloc, language, replaced, sign, pattern),
        _ => Ok(open_quoted(alloc, replaced, sign, pattern)?),
    }
}
