// A literal with terms in the place of variables, opened again.
ghost use Rattle.std.specs.Prelude.{◌≡◌, IfOk, IfErr, map};
ghost use Rattle.kp_compile.specs.declared.error.CompileError.TheVariants.{Memory};
ghost use Rattle.kp_kore.specs.View.{sort_view};
ghost use Rattle.kp_symbolic.specs.Folding as folding;
ghost use Rattle.kp_symbolic.specs.Folding.{AreWritten};
ghost use Rattle.kp_symbolic.specs.Formulas.{fact};
ghost use Rattle.kp_symbolic.specs.Opening.{opened_same, opened_test};
ghost use Rattle.kp_symbolic.specs.Terms.{unknown};
ghost use Rattle.kp_symbolic.specs.Languages.{language_view};
ghost use Rattle.kp_symbolic.specs.View.{literal_view, replaced_view, term_view, test_view, variable_view};
ghost use Rattle.kp_formulas.specs.FormulaView.{formula_view};
ghost use Rattle.kp_clause_substitution.specs.Replacing as model;
ghost use Rattle.kp_clause_substitution.specs.Sums.{HasWrittenSums};

use crate::quoted::quote_under;
use kp_compile::CompileError;
use kp_formulas::head_test::open_test;
use kp_formulas::{Formula, open_same};
use kp_kore::Sort;
use kp_symbolic::replaced::term_for;
use kp_symbolic::{Atom, HeadTest, Language, Literal, Replaced, Term, Variable};
use std::alloc::{AllocError, Global};
use std::sync::Arc;

/// An equality with terms in the place of variables.
fn open_equality(
    alloc: Global,
    language: &Language,
    by: &[Replaced],
    alone: bool,
    sign: bool,
    sort: &Sort,
    left: &Term,
    right: &Term,
) -> Result<Formula, CompileError>
    ensures opened { let g = language_view language.now in IfOk result (λ f. formula_view f ≡ opened_same g alone sign (sort_view sort.now) (folding.replaced g (map replaced_view by.now) (term_view left.now)) (folding.replaced g (map replaced_view by.now) (term_view right.now))) }
    ensures refused { IfErr result (λ e. AreWritten (language_view language.now) (term_view left.now) → AreWritten (language_view language.now) (term_view right.now) → e ≡ Memory) }
{
    let left = left.replaced(alloc, language, by)?;
    let right = right.replaced(alloc, language, by)?;
    Ok(open_same(alloc, language.signature, alone, sign, sort, &left, &right)?)
}

/// A test of a variable's head, with the term in the variable's place, if there is one; this literal is kept where the
/// test isn't decided.
fn open_head(
    alloc: Global,
    language: &Language,
    by: &[Replaced],
    variable: &Arc<Variable>,
    test: &HeadTest,
    kept: &Literal,
) -> Result<Formula, AllocError>
    ensures { let g = language_view language.now in IfOk result (λ f. formula_view f ≡ opened_test g kept.now.holds (test_view test.now) (fact (literal_view kept.now)) (folding.replaced g (map replaced_view by.now) (unknown (variable_view variable.now.value)))) }
{
    let term = term_for(alloc, by, variable)?;
    open_test(alloc, language.signature, kept.holds, test, kept, &term)
}

/// A literal with terms in the place of variables, as a clause's only literal or one of several. Where each sum in it can be
/// written, it is refused for want of memory alone.
pub fn open_under(
    alloc: Global,
    language: &Language,
    by: &[Replaced],
    alone: bool,
    literal: &Literal,
) -> Result<Formula, CompileError>
    ensures opened { let literal' = literal_view literal.now in IfOk result (λ f. formula_view f ≡ model.opened_under (language_view language.now) (map replaced_view by.now) alone literal'.holds literal'.atom) }
    ensures refused { IfErr result (λ e. HasWrittenSums (language_view language.now) (literal_view literal.now).atom → e ≡ Memory) }
{
    let sign = literal.holds;
    match &literal.atom {
        Atom::Same { sort, left, right } => open_equality(
            alloc, language, by, alone, sign, sort, left, right,
        ),
        Atom::Head { variable, test } => {
            Ok(open_head(alloc, language, by, variable, test, literal)?)
        }
        Atom::Quoted { pattern, replaced } => {
            quote_under(alloc, language, by, sign, pattern, replaced)
        }
    }
}
