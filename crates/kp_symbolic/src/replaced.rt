// Terms in the place of variables.
ghost use Rattle.std.specs.Prelude.{◌≡◌, IfOk, IfErr, map, string_bytes, true};
ghost use Rattle.std.specs.Option.{option_map};
ghost use Rattle.kp_kore.specs.Parts.{SortedName};
ghost use Rattle.kp_compile.specs.declared.error.CompileError.TheVariants.{Memory};
ghost use Rattle.kp_symbolic.specs.Terms.{replacement_for, offset, known};
ghost use Rattle.kp_symbolic.specs.Folding as model;
ghost use Rattle.kp_symbolic.specs.Folding.{AreWritten, AreAllWritten};
ghost use Rattle.kp_kore.specs.Value.{whole};
ghost use Rattle.kp_symbolic.specs.View.{variable_view, term_view, terms_of, replaced_view};
ghost use Rattle.kp_symbolic.specs.Languages.{language_view};
ghost use Rattle.kp_symbolic.specs.Sums.{pair};

use crate::atom::Replaced;
use crate::language::Language;
use crate::made::apply;
use crate::term::Term;
use crate::variable::Variable;
use kp_compile::CompileError;
use kp_ground::Value;
use std::alloc::{AllocError, Global};
use std::sync::Arc;

/// The term in the place of a variable, if there is one.
pub fn replacement_of<'a>(replaced: &'a [Replaced], name: &str) -> Option<&'a Term>
    ensures { option_map (λ t. term_view t.now) result ≡ replacement_for (map replaced_view replaced.now) name.now }
{
    for one in replaced {
        if one.name.as_str() == name {
            return Some(&one.term);
        }
    }
    None
}

/// A variable, or the term in its place.
pub fn term_for(
    alloc: Global,
    replaced: &[Replaced],
    variable: &Arc<Variable>,
) -> Result<Term, AllocError>
    ensures { let value' = variable_view variable.now.value in let the_replacement_for = replacement_for (map replaced_view replaced.now) (string_bytes variable.now.value.name) in IfOk result (λ t. term_view t ≡ model.term_for value' the_replacement_for) }
{
    match replacement_of(replaced, &variable.name) {
        Some(term) => term.share(alloc),
        None => Ok(Term::Unknown {
            variable: variable.clone()?,
        }),
    }
}

/// A whole number.
fn make_whole(number: i128) -> Term
    ensures { term_view result ≡ known (whole number) }
{
    Term::Known {
        value: Value::Whole { number },
    }
}

/// A term and a number under the symbol.
fn under_symbol(
    alloc: Global,
    language: &Language,
    symbol: &Arc<String>,
    term: Term,
    number: i128,
) -> Result<Term, AllocError>
    ensures { let language' = language_view language.now in IfOk result (λ t. term_view t ≡ model.applied_term language' (string_bytes symbol.now.value) (pair (term_view term) (known (whole number)))) }
{
    let mut arguments = Vec::new(alloc);
    arguments.push(term)?;
    arguments.push(make_whole(number))?;
    apply(
        alloc,
        language,
        symbol.clone()?,
        Arc::new(alloc, arguments)?,
    )
}

/// The sum of a term and a constant as it is written; Shape where it isn't.
fn added(
    alloc: Global,
    language: &Language,
    term: Term,
    constant: i128,
) -> Result<Term, CompileError>
    ensures meant { (x : SortedName) → IfOk result (λ t. term_view t ≡ model.added (language_view language.now) (term_view term) constant (offset x constant)) }
    ensures refused { model.can_be_added (language_view language.now) constant ≡ true → IfErr result (λ e. e ≡ Memory) }
{
    let (symbol, number) = if constant > 0 {
        (&language.addition, Some(constant))
    } else {
        (&language.subtraction, constant.checked_neg())
    };
    match (symbol, number) {
        (Some(symbol), Some(number)) => Ok(under_symbol(alloc, language, symbol, term, number)?),
        _ => Err(CompileError::Shape),
    }
}

impl Term {
    /// The term with terms in the place of variables, folded. Shape where a sum in it can't be written.
    #[cycle(replace)]
    pub fn replaced(
        &self,
        alloc: Global,
        language: &Language,
        replaced: &[Replaced],
    ) -> Result<Term, CompileError>
        ensures meant { IfOk result (λ t. term_view t ≡ model.replaced (language_view language.now) (map replaced_view replaced.now) (term_view self.now)) }
        ensures refused { IfErr result (λ e. AreWritten (language_view language.now) (term_view self.now) → e ≡ Memory) }
    {
        match self {
            Term::Unknown { variable } => Ok(term_for(alloc, replaced, variable)?),
            Term::Offset { variable, constant } => {
                let term = term_for(alloc, replaced, variable)?;
                added(alloc, language, term, *constant)
            }
            Term::Known { .. } => Ok(self.share(alloc)?),
            Term::Headed { symbol, arguments } => {
                let terms = Term::all_replaced(arguments, alloc, language, replaced)?;
                Ok(apply(alloc, language, symbol.clone()?, Arc::new(alloc, terms)?)?)
            }
        }
    }

    /// The terms with terms in the place of variables, one by one.
    #[cycle(replace)]
    fn all_replaced(
        terms: &[Term],
        alloc: Global,
        language: &Language,
        replaced: &[Replaced],
    ) -> Result<Vec<Term>, CompileError>
        ensures meant { let language' = language_view language.now in IfOk result (λ ts. terms_of (map term_view ts.items) ≡ model.all_replaced language' (map replaced_view replaced.now) (terms_of (map term_view terms.now))) }
        ensures refused { IfErr result (λ e. AreAllWritten (language_view language.now) (terms_of (map term_view terms.now)) → e ≡ Memory) }
    {
        let mut found = Vec::new(alloc);
        for term in terms {
            found.push(term.replaced(alloc, language, replaced)?)?;
        }
        Ok(found)
    }
}
