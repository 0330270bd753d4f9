// What the sides of an equality are: their constructors and members, and when they are never equal.
ghost use Rattle.std.specs.Prelude.{◌≡◌, ◌&&◌, IfOk, map, string_bytes};
ghost use Rattle.std.specs.Option.{option_map};
ghost use Rattle.kp_kore.specs.HookView.{comparison_view};
ghost use Rattle.kp_ground.specs.View.{value_view};
ghost use Rattle.kp_signature.specs.View.{signature_view};
ghost use Rattle.kp_kore.specs.View.{sorts_view};
ghost use Rattle.kp_compile.specs.Spelled as spelled;
ghost use Rattle.kp_symbolic.specs.Alike.{terms_same};
ghost use Rattle.kp_kore.specs.Signature.{meaning_of as named};
ghost use Rattle.kp_symbolic.specs.Heads.{is_construction as test};
ghost use Rattle.kp_symbolic.specs.Folding.{sum_of as sum_read};
ghost use Rattle.kp_symbolic.specs.Formulas.{fact};
ghost use Rattle.kp_symbolic.specs.Opening as model;
ghost use Rattle.kp_symbolic.specs.Terms.{known};
ghost use Rattle.kp_symbolic.specs.Sums.{sum_view};
ghost use Rattle.kp_symbolic.specs.View.{term_view, terms_of, literal_view};
ghost use Rattle.kp_formulas.specs.Seen.{constructor_seen, truth_known as truth_read, truth_in, known_members, members_in, both_known};
ghost use Rattle.kp_formulas.specs.FormulaView.{formula_view};

use crate::formula::{Formula, kept_fact, make_fixed};
use kp_ground::Value;
use kp_kore::{Comparison, Sort};
use kp_signature::{Meaning, Signature, meaning_of};
use kp_symbolic::sum::{Sum, sum_of};
use kp_symbolic::{Literal, Term};
use std::alloc::{AllocError, Global};
use std::sync::Arc;

/// Whether both are the same term.
pub fn are_same(left: &Term, right: &Term) -> bool
    ensures { result ≡ terms_same (term_view left.now) (term_view right.now) }
{
    left.same(right)
}

/// The truth value that a value is.
fn truth_of(value: &Value) -> Option<bool>
    ensures { result ≡ truth_in (value_view value.now) }
{
    match value {
        Value::Truth { holds } => Some(*holds),
        Value::Whole { .. } | Value::Token { .. } | Value::Constructed { .. } => None,
    }
}

/// The truth value that a term is known to be.
pub fn truth_known(term: &Term) -> Option<bool>
    ensures { result ≡ truth_read (term_view term.now) }
{
    match term {
        Term::Known { value } => truth_of(value),
        Term::Unknown { .. } | Term::Offset { .. } | Term::Headed { .. } => None,
    }
}

/// Whether a symbol is a constructor.
fn is_construction(signature: &Signature, symbol: &str) -> bool
    ensures { result ≡ test (named (signature_view signature.now) symbol.now) }
{
    matches!(meaning_of(signature, symbol), Meaning::Constructor)
}

/// The declared sorts of a symbol's arguments.
pub fn places_of<'a>(signature: &'a Signature, symbol: &str) -> &'a [Sort]
    ensures { sorts_view result.now ≡ spelled.places_of (signature_view signature.now) symbol.now }
{
    match signature.symbol(symbol) {
        Some(declaration) => &declaration.arguments,
        None => &[],
    }
}

/// The constructor of a value.
fn value_constructor(value: &Value) -> Option<&Arc<String>>
    ensures { option_map (λ f. string_bytes f.now.value) result ≡ constructor_seen (model.seen_value (value_view value.now)) }
{
    match value {
        Value::Constructed { constructor, .. } => Some(constructor),
        Value::Whole { .. } | Value::Truth { .. } | Value::Token { .. } => None,
    }
}

/// The constructor of a term.
pub fn constructor_of<'a>(signature: &Signature, term: &'a Term) -> Option<&'a Arc<String>>
    ensures { option_map (λ f. string_bytes f.now.value) result ≡ constructor_seen (model.seen_term (signature_view signature.now) (term_view term.now)) }
{
    match term {
        Term::Known { value } => value_constructor(value),
        Term::Headed { symbol, .. } => {
            if is_construction(signature, symbol) {
                Some(symbol)
            } else {
                None
            }
        }
        Term::Unknown { .. } | Term::Offset { .. } => None,
    }
}

/// The members of a value, as terms.
fn value_members(alloc: Global, value: &Value) -> Result<Vec<Term>, AllocError>
    ensures { IfOk result (λ ts. map term_view ts.items ≡ known_members (value_view value.now)) }
{
    match value {
        Value::Constructed { arguments, .. } => known_terms(alloc, arguments),
        Value::Whole { .. } | Value::Truth { .. } | Value::Token { .. } => Ok(Vec::new(alloc)),
    }
}

/// Values as terms.
fn known_terms(alloc: Global, values: &[Value]) -> Result<Vec<Term>, AllocError>
    ensures { IfOk result (λ ts. map term_view ts.items ≡ map (λ u. known (value_view u)) values.now) }
{
    let mut terms = Vec::new(alloc);
    for value in values {
        terms.push(make_known(alloc, value)?)?;
    }
    Ok(terms)
}

/// A value as a term.
fn make_known(alloc: Global, value: &Value) -> Result<Term, AllocError>
    ensures { IfOk result (λ t. term_view t ≡ known (value_view value.now)) }
{
    Ok(Term::Known {
        value: value.share(alloc)?,
    })
}

/// The members of a term.
pub fn members_of(alloc: Global, term: &Term) -> Result<Arc<Vec<Term>>, AllocError>
    ensures { IfOk result (λ ts. terms_of (map term_view ts.value.items) ≡ members_in (term_view term.now)) }
{
    match term {
        Term::Known { value } => Ok(Arc::new(alloc, value_members(alloc, value)?)?),
        Term::Headed { arguments, .. } => Ok(arguments.clone()?),
        Term::Unknown { .. } | Term::Offset { .. } => Ok(Arc::new(alloc, Vec::new(alloc))?),
    }
}

/// Whether a variable of this name stands in the term, under constructors alone or as it.
#[cycle(holds)]
fn holds_name(term: &Term, signature: &Signature, name: &str) -> bool
    ensures { result ≡ model.holds_name (signature_view signature.now) name.now (term_view term.now) }
{
    match term {
        Term::Unknown { variable } => name == variable.name.as_str(),
        Term::Headed { symbol, arguments } => {
            is_construction(signature, symbol) && some_hold_name(arguments, signature, name)
        }
        Term::Known { .. } | Term::Offset { .. } => false,
    }
}

/// The same of one of the terms.
#[cycle(holds)]
fn some_hold_name(terms: &[Term], signature: &Signature, name: &str) -> bool
    ensures { result ≡ model.some_hold_name (signature_view signature.now) name.now (terms_of (map term_view terms.now)) }
{
    for term in terms {
        if holds_name(term, signature, name) {
            return true;
        }
    }
    false
}

/// Whether a constructor's term is never the other, which has no constructor.
pub fn is_never(signature: &Signature, term: &Term, other: &Term) -> bool
    ensures { result ≡ model.is_never (signature_view signature.now) (term_view term.now) (term_view other.now) }
{
    match other {
        Term::Unknown { variable } => holds_name(term, signature, &variable.name),
        Term::Known { .. } => true,
        Term::Offset { .. } | Term::Headed { .. } => false,
    }
}

/// Whether one side is a variable that the other doesn't hold.
fn is_kept_truth(left: &Term, right: &Term) -> bool
    ensures { result ≡ model.is_kept_truth (term_view left.now) (term_view right.now) }
{
    if let Term::Unknown { variable } = left {
        return !right.has_name(&variable.name);
    }
    if let Term::Unknown { variable } = right {
        return !left.has_name(&variable.name);
    }
    false
}

/// Whether an equality of a Boolean variable is kept: it stands in a clause of its own.
pub fn keeps_truth(left: &Term, right: &Term, alone: bool) -> bool
    ensures { result ≡ (alone && model.is_kept_truth (term_view left.now) (term_view right.now)) }
{
    alone && is_kept_truth(left, right)
}

/// How two sums of one variable compare.
fn compared_sums(comparison: Comparison, left: Option<Sum>, right: Option<Sum>) -> Option<bool>
    ensures { result ≡ model.compared_at_once (comparison_view comparison) (option_map sum_view left.entry) (option_map sum_view right.entry) }
{
    let left = left?;
    let right = right?;
    if left.variable.name.as_str() == right.variable.name.as_str() {
        Some(comparison.holds(left.constant, right.constant))
    } else {
        None
    }
}

/// How two terms compare that are sums of one variable.
pub fn compared_at_once(
    signature: &Signature,
    comparison: Comparison,
    left: &Term,
    right: &Term,
) -> Option<bool>
    ensures { let g = signature_view signature.now in result ≡ model.compared_at_once (comparison_view comparison) (sum_read g (term_view left.now)) (sum_read g (term_view right.now)) }
{
    compared_sums(
        comparison,
        sum_of(signature, left),
        sum_of(signature, right),
    )
}

/// What is decided with its sign, else the literal that is kept.
pub fn fixed_or(
    alloc: Global,
    decided: Option<bool>,
    sign: bool,
    kept: &Literal,
) -> Result<Formula, AllocError>
    ensures { IfOk result (λ f. formula_view f ≡ model.fixed_or decided sign (fact (literal_view kept.now))) }
{
    match decided {
        Some(holds) => make_fixed(alloc, holds == sign),
        None => kept_fact(alloc, kept),
    }
}

/// Whether both terms are values.
fn are_known(left: &Term, right: &Term) -> bool
    ensures { result ≡ both_known (term_view left.now) (term_view right.now) }
{
    matches!(left, Term::Known { .. }) && matches!(right, Term::Known { .. })
}

/// An equality of two terms without constructors that aren't the same.
pub fn unconstructed(
    alloc: Global,
    signature: &Signature,
    sign: bool,
    kept: &Literal,
    left: &Term,
    right: &Term,
) -> Result<Formula, AllocError>
    ensures { let g = signature_view signature.now in IfOk result (λ f. formula_view f ≡ model.unconstructed g sign (fact (literal_view kept.now)) (term_view left.now) (term_view right.now)) }
{
    if are_known(left, right) {
        return make_fixed(alloc, !sign);
    }
    let decided = compared_at_once(signature, Comparison::Equal, left, right);
    fixed_or(alloc, decided, sign, kept)
}
