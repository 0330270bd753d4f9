// The smart constructor of terms: an application over folded arguments is folded.
ghost use Rattle.std.specs.Prelude.{◌≡◌, false, IfOk, map, string_bytes};
ghost use Rattle.std.specs.Option.{option_map};
ghost use Rattle.kp_kore.specs.Value.{truth, constructed};
ghost use Rattle.kp_kore.specs.Forms.{two};
ghost use Rattle.kp_kore.specs.Interpretation.{interpreted};
ghost use Rattle.kp_kore.specs.HookView.{hook_view};
ghost use Rattle.kp_ground.specs.View.{value_view, values_of};
ghost use Rattle.kp_signature.specs.Meanings.{function_view};
ghost use Rattle.kp_symbolic.specs.Terms.{headed, known};
ghost use Rattle.kp_symbolic.specs.Folding as model;
ghost use Rattle.kp_symbolic.specs.View.{term_view, terms_of};
ghost use Rattle.kp_symbolic.specs.Languages.{language_view};
ghost use Rattle.kp_symbolic.specs.Calls.{IsCalled, values_in, value_or, made_of_constructor, made_of_call};

use crate::language::Language;
use crate::sum::summed_or;
use crate::term::Term;
use kp_ground::evaluate::{call_of_two, negation};
use kp_ground::{EvaluationError, Value};
use kp_kore::Hook;
use kp_signature::{Function, Meaning, meaning_of};
use std::alloc::{AllocError, Global};
use std::sync::Arc;

/// What is no term, and what a call of other arguments than its own is.
pub fn no_meaning() -> Value
    ensures { value_view result ≡ truth false }
{
    Value::Truth { holds: false }
}

/// A value as a term.
fn make_known(value: Value) -> Term
    ensures { term_view result ≡ known (value_view value) }
{
    Term::Known { value }
}

/// A symbol and its arguments.
fn make_headed(symbol: Arc<String>, arguments: Arc<Vec<Term>>) -> Term
    ensures { term_view result ≡ headed (string_bytes symbol.value) (terms_of (map term_view arguments.value.items)) }
{
    Term::Headed { symbol, arguments }
}

/// The value that a term is known to be.
pub fn value_known(term: &Term) -> Option<&Value>
    ensures { option_map (λ u. value_view u.now) result ≡ model.value_known (term_view term.now) }
{
    match term {
        Term::Known { value } => Some(value),
        _ => None,
    }
}

/// The values of terms, where all are known.
fn values_known(alloc: Global, terms: &[Term]) -> Result<Option<Vec<Value>>, AllocError>
    ensures { IfOk result (λ o. option_map values_in o ≡ model.values_known (terms_of (map term_view terms.now))) }
{
    let mut values = Vec::new(alloc);
    for term in terms {
        match value_known(term) {
            Some(value) => values.push(value.share(alloc)?)?,
            None => return Ok(None),
        }
    }
    Ok(Some(values))
}

/// The value of a call of two values; None where it leaves 128 bits.
fn called_with_two(hook: Hook, left: &Value, right: &Value) -> Result<Option<Value>, AllocError>
    ensures { IfOk result (IsCalled (interpreted (hook_view hook) (two (value_view left.now) (value_view right.now)))) }
{
    match call_of_two(hook, left, right) {
        Ok(value) => Ok(Some(value)),
        Err(EvaluationError::Number) => Ok(None),
        Err(EvaluationError::Memory) => Err(AllocError),
    }
}

/// The value of a call; None where it leaves 128 bits. A call of another number of arguments has no meaning.
fn called(function: Function, values: &[Value]) -> Result<Option<Value>, AllocError>
    ensures { IfOk result (IsCalled (interpreted (function_view function) (values_of (map value_view values.now)))) }
{
    match function {
        Function::Two(hook) => match values {
            [left, right] => called_with_two(hook, left, right),
            _ => Ok(Some(no_meaning())),
        },
        Function::Negation => match values {
            [value] => Ok(Some(negation(value))),
            _ => Ok(Some(no_meaning())),
        },
    }
}

/// The only one of these terms.
fn only_term(alloc: Global, arguments: &[Term]) -> Result<Term, AllocError>
    ensures { IfOk result (λ t. term_view t ≡ model.only_term (terms_of (map term_view arguments.now))) }
{
    match arguments {
        [argument] => argument.share(alloc),
        _ => Ok(make_known(no_meaning())),
    }
}

/// A constructor of values.
fn make_constructed(
    alloc: Global,
    symbol: Arc<String>,
    values: Vec<Value>,
) -> Result<Term, AllocError>
    ensures { IfOk result (λ t. term_view t ≡ known (constructed (string_bytes symbol.value) (values_in values))) }
{
    Ok(Term::Known {
        value: Value::Constructed {
            constructor: symbol,
            arguments: Arc::new(alloc, values)?,
        },
    })
}

/// A constructor with its arguments: its value, where they are all known.
fn made_construction(
    alloc: Global,
    symbol: Arc<String>,
    arguments: Arc<Vec<Term>>,
) -> Result<Term, AllocError>
    ensures { IfOk result (λ t. term_view t ≡ made_of_constructor (string_bytes symbol.value) (terms_of (map term_view arguments.value.items))) }
{
    match values_known(alloc, &arguments)? {
        Some(values) => make_constructed(alloc, symbol, values),
        None => Ok(make_headed(symbol, arguments)),
    }
}

/// A call of known arguments: its value, where it is within 128 bits.
fn computed(function: Function, values: &[Value], call: Term) -> Result<Term, AllocError>
    ensures { IfOk result (λ t. term_view t ≡ value_or (interpreted (function_view function) (values_of (map value_view values.now))) (term_view call)) }
{
    match called(function, values)? {
        Some(value) => Ok(make_known(value)),
        None => Ok(call),
    }
}

/// A call of an interpreted symbol: computed where its arguments are known, a sum where it is one of a variable and
/// constants.
fn made_call(
    alloc: Global,
    language: &Language,
    function: Function,
    symbol: Arc<String>,
    arguments: Arc<Vec<Term>>,
) -> Result<Term, AllocError>
    ensures { let language' = language_view language.now in let function' = function_view function in let terms = terms_of (map term_view arguments.value.items) in IfOk result (λ t. term_view t ≡ made_of_call language' function' (string_bytes symbol.value) terms) }
{
    let call = make_headed(symbol, arguments.clone()?);
    match values_known(alloc, &arguments)? {
        Some(values) => computed(function, &values, call),
        None => summed_or(language, function, &arguments, call),
    }
}

/// A symbol applied to folded arguments, folded.
pub fn apply(
    alloc: Global,
    language: &Language,
    symbol: Arc<String>,
    arguments: Arc<Vec<Term>>,
) -> Result<Term, AllocError>
    ensures { let language' = language_view language.now in IfOk result (λ t. term_view t ≡ model.applied_term language' (string_bytes symbol.value) (terms_of (map term_view arguments.value.items))) }
{
    match meaning_of(language.signature, &symbol) {
        Meaning::Injection => only_term(alloc, &arguments),
        Meaning::Constructor => made_construction(alloc, symbol, arguments),
        Meaning::Interpreted(function) => made_call(alloc, language, function, symbol, arguments),
        Meaning::Foreign => Ok(make_headed(symbol, arguments)),
    }
}
