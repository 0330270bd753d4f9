// The one normal spelling in which a configuration is written.
ghost use Rattle.std.specs.Prelude.{◌≡◌, ◌↔◌, false, not, FitsSigned, IfOk, IfErr, OnOk, IsTrue, map, string_bytes};
ghost use Rattle.std.specs.Fmt.{signed_decimal};
ghost use Rattle.std.specs.Int.{w128};
ghost use Rattle.std.specs.List.{list_all};
ghost use Rattle.kp_compile.specs.Parts.{seen};
ghost use Rattle.kp_kore.specs.Syntax.{KoreSort, literal, application, no_sorts};
ghost use Rattle.kp_kore.specs.Signature.{injection, meaning_of as meaning_named};
ghost use Rattle.kp_kore.specs.View.{view, sort_view, sorts_view, patterns_view};
ghost use Rattle.kp_signature.specs.View.{signature_view};
ghost use Rattle.kp_kore.specs.Value as model;
ghost use Rattle.kp_kore.specs.Foreign.{none_within};
ghost use Rattle.kp_ground.specs.View.{value_view, values_of};
ghost use Rattle.kp_compile.specs.declared.state_error.SpellingError.TheVariants.{NoInjection};
ghost use Rattle.kp_compile.specs.Spelled as spec;
ghost use Rattle.kp_compile.specs.Spelled.{IsSpellingOf, spelling, spellings, bare_spelling, placed};

use crate::head_sort::own_sort;
use crate::state_error::SpellingError;
use crate::subpatterns;
use kp_ground::Value;
use kp_kore::{Name, Pattern, Sort};
use kp_signature::{Meaning, Signature, meaning_of};
use std::alloc::{AllocError, Global};

/// The normal spelling of a value at a sort: numbers without a plus sign or leading zeros, and one `inj` where the
/// value's own sort isn't the one that its place has. NoInjection where it has an `inj` and the signature has none.
pub fn spelled(
    alloc: Global,
    signature: &Signature,
    value: &Value,
    sort: &Sort,
) -> Result<Pattern, SpellingError>
    ensures normal { IfOk result (λ p. view p ≡ spelling (signature_view signature.now) (sort_view sort.now) (value_view value.now)) }
    ensures written { IfOk result (λ p. IsTrue (none_within spec.is_other_form (view p))) }
    ensures no_injection { IfErr result (λ e. e ≡ NoInjection → ¬ (meaning_named (signature_view signature.now) spec.injection_name ≡ injection)) }
    ensures injects { let g = signature_view signature.now in IfErr result (λ e. e ≡ NoInjection → none_within spec.has_two_sorts (spelling g (sort_view sort.now) (value_view value.now)) ≡ false) }
    ensures meant { let g = signature_view signature.now in model.HasSort g (sort_view sort.now) (value_view value.now) → IfOk result (λ p. IsSpellingOf g (value_view value.now) (view p)) }
{
    let pattern = spelled_at(value, alloc, signature, sort)?;
    if has_injection(signature) {
        return Ok(pattern);
    }
    if injects(alloc, &pattern)? {
        return Err(SpellingError::NoInjection);
    }
    Ok(pattern)
}

/// Whether the signature has `inj`.
pub fn has_injection(signature: &Signature) -> bool
    ensures { IsTrue result ↔ (meaning_named (signature_view signature.now) spec.injection_name ≡ injection) }
{
    match meaning_of(signature, "inj") {
        Meaning::Injection => true,
        Meaning::Constructor | Meaning::Interpreted(_) | Meaning::Foreign => false,
    }
}

/// Whether a symbol at two sorts stands in the pattern.
pub fn injects(alloc: Global, pattern: &Pattern) -> Result<bool, AllocError>
    ensures { IfOk result (λ b. b ≡ not (none_within spec.has_two_sorts (view pattern.now))) }
{
    let parts = subpatterns(alloc, pattern)?;
    Ok(!are_others(&parts))
}

/// Whether none of the patterns is a symbol at two sorts.
fn are_others(parts: &[&Pattern]) -> bool
    ensures { result ≡ list_all (λ q. not (spec.has_two_sorts q)) (seen parts.now) }
{
    for part in parts {
        if has_two_sorts(part) {
            return false;
        }
    }
    true
}

/// Whether it is an application at two sorts.
fn has_two_sorts(pattern: &Pattern) -> bool
    ensures { result ≡ spec.has_two_sorts (view pattern.now) }
{
    match pattern {
        Pattern::Application { sorts, .. } => sorts.len() == 2,
        _ => false,
    }
}

/// The value as a term at this sort.
#[cycle(spelling)]
pub fn spelled_at(
    value: &Value,
    alloc: Global,
    signature: &Signature,
    sort: &Sort,
) -> Result<Pattern, AllocError>
    ensures normal { IfOk result (λ p. view p ≡ spelling (signature_view signature.now) (sort_view sort.now) (value_view value.now)) }
    ensures fits { model.HasSort (signature_view signature.now) (sort_view sort.now) (value_view value.now) → OnOk result (spec.NumbersFit (value_view value.now)) }
{
    let own = home_of(alloc, signature, value, sort)?;
    let inner = bare(value, alloc, signature, &own)?;
    placed_at(alloc, own, sort, inner)
}

/// A value at its own sort.
#[cycle(spelling)]
fn bare(
    value: &Value,
    alloc: Global,
    signature: &Signature,
    own: &Sort,
) -> Result<Pattern, AllocError>
    ensures normal { IfOk result (λ p. view p ≡ bare_spelling (signature_view signature.now) (sort_view own.now) (value_view value.now)) }
    ensures fits { (s : KoreSort) → model.HasSort (signature_view signature.now) s (value_view value.now) → OnOk result (spec.NumbersFit (value_view value.now)) }
{
    match value {
        Value::Whole { number } => literal_of(alloc, own, number_text(alloc, *number)?),
        Value::Truth { holds } => literal_of(alloc, own, truth_text(alloc, *holds)?),
        Value::Token { sort, text } => literal_of(alloc, sort, text.clone()?),
        Value::Constructed {
            constructor,
            arguments,
        } => {
            let places = places_of(signature, constructor);
            let patterns = spelled_all(arguments, alloc, signature, places)?;
            applied(alloc, constructor, patterns)
        }
    }
}

/// The arguments of a constructor, each at its declared sort.
#[cycle(spelling)]
fn spelled_all(
    values: &[Value],
    alloc: Global,
    signature: &Signature,
    places: &[Sort],
) -> Result<Vec<Pattern>, AllocError>
    ensures normal { let g = signature_view signature.now in IfOk result (λ ps. patterns_view ps.items ≡ spellings g (sorts_view places.now) (values_of (map value_view values.now))) }
    ensures fits { let the_values = values_of (map value_view values.now) in model.HaveSorts (signature_view signature.now) (sorts_view places.now) the_values → OnOk result (spec.AllNumbersFit the_values) }
{
    let mut patterns = Vec::new(alloc);
    for i in 0..values.len().min(places.len()) {
        patterns.push(spelled_at(&values[i], alloc, signature, &places[i])?)?;
    }
    Ok(patterns)
}

/// The sort that a value is written at by itself.
fn home_of(
    alloc: Global,
    signature: &Signature,
    value: &Value,
    sort: &Sort,
) -> Result<Sort, AllocError>
    ensures { IfOk result (λ own. sort_view own ≡ spec.home_of (signature_view signature.now) (sort_view sort.now) (value_view value.now)) }
{
    match own_sort(alloc, signature, value)? {
        Some(own) => Ok(own),
        None => sort.copy(alloc),
    }
}

/// The declared sorts of a constructor's arguments.
pub fn places_of<'a>(signature: &'a Signature, constructor: &str) -> &'a [Sort]
    ensures { sorts_view result.now ≡ spec.places_of (signature_view signature.now) constructor.now }
{
    match signature.symbol(constructor) {
        Some(symbol) => &symbol.arguments,
        None => &[],
    }
}

/// `inj{A,B}(p)`, where A isn't B.
pub fn placed_at(
    alloc: Global,
    own: Sort,
    sort: &Sort,
    inner: Pattern,
) -> Result<Pattern, AllocError>
    ensures { IfOk result (λ p. view p ≡ placed (sort_view own) (sort_view sort.now) (view inner)) }
{
    if own.equal(sort) {
        return Ok(inner);
    }
    injected(alloc, own, sort.copy(alloc)?, inner)
}

/// The term under `inj` from the lower sort to the upper.
fn injected(
    alloc: Global,
    lower: Sort,
    upper: Sort,
    pattern: Pattern,
) -> Result<Pattern, AllocError>
    ensures { IfOk result (λ p. view p ≡ spec.injected (sort_view lower) (sort_view upper) (view pattern)) }
{
    let mut sorts = Vec::new(alloc);
    sorts.push(lower)?;
    sorts.push(upper)?;
    let mut arguments = Vec::new(alloc);
    arguments.push(pattern)?;
    Ok(Pattern::Application {
        symbol: String::from_str(alloc, "inj")?,
        sorts,
        arguments,
    })
}

/// The literal of a text at a sort.
fn literal_of(alloc: Global, sort: &Sort, text: Name) -> Result<Pattern, AllocError>
    ensures { IfOk result (λ p. view p ≡ literal (sort_view sort.now) (string_bytes text)) }
{
    Ok(Pattern::Literal {
        sort: sort.copy(alloc)?,
        text,
    })
}

/// The number's decimal digits.
fn number_text(alloc: Global, number: i128) -> Result<Name, AllocError>
    ensures text { IfOk result (λ t. string_bytes t ≡ signed_decimal number) }
    ensures fits { FitsSigned w128 number }
{
    number.to_string(alloc)
}

/// The truth value's word.
fn truth_text(alloc: Global, holds: bool) -> Result<Name, AllocError>
    ensures { IfOk result (λ t. string_bytes t ≡ spec.truth_text holds) }
{
    if holds {
        String::from_str(alloc, "true")
    } else {
        String::from_str(alloc, "false")
    }
}

/// The constructor over these terms.
fn applied(
    alloc: Global,
    constructor: &Name,
    arguments: Vec<Pattern>,
) -> Result<Pattern, AllocError>
    ensures { IfOk result (λ p. view p ≡ application (string_bytes constructor.now) no_sorts (patterns_view arguments.items)) }
{
    Ok(Pattern::Application {
        symbol: constructor.clone()?,
        sorts: Vec::new(alloc),
        arguments,
    })
}
