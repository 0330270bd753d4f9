ghost use Rattle.std.specs.Prelude.{◌≡◌, ◌↔◌, ◌&&◌, ◌||◌, ◌+◌, ℕ, IfOk, MatchOption, None, true, false, map, codes, string_bytes};
ghost use Rattle.std.specs.Option.{option_map};
ghost use Rattle.std.specs.Str.{bytes_eq};
ghost use Rattle.std.specs.Str.Parse.{signed_digits_value};
ghost use Rattle.kp_kore.specs.Signature.{symbol_declared};
ghost use Rattle.kp_kore.specs.Sorting.{at_arguments, result_sort, sort_of_term};
ghost use Rattle.kp_kore.specs.Syntax.{variable as variable_of, literal as literal_of};
ghost use Rattle.kp_kore.specs.View.{view, patterns_view, sort_view, sorts_view, names_view};
ghost use Rattle.kp_signature.specs.View.{signature_view};
ghost use Rattle.kp_kore.specs.Value as model;
ghost use Rattle.kp_kore.specs.Sorted.{IsSorted};
ghost use Rattle.kp_kore.specs.Limits.{writes_number, fits_number};
ghost use Rattle.kp_kore.specs.Foreign.{IsSkeletonInstance};
ghost use Rattle.kp_kore.specs.Rules.{constrained_term};
ghost use Rattle.kp_ground.specs.View.{value_view};
ghost use Rattle.kp_rules.specs.Index.{IsIndexOf};
ghost use Rattle.kp_rules.specs.Skeletons.{skeleton_view, any_form, maybe_form, one_of, built as built_form, nothing as nothing_form, Writes, forms_of, StandsFor, StandForAll, StandsForFirst, IsAdmitted};

use crate::inject::is_split;
use crate::shape::constrained_side;
use crate::sort_index::SortIndex;
use kp_ground::Value;
use kp_kore::{Name, Pattern, Sort};
use kp_signature::instance::sort_at;
use kp_signature::rules::is_numeral;
use kp_signature::{MOST_DEPTH, Meaning, Signature, meaning_of};
use std::alloc::{AllocError, Global};
use std::sync::Arc;

/// What a rule's left side may stand for.
pub enum Skeleton {
    /// Any value.
    Anything,
    Nothing,
    /// Any value of the sort.
    Any {
        sort: Sort,
    },
    /// One value of the sort, the same wherever the variable stands.
    Variable {
        name: Arc<String>,
        sort: Sort,
    },
    Fixed {
        value: Value,
    },
    Built {
        constructor: Arc<String>,
        arguments: Vec<Skeleton>,
    },
}

// Written out: a derived one is proved again in each crate that owns such a value.
impl Drop for Skeleton {
    fn drop(self) {
        match self {
            Skeleton::Anything => {}
            Skeleton::Nothing => {}
            Skeleton::Any { sort: _sort } => {}
            Skeleton::Variable {
                name: _name,
                sort: _sort,
            } => {}
            Skeleton::Fixed { value: _value } => {}
            Skeleton::Built {
                constructor: _constructor,
                arguments: _arguments,
            } => {}
        }
    }
}

/// Any value of the sort; of a sort variable, any value.
pub fn any_of(alloc: Global, sort: &Sort) -> Result<Skeleton, AllocError>
    ensures { IfOk result (λ k. skeleton_view k ≡ any_form (sort_view sort.now)) }
{
    match sort {
        Sort::App { .. } => Ok(Skeleton::Any {
            sort: sort.copy(alloc)?,
        }),
        Sort::Variable { .. } => Ok(Skeleton::Anything),
    }
}

/// Any value of the sort with the arguments in the place of the parameters.
fn any_at(
    alloc: Global,
    sort: &Sort,
    parameters: &[Name],
    arguments: &[Sort],
) -> Result<Skeleton, AllocError>
    ensures { IfOk result (λ k. skeleton_view k ≡ any_form (at_arguments (names_view parameters.now) (sorts_view arguments.now) (sort_view sort.now))) }
{
    let instance = sort_at(sort, alloc, parameters, arguments)?;
    Ok(any_of(alloc, &instance)?)
}

/// Any value of the result sort of a symbol or an alias at these sorts.
fn any_result(
    alloc: Global,
    signature: &Signature,
    symbol: &str,
    sorts: &[Sort],
) -> Result<Skeleton, AllocError>
    ensures { IfOk result (λ k. skeleton_view k ≡ maybe_form (result_sort (signature_view signature.now) symbol.now (sorts_view sorts.now))) }
{
    match signature.symbol(symbol) {
        Some(found) => Ok(any_at(alloc, &found.result_sort, &found.parameters, sorts)?),
        None => Ok(any_result_of_alias(alloc, signature, symbol, sorts)?),
    }
}

/// Anything of an alias's result sort.
fn any_result_of_alias(
    alloc: Global,
    signature: &Signature,
    symbol: &str,
    sorts: &[Sort],
) -> Result<Skeleton, AllocError>
    ensures { let g = signature_view signature.now in symbol_declared g symbol.now ≡ None → IfOk result (λ k. skeleton_view k ≡ maybe_form (result_sort g symbol.now (sorts_view sorts.now))) }
{
    match signature.alias(symbol) {
        Some(found) => Ok(any_at(alloc, &found.result_sort, &found.parameters, sorts)?),
        None => Ok(Skeleton::Anything),
    }
}

/// Any value of the pattern's sort.
fn any_of_pattern(
    alloc: Global,
    signature: &Signature,
    pattern: &Pattern,
) -> Result<Skeleton, AllocError>
    ensures { IfOk result (λ k. skeleton_view k ≡ maybe_form (sort_of_term (signature_view signature.now) (view pattern.now))) }
{
    match pattern {
        Pattern::Variable { sort, .. } => Ok(any_of(alloc, sort)?),
        Pattern::SetVariable { sort, .. } => Ok(any_of(alloc, sort)?),
        Pattern::Literal { sort, .. } => Ok(any_of(alloc, sort)?),
        Pattern::Application { symbol, sorts, .. } => {
            Ok(any_result(alloc, signature, symbol, sorts)?)
        }
        _ => Ok(Skeleton::Anything),
    }
}

/// One value where the variable's sort has literals, else any value of the sort.
fn variable(
    alloc: Global,
    signature: &Signature,
    name: &Name,
    sort: &Sort,
) -> Result<Skeleton, AllocError>
    ensures { IfOk result (λ k. (n : ℕ) → StandsFor (signature_view signature.now) (n + 1) (variable_of (string_bytes name.now) (sort_view sort.now)) (skeleton_view k)) }
{
    if signature.has_literals(sort) {
        Ok(one_value(alloc, name, sort)?)
    } else {
        Ok(any_of(alloc, sort)?)
    }
}

/// The one value of a variable's name at its sort.
pub fn one_value(alloc: Global, name: &Name, sort: &Sort) -> Result<Skeleton, AllocError>
    ensures { IfOk result (λ k. skeleton_view k ≡ one_of (string_bytes name.now) (sort_view sort.now)) }
{
    Ok(Skeleton::Variable {
        name: Arc::new(alloc, name.clone()?)?,
        sort: sort.copy(alloc)?,
    })
}

/// The number that a text writes, where it writes one within signed 128 bits.
fn whole_number(text: &str) -> Option<Value>
    ensures { let written = signed_digits_value 10 text.now in let is_number = writes_number text.now && fits_number written in MatchOption result (is_number ≡ false) (λ u. (is_number ≡ true) × (value_view u ≡ model.whole written)) }
{
    if !is_numeral(text) {
        return None;
    }
    match text.parse::<i128>() {
        Ok(number) => Some(Value::Whole { number }),
        Err(_) => None,
    }
}

/// The truth value that a text writes.
fn truth_value(text: &str) -> Option<Value>
    ensures { let says_true = bytes_eq text.now (codes "true") in let is_truth = says_true || bytes_eq text.now (codes "false") in MatchOption result (is_truth ≡ false) (λ u. (is_truth ≡ true) × (value_view u ≡ model.truth says_true)) }
{
    if text == "true" {
        return Some(Value::Truth { holds: true });
    }
    if text == "false" {
        return Some(Value::Truth { holds: false });
    }
    None
}

/// A token as a value.
fn token_of(alloc: Global, sort: &Sort, text: &Name) -> Result<Value, AllocError>
    ensures { IfOk result (λ u. value_view u ≡ model.token (sort_view sort.now) (string_bytes text.now)) }
{
    Ok(Value::Token {
        sort: sort.copy(alloc)?,
        text: text.clone()?,
    })
}

/// The value that a literal's text writes, where it writes one of the sort.
fn value_written(
    alloc: Global,
    signature: &Signature,
    sort: &Sort,
    text: &Name,
) -> Result<Option<Value>, AllocError>
    ensures { IfOk result (λ o. Writes (signature_view signature.now) (sort_view sort.now) (string_bytes text.now) (option_map value_view o)) }
{
    if signature.is_integer_sort(sort) {
        return Ok(whole_number(text.as_str()));
    }
    if signature.is_boolean_sort(sort) {
        return Ok(truth_value(text.as_str()));
    }
    if signature.is_token_sort(sort) {
        return Ok(Some(token_of(alloc, sort, text)?));
    }
    Ok(None)
}

/// The literal's value; where it writes none, any value of the sort.
fn literal(
    alloc: Global,
    signature: &Signature,
    sort: &Sort,
    text: &Name,
) -> Result<Skeleton, AllocError>
    ensures { IfOk result (λ k. (n : ℕ) → StandsFor (signature_view signature.now) (n + 1) (literal_of (sort_view sort.now) (string_bytes text.now)) (skeleton_view k)) }
{
    match value_written(alloc, signature, sort, text)? {
        Some(value) => Ok(Skeleton::Fixed { value }),
        None => Ok(any_of(alloc, sort)?),
    }
}

/// A constructor with its arguments.
pub fn built(alloc: Global, symbol: &Name, arguments: Vec<Skeleton>) -> Result<Skeleton, AllocError>
    ensures { IfOk result (λ k. skeleton_view k ≡ built_form (string_bytes symbol.now) (forms_of (map skeleton_view arguments.items))) }
{
    Ok(Skeleton::Built {
        constructor: Arc::new(alloc, symbol.clone()?)?,
        arguments,
    })
}

/// What a left term may stand for, at so many levels of depth that are left. An application of a constructor goes
/// member by member, and `inj` is seen through where it splits by heads. What has no meaning, or is too deep, is any
/// value of its sort.
#[cycle(skeleton)]
pub fn skeleton_of(
    pattern: &Pattern,
    alloc: Global,
    signature: &Signature,
    index: &SortIndex,
    levels: usize,
) -> Result<Skeleton, AllocError>
    requires index { IsIndexOf (signature_view signature.now) index.now }
    ensures { IfOk result (λ k. StandsFor (signature_view signature.now) levels (view pattern.now) (skeleton_view k)) }
{
    if levels == 0 {
        return Ok(any_of_pattern(alloc, signature, pattern)?);
    }
    match pattern {
        Pattern::Variable { name, sort } => Ok(variable(alloc, signature, name, sort)?),
        Pattern::Literal { sort, text } => Ok(literal(alloc, signature, sort, text)?),
        Pattern::Application {
            symbol,
            sorts,
            arguments,
        } => match meaning_of(signature, symbol) {
            Meaning::Constructor => {
                let skeletons = skeletons_of(arguments, alloc, signature, index, levels - 1)?;
                Ok(built(alloc, symbol, skeletons)?)
            }
            Meaning::Injection => {
                if is_split(alloc, signature, index, pattern)? {
                    Ok(skeleton_of_first(arguments, alloc, signature, index, levels - 1)?)
                } else {
                    Ok(any_result(alloc, signature, symbol, sorts)?)
                }
            }
            Meaning::Interpreted(_) => Ok(any_result(alloc, signature, symbol, sorts)?),
            Meaning::Foreign => Ok(any_result(alloc, signature, symbol, sorts)?),
        },
        _ => Ok(any_of_pattern(alloc, signature, pattern)?),
    }
}

/// What each of the patterns may stand for.
#[cycle(skeleton)]
fn skeletons_of(
    patterns: &[Pattern],
    alloc: Global,
    signature: &Signature,
    index: &SortIndex,
    levels: usize,
) -> Result<Vec<Skeleton>, AllocError>
    requires index { IsIndexOf (signature_view signature.now) index.now }
    ensures { IfOk result (λ ks. StandForAll (signature_view signature.now) levels (patterns_view patterns.now) ks.items) }
{
    let mut found = Vec::new(alloc);
    for pattern in patterns {
        found.push(skeleton_of(pattern, alloc, signature, index, levels)?)?;
    }
    Ok(found)
}

/// What the first of the patterns may stand for.
#[cycle(skeleton)]
fn skeleton_of_first(
    patterns: &[Pattern],
    alloc: Global,
    signature: &Signature,
    index: &SortIndex,
    levels: usize,
) -> Result<Skeleton, AllocError>
    requires index { IsIndexOf (signature_view signature.now) index.now }
    ensures { IfOk result (λ k. StandsForFirst (signature_view signature.now) levels (patterns_view patterns.now) (skeleton_view k)) }
{
    for pattern in patterns {
        return Ok(skeleton_of(pattern, alloc, signature, index, levels)?);
    }
    Ok(nothing())
}

/// What nothing stands for.
fn nothing() -> Skeleton
    ensures { skeleton_view result ≡ nothing_form }
{
    Skeleton::Nothing
}

/// What the left side of a `\rewrites` of this sort may stand for: where it is a constrained term, what its term may
/// stand for, else any value of the sort.
pub fn skeleton_of_left(
    alloc: Global,
    signature: &Signature,
    index: &SortIndex,
    sort: &Sort,
    left: &Pattern,
) -> Result<Skeleton, AllocError>
    requires index { IsIndexOf (signature_view signature.now) index.now }
    ensures { let g = signature_view signature.now in IfOk result (λ k. (u : model.Value) → IsSorted g u → IsAdmitted g k u ↔ IsSkeletonInstance g (record { sort = sort_view sort.now; term = constrained_term (view left.now) }) u) }
{
    match constrained_side(alloc, left)? {
        Some(side) => Ok(skeleton_of(side.term, alloc, signature, index, MOST_DEPTH)?),
        None => Ok(any_of(alloc, sort)?),
    }
}
