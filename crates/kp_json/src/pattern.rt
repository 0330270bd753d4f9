ghost use Rattle.std.specs.Prelude.{◌≡◌, IfOk, IfErr};
ghost use Rattle.serde_json.specs.View.{view as data_view, items_view, members_view};
ghost use Rattle.kp_kore.specs.View.{view, sort_view, patterns_view};
ghost use Rattle.kp_json.specs.Faults.{read, pattern_within, pattern_items};
ghost use Rattle.kp_json.specs.Faults as spec;
ghost use Rattle.kp_json.specs.Shapes.{quantified_reading, bracketed_reading, connected_reading, compared_reading};
ghost use Rattle.kp_json.specs.View.{Tells};

use crate::fault::{JsonError, JsonFault, missing, no_tag};
use crate::member::{Object, find, member, tag, tree, trees};
use crate::parts::{
    bound_and_one, literal_of, sort_alone, sort_and_one, sort_and_two, sorts_and_one,
    sorts_and_two, symbol_and_lists, variable_of,
};
use crate::shape::{Bracketed, Compared, Connected, Quantified};
use crate::sort::sort_of;
use crate::vecs::{conjunction, disjunction, two};
use kp_kore::{Pattern, Sort};
use serde_json::Value;
use std::alloc::Global;

// In each function below, patterns may nest so deep from its own tree, or below it.

/// The pattern that a tree spells.
#[cycle(pattern)]
pub fn pattern_at(alloc: Global, levels: usize, object: &Object) -> Result<Pattern, JsonError>
    ensures found { IfOk result (λ p. pattern_within levels (members_view object.now.entries) ≡ read (view p)) }
    ensures fault { IfErr result (λ e. Tells e (pattern_within levels (members_view object.now.entries))) }
{
    if levels == 0 {
        return Err(JsonError::Fault(JsonFault::TooDeep));
    }
    let tag = tag(alloc, object)?;
    pattern_tagged(alloc, levels - 1, object, tag)
}

/// The pattern of an object with this tag.
#[cycle(pattern)]
fn pattern_tagged(
    alloc: Global,
    below: usize,
    object: &Object,
    tag: &str,
) -> Result<Pattern, JsonError>
    ensures found { IfOk result (λ p. spec.pattern_tagged (pattern_within below) (members_view object.now.entries) tag.now ≡ read (view p)) }
    ensures fault { IfErr result (λ e. Tells e (spec.pattern_tagged (pattern_within below) (members_view object.now.entries) tag.now)) }
{
    if tag == "EVar" {
        variable_of(alloc, object)
    } else if tag == "DV" {
        literal_of(alloc, object)
    } else if tag == "Top" {
        let sort = sort_alone(alloc, object)?;
        Ok(Pattern::Top { sort })
    } else if tag == "Bottom" {
        let sort = sort_alone(alloc, object)?;
        Ok(Pattern::Bottom { sort })
    } else {
        listed_tagged(alloc, below, object, tag)
    }
}

/// The pattern of an object with a tag of patterns over a list.
#[cycle(pattern)]
fn listed_tagged(
    alloc: Global,
    below: usize,
    object: &Object,
    tag: &str,
) -> Result<Pattern, JsonError>
    ensures found { IfOk result (λ p. spec.listed_tagged (pattern_within below) (members_view object.now.entries) tag.now ≡ read (view p)) }
    ensures fault { IfErr result (λ e. Tells e (spec.listed_tagged (pattern_within below) (members_view object.now.entries) tag.now)) }
{
    if tag == "App" {
        let (symbol, sorts, trees) = symbol_and_lists(alloc, object)?;
        let arguments = patterns_of(alloc, below, "args", trees)?;
        Ok(Pattern::Application {
            symbol,
            sorts,
            arguments,
        })
    } else if tag == "And" {
        let (sort, patterns) = sort_and_members(alloc, below, object)?;
        Ok(conjunction(sort, patterns))
    } else if tag == "Or" {
        let (sort, patterns) = sort_and_members(alloc, below, object)?;
        Ok(disjunction(sort, patterns))
    } else {
        single_tagged(alloc, below, object, tag)
    }
}

/// The pattern of an object with a tag of patterns over one other.
#[cycle(pattern)]
#[tactic(auto, unfolding(crate::specs::Faults::single_tagged))]
fn single_tagged(
    alloc: Global,
    below: usize,
    object: &Object,
    tag: &str,
) -> Result<Pattern, JsonError>
    ensures found { IfOk result (λ p. spec.single_tagged (pattern_within below) (members_view object.now.entries) tag.now ≡ read (view p)) }
    ensures fault { IfErr result (λ e. Tells e (spec.single_tagged (pattern_within below) (members_view object.now.entries) tag.now)) }
{
    if tag == "Not" {
        let (sort, tree) = sort_and_one(alloc, object)?;
        let pattern = boxed(alloc, below, tree)?;
        Ok(Pattern::Not { sort, pattern })
    } else if tag == "Exists" {
        quantified(alloc, below, object, Quantified::Exists)
    } else if tag == "Forall" {
        quantified(alloc, below, object, Quantified::Forall)
    } else if tag == "Ceil" {
        bracketed(alloc, below, object, Bracketed::Ceil)
    } else if tag == "Floor" {
        bracketed(alloc, below, object, Bracketed::Floor)
    } else {
        double_tagged(alloc, below, object, tag)
    }
}

/// The pattern of an object with a tag of patterns over two others.
#[cycle(pattern)]
#[tactic(auto, unfolding(crate::specs::Faults::double_tagged))]
fn double_tagged(
    alloc: Global,
    below: usize,
    object: &Object,
    tag: &str,
) -> Result<Pattern, JsonError>
    ensures found { IfOk result (λ p. spec.double_tagged (pattern_within below) (members_view object.now.entries) tag.now ≡ read (view p)) }
    ensures fault { IfErr result (λ e. Tells e (spec.double_tagged (pattern_within below) (members_view object.now.entries) tag.now)) }
{
    if tag == "Implies" {
        connected(alloc, below, object, Connected::Implies, "first", "second")
    } else if tag == "Iff" {
        connected(alloc, below, object, Connected::Iff, "first", "second")
    } else if tag == "Rewrites" {
        connected(alloc, below, object, Connected::Rewrites, "source", "dest")
    } else if tag == "Equals" {
        compared(alloc, below, object, Compared::Equals)
    } else if tag == "In" {
        compared(alloc, below, object, Compared::In)
    } else {
        Err(no_tag(alloc, tag))
    }
}

/// The quantifier that an object spells.
#[cycle(pattern)]
fn quantified(
    alloc: Global,
    below: usize,
    object: &Object,
    form: Quantified,
) -> Result<Pattern, JsonError>
    ensures found { IfOk result (λ p. quantified_reading (pattern_within below) form (members_view object.now.entries) ≡ read (view p)) }
    ensures fault { IfErr result (λ e. Tells e (quantified_reading (pattern_within below) form (members_view object.now.entries))) }
{
    let (sort, name, name_sort, tree) = bound_and_one(alloc, object)?;
    let pattern = boxed(alloc, below, tree)?;
    Ok(form.over(sort, name, name_sort, pattern))
}

/// `\ceil` or `\floor`, as an object spells it.
#[cycle(pattern)]
fn bracketed(
    alloc: Global,
    below: usize,
    object: &Object,
    form: Bracketed,
) -> Result<Pattern, JsonError>
    ensures found { IfOk result (λ p. bracketed_reading (pattern_within below) form (members_view object.now.entries) ≡ read (view p)) }
    ensures fault { IfErr result (λ e. Tells e (bracketed_reading (pattern_within below) form (members_view object.now.entries))) }
{
    let (argument_sort, sort, tree) = sorts_and_one(alloc, object)?;
    let pattern = boxed(alloc, below, tree)?;
    Ok(form.over(argument_sort, sort, pattern))
}

/// The connective of two patterns under these keys.
#[cycle(pattern)]
fn connected(
    alloc: Global,
    below: usize,
    object: &Object,
    form: Connected,
    first: &str,
    second: &str,
) -> Result<Pattern, JsonError>
    ensures found { IfOk result (λ p. connected_reading (pattern_within below) form first.now second.now (members_view object.now.entries) ≡ read (view p)) }
    ensures fault { let reading = connected_reading (pattern_within below) form first.now second.now (members_view object.now.entries) in IfErr result (λ e. Tells e reading) }
{
    let (sort, first, second) = sort_and_two(alloc, object, first, second)?;
    let left = boxed(alloc, below, first)?;
    let right = boxed(alloc, below, second)?;
    Ok(form.over(sort, left, right))
}

/// `\equals` or `\in`, as an object spells it.
#[cycle(pattern)]
fn compared(
    alloc: Global,
    below: usize,
    object: &Object,
    form: Compared,
) -> Result<Pattern, JsonError>
    ensures found { IfOk result (λ p. compared_reading (pattern_within below) form (members_view object.now.entries) ≡ read (view p)) }
    ensures fault { IfErr result (λ e. Tells e (compared_reading (pattern_within below) form (members_view object.now.entries))) }
{
    let (argument_sort, sort, first, second) = sorts_and_two(alloc, object)?;
    let left = boxed(alloc, below, first)?;
    let right = boxed(alloc, below, second)?;
    Ok(form.over(argument_sort, sort, left, right))
}

/// The members of And and Or.
#[cycle(pattern)]
fn sort_and_members(
    alloc: Global,
    below: usize,
    object: &Object,
) -> Result<(Sort, Vec<Pattern>), JsonError>
    ensures found { IfOk result (λ r. spec.sort_and_members (pattern_within below) (members_view object.now.entries) ≡ read (sort_view r.0, patterns_view r.1.items)) }
    ensures fault { IfErr result (λ e. Tells e (spec.sort_and_members (pattern_within below) (members_view object.now.entries))) }
{
    let sort = member(alloc, object, "sort")?;
    match find(object, "patterns") {
        Some(list) => sort_and_list(alloc, below, sort, list),
        None => {
            if find(object, "first").is_none() && find(object, "second").is_none() {
                Err(missing(alloc, "patterns"))
            } else {
                sort_and_pair(alloc, below, object)
            }
        }
    }
}

/// The sort, and the patterns of the list.
#[cycle(pattern)]
fn sort_and_list(
    alloc: Global,
    below: usize,
    sort: &Value,
    list: &Value,
) -> Result<(Sort, Vec<Pattern>), JsonError>
    ensures found { IfOk result (λ r. spec.sort_and_list (pattern_within below) (data_view sort.now) (data_view list.now) ≡ read (sort_view r.0, patterns_view r.1.items)) }
    ensures fault { IfErr result (λ e. Tells e (spec.sort_and_list (pattern_within below) (data_view sort.now) (data_view list.now))) }
{
    let sort = tree(alloc, "sort", sort)?;
    let values = trees(alloc, "patterns", list)?;
    let sort = sort_of(alloc, sort)?;
    let patterns = patterns_of(alloc, below, "patterns", values)?;
    Ok((sort, patterns))
}

/// The sort, and the patterns of the two parts.
#[cycle(pattern)]
fn sort_and_pair(
    alloc: Global,
    below: usize,
    object: &Object,
) -> Result<(Sort, Vec<Pattern>), JsonError>
    ensures found { IfOk result (λ r. spec.sort_and_pair (pattern_within below) (members_view object.now.entries) ≡ read (sort_view r.0, patterns_view r.1.items)) }
    ensures fault { IfErr result (λ e. Tells e (spec.sort_and_pair (pattern_within below) (members_view object.now.entries))) }
{
    let (sort, first, second) = sort_and_two(alloc, object, "first", "second")?;
    let first = pattern_at(alloc, below, first)?;
    let second = pattern_at(alloc, below, second)?;
    let patterns = two(alloc, first, second)?;
    Ok((sort, patterns))
}

/// The patterns that the trees spell, one by one.
#[cycle(pattern)]
fn patterns_of(
    alloc: Global,
    below: usize,
    key: &str,
    values: &[Value],
) -> Result<Vec<Pattern>, JsonError>
    ensures found { IfOk result (λ ps. pattern_items (pattern_within below) key.now (items_view values.now) ≡ read (patterns_view ps.items)) }
    ensures fault { IfErr result (λ e. Tells e (pattern_items (pattern_within below) key.now (items_view values.now))) }
{
    let mut patterns = Vec::new(alloc);
    for value in values {
        let object = tree(alloc, key, value)?;
        patterns.push(pattern_at(alloc, below, object)?)?;
    }
    Ok(patterns)
}

/// The pattern of an object, boxed.
#[cycle(pattern)]
fn boxed(alloc: Global, below: usize, object: &Object) -> Result<Box<Pattern>, JsonError>
    ensures found { IfOk result (λ p. pattern_within below (members_view object.now.entries) ≡ read (view p.value)) }
    ensures fault { IfErr result (λ e. Tells e (pattern_within below (members_view object.now.entries))) }
{
    Ok(Box::new(alloc, pattern_at(alloc, below, object)?)?)
}
