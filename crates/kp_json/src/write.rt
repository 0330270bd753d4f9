ghost use Rattle.std.specs.Prelude.{◌≡◌, IfOk, IfErr, Some, option_map};
ghost use Rattle.serde_json.specs.Data.{object};
ghost use Rattle.serde_json.specs.View.{view as data_view, items_view, members_view};
ghost use Rattle.kp_kore.specs.View.{view, patterns_view, sort_view, sorts_view};
ghost use Rattle.kp_json.specs.Written.{of_two_or_more, pattern_tree, pattern_trees, wrapped_pattern};
ghost use Rattle.kp_json.specs.Written.{application_tree, list_tree, one_tree, bound_tree, bracketed_tree, two_tree, rewriting_tree, compared_tree};
ghost use Rattle.kp_json.specs.View.{Untold};

use crate::member::Object;
use crate::{form, tree};
use kp_kore::{Pattern, Sort};
use serde_json::{Value, push};
use std::alloc::{AllocError, AllocFailed, Global};

/// The wrapper of a pattern's tree; none where no tree spells it: set variables, string patterns, `\next`, `\mu`, `\nu`, and
/// `\and` and `\or` of fewer than two patterns.
/// Source: the K framework's Kore JSON, version 1.
///
/// # Errors
/// Where memory runs out.
pub fn value_of(alloc: Global, pattern: &Pattern) -> Result<Option<Value>, AllocError>
    ensures { IfOk result (λ o. option_map data_view o ≡ wrapped_pattern (view pattern.now)) }
{
    match pattern_object(alloc, pattern) {
        Ok(term) => Ok(Some(Value::Object(tree::wrapped(alloc, term)?))),
        Err(Unwritten::NoTag) => Ok(None),
        Err(Unwritten::Memory) => Err(AllocError),
    }
}

/// Why no tree was written.
#[derive(Drop)]
pub enum Unwritten {
    Memory,
    /// Kore JSON has no tag for it, or a list of so few patterns spells another.
    NoTag,
}

impl From<AllocError> for Unwritten {
    ghost use Rattle.std.specs.Prelude.{◌≡◌};
    ghost use Rattle.kp_json.specs.declared.write.Unwritten.TheVariants.{Memory};

    ghost from_gives = { λ _ e. e ≡ Memory };

    fn from(_error: AllocError) -> Self {
        Unwritten::Memory
    }
}

impl<T: Drop> From<AllocFailed<T>> for Unwritten {
    ghost use Rattle.std.specs.Prelude.{◌≡◌};
    ghost use Rattle.kp_json.specs.declared.write.Unwritten.TheVariants.{Memory};

    ghost from_gives = { λ _ e. e ≡ Memory };

    fn from(_error: AllocFailed<T>) -> Self {
        Unwritten::Memory
    }
}

/// That these are two patterns or more; `NoTag`, where they are fewer.
fn check_two(patterns: &[Pattern]) -> Result<(), Unwritten>
    ensures enough { let ps = patterns_view patterns.now in IfOk result (λ _. of_two_or_more ps (pattern_trees ps) ≡ pattern_trees ps) }
    ensures fewer { let ps = patterns_view patterns.now in IfErr result (λ e. Untold e (of_two_or_more ps (pattern_trees ps))) }
{
    match patterns {
        [_, _, ..] => Ok(()),
        _ => Err(Unwritten::NoTag),
    }
}

/// The members of a pattern's tree.
#[cycle(pattern)]
fn pattern_object(alloc: Global, pattern: &Pattern) -> Result<Object, Unwritten>
    ensures written { IfOk result (λ o. pattern_tree (view pattern.now) ≡ Some (object (members_view o.entries))) }
    ensures unwritten { IfErr result (λ e. Untold e (pattern_tree (view pattern.now))) }
{
    match pattern {
        Pattern::Variable { name, sort } => Ok(form::variable(alloc, name, sort)?),
        Pattern::Literal { sort, text } => Ok(form::literal(alloc, sort, text)?),
        Pattern::Top { sort } => Ok(form::alone(alloc, "Top", sort)?),
        Pattern::Bottom { sort } => Ok(form::alone(alloc, "Bottom", sort)?),
        Pattern::Application {
            symbol,
            sorts,
            arguments,
        } => applied(arguments, alloc, symbol, sorts),
        Pattern::And { sort, patterns } => listed(patterns, alloc, "And", sort),
        Pattern::Or { sort, patterns } => listed(patterns, alloc, "Or", sort),
        Pattern::Not { sort, pattern } => over_one(pattern, alloc, "Not", sort),
        Pattern::Exists {
            sort,
            name,
            name_sort,
            pattern,
        } => quantified(pattern, alloc, "Exists", sort, name, name_sort),
        Pattern::Forall {
            sort,
            name,
            name_sort,
            pattern,
        } => quantified(pattern, alloc, "Forall", sort, name, name_sort),
        Pattern::Ceil {
            argument_sort,
            sort,
            pattern,
        } => bracketed(pattern, alloc, "Ceil", argument_sort, sort),
        Pattern::Floor {
            argument_sort,
            sort,
            pattern,
        } => bracketed(pattern, alloc, "Floor", argument_sort, sort),
        Pattern::Implies { sort, left, right } => {
            let first = pattern_object(alloc, left)?;
            over_two(right, alloc, "Implies", sort, first)
        }
        Pattern::Iff { sort, left, right } => {
            let first = pattern_object(alloc, left)?;
            over_two(right, alloc, "Iff", sort, first)
        }
        Pattern::Rewrites { sort, left, right } => {
            let source = pattern_object(alloc, left)?;
            rewriting(right, alloc, sort, source)
        }
        Pattern::Equals {
            argument_sort,
            sort,
            left,
            right,
        } => {
            let first = pattern_object(alloc, left)?;
            compared(right, alloc, "Equals", argument_sort, sort, first)
        }
        Pattern::In {
            argument_sort,
            sort,
            left,
            right,
        } => {
            let first = pattern_object(alloc, left)?;
            compared(right, alloc, "In", argument_sort, sort, first)
        }
        Pattern::SetVariable { .. }
        | Pattern::StringLiteral { .. }
        | Pattern::Next { .. }
        | Pattern::Mu { .. }
        | Pattern::Nu { .. } => Err(Unwritten::NoTag),
    }
}

/// The object of a symbol applied to these.
#[cycle(pattern)]
fn applied(
    arguments: &[Pattern],
    alloc: Global,
    symbol: &str,
    sorts: &[Sort],
) -> Result<Object, Unwritten>
    ensures written { IfOk result (λ o. application_tree symbol.now (sorts_view sorts.now) (patterns_view arguments.now) ≡ Some (object (members_view o.entries))) }
    ensures unwritten { IfErr result (λ e. Untold e (application_tree symbol.now (sorts_view sorts.now) (patterns_view arguments.now))) }
{
    let arguments = pattern_values(alloc, arguments)?;
    Ok(form::application(alloc, symbol, sorts, arguments)?)
}

/// The object of a connective of these, where they are two or more.
#[cycle(pattern)]
fn listed(patterns: &[Pattern], alloc: Global, tag: &str, sort: &Sort) -> Result<Object, Unwritten>
    ensures written { IfOk result (λ o. list_tree tag.now (sort_view sort.now) (patterns_view patterns.now) ≡ Some (object (members_view o.entries))) }
    ensures unwritten { IfErr result (λ e. Untold e (list_tree tag.now (sort_view sort.now) (patterns_view patterns.now))) }
{
    check_two(patterns)?;
    let below = pattern_values(alloc, patterns)?;
    Ok(form::list_below(alloc, tag, sort, below)?)
}

/// The object of a pattern over this one.
#[cycle(pattern)]
fn over_one(pattern: &Pattern, alloc: Global, tag: &str, sort: &Sort) -> Result<Object, Unwritten>
    ensures written { IfOk result (λ o. one_tree tag.now (sort_view sort.now) (pattern_tree (view pattern.now)) ≡ Some (object (members_view o.entries))) }
    ensures unwritten { IfErr result (λ e. Untold e (one_tree tag.now (sort_view sort.now) (pattern_tree (view pattern.now)))) }
{
    let below = pattern_object(alloc, pattern)?;
    Ok(form::one_below(alloc, tag, sort, below)?)
}

/// The object of a quantifier over this pattern.
#[cycle(pattern)]
fn quantified(
    pattern: &Pattern,
    alloc: Global,
    tag: &str,
    sort: &Sort,
    name: &str,
    name_sort: &Sort,
) -> Result<Object, Unwritten>
    ensures written { let below = pattern_tree (view pattern.now) in IfOk result (λ o. bound_tree tag.now (sort_view sort.now) name.now (sort_view name_sort.now) below ≡ Some (object (members_view o.entries))) }
    ensures unwritten { IfErr result (λ e. Untold e (bound_tree tag.now (sort_view sort.now) name.now (sort_view name_sort.now) (pattern_tree (view pattern.now)))) }
{
    let below = pattern_object(alloc, pattern)?;
    Ok(form::bound(alloc, tag, sort, name, name_sort, below)?)
}

/// The object of `\ceil` or `\floor` of this pattern.
#[cycle(pattern)]
fn bracketed(
    pattern: &Pattern,
    alloc: Global,
    tag: &str,
    argument_sort: &Sort,
    sort: &Sort,
) -> Result<Object, Unwritten>
    ensures written { let below = pattern_tree (view pattern.now) in IfOk result (λ o. bracketed_tree tag.now (sort_view argument_sort.now) (sort_view sort.now) below ≡ Some (object (members_view o.entries))) }
    ensures unwritten { IfErr result (λ e. Untold e (bracketed_tree tag.now (sort_view argument_sort.now) (sort_view sort.now) (pattern_tree (view pattern.now)))) }
{
    let below = pattern_object(alloc, pattern)?;
    Ok(form::sorted_one(alloc, tag, argument_sort, sort, below)?)
}

/// The object of a connective of two patterns, the first of which is written.
#[cycle(pattern)]
fn over_two(
    right: &Pattern,
    alloc: Global,
    tag: &str,
    sort: &Sort,
    first: Object,
) -> Result<Object, Unwritten>
    ensures written { let second = pattern_tree (view right.now) in IfOk result (λ o. two_tree tag.now (sort_view sort.now) (object (members_view first.entries)) second ≡ Some (object (members_view o.entries))) }
    ensures unwritten { IfErr result (λ e. Untold e (two_tree tag.now (sort_view sort.now) (object (members_view first.entries)) (pattern_tree (view right.now)))) }
{
    let second = pattern_object(alloc, right)?;
    Ok(form::two_below(alloc, tag, sort, first, second)?)
}

/// The object of `\rewrites`, whose source is written.
#[cycle(pattern)]
fn rewriting(
    right: &Pattern,
    alloc: Global,
    sort: &Sort,
    source: Object,
) -> Result<Object, Unwritten>
    ensures written { let dest = pattern_tree (view right.now) in IfOk result (λ o. rewriting_tree (sort_view sort.now) (object (members_view source.entries)) dest ≡ Some (object (members_view o.entries))) }
    ensures unwritten { IfErr result (λ e. Untold e (rewriting_tree (sort_view sort.now) (object (members_view source.entries)) (pattern_tree (view right.now)))) }
{
    let dest = pattern_object(alloc, right)?;
    Ok(form::rewriting(alloc, sort, source, dest)?)
}

/// The object of `\equals` or `\in`, whose first pattern is written.
#[cycle(pattern)]
fn compared(
    right: &Pattern,
    alloc: Global,
    tag: &str,
    argument_sort: &Sort,
    sort: &Sort,
    first: Object,
) -> Result<Object, Unwritten>
    ensures written { let first' = object (members_view first.entries) in let second = pattern_tree (view right.now) in IfOk result (λ o. compared_tree tag.now (sort_view argument_sort.now) (sort_view sort.now) first' second ≡ Some (object (members_view o.entries))) }
    ensures unwritten { let first' = object (members_view first.entries) in IfErr result (λ e. Untold e (compared_tree tag.now (sort_view argument_sort.now) (sort_view sort.now) first' (pattern_tree (view right.now)))) }
{
    let second = pattern_object(alloc, right)?;
    Ok(form::sorted_two(alloc, tag, argument_sort, sort, first, second)?)
}

/// The objects of the patterns, in order.
#[cycle(pattern)]
fn pattern_values(alloc: Global, patterns: &[Pattern]) -> Result<Vec<Value>, Unwritten>
    ensures written { IfOk result (λ vs. pattern_trees (patterns_view patterns.now) ≡ Some (items_view vs.items)) }
    ensures unwritten { IfErr result (λ e. Untold e (pattern_trees (patterns_view patterns.now))) }
{
    let mut values = Vec::new(alloc);
    for pattern in patterns {
        let tree = pattern_object(alloc, pattern)?;
        push(&mut values, Value::Object(tree))?;
    }
    Ok(values)
}
