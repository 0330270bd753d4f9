// The forms of patterns, as they are written, from the trees of the patterns below.
ghost use Rattle.std.specs.Prelude.{◌≡◌, [], ◌∷◌, IfOk, codes};
ghost use Rattle.serde_json.specs.Data.{string, array, object, put as with_member};
ghost use Rattle.serde_json.specs.View.{items_view, members_view};
ghost use Rattle.kp_kore.specs.View.{sort_view, sorts_view};
ghost use Rattle.kp_json.specs.Written.{sort_tree, sort_trees, sort_member, with_sort, quantifier_tree, comparison_tree, tagged};

use crate::member::Object;
use crate::tree::{with_text, with_tree, with_trees};
use crate::written_sort::{sort_values, with_sort};
use kp_kore::Sort;
use serde_json::{Map, Value};
use std::alloc::{AllocError, Global};

/// The object of a variable.
pub fn variable(alloc: Global, name: &str, sort: &Sort) -> Result<Object, AllocError>
    ensures { IfOk result (λ o. object (members_view o.entries) ≡ tagged (codes "EVar")
        ((codes "name", string name.now) ∷ sort_member (sort_view sort.now) ∷ [])) }
{
    let members = with_sort(alloc, Map::new(alloc), "sort", sort)?;
    let members = with_text(alloc, members, "name", name)?;
    with_text(alloc, members, "tag", "EVar")
}

/// The object of a symbol applied to these objects.
pub fn application(
    alloc: Global,
    symbol: &str,
    sorts: &[Sort],
    arguments: Vec<Value>,
) -> Result<Object, AllocError>
    ensures { let sorts' = sort_trees (sorts_view sorts.now) in
        IfOk result (λ o. object (members_view o.entries) ≡ tagged (codes "App")
        ((codes "name", string symbol.now) ∷ (codes "sorts", array sorts') ∷ (codes "args", array (items_view arguments.items)) ∷ [])) }
{
    let members = with_trees(alloc, Map::new(alloc), "args", arguments)?;
    let sorts = sort_values(alloc, sorts)?;
    let members = with_trees(alloc, members, "sorts", sorts)?;
    let members = with_text(alloc, members, "name", symbol)?;
    with_text(alloc, members, "tag", "App")
}

/// The object of a literal.
pub fn literal(alloc: Global, sort: &Sort, text: &str) -> Result<Object, AllocError>
    ensures { IfOk result (λ o. object (members_view o.entries) ≡ tagged (codes "DV")
        (sort_member (sort_view sort.now) ∷ (codes "value", string text.now) ∷ [])) }
{
    let members = with_text(alloc, Map::new(alloc), "value", text)?;
    sorted(alloc, "DV", sort, members)
}

/// The object of a pattern that has a sort alone.
pub fn alone(alloc: Global, tag: &str, sort: &Sort) -> Result<Object, AllocError>
    ensures { IfOk result (λ o. object (members_view o.entries) ≡ tagged tag.now (sort_member (sort_view sort.now) ∷ [])) }
{
    sorted(alloc, tag, sort, Map::new(alloc))
}

/// The object of a pattern over one other.
pub fn one_below(alloc: Global, tag: &str, sort: &Sort, below: Object) -> Result<Object, AllocError>
    ensures { IfOk result (λ o. object (members_view o.entries) ≡ tagged tag.now
        (sort_member (sort_view sort.now) ∷ (codes "arg", object (members_view below.entries)) ∷ [])) }
{
    let members = with_tree(alloc, Map::new(alloc), "arg", below)?;
    sorted(alloc, tag, sort, members)
}

/// The object of a pattern over a list of others.
pub fn list_below(
    alloc: Global,
    tag: &str,
    sort: &Sort,
    below: Vec<Value>,
) -> Result<Object, AllocError>
    ensures { IfOk result (λ o. object (members_view o.entries) ≡ tagged tag.now
        (sort_member (sort_view sort.now) ∷ (codes "patterns", array (items_view below.items)) ∷ [])) }
{
    let members = with_trees(alloc, Map::new(alloc), "patterns", below)?;
    sorted(alloc, tag, sort, members)
}

/// The object of a pattern over two others.
pub fn two_below(
    alloc: Global,
    tag: &str,
    sort: &Sort,
    first: Object,
    second: Object,
) -> Result<Object, AllocError>
    ensures { let members = sort_member (sort_view sort.now) ∷ (codes "first", object (members_view first.entries)) ∷ (codes "second", object (members_view second.entries)) ∷ [] in
        IfOk result (λ o. object (members_view o.entries) ≡ tagged tag.now members) }
{
    let members = with_tree(alloc, Map::new(alloc), "second", second)?;
    let members = with_tree(alloc, members, "first", first)?;
    sorted(alloc, tag, sort, members)
}

/// The object of `\rewrites`.
pub fn rewriting(
    alloc: Global,
    sort: &Sort,
    source: Object,
    dest: Object,
) -> Result<Object, AllocError>
    ensures { let members = sort_member (sort_view sort.now) ∷ (codes "source", object (members_view source.entries)) ∷ (codes "dest", object (members_view dest.entries)) ∷ [] in
        IfOk result (λ o. object (members_view o.entries) ≡ tagged (codes "Rewrites") members) }
{
    let members = with_tree(alloc, Map::new(alloc), "dest", dest)?;
    let members = with_tree(alloc, members, "source", source)?;
    sorted(alloc, "Rewrites", sort, members)
}

/// The object of a quantifier.
pub fn bound(
    alloc: Global,
    tag: &str,
    sort: &Sort,
    name: &str,
    name_sort: &Sort,
    below: Object,
) -> Result<Object, AllocError>
    ensures { let below' = object (members_view below.entries) in
        IfOk result (λ o. object (members_view o.entries) ≡ quantifier_tree tag.now (sort_view sort.now) name.now (sort_view name_sort.now) below') }
{
    let members = with_tree(alloc, Map::new(alloc), "arg", below)?;
    let members = with_sort(alloc, members, "varSort", name_sort)?;
    let members = with_text(alloc, members, "var", name)?;
    sorted(alloc, tag, sort, members)
}

/// The object of a pattern of two sorts over one other.
pub fn sorted_one(
    alloc: Global,
    tag: &str,
    argument_sort: &Sort,
    sort: &Sort,
    below: Object,
) -> Result<Object, AllocError>
    ensures { let below' = object (members_view below.entries) in
        IfOk result (λ o. object (members_view o.entries) ≡ tagged tag.now
        ((codes "argSort", sort_tree (sort_view argument_sort.now)) ∷ sort_member (sort_view sort.now) ∷ (codes "arg", below') ∷ [])) }
{
    let members = with_tree(alloc, Map::new(alloc), "arg", below)?;
    sorted_twice(alloc, tag, argument_sort, sort, members)
}

/// The object of a pattern of two sorts over two others.
pub fn sorted_two(
    alloc: Global,
    tag: &str,
    argument_sort: &Sort,
    sort: &Sort,
    first: Object,
    second: Object,
) -> Result<Object, AllocError>
    ensures { let first' = object (members_view first.entries) in let second' = object (members_view second.entries) in
        IfOk result (λ o. object (members_view o.entries) ≡ comparison_tree tag.now (sort_view argument_sort.now) (sort_view sort.now) first' second') }
{
    let members = with_tree(alloc, Map::new(alloc), "second", second)?;
    let members = with_tree(alloc, members, "first", first)?;
    sorted_twice(alloc, tag, argument_sort, sort, members)
}

/// The object with its sort and its tag.
fn sorted(alloc: Global, tag: &str, sort: &Sort, members: Object) -> Result<Object, AllocError>
    ensures { let members' = members_view members.entries in
        IfOk result (λ o. members_view o.entries ≡ with_member (codes "tag") (string tag.now) (with_sort (codes "sort") (sort_view sort.now) members')) }
{
    let members = with_sort(alloc, members, "sort", sort)?;
    with_text(alloc, members, "tag", tag)
}

/// The object with its argument's sort, its own sort and its tag.
fn sorted_twice(
    alloc: Global,
    tag: &str,
    argument_sort: &Sort,
    sort: &Sort,
    members: Object,
) -> Result<Object, AllocError>
    ensures { let members' = members_view members.entries in
        IfOk result (λ o. members_view o.entries ≡ with_member (codes "tag") (string tag.now)
        (with_sort (codes "argSort") (sort_view argument_sort.now) (with_sort (codes "sort") (sort_view sort.now) members'))) }
{
    let members = with_sort(alloc, members, "sort", sort)?;
    let members = with_sort(alloc, members, "argSort", argument_sort)?;
    with_text(alloc, members, "tag", tag)
}
