ghost use Rattle.std.specs.Prelude.{◌≡◌, IfOk, IfErr, string_bytes};
ghost use Rattle.serde_json.specs.View.{view as data_view, items_view, members_view};
ghost use Rattle.kp_kore.specs.Syntax.{variable, literal};
ghost use Rattle.kp_kore.specs.View.{view, sort_view, sorts_view};
ghost use Rattle.kp_json.specs.Faults.{read, after};
ghost use Rattle.kp_json.specs.Faults as spec;
ghost use Rattle.kp_json.specs.View.{Tells, comparison_view};

use crate::fault::JsonError;
use crate::member::{Object, member, name, text, tree, trees};
use crate::sort::{sort_of, sorts_of};
use kp_kore::{Name, Pattern, Sort};
use serde_json::Value;
use std::alloc::Global;

// What the members of each form are, but for the patterns below, which stay trees.

/// The sort of a pattern that has nothing else.
#[tactic(auto, unfolding(crate::specs::Faults::sort_alone))]
pub fn sort_alone(alloc: Global, object: &Object) -> Result<Sort, JsonError>
    ensures found { IfOk result (λ s. spec.sort_alone (members_view object.now.entries) ≡ read (sort_view s)) }
    ensures fault { IfErr result (λ e. Tells e (spec.sort_alone (members_view object.now.entries))) }
{
    let sort = member(alloc, object, "sort")?;
    sort_of(alloc, tree(alloc, "sort", sort)?)
}

/// The variable that an object spells.
#[tactic(auto, unfolding(crate::specs::Faults::name_and_sort))]
pub fn variable_of(alloc: Global, object: &Object) -> Result<Pattern, JsonError>
    ensures found { IfOk result (λ p. after (spec.name_and_sort (members_view object.now.entries)) (λ r. read (variable r.0 r.1)) ≡ read (view p)) }
    ensures fault { IfErr result (λ e. Tells e (after (spec.name_and_sort (members_view object.now.entries)) (λ r. read (variable r.0 r.1)))) }
{
    let found = member(alloc, object, "name")?;
    let sort = member(alloc, object, "sort")?;
    let name = name(alloc, "name", found)?;
    let sort = tree(alloc, "sort", sort)?;
    let sort = sort_of(alloc, sort)?;
    Ok(Pattern::Variable {
        name: Name::from_str(alloc, name)?,
        sort,
    })
}

/// The literal that an object spells.
#[tactic(auto, unfolding(crate::specs::Faults::sort_and_value))]
pub fn literal_of(alloc: Global, object: &Object) -> Result<Pattern, JsonError>
    ensures found { IfOk result (λ p. after (spec.sort_and_value (members_view object.now.entries)) (λ r. read (literal r.0 r.1)) ≡ read (view p)) }
    ensures fault { IfErr result (λ e. Tells e (after (spec.sort_and_value (members_view object.now.entries)) (λ r. read (literal r.0 r.1)))) }
{
    let sort = member(alloc, object, "sort")?;
    let value = member(alloc, object, "value")?;
    let sort = tree(alloc, "sort", sort)?;
    let value = text(alloc, "value", value)?;
    let sort = sort_of(alloc, sort)?;
    Ok(Pattern::Literal {
        sort,
        text: Name::from_str(alloc, value)?,
    })
}

/// The symbol, the sorts and the arguments of an application.
#[tactic(auto, unfolding(crate::specs::Faults::symbol_and_lists))]
pub fn symbol_and_lists<'a>(
    alloc: Global,
    object: &'a Object,
) -> Result<(Name, Vec<Sort>, &'a Vec<Value>), JsonError>
    ensures found { IfOk result (λ r. spec.symbol_and_lists (members_view object.now.entries) ≡ read (string_bytes r.0, sorts_view r.1.items, items_view r.2.now.items)) }
    ensures fault { IfErr result (λ e. Tells e (spec.symbol_and_lists (members_view object.now.entries))) }
{
    let found = member(alloc, object, "name")?;
    let sorts = member(alloc, object, "sorts")?;
    let arguments = member(alloc, object, "args")?;
    let symbol = name(alloc, "name", found)?;
    let sorts = trees(alloc, "sorts", sorts)?;
    let arguments = trees(alloc, "args", arguments)?;
    let sorts = sorts_of(alloc, "sorts", sorts)?;
    Ok((Name::from_str(alloc, symbol)?, sorts, arguments))
}

/// The sort, and the object of the one part.
#[tactic(auto, unfolding(crate::specs::Faults::sort_and_one))]
pub fn sort_and_one<'a>(alloc: Global, object: &'a Object) -> Result<(Sort, &'a Object), JsonError>
    ensures found { IfOk result (λ r. spec.sort_and_one (members_view object.now.entries) ≡ read (sort_view r.0, members_view r.1.now.entries)) }
    ensures fault { IfErr result (λ e. Tells e (spec.sort_and_one (members_view object.now.entries))) }
{
    let sort = member(alloc, object, "sort")?;
    let below = member(alloc, object, "arg")?;
    let sort = tree(alloc, "sort", sort)?;
    let below = tree(alloc, "arg", below)?;
    Ok((sort_of(alloc, sort)?, below))
}

/// The sort, and the objects of the two parts under these keys.
#[tactic(auto, unfolding(crate::specs::Faults::sort_and_two))]
pub fn sort_and_two<'a>(
    alloc: Global,
    object: &'a Object,
    first: &str,
    second: &str,
) -> Result<(Sort, &'a Object, &'a Object), JsonError>
    ensures found { let reading = spec.sort_and_two first.now second.now (members_view object.now.entries) in IfOk result (λ r. reading ≡ read (sort_view r.0, members_view r.1.now.entries, members_view r.2.now.entries)) }
    ensures fault { IfErr result (λ e. Tells e (spec.sort_and_two first.now second.now (members_view object.now.entries))) }
{
    let sort = member(alloc, object, "sort")?;
    let left = member(alloc, object, first)?;
    let right = member(alloc, object, second)?;
    let sort = tree(alloc, "sort", sort)?;
    let left = tree(alloc, first, left)?;
    let right = tree(alloc, second, right)?;
    Ok((sort_of(alloc, sort)?, left, right))
}

/// Both sorts, and the object of the one part.
#[tactic(auto, unfolding(crate::specs::Faults::sorts_and_one))]
pub fn sorts_and_one<'a>(
    alloc: Global,
    object: &'a Object,
) -> Result<(Sort, Sort, &'a Object), JsonError>
    ensures found { IfOk result (λ r. spec.sorts_and_one (members_view object.now.entries) ≡ read (sort_view r.0, sort_view r.1, members_view r.2.now.entries)) }
    ensures fault { IfErr result (λ e. Tells e (spec.sorts_and_one (members_view object.now.entries))) }
{
    let argument_sort = member(alloc, object, "argSort")?;
    let sort = member(alloc, object, "sort")?;
    let below = member(alloc, object, "arg")?;
    sorts_and_one_in(alloc, argument_sort, sort, below)
}

/// Both sorts and the one part, of the members that were found.
fn sorts_and_one_in<'a>(
    alloc: Global,
    argument_sort: &Value,
    sort: &Value,
    below: &'a Value,
) -> Result<(Sort, Sort, &'a Object), JsonError>
    ensures found { let reading = spec.sorts_and_one_in (data_view argument_sort.now) (data_view sort.now) (data_view below.now) in IfOk result (λ r. reading ≡ read (sort_view r.0, sort_view r.1, members_view r.2.now.entries)) }
    ensures fault { IfErr result (λ e. Tells e (spec.sorts_and_one_in (data_view argument_sort.now) (data_view sort.now) (data_view below.now))) }
{
    let argument_sort = tree(alloc, "argSort", argument_sort)?;
    let sort = tree(alloc, "sort", sort)?;
    let below = tree(alloc, "arg", below)?;
    let argument_sort = sort_of(alloc, argument_sort)?;
    Ok((argument_sort, sort_of(alloc, sort)?, below))
}

/// Both sorts, and the objects of the two parts.
#[tactic(auto, unfolding(crate::specs::Faults::sorts_and_two))]
pub fn sorts_and_two<'a>(
    alloc: Global,
    object: &'a Object,
) -> Result<(Sort, Sort, &'a Object, &'a Object), JsonError>
    ensures found { let reading = spec.sorts_and_two (members_view object.now.entries) in IfOk result (λ r. reading ≡ read (comparison_view r)) }
    ensures fault { IfErr result (λ e. Tells e (spec.sorts_and_two (members_view object.now.entries))) }
{
    let argument_sort = member(alloc, object, "argSort")?;
    let sort = member(alloc, object, "sort")?;
    let left = member(alloc, object, "first")?;
    let right = member(alloc, object, "second")?;
    sorts_and_two_in(alloc, argument_sort, sort, left, right)
}

/// Both sorts and the two parts, of the members that were found.
fn sorts_and_two_in<'a>(
    alloc: Global,
    argument_sort: &Value,
    sort: &Value,
    left: &'a Value,
    right: &'a Value,
) -> Result<(Sort, Sort, &'a Object, &'a Object), JsonError>
    ensures found { let reading = spec.sorts_and_two_in (data_view argument_sort.now) (data_view sort.now) (data_view left.now) (data_view right.now) in IfOk result (λ r. reading ≡ read (comparison_view r)) }
    ensures fault { IfErr result (λ e. Tells e (spec.sorts_and_two_in (data_view argument_sort.now) (data_view sort.now) (data_view left.now) (data_view right.now))) }
{
    let argument_sort = tree(alloc, "argSort", argument_sort)?;
    let sort = tree(alloc, "sort", sort)?;
    let left = tree(alloc, "first", left)?;
    let right = tree(alloc, "second", right)?;
    sorts_and_two_of(alloc, argument_sort, sort, left, right)
}

/// Both sorts read, with the two parts.
fn sorts_and_two_of<'a>(
    alloc: Global,
    argument_sort: &Object,
    sort: &Object,
    left: &'a Object,
    right: &'a Object,
) -> Result<(Sort, Sort, &'a Object, &'a Object), JsonError>
    ensures found { let reading = spec.sorts_and_two_of (members_view argument_sort.now.entries) (members_view sort.now.entries) (members_view left.now.entries) (members_view right.now.entries) in IfOk result (λ r. reading ≡ read (comparison_view r)) }
    ensures fault { let reading = spec.sorts_and_two_of (members_view argument_sort.now.entries) (members_view sort.now.entries) (members_view left.now.entries) (members_view right.now.entries) in IfErr result (λ e. Tells e reading) }
{
    let argument_sort = sort_of(alloc, argument_sort)?;
    Ok((argument_sort, sort_of(alloc, sort)?, left, right))
}

/// The sort, the bound variable with its sort, and the object of the part.
#[tactic(auto, unfolding(crate::specs::Faults::bound_and_one))]
pub fn bound_and_one<'a>(
    alloc: Global,
    object: &'a Object,
) -> Result<(Sort, Name, Sort, &'a Object), JsonError>
    ensures found { IfOk result (λ r. spec.bound_and_one (members_view object.now.entries) ≡ read (sort_view r.0, string_bytes r.1, sort_view r.2, members_view r.3.now.entries)) }
    ensures fault { IfErr result (λ e. Tells e (spec.bound_and_one (members_view object.now.entries))) }
{
    let sort = member(alloc, object, "sort")?;
    let found = member(alloc, object, "var")?;
    let name_sort = member(alloc, object, "varSort")?;
    let below = member(alloc, object, "arg")?;
    bound_and_one_in(alloc, sort, found, name_sort, below)
}

/// The sort, the bound variable and the part, of the members that were found.
fn bound_and_one_in<'a>(
    alloc: Global,
    sort: &Value,
    found: &Value,
    name_sort: &Value,
    below: &'a Value,
) -> Result<(Sort, Name, Sort, &'a Object), JsonError>
    ensures found { let reading = spec.bound_and_one_in (data_view sort.now) (data_view found.now) (data_view name_sort.now) (data_view below.now) in IfOk result (λ r. reading ≡ read (sort_view r.0, string_bytes r.1, sort_view r.2, members_view r.3.now.entries)) }
    ensures fault { IfErr result (λ e. Tells e (spec.bound_and_one_in (data_view sort.now) (data_view found.now) (data_view name_sort.now) (data_view below.now))) }
{
    let sort = tree(alloc, "sort", sort)?;
    let name = name(alloc, "var", found)?;
    let name_sort = tree(alloc, "varSort", name_sort)?;
    let below = tree(alloc, "arg", below)?;
    bound_and_one_of(alloc, sort, name, name_sort, below)
}

/// The sorts read, with the name and the part.
fn bound_and_one_of<'a>(
    alloc: Global,
    sort: &Object,
    name: &str,
    name_sort: &Object,
    below: &'a Object,
) -> Result<(Sort, Name, Sort, &'a Object), JsonError>
    ensures found { let below' = members_view below.now.entries in IfOk result (λ r. spec.bound_and_one_of (members_view sort.now.entries) name.now (members_view name_sort.now.entries) below' ≡ read (sort_view r.0, string_bytes r.1, sort_view r.2, members_view r.3.now.entries)) }
    ensures fault { let reading = spec.bound_and_one_of (members_view sort.now.entries) name.now (members_view name_sort.now.entries) (members_view below.now.entries) in IfErr result (λ e. Tells e reading) }
{
    let sort = sort_of(alloc, sort)?;
    let name_sort = sort_of(alloc, name_sort)?;
    Ok((sort, Name::from_str(alloc, name)?, name_sort, below))
}
