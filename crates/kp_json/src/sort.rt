ghost use Rattle.std.specs.Prelude.{◌≡◌, IfOk, IfErr};
ghost use Rattle.serde_json.specs.View.{items_view, members_view};
ghost use Rattle.kp_kore.specs.View.{sort_view, sorts_view};
ghost use Rattle.kp_json.specs.Faults.{read, sort_items, sort_reading};
ghost use Rattle.kp_json.specs.Faults as spec;
ghost use Rattle.kp_json.specs.View.{Tells};

use crate::fault::{JsonError, no_tag};
use crate::member::{Object, member, name, tag, tree, trees};
use kp_kore::{Name, Sort};
use serde_json::Value;
use std::alloc::Global;

/// The sort that a tree spells.
#[cycle(sort)]
#[tactic(auto, using(crate::proofs::Sorts::sort_unfolds))]
pub fn sort_of(alloc: Global, object: &Object) -> Result<Sort, JsonError>
    ensures found { IfOk result (λ s. sort_reading (members_view object.now.entries) ≡ read (sort_view s)) }
    ensures fault { IfErr result (λ e. Tells e (sort_reading (members_view object.now.entries))) }
{
    let tag = tag(alloc, object)?;
    sort_tagged(alloc, object, tag)
}

/// The sort of an object with this tag.
#[cycle(sort)]
fn sort_tagged(alloc: Global, object: &Object, tag: &str) -> Result<Sort, JsonError>
    ensures found { IfOk result (λ s. spec.sort_tagged sort_reading (members_view object.now.entries) tag.now ≡ read (sort_view s)) }
    ensures fault { IfErr result (λ e. Tells e (spec.sort_tagged sort_reading (members_view object.now.entries) tag.now)) }
{
    if tag == "SortApp" {
        sort_application(alloc, object)
    } else if tag == "SortVar" {
        named_sort_variable(alloc, object)
    } else {
        Err(no_tag(alloc, tag))
    }
}

/// The sort variable that an object spells.
fn named_sort_variable(alloc: Global, object: &Object) -> Result<Sort, JsonError>
    ensures found { IfOk result (λ s. spec.named_sort_variable (members_view object.now.entries) ≡ read (sort_view s)) }
    ensures fault { IfErr result (λ e. Tells e (spec.named_sort_variable (members_view object.now.entries))) }
{
    let found = member(alloc, object, "name")?;
    let name = name(alloc, "name", found)?;
    Ok(Sort::Variable {
        name: Name::from_str(alloc, name)?,
    })
}

/// The sort with arguments that an object spells.
#[cycle(sort)]
fn sort_application(alloc: Global, object: &Object) -> Result<Sort, JsonError>
    ensures found { IfOk result (λ s. spec.sort_application sort_reading (members_view object.now.entries) ≡ read (sort_view s)) }
    ensures fault { IfErr result (λ e. Tells e (spec.sort_application sort_reading (members_view object.now.entries))) }
{
    let found = member(alloc, object, "name")?;
    let list = member(alloc, object, "args")?;
    let name = name(alloc, "name", found)?;
    let sorts = trees(alloc, "args", list)?;
    let arguments = sorts_of(alloc, "args", sorts)?;
    Ok(Sort::App {
        name: Name::from_str(alloc, name)?,
        arguments,
    })
}

/// The sorts that the trees spell, one by one.
#[cycle(sort)]
pub fn sorts_of(alloc: Global, key: &str, values: &[Value]) -> Result<Vec<Sort>, JsonError>
    ensures found { IfOk result (λ ss. sort_items sort_reading key.now (items_view values.now) ≡ read (sorts_view ss.items)) }
    ensures fault { IfErr result (λ e. Tells e (sort_items sort_reading key.now (items_view values.now))) }
{
    let mut sorts = Vec::new(alloc);
    for value in values {
        let object = tree(alloc, key, value)?;
        sorts.push(sort_of(alloc, object)?)?;
    }
    Ok(sorts)
}
