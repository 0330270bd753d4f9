// Sorts, as they are written.
ghost use Rattle.std.specs.Prelude.{◌≡◌, IfOk};
ghost use Rattle.serde_json.specs.Data.{object, put as with_member};
ghost use Rattle.serde_json.specs.View.{items_view, members_view};
ghost use Rattle.kp_kore.specs.View.{sort_view, sorts_view};
ghost use Rattle.kp_json.specs.Written.{sort_tree, sort_trees};

use crate::member::Object;
use crate::tree::{sort_application, sort_variable, with_tree};
use kp_kore::Sort;
use serde_json::{Value, push};
use std::alloc::{AllocError, Global};

/// The members of a sort's tree.
#[cycle(sort)]
pub fn sort_object(alloc: Global, sort: &Sort) -> Result<Object, AllocError>
    ensures { IfOk result (λ o. object (members_view o.entries) ≡ sort_tree (sort_view sort.now)) }
{
    match sort {
        Sort::App { name, arguments } => {
            let arguments = sort_values(alloc, arguments)?;
            sort_application(alloc, name, arguments)
        }
        Sort::Variable { name } => sort_variable(alloc, name),
    }
}

/// The objects of the sorts, in order.
#[cycle(sort)]
pub fn sort_values(alloc: Global, sorts: &[Sort]) -> Result<Vec<Value>, AllocError>
    ensures { IfOk result (λ vs. items_view vs.items ≡ sort_trees (sorts_view sorts.now)) }
{
    let mut values = Vec::new(alloc);
    for sort in sorts {
        let tree = sort_object(alloc, sort)?;
        push(&mut values, Value::Object(tree))?;
    }
    Ok(values)
}

/// The object with a sort as a member.
pub fn with_sort(
    alloc: Global,
    members: Object,
    key: &str,
    sort: &Sort,
) -> Result<Object, AllocError>
    ensures { IfOk result (λ o. members_view o.entries ≡ with_member key.now (sort_tree (sort_view sort.now)) (members_view members.entries)) }
{
    let tree = sort_object(alloc, sort)?;
    with_tree(alloc, members, key, tree)
}
