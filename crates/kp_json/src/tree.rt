// Objects that are written, member by member: the last goes in first, as in `members_of`. No owned `Value` is kept
// where memory may run out, since its derived drop would be proved at each such place.
ghost use Rattle.std.specs.Prelude.{◌≡◌, [], ◌∷◌, IfOk, codes};
ghost use Rattle.serde_json.specs.Data.{string, array, object, put as with_member};
ghost use Rattle.serde_json.specs.View.{items_view, members_view};
ghost use Rattle.kp_json.specs.Written.{tagged};
ghost use Rattle.kp_json.specs.Written as spec;

use crate::member::Object;
use serde_json::{Map, Value, put};
use std::alloc::{AllocError, Global};

/// The object with one more member, a text.
pub fn with_text(
    alloc: Global,
    mut members: Object,
    key: &str,
    text: &str,
) -> Result<Object, AllocError>
    ensures { IfOk result (λ o. members_view o.entries ≡ with_member key.now (string text.now) (members_view members.entries)) }
{
    let text = String::from_str(alloc, text)?;
    put(&mut members, alloc, key, Value::String(text))?;
    Ok(members)
}

/// The object with one more member, an object.
pub fn with_tree(
    alloc: Global,
    mut members: Object,
    key: &str,
    tree: Object,
) -> Result<Object, AllocError>
    ensures { IfOk result (λ o. members_view o.entries ≡ with_member key.now (object (members_view tree.entries)) (members_view members.entries)) }
{
    put(&mut members, alloc, key, Value::Object(tree))?;
    Ok(members)
}

/// The object with one more member, a list.
pub fn with_trees(
    alloc: Global,
    mut members: Object,
    key: &str,
    trees: Vec<Value>,
) -> Result<Object, AllocError>
    ensures { IfOk result (λ o. members_view o.entries ≡ with_member key.now (array (items_view trees.items)) (members_view members.entries)) }
{
    put(&mut members, alloc, key, Value::Array(trees))?;
    Ok(members)
}

/// The object that names format and version around a pattern's.
pub fn wrapped(alloc: Global, term: Object) -> Result<Object, AllocError>
    ensures { IfOk result (λ o. object (members_view o.entries) ≡ spec.wrapped (object (members_view term.entries))) }
{
    let mut members = with_tree(alloc, Map::new(alloc), "term", term)?;
    put(&mut members, alloc, "version", Value::from(1u64))?;
    with_text(alloc, members, "format", "KORE")
}

/// The object of a sort applied to these.
pub fn sort_application(
    alloc: Global,
    name: &str,
    arguments: Vec<Value>,
) -> Result<Object, AllocError>
    ensures { let arguments' = items_view arguments.items in
        IfOk result (λ o. object (members_view o.entries) ≡ tagged (codes "SortApp")
        ((codes "name", string name.now) ∷ (codes "args", array arguments') ∷ [])) }
{
    let members = with_trees(alloc, Map::new(alloc), "args", arguments)?;
    let members = with_text(alloc, members, "name", name)?;
    with_text(alloc, members, "tag", "SortApp")
}

/// The object of a sort variable.
pub fn sort_variable(alloc: Global, name: &str) -> Result<Object, AllocError>
    ensures { IfOk result (λ o. object (members_view o.entries) ≡ tagged (codes "SortVar") ((codes "name", string name.now) ∷ [])) }
{
    let members = with_text(alloc, Map::new(alloc), "name", name)?;
    with_text(alloc, members, "tag", "SortVar")
}
