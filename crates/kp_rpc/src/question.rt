ghost use Rattle.std.specs.Prelude.{◌≡◌, ◌≤◌, false, length, IfOk, IfSome, Some, option_map, string_bytes, codes};
ghost use Rattle.serde_json.specs.Data.{Data, depth, string, no_members, put as with_member};
ghost use Rattle.serde_json.specs.Read.{max_depth};
ghost use Rattle.serde_json.specs.View.{view, items_view, members_view};
ghost use Rattle.serde_json.specs.Written.{compact_text, has_float};
ghost use Rattle.kp_kore.specs.View.{view as pattern_view};
ghost use Rattle.kp_json.specs.Written.{two_parts, wrapped_pattern};
ghost use Rattle.kp_frames.specs.Frames.{most_frame};
ghost use Rattle.kp_rpc.specs.Frame.{IsFrame};
ghost use Rattle.kp_rpc.specs.Questions.{with_number, with_text, with_texts, text_items, execute_params, implies_object, implies_params, request_object, to_add, question_tree};
ghost use Rattle.kp_rpc.specs.Request.{execute_method};
ghost use Rattle.kp_rpc.specs.View.{id_view, name_view, options_view, question_view, texts_view};

use crate::id::{Id, id_value};
use crate::params::ExecuteOptions;
use kp_json::value_of;
use kp_kore::Pattern;
use serde_json::{Map, Value, json, put};
use std::alloc::{AllocError, Global};

/// What a client asks the server.
#[derive(Drop)]
pub enum Question {
    Execute {
        id: Id,
        state: Pattern,
        options: ExecuteOptions,
    },
    Implies {
        id: Id,
        antecedent: Pattern,
        consequent: Pattern,
        module_name: Option<String>,
    },
    /// The text of a module, which gets its id for a name alone.
    AddModule {
        id: Id,
        text: String,
    },
}

/// The members of an object.
pub type Object = Map<String, Value>;

/// The object with a number, where there is one.
fn with_number_at(
    alloc: Global,
    mut object: Object,
    key: &str,
    number: Option<u64>,
) -> Result<Object, AllocError>
    ensures { IfOk result (λ o. members_view o.entries ≡ with_number key.now number (members_view object.entries)) }
{
    match number {
        Some(n) => {
            put(&mut object, alloc, key, Value::from(n))?;
            Ok(object)
        }
        None => Ok(object),
    }
}

/// The object with a text, where there is one.
pub fn with_text_at(
    alloc: Global,
    mut object: Object,
    key: &str,
    text: &Option<String>,
) -> Result<Object, AllocError>
    ensures { IfOk result (λ o. members_view o.entries ≡ with_text key.now (name_view text.now) (members_view object.entries)) }
{
    match text {
        Some(text) => {
            put(&mut object, alloc, key, Value::from(text.clone()?))?;
            Ok(object)
        }
        None => Ok(object),
    }
}

/// The tree of a text.
fn text_value(text: &String) -> Result<Value, AllocError>
    ensures { IfOk result (λ v. view v ≡ string (string_bytes text.now)) }
{
    Ok(Value::from(text.clone()?))
}

/// The list of texts.
fn texts_value(alloc: Global, texts: &[String]) -> Result<Vec<Value>, AllocError>
    ensures { IfOk result (λ vs. items_view vs.items ≡ text_items (texts_view texts.now)) }
{
    let mut values = Vec::new(alloc);
    for text in texts {
        values.push(text_value(text)?)?;
    }
    Ok(values)
}

/// The object with a list of texts, where there are some.
fn with_texts_at(
    alloc: Global,
    mut object: Object,
    key: &str,
    texts: &[String],
) -> Result<Object, AllocError>
    ensures { IfOk result (λ o. members_view o.entries ≡ with_texts key.now (texts_view texts.now) (members_view object.entries)) }
{
    if texts.is_empty() {
        return Ok(object);
    }
    let values = texts_value(alloc, texts)?;
    put(&mut object, alloc, key, Value::Array(values))?;
    Ok(object)
}

/// The object with one more member.
pub fn with_member_at(
    alloc: Global,
    mut object: Object,
    key: &str,
    member: Value,
) -> Result<Object, AllocError>
    ensures { IfOk result (λ o. members_view o.entries ≡ with_member key.now (view member) (members_view object.entries)) }
{
    put(&mut object, alloc, key, member)?;
    Ok(object)
}

/// The params of execute.
fn execute_object(
    alloc: Global,
    options: &ExecuteOptions,
    state: Value,
) -> Result<Object, AllocError>
    ensures { IfOk result (λ o. members_view o.entries ≡ execute_params (options_view options.now) (view state)) }
{
    let object = with_texts_at(alloc, Map::new(alloc), "terminal-rules", &options.terminals)?;
    let object = with_member_at(alloc, object, "state", state)?;
    let object = with_text_at(alloc, object, "module", &options.module_name)?;
    let object = with_number_at(alloc, object, "max-depth", options.max_depth)?;
    with_texts_at(alloc, object, "cut-point-rules", &options.cut_points)
}

/// The params of implies.
fn implies_object(
    alloc: Global,
    module_name: &Option<String>,
    antecedent: Value,
    consequent: Value,
) -> Result<Object, AllocError>
    ensures { IfOk result (λ o. members_view o.entries ≡ implies_params (name_view module_name.now) (view antecedent) (view consequent)) }
{
    let object = with_text_at(alloc, Map::new(alloc), "module", module_name)?;
    let object = with_member_at(alloc, object, "consequent", consequent)?;
    with_member_at(alloc, object, "antecedent", antecedent)
}

/// The tree of a request, by its method and the members of its params.
pub fn request_value(
    alloc: Global,
    id: &Id,
    method: &str,
    params: Object,
) -> Result<Value, AllocError>
    ensures { IfOk result (λ v. view v ≡ request_object (id_view id.now) method.now (members_view params.entries)) }
{
    let id_member = id_value(id)?;
    let params = Value::Object(params);
    json!(in alloc; {"id": id_member, "jsonrpc": "2.0", "method": method, "params": params})
}

/// The tree of a request of execute; none where Kore JSON has no tag for a pattern in it.
fn execute_value(
    alloc: Global,
    id: &Id,
    state: &Pattern,
    options: &ExecuteOptions,
) -> Result<Option<Value>, AllocError>
    ensures { let options' = options_view options.now in let state' = pattern_view state.now in
        IfOk result (λ o. option_map view o
        ≡ option_map (λ s. request_object (id_view id.now) execute_method (execute_params options' s)) (wrapped_pattern state')) }
{
    let Some(state) = value_of(alloc, state)? else {
        return Ok(None);
    };
    let params = execute_object(alloc, options, state)?;
    Ok(Some(request_value(alloc, id, "execute", params)?))
}

/// The tree of a request of implies; none where Kore JSON has no tag for a pattern in it.
fn implies_value(
    alloc: Global,
    id: &Id,
    antecedent: &Pattern,
    consequent: &Pattern,
    module_name: &Option<String>,
) -> Result<Option<Value>, AllocError>
    ensures { let asked_of = implies_object (id_view id.now) (name_view module_name.now) in
        IfOk result (λ o. option_map view o ≡ two_parts asked_of (wrapped_pattern (pattern_view antecedent.now)) (wrapped_pattern (pattern_view consequent.now))) }
{
    let Some(antecedent) = value_of(alloc, antecedent)? else {
        return Ok(None);
    };
    let Some(consequent) = value_of(alloc, consequent)? else {
        return Ok(None);
    };
    let params = implies_object(alloc, module_name, antecedent, consequent)?;
    Ok(Some(request_value(alloc, id, "implies", params)?))
}

/// The params of add-module.
fn add_module_object(alloc: Global, text: &String) -> Result<Object, AllocError>
    ensures { IfOk result (λ o. members_view o.entries ≡ with_member (codes "module") (string (string_bytes text.now)) no_members) }
{
    let module = text_value(text)?;
    with_member_at(alloc, Map::new(alloc), "module", module)
}

/// The tree of a request of add-module.
fn add_module_value(alloc: Global, id: &Id, text: &String) -> Result<Option<Value>, AllocError>
    ensures { IfOk result (λ o. option_map view o ≡ question_tree (to_add (id_view id.now) (string_bytes text.now))) }
{
    let params = add_module_object(alloc, text)?;
    Ok(Some(request_value(alloc, id, "add-module", params)?))
}

/// The tree of a question; none where Kore JSON has no tag for a pattern in it.
fn question_value(alloc: Global, question: &Question) -> Result<Option<Value>, AllocError>
    ensures { IfOk result (λ o. option_map view o ≡ question_tree (question_view question.now)) }
{
    match question {
        Question::Execute { id, state, options } => execute_value(alloc, id, state, options),
        Question::Implies {
            id,
            antecedent,
            consequent,
            module_name,
        } => implies_value(alloc, id, antecedent, consequent, module_name),
        Question::AddModule { id, text } => add_module_value(alloc, id, text),
    }
}

/// The bytes of a question: its compact text with sorted keys. None where Kore JSON has no tag for a pattern in it.
/// Where they nest at most 127 deep and are no more than a frame may have, they are a frame of the question.
///
/// # Errors
/// Where memory runs out.
pub fn question_text(alloc: Global, question: &Question) -> Result<Option<Vec<u8>>, AllocError>
    ensures text { IfOk result (λ o. option_map (λ b. b.items) o ≡ option_map compact_text (question_tree (question_view question.now))) }
    ensures read_back { let tree = question_tree (question_view question.now) in
        IfOk result (λ o. IfSome o (λ b. (d : Data) → tree ≡ Some d → depth d ≤ max_depth → length b.items ≤ most_frame → IsFrame b.items d)) }
{
    match question_value(alloc, question)? {
        Some(tree) => Ok(Some(tree.to_vec(alloc)?)),
        None => Ok(None),
    }
}
