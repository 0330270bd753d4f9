// One call, alone or in a batch.
ghost use Rattle.std.specs.Prelude.{◌≡◌, ◌⊎◌, ◌∷◌, ◌++◌, [], ℕ, List, Some, None, IfOk, IfSome, IsSome, OnErr, OnOk, option_map, string_bytes};
ghost use Rattle.kp_rpc.specs.Reply.{error_reply, no_module, reply_bytes};
ghost use Rattle.kp_rpc.specs.View.{id_view, name_view, options_view};
ghost use Rattle.kp_requests.specs.Requests as requests;
ghost use Rattle.kp_requests.specs.View.{asked_view, call_view, reading_view, request_view};
ghost use Rattle.kp_registry.specs.Passes.{MeansAt};
ghost use Rattle.kp_registry.specs.Registries.{IsPassOf};
ghost use Rattle.kp_service.specs.Answered.{IsReplyIn};
ghost use Rattle.kp_methods.specs.Simplified.{IsSimplifiedAs};
ghost use Rattle.kp_methods.specs.Executed.{IsExecutedAs};
ghost use Rattle.kp_service.specs.Answers.{IsReplyTo};
ghost use Rattle.kp_service.specs.Batches.{FromEachBookSeen, call_of, IsEffect, IsMemberText, IsReplyLine};
ghost use Rattle.kp_service.specs.Meant.{module_asked};
ghost use Rattle.kp_service.specs.Ready.{IsReadyFor};
ghost use Rattle.kp_additions.specs.Served.{AtEachBookSeen, HasLooked};
ghost use Rattle.kp_methods.specs.ImpliedLines.{IsLineOf};

use crate::added::{add_silently, added_line};
use kp_methods::implies::implied_line;
use kp_methods::{Prepared, executed_line, simplified_line};
use kp_registry::{Pass, Registry};
use kp_requests::{Asked, Call, Reading, Request};
use kp_rpc::{ExecuteOptions, Id, StateFault, fault_text, refusal_text};
use kp_rule_sets::RuleSet;
use std::alloc::{AllocError, Global};
use std::sync::{Arc, Wait};

/// The text of the reply to a call; none to a notification, which takes effect.
pub fn answered<R: Wait>(
    rt: &R,
    alloc: Global,
    registry: &Registry,
    prepared: &Prepared,
    pass: &mut Pass,
    call: Call,
) -> Result<Option<Vec<u8>>, AllocError>
    requires pass { IsPassOf registry.now pass.old }
    requires prepared { IsReadyFor registry.now prepared.now }
    ensures pass { IsPassOf registry.now pass.new }
    ensures told { IfOk result (λ reply. FromEachBookSeen registry.now pass.old pass.new (λ o seen. IsMemberText o seen (call_view call) (option_map (λ text. text.items) reply))) }
    ensures left { OnErr result (HasLooked pass.old pass.new) }
{
    let Call { id, asked } = call;
    match id {
        Some(id) => reply_text(rt, alloc, registry, prepared, pass, &id, asked),
        None => no_text(rt, alloc, registry, pass, asked),
    }
}

/// The text of the reply with this id.
fn reply_text<R: Wait>(
    rt: &R,
    alloc: Global,
    registry: &Registry,
    prepared: &Prepared,
    pass: &mut Pass,
    id: &Id,
    asked: Asked,
) -> Result<Option<Vec<u8>>, AllocError>
    requires pass { IsPassOf registry.now pass.old }
    requires prepared { IsReadyFor registry.now prepared.now }
    ensures pass { IsPassOf registry.now pass.new }
    ensures told { let call = call_of (Some (id_view id.now)) (asked_view asked) in IfOk result (λ reply. FromEachBookSeen registry.now pass.old pass.new (λ o seen. IsMemberText o seen call (option_map (λ text. text.items) reply))) }
    ensures left { OnErr result (HasLooked pass.old pass.new) }
{
    let line = reply_line(rt, alloc, registry, prepared, pass, id, asked)?;
    Ok(Some(text_of(line)))
}

/// None: a notification has no reply.
fn no_text<R: Wait>(
    rt: &R,
    alloc: Global,
    registry: &Registry,
    pass: &mut Pass,
    asked: Asked,
) -> Result<Option<Vec<u8>>, AllocError>
    requires pass { IsPassOf registry.now pass.old }
    ensures pass { IsPassOf registry.now pass.new }
    ensures told { let call = call_of None (asked_view asked) in IfOk result (λ reply. FromEachBookSeen registry.now pass.old pass.new (λ o seen. IsMemberText o seen call (option_map (λ text. text.items) reply))) }
    ensures left { OnErr result (HasLooked pass.old pass.new) }
{
    take_effect(rt, alloc, registry, pass, asked)?;
    Ok(None)
}

/// A line without its line feed.
pub fn text_of(line: Vec<u8>) -> Vec<u8>
    ensures { (text : List ℕ) → line.items ≡ text ++ 10 ∷ [] → result.items ≡ text }
{
    let mut text = line;
    let _line_feed = text.pop();
    text
}

/// What a notification does.
fn take_effect<R: Wait>(
    rt: &R,
    alloc: Global,
    registry: &Registry,
    pass: &mut Pass,
    asked: Asked,
) -> Result<(), AllocError>
    requires pass { IsPassOf registry.now pass.old }
    ensures pass { IsPassOf registry.now pass.new }
    ensures done { OnOk result (FromEachBookSeen registry.now pass.old pass.new (λ o seen. IsEffect o seen (asked_view asked))) }
    ensures left { OnErr result (HasLooked pass.old pass.new) }
{
    match asked {
        Asked::Request(request) => request_effect(rt, alloc, registry, pass, request),
        Asked::Refused(_refusal) => Ok(()),
    }
}

/// What a notification of a method does: add-module adds its module, the others do nothing.
fn request_effect<R: Wait>(
    rt: &R,
    alloc: Global,
    registry: &Registry,
    pass: &mut Pass,
    request: Request,
) -> Result<(), AllocError>
    requires pass { IsPassOf registry.now pass.old }
    ensures pass { IsPassOf registry.now pass.new }
    ensures done { OnOk result (FromEachBookSeen registry.now pass.old pass.new (λ o seen. IsEffect o seen (requests.asks (request_view request)))) }
    ensures left { OnErr result (HasLooked pass.old pass.new) }
{
    match request {
        Request::AddModule { text, name_as_id } => {
            add_silently(rt, alloc, registry, pass, text, name_as_id)
        }
        Request::Execute { .. } => Ok(()),
        Request::Implies { .. } => Ok(()),
        Request::Simplify { .. } => Ok(()),
    }
}

/// The reply to what is asked, as a line.
fn reply_line<R: Wait>(
    rt: &R,
    alloc: Global,
    registry: &Registry,
    prepared: &Prepared,
    pass: &mut Pass,
    id: &Id,
    asked: Asked,
) -> Result<Vec<u8>, AllocError>
    requires pass { IsPassOf registry.now pass.old }
    requires prepared { IsReadyFor registry.now prepared.now }
    ensures pass { IsPassOf registry.now pass.new }
    ensures told { IfOk result (λ line. FromEachBookSeen registry.now pass.old pass.new (λ o seen. IsReplyLine o seen (id_view id.now) (asked_view asked) line.items)) }
    ensures left { OnErr result (HasLooked pass.old pass.new) }
{
    match asked {
        Asked::Request(request) => request_line(rt, alloc, registry, prepared, pass, id, request),
        Asked::Refused(refusal) => refusal_text(alloc, id, refusal),
    }
}

/// The reply to a request of a method.
fn request_line<R: Wait>(
    rt: &R,
    alloc: Global,
    registry: &Registry,
    prepared: &Prepared,
    pass: &mut Pass,
    id: &Id,
    request: Request,
) -> Result<Vec<u8>, AllocError>
    requires pass { IsPassOf registry.now pass.old }
    requires prepared { IsReadyFor registry.now prepared.now }
    ensures pass { IsPassOf registry.now pass.new }
    ensures told { let asked = requests.asks (request_view request) in IfOk result (λ line. FromEachBookSeen registry.now pass.old pass.new (λ o seen. IsReplyLine o seen (id_view id.now) asked line.items)) }
    ensures left { OnErr result (HasLooked pass.old pass.new) }
{
    match request {
        Request::Execute { state, options } => {
            execute_line(rt, alloc, registry, prepared, pass, id, state, options)
        }
        Request::Implies {
            antecedent,
            consequent,
            module_name,
        } => implies_line(
            rt,
            alloc,
            registry,
            prepared,
            pass,
            id,
            antecedent,
            consequent,
            module_name,
        ),
        Request::Simplify { state, module_name } => {
            simplify_line(rt, alloc, registry, prepared, pass, id, state, module_name)
        }
        Request::AddModule { text, name_as_id } => {
            added_line(rt, alloc, registry, pass, id, text, name_as_id)
        }
    }
}

/// The reply to a request of execute.
fn execute_line<R: Wait>(
    rt: &R,
    alloc: Global,
    registry: &Registry,
    prepared: &Prepared,
    pass: &mut Pass,
    id: &Id,
    state: Reading,
    options: ExecuteOptions,
) -> Result<Vec<u8>, AllocError>
    requires pass { IsPassOf registry.now pass.old }
    requires prepared { IsReadyFor registry.now prepared.now }
    ensures pass { IsPassOf registry.now pass.new }
    ensures looked { HasLooked pass.old pass.new }
    ensures line { let options' = options_view options in let id' = id_view id.now in IfOk result (λ line. AtEachBookSeen registry.now pass.new (λ o book. IsLineOf (IsReplyIn o book options'.module_name id' (λ s. IsExecutedAs s id' options' (reading_view state))) line.items)) }
{
    match rules_at(rt, alloc, registry, pass, &options.module_name)? {
        Some(rules) => executed_line(alloc, prepared, &rules, id, state, options),
        None => no_module_line(alloc, id, options.module_name),
    }
}

/// The reply to a request of implies.
fn implies_line<R: Wait>(
    rt: &R,
    alloc: Global,
    registry: &Registry,
    prepared: &Prepared,
    pass: &mut Pass,
    id: &Id,
    antecedent: Reading,
    consequent: Reading,
    module_name: Option<String>,
) -> Result<Vec<u8>, AllocError>
    requires pass { IsPassOf registry.now pass.old }
    requires prepared { IsReadyFor registry.now prepared.now }
    ensures pass { IsPassOf registry.now pass.new }
    ensures looked { HasLooked pass.old pass.new }
    ensures line { let asked = requests.asks (requests.implies (reading_view antecedent) (reading_view consequent) (name_view module_name)) in IfOk result (λ line. AtEachBookSeen registry.now pass.new (λ o book. IsLineOf (IsReplyTo o book (id_view id.now) asked) line.items)) }
{
    match rules_at(rt, alloc, registry, pass, &module_name)? {
        Some(_rules) => implied_line(alloc, prepared, id, antecedent, consequent),
        None => no_module_line(alloc, id, module_name),
    }
}

/// The reply to a request of simplify.
fn simplify_line<R: Wait>(
    rt: &R,
    alloc: Global,
    registry: &Registry,
    prepared: &Prepared,
    pass: &mut Pass,
    id: &Id,
    state: Reading,
    module_name: Option<String>,
) -> Result<Vec<u8>, AllocError>
    requires pass { IsPassOf registry.now pass.old }
    requires prepared { IsReadyFor registry.now prepared.now }
    ensures pass { IsPassOf registry.now pass.new }
    ensures looked { HasLooked pass.old pass.new }
    ensures line { let id' = id_view id.now in IfOk result (λ line. AtEachBookSeen registry.now pass.new (λ o book. IsLineOf (IsReplyIn o book (name_view module_name) id' (λ s. IsSimplifiedAs s.theory.signature id' (reading_view state))) line.items)) }
{
    match rules_at(rt, alloc, registry, pass, &module_name)? {
        Some(_rules) => simplified_line(alloc, prepared, id, state),
        None => no_module_line(alloc, id, module_name),
    }
}

/// The rules of the module that is asked, of main where none is named.
fn rules_at<R: Wait>(
    rt: &R,
    alloc: Global,
    registry: &Registry,
    pass: &mut Pass,
    asked: &Option<String>,
) -> Result<Option<Arc<RuleSet>>, AllocError>
    requires pass { IsPassOf registry.now pass.old }
    ensures pass { IsPassOf registry.now pass.new }
    ensures looked { HasLooked pass.old pass.new }
    ensures means { IfOk result (λ rules. AtEachBookSeen registry.now pass.new (λ o book. MeansAt o book (module_asked o (name_view asked.now)) (option_map (λ r. r.value) rules))) }
    ensures named { IfOk result (λ rules. IsSome rules ⊎ IsSome asked.now) }
{
    match asked {
        Some(name) => registry.look(rt, alloc, pass, name.as_str()),
        None => Ok(Some(registry.table().shared()?)),
    }
}

/// The reply with code 3.
fn no_module_line(alloc: Global, id: &Id, asked: Option<String>) -> Result<Vec<u8>, AllocError>
    requires named { IsSome asked }
    ensures { IfOk result (λ line. IfSome asked (λ name. line.items ≡ reply_bytes (error_reply (id_view id.now) (no_module (string_bytes name))))) }
{
    match asked {
        Some(name) => fault_text(alloc, id, &StateFault::NoModule { name }),
        None => unreachable!(),
    }
}
