// Modules that are added to the book of a pass.
ghost use Rattle.std.specs.Prelude.{◌≡◌, IfOk, OnErr, OnOk, Some, string_bytes};
ghost use Rattle.std.specs.Str.{IsUtf8};
ghost use Rattle.serde_json.specs.Data.{Data};
ghost use Rattle.kp_rpc.specs.Reply.{reply_bytes, result_reply};
ghost use Rattle.kp_rpc.specs.View.{id_view};
ghost use Rattle.kp_replies.specs.Failures.{Failure as Refusal, failure_reply};
ghost use Rattle.kp_additions.specs.Told.{failure_told};
ghost use Rattle.kp_replies.specs.View.{failure_view};
ghost use Rattle.kp_replies.specs.Written.{added_tree};
ghost use Rattle.kp_requests.specs.Requests.{asks, add_module};
ghost use Rattle.kp_registry.specs.Registries.{IsPassOf};
ghost use Rattle.kp_additions.specs.Served.{HasLooked};
ghost use Rattle.kp_service.specs.Batches.{FromEachBookSeen, IsAddFailure, IsEffect, IsReplyLine};

use kp_additions::{AdditionError, add_module};
use kp_registry::{Id as ModuleId, Pass, Registry, id_of};
use kp_replies::{Failure, added_text, failure_text};
use kp_rpc::Id;
use std::alloc::{AllocError, Global};
use std::sync::Wait;

/// The reply to a request of add-module. The line with its id is made before the module is entered: so nothing was entered
/// where memory runs out.
pub fn added_line<R: Wait>(
    rt: &R,
    alloc: Global,
    registry: &Registry,
    pass: &mut Pass,
    id: &Id,
    text: String,
    name_as_id: bool,
) -> Result<Vec<u8>, AllocError>
    requires pass { IsPassOf registry.now pass.old }
    ensures pass { IsPassOf registry.now pass.new }
    ensures told { let asked = asks (add_module (string_bytes text) name_as_id) in IfOk result (λ line. FromEachBookSeen registry.now pass.old pass.new (λ o seen. IsReplyLine o seen (id_view id.now) asked line.items)) }
    ensures left { OnErr result (HasLooked pass.old pass.new) }
{
    let bytes = text.into_bytes();
    let line = id_line(alloc, id, &id_of(&bytes))?;
    match add_module(rt, alloc, registry, pass, bytes, name_as_id) {
        Ok(_same) => Ok(line),
        Err(AdditionError::Bad(fault)) => refused_line(alloc, id, &Failure::BadModule(fault)),
        Err(AdditionError::Duplicate { entry, name }) => {
            refused_line(alloc, id, &Failure::Duplicate { entry, name })
        }
        Err(AdditionError::Memory) => Err(AllocError),
    }
}

/// What a notification of add-module does.
pub fn add_silently<R: Wait>(
    rt: &R,
    alloc: Global,
    registry: &Registry,
    pass: &mut Pass,
    text: String,
    name_as_id: bool,
) -> Result<(), AllocError>
    requires pass { IsPassOf registry.now pass.old }
    ensures pass { IsPassOf registry.now pass.new }
    ensures done { OnOk result (FromEachBookSeen registry.now pass.old pass.new (λ o seen. IsEffect o seen (asks (add_module (string_bytes text) name_as_id)))) }
    ensures left { OnErr result (HasLooked pass.old pass.new) }
{
    match add_module(rt, alloc, registry, pass, text.into_bytes(), name_as_id) {
        Ok(_id) => Ok(()),
        Err(error) => unless_memory(&error),
    }
}

/// Want of memory; a refusal is none.
fn unless_memory(error: &AdditionError) -> Result<(), AllocError>
    ensures { OnOk result ((f : Refusal) × (failure_told error.now ≡ Some f)) }
{
    match error {
        AdditionError::Bad(_fault) => Ok(()),
        AdditionError::Duplicate { .. } => Ok(()),
        AdditionError::Memory => Err(AllocError),
    }
}

/// The reply with a module's id.
fn id_line(alloc: Global, id: &Id, module_id: &ModuleId) -> Result<Vec<u8>, AllocError>
    requires text { IsUtf8 module_id.now }
    ensures { IfOk result (λ line. line.items ≡ reply_bytes (result_reply (id_view id.now) (added_tree module_id.now))) }
{
    match std::str::from_utf8(module_id) {
        Ok(name) => added_text(alloc, id, name),
        Err(_) => unreachable!(),
    }
}

/// The reply with the cause why a module isn't added.
fn refused_line(alloc: Global, id: &Id, failure: &Failure) -> Result<Vec<u8>, AllocError>
    requires data { IsAddFailure (failure_view failure.now) }
    ensures { IfOk result (λ line. (reply : Data) × (failure_reply (id_view id.now) (failure_view failure.now) ≡ Some reply) × (line.items ≡ reply_bytes reply)) }
{
    match failure_text(alloc, id, failure)? {
        Some(line) => Ok(line),
        None => unreachable!(),
    }
}
