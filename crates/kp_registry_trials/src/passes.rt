// One pass, and two by turns.
ghost use Rattle.kp_history.specs.Passes.{seen};
ghost use Rattle.kp_registry.specs.Passes.{Extends, IsReady};
ghost use Rattle.kp_registry.specs.Registries.{IsPassOf, table_of};

use crate::modules::{ready_of, table, text_of};
use kp_registry::{Id, Pass, Ready, RegisterFault, Registry, id_of};
use std::alloc::{AllocError, Global};
use std::sync::Wait;

/// Enters what is ready, and says its id.
fn enter<R: Wait>(rt: &R, registry: &Registry, pass: &mut Pass, ready: Ready) -> Option<Id>
    requires pass { IsPassOf registry.now pass.old }
    requires ready { IsReady ready }
    requires extends { Extends (table_of registry.now) (seen pass.old) ready.entry }
    ensures { IsPassOf registry.now pass.new }
{
    registry.register(rt, pass, ready).ok()
}

/// Enters the module of this number; whether it then has a meaning.
pub fn add<R: Wait>(
    rt: &R,
    alloc: Global,
    registry: &Registry,
    pass: &mut Pass,
    number: u64,
) -> bool
    requires { IsPassOf registry.now pass.old }
    ensures { IsPassOf registry.now pass.new }
{
    let Ok(ready) = ready_of(alloc, registry, number) else {
        return false;
    };
    let Some(id) = enter(rt, registry, pass, ready) else {
        return false;
    };
    is_bound(rt, alloc, registry, pass, &id)
}

/// Whether the book is full, so that the module of this number finds no room.
pub fn is_full<R: Wait>(
    rt: &R,
    alloc: Global,
    registry: &Registry,
    pass: &mut Pass,
    number: u64,
) -> bool
    requires { IsPassOf registry.now pass.old }
    ensures { IsPassOf registry.now pass.new }
{
    match ready_of(alloc, registry, number) {
        Ok(ready) => matches!(
            registry.register(rt, pass, ready),
            Err((RegisterFault::Many, _))
        ),
        Err(_) => false,
    }
}

/// Whether the id has a meaning.
fn is_bound<R: Wait>(rt: &R, alloc: Global, registry: &Registry, pass: &mut Pass, id: &Id) -> bool
    requires { IsPassOf registry.now pass.old }
    ensures { IsPassOf registry.now pass.new }
{
    match std::str::from_utf8(id) {
        Ok(name) => matches!(registry.look(rt, alloc, pass, name), Ok(Some(_))),
        Err(_) => false,
    }
}

/// Whether the module of this number was entered.
pub fn has<R: Wait>(
    rt: &R,
    alloc: Global,
    registry: &Registry,
    pass: &mut Pass,
    number: u64,
) -> bool
    requires { IsPassOf registry.now pass.old }
    ensures { IsPassOf registry.now pass.new }
{
    match text_of(alloc, number) {
        Ok(text) => is_bound(rt, alloc, registry, pass, &id_of(&text)),
        Err(_) => false,
    }
}

/// Two passes in one thread: a third finds no place, what one has entered the other finds, and once it is taken in there
/// is a place again.
fn two_by_turns<R: Wait>(rt: &R, alloc: Global) -> Result<bool, AllocError> {
    let (registry, mut first) = Registry::begin(alloc, table(alloc)?, 2)?;
    let Ok(mut second) = registry.split(&mut first) else {
        return Ok(false);
    };
    let full = registry.split(&mut first).is_err();
    let before = has(rt, alloc, &registry, &mut second, 7);
    let entered = add(rt, alloc, &registry, &mut first, 7);
    let found = has(rt, alloc, &registry, &mut second, 7);
    registry.join(&mut first, second);
    let again = registry.split(&mut first).is_ok();
    Ok(full && !before && entered && found && again)
}

#[test]
fn what_one_pass_registers_the_other_finds(rt: HostRuntime) {
    assert_eq!(rt; two_by_turns(&rt, rt.alloc()), Ok(true));
}
