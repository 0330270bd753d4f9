// Eight passes, each in a thread of its own.
ghost use Rattle.std.specs.Prelude.{All};
ghost use Rattle.kp_registry.specs.Registries.{IsPassOf};

use crate::modules::table;
use crate::passes::{add, has, is_full};
use kp_registry::{Pass, Registry};
use std::alloc::{AllocError, Global};
use std::sync::Wait;
use std::thread;
use std::thread::Threads;

/// A worker with its pass, and whether it found all that it entered.
#[derive(Drop)]
struct Worker {
    pass: Pass,
    complete: bool,
}

/// Enters 500 modules, from a thousand times the worker's place on, and looks for each.
fn work<R: Wait>(rt: &R, alloc: Global, registry: &Registry, worker: &mut Worker, place: usize)
    requires { IsPassOf registry.now worker.old.pass }
    ensures { IsPassOf registry.now worker.new.pass }
{
    for k in 0..500u64 {
        let number = (place as u64).wrapping_mul(1000).wrapping_add(k);
        if !add(rt, alloc, registry, &mut worker.pass, number) {
            worker.complete = false;
        }
    }
}

/// All workers enter their modules, each in a thread of its own, over one registry.
fn work_all<R: Threads + Wait + Sync>(
    rt: &R,
    alloc: Global,
    registry: &Registry,
    workers: &mut [Worker],
)
    requires { All (λ w. IsPassOf registry.now w.pass) workers.old }
    ensures { All (λ w. IsPassOf registry.now w.pass) workers.new }
{
    let count = workers.len();
    if count == 0 {
        return;
    }
    let job = |place: usize, worker: &mut Worker|
        requires { IsPassOf registry.now worker.now.pass }
        ensures { IsPassOf registry.entry.now worker.exit.now.pass }
    { work(rt, alloc, registry, worker, place) };
    thread::for_each_mut(rt, workers, count, &job);
}

/// A worker more, where there is a spare place.
fn hire(
    registry: &Registry,
    first: &mut Pass,
    workers: &mut Vec<Worker>,
) -> Result<bool, AllocError>
    requires first { IsPassOf registry.now first.old }
    requires workers { All (λ w. IsPassOf registry.now w.pass) workers.old.items }
    ensures first { IsPassOf registry.now first.new }
    ensures workers { All (λ w. IsPassOf registry.now w.pass) workers.new.items }
{
    match registry.split(first) {
        Ok(pass) => {
            workers.push(Worker {
                pass,
                complete: true,
            })?;
            Ok(true)
        }
        Err(_) => Ok(false),
    }
}

/// The first pass takes in those of all workers: whether each was complete.
fn gather(registry: &Registry, first: &mut Pass, workers: &mut Vec<Worker>) -> bool
    requires first { IsPassOf registry.now first.old }
    requires workers { All (λ w. IsPassOf registry.now w.pass) workers.old.items }
    ensures first { IsPassOf registry.now first.new }
{
    let mut complete = true;
    while let Some(worker) = workers.pop() {
        complete = complete && worker.complete;
        registry.join(first, worker.pass);
    }
    complete
}

/// Whether the pass finds the modules of all workers.
fn finds_all<R: Wait>(rt: &R, alloc: Global, registry: &Registry, pass: &mut Pass) -> bool
    requires { IsPassOf registry.now pass.old }
    ensures { IsPassOf registry.now pass.new }
{
    for k in 0..4000u64 {
        if !has(rt, alloc, registry, pass, k / 500 * 1000 + k % 500) {
            return false;
        }
    }
    true
}

/// Whether there is room for 96 modules more, and for no other: so the book has 4,000.
fn takes_96<R: Wait>(rt: &R, alloc: Global, registry: &Registry, pass: &mut Pass) -> bool
    requires { IsPassOf registry.now pass.old }
    ensures { IsPassOf registry.now pass.new }
{
    for k in 0..96u64 {
        if !add(rt, alloc, registry, pass, 8000 + k) {
            return false;
        }
    }
    is_full(rt, alloc, registry, pass, 8096)
}

/// Eight workers in threads of their own enter 4,000 modules over one registry; a ninth finds no place.
fn eight_at_once<R: Threads + Wait + Sync>(rt: &R, alloc: Global) -> Result<bool, AllocError> {
    let (registry, mut first) = Registry::begin(alloc, table(alloc)?, 9)?;
    let mut workers = Vec::new(alloc);
    for _ in 0..8 {
        if !hire(&registry, &mut first, &mut workers)? {
            return Ok(false);
        }
    }
    if hire(&registry, &mut first, &mut workers)? {
        return Ok(false);
    }
    work_all(rt, alloc, &registry, workers.as_mut_slice());
    let complete = gather(&registry, &mut first, &mut workers);
    let found = finds_all(rt, alloc, &registry, &mut first);
    let counted = takes_96(rt, alloc, &registry, &mut first);
    Ok(complete && found && counted && first.spare == 8)
}

#[test]
fn eight_threads_enter_four_thousand_modules(rt: HostRuntime) {
    assert_eq!(rt; eight_at_once(&rt, rt.alloc()), Ok(true));
}
