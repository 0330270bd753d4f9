ghost use Rattle.std.specs.Prelude.{◌≡◌, ◌<◌, All, OnOk, OnErr};
ghost use Rattle.kp_history.specs.Passes.{IsPass};

use crate::ledger::{Anything, Ledger};
use crate::work::{Worker, work_all};
use kp_history::{History, HistoryPass};
use std::alloc::{AllocError, Global};
use std::sync::Wait;
use std::thread::Threads;

/// Whether each worker's 500 numbers stand in their order, and no others.
fn are_in_order(numbers: &[u64]) -> bool {
    let mut next = [0u64; 8];
    for number in numbers {
        match next.get_mut((*number / 1000) as usize) {
            Some(wanted) if *wanted == *number % 1000 => *wanted = wanted.wrapping_add(1),
            _ => return false,
        }
    }
    next == [500; 8]
}

/// A worker more, where there is a spare place.
fn hire(
    history: &History<Ledger, u64, Anything>,
    first: &mut HistoryPass<Ledger, u64, Anything>,
    workers: &mut Vec<Worker>,
) -> Result<bool, AllocError>
    requires first { IsPass history.now first.old }
    requires workers { All (λ w. IsPass history.now w.pass) workers.old.items }
    ensures first { IsPass history.now first.new }
    ensures workers { All (λ w. IsPass history.now w.pass) workers.new.items }
{
    match history.split(first) {
        Ok(pass) => {
            workers.push(Worker {
                pass,
                complete: true,
            })?;
            Ok(true)
        }
        Err(_) => Ok(false),
    }
}

/// The first pass takes in those of all workers: whether each was complete.
fn gather(
    history: &History<Ledger, u64, Anything>,
    first: &mut HistoryPass<Ledger, u64, Anything>,
    workers: &mut Vec<Worker>,
) -> bool
    requires first { IsPass history.now first.old }
    requires workers { All (λ w. IsPass history.now w.pass) workers.old.items }
    ensures first { IsPass history.now first.new }
{
    let mut complete = true;
    while let Some(worker) = workers.pop() {
        complete = complete && worker.complete;
        history.join(first, worker.pass);
    }
    complete
}

/// Eight workers in threads of their own enter 4,000 numbers over one history; a ninth finds no place, before and after.
fn eight_at_once<R: Threads + Wait + Sync>(rt: &R, alloc: Global) -> Result<bool, AllocError> {
    let ledger = Ledger::empty(alloc)?;
    let (history, mut first) = History::begin(alloc, 9, Anything, ledger)?;
    let mut workers = Vec::new(alloc);
    for _ in 0..8 {
        if !hire(&history, &mut first, &mut workers)? {
            return Ok(false);
        }
    }
    if history.split(&mut first).is_ok() {
        return Ok(false);
    }
    work_all(rt, &history, workers.as_mut_slice());
    let complete = gather(&history, &mut first, &mut workers);
    let ledger = history.take(rt, &mut first);
    let right = are_in_order(&ledger.numbers);
    history.put_back(&mut first, ledger);
    Ok(complete && right && first.spare == 8)
}

#[test]
fn eight_threads_enter_four_thousand_numbers(rt: HostRuntime) {
    assert_eq!(rt; eight_at_once(&rt, rt.alloc()), Ok(true));
}
