ghost use Rattle.std.specs.Prelude.{All};
ghost use Rattle.kp_history.specs.Passes.{IsPass};

use crate::ledger::{Anything, Ledger, MOST};
use kp_history::{History, HistoryPass};
use std::sync::Wait;
use std::thread;
use std::thread::Threads;

/// A worker with its pass, and whether all its numbers found room.
#[derive(Drop)]
pub struct Worker {
    pub pass: HistoryPass<Ledger, u64, Anything>,
    pub complete: bool,
}

/// Enters a number behind the others, where there is room.
pub fn enter<R: Wait>(
    rt: &R,
    history: &History<Ledger, u64, Anything>,
    pass: &mut HistoryPass<Ledger, u64, Anything>,
    number: u64,
) -> bool
    requires { IsPass history.now pass.old }
    ensures { IsPass history.now pass.new }
{
    let mut ledger = history.take(rt, pass);
    if MOST <= ledger.numbers.len() {
        history.put_back(pass, ledger);
        return false;
    }
    ledger.numbers.push_reserved(number);
    history.put_longer(pass, ledger);
    true
}

/// Enters 500 numbers, from a thousand times the worker's place on.
fn work<R: Wait>(
    rt: &R,
    history: &History<Ledger, u64, Anything>,
    worker: &mut Worker,
    place: usize,
)
    requires { IsPass history.now worker.old.pass }
    ensures { IsPass history.now worker.new.pass }
{
    for k in 0..500u64 {
        let number = (place as u64).wrapping_mul(1000).wrapping_add(k);
        if !enter(rt, history, &mut worker.pass, number) {
            worker.complete = false;
        }
    }
}

/// All workers enter their numbers, each in a thread of its own, over one history.
pub fn work_all<R: Threads + Wait + Sync>(
    rt: &R,
    history: &History<Ledger, u64, Anything>,
    workers: &mut [Worker],
)
    requires { All (λ w. IsPass history.now w.pass) workers.old }
    ensures { All (λ w. IsPass history.now w.pass) workers.new }
{
    let count = workers.len();
    if count == 0 {
        return;
    }
    let job = |place: usize, worker: &mut Worker|
        requires { IsPass history.now worker.now.pass }
        ensures { IsPass history.entry.now worker.exit.now.pass }
    { work(rt, history, worker, place) };
    thread::for_each_mut(rt, workers, count, &job);
}
