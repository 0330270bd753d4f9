use crate::ledger::{Anything, Ledger};
use crate::work::enter;
use kp_history::{Full, History};
use std::alloc::{AllocError, Global};
use std::sync::Wait;

/// Two passes in one thread: a third finds no place, what one has entered the other finds, and once it is taken in there
/// is a place again.
fn two_by_turns<R: Wait>(rt: &R, alloc: Global) -> Result<bool, AllocError> {
    let ledger = Ledger::empty(alloc)?;
    let (history, mut first) = History::begin(alloc, 2, Anything, ledger)?;
    let Ok(mut second) = history.split(&mut first) else {
        return Ok(false);
    };
    let full = matches!(history.split(&mut first), Err(Full));
    let entered = enter(rt, &history, &mut first, 7);
    let ledger = history.take(rt, &mut second);
    let found = ledger.numbers.as_slice() == [7].as_slice();
    history.put_back(&mut second, ledger);
    history.join(&mut first, second);
    let again = history.split(&mut first).is_ok();
    Ok(full && entered && found && again)
}

#[test]
fn what_one_pass_enters_the_other_finds(rt: HostRuntime) {
    assert_eq!(rt; two_by_turns(&rt, rt.alloc()), Ok(true));
}
