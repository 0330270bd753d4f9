use kp_kore::{Pattern, Sort};
use std::alloc::{AllocError, Global};

/// X:S
fn named(alloc: Global, name: &str) -> Result<Pattern, AllocError> {
    let name = String::from_str(alloc, name)?;
    let sort = String::from_str(alloc, "S")?;
    Ok(Pattern::Variable {
        name,
        sort: Sort::Variable { name: sort },
    })
}

/// Whether a copy is the pattern.
fn is_copied(alloc: Global, pattern: &Pattern) -> Result<bool, AllocError> {
    let copy = pattern.copy(alloc)?;
    Ok(copy.equal(pattern))
}

/// Whether two variables are one pattern, a copy is the pattern, and how many free variables it has.
fn told(alloc: Global, left: &str, right: &str) -> Result<(bool, bool, usize), AllocError> {
    let left = named(alloc, left)?;
    let right = named(alloc, right)?;
    let is_copied = is_copied(alloc, &left)?;
    let count = left.free_vars(alloc)?.len();
    Ok((left.equal(&right), is_copied, count))
}

#[test]
fn patterns_are_copied_compared_and_asked_for_their_variables(rt: HostRuntime) {
    assert_eq!(rt; told(rt.alloc(), "X", "Y"), Ok((false, true, 1)));
}
