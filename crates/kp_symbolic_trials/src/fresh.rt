use kp_kore::Name;
use kp_outward::fresh::fresh;
use std::alloc::{AllocError, Global};
use std::test::Fail;

/// The words of a text as names.
fn names(alloc: Global, text: &str) -> Result<Vec<Name>, AllocError> {
    let mut found = Vec::new(alloc);
    for word in text.split(' ') {
        found.push(String::from_str(alloc, word)?)?;
    }
    Ok(found)
}

/// The least new name beside those of a text.
fn beside(alloc: Global, used: &str) -> Result<Name, AllocError> {
    let names = names(alloc, used)?;
    fresh(alloc, &names)
}

/// Names that are used, and the least new one beside them.
const ROWS: [(&str, &str); 4] = [
    ("X Fresh2", "Fresh1"),
    ("Fresh1 Fresh3", "Fresh2"),
    ("Fresh2 Fresh1", "Fresh3"),
    ("Fresh01 fresh1", "Fresh1"),
];

#[test]
fn a_new_name_has_the_least_number(rt: HostRuntime) -> Result<(), Fail> {
    for (used, wanted) in ROWS {
        assert_eq!(rt; beside(rt.alloc(), used)?.as_str(), wanted, "{used}");
    }
    Ok(())
}
