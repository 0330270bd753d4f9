use kp_pattern_substitution::{Replacement, substitute};
use kp_text::read_pattern;
use std::alloc::{AllocError, Global};
use std::test::Fail;

/// A pattern, and what it is with 2 for X and f() for Y.
const ROWS: [(&str, &str); 5] = [
    (
        r#"Lblpair{}(X:SortInt{}, Z:SortInt{})"#,
        r#"Lblpair{}(\dv{SortInt{}}("2"), Z:SortInt{})"#,
    ),
    (
        r#"\exists{SortS{}}(X:SortInt{}, Lblpair{}(X:SortInt{}, Y:SortInt{}))"#,
        r#"\exists{SortS{}}(X:SortInt{}, Lblpair{}(X:SortInt{}, Lblf{}()))"#,
    ),
    (
        r#"\and{SortS{}}(Lblvh{}(Y:SortInt{}), \equals{SortInt{}, SortS{}}(X:SortInt{}, X:SortInt{}))"#,
        r#"\and{SortS{}}(Lblvh{}(Lblf{}()), \equals{SortInt{}, SortS{}}(\dv{SortInt{}}("2"), \dv{SortInt{}}("2")))"#,
    ),
    (
        r#"\not{SortS{}}(\forall{SortS{}}(Y:SortInt{}, \ceil{SortInt{}, SortS{}}(Y:SortInt{})))"#,
        r#"\not{SortS{}}(\forall{SortS{}}(Y:SortInt{}, \ceil{SortInt{}, SortS{}}(Y:SortInt{})))"#,
    ),
    (r#"@X:SortInt{}"#, r#"@X:SortInt{}"#),
];

/// Adds the term of a text for a name.
fn add_replacement(
    alloc: Global,
    name: &str,
    term: &str,
    replacements: &mut Vec<Replacement>,
) -> Result<(), AllocError> {
    let name = String::from_str(alloc, name)?;
    if let Ok(term) = read_pattern(alloc, term.as_bytes()) {
        replacements.push(Replacement { name, term })?;
    }
    Ok(())
}

/// Whether a text with the terms put in is what is wanted.
fn becomes(alloc: Global, terms: &[Replacement], text: &str, wanted: &str) -> bool {
    let Ok(before) = read_pattern(alloc, text.as_bytes()) else {
        return false;
    };
    let Ok(wanted) = read_pattern(alloc, wanted.as_bytes()) else {
        return false;
    };
    match substitute(alloc, &before, terms) {
        Ok(found) => found.equal(&wanted),
        Err(AllocError) => false,
    }
}

#[test]
fn closed_terms_are_put_in_for_free_variables(rt: HostRuntime) -> Result<(), Fail> {
    let mut terms = Vec::new(rt.alloc());
    add_replacement(rt.alloc(), "X", r#"\dv{SortInt{}}("2")"#, &mut terms)?;
    add_replacement(rt.alloc(), "Y", "Lblf{}()", &mut terms)?;
    for (text, wanted) in ROWS {
        assert!(rt; becomes(rt.alloc(), &terms, text, wanted), "{text}");
    }
    Ok(())
}
