use crate::definitions::Asked;
use crate::replies::is_replied;
use crate::running::add_often;
use std::alloc::{AllocError, Global};
use std::sync::Wait;
use std::test::Fail;

/// `X >= n`, up to the number and behind it.
const AT_LEAST: (&str, &str) = (
    r#"{"argSort":{"args":[],"name":"SortBool","tag":"SortApp"},"first":{"args":[{"name":"X","sort":{"args":[],"name":"SortInt","tag":"SortApp"},"tag":"EVar"},{"sort":{"args":[],"name":"SortInt","tag":"SortApp"},"tag":"DV","value":""#,
    r#""}],"name":"Lblge","sorts":[],"tag":"App"},"second":{"sort":{"args":[],"name":"SortBool","tag":"SortApp"},"tag":"DV","value":"true"},"sort":{"args":[],"name":"SortS","tag":"SortApp"},"tag":"Equals"}"#,
);

/// That `X` isn't `n`, up to the number and behind it.
const DIFFERENT: (&str, &str) = (
    r#"{"arg":{"argSort":{"args":[],"name":"SortInt","tag":"SortApp"},"first":{"name":"X","sort":{"args":[],"name":"SortInt","tag":"SortApp"},"tag":"EVar"},"second":{"sort":{"args":[],"name":"SortInt","tag":"SortApp"},"tag":"DV","value":""#,
    r#""},"sort":{"args":[],"name":"SortS","tag":"SortApp"},"tag":"Equals"},"sort":{"args":[],"name":"SortS","tag":"SortApp"},"tag":"Not"}"#,
);

/// The variable `X`.
const VARIABLE: &str =
    r#"{"name":"X","sort":{"args":[],"name":"SortInt","tag":"SortApp"},"tag":"EVar"}"#;

/// The product of `X` and a term, up to the term and behind it.
const PRODUCT: (&str, &str) = (
    r#"{"args":[{"name":"X","sort":{"args":[],"name":"SortInt","tag":"SortApp"},"tag":"EVar"},"#,
    r#"],"name":"Lblmul","sorts":[],"tag":"App"}"#,
);

/// Adds a number between two texts.
fn add_number(
    alloc: Global,
    text: &mut String,
    parts: (&str, &str),
    number: u64,
) -> Result<(), AllocError> {
    text.push_str(parts.0)?;
    text.push_str(number.to_string(alloc)?.as_str())?;
    text.push_str(parts.1)
}

/// A text for each of the numbers from the first to the last, with commas between them.
fn numbered(
    alloc: Global,
    parts: (&str, &str),
    first: u64,
    last: u64,
) -> Result<String, AllocError> {
    let mut text = String::new(alloc);
    for number in first..last {
        add_number(alloc, &mut text, parts, number)?;
        text.push_str(",")?;
    }
    add_number(alloc, &mut text, parts, last)?;
    Ok(text)
}

/// A term of so many products, each within the one before.
fn products(alloc: Global, count: u64) -> Result<String, AllocError> {
    let (before, behind) = PRODUCT;
    let mut text = String::new(alloc);
    add_often(&mut text, before, count)?;
    text.push_str(VARIABLE)?;
    add_often(&mut text, behind, count)?;
    Ok(text)
}

/// What stands in a request, and again in its reply.
#[derive(Clone, Copy)]
enum Part {
    /// `X >= 100` to `X >= 612`.
    AtLeast,
    /// That `X` isn't 10, to that it isn't 22.
    Different,
    /// A term of 46 products.
    Products,
}

/// Its text.
fn text_of(alloc: Global, part: Part) -> Result<String, AllocError> {
    match part {
        Part::AtLeast => numbered(alloc, AT_LEAST, 100, 612),
        Part::Different => numbered(alloc, DIFFERENT, 10, 22),
        Part::Products => products(alloc, 46),
    }
}

/// The fronts, each with the part behind it, and then the end.
fn joined(alloc: Global, fronts: &[&str], part: &str, end: &str) -> Result<String, AllocError> {
    let mut text = String::new(alloc);
    for front in fronts {
        text.push_str(*front)?;
        text.push_str(part)?;
    }
    text.push_str(end)?;
    Ok(text)
}

/// What is too much, in what part, and the texts before and behind it in the request and in the reply.
type Row = (
    &'static str,
    Part,
    (&'static [&'static str], &'static str),
    (&'static [&'static str], &'static str),
);

/// Whether a row's request with its part gets its reply.
fn is_row<R: Wait>(rt: &R, alloc: Global, row: &Row) -> Result<bool, AllocError> {
    let (_said, part, request, reply) = *row;
    let part = text_of(alloc, part)?;
    let request = joined(alloc, request.0, &part, request.1)?;
    let reply = joined(alloc, reply.0, &part, reply.1)?;
    Ok(is_replied(rt, alloc, Asked::Toys, &request, &reply))
}

/// Too many literals, too large a product of disjunctions, too deep a term.
static ROWS: [Row; 3] = [
    (
        "513 literals",
        Part::AtLeast,
        (
            &[
                r#"{"id":1,"jsonrpc":"2.0","method":"execute","params":{"state":{"format":"KORE","term":{"patterns":[{"args":[],"name":"Lbldone","sorts":[],"tag":"App"},"#,
            ],
            r#"],"sort":{"args":[],"name":"SortS","tag":"SortApp"},"tag":"And"},"version":1}}}"#,
        ),
        (
            &[
                r#"{"id":1,"jsonrpc":"2.0","result":{"depth":0,"limit":{"name":"literals","number":513},"reason":"aborted","state":{"predicate":{"format":"KORE","term":{"patterns":["#,
                r#"],"sort":{"args":[],"name":"SortS","tag":"SortApp"},"tag":"And"},"version":1},"term":{"format":"KORE","term":{"args":[],"name":"Lbldone","sorts":[],"tag":"App"},"version":1}},"unknown-predicate":{"format":"KORE","term":{"patterns":["#,
            ],
            r#"],"sort":{"args":[],"name":"SortS","tag":"SortApp"},"tag":"And"},"version":1}}}"#,
        ),
    ),
    (
        "13 differences, each of two literals",
        Part::Different,
        (
            &[
                r#"{"id":1,"jsonrpc":"2.0","method":"execute","params":{"state":{"format":"KORE","term":{"patterns":[{"args":[],"name":"Lbldone","sorts":[],"tag":"App"},"#,
            ],
            r#"],"sort":{"args":[],"name":"SortS","tag":"SortApp"},"tag":"And"},"version":1}}}"#,
        ),
        (
            &[
                r#"{"id":1,"jsonrpc":"2.0","result":{"depth":0,"limit":{"name":"product","number":8192},"reason":"aborted","state":{"predicate":{"format":"KORE","term":{"patterns":["#,
                r#"],"sort":{"args":[],"name":"SortS","tag":"SortApp"},"tag":"And"},"version":1},"term":{"format":"KORE","term":{"args":[],"name":"Lbldone","sorts":[],"tag":"App"},"version":1}},"unknown-predicate":{"format":"KORE","term":{"patterns":["#,
            ],
            r#"],"sort":{"args":[],"name":"SortS","tag":"SortApp"},"tag":"And"},"version":1}}}"#,
        ),
    ),
    (
        "a term of 46 products, to which a step adds",
        Part::Products,
        (
            &[
                r#"{"id":1,"jsonrpc":"2.0","method":"execute","params":{"state":{"format":"KORE","term":{"args":["#,
            ],
            r#"],"name":"Lblup","sorts":[],"tag":"App"},"version":1}}}"#,
        ),
        (
            &[
                r#"{"id":1,"jsonrpc":"2.0","result":{"depth":0,"limit":{"name":"depth","number":49},"reason":"aborted","state":{"term":{"format":"KORE","term":{"args":["#,
            ],
            r#"],"name":"Lblup","sorts":[],"tag":"App"},"version":1}}}}"#,
        ),
    ),
];

#[test]
fn limits_are_told(rt: HostRuntime) -> Result<(), Fail> {
    for row in &ROWS {
        match is_row(&rt, rt.alloc(), row) {
            Ok(true) => {}
            _ => return Err(Fail::new(row.0)),
        }
    }
    Ok(())
}
