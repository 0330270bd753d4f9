use crate::texts::{pattern, signature, value};
use kp_compile::{CompileError, compile_left, compile_term, no_names};
use kp_ground::Value;
use kp_kore::Pattern;
use kp_signature::Signature;
use std::alloc::Global;
use std::test::Fail;

/// Numbers, truth values, the constructor f, and odd, which has no meaning.
const SMALL: &str = r#"module SMALL
  hooked-sort Int{} [hook{}("INT.Int")]
  hooked-sort Bool{} [hook{}("BOOL.Bool")]
  sort S{} []
  symbol f{}(Int{}) : S{} [constructor{}()]
  hooked-symbol plus{}(Int{}, Int{}) : Int{} [hook{}("INT.add")]
  hooked-symbol less{}(Int{}, Int{}) : Bool{} [hook{}("INT.lt")]
  symbol odd{}(Int{}) : Int{} []
endmodule []
"#;

/// Whether it is refused as a term.
fn is_no_term(alloc: Global, signature: &Signature, pattern: &Pattern) -> bool {
    let term = compile_term(alloc, signature, &no_names(alloc), pattern);
    matches!(term, Err(CompileError::Shape))
}

/// Whether it is refused as a left term.
fn is_no_left_term(alloc: Global, signature: &Signature, pattern: &Pattern) -> bool {
    let left = compile_left(alloc, signature, pattern);
    matches!(left, Err(CompileError::Shape))
}

/// Whether the text's pattern is refused as a term, and as a left term.
fn are_refused(alloc: Global, signature: &Signature, text: &str) -> Result<(bool, bool), Fail> {
    let pattern = pattern(alloc, text)?;
    Ok((
        is_no_term(alloc, signature, &pattern),
        is_no_left_term(alloc, signature, &pattern),
    ))
}

/// What is said of a text.
#[derive(Clone, Copy)]
enum Row {
    /// Whether it is refused as a term, and as a left term.
    Refused(&'static str, bool, bool),
    /// It has this number for its value.
    Number(&'static str, i128),
}

/// Whether it holds.
fn holds(alloc: Global, signature: &Signature, row: Row) -> Result<bool, Fail> {
    match row {
        Row::Refused(text, as_term, as_left) => {
            Ok(are_refused(alloc, signature, text)? == (as_term, as_left))
        }
        Row::Number(text, number) => {
            let value = value(alloc, signature, text)?;
            Ok(value.equal(&Value::Whole { number }))
        }
    }
}

/// What is said.
static ROWS: [(&str, Row); 5] = [
    (
        "a value is a term and a left term",
        Row::Refused(r#"f{}(\dv{Int{}}("2"))"#, false, false),
    ),
    (
        "a call is a term, and no left term",
        Row::Refused(r#"plus{}(X:Int{}, \dv{Int{}}("2"))"#, false, true),
    ),
    (
        "a symbol without meaning is neither",
        Row::Refused(r#"f{}(odd{}(\dv{Int{}}("1")))"#, true, true),
    ),
    (
        "a number beyond 128 bits is neither",
        Row::Refused(
            r#"\dv{Int{}}("170141183460469231731687303715884105728")"#,
            true,
            true,
        ),
    ),
    (
        "a sum has its value",
        Row::Number(r#"plus{}(\dv{Int{}}("+2"), \dv{Int{}}("-05"))"#, -3),
    ),
];

/// What is said first and doesn't hold.
fn failing_over(alloc: Global, signature: &Signature) -> Result<Option<&'static str>, Fail> {
    for (said, row) in &ROWS {
        if !holds(alloc, signature, *row)? {
            return Ok(Some(*said));
        }
    }
    Ok(None)
}

/// The same over the module.
fn failing(alloc: Global) -> Result<Option<&'static str>, Fail> {
    let signature = signature(alloc, SMALL)?;
    failing_over(alloc, &signature)
}

#[test]
fn terms_are_compiled_or_refused(rt: HostRuntime) -> Result<(), Fail> {
    assert_eq!(rt; failing(rt.alloc())?, None);
    Ok(())
}
