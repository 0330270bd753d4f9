// Rules of which a variable alone is the left term, over sorts that share values and over others.
use crate::rules::told;
use crate::texts::signature;
use kp_signature::Signature;
use std::alloc::Global;
use std::test::Fail;

/// P and Q share the values of D and of E, and no sort has exactly these; R and S share those of D alone. A lies below B,
/// and no pair names N.
const LONE: &str = r#"module LONE
  sort A{} []
  sort B{} []
  sort D{} []
  sort E{} []
  sort N{} []
  sort P{} []
  sort Q{} []
  sort R{} []
  sort S{} []
  axiom{} \top{S{}}() [subsort{A{}, B{}}()]
  axiom{} \top{S{}}() [subsort{D{}, P{}}()]
  axiom{} \top{S{}}() [subsort{E{}, P{}}()]
  axiom{} \top{S{}}() [subsort{D{}, Q{}}()]
  axiom{} \top{S{}}() [subsort{E{}, Q{}}()]
  axiom{} \top{S{}}() [subsort{D{}, R{}}()]
  axiom{} \top{S{}}() [subsort{D{}, S{}}()]
  symbol inj{From, To}(From) : To [sortInjection{}()]
  symbol aa{}() : A{} [constructor{}()]
  symbol dd{}() : D{} [constructor{}()]
  symbol ee{}() : E{} [constructor{}()]
  symbol nn{}() : N{} [constructor{}()]
  symbol pp{}() : P{} [constructor{}()]
  symbol rr{}() : R{} [constructor{}()]
endmodule []
"#;

/// Each value of P.
const OF_P: &str = r#"module RULE
  axiom{} \rewrites{P{}}(X:P{}, pp{}()) []
endmodule []
"#;

/// Each value of R.
const OF_R: &str = r#"module RULE
  axiom{} \rewrites{R{}}(X:R{}, rr{}()) []
endmodule []
"#;

/// A rule, a value, and what is told of them.
type Told = (&'static str, &'static str, &'static str);

/// What is said of a rule and a value, with both.
static ROWS: [(&str, Told); 8] = [
    (
        "a variable of a sort that shares values of two sorts with another is foreign",
        (OF_P, "dd{}()", "foreign, may be: true"),
    ),
    (
        "it stands for values of its sort alone",
        (OF_P, "nn{}()", "foreign, may be: false"),
    ),
    (
        "one of a sort that shares those of one sort alone is read",
        (OF_R, "dd{}()", "priority 50, fires: true"),
    ),
    (
        "it doesn't fire at a value of another sort",
        (OF_R, "ee{}()", "priority 50, fires: false"),
    ),
    (
        "one of a sort below both is read",
        (
            r#"module RULE
  axiom{} \rewrites{E{}}(X:E{}, ee{}()) []
endmodule []
"#,
            "ee{}()",
            "priority 50, fires: true",
        ),
    ),
    (
        "one of a sort that no pair names is read",
        (
            r#"module RULE
  axiom{} \rewrites{N{}}(X:N{}, nn{}()) []
endmodule []
"#,
            "nn{}()",
            "priority 50, fires: true",
        ),
    ),
    (
        "one of a sort over one other is read",
        (
            r#"module RULE
  axiom{} \rewrites{B{}}(X:B{}, X:B{}) []
endmodule []
"#,
            "aa{}()",
            "priority 50, fires: true",
        ),
    ),
    (
        "a variable under inj is asked of the sorts below alone",
        (
            r#"module RULE
  axiom{} \rewrites{P{}}(inj{D{}, P{}}(X:D{}), pp{}()) []
endmodule []
"#,
            "dd{}()",
            "priority 50, fires: true",
        ),
    ),
];

/// Whether it is told of the rule and the value.
fn is_told(alloc: Global, signature: &Signature, row: Told) -> Result<bool, Fail> {
    let told = told(alloc, signature, row.0, row.1)?;
    Ok(told.as_str() == row.2)
}

/// What is said first and isn't told.
fn failing_over(alloc: Global, signature: &Signature) -> Result<Option<&'static str>, Fail> {
    for (said, row) in &ROWS {
        if !is_told(alloc, signature, *row)? {
            return Ok(Some(*said));
        }
    }
    Ok(None)
}

/// The same over the module.
fn failing(alloc: Global) -> Result<Option<&'static str>, Fail> {
    let signature = signature(alloc, LONE)?;
    failing_over(alloc, &signature)
}

#[test]
fn variables_alone_are_read_or_foreign(rt: HostRuntime) -> Result<(), Fail> {
    assert_eq!(rt; failing(rt.alloc())?, None);
    Ok(())
}
