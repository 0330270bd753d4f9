use crate::texts::{module, pattern, signature, sort, value};
use kp_ground::Value;
use kp_kore::{AxiomSentence, Module, Sentence};
use kp_rule_reading::{RuleError, label_of, read_rule};
use kp_rules::skeleton::skeleton_of_left;
use kp_rules::{RuleBody, SortIndex};
use kp_signature::Signature;
use std::alloc::Global;
use std::test::Fail;

/// Numbers, truth values, the constructor pair, and odd, which has no meaning.
const SMALL: &str = r#"module SMALL
  hooked-sort Int{} [hook{}("INT.Int")]
  hooked-sort Bool{} [hook{}("BOOL.Bool")]
  sort E{} []
  symbol pair{}(Int{}, Int{}) : E{} [constructor{}()]
  hooked-symbol lt{}(Int{}, Int{}) : Bool{} [hook{}("INT.lt")]
  symbol odd{}(Int{}, Int{}) : Int{} [function{}()]
endmodule []
"#;

/// From two equal numbers below 5 to the same.
const PLAIN: &str = r#"module PLAIN
  axiom{} \rewrites{E{}}(
    \and{E{}}(\equals{Bool{}, E{}}(lt{}(X:Int{}, \dv{Int{}}("5")), \dv{Bool{}}("true")), pair{}(X:Int{}, X:Int{})),
    pair{}(X:Int{}, X:Int{})
  ) [label{}("SMALL.rule"), priority{}("040")]
endmodule []
"#;

/// The same to what has no meaning.
const FOREIGN: &str = r#"module FOREIGN
  axiom{} \rewrites{E{}}(
    \and{E{}}(\equals{Bool{}, E{}}(lt{}(X:Int{}, \dv{Int{}}("5")), \dv{Bool{}}("true")), pair{}(X:Int{}, X:Int{})),
    pair{}(X:Int{}, odd{}(X:Int{}, X:Int{}))
  ) []
endmodule []
"#;

/// The same to a name that nothing declares.
const UNDECLARED: &str = r#"module UNDECLARED
  axiom{} \rewrites{E{}}(
    \and{E{}}(\equals{Bool{}, E{}}(lt{}(X:Int{}, \dv{Int{}}("5")), \dv{Bool{}}("true")), pair{}(X:Int{}, X:Int{})),
    pair{}(X:Int{}, ood{}(X:Int{}, X:Int{}))
  ) []
endmodule []
"#;

/// The same, foreign for another reason.
const BOTH: &str = r#"module BOTH
  axiom{} \rewrites{E{}}(
    \and{E{}}(\equals{Bool{}, E{}}(lt{}(X:Int{}, \dv{Int{}}("5")), \dv{Bool{}}("true")), pair{}(X:Int{}, X:Int{})),
    pair{}(X:Int{}, ood{}(X:Int{}, X:Int{}))
  ) [priority{}("soon")]
endmodule []
"#;

/// A rule's priority and whether it rewrites a value; of a foreign one whether it may be a rule for it.
fn body_text(
    alloc: Global,
    signature: &Signature,
    priority: u32,
    body: &RuleBody,
    value: &Value,
) -> Result<String, Fail> {
    match body {
        RuleBody::Rewrite(rule) => {
            let fires = rule.fires(alloc, signature, value)?.is_some();
            Ok(format!(in alloc; "priority {priority}, fires: {fires}")?)
        }
        RuleBody::Foreign(skeleton) => {
            let may_be = skeleton.admits(alloc, signature, value)?;
            Ok(format!(in alloc; "foreign, may be: {may_be}")?)
        }
    }
}

/// The same of a rule that is read, or that it is refused.
fn rule_text(
    alloc: Global,
    signature: &Signature,
    axiom: &AxiomSentence,
    value: &Value,
) -> Result<String, Fail> {
    let index = SortIndex::new(alloc, signature)?;
    match read_rule(alloc, signature, &index, axiom) {
        Ok((priority, body)) => body_text(alloc, signature, priority, &body, value),
        Err(RuleError::Fault) => Ok(String::from_str(alloc, "refused")?),
        Err(RuleError::Memory) => Err(Fail::from("memory")),
    }
}

/// The last sentence of a module, an axiom.
fn last_axiom(module: &Module) -> Option<&AxiomSentence> {
    match module.sentences.last() {
        Some(Sentence::Axiom(axiom)) => Some(axiom),
        _ => None,
    }
}

/// What is told of a rule and a value, by their texts.
pub(crate) fn told(
    alloc: Global,
    signature: &Signature,
    rule: &str,
    text: &str,
) -> Result<String, Fail> {
    let module = module(alloc, rule)?;
    let value = value(alloc, signature, text)?;
    match last_axiom(&module) {
        Some(axiom) => rule_text(alloc, signature, axiom, &value),
        None => Err(Fail::from("no axiom")),
    }
}

const FOUR: &str = r#"pair{}(\dv{Int{}}("4"), \dv{Int{}}("4"))"#;

const NINE: &str = r#"pair{}(\dv{Int{}}("9"), \dv{Int{}}("9"))"#;

/// The label of a module's last sentence.
fn label(module: &Module) -> Option<&str> {
    match last_axiom(module) {
        Some(axiom) => label_of(axiom),
        None => None,
    }
}

#[test]
fn a_rule_has_its_label(rt: HostRuntime) -> Result<(), Fail> {
    let module = module(rt.alloc(), PLAIN)?;
    assert_eq!(rt; label(&module), Some("SMALL.rule"));
    Ok(())
}

/// In a foreign rule's left side pair("7", "seven"), the first is 7, and the second, which writes no number, any number.
const LEFT: &str = r#"pair{}(\dv{Int{}}("7"), \dv{Int{}}("seven"))"#;

/// Whether the skeleton of the left side may be a value.
fn skeleton_may_be(alloc: Global, signature: &Signature, value: &Value) -> Result<bool, Fail> {
    let index = SortIndex::new(alloc, signature)?;
    let sort = sort(alloc, "E")?;
    let left = pattern(alloc, LEFT)?;
    let skeleton = skeleton_of_left(alloc, signature, &index, &sort, &left)?;
    Ok(skeleton.admits(alloc, signature, value)?)
}

/// The same of a text's value.
fn may_be(alloc: Global, signature: &Signature, text: &str) -> Result<bool, Fail> {
    let value = value(alloc, signature, text)?;
    skeleton_may_be(alloc, signature, &value)
}

/// What is said of a term's text.
#[derive(Clone, Copy)]
enum Row {
    /// What is told of it and a rule.
    Rule(&'static str, &'static str, &'static str),
    /// Whether the left side's skeleton may be its value.
    MayBe(&'static str, bool),
}

/// Whether it holds.
fn holds(alloc: Global, signature: &Signature, row: Row) -> Result<bool, Fail> {
    match row {
        Row::Rule(rule, text, wanted) => {
            let told = told(alloc, signature, rule, text)?;
            Ok(told.as_str() == wanted)
        }
        Row::MayBe(text, wanted) => Ok(may_be(alloc, signature, text)? == wanted),
    }
}

/// What is said.
static ROWS: [(&str, Row); 9] = [
    (
        "a rule fires where its condition holds",
        Row::Rule(PLAIN, FOUR, "priority 40, fires: true"),
    ),
    (
        "it doesn't where that fails",
        Row::Rule(
            PLAIN,
            r#"pair{}(\dv{Int{}}("5"), \dv{Int{}}("5"))"#,
            "priority 40, fires: false",
        ),
    ),
    (
        "it doesn't where a variable has two values",
        Row::Rule(
            PLAIN,
            r#"pair{}(\dv{Int{}}("4"), \dv{Int{}}("3"))"#,
            "priority 40, fires: false",
        ),
    ),
    (
        "with a function of no meaning on the right, two equal numbers may be rewritten",
        Row::Rule(FOREIGN, NINE, "foreign, may be: true"),
    ),
    (
        "two others may not",
        Row::Rule(
            FOREIGN,
            r#"pair{}(\dv{Int{}}("9"), \dv{Int{}}("8"))"#,
            "foreign, may be: false",
        ),
    ),
    (
        "a rule that applies an undeclared name is refused",
        Row::Rule(UNDECLARED, NINE, "refused"),
    ),
    (
        "one that is foreign for another reason isn't",
        Row::Rule(BOTH, NINE, "foreign, may be: true"),
    ),
    (
        "a literal that writes no number is any number",
        Row::MayBe(r#"pair{}(\dv{Int{}}("7"), \dv{Int{}}("9"))"#, true),
    ),
    (
        "a literal that writes one is that number",
        Row::MayBe(r#"pair{}(\dv{Int{}}("8"), \dv{Int{}}("9"))"#, false),
    ),
];

/// What is said first and doesn't hold.
fn failing_over(alloc: Global, signature: &Signature) -> Result<Option<&'static str>, Fail> {
    for (said, row) in &ROWS {
        if !holds(alloc, signature, *row)? {
            return Ok(Some(*said));
        }
    }
    Ok(None)
}

/// The same over the module.
fn failing(alloc: Global) -> Result<Option<&'static str>, Fail> {
    let signature = signature(alloc, SMALL)?;
    failing_over(alloc, &signature)
}

#[test]
fn rules_are_read_and_fire(rt: HostRuntime) -> Result<(), Fail> {
    assert_eq!(rt; failing(rt.alloc())?, None);
    Ok(())
}
