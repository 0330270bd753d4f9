// What is printed: each form of the format by its text, read, printed and read back.
use kp_kore::{Definition, Module, Pattern};
use kp_modules::load;
use kp_print::{print_module, print_pattern};
use kp_text::{read_definition, read_module, read_pattern};
use std::alloc::Global;
use std::test::Fail;

/// Texts of patterns, and what is printed of the patterns that they spell.
static FORMS: [(&str, &str); 37] = [
    ("X : S", "X:S"),
    ("X : S { } // the end", "X:S{}"),
    ("@ X : S{ T { R , Q } }", "@X:S{T{R,Q}}"),
    ("f { } ( )", "f{}()"),
    (
        "f{S{},R}( X:S{} , \"a\" , g{}() )",
        "f{S{},R}(X:S{},\"a\",g{}())",
    ),
    ("\"\"", "\"\""),
    ("\\dv{ S{} }( \"+01\" )", "\\dv{S{}}(\"+01\")"),
    ("\\top{ S{} }( )", "\\top{S{}}()"),
    ("\\bottom{R}()", "\\bottom{R}()"),
    ("\\not{ S{} }( X:S{} )", "\\not{S{}}(X:S{})"),
    ("\\next{S{}}(X:R)", "\\next{S{}}(X:R)"),
    ("\\and{S{}}( X:S{} , Y:S{} )", "\\and{S{}}(X:S{},Y:S{})"),
    (
        "\\or{S{}}(X:S{}, Y:S{}, Z:S{})",
        "\\or{S{}}(X:S{},Y:S{},Z:S{})",
    ),
    ("\\and{S{}}()", "\\top{S{}}()"),
    ("\\or{S{}}(X:S{})", "X:S{}"),
    (
        "\\implies{S{}}(X:S{}, Y:S{})",
        "\\implies{S{}}(X:S{},Y:S{})",
    ),
    ("\\iff{S{}}(X:S{}, Y:S{})", "\\iff{S{}}(X:S{},Y:S{})"),
    (
        "\\rewrites{S{}}(X:S{}, Y:S{})",
        "\\rewrites{S{}}(X:S{},Y:S{})",
    ),
    (
        "\\exists{S{}}(X : T{}, Y:S{})",
        "\\exists{S{}}(X:T{},Y:S{})",
    ),
    ("\\forall{S{}}(X : T, Y:S{})", "\\forall{S{}}(X:T,Y:S{})"),
    ("\\ceil{A{}, S{}}(X:A{})", "\\ceil{A{},S{}}(X:A{})"),
    ("\\floor{A, S}(X:A)", "\\floor{A,S}(X:A)"),
    (
        "\\equals{A{}, S{}}(X:A{}, Y:A{})",
        "\\equals{A{},S{}}(X:A{},Y:A{})",
    ),
    ("\\in{A{}, S{}}(X:A{}, Y:A{})", "\\in{A{},S{}}(X:A{},Y:A{})"),
    ("\\mu{}( @ X : S{}, @X:S{})", "\\mu{}(@X:S{},@X:S{})"),
    ("\\nu{}(@X:S{}, @X:S{})", "\\nu{}(@X:S{},@X:S{})"),
    (
        "\\left-assoc{}(f{}(A:S{}, B:S{}, C:S{}))",
        "f{}(f{}(A:S{},B:S{}),C:S{})",
    ),
    (
        "\\right-assoc{}(f{}(A:S{}, B:S{}, C:S{}))",
        "f{}(A:S{},f{}(B:S{},C:S{}))",
    ),
    (
        "\\left-assoc{}(\\or{S{}}(A:S{}, B:S{}))",
        "\\or{S{}}(A:S{},B:S{})",
    ),
    // strings as they are read and as they are printed
    ("\"\\n\\r\\t\\f\\\"\\\\\"", "\"\\n\\r\\t\\f\\\"\\\\\""),
    ("\"\\x0A\\u000d\\U00000009\"", "\"\\n\\r\\t\""),
    ("\"\\x20\\x7e'#/*\"", "\" ~'#/*\""),
    ("\"\\x00\\x1F\\x7f\\u0080\"", "\"\\x00\\x1f\\x7f\\x80\""),
    ("\"é\\xFF\\u0100\"", "\"\\xe9\\xff\\u0100\""),
    ("\"中\\uFFFD\\uffff\"", "\"\\u4e2d\\ufffd\\uffff\""),
    ("\"😀\\U00010000\"", "\"\\U0001f600\\U00010000\""),
    ("\"\\U0010fFfF\"", "\"\\U0010ffff\""),
];

/// The pattern of a text.
fn pattern(alloc: Global, text: &str) -> Result<Pattern, Fail> {
    match read_pattern(alloc, text.as_bytes()) {
        Ok(pattern) => Ok(pattern),
        Err(_) => Err(Fail::from("no pattern")),
    }
}

/// Whether the pattern of the first text is printed as the second, and read back.
fn is_printed(alloc: Global, text: &str, wanted: &str) -> Result<bool, Fail> {
    let read = pattern(alloc, text)?;
    let printed = print_pattern(alloc, &read)?;
    let again = pattern(alloc, wanted)?;
    Ok(printed.as_slice() == wanted.as_bytes() && again.equal(&read))
}

/// The first text that isn't printed so and read back.
fn misprinted(alloc: Global) -> Result<Option<&'static str>, Fail> {
    for (text, wanted) in &FORMS {
        if !is_printed(alloc, text, wanted)? {
            return Ok(Some(*text));
        }
    }
    Ok(None)
}

#[test]
fn each_form_is_printed_and_read_back(rt: HostRuntime) -> Result<(), Fail> {
    assert_eq!(rt; misprinted(rt.alloc())?, None);
    Ok(())
}

/// Whether a long name is printed.
fn is_long_printed(alloc: Global) -> Result<bool, Fail> {
    let mut text = String::new(alloc);
    for _i in 0..100000 {
        text.push('a')?;
    }
    text.push_str(":S{}")?;
    is_printed(alloc, &text, &text)
}

#[test]
fn a_long_name_is_printed(rt: HostRuntime) -> Result<(), Fail> {
    assert!(rt; is_long_printed(rt.alloc())?);
    Ok(())
}

/// Each sentence, and how it is printed.
const SENTENCES: &str = r#"module M import N [] hooked-sort S{R, Q} [hook{}("a")] sort T{} []
  symbol f{}(S{}, R) : T{} [] hooked-symbol g{R}() : R [a{}(), b{}("x")]
  alias h{}(S{}) : R where h{}(X : S{}) := f{}(X:S{}) [] alias i{R}() : R where X:R := Y:R [c{}()]
  axiom{} \top{S{}}() [] axiom{R, Q} X:R [d{}()] claim{} "a" [e{}("1"), e{}("2")]
endmodule [z{}()]"#;

const SENTENCES_PRINTED: &str =
    r#"module M import N [] hooked-sort S{R,Q} [hook{}("a")] sort T{} [] symbol f{}(S{},R):T{} [] hooked-symbol g{R}():R [a{}(),b{}("x")] alias h{}(S{}):R where h{}(X:S{}):=f{}(X:S{}) [] alias i{R}():R where X:R:=Y:R [c{}()] axiom{} \top{S{}}() [] axiom{R,Q} X:R [d{}()] claim{} "a" [e{}("1"),e{}("2")] endmodule [z{}()]"#;

/// What is printed of a module's text.
fn printed(alloc: Global, text: &str) -> Result<Vec<u8>, Fail> {
    match read_module(alloc, text.as_bytes()) {
        Ok(module) => Ok(print_module(alloc, &module)?),
        Err(_) => Err(Fail::from("no module")),
    }
}

/// Texts of modules, and what is printed of them.
static MODULES: [(&str, &str); 3] = [
    (SENTENCES, SENTENCES_PRINTED),
    (SENTENCES_PRINTED, SENTENCES_PRINTED),
    ("module M  endmodule  []", "module M endmodule []"),
];

/// The first module's text of which something else is printed.
fn module_misprinted(alloc: Global) -> Result<Option<&'static str>, Fail> {
    for (text, wanted) in &MODULES {
        if printed(alloc, text)?.as_slice() != wanted.as_bytes() {
            return Ok(Some(*text));
        }
    }
    Ok(None)
}

#[test]
fn each_sentence_is_printed_and_read_back(rt: HostRuntime) -> Result<(), Fail> {
    assert_eq!(rt; module_misprinted(rt.alloc())?, None);
    Ok(())
}

/// The modules of a definition's text, each printed behind a space, and before them the definition's attributes.
fn definition_printed(alloc: Global, modules: &[Module]) -> Result<Vec<u8>, Fail> {
    let mut text = Vec::new(alloc);
    text.extend_from_slice(b"[]")?;
    for module in modules {
        text.push(b' ')?;
        text.extend_from_slice(&print_module(alloc, module)?)?;
    }
    Ok(text)
}

/// The definition of a text.
fn definition(alloc: Global, text: &[u8]) -> Result<Definition, Fail> {
    match read_definition(alloc, text) {
        Ok(definition) => Ok(definition),
        Err(_) => Err(Fail::from("no definition")),
    }
}

/// How many rules the example's main module has.
fn rules_of(alloc: Global, definition: &Definition) -> Result<usize, Fail> {
    match load(alloc, definition, "TOYS") {
        Ok(table) => Ok(table.rule_set().rules.len()),
        Err(_) => Err(Fail::from("not loaded")),
    }
}

/// The text that is printed of a definition's text.
fn reprinted(alloc: Global, text: &[u8]) -> Result<Vec<u8>, Fail> {
    let definition = definition(alloc, text)?;
    definition_printed(alloc, &definition.modules)
}

/// How many rules the main module of a definition's text has.
fn rules_in(alloc: Global, text: &[u8]) -> Result<usize, Fail> {
    let definition = definition(alloc, text)?;
    rules_of(alloc, &definition)
}

/// Whether what is printed of a text is printed again as it is.
fn is_printed_again(alloc: Global, text: &[u8]) -> Result<bool, Fail> {
    let again = reprinted(alloc, text)?;
    Ok(again.as_slice() == text)
}

/// How many rules the example has, how many what is printed of it has, and whether that is printed again as it is.
fn example(alloc: Global) -> Result<(usize, usize, bool), Fail> {
    let text = reprinted(alloc, TOYS.as_bytes())?;
    let is_again = is_printed_again(alloc, &text)?;
    let before = rules_in(alloc, TOYS.as_bytes())?;
    let after = rules_in(alloc, &text)?;
    Ok((before, after, is_again))
}

#[test]
fn the_example_is_printed_and_loaded_again(rt: HostRuntime) -> Result<(), Fail> {
    assert_eq!(rt; example(rt.alloc())?, (10, 10, true));
    Ok(())
}

/// The definition of examples/toys.
const TOYS: &str = r#"[]
module BASIC
  hooked-sort SortBool{} [hook{}("BOOL.Bool"), hasDomainValues{}()]
  hooked-sort SortInt{} [hook{}("INT.Int"), hasDomainValues{}()]
  symbol inj{From, To}(From) : To [sortInjection{}()]
  hooked-symbol Lbladd{}(SortInt{}, SortInt{}) : SortInt{} [hook{}("INT.add"), function{}()]
  hooked-symbol Lblsub{}(SortInt{}, SortInt{}) : SortInt{} [hook{}("INT.sub"), function{}()]
  hooked-symbol Lblmul{}(SortInt{}, SortInt{}) : SortInt{} [hook{}("INT.mul"), function{}()]
  hooked-symbol Lbleq{}(SortInt{}, SortInt{}) : SortBool{} [hook{}("INT.eq"), function{}()]
  hooked-symbol Lblgt{}(SortInt{}, SortInt{}) : SortBool{} [hook{}("INT.gt"), function{}()]
  hooked-symbol Lblge{}(SortInt{}, SortInt{}) : SortBool{} [hook{}("INT.ge"), function{}()]
  hooked-symbol Lbllt{}(SortInt{}, SortInt{}) : SortBool{} [hook{}("INT.lt"), function{}()]
  hooked-symbol Lblle{}(SortInt{}, SortInt{}) : SortBool{} [hook{}("INT.le"), function{}()]
endmodule []
module TOYS
  import BASIC []
  sort SortS{} []
  sort SortP{} []
  sort SortE{} []
  symbol Lblpa{}() : SortP{} [constructor{}()]
  symbol Lblpb{}() : SortP{} [constructor{}()]
  symbol Lblpc{}() : SortP{} [constructor{}()]
  symbol Lblnil{}() : SortE{} [constructor{}()]
  symbol Lblcount{}(SortInt{}) : SortS{} [constructor{}()]
  symbol Lbldone{}() : SortS{} [constructor{}()]
  symbol Lblpick{}(SortP{}) : SortS{} [constructor{}()]
  symbol Lblnum{}(SortE{}) : SortS{} [constructor{}()]
  symbol Lblsq{}(SortInt{}) : SortS{} [constructor{}()]
  symbol Lblup{}(SortInt{}) : SortS{} [constructor{}()]
  symbol Lblodd{}(SortInt{}) : SortS{} [constructor{}()]
  symbol Lbllone{}() : SortS{} [constructor{}()]
  symbol Lblgoal{}() : SortS{} [constructor{}()]
  symbol Lblloop{}() : SortS{} [constructor{}()]
  symbol Lblvf{}(SortInt{}) : SortS{} [constructor{}()]
  symbol Lblvg{}() : SortS{} [constructor{}()]
  symbol Lblvh{}(SortInt{}) : SortS{} [constructor{}()]
  symbol Lblother{}(SortInt{}) : SortInt{} [function{}()]
  axiom{R} \exists{R}(Val:SortE{}, \equals{SortE{}, R}(Val:SortE{}, inj{SortInt{}, SortE{}}(From:SortInt{}))) [subsort{SortInt{}, SortE{}}()]
  axiom{} \rewrites{SortS{}}(\and{SortS{}}(Lblcount{}(N:SortInt{}), \equals{SortBool{}, SortS{}}(Lblgt{}(N:SortInt{}, \dv{SortInt{}}("0")), \dv{SortBool{}}("true"))), Lblcount{}(Lblsub{}(N:SortInt{}, \dv{SortInt{}}("1")))) [label{}("TOYS.dec")]
  axiom{} \rewrites{SortS{}}(\and{SortS{}}(Lblcount{}(N:SortInt{}), \equals{SortBool{}, SortS{}}(Lbleq{}(N:SortInt{}, \dv{SortInt{}}("0")), \dv{SortBool{}}("true"))), Lbldone{}()) [label{}("TOYS.stop")]
  axiom{} \rewrites{SortS{}}(Lblpick{}(Lblpa{}()), Lbldone{}()) [label{}("TOYS.pick")]
  axiom{} \rewrites{SortS{}}(Lblnum{}(inj{SortInt{}, SortE{}}(N:SortInt{})), Lbldone{}()) [label{}("TOYS.num")]
  axiom{} \rewrites{SortS{}}(\and{SortS{}}(Lblsq{}(N:SortInt{}), \equals{SortBool{}, SortS{}}(Lbllt{}(Lblmul{}(N:SortInt{}, N:SortInt{}), \dv{SortInt{}}("0")), \dv{SortBool{}}("true"))), Lbldone{}()) [label{}("TOYS.sq")]
  axiom{} \rewrites{SortS{}}(Lblup{}(N:SortInt{}), Lblup{}(Lbladd{}(N:SortInt{}, \dv{SortInt{}}("1")))) [label{}("TOYS.up")]
  axiom{} \rewrites{SortS{}}(Lblodd{}(N:SortInt{}), Lblodd{}(Lblother{}(N:SortInt{}))) [label{}("TOYS.odd")]
  axiom{} \rewrites{SortS{}}(Lblloop{}(), Lblloop{}()) [label{}("TOYS.spin")]
  axiom{} \rewrites{SortS{}}(Lblvf{}(N:SortInt{}), Lblvg{}()) [label{}("TOYS.van")]
  axiom{} \rewrites{SortS{}}(Lblvg{}(), Lblvh{}(Y:SortInt{})) [label{}("TOYS.back")]
endmodule []
"#;
