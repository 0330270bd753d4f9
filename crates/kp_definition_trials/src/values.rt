use crate::rows::{Asked, NONE, first_failed};
use crate::subsorts::sort_named;
use kp_heads::HeadTable;
use kp_kore::Module;
use kp_signature::Signature;
use kp_text::read_module;
use std::alloc::{AllocError, Global};

/// The sorts, above the sentences of a row.
const START: &str = r#"module VALUES
  hooked-sort SortInt{} [hook{}("INT.Int")]
  sort SortId{} [hasDomainValues{}()]
  sort SortE{} []
  sort SortF{} []
  sort SortG{} []
"#;

/// Adds whether the sort of a name has a value over a module, and whether the constructor `Lbln` heads one.
fn sort_told(
    alloc: Global,
    module: &Module,
    name: &str,
    told: &mut String,
) -> Result<(), AllocError> {
    let sort = sort_named(alloc, name)?;
    let signature = Signature::new(alloc, &[module])?;
    let table = HeadTable::new(alloc, &signature)?;
    told.push_str(if table.has_value(&signature, &sort) {
        "yes, "
    } else {
        "no, "
    })?;
    told.push_str(if table.is_live(&signature, "Lbln") {
        "yes"
    } else {
        "no"
    })
}

/// The same of a row's text: a sort's name, and the module's sentences.
pub(crate) fn heads_told(alloc: Global, text: &str, told: &mut String) -> Result<(), AllocError> {
    let Some((name, sentences)) = text.split_once(":") else {
        return told.push_str("no sort");
    };
    let text = format!(in alloc; "{}{sentences}\nendmodule []", START)?;
    match read_module(alloc, text.as_bytes()) {
        Ok(module) => sort_told(alloc, &module, name, told),
        Err(_) => told.push_str("no module"),
    }
}

/// Sorts with sentences: whether they have a value, and whether `Lbln` heads one.
const SORTS: &str = r"SortE: -> no, no
SortInt: -> yes, no
SortId: -> yes, no
SortUnknown: -> no, no
SortE: symbol Lblloop{}(SortE{}) : SortE{} [constructor{}()] -> no, no
SortE: symbol Lblloop{}(SortE{}) : SortE{} [constructor{}()] symbol Lbln{}() : SortE{} [constructor{}()] -> yes, yes
SortE: symbol Lblloop{}(SortE{}) : SortE{} [constructor{}()] symbol Lbln{}() : SortE{} [constructor{}(), assoc{}()] -> no, no
SortE: symbol Lblloop{}(SortE{}) : SortE{} [constructor{}()] symbol Lbln{}() : SortE{} [function{}()] -> no, no
SortF: symbol Lblloop{}(SortE{}) : SortE{} [constructor{}()] symbol Lbln{}(SortInt{}, SortE{}) : SortF{} [constructor{}()] -> no, no
SortF: symbol Lblloop{}(SortE{}) : SortE{} [constructor{}()] symbol Lbln{}(SortInt{}, SortId{}) : SortF{} [constructor{}()] -> yes, yes
SortG: axiom{} \top{SortF{}}() [subsort{SortE{}, SortF{}}()] axiom{} \top{SortG{}}() [subsort{SortF{}, SortG{}}()] symbol Lbln{}() : SortE{} [constructor{}()] -> yes, yes
SortE: axiom{} \top{SortF{}}() [subsort{SortE{}, SortF{}}()] axiom{} \top{SortG{}}() [subsort{SortF{}, SortG{}}()] symbol Lbln{}() : SortG{} [constructor{}()] -> no, yes
SortG: axiom{} \top{SortF{}}() [subsort{SortE{}, SortF{}}()] axiom{} \top{SortG{}}() [subsort{SortF{}, SortG{}}()] symbol Lbln{}(SortG{}) : SortE{} [constructor{}()] -> no, no
SortInt: symbol Lbln{}(SortE{}) : SortInt{} [constructor{}()] -> yes, no
SortE: symbol inj{From, To}(From, To) : To [constructor{}()] -> no, no";

#[test]
fn sorts_have_values_where_constructors_and_subsorts_make_them(rt: HostRuntime) {
    assert_eq!(rt;
        first_failed(rt.alloc(), NONE, &[(Asked::Heads, SORTS)]),
        None
    );
}
