use crate::rows::{Asked, Table, first_failed};
use kp_claim_files::read_claims;
use kp_claim_sentences::FiledClaim;
use kp_claims::ClaimError;
use kp_signature::Signature;
use std::alloc::{AllocError, Global};

/// Counting down, picking, numbers under `inj`, and a function that isn't interpreted.
pub(crate) const TOYS: &str = r#"module TOYS
  hooked-sort SortBool{} [hook{}("BOOL.Bool"), hasDomainValues{}()]
  hooked-sort SortInt{} [hook{}("INT.Int"), hasDomainValues{}()]
  symbol inj{From, To}(From) : To [sortInjection{}()]
  hooked-symbol Lblsub{}(SortInt{}, SortInt{}) : SortInt{} [hook{}("INT.sub"), function{}()]
  hooked-symbol Lblge{}(SortInt{}, SortInt{}) : SortBool{} [hook{}("INT.ge"), function{}()]
  sort SortS{} []
  sort SortE{} []
  symbol Lblcount{}(SortInt{}) : SortS{} [constructor{}()]
  symbol Lbldone{}() : SortS{} [constructor{}()]
  symbol Lblnum{}(SortE{}) : SortS{} [constructor{}()]
  symbol Lbltwo{}(SortE{}, SortE{}) : SortS{} [constructor{}()]
  symbol Lblsq{}(SortInt{}) : SortS{} [constructor{}()]
  symbol Lbllone{}() : SortS{} [constructor{}()]
  symbol Lblgoal{}() : SortS{} [constructor{}()]
  symbol Lblloop{}() : SortS{} [constructor{}()]
  symbol Lblvf{}(SortInt{}) : SortS{} [constructor{}()]
  symbol Lblvh{}(SortInt{}) : SortS{} [constructor{}()]
  symbol Lblother{}(SortInt{}) : SortInt{} [function{}()]
  axiom{R} \exists{R}(Val:SortE{}, \equals{SortE{}, R}(Val:SortE{}, inj{SortInt{}, SortE{}}(From:SortInt{}))) [subsort{SortInt{}, SortE{}}()]
endmodule []
"#;

/// Adds a claim's label with its dependencies, and `!` where it is its own circularity.
fn add_item(item: &FiledClaim, told: &mut String) -> Result<(), AllocError> {
    told.push_str(item.label.as_str())?;
    if item.circular {
        told.push_str("!")?;
    }
    for label in &item.depends {
        told.push_str("<")?;
        told.push_str(label.as_str())?;
    }
    told.push_str(";")
}

/// The same of each claim.
fn add_items(items: &[FiledClaim], told: &mut String) -> Result<(), AllocError> {
    for item in items {
        add_item(item, told)?;
    }
    Ok(())
}

/// Adds what is wrong with a file of claims.
pub(crate) fn add_error(
    alloc: Global,
    error: &ClaimError,
    told: &mut String,
) -> Result<(), AllocError> {
    match error {
        ClaimError::Memory => told.push_str("memory"),
        ClaimError::Text(fault) => {
            let text = format!(in alloc; "text {} at {}", fault.kind.number(), fault.at)?;
            told.push_str(text.as_str())
        }
        ClaimError::Fault(fault) => told.push_str(fault.code()),
    }
}

/// Adds the claims of a file, or what is wrong with it.
pub(crate) fn file_told(
    alloc: Global,
    signature: &Signature,
    file: &str,
    told: &mut String,
) -> Result<(), AllocError> {
    match read_claims(alloc, file.as_bytes(), signature) {
        Ok(items) => add_items(&items, told),
        Err(error) => add_error(alloc, &error, told),
    }
}

/// Adds a sentence; a claim may be in short, `left => right [attributes]`, at the sort of configurations.
fn add_sentence(row: &str, file: &mut String) -> Result<(), AllocError> {
    let Some((left, rest)) = row.split_once(" => ") else {
        return file.push_str(row);
    };
    let Some((right, attributes)) = rest.split_once(" [") else {
        return file.push_str("no attributes");
    };
    file.push_str(r"claim{} \implies{SortS{}}(")?;
    file.push_str(left)?;
    file.push_str(", weakAlwaysFinally{SortS{}}(")?;
    file.push_str(right)?;
    file.push_str(")) [")?;
    file.push_str(attributes)
}

/// Adds the module with these sentences, between which `&` stands.
pub(crate) fn add_file(sentences: &str, file: &mut String) -> Result<(), AllocError> {
    file.push_str("module SPEC import TOYS [] ")?;
    for sentence in sentences.split(" & ") {
        add_sentence(sentence, file)?;
        file.push_str("\n")?;
    }
    file.push_str(" endmodule []")
}

/// Adds the claims of the file with these sentences, or what is wrong with it.
pub(crate) fn claims_told(
    alloc: Global,
    signature: &Signature,
    sentences: &str,
    told: &mut String,
) -> Result<(), AllocError> {
    let mut file = String::new(alloc);
    add_file(sentences, &mut file)?;
    file_told(alloc, signature, file.as_str(), told)
}

/// Claims that are read.
const READ: &str =
    r#"\and{SortS{}}(Lblcount{}(X:SortInt{}), \equals{SortBool{}, SortS{}}(Lblge{}(X:SortInt{}, \dv{SortInt{}}("0")), \dv{SortBool{}}("true"))) => Lbldone{}() [label{}("T.down"), circularity{}()] -> T.down!;
Lblcount{}(X:SortInt{}) => Lbldone{}() [label{}("T.all"), circularity{}()] & Lblloop{}() => Lblgoal{}() [label{}("T.loop"), circularity{}()] & Lblvf{}(X:SortInt{}) => Lblvh{}(X:SortInt{}) [label{}("T.back")] & Lblsq{}(X:SortInt{}) => Lbldone{}() [label{}("T.sq")] -> T.all!;T.loop!;T.back;T.sq;
Lbllone{}() => Lbllone{}() [label{}("T.same")] & Lbllone{}() => Lblgoal{}() [label{}("T.lone"), circularity{}(), depends{}("T.same")] -> T.same;T.lone!<T.same;
Lblcount{}(\dv{SortInt{}}("2")) => Lbldone{}() [label{}("T.two")] -> T.two;
Lbldone{}() => \exists{SortS{}}(Z:SortInt{}, Lblvh{}(Z:SortInt{})) [label{}("a")] -> a;
Lbldone{}() => Lblvh{}(Z:SortInt{}) [label{}("a")] -> a;
Lblcount{}(X:SortInt{}) => \and{SortS{}}(Lblvh{}(Z:SortInt{}), \equals{SortInt{}, SortS{}}(Z:SortInt{}, X:SortInt{})) [label{}("a")] -> a;
Lbldone{}() => Lbldone{}() [label{}("a"), depends{}("b")] & Lbldone{}() => Lbldone{}() [label{}("b")] -> a<b;b;
Lbldone{}() => Lbldone{}() [label{}("a")] & Lbldone{}() => Lbldone{}() [depends{}("a,a"), label{}("b"), circularity{}()] -> a;b!<a<a;
# A variable twice at a sort of constructors can be no rule; nobody uses it.
Lbltwo{}(X:SortE{}, X:SortE{}) => Lbldone{}() [label{}("a")] -> a;
# A condition's own variable, likewise.
\and{SortS{}}(Lbldone{}(), \equals{SortInt{}, SortS{}}(Y:SortInt{}, \dv{SortInt{}}("1"))) => Lbldone{}() [label{}("a")] -> a;
 ->"#;

/// Claims with faults, of which the first is told.
const FAULTS: &str = r#"# C1
claim{} \implies{SortS{}}(Lbldone{}(), weakExistsFinally{SortS{}}(Lbldone{}())) [] -> C1
claim{R} \implies{SortS{}}(Lbldone{}(), weakExistsFinally{}()) [] -> C1
# C2: the shape
claim{R} \implies{SortS{}}(Lbldone{}(), weakAlwaysFinally{SortS{}}(Lbldone{}())) [label{}("a")] -> C2
claim{} \implies{SortS{}}(Lbldone{}(), weakAlwaysFinally{SortE{}}(Lbldone{}())) [label{}("a")] -> C2
claim{} \implies{SortS{}}(Lbldone{}(), weakAlwaysFinally{SortS{}}(Lbldone{}(), Lbldone{}())) [label{}("a")] -> C2
claim{} \rewrites{SortS{}}(Lbldone{}(), Lbldone{}()) [label{}("a")] -> C2
sort SortS{} [] -> C2
symbol Lbldone{}() : SortS{} [] -> C2
axiom{} \rewrites{SortS{}}(Lbldone{}(), Lbldone{}()) [] -> C2
Lbldone{}() => Lbldone{}() [label{}("a"), depends{}()] -> C2
# C2: names of bound variables
Lblcount{}(X:SortInt{}) => \exists{SortS{}}(X:SortInt{}, Lblvh{}(X:SortInt{})) [label{}("a")] -> C2
Lbldone{}() => \exists{SortS{}}(Z:SortInt{}, \exists{SortS{}}(Z:SortInt{}, Lblvh{}(Z:SortInt{}))) [label{}("a")] -> C2
\and{SortS{}}(Lbldone{}(), \exists{SortS{}}(Z:SortInt{}, \top{SortS{}}())) => Lblvh{}(Z:SortInt{}) [label{}("a")] -> C2
# C2: the right side's own variables stand in its term
Lbldone{}() => \exists{SortS{}}(Z:SortInt{}, Lbldone{}()) [label{}("a")] -> C2
Lbldone{}() => \and{SortS{}}(Lbldone{}(), \equals{SortInt{}, SortS{}}(Z:SortInt{}, \dv{SortInt{}}("1"))) [label{}("a")] -> C2
# C6
Lbldone{}() => Lbldone{}() [] -> C6
Lbldone{}() => Lbldone{}() [label{}("")] -> C6
Lbldone{}() => Lbldone{}() [label{}("a,b")] -> C6
# C7
Lbldone{}() => Lbldone{}() [label{}("a")] & Lbldone{}() => Lbldone{}() [label{}("a")] -> C7
# C9
Lblnone{}() => Lbldone{}() [label{}("a")] -> C9
Lblcount{}(Lblother{}(X:SortInt{})) => Lbldone{}() [label{}("a")] -> C9
\top{SortS{}}() => Lbldone{}() [label{}("a")] -> C9
\and{SortS{}}(Lbldone{}(), Lbldone{}()) => Lbldone{}() [label{}("a")] -> C9
\exists{SortS{}}(Z:SortInt{}, Lblvh{}(Z:SortInt{})) => Lbldone{}() [label{}("a")] -> C9
Lbldone{}() => \or{SortS{}}(Lbldone{}(), Lbldone{}()) [label{}("a")] -> C9
Lblcount{}(X:SortInt{}) => Lblnum{}(X:SortE{}) [label{}("a")] -> C9
# C3
Lblcount{}(Fresh1:SortInt{}) => Lbldone{}() [label{}("a")] -> C3
Lbldone{}() => \exists{SortS{}}(Fresh007:SortInt{}, Lblvh{}(Fresh007:SortInt{})) [label{}("a")] -> C3
# C8
Lbltwo{}(X:SortE{}, X:SortE{}) => Lbldone{}() [label{}("a"), circularity{}()] -> C8
Lbltwo{}(X:SortE{}, X:SortE{}) => Lbldone{}() [label{}("a")] & Lbldone{}() => Lbldone{}() [label{}("b"), depends{}("a")] -> C8
\and{SortS{}}(Lbldone{}(), \equals{SortInt{}, SortS{}}(Y:SortInt{}, \dv{SortInt{}}("1"))) => Lbldone{}() [label{}("a"), circularity{}()] -> C8
# C4
Lbldone{}() => Lbldone{}() [label{}("a"), depends{}("b")] -> C4
Lbldone{}() => Lbldone{}() [label{}("a"), depends{}("")] -> C4
Lbldone{}() => Lbldone{}() [label{}("a"), depends{}("a,")] -> C4
# In pairs: the first by place, and of one claim C1, C2, C6, C7, C9, C3, C8, C4; C5 last.
Lbldone{}() => Lbldone{}() [label{}("a"), depends{}("a")] & Lbldone{}() => Lbldone{}() [label{}("b"), depends{}("c")] -> C4
Lbltwo{}(X:SortE{}, X:SortE{}) => Lbldone{}() [label{}("a"), circularity{}(), depends{}("b")] -> C8
Lbltwo{}(Fresh1:SortE{}, Fresh1:SortE{}) => Lbldone{}() [label{}("a"), circularity{}()] -> C3
Lblnone{}(Fresh1:SortInt{}) => Lbldone{}() [label{}("a")] -> C9
Lbldone{}() => Lbldone{}() [label{}("a")] & Lblnone{}() => Lbldone{}() [label{}("a")] -> C7
Lblnone{}() => Lbldone{}() [] -> C6
Lbldone{}() => \exists{SortS{}}(Z:SortInt{}, Lbldone{}()) [] -> C2
# C5
Lbldone{}() => Lbldone{}() [label{}("a"), depends{}("a")] -> C5
Lbldone{}() => Lbldone{}() [label{}("a"), depends{}("b")] & Lbldone{}() => Lbldone{}() [label{}("b"), depends{}("a")] -> C5
# A claim that depends on a faulty one: the first by place.
Lbldone{}() => Lbldone{}() [label{}("a"), depends{}("b")] & Lblnone{}() => Lbldone{}() [label{}("b")] -> C9
# A dependency named by a claim that is faulty itself makes C8 of the one before.
Lbltwo{}(X:SortE{}, X:SortE{}) => Lbldone{}() [label{}("a")] & Lblnone{}() => Lbldone{}() [depends{}("a")] -> C8
# The label of a faulty claim is a label.
Lbldone{}() => Lbldone{}() [label{}("a"), depends{}("b")] & Lbldone{}() => \top{SortS{}}() [label{}("b")] -> C9
axiom{} \top{SortS{}}() [] alias Lbla{}() : SortS{} where Lbla{}() := Lbldone{}() [] sort SortX{} [] -> C2"#;

/// Bytes that are neither a definition nor modules alone, with the fault of both.
const TEXTS: &str = " -> text 5 at 0
sort -> text 2 at 0
module A endmodule -> text 5 at 18
[] module A claim endmodule [] -> text 2 at 18
module A endmodule [] x -> text 2 at 22";

/// The tables of files of claims.
const TABLES: [Table<'static>; 3] = [
    (Asked::Claims, READ),
    (Asked::Claims, FAULTS),
    (Asked::File, TEXTS),
];

#[test]
fn claims_are_read_or_the_first_fault_is_told(rt: HostRuntime) {
    assert_eq!(rt; first_failed(rt.alloc(), TOYS, &TABLES), None);
}
