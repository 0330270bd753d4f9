use crate::claim_files::add_error;
use crate::rows::{Asked, Table, first_failed};
use kp_claim_files::read_plain_claims;
use kp_claim_sentences::FiledClaim;
use kp_signature::Signature;
use std::alloc::{AllocError, Global};

/// Counting with a product, and a function that isn't interpreted.
const DEFINITION: &str = r#"module COUNTING
  hooked-sort SortInt{} [hook{}("INT.Int")]
  hooked-symbol Lblmul{}(SortInt{}, SortInt{}) : SortInt{} [hook{}("INT.mul"), function{}()]
  sort SortS{} []
  symbol Lblcount{}(SortInt{}) : SortS{} [constructor{}()]
  symbol Lbldone{}() : SortS{} [constructor{}()]
  symbol Lblother{}(SortInt{}) : SortInt{} [function{}()]
endmodule []
"#;

/// Adds the labels, each ended by a semicolon.
fn add_labels(items: &[FiledClaim], told: &mut String) -> Result<(), AllocError> {
    for item in items {
        told.push_str(item.label.as_str())?;
        told.push_str(";")?;
    }
    Ok(())
}

/// Adds the labels of a file's claims, or what is wrong with it.
pub(crate) fn specification_told(
    alloc: Global,
    signature: &Signature,
    file: &str,
    told: &mut String,
) -> Result<(), AllocError> {
    match read_plain_claims(alloc, file.as_bytes(), signature) {
        Ok(items) => add_labels(&items, told),
        Err(error) => add_error(alloc, &error, told),
    }
}

/// The same of a module with these sentences.
pub(crate) fn sentences_told(
    alloc: Global,
    signature: &Signature,
    sentences: &str,
    told: &mut String,
) -> Result<(), AllocError> {
    let mut file = String::from_str(alloc, "module SPEC import COUNTING [] ")?;
    file.push_str(sentences)?;
    file.push_str(" endmodule []")?;
    specification_told(alloc, signature, file.as_str(), told)
}

/// A constructor makes a value of the whole-number sort, so the hook is not read.
const FOREIGN_HOOK: &str = r#"module COUNTING
  hooked-sort SortInt{} [hook{}("INT.Int")]
  hooked-symbol Lblmul{}(SortInt{}, SortInt{}) : SortInt{} [hook{}("INT.mul"), function{}()]
  symbol Lblinfinity{}() : SortInt{} [constructor{}()]
endmodule []
"#;

/// A symbol whose hook is not read is foreign.
const FOREIGN: &str =
    r#"claim{} \implies{SortInt{}}(Lblinfinity{}(), weakAlwaysFinally{SortInt{}}(Lblmul{}(\dv{SortInt{}}("170141183460469231731687303715884105727"), \dv{SortInt{}}("2")))) [label{}("a")] -> C9"#;

#[test]
fn a_symbol_whose_hook_is_not_read_is_foreign(rt: HostRuntime) {
    assert_eq!(rt;
        first_failed(rt.alloc(), FOREIGN_HOOK, &[(Asked::Sentences, FOREIGN)]),
        None
    );
}

/// Claims that prove goes by, or the first fault.
const CLAIMS: &str =
    r#"claim{} \implies{SortS{}}(Lblcount{}(\dv{SortInt{}}("2")), weakAlwaysFinally{SortS{}}(Lbldone{}())) [label{}("T.two")] -> T.two;
claim{} \implies{SortS{}}(Lblcount{}(\dv{SortInt{}}("2")), weakAlwaysFinally{SortS{}}(Lbldone{}())) [] -> C6
claim{} \implies{SortS{}}(Lblcount{}(\dv{SortInt{}}("2")), weakAlwaysFinally{SortS{}}(Lbldone{}())) [label{}("a b")] -> C6
claim{} \implies{SortS{}}(Lblcount{}(\dv{SortInt{}}("2")), weakAlwaysFinally{SortS{}}(Lbldone{}())) [label{}("a"), circularity{}()] -> C2
claim{} \implies{SortS{}}(Lblcount{}(\dv{SortInt{}}("2")), weakAlwaysFinally{SortS{}}(Lbldone{}())) [depends{}("a"), label{}("b")] -> C4
claim{} \implies{SortS{}}(Lbldone{}(), weakExistsFinally{SortS{}}(Lbldone{}())) [] -> C1
claim{} \implies{SortS{}}(Lblcount{}(X:SortInt{}), weakAlwaysFinally{SortS{}}(Lbldone{}())) [] -> C6
claim{} \implies{SortS{}}(Lblcount{}(X:SortInt{}), weakAlwaysFinally{SortS{}}(Lbldone{}())) [label{}("a")] -> C2
claim{} \implies{SortS{}}(Lbldone{}(), weakAlwaysFinally{SortS{}}(Lbldone{}())) [label{}("a")] claim{} \implies{SortS{}}(Lbldone{}(), weakAlwaysFinally{SortS{}}(Lbldone{}())) [depends{}("a"), label{}("b")] -> C2
claim{} \implies{SortS{}}(Lblcount{}(Lblother{}(\dv{SortInt{}}("2"))), weakAlwaysFinally{SortS{}}(Lbldone{}())) [label{}("a")] -> C9
claim{} \implies{SortS{}}(Lbldone{}(), weakAlwaysFinally{SortS{}}(\dv{SortInt{}}("2"))) [label{}("a")] -> C9
claim{} \implies{SortS{}}(Lbldone{}(), weakAlwaysFinally{SortS{}}(Lblcount{}(Lblmul{}(\dv{SortInt{}}("170141183460469231731687303715884105727"), \dv{SortInt{}}("2"))))) [label{}("a")] -> C2
axiom{} \rewrites{SortS{}}(Lbldone{}(), Lbldone{}()) [] claim{} \top{S{}}() [] -> C2
axiom{} \top{SortS{}}() [] ->
sort S{} [] claim{} \top{SortS{}}() [] -> C2"#;

/// Files of two claims of one label, of two labels, and the same as a definition; texts that are broken off.
const FILES: &str =
    r#"module SPEC import COUNTING [] claim{} \implies{SortS{}}(Lbldone{}(), weakAlwaysFinally{SortS{}}(Lbldone{}())) [label{}("a")] claim{} \implies{SortS{}}(Lbldone{}(), weakAlwaysFinally{SortS{}}(Lbldone{}())) [label{}("a")] endmodule [] -> C7
module SPEC import COUNTING [] claim{} \implies{SortS{}}(Lbldone{}(), weakAlwaysFinally{SortS{}}(Lbldone{}())) [label{}("a")] claim{} \implies{SortS{}}(Lbldone{}(), weakAlwaysFinally{SortS{}}(Lbldone{}())) [label{}("b")] endmodule [] -> a;b;
[] module SPEC import COUNTING [] claim{} \implies{SortS{}}(Lbldone{}(), weakAlwaysFinally{SortS{}}(Lbldone{}())) [label{}("a")] claim{} \implies{SortS{}}(Lbldone{}(), weakAlwaysFinally{SortS{}}(Lbldone{}())) [label{}("b")] endmodule [] -> a;b;
[] module M endmodul -> text 2 at 12
module M endmodule x -> text 2 at 19
x -> text 2 at 0
 -> text 5 at 0"#;

/// The tables of claims and of their files.
const TABLES: [Table<'static>; 2] = [(Asked::Sentences, CLAIMS), (Asked::Specification, FILES)];

#[test]
fn claims_or_the_first_fault(rt: HostRuntime) {
    assert_eq!(rt; first_failed(rt.alloc(), DEFINITION, &TABLES), None);
}
