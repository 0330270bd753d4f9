use crate::claim_files::{TOYS, add_file};
use crate::rows::{Asked, Table, first_failed};
use kp_claim_files::{module_text, read_claims};
use kp_claim_sentences::{FiledClaim, comma_parts};
use kp_signature::Signature;
use std::alloc::{AllocError, Global};

/// The text of the module of the second claim and the first; of none where there aren't two.
fn written(alloc: Global, claims: &[FiledClaim]) -> Result<Vec<u8>, AllocError> {
    if claims.len() < 2 {
        return module_text(alloc, "TOYS", claims, &[]);
    }
    module_text(alloc, "TOYS", claims, &[1, 0])
}

/// Adds it.
fn add_written(alloc: Global, claims: &[FiledClaim], told: &mut String) -> Result<(), AllocError> {
    match String::from_utf8(written(alloc, claims)?) {
        Ok(text) => told.push_str(text.as_str()),
        Err(_) => told.push_str("no UTF-8"),
    }
}

/// The same of claims in short.
pub(crate) fn written_told(
    alloc: Global,
    signature: &Signature,
    claims: &str,
    told: &mut String,
) -> Result<(), AllocError> {
    let mut file = String::new(alloc);
    add_file(claims, &mut file)?;
    match read_claims(alloc, file.as_bytes(), signature) {
        Ok(claims) => add_written(alloc, &claims, told),
        Err(_) => told.push_str("no claims"),
    }
}

/// Claims are written as rules, with labels that their rules don't have; a module without claims.
const MODULES: &str =
    r#"\and{SortS{}}(Lblcount{}(X:SortInt{}), \equals{SortBool{}, SortS{}}(Lblge{}(X:SortInt{}, \dv{SortInt{}}("0")), \dv{SortBool{}}("true"))) => Lbldone{}() [label{}("T.first")] & Lbllone{}() => \exists{SortS{}}(Z:SortInt{},Lblvh{}(Z:SortInt{})) [label{}("T.second")] -> module CLAIMS import TOYS [] axiom{} \rewrites{SortS{}}(Lbllone{}(),\exists{SortS{}}(Z:SortInt{},Lblvh{}(Z:SortInt{}))) [priority{}("20")] axiom{} \rewrites{SortS{}}(\and{SortS{}}(Lblcount{}(X:SortInt{}),\equals{SortBool{},SortS{}}(Lblge{}(X:SortInt{},\dv{SortInt{}}("0")),\dv{SortBool{}}("true"))),Lbldone{}()) [priority{}("20")] endmodule []
 -> module CLAIMS import TOYS [] endmodule []"#;

/// Adds what stands between commas, each ended by a semicolon.
pub(crate) fn labels_told(
    alloc: Global,
    labels: &str,
    told: &mut String,
) -> Result<(), AllocError> {
    for part in comma_parts(alloc, labels)? {
        told.push_str(part.as_str())?;
        told.push_str(";")?;
    }
    Ok(())
}

/// Labels stand between commas.
const LABELS: &str = " -> ;
a -> a;
T.a,T.b -> T.a;T.b;
,a, -> ;a;;";

/// The tables of what is written, and of labels.
const TABLES: [Table<'static>; 2] = [(Asked::Written, MODULES), (Asked::Labels, LABELS)];

#[test]
fn claims_are_written_as_rules_and_labels_cut(rt: HostRuntime) {
    assert_eq!(rt; first_failed(rt.alloc(), TOYS, &TABLES), None);
}
