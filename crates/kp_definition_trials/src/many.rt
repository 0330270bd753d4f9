use crate::claim_files::{TOYS, add_error};
use crate::rows::{Asked, first_failed};
use kp_claim_files::read_claims;
use kp_signature::Signature;
use std::alloc::{AllocError, Global};
use std::test::Fail;

/// Adds a number.
fn add_number(alloc: Global, number: usize, told: &mut String) -> Result<(), AllocError> {
    let digits = format!(in alloc; "{number}")?;
    told.push_str(digits.as_str())
}

/// Adds how many claims a file has, or what is wrong with it.
pub(crate) fn number_told(
    alloc: Global,
    signature: &Signature,
    file: &str,
    told: &mut String,
) -> Result<(), AllocError> {
    match read_claims(alloc, file.as_bytes(), signature) {
        Ok(items) => add_number(alloc, items.len(), told),
        Err(error) => add_error(alloc, &error, told),
    }
}

/// A claim up to its label, and its attributes behind that.
const CLAIM: &str =
    r#"claim{}\implies{SortS{}}(Lbldone{}(),weakAlwaysFinally{SortS{}}(Lbldone{}()))[label{}(""#;

const NEEDS: &str = r#""),depends{}(""#;

const END: &str = r#"")]"#;

/// Adds a claim whose label is a number.
fn add_label(alloc: Global, table: &mut String, label: usize) -> Result<(), AllocError> {
    table.push_str(CLAIM)?;
    add_number(alloc, label, table)
}

/// Adds a claim that depends on another number's claim.
fn add_claim(
    alloc: Global,
    table: &mut String,
    label: usize,
    needed: usize,
) -> Result<(), AllocError> {
    add_label(alloc, table, label)?;
    table.push_str(NEEDS)?;
    add_number(alloc, needed, table)?;
    table.push_str(END)
}

/// Adds a file's claims from 0, each of which depends on the next one.
fn add_claims(alloc: Global, table: &mut String, last: usize) -> Result<(), AllocError> {
    table.push_str("module MANY ")?;
    for label in 0..last {
        add_claim(alloc, table, label, label + 1)?;
    }
    Ok(())
}

#[test]
fn a_file_of_a_hundred_thousand_claims_in_a_chain(rt: HostRuntime) -> Result<(), Fail> {
    let mut table = String::new(rt.alloc());
    add_claims(rt.alloc(), &mut table, 99_999)?;
    add_label(rt.alloc(), &mut table, 99_999)?;
    table.push_str(r#"")] endmodule [] -> 100000"#)?;
    assert_eq!(rt;
        first_failed(rt.alloc(), TOYS, &[(Asked::Number, table.as_str())]),
        None
    );
    Ok(())
}

#[test]
fn a_file_of_fifty_thousand_claims_in_a_ring(rt: HostRuntime) -> Result<(), Fail> {
    let mut table = String::new(rt.alloc());
    add_claims(rt.alloc(), &mut table, 49_999)?;
    add_claim(rt.alloc(), &mut table, 49_999, 0)?;
    table.push_str(" endmodule [] -> C5")?;
    assert_eq!(rt;
        first_failed(rt.alloc(), TOYS, &[(Asked::Number, table.as_str())]),
        None
    );
    Ok(())
}
