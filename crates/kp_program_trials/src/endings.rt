use crate::running::{is_run, is_told, shelf};
use kp_io::{Bytes, Drain, OutsideFault};
use std::alloc::{AllocError, Global};
use std::sync::Wait;
use std::test::Fail;

/// A definition without sentences.
const EMPTY: &str = "[] module M endmodule []";

/// The words that serve it.
const SERVE: [&str; 5] = ["kprove", "stdio", "d.kore", "--module", "M"];

/// What fails, and the numbers of its calls on the files, the input and the output.
type Row = (&'static str, &'static [u64], &'static [u64], &'static [u64]);

/// One call of each kind; on the files the first two are the stores.
static ROWS: [Row; 3] = [
    ("a load", &[3], &[], &[]),
    ("a read", &[], &[1], &[]),
    ("a write", &[], &[], &[1]),
];

/// Whether a fault is told where `[]` is served and these calls fail.
fn is_fault<R: Wait>(rt: &R, alloc: Global, row: &Row) -> Result<bool, OutsideFault> {
    let (_said, load, read, write) = *row;
    let mut files = shelf(alloc, EMPTY.as_bytes(), "", load)?;
    let mut input = Bytes::new(b"[]".to_vec(alloc)?, Vec::from_slice(alloc, read)?);
    let mut out = Drain::new(alloc, Vec::from_slice(alloc, write)?);
    let told = "status 6: kprove: fault\n";
    Ok(is_run(
        rt,
        alloc,
        (&SERVE, &[]),
        &mut files,
        &mut input,
        &mut out,
        told,
    )?)
}

#[test]
fn a_fault_of_the_outside_is_told(rt: HostRuntime) -> Result<(), Fail> {
    for row in &ROWS {
        match is_fault(&rt, rt.alloc(), row) {
            Ok(true) => {}
            _ => return Err(Fail::new(row.0)),
        }
    }
    Ok(())
}

/// Whether a definition with white space behind it is too long as a file that is a byte longer than files may be.
fn is_too_long<R: Wait>(rt: &R, alloc: Global) -> Result<bool, AllocError> {
    let mut definition = EMPTY.as_bytes().to_vec(alloc)?;
    definition.resize(16_777_217, b' ')?;
    let told = "status 4: kprove: d.kore: too long\n";
    Ok(is_told(rt, alloc, (&SERVE, &[]), (&definition, ""), "[]", told))
}

#[test]
fn a_file_over_the_limit_is_too_long(rt: HostRuntime) {
    assert_eq!(rt; is_too_long(&rt, rt.alloc()), Ok(true));
}
