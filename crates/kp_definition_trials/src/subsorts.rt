use crate::rows::{Asked, first_failed};
use kp_kore::Sort;
use kp_signature::Signature;
use std::alloc::{AllocError, Global};

/// The sort of this name without arguments.
pub(crate) fn sort_named(alloc: Global, name: &str) -> Result<Sort, AllocError> {
    Ok(Sort::App {
        name: String::from_str(alloc, name)?,
        arguments: Vec::new(alloc),
    })
}

/// Adds whether `A < B`.
pub(crate) fn below_told(
    alloc: Global,
    signature: &Signature,
    text: &str,
    told: &mut String,
) -> Result<(), AllocError> {
    let Some((lower, upper)) = text.split_once(" < ") else {
        return told.push_str("no sorts");
    };
    let lower = sort_named(alloc, lower)?;
    let upper = sort_named(alloc, upper)?;
    told.push_str(if signature.subsort(&lower, &upper) {
        "yes"
    } else {
        "no"
    })
}

/// A below B below C, D below B, and a pair that follows from others.
const LADDER: &str = r#"module LADDER
  axiom{} \top{C{}}() [subsort{A{},B{}}(), subsort{B{},C{}}(), subsort{A{},C{}}(), subsort{D{},B{}}()]
endmodule []
"#;

/// A below B and C, both below D, and E below B alone.
const OVERLAP: &str = r#"module OVERLAP
  axiom{} \top{D{}}() [subsort{A{},B{}}(), subsort{A{},C{}}(), subsort{B{},D{}}(), subsort{C{},D{}}(), subsort{E{},B{}}()]
endmodule []
"#;

/// A, B and C in a ring, D below it and E above it.
const RING: &str = r#"module RING
  axiom{} \top{C{}}() [subsort{A{},B{}}(), subsort{B{},C{}}(), subsort{C{},A{}}(), subsort{D{},C{}}(), subsort{C{},E{}}()]
endmodule []
"#;

/// Which sorts lie below others by all pairs.
const IN_LADDER: &str = "A < C -> yes
D < C -> yes
C < A -> no
A < D -> no
N < N -> yes
N < C -> no";

/// The same where paths meet.
const IN_OVERLAP: &str = "A < D -> yes
E < D -> yes
E < C -> no
B < C -> no";

/// The same in and around a ring.
const IN_RING: &str = "A < C -> yes
C < B -> yes
D < A -> yes
B < E -> yes
A < D -> no
E < A -> no";

/// The modules with their tables.
const LADDERS: [(&str, &str); 3] = [(LADDER, IN_LADDER), (OVERLAP, IN_OVERLAP), (RING, IN_RING)];

#[test]
fn sorts_lie_below_others_by_all_pairs(rt: HostRuntime) {
    for (module, table) in LADDERS {
        assert_eq!(rt;
            first_failed(rt.alloc(), module, &[(Asked::Below, table)]),
            None
        );
    }
}
