use crate::module::SMALL;
use crate::rows::{Asked, Table, first_failed};
use kp_compile::CompileError;
use kp_kore::Pattern;
use kp_symbolic::{Language, Replaced, Term, term_under};
use std::alloc::{AllocError, Global};

/// What came of a text that was folded.
fn kind_of(term: &Result<Term, CompileError>) -> &'static str {
    match term {
        Ok(
            Term::Headed {
                symbol: _,
                arguments: _,
            },
        ) => "left as it stands",
        Ok(_) => "folded",
        Err(CompileError::Shape) => "refused as a shape",
        Err(CompileError::Memory) => "no memory",
    }
}

/// Adds what comes of a pattern that is folded.
pub(crate) fn folded_told(
    alloc: Global,
    language: &Language,
    pattern: &Pattern,
    told: &mut String,
) -> Result<(), AllocError> {
    let term = term_under(pattern, alloc, language, &[]);
    told.push_str(kind_of(&term))
}

/// Adds whether both sides of an equality are folded to one term.
pub(crate) fn compared_told(
    alloc: Global,
    language: &Language,
    replaced: &[Replaced],
    pattern: &Pattern,
    told: &mut String,
) -> Result<(), AllocError> {
    let Pattern::Equals { left, right, .. } = pattern else {
        return told.push_str("no equality");
    };
    let Ok(left) = term_under(left, alloc, language, replaced) else {
        return told.push_str("no term on the left");
    };
    let Ok(right) = term_under(right, alloc, language, &[]) else {
        return told.push_str("no term on the right");
    };
    told.push_str(if left.same(&right) {
        "one term"
    } else {
        "two terms"
    })
}

/// Adds whether what shares a pattern's term is that term.
pub(crate) fn shared_told(
    alloc: Global,
    language: &Language,
    pattern: &Pattern,
    told: &mut String,
) -> Result<(), AllocError> {
    let Ok(term) = term_under(pattern, alloc, language, &[]) else {
        return told.push_str("no term");
    };
    let shared = term.share(alloc)?;
    told.push_str(if shared.same(&term) {
        "one term"
    } else {
        "two terms"
    })
}

/// What comes of texts that are folded.
const FOLDED: &str = r##"# the most number is a value
\dv{Int{}}("170141183460469231731687303715884105727") -> folded
# a call beyond 128 bits is left
plus{}(\dv{Int{}}("170141183460469231731687303715884105727"), \dv{Int{}}("1")) -> left as it stands
# a number that can't be read is refused, and one that can be isn't
f{}(\dv{Int{}}("one")) -> refused as a shape
f{}(\dv{Int{}}("1")) -> folded"##;

/// Which texts are folded to one term.
const COMPARED: &str = r##"# zero is left out of a sum
\equals{Int{},S{}}(plus{}(X:Int{}, \dv{Int{}}("0")), X:Int{}) -> one term
# constants of a sum are one
\equals{Int{},S{}}(minus{}(plus{}(\dv{Int{}}("5"), X:Int{}), \dv{Int{}}("3")), plus{}(X:Int{}, \dv{Int{}}("2"))) -> one term
# sums of other constants differ
\equals{Int{},S{}}(plus{}(X:Int{}, \dv{Int{}}("1")), plus{}(X:Int{}, \dv{Int{}}("2"))) -> two terms
# a call of numbers is its value
\equals{S{},S{}}(f{}(plus{}(\dv{Int{}}("1"), \dv{Int{}}("2"))), f{}(\dv{Int{}}("3"))) -> one term
# a comparison of numbers is its value
\equals{Bool{},S{}}(less{}(\dv{Int{}}("1"), \dv{Int{}}("2")), \dv{Bool{}}("true")) -> one term
# inj is left out
\equals{S{},S{}}(inj{Int{}, S{}}(X:Int{}), X:Int{}) -> one term
# a sum in a sum is one
\equals{S{},S{}}(f{}(plus{}(Z:Int{}, \dv{Int{}}("2"))), f{}(plus{}(Y:Int{}, \dv{Int{}}("3")))) where Z = plus{}(Y:Int{}, \dv{Int{}}("1")) -> one term
# a number in a sum is a number
\equals{S{},S{}}(f{}(plus{}(Z:Int{}, \dv{Int{}}("2"))), f{}(\dv{Int{}}("3"))) where Z = \dv{Int{}}("1") -> one term"##;

/// A constructor, and a value.
const SHARED: &str = r##"f{}(plus{}(X:Int{}, \dv{Int{}}("2"))) -> one term
\dv{Bool{}}("true") -> one term"##;

/// The tables of folded texts.
const TABLES: [Table<'static>; 3] = [
    (Asked::Folded, FOLDED),
    (Asked::Compared, COMPARED),
    (Asked::Shared, SHARED),
];

#[test]
fn texts_are_folded(rt: HostRuntime) {
    assert_eq!(rt; first_failed(rt.alloc(), SMALL, &TABLES), None);
}
