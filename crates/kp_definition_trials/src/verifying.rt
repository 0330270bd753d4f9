use crate::rows::{Asked, first_failed};
use kp_kore::Sort;
use kp_signature::{Signature, VerifyError, sort_text, verify};
use kp_text::read_pattern;
use std::alloc::{AllocError, Global};
use std::test::Fail;

/// Numbers, states that count down, and a sort above the numbers.
const COUNTING: &str = r#"module COUNTING
  hooked-sort SortInt{} [hook{}("INT.Int")]
  sort SortS{} []
  symbol Lblcount{}(SortInt{}) : SortS{} [constructor{}()]
  symbol Lbldone{}() : SortS{} [constructor{}()]
  symbol Lblnext{}(SortS{}) : SortS{} [constructor{}()]
  sort SortK{} []
  symbol inj{From, To}(From) : To [sortInjection{}()]
  axiom{} \top{SortK{}}() [subsort{SortInt{}, SortK{}}()]
endmodule []
"#;

/// Adds a code and a name.
fn add_name(code: &str, name: &str, told: &mut String) -> Result<(), AllocError> {
    told.push_str(code)?;
    told.push_str(name)
}

/// Adds a code and the text of a sort.
fn add_sort(alloc: Global, code: &str, sort: &Sort, told: &mut String) -> Result<(), AllocError> {
    let text = sort_text(alloc, sort)?;
    told.push_str(code)?;
    told.push_str(text.as_str())
}

/// Adds the code of a fault with its name, or with the sort that is expected.
fn add_fault(alloc: Global, error: &VerifyError, told: &mut String) -> Result<(), AllocError> {
    match error {
        VerifyError::Memory => told.push_str("memory"),
        VerifyError::UnknownSort { sort } => add_sort(alloc, "V1 ", sort, told),
        VerifyError::UnknownSymbol { name } => add_name("V2 ", name, told),
        VerifyError::WrongNumber { name } => add_name("V3 ", name, told),
        VerifyError::SortDiffers { expected, .. } => add_sort(alloc, "V4 ", expected, told),
        VerifyError::NumberTooWide { text } => add_name("V5 ", text, told),
        VerifyError::TermTooDeep => told.push_str("V6"),
        VerifyError::NoLiteral { text } => add_name("V7 ", text, told),
    }
}

/// Adds the sort of a text's pattern, or its first fault.
pub(crate) fn verified_told(
    alloc: Global,
    signature: &Signature,
    text: &str,
    told: &mut String,
) -> Result<(), AllocError> {
    let Ok(pattern) = read_pattern(alloc, text.as_bytes()) else {
        return told.push_str("no pattern");
    };
    match verify(alloc, signature, &pattern) {
        Ok(sort) => add_sort(alloc, "", &sort, told),
        Err(error) => add_fault(alloc, &error, told),
    }
}

/// Patterns have their sort or their first fault.
const PATTERNS: &str = r#"Lblcount{}(\dv{SortInt{}}("+2")) -> SortS{}
Lblcount{}(\dv{SortNope{}}("2")) -> V1 SortNope{}
Lblnope{}() -> V2 Lblnope
Lblcount{}() -> V3 Lblcount
Lblcount{}(Lbldone{}()) -> V4 SortInt{}
Lblcount{}(\dv{SortInt{}}("170141183460469231731687303715884105728")) -> V5 170141183460469231731687303715884105728
Lblcount{}(\dv{SortInt{}}("two")) -> V7 two
inj{SortInt{}, SortK{}}(\dv{SortInt{}}("2")) -> SortK{}
inj{SortK{}, SortInt{}}(K:SortK{}) -> V4 SortInt{}"#;

/// Adds a row of so many `Lblnext` over `Lbldone`.
fn add_chain(table: &mut String, length: usize, told: &str) -> Result<(), AllocError> {
    for _ in 0..length {
        table.push_str("Lblnext{}(")?;
    }
    table.push_str("Lbldone{}()")?;
    for _ in 0..length {
        table.push_str(")")?;
    }
    table.push_str(told)
}

/// The most levels of a term.
const DEPTH: usize = 48;

#[test]
fn patterns_have_their_sort_or_their_first_fault(rt: HostRuntime) -> Result<(), Fail> {
    let mut chains = String::new(rt.alloc());
    add_chain(&mut chains, DEPTH - 1, " -> SortS{}\n")?;
    add_chain(&mut chains, DEPTH, " -> V6\n")?;
    let tables = [
        (Asked::Verified, PATTERNS),
        (Asked::Verified, chains.as_str()),
    ];
    assert_eq!(rt; first_failed(rt.alloc(), COUNTING, &tables), None);
    Ok(())
}
