use crate::drawn::{drawn, next};
use crate::ground::{FALSE, NOTHING, ZERO, instance, marked, place_of, put};
use crate::written::{pattern, signature, written};
use kp_kore::Pattern;
use kp_signature::Signature;
use kp_symbolic::Language;
use std::alloc::{AllocError, Global};
use std::test::Fail;

/// Numbers, truth values, tokens of T, E over numbers and tokens, two constants of P, and six constructors of S.
const DRAWN: &str = r#"module DRAWN
  hooked-sort I{} [hook{}("INT.Int")]
  hooked-sort B{} [hook{}("BOOL.Bool")]
  sort T{} [hasDomainValues{}()]
  sort E{} []
  sort P{} []
  sort S{} []
  symbol inj{From, To}(From) : To [sortInjection{}()]
  symbol nil{}() : E{} [constructor{}()]
  symbol a{}() : P{} [constructor{}()]
  symbol b{}() : P{} [constructor{}()]
  symbol f{}(I{}) : S{} [constructor{}()]
  symbol g{}(S{}) : S{} [constructor{}()]
  symbol e{}(E{}) : S{} [constructor{}()]
  symbol t{}(T{}) : S{} [constructor{}()]
  symbol h{}(P{}) : S{} [constructor{}()]
  symbol pair{}(I{}, S{}) : S{} [constructor{}()]
  hooked-symbol add{}(I{}, I{}) : I{} [hook{}("INT.add")]
  hooked-symbol sub{}(I{}, I{}) : I{} [hook{}("INT.sub")]
  hooked-symbol lt{}(I{}, I{}) : B{} [hook{}("INT.lt")]
  hooked-symbol ge{}(I{}, I{}) : B{} [hook{}("INT.ge")]
  hooked-symbol eq{}(I{}, I{}) : B{} [hook{}("INT.eq")]
  hooked-symbol ne{}(I{}, I{}) : B{} [hook{}("INT.ne")]
  hooked-symbol no{}(B{}) : B{} [hook{}("BOOL.not")]
  hooked-symbol both{}(B{}, B{}) : B{} [hook{}("BOOL.and")]
  hooked-symbol either{}(B{}, B{}) : B{} [hook{}("BOOL.or")]
  hooked-symbol same{}(E{}, E{}) : B{} [hook{}("KEQUAL.eq")]
  axiom{R} \top{R}() [subsort{I{}, E{}}()]
  axiom{R} \top{R}() [subsort{T{}, E{}}()]
endmodule []
"#;

/// A number from 0 to 3.
fn small(number: u64) -> u64 {
    ZERO.wrapping_add(number % 4)
}

/// A token, of the texts 4 and 5.
fn token(number: u64) -> u64 {
    marked(7, ZERO.wrapping_add(4 + number % 2))
}

/// A value of E: a number, a token or nil.
fn over(number: u64) -> u64 {
    match number % 4 {
        0 => marked(9, 0),
        1 => token(number >> 2),
        _ => small(number >> 2),
    }
}

/// A value of S.
fn constructed(number: u64) -> u64 {
    let part = marked(1, small(number >> 3));
    match number % 8 {
        0 => marked(2, part),
        1 => marked(6, marked(small(number >> 5), part)),
        2 => marked(3, over(number >> 3)),
        3 => marked(4, token(number >> 3)),
        4 => marked(5, marked(8, (number >> 3) % 2)),
        _ => part,
    }
}

/// The values that a number draws for the variables.
fn give(values: &mut [u64], number: u64) {
    put(values, place_of("X"), small(number));
    put(values, place_of("Y"), small(number >> 2));
    put(values, place_of("B"), FALSE.wrapping_add((number >> 4) % 2));
    put(values, place_of("P"), marked(8, (number >> 5) % 2));
    put(values, place_of("T"), token(number >> 6));
    put(values, place_of("Q"), over(number >> 7));
    put(values, place_of("Z"), constructed(number >> 11));
}

/// As many codes as there are places of variables.
fn places(alloc: Global) -> Result<Vec<u64>, AllocError> {
    let mut values = Vec::new(alloc);
    for _i in 0..64 {
        values.push(NOTHING)?;
    }
    Ok(values)
}

/// Whether two patterns have an instance under the values at hand; none where they don't have the same one.
fn instance_of_both(first: &Pattern, second: &Pattern, values: &mut [u64]) -> Option<bool> {
    let code = instance(first, values)?;
    let other = instance(second, values)?;
    if code == other {
        Some(code != NOTHING)
    } else {
        None
    }
}

/// Under how many of twenty valuations two patterns have an instance; none where they don't have the same ones.
fn instances_of_both(
    first: &Pattern,
    second: &Pattern,
    seed: u64,
    values: &mut [u64],
) -> Option<u64> {
    let mut number = seed;
    let mut count: u64 = 0;
    for _i in 0..20 {
        number = next(number);
        give(values, number >> 30);
        if instance_of_both(first, second, values)? {
            count = count.saturating_add(1);
        }
    }
    Some(count)
}

/// The same of a pattern and of a text.
fn instances_of(
    alloc: Global,
    first: &Pattern,
    second: &[u8],
    seed: u64,
    values: &mut [u64],
) -> Result<Option<u64>, Fail> {
    let second = pattern(alloc, second)?;
    Ok(instances_of_both(first, &second, seed, values))
}

/// The same of two texts.
fn instances(
    alloc: Global,
    first: &[u8],
    second: &[u8],
    seed: u64,
    values: &mut [u64],
) -> Result<Option<u64>, Fail> {
    let first = pattern(alloc, first)?;
    instances_of(alloc, &first, second, seed, values)
}

/// The same of the state that a number draws, and of what is written for it, read and written once more.
fn round_trip(
    alloc: Global,
    language: &Language,
    seed: u64,
    values: &mut [u64],
) -> Result<Option<u64>, Fail> {
    let text = drawn(alloc, seed)?;
    let once = written(alloc, language, &text)?;
    let twice = written(alloc, language, &once)?;
    instances(alloc, &text, &twice, seed, values)
}

/// The number that draws the first of a thousand states that has other instances once it was read and written; under how many
/// valuations they have one is counted.
fn failing_in(
    alloc: Global,
    language: &Language,
    values: &mut [u64],
    count: &mut u64,
) -> Result<Option<u64>, Fail> {
    let mut number: u64 = 31;
    for _i in 0..1_000 {
        number = next(number);
        match round_trip(alloc, language, number, values)? {
            Some(some) => *count = count.saturating_add(some),
            None => return Ok(Some(number)),
        }
    }
    Ok(None)
}

/// The same over a signature.
fn failing_over(
    alloc: Global,
    signature: &Signature,
    count: &mut u64,
) -> Result<Option<u64>, Fail> {
    let language = Language::new(alloc, signature)?;
    let mut values = places(alloc)?;
    failing_in(alloc, &language, &mut values, count)
}

/// The same over that of the states that are drawn.
fn failing(alloc: Global, count: &mut u64) -> Result<Option<u64>, Fail> {
    let signature = signature(alloc, DRAWN)?;
    failing_over(alloc, &signature, count)
}

#[test]
fn random_states_mean_the_same_once_written(rt: HostRuntime) -> Result<(), Fail> {
    let mut count: u64 = 0;
    assert_eq!(rt; failing(rt.alloc(), &mut count)?, None);
    // an evaluation of the same states in Python counts as many
    assert_eq!(rt; count, 3_418);
    Ok(())
}
