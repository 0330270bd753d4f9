use crate::written::{signature, written};
use kp_signature::Signature;
use kp_symbolic::Language;
use std::alloc::Global;
use std::test::Fail;

/// The sorts and symbols of the example definition, with two constructors more that have a state in them.
const TOYS: &str = r#"module TOYS
  hooked-sort SortBool{} [hook{}("BOOL.Bool")]
  hooked-sort SortInt{} [hook{}("INT.Int")]
  symbol inj{From, To}(From) : To [sortInjection{}()]
  hooked-symbol Lbladd{}(SortInt{}, SortInt{}) : SortInt{} [hook{}("INT.add")]
  hooked-symbol Lblsub{}(SortInt{}, SortInt{}) : SortInt{} [hook{}("INT.sub")]
  hooked-symbol Lblmul{}(SortInt{}, SortInt{}) : SortInt{} [hook{}("INT.mul")]
  hooked-symbol Lbleq{}(SortInt{}, SortInt{}) : SortBool{} [hook{}("INT.eq")]
  hooked-symbol Lblgt{}(SortInt{}, SortInt{}) : SortBool{} [hook{}("INT.gt")]
  hooked-symbol Lblge{}(SortInt{}, SortInt{}) : SortBool{} [hook{}("INT.ge")]
  hooked-symbol Lbllt{}(SortInt{}, SortInt{}) : SortBool{} [hook{}("INT.lt")]
  sort SortS{} []
  sort SortP{} []
  sort SortE{} []
  symbol Lblpa{}() : SortP{} [constructor{}()]
  symbol Lblpb{}() : SortP{} [constructor{}()]
  symbol Lblpc{}() : SortP{} [constructor{}()]
  symbol Lblnil{}() : SortE{} [constructor{}()]
  symbol Lblcount{}(SortInt{}) : SortS{} [constructor{}()]
  symbol Lbldone{}() : SortS{} [constructor{}()]
  symbol Lblpick{}(SortP{}) : SortS{} [constructor{}()]
  symbol Lblnum{}(SortE{}) : SortS{} [constructor{}()]
  symbol Lblsq{}(SortInt{}) : SortS{} [constructor{}()]
  symbol Lblup{}(SortInt{}) : SortS{} [constructor{}()]
  symbol Lblvh{}(SortInt{}) : SortS{} [constructor{}()]
  symbol Lblnext{}(SortS{}) : SortS{} [constructor{}()]
  symbol Lblpair{}(SortInt{}, SortS{}) : SortS{} [constructor{}()]
  axiom{R} \exists{R}(Val:SortE{}, \equals{SortE{}, R}(Val:SortE{}, inj{SortInt{}, SortE{}}(From:SortInt{}))) [subsort{SortInt{}, SortE{}}()]
endmodule []
"#;

/// States, and what is written for them, which is written for itself.
static ROWS: [(&str, &str); 29] = [
    // what neither rule of a counter takes
    (
        r#"\and{SortS{}}(Lblcount{}(X:SortInt{}),\not{SortS{}}(\equals{SortBool{},SortS{}}(Lblgt{}(X:SortInt{},\dv{SortInt{}}("0")),\dv{SortBool{}}("true"))),\not{SortS{}}(\equals{SortBool{},SortS{}}(Lbleq{}(X:SortInt{},\dv{SortInt{}}("0")),\dv{SortBool{}}("true"))))"#,
        r#"\and{SortS{}}(Lblcount{}(X:SortInt{}),\not{SortS{}}(\equals{SortBool{},SortS{}}(Lbleq{}(X:SortInt{},\dv{SortInt{}}("0")),\dv{SortBool{}}("true"))),\not{SortS{}}(\equals{SortBool{},SortS{}}(Lblgt{}(X:SortInt{},\dv{SortInt{}}("0")),\dv{SortBool{}}("true"))))"#,
    ),
    // no number is so, which simplifying tells
    (
        r#"\and{SortS{}}(Lblcount{}(X:SortInt{}),\equals{SortBool{},SortS{}}(Lblgt{}(X:SortInt{},\dv{SortInt{}}("0")),\dv{SortBool{}}("true")),\equals{SortBool{},SortS{}}(Lbllt{}(X:SortInt{},\dv{SortInt{}}("1")),\dv{SortBool{}}("true")))"#,
        r#"\and{SortS{}}(Lblcount{}(X:SortInt{}),\equals{SortBool{},SortS{}}(Lblgt{}(X:SortInt{},\dv{SortInt{}}("0")),\dv{SortBool{}}("true")),\equals{SortBool{},SortS{}}(Lbllt{}(X:SortInt{},\dv{SortInt{}}("1")),\dv{SortBool{}}("true")))"#,
    ),
    // a repeat
    (
        r#"\and{SortS{}}(\equals{SortBool{},SortS{}}(Lblge{}(X:SortInt{},\dv{SortInt{}}("5")),\dv{SortBool{}}("true")),Lblcount{}(Lblsub{}(X:SortInt{},\dv{SortInt{}}("1"))),\equals{SortBool{},SortS{}}(Lblgt{}(X:SortInt{},\dv{SortInt{}}("0")),\dv{SortBool{}}("true")),\equals{SortBool{},SortS{}}(Lblge{}(X:SortInt{},\dv{SortInt{}}("5")),\dv{SortBool{}}("true")))"#,
        r#"\and{SortS{}}(Lblcount{}(Lblsub{}(X:SortInt{},\dv{SortInt{}}("1"))),\equals{SortBool{},SortS{}}(Lblgt{}(X:SortInt{},\dv{SortInt{}}("0")),\dv{SortBool{}}("true")),\equals{SortBool{},SortS{}}(Lblge{}(X:SortInt{},\dv{SortInt{}}("5")),\dv{SortBool{}}("true")))"#,
    ),
    // a bound
    (
        r#"\and{SortS{}}(Lblcount{}(X:SortInt{}),\equals{SortBool{},SortS{}}(Lblge{}(X:SortInt{},\dv{SortInt{}}("0")),\dv{SortBool{}}("true")))"#,
        r#"\and{SortS{}}(Lblcount{}(X:SortInt{}),\equals{SortBool{},SortS{}}(Lblge{}(X:SortInt{},\dv{SortInt{}}("0")),\dv{SortBool{}}("true")))"#,
    ),
    // a step under its condition
    (
        r#"\and{SortS{}}(Lblcount{}(Lblsub{}(X:SortInt{},\dv{SortInt{}}("1"))),\equals{SortBool{},SortS{}}(Lblgt{}(X:SortInt{},\dv{SortInt{}}("0")),\dv{SortBool{}}("true")))"#,
        r#"\and{SortS{}}(Lblcount{}(Lblsub{}(X:SortInt{},\dv{SortInt{}}("1"))),\equals{SortBool{},SortS{}}(Lblgt{}(X:SortInt{},\dv{SortInt{}}("0")),\dv{SortBool{}}("true")))"#,
    ),
    // an equation that a hook gives is solved, and stays as it stands
    (
        r#"\and{SortS{}}(Lblcount{}(X:SortInt{}),\equals{SortBool{},SortS{}}(Lbleq{}(X:SortInt{},\dv{SortInt{}}("0")),\dv{SortBool{}}("true")))"#,
        r#"\and{SortS{}}(Lblcount{}(\dv{SortInt{}}("0")),\equals{SortBool{},SortS{}}(Lbleq{}(X:SortInt{},\dv{SortInt{}}("0")),\dv{SortBool{}}("true")))"#,
    ),
    // the same where the variable stands nowhere else
    (
        r#"\and{SortS{}}(\equals{SortBool{},SortS{}}(Lbleq{}(X:SortInt{},\dv{SortInt{}}("0")),\dv{SortBool{}}("true")),Lbldone{}())"#,
        r#"\and{SortS{}}(Lbldone{}(),\equals{SortBool{},SortS{}}(Lbleq{}(X:SortInt{},\dv{SortInt{}}("0")),\dv{SortBool{}}("true")))"#,
    ),
    // a constant is solved for, its variable first
    (
        r#"\and{SortS{}}(Lblpick{}(P:SortP{}),\equals{SortP{},SortS{}}(Lblpa{}(),P:SortP{}))"#,
        r#"\and{SortS{}}(Lblpick{}(Lblpa{}()),\equals{SortP{},SortS{}}(P:SortP{},Lblpa{}()))"#,
    ),
    // the same where the variable stands nowhere else
    (
        r#"\and{SortS{}}(Lbldone{}(),\equals{SortP{},SortS{}}(Lblpa{}(),P:SortP{}))"#,
        r#"\and{SortS{}}(Lbldone{}(),\equals{SortP{},SortS{}}(P:SortP{},Lblpa{}()))"#,
    ),
    // another head than a constant's
    (
        r#"\and{SortS{}}(Lblpick{}(P:SortP{}),\not{SortS{}}(\equals{SortP{},SortS{}}(P:SortP{},Lblpa{}())))"#,
        r#"\and{SortS{}}(Lblpick{}(P:SortP{}),\not{SortS{}}(\equals{SortP{},SortS{}}(P:SortP{},Lblpa{}())))"#,
    ),
    // a variable of a sort below
    (
        r#"\and{SortS{}}(Lblnum{}(Q:SortE{}),\equals{SortE{},SortS{}}(Q:SortE{},inj{SortInt{},SortE{}}(Fresh1:SortInt{})))"#,
        r#"\and{SortS{}}(Lblnum{}(inj{SortInt{},SortE{}}(Fresh1:SortInt{})),\equals{SortE{},SortS{}}(Q:SortE{},inj{SortInt{},SortE{}}(Fresh1:SortInt{})))"#,
    ),
    // the same where the variable stands nowhere else
    (
        r#"\and{SortS{}}(Lbldone{}(),\equals{SortE{},SortS{}}(Q:SortE{},inj{SortInt{},SortE{}}(Fresh1:SortInt{})))"#,
        r#"\and{SortS{}}(Lbldone{}(),\equals{SortE{},SortS{}}(Q:SortE{},inj{SortInt{},SortE{}}(Fresh1:SortInt{})))"#,
    ),
    // no value of a sort below
    (
        r#"\and{SortS{}}(Lblnum{}(Q:SortE{}),\not{SortS{}}(\exists{SortS{}}(Fresh1:SortInt{},\equals{SortE{},SortS{}}(Q:SortE{},inj{SortInt{},SortE{}}(Fresh1:SortInt{})))))"#,
        r#"\and{SortS{}}(Lblnum{}(Q:SortE{}),\not{SortS{}}(\exists{SortS{}}(Fresh1:SortInt{},\equals{SortE{},SortS{}}(Q:SortE{},inj{SortInt{},SortE{}}(Fresh1:SortInt{})))))"#,
    ),
    // the same, its variable of another name
    (
        r#"\and{SortS{}}(Lblnum{}(Q:SortE{}),\not{SortS{}}(\exists{SortS{}}(N:SortInt{},\equals{SortE{},SortS{}}(Q:SortE{},inj{SortInt{},SortE{}}(N:SortInt{})))))"#,
        r#"\and{SortS{}}(Lblnum{}(Q:SortE{}),\not{SortS{}}(\exists{SortS{}}(Fresh1:SortInt{},\equals{SortE{},SortS{}}(Q:SortE{},inj{SortInt{},SortE{}}(Fresh1:SortInt{})))))"#,
    ),
    // the same, by the other side
    (
        r#"\and{SortS{}}(Lblnum{}(Q:SortE{}),\not{SortS{}}(\exists{SortS{}}(N:SortInt{},\equals{SortE{},SortS{}}(inj{SortInt{},SortE{}}(N:SortInt{}),Q:SortE{}))))"#,
        r#"\and{SortS{}}(Lblnum{}(Q:SortE{}),\not{SortS{}}(\exists{SortS{}}(Fresh1:SortInt{},\equals{SortE{},SortS{}}(Q:SortE{},inj{SortInt{},SortE{}}(Fresh1:SortInt{})))))"#,
    ),
    // what isn't opened further
    (
        r#"\and{SortS{}}(Lblsq{}(X:SortInt{}),\equals{SortBool{},SortS{}}(Lbllt{}(Lblmul{}(X:SortInt{},X:SortInt{}),\dv{SortInt{}}("0")),\dv{SortBool{}}("true")))"#,
        r#"\and{SortS{}}(Lblsq{}(X:SortInt{}),\equals{SortBool{},SortS{}}(Lbllt{}(Lblmul{}(X:SortInt{},X:SortInt{}),\dv{SortInt{}}("0")),\dv{SortBool{}}("true")))"#,
    ),
    // the same beside bounds
    (
        r#"\and{SortS{}}(Lbldone{}(),\equals{SortBool{},SortS{}}(Lbllt{}(X:SortInt{},\dv{SortInt{}}("1")),\dv{SortBool{}}("true")),\equals{SortBool{},SortS{}}(Lblgt{}(X:SortInt{},\dv{SortInt{}}("0")),\dv{SortBool{}}("true")),\equals{SortBool{},SortS{}}(Lbllt{}(Lblmul{}(X:SortInt{},X:SortInt{}),\dv{SortInt{}}("0")),\dv{SortBool{}}("true")))"#,
        r#"\and{SortS{}}(Lbldone{}(),\equals{SortBool{},SortS{}}(Lbllt{}(Lblmul{}(X:SortInt{},X:SortInt{}),\dv{SortInt{}}("0")),\dv{SortBool{}}("true")),\equals{SortBool{},SortS{}}(Lblgt{}(X:SortInt{},\dv{SortInt{}}("0")),\dv{SortBool{}}("true")),\equals{SortBool{},SortS{}}(Lbllt{}(X:SortInt{},\dv{SortInt{}}("1")),\dv{SortBool{}}("true")))"#,
    ),
    // a sum of a sum
    (
        r#"Lblup{}(Lbladd{}(Lbladd{}(X:SortInt{},\dv{SortInt{}}("1")),\dv{SortInt{}}("1")))"#,
        r#"Lblup{}(Lbladd{}(X:SortInt{},\dv{SortInt{}}("2")))"#,
    ),
    // a difference of a sum
    (
        r#"Lblcount{}(Lblsub{}(Lbladd{}(X:SortInt{},\dv{SortInt{}}("3")),\dv{SortInt{}}("1")))"#,
        r#"Lblcount{}(Lbladd{}(X:SortInt{},\dv{SortInt{}}("2")))"#,
    ),
    // the greatest number
    (
        r#"Lblup{}(\dv{SortInt{}}("170141183460469231731687303715884105727"))"#,
        r#"Lblup{}(\dv{SortInt{}}("170141183460469231731687303715884105727"))"#,
    ),
    // a new variable
    (
        r#"Lblvh{}(Fresh1:SortInt{})"#,
        r#"Lblvh{}(Fresh1:SortInt{})"#,
    ),
    // a bound of a variable that stands nowhere else
    (
        r#"\and{SortS{}}(Lbldone{}(),\equals{SortBool{},SortS{}}(Lblgt{}(Y:SortInt{},X:SortInt{}),\dv{SortBool{}}("true")))"#,
        r#"\and{SortS{}}(Lbldone{}(),\equals{SortBool{},SortS{}}(Lblgt{}(Y:SortInt{},X:SortInt{}),\dv{SortBool{}}("true")))"#,
    ),
    // a difference that a variable is
    (
        r#"\and{SortS{}}(Lblcount{}(Lblsub{}(X:SortInt{},\dv{SortInt{}}("1"))),\equals{SortInt{},SortS{}}(Lblsub{}(X:SortInt{},\dv{SortInt{}}("1")),Y:SortInt{}))"#,
        r#"\and{SortS{}}(Lblcount{}(Lblsub{}(X:SortInt{},\dv{SortInt{}}("1"))),\equals{SortInt{},SortS{}}(Y:SortInt{},Lblsub{}(X:SortInt{},\dv{SortInt{}}("1"))))"#,
    ),
    // a number comes into the term, and the equation stays with its variable first
    (
        r#"\and{SortS{}}(Lblcount{}(X:SortInt{}),\equals{SortInt{},SortS{}}(\dv{SortInt{}}("3"),X:SortInt{}))"#,
        r#"\and{SortS{}}(Lblcount{}(\dv{SortInt{}}("3")),\equals{SortInt{},SortS{}}(X:SortInt{},\dv{SortInt{}}("3")))"#,
    ),
    // of two variables of one sort the one least by name is solved for
    (
        r#"\and{SortS{}}(Lblpair{}(X:SortInt{},Z:SortS{}),\equals{SortInt{},SortS{}}(Y:SortInt{},X:SortInt{}))"#,
        r#"\and{SortS{}}(Lblpair{}(Y:SortInt{},Z:SortS{}),\equals{SortInt{},SortS{}}(X:SortInt{},Y:SortInt{}))"#,
    ),
    // what a round brings is solved in the next one
    (
        r#"\and{SortS{}}(Lblcount{}(X:SortInt{}),\equals{SortInt{},SortS{}}(X:SortInt{},Y:SortInt{}),\equals{SortInt{},SortS{}}(Y:SortInt{},\dv{SortInt{}}("3")))"#,
        r#"\and{SortS{}}(Lblcount{}(\dv{SortInt{}}("3")),\equals{SortInt{},SortS{}}(X:SortInt{},\dv{SortInt{}}("3")),\equals{SortInt{},SortS{}}(Y:SortInt{},\dv{SortInt{}}("3")))"#,
    ),
    // a variable that stands nowhere else isn't solved for
    (
        r#"\and{SortS{}}(Lblcount{}(Y:SortInt{}),\equals{SortS{},SortS{}}(Z:SortS{},Lblnext{}(W:SortS{})))"#,
        r#"\and{SortS{}}(Lblcount{}(Y:SortInt{}),\equals{SortS{},SortS{}}(Z:SortS{},Lblnext{}(W:SortS{})))"#,
    ),
    // a clause in which an equation is solved is opened again, and a repeat of another is dropped
    (
        r#"\and{SortS{}}(Lblnext{}(Z:SortS{}),\equals{SortS{},SortS{}}(Z:SortS{},Lblcount{}(X:SortInt{})),\not{SortS{}}(\equals{SortS{},SortS{}}(Z:SortS{},Lblcount{}(Y:SortInt{}))),\not{SortS{}}(\equals{SortInt{},SortS{}}(X:SortInt{},Y:SortInt{})))"#,
        r#"\and{SortS{}}(Lblnext{}(Lblcount{}(X:SortInt{})),\not{SortS{}}(\equals{SortInt{},SortS{}}(X:SortInt{},Y:SortInt{})),\equals{SortS{},SortS{}}(Z:SortS{},Lblcount{}(X:SortInt{})))"#,
    ),
    // a sum is folded where another comes in
    (
        r#"\and{SortS{}}(Lblcount{}(Lbladd{}(X:SortInt{},\dv{SortInt{}}("2"))),\equals{SortInt{},SortS{}}(X:SortInt{},Lbladd{}(Y:SortInt{},\dv{SortInt{}}("1"))))"#,
        r#"\and{SortS{}}(Lblcount{}(Lbladd{}(Y:SortInt{},\dv{SortInt{}}("3"))),\equals{SortInt{},SortS{}}(X:SortInt{},Lbladd{}(Y:SortInt{},\dv{SortInt{}}("1"))))"#,
    ),
];

/// Whether this is written for the state of the text, and for its own.
fn is_written(alloc: Global, language: &Language, text: &str, wanted: &str) -> Result<bool, Fail> {
    let once = written(alloc, language, text.as_bytes())?;
    let again = written(alloc, language, wanted.as_bytes())?;
    Ok(once.as_slice() == wanted.as_bytes() && again.as_slice() == wanted.as_bytes())
}

/// The first state for which something else is written.
fn failing_in(alloc: Global, language: &Language) -> Result<Option<&'static str>, Fail> {
    for (text, wanted) in &ROWS {
        if !is_written(alloc, language, text, wanted)? {
            return Ok(Some(*text));
        }
    }
    Ok(None)
}

/// The same over a signature.
fn failing_over(alloc: Global, signature: &Signature) -> Result<Option<&'static str>, Fail> {
    let language = Language::new(alloc, signature)?;
    failing_in(alloc, &language)
}

/// The same over that of the example definition.
fn failing(alloc: Global) -> Result<Option<&'static str>, Fail> {
    let signature = signature(alloc, TOYS)?;
    failing_over(alloc, &signature)
}

#[test]
fn states_are_read_solved_and_written(rt: HostRuntime) -> Result<(), Fail> {
    assert_eq!(rt; failing(rt.alloc())?, None);
    Ok(())
}
