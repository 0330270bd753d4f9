use kp_kore::Sort;
use kp_signature::Signature;
use kp_text::read_module;
use std::alloc::Global;
use std::test::Fail;

/// PP and QQ share D and E without a sort for both; RR and SS share D alone; W has a constructor without values.
pub const SMALL: &str = r#"module SMALL
  hooked-sort Int{} [hook{}("INT.Int")]
  hooked-sort Bool{} [hook{}("BOOL.Bool")]
  hooked-symbol add{}(Int{}, Int{}) : Int{} [hook{}("INT.add")]
  hooked-symbol sub{}(Int{}, Int{}) : Int{} [hook{}("INT.sub")]
  hooked-symbol lt{}(Int{}, Int{}) : Bool{} [hook{}("INT.lt")]
  sort T{} [hasDomainValues{}()]
  sort D{} []
  sort E{} []
  sort PP{} []
  sort QQ{} []
  sort RR{} []
  sort SS{} []
  sort N{} []
  sort W{} []
  sort U{} []
  sort VV{} []
  sort K{} []
  sort C{} []
  sort GG{} []
  symbol da{}() : D{} [constructor{}()]
  symbol db{}() : D{} [constructor{}()]
  symbol ea{}() : E{} [constructor{}()]
  symbol pp{}() : PP{} [constructor{}()]
  symbol qq{}() : QQ{} [constructor{}()]
  symbol rr{}() : RR{} [constructor{}()]
  symbol ss{}() : SS{} [constructor{}()]
  symbol loop{}(N{}) : N{} [constructor{}()]
  symbol bad{}(N{}) : W{} [constructor{}()]
  symbol wa{}() : W{} [constructor{}()]
  symbol wd{}(D{}) : W{} [constructor{}()]
  symbol c{}(D{}) : C{} [constructor{}()]
  symbol d{}(D{}, D{}) : C{} [constructor{}()]
  symbol f{}(C{}, C{}) : K{} [constructor{}()]
  symbol pair{}(PP{}, PP{}) : K{} [constructor{}()]
  symbol two{}(D{}, D{}) : K{} [constructor{}()]
  symbol num{}(Int{}, Int{}) : K{} [constructor{}()]
  symbol tri{}(Int{}, Int{}, Int{}) : K{} [constructor{}()]
  symbol tok{}(T{}, T{}) : K{} [constructor{}()]
  symbol hold{}(W{}) : K{} [constructor{}()]
  symbol inj{From,To}(From) : To [sortInjection{}()]
  axiom{R} \top{R}() [subsort{D{}, PP{}}()]
  axiom{R} \top{R}() [subsort{E{}, PP{}}()]
  axiom{R} \top{R}() [subsort{D{}, QQ{}}()]
  axiom{R} \top{R}() [subsort{E{}, QQ{}}()]
  axiom{R} \top{R}() [subsort{D{}, RR{}}()]
  axiom{R} \top{R}() [subsort{D{}, SS{}}()]
  axiom{R} \top{R}() [subsort{D{}, GG{}}()]
  axiom{R} \top{R}() [subsort{GG{}, K{}}()]
  axiom{R} \top{R}() [subsort{D{}, U{}}()]
  axiom{R} \top{R}() [subsort{E{}, U{}}()]
  axiom{R} \top{R}() [subsort{D{}, VV{}}()]
  axiom{R} \top{R}() [subsort{E{}, VV{}}()]
  axiom{R} \top{R}() [subsort{U{}, VV{}}()]
  axiom{R} \top{R}() [subsort{PP{}, K{}}()]
  axiom{R} \top{R}() [subsort{QQ{}, K{}}()]
  axiom{R} \top{R}() [subsort{RR{}, K{}}()]
  axiom{R} \top{R}() [subsort{SS{}, K{}}()]
  axiom{R} \top{R}() [subsort{W{}, K{}}()]
  axiom{R} \top{R}() [subsort{C{}, K{}}()]
  axiom{R} \top{R}() [subsort{T{}, K{}}()]
  axiom{R} \top{R}() [subsort{Int{}, K{}}()]
  axiom{R} \top{R}() [subsort{Bool{}, K{}}()]
  axiom{R} \top{R}() [subsort{VV{}, K{}}()]
endmodule []
"#;

/// The signature of the module.
pub fn signature(alloc: Global) -> Result<Signature, Fail> {
    let module = read_module(alloc, SMALL.as_bytes()).map_err(|_| "no module")?;
    Ok(Signature::new(alloc, &[&module])?)
}

/// A sort without arguments.
pub fn sort(alloc: Global, name: &str) -> Result<Sort, Fail> {
    Ok(Sort::App {
        name: String::from_str(alloc, name)?,
        arguments: Vec::new(alloc),
    })
}
