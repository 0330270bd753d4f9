// Definitions in which a hook, or `inj`, isn't over the sorts that it is read over: its symbol is foreign, and rules
// without it run.

/// A constructor makes a value of the whole-number sort: no hook over it is read.
pub const NUMBERS: &str = r#"[]
module NUMBERS
  hooked-sort SortBool{} [hook{}("BOOL.Bool")]
  hooked-sort SortInt{} [hook{}("INT.Int")]
  sort SortS{} []
  symbol Lblnone{}() : SortInt{} [constructor{}()]
  hooked-symbol Lbladd{}(SortInt{}, SortInt{}) : SortInt{} [hook{}("INT.add")]
  hooked-symbol Lblgt{}(SortInt{}, SortInt{}) : SortBool{} [hook{}("INT.gt")]
  hooked-symbol Lblnot{}(SortBool{}) : SortBool{} [hook{}("BOOL.not")]
  hooked-symbol Lblsame{}(SortInt{}, SortInt{}) : SortBool{} [hook{}("KEQUAL.eq")]
  symbol Lblheld{}(SortInt{}) : SortS{} [constructor{}()]
  symbol Lblcount{}(SortInt{}) : SortS{} [constructor{}()]
  symbol Lblasked{}(SortInt{}) : SortS{} [constructor{}()]
  symbol Lbltold{}(SortBool{}) : SortS{} [constructor{}()]
  axiom{} \rewrites{SortS{}}(Lblheld{}(N:SortInt{}), Lblcount{}(N:SortInt{})) [label{}("keep")]
  axiom{} \rewrites{SortS{}}(Lblcount{}(N:SortInt{}), Lblcount{}(Lbladd{}(N:SortInt{}, \dv{SortInt{}}("1")))) [label{}("add")]
  axiom{} \rewrites{SortS{}}(Lblasked{}(N:SortInt{}), Lbltold{}(Lblnot{}(Lblsame{}(N:SortInt{}, Lblnone{}())))) [label{}("ask")]
endmodule []
"#;

pub const NUMBER_ROWS: [(&str, &[&str], &str); 6] = [
    (
        r#"Lblheld{}(\dv{SortInt{}}("2"))"#,
        &[r#"Lblcount{}(\dv{SortInt{}}("2"))"#],
        "",
    ),
    (
        r#"Lblheld{}(Lblnone{}())"#,
        &[r#"Lblcount{}(Lblnone{}())"#],
        "",
    ),
    (r#"Lblcount{}(\dv{SortInt{}}("2"))"#, &[], "add"),
    (
        r#"Lblheld{}(Lbladd{}(\dv{SortInt{}}("1"), \dv{SortInt{}}("1")))"#,
        &[],
        "unread",
    ),
    (
        r#"Lblasked{}(\dv{SortInt{}}("2"))"#,
        &[r#"Lbltold{}(\dv{SortBool{}}("true"))"#],
        "",
    ),
    (r#"Lbltold{}(\dv{SortBool{}}("true"))"#, &[], ""),
];

/// A sort with a constructor lies below the truth sort: no hook over that is read, and those over whole numbers are.
pub const TRUTHS: &str = r#"[]
module TRUTHS
  hooked-sort SortBool{} [hook{}("BOOL.Bool")]
  hooked-sort SortInt{} [hook{}("INT.Int")]
  sort SortMaybe{} []
  sort SortNone{} []
  sort SortS{} []
  symbol inj{From, To}(From) : To [sortInjection{}()]
  symbol Lblperhaps{}() : SortMaybe{} [constructor{}()]
  hooked-symbol Lbladd{}(SortInt{}, SortInt{}) : SortInt{} [hook{}("INT.add")]
  hooked-symbol Lblgt{}(SortInt{}, SortInt{}) : SortBool{} [hook{}("INT.gt")]
  symbol Lblcount{}(SortInt{}) : SortS{} [constructor{}()]
  symbol Lblasked{}(SortInt{}) : SortS{} [constructor{}()]
  symbol Lbltold{}(SortBool{}) : SortS{} [constructor{}()]
  axiom{} \top{SortS{}}() [subsort{SortMaybe{}, SortBool{}}()]
  axiom{} \top{SortS{}}() [subsort{SortNone{}, SortInt{}}()]
  axiom{} \rewrites{SortS{}}(Lblcount{}(N:SortInt{}), Lblcount{}(Lbladd{}(N:SortInt{}, \dv{SortInt{}}("1")))) [label{}("add")]
  axiom{} \rewrites{SortS{}}(Lblasked{}(N:SortInt{}), Lbltold{}(Lblgt{}(N:SortInt{}, \dv{SortInt{}}("1")))) [label{}("ask")]
endmodule []
"#;

pub const TRUTH_ROWS: [(&str, &[&str], &str); 3] = [
    (
        r#"Lblcount{}(\dv{SortInt{}}("2"))"#,
        &[r#"Lblcount{}(\dv{SortInt{}}("3"))"#],
        "",
    ),
    (r#"Lblasked{}(\dv{SortInt{}}("2"))"#, &[], "ask"),
    (
        r#"Lbltold{}(inj{SortMaybe{}, SortBool{}}(Lblperhaps{}()))"#,
        &[],
        "",
    ),
];

/// `inj` takes two arguments: it isn't the identity on values.
pub const INJECTIONS: &str = r#"[]
module INJECTIONS
  hooked-sort SortInt{} [hook{}("INT.Int")]
  sort SortE{} []
  sort SortS{} []
  symbol inj{From, To}(From, From) : To [sortInjection{}()]
  symbol Lblcount{}(SortInt{}) : SortS{} [constructor{}()]
  symbol Lblheld{}(SortE{}) : SortS{} [constructor{}()]
  symbol Lbldone{}() : SortS{} [constructor{}()]
  axiom{} \top{SortS{}}() [subsort{SortInt{}, SortE{}}()]
  axiom{} \rewrites{SortS{}}(Lblcount{}(N:SortInt{}), Lblheld{}(inj{SortInt{}, SortE{}}(N:SortInt{}, N:SortInt{}))) [label{}("hold")]
  axiom{} \rewrites{SortS{}}(Lblheld{}(E:SortE{}), Lbldone{}()) [label{}("stop")]
endmodule []
"#;

pub const INJECTION_ROWS: [(&str, &[&str], &str); 3] = [
    (r#"Lblcount{}(\dv{SortInt{}}("2"))"#, &[], "hold"),
    (
        r#"Lblheld{}(inj{SortInt{}, SortE{}}(\dv{SortInt{}}("2"), \dv{SortInt{}}("2")))"#,
        &[],
        "unread",
    ),
    (r#"Lbldone{}()"#, &[], ""),
];
