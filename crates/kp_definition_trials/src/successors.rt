use crate::hooks::{INJECTION_ROWS, INJECTIONS, NUMBER_ROWS, NUMBERS, TRUTH_ROWS, TRUTHS};
use crate::stepping::failing;
use std::test::Fail;

/// Rules with new variables, ensured conditions, equal priorities, wide numbers and foreign symbols.
const CHOOSING: &str = r#"[]
module CHOOSING
  hooked-sort SortBool{} [hook{}("BOOL.Bool")]
  hooked-sort SortInt{} [hook{}("INT.Int")]
  hooked-symbol Lbladd{}(SortInt{}, SortInt{}) : SortInt{} [hook{}("INT.add")]
  hooked-symbol Lblsub{}(SortInt{}, SortInt{}) : SortInt{} [hook{}("INT.sub")]
  hooked-symbol Lblmul{}(SortInt{}, SortInt{}) : SortInt{} [hook{}("INT.mul")]
  hooked-symbol Lblgt{}(SortInt{}, SortInt{}) : SortBool{} [hook{}("INT.gt")]
  sort SortS{} []
  symbol Lblcount{}(SortInt{}) : SortS{} [constructor{}()]
  symbol Lblvg{}() : SortS{} [constructor{}()]
  symbol Lblvh{}(SortInt{}) : SortS{} [constructor{}()]
  symbol Lblpair{}(SortInt{}, SortInt{}) : SortS{} [constructor{}()]
  symbol Lblodd{}(SortInt{}) : SortS{} [constructor{}()]
  symbol Lblsq{}(SortInt{}) : SortS{} [constructor{}()]
  symbol Lblboth{}(SortInt{}) : SortS{} [constructor{}()]
  symbol Lbldone{}() : SortS{} [constructor{}()]
  symbol Lblother{}(SortInt{}) : SortInt{} []
  axiom{} \rewrites{SortS{}}(\and{SortS{}}(Lblcount{}(N:SortInt{}), \equals{SortBool{}, SortS{}}(Lblgt{}(N:SortInt{}, \dv{SortInt{}}("0")), \dv{SortBool{}}("true"))), Lblcount{}(Lblsub{}(N:SortInt{}, \dv{SortInt{}}("1")))) [label{}("dec")]
  axiom{} \rewrites{SortS{}}(Lblvg{}(), Lblvh{}(Y:SortInt{})) [label{}("back")]
  axiom{} \rewrites{SortS{}}(Lblvh{}(N:SortInt{}), \exists{SortS{}}(Y:SortInt{}, \and{SortS{}}(Lblpair{}(Y:SortInt{}, Lbladd{}(N:SortInt{}, \dv{SortInt{}}("1"))), \equals{SortBool{}, SortS{}}(Lblgt{}(Y:SortInt{}, N:SortInt{}), \dv{SortBool{}}("true"))))) [label{}("choose")]
  axiom{} \rewrites{SortS{}}(Lblpair{}(N:SortInt{}, M:SortInt{}), \exists{SortS{}}(Y:SortInt{}, \and{SortS{}}(\top{SortS{}}(), Lblcount{}(M:SortInt{})))) [label{}("forget")]
  axiom{} \rewrites{SortS{}}(Lblpair{}(N:SortInt{}, M:SortInt{}), Lblcount{}(N:SortInt{})) [label{}("first")]
  axiom{} \rewrites{SortS{}}(Lblpair{}(N:SortInt{}, M:SortInt{}), Lbldone{}()) [label{}("late"), owise{}()]
  axiom{} \rewrites{SortS{}}(Lblodd{}(N:SortInt{}), Lblodd{}(Lblother{}(N:SortInt{}))) [label{}("odd"), priority{}("60")]
  axiom{} \rewrites{SortS{}}(Lblodd{}(M:SortInt{}), Lblodd{}(Lblother{}(M:SortInt{}))) [label{}("odder")]
  axiom{} \rewrites{SortS{}}(Lblsq{}(N:SortInt{}), Lblpair{}(Y:SortInt{}, Lblmul{}(N:SortInt{}, N:SortInt{}))) [label{}("sq")]
  axiom{} \rewrites{SortS{}}(Lblboth{}(N:SortInt{}), Lblcount{}(Lblmul{}(N:SortInt{}, N:SortInt{}))) [label{}("wide")]
  axiom{} \rewrites{SortS{}}(Lblboth{}(N:SortInt{}), Lblodd{}(Lblother{}(N:SortInt{}))) [label{}("strange")]
endmodule []
"#;

/// A term, and the patterns that follow, or how the step is refused.
const ROWS: [(&str, &[&str], &str); 13] = [
    (
        r#"Lblcount{}(\dv{SortInt{}}("2"))"#,
        &[r#"Lblcount{}(\dv{SortInt{}}("1"))"#],
        "",
    ),
    (r#"Lblcount{}(\dv{SortInt{}}("0"))"#, &[], ""),
    (
        r#"Lblcount{}(Lbladd{}(\dv{SortInt{}}("1"), \dv{SortInt{}}("+1")))"#,
        &[r#"Lblcount{}(\dv{SortInt{}}("1"))"#],
        "",
    ),
    (r#"Lblvg{}()"#, &[r#"Lblvh{}(Y:SortInt{})"#], ""),
    (
        r#"Lblvh{}(\dv{SortInt{}}("3"))"#,
        &[
            r#"\and{SortS{}}(Lblpair{}(Y:SortInt{}, Lbladd{}(\dv{SortInt{}}("3"), \dv{SortInt{}}("1"))), \equals{SortBool{}, SortS{}}(Lblgt{}(Y:SortInt{}, \dv{SortInt{}}("3")), \dv{SortBool{}}("true")))"#,
        ],
        "",
    ),
    (
        r#"Lblpair{}(\dv{SortInt{}}("5"), \dv{SortInt{}}("6"))"#,
        &[
            r#"\and{SortS{}}(Lblcount{}(\dv{SortInt{}}("6")), \equals{SortInt{}, SortS{}}(Y:SortInt{}, Y:SortInt{}))"#,
            r#"Lblcount{}(\dv{SortInt{}}("5"))"#,
        ],
        "",
    ),
    (r#"Lblodd{}(\dv{SortInt{}}("1"))"#, &[], "odder"),
    (
        r#"Lblsq{}(\dv{SortInt{}}("170141183460469231731687303715884105727"))"#,
        &[],
        "G1",
    ),
    (
        r#"Lblboth{}(\dv{SortInt{}}("170141183460469231731687303715884105727"))"#,
        &[],
        "G1",
    ),
    (r#"Lblboth{}(\dv{SortInt{}}("2"))"#, &[], "strange"),
    (
        r#"Lblcount{}(Lbladd{}(\dv{SortInt{}}("170141183460469231731687303715884105727"), \dv{SortInt{}}("1")))"#,
        &[],
        "G1",
    ),
    (r#"Lblcount{}(N:SortInt{})"#, &[], "unread"),
    (
        r#"Lblcount{}(Lblother{}(\dv{SortInt{}}("1")))"#,
        &[],
        "unread",
    ),
];

/// What the example definition says of counting, of new variables and of foreign symbols.
const TOYS: &str = r#"[]
module BASIC
  hooked-sort SortBool{} [hook{}("BOOL.Bool"), hasDomainValues{}()]
  hooked-sort SortInt{} [hook{}("INT.Int"), hasDomainValues{}()]
  symbol inj{From, To}(From) : To [sortInjection{}()]
  hooked-symbol Lblsub{}(SortInt{}, SortInt{}) : SortInt{} [hook{}("INT.sub"), function{}()]
  hooked-symbol Lbleq{}(SortInt{}, SortInt{}) : SortBool{} [hook{}("INT.eq"), function{}()]
  hooked-symbol Lblgt{}(SortInt{}, SortInt{}) : SortBool{} [hook{}("INT.gt"), function{}()]
endmodule []
module TOYS
  import BASIC []
  sort SortS{} []
  symbol Lblcount{}(SortInt{}) : SortS{} [constructor{}()]
  symbol Lbldone{}() : SortS{} [constructor{}()]
  symbol Lblodd{}(SortInt{}) : SortS{} [constructor{}()]
  symbol Lblvg{}() : SortS{} [constructor{}()]
  symbol Lblvh{}(SortInt{}) : SortS{} [constructor{}()]
  symbol Lblother{}(SortInt{}) : SortInt{} [function{}()]
  axiom{} \rewrites{SortS{}}(\and{SortS{}}(Lblcount{}(N:SortInt{}), \equals{SortBool{}, SortS{}}(Lblgt{}(N:SortInt{}, \dv{SortInt{}}("0")), \dv{SortBool{}}("true"))), Lblcount{}(Lblsub{}(N:SortInt{}, \dv{SortInt{}}("1")))) [label{}("TOYS.dec")]
  axiom{} \rewrites{SortS{}}(\and{SortS{}}(Lblcount{}(N:SortInt{}), \equals{SortBool{}, SortS{}}(Lbleq{}(N:SortInt{}, \dv{SortInt{}}("0")), \dv{SortBool{}}("true"))), Lbldone{}()) [label{}("TOYS.stop")]
  axiom{} \rewrites{SortS{}}(Lblodd{}(N:SortInt{}), Lblodd{}(Lblother{}(N:SortInt{}))) [label{}("TOYS.odd")]
  axiom{} \rewrites{SortS{}}(Lblvg{}(), Lblvh{}(Y:SortInt{})) [label{}("TOYS.back")]
endmodule []
"#;

const TOYS_ROWS: [(&str, &[&str], &str); 5] = [
    (
        r#"Lblcount{}(\dv{SortInt{}}("2"))"#,
        &[r#"Lblcount{}(\dv{SortInt{}}("1"))"#],
        "",
    ),
    (
        r#"Lblcount{}(\dv{SortInt{}}("0"))"#,
        &[r#"Lbldone{}()"#],
        "",
    ),
    (r#"Lbldone{}()"#, &[], ""),
    (r#"Lblvg{}()"#, &[r#"Lblvh{}(Y:SortInt{})"#], ""),
    (r#"Lblodd{}(\dv{SortInt{}}("1"))"#, &[], "TOYS.odd"),
];

/// Rules of one head, of a head under `inj`, and of any head, in mixed order.
const HEADS: &str = r#"[]
module HEADS
  sort SortE{} []
  sort SortS{} []
  symbol inj{From, To}(From) : To [sortInjection{}()]
  axiom{R} \top{R}() [subsort{SortE{}, SortS{}}()]
  symbol Lbla{}() : SortE{} [constructor{}()]
  symbol Lblb{}() : SortE{} [constructor{}()]
  symbol Lblc{}() : SortS{} [constructor{}()]
  axiom{} \rewrites{SortS{}}(Lblc{}(), inj{SortE{}, SortS{}}(Lbla{}())) [label{}("one")]
  axiom{} \rewrites{SortS{}}(X:SortS{}, Lblc{}()) [label{}("any")]
  axiom{} \rewrites{SortS{}}(Lblc{}(), inj{SortE{}, SortS{}}(Lblb{}())) [label{}("three")]
  axiom{} \rewrites{SortS{}}(inj{SortE{}, SortS{}}(Lbla{}()), inj{SortE{}, SortS{}}(Lblb{}())) [label{}("under")]
  axiom{} \rewrites{SortS{}}(inj{SortE{}, SortS{}}(Y:SortE{}), inj{SortE{}, SortS{}}(Y:SortE{})) [label{}("lower")]
  axiom{} \rewrites{SortS{}}(Lblc{}(), Lblc{}()) [label{}("late"), priority{}("60")]
endmodule []
"#;

const HEADS_ROWS: [(&str, &[&str], &str); 3] = [
    (
        r#"Lblc{}()"#,
        &[
            r#"inj{SortE{}, SortS{}}(Lbla{}())"#,
            r#"Lblc{}()"#,
            r#"inj{SortE{}, SortS{}}(Lblb{}())"#,
        ],
        "",
    ),
    (
        r#"inj{SortE{}, SortS{}}(Lbla{}())"#,
        &[
            r#"Lblc{}()"#,
            r#"inj{SortE{}, SortS{}}(Lblb{}())"#,
            r#"inj{SortE{}, SortS{}}(Lbla{}())"#,
        ],
        "",
    ),
    (
        r#"inj{SortE{}, SortS{}}(Lblb{}())"#,
        &[r#"Lblc{}()"#, r#"inj{SortE{}, SortS{}}(Lblb{}())"#],
        "",
    ),
];

/// The definitions: their module, their text, and their rows.
const DEFINITIONS: [(&str, &str, &[(&str, &[&str], &str)]); 6] = [
    ("CHOOSING", CHOOSING, &ROWS),
    ("TOYS", TOYS, &TOYS_ROWS),
    ("HEADS", HEADS, &HEADS_ROWS),
    // a hook, or `inj`, that is not over the sorts that it is read over
    ("NUMBERS", NUMBERS, &NUMBER_ROWS),
    ("TRUTHS", TRUTHS, &TRUTH_ROWS),
    ("INJECTIONS", INJECTIONS, &INJECTION_ROWS),
];

#[test]
fn successors_are_given_in_the_order_of_the_rules(rt: HostRuntime) -> Result<(), Fail> {
    for (module, definition, rows) in &DEFINITIONS {
        assert_eq!(rt;
            failing(rt.alloc(), definition, module, rows)?,
            None,
            "{module}"
        );
    }
    Ok(())
}
