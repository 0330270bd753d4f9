use crate::running::is_told;
use std::test::Fail;

/// Rules that count down and stop, one that chooses a number, one that goes round, and a foreign one.
const TOYS: &str = r#"[]
module TOYS
  hooked-sort SortBool{} [hook{}("BOOL.Bool")]
  hooked-sort SortInt{} [hook{}("INT.Int")]
  hooked-symbol Lblsub{}(SortInt{}, SortInt{}) : SortInt{} [hook{}("INT.sub")]
  hooked-symbol Lbleq{}(SortInt{}, SortInt{}) : SortBool{} [hook{}("INT.eq")]
  hooked-symbol Lblgt{}(SortInt{}, SortInt{}) : SortBool{} [hook{}("INT.gt")]
  sort SortS{} []
  symbol Lblcount{}(SortInt{}) : SortS{} [constructor{}()]
  symbol Lbldone{}() : SortS{} [constructor{}()]
  symbol Lblodd{}(SortInt{}) : SortS{} [constructor{}()]
  symbol Lblgoal{}() : SortS{} [constructor{}()]
  symbol Lblloop{}() : SortS{} [constructor{}()]
  symbol Lblvg{}() : SortS{} [constructor{}()]
  symbol Lblvh{}(SortInt{}) : SortS{} [constructor{}()]
  symbol Lblother{}(SortInt{}) : SortInt{} [function{}()]
  axiom{} \rewrites{SortS{}}(\and{SortS{}}(Lblcount{}(N:SortInt{}), \equals{SortBool{}, SortS{}}(Lblgt{}(N:SortInt{}, \dv{SortInt{}}("0")), \dv{SortBool{}}("true"))), Lblcount{}(Lblsub{}(N:SortInt{}, \dv{SortInt{}}("1")))) [label{}("TOYS.dec")]
  axiom{} \rewrites{SortS{}}(\and{SortS{}}(Lblcount{}(N:SortInt{}), \equals{SortBool{}, SortS{}}(Lbleq{}(N:SortInt{}, \dv{SortInt{}}("0")), \dv{SortBool{}}("true"))), Lbldone{}()) [label{}("TOYS.stop")]
  axiom{} \rewrites{SortS{}}(Lblodd{}(N:SortInt{}), Lblodd{}(Lblother{}(N:SortInt{}))) [label{}("TOYS.odd")]
  axiom{} \rewrites{SortS{}}(Lblloop{}(), Lblloop{}()) [label{}("TOYS.spin")]
  axiom{} \rewrites{SortS{}}(Lblvg{}(), Lblvh{}(Y:SortInt{})) [label{}("TOYS.back")]
endmodule []
"#;

/// Claims over them, in an order of their own.
const CLAIMS: &str = r#"module TOYS-SPEC
  import TOYS []
  claim{} \implies{SortS{}}(Lblcount{}(\dv{SortInt{}}("2")), weakAlwaysFinally{SortS{}}(Lbldone{}())) [label{}("T.two")]
  claim{} \implies{SortS{}}(Lblodd{}(\dv{SortInt{}}("1")), weakAlwaysFinally{SortS{}}(Lbldone{}())) [label{}("T.odd")]
  claim{} \implies{SortS{}}(Lblvg{}(), weakAlwaysFinally{SortS{}}(Lblgoal{}())) [label{}("T.chosen")]
  claim{} \implies{SortS{}}(Lblcount{}(\dv{SortInt{}}("2")), weakAlwaysFinally{SortS{}}(Lblcount{}(\dv{SortInt{}}("1")))) [label{}("T.mid")]
endmodule []
"#;

/// A claim that goes round.
const SPIN: &str = r#"module TOYS-SPEC
  claim{} \implies{SortS{}}(Lblloop{}(), weakAlwaysFinally{SortS{}}(Lblgoal{}())) [label{}("T.spin")]
endmodule []
"#;

/// A claim over one path.
const ONE_PATH: &str = r#"module TOYS-SPEC
  claim{} \implies{SortS{}}(Lblloop{}(), weakExistsFinally{SortS{}}(Lblgoal{}())) [label{}("T.spin")]
endmodule []
"#;

/// A foreign rule whose label has a line feed and then what a line of a report may say: it is no id.
const FORGING: &str = r#"[]
module TOYS
  hooked-sort SortInt{} [hook{}("INT.Int")]
  sort SortS{} []
  symbol Lblodd{}(SortInt{}) : SortS{} [constructor{}()]
  symbol Lblother{}(SortInt{}) : SortInt{} [function{}()]
  axiom{} \rewrites{SortS{}}(Lblodd{}(N:SortInt{}), Lblodd{}(Lblother{}(N:SortInt{}))) [label{}("x\npassed T.odd")]
endmodule []
"#;

/// A claim that meets it.
const ODD: &str = r#"module TOYS-SPEC
  claim{} \implies{SortS{}}(Lblodd{}(\dv{SortInt{}}("1")), weakAlwaysFinally{SortS{}}(Lblodd{}(\dv{SortInt{}}("2")))) [label{}("T.odd")]
endmodule []
"#;

/// A state with two ways on, and a number that grows.
const FORK: &str = r#"[]
module TOYS
  hooked-sort SortInt{} [hook{}("INT.Int")]
  hooked-symbol Lbladd{}(SortInt{}, SortInt{}) : SortInt{} [hook{}("INT.add")]
  sort SortS{} []
  symbol Lblfork{}() : SortS{} [constructor{}()]
  symbol Lbldone{}() : SortS{} [constructor{}()]
  symbol Lblup{}(SortInt{}) : SortS{} [constructor{}()]
  axiom{} \rewrites{SortS{}}(Lblfork{}(), Lbldone{}()) [label{}("TOYS.left")]
  axiom{} \rewrites{SortS{}}(Lblfork{}(), Lblfork{}()) [label{}("TOYS.right")]
  axiom{} \rewrites{SortS{}}(Lblup{}(N:SortInt{}), Lblup{}(Lbladd{}(N:SortInt{}, \dv{SortInt{}}("1")))) [label{}("TOYS.up")]
endmodule []
"#;

/// Claims whose runs branch and pass 128 bits.
const FORKING: &str = r#"module TOYS-SPEC
  claim{} \implies{SortS{}}(Lblfork{}(), weakAlwaysFinally{SortS{}}(Lbldone{}())) [label{}("T.fork")]
  claim{} \implies{SortS{}}(Lblup{}(\dv{SortInt{}}("170141183460469231731687303715884105726")), weakAlwaysFinally{SortS{}}(Lbldone{}())) [label{}("T.wide")]
endmodule []
"#;

/// The words before the name of the file of claims.
const PROVE: [&str; 6] = ["kprove", "prove", "d.kore", "--module", "TOYS", "--claims"];

/// A definition, claims, more words, and what is told.
static ROWS: [(&str, &str, &[&str], &str); 16] = [
    // a rule's label makes no line of a report
    (
        FORGING,
        ODD,
        &["c.kore"],
        "pending T.odd node 1 foreign TOYS#1\nstatus 2: ",
    ),
    // claims pass, fail and stay pending in the order of the file
    (
        TOYS,
        CLAIMS,
        &["c.kore"],
        "passed T.two\npending T.odd node 1 foreign TOYS.odd\nfailed T.chosen node 2\npassed T.mid\nstatus 1: ",
    ),
    (
        TOYS,
        CLAIMS,
        &["c.kore", "--max-depth", "2"],
        "passed T.two\npending T.odd node 1 foreign TOYS.odd\nfailed T.chosen node 2\nfailed T.mid node 3\nstatus 1: ",
    ),
    // a claim that goes round uses its rounds
    (
        TOYS,
        SPIN,
        &["c.kore", "--max-depth", "+01"],
        "pending T.spin node 1001 rounds\nstatus 2: ",
    ),
    // what the prover can't go by yet: a run that branches, and one that passes a limit
    (
        FORK,
        FORKING,
        &["c.kore"],
        "refused T.fork code 2\nrefused T.wide code 2\nstatus 2: ",
    ),
    // the definition is read before the claims
    (
        TOYS,
        ONE_PATH,
        &["c.kore"],
        "status 4: kprove: c.kore: C1\n",
    ),
    (
        "[",
        ONE_PATH,
        &["c.kore"],
        "status 4: kprove: d.kore: text 5 at 1\n",
    ),
    (
        TOYS,
        "module",
        &["c.kore"],
        "status 4: kprove: c.kore: text 5 at 6\n",
    ),
    (
        TOYS,
        SPIN,
        &["x.kore"],
        "status 5: kprove: no file x.kore\n",
    ),
    // a number of steps is from 1 to 10000
    (
        TOYS,
        SPIN,
        &["c.kore", "--max-depth", "0"],
        "status 3: kprove: usage\n",
    ),
    (
        TOYS,
        SPIN,
        &["c.kore", "--max-depth", "10001"],
        "status 3: kprove: usage\n",
    ),
    (
        TOYS,
        SPIN,
        &["c.kore", "--max-depth", "+"],
        "status 3: kprove: usage\n",
    ),
    (
        TOYS,
        SPIN,
        &["c.kore", "--max-depth", ""],
        "status 3: kprove: usage\n",
    ),
    (
        TOYS,
        SPIN,
        &["c.kore", "--max-depth", "-1"],
        "status 3: kprove: usage\n",
    ),
    (
        TOYS,
        SPIN,
        &["c.kore", "--max-depth", "1 "],
        "status 3: kprove: usage\n",
    ),
    (
        TOYS,
        CLAIMS,
        &["c.kore", "--max-depth", "10000"],
        "passed T.two\npending T.odd node 1 foreign TOYS.odd\nfailed T.chosen node 2\nfailed T.mid node 2\nstatus 1: ",
    ),
];

#[test]
fn claims_are_told(rt: HostRuntime) -> Result<(), Fail> {
    for (definition, claims, more, wanted) in &ROWS {
        if !is_told(
            &rt,
            rt.alloc(),
            (&PROVE, more),
            (definition.as_bytes(), *claims),
            "left alone",
            wanted,
        ) {
            return Err(Fail::new(*wanted));
        }
    }
    Ok(())
}
