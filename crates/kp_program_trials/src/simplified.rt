use crate::definitions::Asked;
use crate::replies::{Row, are_replied};
use std::test::Fail;

/// States that are simplified, left undecided or refused.
static ROWS: [Row; 16] = [
    (
        "an expression of a variable and numbers",
        r#"{"jsonrpc":"2.0","id":1,"method":"simplify","params":{"state":{"format":"KORE","version":1,"term":{"args":[{"args":[{"args":[{"name":"X","sort":{"args":[],"name":"SortInt","tag":"SortApp"},"tag":"EVar"},{"sort":{"args":[],"name":"SortInt","tag":"SortApp"},"tag":"DV","value":"3"}],"name":"Lbladd","sorts":[],"tag":"App"},{"sort":{"args":[],"name":"SortInt","tag":"SortApp"},"tag":"DV","value":"1"}],"name":"Lblsub","sorts":[],"tag":"App"}],"name":"Lblcount","sorts":[],"tag":"App"}}}}"#,
        r#"{"id":1,"jsonrpc":"2.0","result":{"state":{"format":"KORE","term":{"args":[{"args":[{"name":"X","sort":{"args":[],"name":"SortInt","tag":"SortApp"},"tag":"EVar"},{"sort":{"args":[],"name":"SortInt","tag":"SortApp"},"tag":"DV","value":"2"}],"name":"Lbladd","sorts":[],"tag":"App"}],"name":"Lblcount","sorts":[],"tag":"App"},"version":1}}}"#,
    ),
    (
        "no number is more than 0 and less than 1",
        r#"{"jsonrpc":"2.0","id":1,"method":"simplify","params":{"state":{"format":"KORE","version":1,"term":{"patterns":[{"args":[{"name":"X","sort":{"args":[],"name":"SortInt","tag":"SortApp"},"tag":"EVar"}],"name":"Lblcount","sorts":[],"tag":"App"},{"argSort":{"args":[],"name":"SortBool","tag":"SortApp"},"first":{"args":[{"name":"X","sort":{"args":[],"name":"SortInt","tag":"SortApp"},"tag":"EVar"},{"sort":{"args":[],"name":"SortInt","tag":"SortApp"},"tag":"DV","value":"0"}],"name":"Lblgt","sorts":[],"tag":"App"},"second":{"sort":{"args":[],"name":"SortBool","tag":"SortApp"},"tag":"DV","value":"true"},"sort":{"args":[],"name":"SortS","tag":"SortApp"},"tag":"Equals"},{"argSort":{"args":[],"name":"SortBool","tag":"SortApp"},"first":{"args":[{"name":"X","sort":{"args":[],"name":"SortInt","tag":"SortApp"},"tag":"EVar"},{"sort":{"args":[],"name":"SortInt","tag":"SortApp"},"tag":"DV","value":"1"}],"name":"Lbllt","sorts":[],"tag":"App"},"second":{"sort":{"args":[],"name":"SortBool","tag":"SortApp"},"tag":"DV","value":"true"},"sort":{"args":[],"name":"SortS","tag":"SortApp"},"tag":"Equals"}],"sort":{"args":[],"name":"SortS","tag":"SortApp"},"tag":"And"}}}}"#,
        r#"{"id":1,"jsonrpc":"2.0","result":{"state":{"format":"KORE","term":{"sort":{"args":[],"name":"SortS","tag":"SortApp"},"tag":"Bottom"},"version":1}}}"#,
    ),
    (
        "the same beside what isn't decided",
        r#"{"jsonrpc":"2.0","id":1,"method":"simplify","params":{"state":{"format":"KORE","version":1,"term":{"patterns":[{"args":[],"name":"Lbldone","sorts":[],"tag":"App"},{"argSort":{"args":[],"name":"SortBool","tag":"SortApp"},"first":{"args":[{"args":[{"name":"X","sort":{"args":[],"name":"SortInt","tag":"SortApp"},"tag":"EVar"},{"name":"X","sort":{"args":[],"name":"SortInt","tag":"SortApp"},"tag":"EVar"}],"name":"Lblmul","sorts":[],"tag":"App"},{"sort":{"args":[],"name":"SortInt","tag":"SortApp"},"tag":"DV","value":"0"}],"name":"Lbllt","sorts":[],"tag":"App"},"second":{"sort":{"args":[],"name":"SortBool","tag":"SortApp"},"tag":"DV","value":"true"},"sort":{"args":[],"name":"SortS","tag":"SortApp"},"tag":"Equals"},{"argSort":{"args":[],"name":"SortBool","tag":"SortApp"},"first":{"args":[{"name":"X","sort":{"args":[],"name":"SortInt","tag":"SortApp"},"tag":"EVar"},{"sort":{"args":[],"name":"SortInt","tag":"SortApp"},"tag":"DV","value":"0"}],"name":"Lblgt","sorts":[],"tag":"App"},"second":{"sort":{"args":[],"name":"SortBool","tag":"SortApp"},"tag":"DV","value":"true"},"sort":{"args":[],"name":"SortS","tag":"SortApp"},"tag":"Equals"},{"argSort":{"args":[],"name":"SortBool","tag":"SortApp"},"first":{"args":[{"name":"X","sort":{"args":[],"name":"SortInt","tag":"SortApp"},"tag":"EVar"},{"sort":{"args":[],"name":"SortInt","tag":"SortApp"},"tag":"DV","value":"1"}],"name":"Lbllt","sorts":[],"tag":"App"},"second":{"sort":{"args":[],"name":"SortBool","tag":"SortApp"},"tag":"DV","value":"true"},"sort":{"args":[],"name":"SortS","tag":"SortApp"},"tag":"Equals"}],"sort":{"args":[],"name":"SortS","tag":"SortApp"},"tag":"And"}}}}"#,
        r#"{"id":1,"jsonrpc":"2.0","result":{"state":{"format":"KORE","term":{"sort":{"args":[],"name":"SortS","tag":"SortApp"},"tag":"Bottom"},"version":1}}}"#,
    ),
    (
        "a number first",
        r#"{"jsonrpc":"2.0","id":1,"method":"simplify","params":{"state":{"format":"KORE","version":1,"term":{"patterns":[{"args":[{"name":"X","sort":{"args":[],"name":"SortInt","tag":"SortApp"},"tag":"EVar"}],"name":"Lblcount","sorts":[],"tag":"App"},{"argSort":{"args":[],"name":"SortInt","tag":"SortApp"},"first":{"sort":{"args":[],"name":"SortInt","tag":"SortApp"},"tag":"DV","value":"3"},"second":{"name":"X","sort":{"args":[],"name":"SortInt","tag":"SortApp"},"tag":"EVar"},"sort":{"args":[],"name":"SortS","tag":"SortApp"},"tag":"Equals"}],"sort":{"args":[],"name":"SortS","tag":"SortApp"},"tag":"And"}}}}"#,
        r#"{"id":1,"jsonrpc":"2.0","result":{"state":{"format":"KORE","term":{"patterns":[{"args":[{"sort":{"args":[],"name":"SortInt","tag":"SortApp"},"tag":"DV","value":"3"}],"name":"Lblcount","sorts":[],"tag":"App"},{"argSort":{"args":[],"name":"SortInt","tag":"SortApp"},"first":{"name":"X","sort":{"args":[],"name":"SortInt","tag":"SortApp"},"tag":"EVar"},"second":{"sort":{"args":[],"name":"SortInt","tag":"SortApp"},"tag":"DV","value":"3"},"sort":{"args":[],"name":"SortS","tag":"SortApp"},"tag":"Equals"}],"sort":{"args":[],"name":"SortS","tag":"SortApp"},"tag":"And"},"version":1}}}"#,
    ),
    (
        "a ground call",
        r#"{"jsonrpc":"2.0","id":1,"method":"simplify","params":{"state":{"format":"KORE","version":1,"term":{"args":[{"args":[{"sort":{"args":[],"name":"SortInt","tag":"SortApp"},"tag":"DV","value":"1"},{"sort":{"args":[],"name":"SortInt","tag":"SortApp"},"tag":"DV","value":"2"}],"name":"Lbladd","sorts":[],"tag":"App"}],"name":"Lblcount","sorts":[],"tag":"App"}}}}"#,
        r#"{"id":1,"jsonrpc":"2.0","result":{"state":{"format":"KORE","term":{"args":[{"sort":{"args":[],"name":"SortInt","tag":"SortApp"},"tag":"DV","value":"3"}],"name":"Lblcount","sorts":[],"tag":"App"},"version":1}}}"#,
    ),
    (
        "a member that is true",
        r#"{"jsonrpc":"2.0","id":1,"method":"simplify","params":{"state":{"format":"KORE","version":1,"term":{"patterns":[{"args":[],"name":"Lbldone","sorts":[],"tag":"App"},{"sort":{"args":[],"name":"SortS","tag":"SortApp"},"tag":"Top"}],"sort":{"args":[],"name":"SortS","tag":"SortApp"},"tag":"And"}}}}"#,
        r#"{"id":1,"jsonrpc":"2.0","result":{"state":{"format":"KORE","term":{"args":[],"name":"Lbldone","sorts":[],"tag":"App"},"version":1}}}"#,
    ),
    (
        "a member that is false",
        r#"{"jsonrpc":"2.0","id":1,"method":"simplify","params":{"state":{"format":"KORE","version":1,"term":{"patterns":[{"args":[],"name":"Lbldone","sorts":[],"tag":"App"},{"sort":{"args":[],"name":"SortS","tag":"SortApp"},"tag":"Bottom"}],"sort":{"args":[],"name":"SortS","tag":"SortApp"},"tag":"And"}}}}"#,
        r#"{"id":1,"jsonrpc":"2.0","result":{"state":{"format":"KORE","term":{"sort":{"args":[],"name":"SortS","tag":"SortApp"},"tag":"Bottom"},"version":1}}}"#,
    ),
    (
        "no constructor of that name",
        r#"{"jsonrpc":"2.0","id":1,"method":"simplify","params":{"state":{"format":"KORE","version":1,"term":{"patterns":[{"args":[{"name":"P","sort":{"args":[],"name":"SortP","tag":"SortApp"},"tag":"EVar"}],"name":"Lblpick","sorts":[],"tag":"App"},{"arg":{"argSort":{"args":[],"name":"SortP","tag":"SortApp"},"first":{"name":"P","sort":{"args":[],"name":"SortP","tag":"SortApp"},"tag":"EVar"},"second":{"args":[],"name":"Lblpa","sorts":[],"tag":"App"},"sort":{"args":[],"name":"SortS","tag":"SortApp"},"tag":"Equals"},"sort":{"args":[],"name":"SortS","tag":"SortApp"},"tag":"Not"}],"sort":{"args":[],"name":"SortS","tag":"SortApp"},"tag":"And"}}}}"#,
        r#"{"id":1,"jsonrpc":"2.0","result":{"state":{"format":"KORE","term":{"patterns":[{"args":[{"name":"P","sort":{"args":[],"name":"SortP","tag":"SortApp"},"tag":"EVar"}],"name":"Lblpick","sorts":[],"tag":"App"},{"arg":{"argSort":{"args":[],"name":"SortP","tag":"SortApp"},"first":{"name":"P","sort":{"args":[],"name":"SortP","tag":"SortApp"},"tag":"EVar"},"second":{"args":[],"name":"Lblpa","sorts":[],"tag":"App"},"sort":{"args":[],"name":"SortS","tag":"SortApp"},"tag":"Equals"},"sort":{"args":[],"name":"SortS","tag":"SortApp"},"tag":"Not"}],"sort":{"args":[],"name":"SortS","tag":"SortApp"},"tag":"And"},"version":1}}}"#,
    ),
    (
        "what isn't decided",
        r#"{"jsonrpc":"2.0","id":1,"method":"simplify","params":{"state":{"format":"KORE","version":1,"term":{"patterns":[{"args":[],"name":"Lbldone","sorts":[],"tag":"App"},{"argSort":{"args":[],"name":"SortBool","tag":"SortApp"},"first":{"args":[{"args":[{"name":"X","sort":{"args":[],"name":"SortInt","tag":"SortApp"},"tag":"EVar"},{"name":"X","sort":{"args":[],"name":"SortInt","tag":"SortApp"},"tag":"EVar"}],"name":"Lblmul","sorts":[],"tag":"App"},{"sort":{"args":[],"name":"SortInt","tag":"SortApp"},"tag":"DV","value":"0"}],"name":"Lbllt","sorts":[],"tag":"App"},"second":{"sort":{"args":[],"name":"SortBool","tag":"SortApp"},"tag":"DV","value":"true"},"sort":{"args":[],"name":"SortS","tag":"SortApp"},"tag":"Equals"}],"sort":{"args":[],"name":"SortS","tag":"SortApp"},"tag":"And"}}}}"#,
        r#"{"error":{"code":5,"data":{"unknown-predicate":{"format":"KORE","term":{"argSort":{"args":[],"name":"SortBool","tag":"SortApp"},"first":{"args":[{"args":[{"name":"X","sort":{"args":[],"name":"SortInt","tag":"SortApp"},"tag":"EVar"},{"name":"X","sort":{"args":[],"name":"SortInt","tag":"SortApp"},"tag":"EVar"}],"name":"Lblmul","sorts":[],"tag":"App"},{"sort":{"args":[],"name":"SortInt","tag":"SortApp"},"tag":"DV","value":"0"}],"name":"Lbllt","sorts":[],"tag":"App"},"second":{"sort":{"args":[],"name":"SortBool","tag":"SortApp"},"tag":"DV","value":"true"},"sort":{"args":[],"name":"SortS","tag":"SortApp"},"tag":"Equals"},"version":1}},"message":"Undecided"},"id":1,"jsonrpc":"2.0"}"#,
    ),
    (
        "a constant of 127 bits",
        r#"{"jsonrpc":"2.0","id":1,"method":"simplify","params":{"state":{"format":"KORE","version":1,"term":{"patterns":[{"args":[{"name":"X","sort":{"args":[],"name":"SortInt","tag":"SortApp"},"tag":"EVar"}],"name":"Lblcount","sorts":[],"tag":"App"},{"argSort":{"args":[],"name":"SortBool","tag":"SortApp"},"first":{"args":[{"name":"X","sort":{"args":[],"name":"SortInt","tag":"SortApp"},"tag":"EVar"},{"sort":{"args":[],"name":"SortInt","tag":"SortApp"},"tag":"DV","value":"85070591730234615865843651857942052864"}],"name":"Lblle","sorts":[],"tag":"App"},"second":{"sort":{"args":[],"name":"SortBool","tag":"SortApp"},"tag":"DV","value":"true"},"sort":{"args":[],"name":"SortS","tag":"SortApp"},"tag":"Equals"}],"sort":{"args":[],"name":"SortS","tag":"SortApp"},"tag":"And"}}}}"#,
        r#"{"error":{"code":5,"data":{"limit":{"name":"bits","number":128},"unknown-predicate":{"format":"KORE","term":{"argSort":{"args":[],"name":"SortBool","tag":"SortApp"},"first":{"args":[{"name":"X","sort":{"args":[],"name":"SortInt","tag":"SortApp"},"tag":"EVar"},{"sort":{"args":[],"name":"SortInt","tag":"SortApp"},"tag":"DV","value":"85070591730234615865843651857942052864"}],"name":"Lblle","sorts":[],"tag":"App"},"second":{"sort":{"args":[],"name":"SortBool","tag":"SortApp"},"tag":"DV","value":"true"},"sort":{"args":[],"name":"SortS","tag":"SortApp"},"tag":"Equals"},"version":1}},"message":"Undecided"},"id":1,"jsonrpc":"2.0"}"#,
    ),
    (
        "a sum beyond 128 bits",
        r#"{"jsonrpc":"2.0","id":1,"method":"simplify","params":{"state":{"format":"KORE","version":1,"term":{"args":[{"args":[{"sort":{"args":[],"name":"SortInt","tag":"SortApp"},"tag":"DV","value":"170141183460469231731687303715884105727"},{"sort":{"args":[],"name":"SortInt","tag":"SortApp"},"tag":"DV","value":"1"}],"name":"Lbladd","sorts":[],"tag":"App"}],"name":"Lblcount","sorts":[],"tag":"App"}}}}"#,
        r#"{"error":{"code":5,"data":{"limit":{"first":"170141183460469231731687303715884105727","name":"number","second":"1","symbol":"Lbladd"}},"message":"Undecided"},"id":1,"jsonrpc":"2.0"}"#,
    ),
    (
        "no term",
        r#"{"jsonrpc":"2.0","id":1,"method":"simplify","params":{"state":{"format":"KORE","version":1,"term":{"sort":{"args":[],"name":"SortS","tag":"SortApp"},"tag":"Top"}}}}"#,
        r#"{"error":{"code":2,"data":{"kind":"T2"},"message":"Could not verify pattern"},"id":1,"jsonrpc":"2.0"}"#,
    ),
    (
        "two terms",
        r#"{"jsonrpc":"2.0","id":1,"method":"simplify","params":{"state":{"format":"KORE","version":1,"term":{"patterns":[{"args":[],"name":"Lbldone","sorts":[],"tag":"App"},{"args":[],"name":"Lbldone","sorts":[],"tag":"App"}],"sort":{"args":[],"name":"SortS","tag":"SortApp"},"tag":"And"}}}}"#,
        r#"{"error":{"code":2,"data":{"kind":"T2"},"message":"Could not verify pattern"},"id":1,"jsonrpc":"2.0"}"#,
    ),
    (
        "a foreign symbol",
        r#"{"jsonrpc":"2.0","id":1,"method":"simplify","params":{"state":{"format":"KORE","version":1,"term":{"args":[{"args":[{"sort":{"args":[],"name":"SortInt","tag":"SortApp"},"tag":"DV","value":"1"}],"name":"Lblother","sorts":[],"tag":"App"}],"name":"Lblcount","sorts":[],"tag":"App"}}}}"#,
        r#"{"error":{"code":2,"data":{"kind":"T1","name":"Lblother"},"message":"Could not verify pattern"},"id":1,"jsonrpc":"2.0"}"#,
    ),
    (
        "a symbol that isn't declared",
        r#"{"jsonrpc":"2.0","id":1,"method":"simplify","params":{"state":{"format":"KORE","version":1,"term":{"args":[],"name":"Lblnope","sorts":[],"tag":"App"}}}}"#,
        r#"{"error":{"code":2,"data":{"kind":"V2","name":"Lblnope"},"message":"Could not verify pattern"},"id":1,"jsonrpc":"2.0"}"#,
    ),
    (
        "no tag of Kore JSON",
        r#"{"jsonrpc":"2.0","id":1,"method":"simplify","params":{"state":{"format":"KORE","version":1,"term":{"tag":"Nope"}}}}"#,
        r#"{"error":{"code":1,"data":{"kind":"J1","name":"Nope"},"message":"Could not parse pattern"},"id":1,"jsonrpc":"2.0"}"#,
    ),
];

#[test]
fn states_are_simplified_or_refused(rt: HostRuntime) -> Result<(), Fail> {
    are_replied(&rt, rt.alloc(), Asked::Numbers, &ROWS)
}
