use crate::definitions::Asked;
use crate::replies::{Row, are_replied};
use std::test::Fail;

/// States that are refused.
static ROWS: [Row; 4] = [
    (
        "a number is beyond 128 bits",
        r#"{"id":1,"jsonrpc":"2.0","method":"execute","params":{"state":{"format":"KORE","term":{"args":[{"sort":{"args":[],"name":"SortInt","tag":"SortApp"},"tag":"DV","value":"170141183460469231731687303715884105728"}],"name":"Lblup","sorts":[],"tag":"App"},"version":1}}}"#,
        r#"{"error":{"code":2,"data":{"kind":"V5","name":"170141183460469231731687303715884105728"},"message":"Could not verify pattern"},"id":1,"jsonrpc":"2.0"}"#,
    ),
    (
        "there is no term",
        r#"{"id":1,"jsonrpc":"2.0","method":"execute","params":{"state":{"format":"KORE","term":{"patterns":[{"argSort":{"args":[],"name":"SortBool","tag":"SortApp"},"first":{"args":[{"name":"X","sort":{"args":[],"name":"SortInt","tag":"SortApp"},"tag":"EVar"},{"sort":{"args":[],"name":"SortInt","tag":"SortApp"},"tag":"DV","value":"0"}],"name":"Lblgt","sorts":[],"tag":"App"},"second":{"sort":{"args":[],"name":"SortBool","tag":"SortApp"},"tag":"DV","value":"true"},"sort":{"args":[],"name":"SortS","tag":"SortApp"},"tag":"Equals"},{"argSort":{"args":[],"name":"SortBool","tag":"SortApp"},"first":{"args":[{"name":"X","sort":{"args":[],"name":"SortInt","tag":"SortApp"},"tag":"EVar"},{"sort":{"args":[],"name":"SortInt","tag":"SortApp"},"tag":"DV","value":"5"}],"name":"Lblge","sorts":[],"tag":"App"},"second":{"sort":{"args":[],"name":"SortBool","tag":"SortApp"},"tag":"DV","value":"true"},"sort":{"args":[],"name":"SortS","tag":"SortApp"},"tag":"Equals"}],"sort":{"args":[],"name":"SortS","tag":"SortApp"},"tag":"And"},"version":1}}}"#,
        r#"{"error":{"code":2,"data":{"kind":"T2"},"message":"Could not verify pattern"},"id":1,"jsonrpc":"2.0"}"#,
    ),
    (
        "there are two terms",
        r#"{"id":1,"jsonrpc":"2.0","method":"execute","params":{"state":{"format":"KORE","term":{"patterns":[{"args":[{"name":"X","sort":{"args":[],"name":"SortInt","tag":"SortApp"},"tag":"EVar"}],"name":"Lblcount","sorts":[],"tag":"App"},{"args":[{"name":"X","sort":{"args":[],"name":"SortInt","tag":"SortApp"},"tag":"EVar"}],"name":"Lblcount","sorts":[],"tag":"App"}],"sort":{"args":[],"name":"SortS","tag":"SortApp"},"tag":"And"},"version":1}}}"#,
        r#"{"error":{"code":2,"data":{"kind":"T2"},"message":"Could not verify pattern"},"id":1,"jsonrpc":"2.0"}"#,
    ),
    (
        "a symbol is foreign",
        r#"{"id":1,"jsonrpc":"2.0","method":"execute","params":{"state":{"format":"KORE","term":{"args":[{"args":[{"name":"X","sort":{"args":[],"name":"SortInt","tag":"SortApp"},"tag":"EVar"}],"name":"Lblother","sorts":[],"tag":"App"}],"name":"Lblcount","sorts":[],"tag":"App"},"version":1}}}"#,
        r#"{"error":{"code":2,"data":{"kind":"T1","name":"Lblother"},"message":"Could not verify pattern"},"id":1,"jsonrpc":"2.0"}"#,
    ),
];

#[test]
fn states_are_refused(rt: HostRuntime) -> Result<(), Fail> {
    are_replied(&rt, rt.alloc(), Asked::Toys, &ROWS)
}
