use crate::definitions::Asked;
use crate::replies::{Row, are_replied};
use std::test::Fail;

/// Ground states.
static ROWS: [Row; 7] = [
    (
        "a run goes on until no rule fires",
        r#"{"id":1,"jsonrpc":"2.0","method":"execute","params":{"state":{"format":"KORE","term":{"args":[{"sort":{"args":[],"name":"SortInt","tag":"SortApp"},"tag":"DV","value":"2"}],"name":"Lblcount","sorts":[],"tag":"App"},"version":1}}}"#,
        r#"{"id":1,"jsonrpc":"2.0","result":{"depth":3,"reason":"stuck","state":{"term":{"format":"KORE","term":{"args":[],"name":"Lbldone","sorts":[],"tag":"App"},"version":1}}}}"#,
    ),
    (
        "a run may have no step",
        r#"{"id":1,"jsonrpc":"2.0","method":"execute","params":{"max-depth":0,"state":{"format":"KORE","term":{"args":[{"sort":{"args":[],"name":"SortInt","tag":"SortApp"},"tag":"DV","value":"2"}],"name":"Lblcount","sorts":[],"tag":"App"},"version":1}}}"#,
        r#"{"id":1,"jsonrpc":"2.0","result":{"depth":0,"reason":"depth-bound","state":{"term":{"format":"KORE","term":{"args":[{"sort":{"args":[],"name":"SortInt","tag":"SortApp"},"tag":"DV","value":"2"}],"name":"Lblcount","sorts":[],"tag":"App"},"version":1}}}}"#,
    ),
    (
        "a run has at most 10,000 steps",
        r#"{"id":1,"jsonrpc":"2.0","method":"execute","params":{"state":{"format":"KORE","term":{"args":[],"name":"Lblloop","sorts":[],"tag":"App"},"version":1}}}"#,
        r#"{"id":1,"jsonrpc":"2.0","result":{"depth":10000,"reason":"depth-bound","state":{"term":{"format":"KORE","term":{"args":[],"name":"Lblloop","sorts":[],"tag":"App"},"version":1}}}}"#,
    ),
    (
        "a larger bound is read as that many",
        r#"{"id":1,"jsonrpc":"2.0","method":"execute","params":{"max-depth":20000,"state":{"format":"KORE","term":{"args":[],"name":"Lblloop","sorts":[],"tag":"App"},"version":1}}}"#,
        r#"{"id":1,"jsonrpc":"2.0","result":{"depth":10000,"reason":"depth-bound","state":{"term":{"format":"KORE","term":{"args":[],"name":"Lblloop","sorts":[],"tag":"App"},"version":1}}}}"#,
    ),
    (
        "no rule has the state's head",
        r#"{"id":1,"jsonrpc":"2.0","method":"execute","params":{"state":{"format":"KORE","term":{"args":[],"name":"Lbllone","sorts":[],"tag":"App"},"version":1}}}"#,
        r#"{"id":1,"jsonrpc":"2.0","result":{"depth":0,"reason":"stuck","state":{"term":{"format":"KORE","term":{"args":[],"name":"Lbllone","sorts":[],"tag":"App"},"version":1}}}}"#,
    ),
    (
        "a rule with a foreign symbol may rewrite the state",
        r#"{"id":1,"jsonrpc":"2.0","method":"execute","params":{"state":{"format":"KORE","term":{"args":[{"sort":{"args":[],"name":"SortInt","tag":"SortApp"},"tag":"DV","value":"1"}],"name":"Lblodd","sorts":[],"tag":"App"},"version":1}}}"#,
        r#"{"id":1,"jsonrpc":"2.0","result":{"depth":0,"foreign-rule":"TOYS.odd","reason":"aborted","state":{"term":{"format":"KORE","term":{"args":[{"sort":{"args":[],"name":"SortInt","tag":"SortApp"},"tag":"DV","value":"1"}],"name":"Lblodd","sorts":[],"tag":"App"},"version":1}}}}"#,
    ),
    (
        "a sum is beyond 128 bits",
        r#"{"id":1,"jsonrpc":"2.0","method":"execute","params":{"state":{"format":"KORE","term":{"args":[{"sort":{"args":[],"name":"SortInt","tag":"SortApp"},"tag":"DV","value":"170141183460469231731687303715884105727"}],"name":"Lblup","sorts":[],"tag":"App"},"version":1}}}"#,
        r#"{"id":1,"jsonrpc":"2.0","result":{"depth":0,"limit":{"first":"170141183460469231731687303715884105727","name":"number","second":"1","symbol":"Lbladd"},"reason":"aborted","state":{"term":{"format":"KORE","term":{"args":[{"sort":{"args":[],"name":"SortInt","tag":"SortApp"},"tag":"DV","value":"170141183460469231731687303715884105727"}],"name":"Lblup","sorts":[],"tag":"App"},"version":1}}}}"#,
    ),
];

#[test]
fn ground_states_are_executed(rt: HostRuntime) -> Result<(), Fail> {
    are_replied(&rt, rt.alloc(), Asked::Toys, &ROWS)
}
