use crate::definitions::Asked;
use crate::replies::{Row, are_replied};
use std::test::Fail;

/// Foreign rules whose left sides have one name at two sorts that share values.
static ROWS: [Row; 5] = [
    (
        "two variables at a sort and at one above it",
        r#"{"id":1,"jsonrpc":"2.0","method":"execute","params":{"state":{"format":"KORE","term":{"args":[{"name":"X","sort":{"args":[],"name":"SortId","tag":"SortApp"},"tag":"EVar"},{"name":"Y","sort":{"args":[],"name":"SortName","tag":"SortApp"},"tag":"EVar"}],"name":"Lblg","sorts":[],"tag":"App"},"version":1}}}"#,
        r#"{"id":1,"jsonrpc":"2.0","result":{"depth":0,"foreign-rule":"below","reason":"aborted","state":{"term":{"format":"KORE","term":{"args":[{"name":"X","sort":{"args":[],"name":"SortId","tag":"SortApp"},"tag":"EVar"},{"name":"Y","sort":{"args":[],"name":"SortName","tag":"SortApp"},"tag":"EVar"}],"name":"Lblg","sorts":[],"tag":"App"},"version":1}}}}"#,
    ),
    (
        "a variable beside another literal",
        r#"{"id":1,"jsonrpc":"2.0","method":"execute","params":{"state":{"format":"KORE","term":{"args":[{"name":"X","sort":{"args":[],"name":"SortId","tag":"SortApp"},"tag":"EVar"},{"sort":{"args":[],"name":"SortName","tag":"SortApp"},"tag":"DV","value":"b"}],"name":"Lblg","sorts":[],"tag":"App"},"version":1}}}"#,
        r#"{"id":1,"jsonrpc":"2.0","result":{"depth":1,"reason":"stuck","state":{"term":{"format":"KORE","term":{"args":[],"name":"Lbldone","sorts":[],"tag":"App"},"version":1}}}}"#,
    ),
    (
        "a literal beside a variable of the sort above",
        r#"{"id":1,"jsonrpc":"2.0","method":"execute","params":{"state":{"format":"KORE","term":{"args":[{"sort":{"args":[],"name":"SortId","tag":"SortApp"},"tag":"DV","value":"a"},{"name":"Y","sort":{"args":[],"name":"SortName","tag":"SortApp"},"tag":"EVar"}],"name":"Lblg","sorts":[],"tag":"App"},"version":1}}}"#,
        r#"{"id":1,"jsonrpc":"2.0","result":{"depth":0,"foreign-rule":"below","reason":"aborted","state":{"term":{"format":"KORE","term":{"args":[{"sort":{"args":[],"name":"SortId","tag":"SortApp"},"tag":"DV","value":"a"},{"name":"Y","sort":{"args":[],"name":"SortName","tag":"SortApp"},"tag":"EVar"}],"name":"Lblg","sorts":[],"tag":"App"},"version":1}}}}"#,
    ),
    (
        "two variables at sorts above one sort",
        r#"{"id":1,"jsonrpc":"2.0","method":"execute","params":{"state":{"format":"KORE","term":{"args":[{"name":"Y","sort":{"args":[],"name":"SortName","tag":"SortApp"},"tag":"EVar"},{"name":"Z","sort":{"args":[],"name":"SortTag","tag":"SortApp"},"tag":"EVar"}],"name":"Lblh","sorts":[],"tag":"App"},"version":1}}}"#,
        r#"{"id":1,"jsonrpc":"2.0","result":{"depth":0,"foreign-rule":"beside","reason":"aborted","state":{"term":{"format":"KORE","term":{"args":[{"name":"Y","sort":{"args":[],"name":"SortName","tag":"SortApp"},"tag":"EVar"},{"name":"Z","sort":{"args":[],"name":"SortTag","tag":"SortApp"},"tag":"EVar"}],"name":"Lblh","sorts":[],"tag":"App"},"version":1}}}}"#,
    ),
    (
        "a literal of one of the sorts alone",
        r#"{"id":1,"jsonrpc":"2.0","method":"execute","params":{"state":{"format":"KORE","term":{"args":[{"sort":{"args":[],"name":"SortName","tag":"SortApp"},"tag":"DV","value":"b"},{"name":"Z","sort":{"args":[],"name":"SortTag","tag":"SortApp"},"tag":"EVar"}],"name":"Lblh","sorts":[],"tag":"App"},"version":1}}}"#,
        r#"{"id":1,"jsonrpc":"2.0","result":{"depth":1,"reason":"stuck","state":{"term":{"format":"KORE","term":{"args":[],"name":"Lbldone","sorts":[],"tag":"App"},"version":1}}}}"#,
    ),
];

#[test]
fn a_name_at_two_sorts_stands_for_what_they_share(rt: HostRuntime) -> Result<(), Fail> {
    are_replied(&rt, rt.alloc(), Asked::Twice, &ROWS)
}
