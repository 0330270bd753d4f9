use crate::definitions::Asked;
use crate::replies::{Row, are_replied};
use std::test::Fail;

/// A rule whose left term is a variable alone.
static ROWS: [Row; 1] = [(
    "two sorts share values, and no sort has just those",
    r#"{"id":1,"jsonrpc":"2.0","method":"execute","params":{"state":{"format":"KORE","term":{"name":"X","sort":{"args":[],"name":"SortP","tag":"SortApp"},"tag":"EVar"},"version":1}}}"#,
    r#"{"id":1,"jsonrpc":"2.0","result":{"depth":0,"foreign-rule":"LONE.q","reason":"aborted","state":{"term":{"format":"KORE","term":{"name":"X","sort":{"args":[],"name":"SortP","tag":"SortApp"},"tag":"EVar"},"version":1}}}}"#,
)];

#[test]
fn a_variable_alone_wants_a_meet_of_sorts(rt: HostRuntime) -> Result<(), Fail> {
    are_replied(&rt, rt.alloc(), Asked::Lone, &ROWS)
}
