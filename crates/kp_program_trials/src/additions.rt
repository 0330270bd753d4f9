use crate::definitions::Asked as Definition;
use crate::replies::is_replied;
use crate::running::joined;
use std::alloc::{AllocError, Global};
use std::sync::Wait;
use std::test::Fail;

/// A module with a rule, as its text stands in a request.
const NEXT: &str =
    r#"module NEXT axiom{} \\rewrites{SortS{}}(LblTwo{}(), LblOne{}()) [] endmodule []"#;

/// The reply where it is added.
const NEXT_LINE: &str =
    r#"{"id":1,"jsonrpc":"2.0","result":{"module":"m728b6759c673735e493062e115c41fa7cdc7c758891238229e67340596bebc4b"}}"#;

/// Another text of that module.
const SPACED: &str =
    r#"module NEXT  axiom{} \\rewrites{SortS{}}(LblTwo{}(), LblOne{}()) [] endmodule []"#;

/// A text of a module as it stands in a request, and whether the module's own name is to be bound.
type Asked = (&'static str, bool);

/// What is said of a row, the modules that are added, the replies, and the number of the next entry.
pub(crate) type Row = (
    &'static str,
    &'static [Asked],
    &'static [&'static str],
    &'static str,
);

/// The request to add a module, up to its text, and behind it with and without the module's own name.
const ADD: (&str, &str, &str) = (
    r#"{"jsonrpc":"2.0","id":1,"method":"add-module","params":{"module":""#,
    r#"","name-as-id":true}}"#,
    r#""}}"#,
);

/// Two texts of one name: the second one's refusal tells the number of the first one's entry.
const PROBES: [Asked; 2] = [
    ("module PROBE endmodule []", true),
    ("module PROBE  endmodule []", true),
];

/// The replies to them, up to that number and behind it.
const PROBED: (&str, &str) = (
    r#"{"id":1,"jsonrpc":"2.0","result":{"module":"m44b10ae7931dcaa555042067ab5a1d51fb56806766106b20b352a62ed5d5a6b9"}}
{"error":{"code":9,"data":{"entry":"#,
    r#","name":"PROBE"},"message":"Duplicate module"},"id":1,"jsonrpc":"2.0"}"#,
);

/// Adds the requests to add modules to a text.
fn ask(text: &mut String, all: &[Asked]) -> Result<(), AllocError> {
    let (front, named, unnamed) = ADD;
    for (module, also_name) in all {
        text.push_str(front)?;
        text.push_str(*module)?;
        text.push_str(if *also_name { named } else { unnamed })?;
    }
    Ok(())
}

/// The requests to add modules, and the probes behind them.
fn asked(alloc: Global, all: &[Asked]) -> Result<String, AllocError> {
    let mut text = String::new(alloc);
    ask(&mut text, all)?;
    ask(&mut text, &PROBES)?;
    Ok(text)
}

/// The replies, and those to the probes where the next entry has this number.
fn replied(alloc: Global, replies: &[&str], next: &str) -> Result<String, AllocError> {
    let mut text = String::new(alloc);
    for reply in replies {
        text.push_str(*reply)?;
        text.push_str("\n")?;
    }
    let (front, behind) = PROBED;
    text.push_str(front)?;
    text.push_str(next)?;
    text.push_str(behind)?;
    Ok(text)
}

/// Whether the modules of a row get its replies, and its number is that of the next entry.
fn is_row<R: Wait>(rt: &R, alloc: Global, row: &Row) -> Result<bool, AllocError> {
    let (_said, all, replies, next) = *row;
    let input = asked(alloc, all)?;
    let lines = replied(alloc, replies, next)?;
    Ok(is_replied(rt, alloc, Definition::Small, &input, &lines))
}

/// Refuses the first row of which something else is told.
pub(crate) fn are_added<R: Wait>(rt: &R, alloc: Global, rows: &[Row]) -> Result<(), Fail> {
    for row in rows {
        match is_row(rt, alloc, row) {
            Ok(true) => {}
            _ => return Err(Fail::new(row.0)),
        }
    }
    Ok(())
}

/// Texts that are refused by an empty book.
static FIRST: [Row; 10] = [
    (
        "a text that breaks off",
        &[("module X", false)],
        &[
            r#"{"error":{"code":8,"data":{"at":8,"kind":"text","number":5},"message":"Invalid module"},"id":1,"jsonrpc":"2.0"}"#,
        ],
        "1",
    ),
    (
        "a byte that begins no token",
        &[("module X import NOPE [] !", false)],
        &[
            r#"{"error":{"code":8,"data":{"at":24,"kind":"text","number":1},"message":"Invalid module"},"id":1,"jsonrpc":"2.0"}"#,
        ],
        "1",
    ),
    (
        "an unknown import",
        &[("module E2 import NOPE [] endmodule []", false)],
        &[
            r#"{"error":{"code":8,"data":{"kind":"M1","name":"NOPE"},"message":"Invalid module"},"id":1,"jsonrpc":"2.0"}"#,
        ],
        "1",
    ),
    (
        "the first of two unknown imports",
        &[(
            "module X import TOYS [] import NOPE [] import NONE [] endmodule []",
            false,
        )],
        &[
            r#"{"error":{"code":8,"data":{"kind":"M1","name":"NOPE"},"message":"Invalid module"},"id":1,"jsonrpc":"2.0"}"#,
        ],
        "1",
    ),
    (
        "a faulty rule",
        &[(
            r#"module X axiom{} \\top{SortS{}}() [] axiom{} \\rewrites{SortS{}}(LblOne{}(), LblNone{}()) [] endmodule []"#,
            false,
        )],
        &[
            r#"{"error":{"code":8,"data":{"axiom":2,"kind":"M6"},"message":"Invalid module"},"id":1,"jsonrpc":"2.0"}"#,
        ],
        "1",
    ),
    (
        "a declaration",
        &[("module E3 sort SortZ{} [] endmodule []", false)],
        &[
            r#"{"error":{"code":8,"data":{"kind":"M7","sentence":1},"message":"Invalid module"},"id":1,"jsonrpc":"2.0"}"#,
        ],
        "1",
    ),
    (
        "main's own name",
        &[("module TOYS endmodule []", true)],
        &[
            r#"{"error":{"code":9,"data":{"entry":0,"name":"TOYS"},"message":"Duplicate module"},"id":1,"jsonrpc":"2.0"}"#,
        ],
        "1",
    ),
    (
        "an unknown import before a faulty rule and a declaration",
        &[(
            r#"module X sort SortZ{} [] axiom{} \\rewrites{SortS{}}(LblOne{}(), LblNone{}()) [] import NOPE [] endmodule []"#,
            false,
        )],
        &[
            r#"{"error":{"code":8,"data":{"kind":"M1","name":"NOPE"},"message":"Invalid module"},"id":1,"jsonrpc":"2.0"}"#,
        ],
        "1",
    ),
    (
        "a faulty rule before a declaration",
        &[(
            r#"module X sort SortZ{} [] axiom{} \\rewrites{SortS{}}(LblOne{}(), LblNone{}()) [] endmodule []"#,
            false,
        )],
        &[
            r#"{"error":{"code":8,"data":{"axiom":1,"kind":"M6"},"message":"Invalid module"},"id":1,"jsonrpc":"2.0"}"#,
        ],
        "1",
    ),
    (
        "its own import isn't itself",
        &[("module A import A [] endmodule []", true)],
        &[
            r#"{"error":{"code":8,"data":{"kind":"M1","name":"A"},"message":"Invalid module"},"id":1,"jsonrpc":"2.0"}"#,
        ],
        "1",
    ),
];

#[test]
fn texts_are_refused(rt: HostRuntime) -> Result<(), Fail> {
    are_added(&rt, rt.alloc(), &FIRST)
}

/// Texts that are refused or added behind `NEXT`, with its own name or without it.
static SECOND: [Row; 14] = [
    (
        "a bound name with its text once more",
        &[(NEXT, true), (NEXT, true)],
        &[NEXT_LINE, NEXT_LINE],
        "3",
    ),
    (
        "the text once more without the name",
        &[(NEXT, true), (NEXT, false)],
        &[NEXT_LINE, NEXT_LINE],
        "3",
    ),
    (
        "another text of a bound name",
        &[(NEXT, true), (SPACED, true)],
        &[
            NEXT_LINE,
            r#"{"error":{"code":9,"data":{"entry":1,"name":"NEXT"},"message":"Duplicate module"},"id":1,"jsonrpc":"2.0"}"#,
        ],
        "2",
    ),
    (
        "another text without the name",
        &[(NEXT, true), (SPACED, false)],
        &[
            NEXT_LINE,
            r#"{"id":1,"jsonrpc":"2.0","result":{"module":"me6e03f04bfd11ba9c54b9c9f5c4897e9e7fa9e7dda97d5cd554ca85dd1650423"}}"#,
        ],
        "3",
    ),
    (
        "an import by name",
        &[(NEXT, true), ("module A import NEXT [] endmodule []", true)],
        &[
            NEXT_LINE,
            r#"{"id":1,"jsonrpc":"2.0","result":{"module":"m498f6235699ac07649a59ca02d16be52c44ed7c202ed886700fde2adf9c41919"}}"#,
        ],
        "3",
    ),
    (
        "an unknown import before a duplicate",
        &[
            (NEXT, true),
            ("module NEXT import NOPE [] endmodule []", true),
        ],
        &[
            NEXT_LINE,
            r#"{"error":{"code":8,"data":{"kind":"M1","name":"NOPE"},"message":"Invalid module"},"id":1,"jsonrpc":"2.0"}"#,
        ],
        "2",
    ),
    (
        "a faulty rule before a duplicate",
        &[
            (NEXT, true),
            (
                r#"module NEXT axiom{} \\rewrites{SortS{}}(LblOne{}(), LblNone{}()) [] endmodule []"#,
                true,
            ),
        ],
        &[
            NEXT_LINE,
            r#"{"error":{"code":8,"data":{"axiom":1,"kind":"M6"},"message":"Invalid module"},"id":1,"jsonrpc":"2.0"}"#,
        ],
        "2",
    ),
    (
        "a declaration before a duplicate",
        &[
            (NEXT, true),
            ("module NEXT sort SortZ{} [] endmodule []", true),
        ],
        &[
            NEXT_LINE,
            r#"{"error":{"code":8,"data":{"kind":"M7","sentence":1},"message":"Invalid module"},"id":1,"jsonrpc":"2.0"}"#,
        ],
        "2",
    ),
    (
        "a name that isn't bound is no import",
        &[
            (NEXT, false),
            ("module A import NEXT [] endmodule []", false),
        ],
        &[
            NEXT_LINE,
            r#"{"error":{"code":8,"data":{"kind":"M1","name":"NEXT"},"message":"Invalid module"},"id":1,"jsonrpc":"2.0"}"#,
        ],
        "2",
    ),
    (
        "an import by id",
        &[
            (NEXT, false),
            (
                "module A import m728b6759c673735e493062e115c41fa7cdc7c758891238229e67340596bebc4b [] endmodule []",
                false,
            ),
        ],
        &[
            NEXT_LINE,
            r#"{"id":1,"jsonrpc":"2.0","result":{"module":"ma85ffaa67cc2a51d46c6b837352b249ec234f76563f82dbe774b450c40fa170b"}}"#,
        ],
        "3",
    ),
    (
        "a text, and its name later",
        &[(NEXT, false), (NEXT, true)],
        &[NEXT_LINE, NEXT_LINE],
        "3",
    ),
    (
        "a name that isn't bound is free for another text",
        &[(NEXT, false), (SPACED, true)],
        &[
            NEXT_LINE,
            r#"{"id":1,"jsonrpc":"2.0","result":{"module":"me6e03f04bfd11ba9c54b9c9f5c4897e9e7fa9e7dda97d5cd554ca85dd1650423"}}"#,
        ],
        "3",
    ),
    (
        "main's own name behind another",
        &[(NEXT, true), ("module TOYS endmodule []", true)],
        &[
            NEXT_LINE,
            r#"{"error":{"code":9,"data":{"entry":0,"name":"TOYS"},"message":"Duplicate module"},"id":1,"jsonrpc":"2.0"}"#,
        ],
        "2",
    ),
    (
        "main's own name isn't asked for",
        &[(NEXT, true), ("module TOYS endmodule []", false)],
        &[
            NEXT_LINE,
            r#"{"id":1,"jsonrpc":"2.0","result":{"module":"m4fd100c3b7ebe06afa9a1e929c71e6c8184dd49e5487cc0fb3b53eccae6d5858"}}"#,
        ],
        "3",
    ),
];

#[test]
fn a_name_is_bound_to_one_text(rt: HostRuntime) -> Result<(), Fail> {
    are_added(&rt, rt.alloc(), &SECOND)
}

/// The notification that adds a module with its own name, up to its text.
const NOTE: &str = r#"{"jsonrpc":"2.0","method":"add-module","params":{"module":""#;

/// Adds a notification that adds a module, whose name has a number behind it where that is asked for.
fn note(
    alloc: Global,
    text: &mut String,
    number: u64,
    is_numbered: bool,
) -> Result<(), AllocError> {
    text.push_str(NOTE)?;
    if is_numbered {
        text.push_str("module M")?;
        text.push_str(number.to_string(alloc)?.as_str())?;
        text.push_str(" endmodule []")?;
    } else {
        text.push_str(NEXT)?;
    }
    text.push_str(ADD.1)
}

/// Notifications that add 4095 modules, of one text or of as many, and three requests: the last entry, one beyond, and
/// another text of a bound name.
fn crowd(alloc: Global, are_numbered: bool) -> Result<String, AllocError> {
    let mut text = String::new(alloc);
    for number in 0..4095 {
        note(alloc, &mut text, number, are_numbered)?;
    }
    ask(&mut text, &[(NEXT, true), (NEXT, true), (SPACED, true)])?;
    Ok(text)
}

/// Whether the last entry is taken, nothing is taken beyond, and another text of a bound name is told by its entry.
fn is_full<R: Wait>(
    rt: &R,
    alloc: Global,
    are_numbered: bool,
    entry: &str,
) -> Result<bool, AllocError> {
    let input = crowd(alloc, are_numbered)?;
    let lines = joined(
        alloc,
        &[
            NEXT_LINE,
            r#"
{"error":{"code":8,"data":{"kind":"M9"},"message":"Invalid module"},"id":1,"jsonrpc":"2.0"}
{"error":{"code":9,"data":{"entry":"#,
            entry,
            r#","name":"NEXT"},"message":"Duplicate module"},"id":1,"jsonrpc":"2.0"}"#,
        ],
    )?;
    Ok(is_replied(rt, alloc, Definition::Small, &input, &lines))
}

#[test]
fn a_book_has_4096_entries(rt: HostRuntime) {
    assert_eq!(rt; is_full(&rt, rt.alloc(), false, "1"), Ok(true));
    assert_eq!(rt; is_full(&rt, rt.alloc(), true, "4096"), Ok(true));
}
