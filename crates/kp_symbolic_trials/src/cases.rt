use crate::case_texts::{signature, sort};
use indexmap::IndexMap;
use kp_heads::HeadTable;
use kp_names::names::Names;
use kp_rules::skeleton::Skeleton;
use kp_symbolic::{Language, State, Term, Variable, term_under};
use kp_text::read_pattern;
use kp_unify::{Meeting, Setting, cases};
use std::alloc::Global;
use std::sync::Arc;
use std::test::Fail;

/// The term of a text.
fn term_of(alloc: Global, language: &Language, text: &str) -> Result<Term, Fail> {
    let pattern = read_pattern(alloc, text.as_bytes()).map_err(|_| "no pattern")?;
    Ok(term_under(&pattern, alloc, language, &[]).map_err(|_| "no term")?)
}

/// A variable as a left side: one named `Any` stands for any value of its sort.
fn variable_of(alloc: Global, variable: &Variable) -> Result<Skeleton, Fail> {
    let sort = variable.sort.copy(alloc)?;
    if variable.name.as_str() == "Any" {
        return Ok(Skeleton::Any { sort });
    }
    let name = Arc::new(alloc, variable.name.clone()?)?;
    Ok(Skeleton::Variable { name, sort })
}

/// A term as a left side.
#[cycle(left)]
fn left_of(term: &Term, alloc: Global) -> Result<Skeleton, Fail> {
    match term {
        Term::Unknown { variable } => variable_of(alloc, variable),
        Term::Known { value } => Ok(Skeleton::Fixed {
            value: value.share(alloc)?,
        }),
        Term::Headed { symbol, arguments } => {
            let arguments = lefts_of(arguments, alloc)?;
            Ok(Skeleton::Built {
                constructor: symbol.clone()?,
                arguments,
            })
        }
        Term::Offset { .. } => Err(Fail::from("no left side")),
    }
}

/// Terms as left sides, one by one.
#[cycle(left)]
fn lefts_of(terms: &[Term], alloc: Global) -> Result<Vec<Skeleton>, Fail> {
    let mut found = Vec::new(alloc);
    for term in terms {
        found.push(left_of(term, alloc)?)?;
    }
    Ok(found)
}

/// A state of the term alone.
fn state_of(alloc: Global, term: Term) -> Result<State, Fail> {
    let mut variables = Vec::new(alloc);
    term.add_variables(&mut variables)?;
    Ok(State {
        term,
        sort: Arc::new(alloc, sort(alloc, "K")?)?,
        clauses: Vec::new(alloc),
        variables,
    })
}

/// So many bindings, equations, clauses that were added, new variables, and parts that are apart.
type Counts = (usize, usize, usize, usize, usize);

/// The counts of what was met.
fn counted(state: &State, meeting: &Meeting) -> Counts {
    let met = &meeting.met;
    let variables = met.part.state.variables.len();
    (
        met.bindings.len(),
        met.equations.len(),
        met.part.added.len(),
        variables.saturating_sub(state.variables.len()),
        meeting.apart.len(),
    )
}

/// The counts of the cases of a state under a left side; none where it is apart.
fn counts_over(
    alloc: Global,
    language: &Language,
    state: &State,
    left: &Skeleton,
) -> Result<Option<Counts>, Fail> {
    let table = HeadTable::new(alloc, language.signature)?;
    let met: Names = IndexMap::new(alloc);
    let setting = Setting {
        language,
        table: &table,
        met: &met,
    };
    match cases(alloc, &setting, state, left, 1).map_err(|_| "no cases")? {
        Some(meeting) => Ok(Some(counted(state, &meeting))),
        None => Ok(None),
    }
}

/// The same of texts.
fn counts(
    alloc: Global,
    language: &Language,
    state: &str,
    left: &str,
) -> Result<Option<Counts>, Fail> {
    let state = state_of(alloc, term_of(alloc, language, state)?)?;
    let left = left_of(&term_of(alloc, language, left)?, alloc)?;
    counts_over(alloc, language, &state, &left)
}

/// What is said, a state, a left side, and the counts of what is met.
type Row = (&'static str, &'static str, &'static str, Option<Counts>);

static ROWS: [Row; 24] = [
    (
        "nothing is narrowed",
        "pair{}(X:PP{}, Y:PP{})",
        "pair{}(L:PP{}, M:PP{})",
        Some((2, 0, 0, 0, 0)),
    ),
    (
        "a constructor against a variable",
        "f{}(X:C{}, Y:C{})",
        "f{}(c{}(L:D{}), M:C{})",
        Some((2, 0, 1, 1, 1)),
    ),
    (
        "a variable of a lower sort",
        "pair{}(X:PP{}, Y:PP{})",
        "pair{}(L:D{}, M:PP{})",
        Some((2, 0, 1, 1, 1)),
    ),
    (
        "a variable of a sort that shares two heads without a sort of both",
        "X:PP{}",
        "L:QQ{}",
        Some((1, 0, 1, 0, 1)),
    ),
    (
        "a variable of a sort that shares one lower sort",
        "X:RR{}",
        "L:SS{}",
        Some((1, 0, 1, 1, 1)),
    ),
    (
        "a variable of a sort that shares all values",
        "X:GG{}",
        "L:SS{}",
        Some((1, 0, 1, 1, 0)),
    ),
    (
        "a variable of a lower sort with all values",
        "X:GG{}",
        "L:D{}",
        Some((1, 0, 1, 1, 0)),
    ),
    (
        "a variable of a higher sort",
        "X:D{}",
        "L:GG{}",
        Some((1, 0, 0, 0, 0)),
    ),
    ("sorts without a common value", "X:RR{}", "L:T{}", None),
    (
        "a constructor whose argument has no value",
        "hold{}(X:W{})",
        "hold{}(bad{}(L:N{}))",
        None,
    ),
    (
        "a constant against a variable",
        "hold{}(X:W{})",
        "hold{}(wa{}())",
        Some((0, 0, 1, 0, 1)),
    ),
    (
        "one variable against two constants",
        "pair{}(X:PP{}, X:PP{})",
        "pair{}(pp{}(), da{}())",
        None,
    ),
    (
        "one variable against one constant twice",
        "pair{}(X:PP{}, X:PP{})",
        "pair{}(pp{}(), pp{}())",
        Some((0, 0, 1, 0, 1)),
    ),
    (
        "two constants against one variable",
        "pair{}(pp{}(), da{}())",
        "pair{}(L:PP{}, L:PP{})",
        None,
    ),
    (
        "a constructor and a variable against one variable",
        "f{}(c{}(X:D{}), Y:C{})",
        "f{}(L:C{}, L:C{})",
        Some((1, 1, 0, 0, 0)),
    ),
    (
        "one variable against a constructor and a variable",
        "f{}(X:C{}, X:C{})",
        "f{}(c{}(L:D{}), M:C{})",
        Some((2, 0, 1, 1, 1)),
    ),
    (
        "one number against two",
        "num{}(X:Int{}, X:Int{})",
        "num{}(\\dv{Int{}}(\"1\"), \\dv{Int{}}(\"2\"))",
        Some((0, 2, 0, 0, 0)),
    ),
    (
        "a sum and two numbers against one variable",
        "tri{}(add{}(X:Int{}, Y:Int{}), \\dv{Int{}}(\"1\"), \\dv{Int{}}(\"2\"))",
        "tri{}(L:Int{}, L:Int{}, L:Int{})",
        None,
    ),
    (
        "a sum and one number twice against one variable",
        "tri{}(add{}(X:Int{}, Y:Int{}), \\dv{Int{}}(\"1\"), \\dv{Int{}}(\"1\"))",
        "tri{}(L:Int{}, L:Int{}, L:Int{})",
        Some((1, 2, 0, 0, 0)),
    ),
    (
        "two tokens",
        "tok{}(X:T{}, \\dv{T{}}(\"y\"))",
        "tok{}(L:T{}, \\dv{T{}}(\"x\"))",
        None,
    ),
    (
        "a number and the next one",
        "num{}(add{}(X:Int{}, \\dv{Int{}}(\"1\")), X:Int{})",
        "num{}(L:Int{}, L:Int{})",
        None,
    ),
    (
        "a lone variable against a constructor with one variable twice",
        "X:K{}",
        "tok{}(L:T{}, L:T{})",
        Some((1, 1, 1, 2, 1)),
    ),
    (
        "forms of a foreign rule",
        "pair{}(X:PP{}, Y:PP{})",
        "pair{}(Any:QQ{}, Any:D{})",
        Some((0, 0, 2, 1, 2)),
    ),
    (
        "a foreign rule's sort without common values",
        "pair{}(X:PP{}, Y:PP{})",
        "Any:W{}",
        None,
    ),
];

#[test]
fn cases_are_counted(rt: HostRuntime) -> Result<(), Fail> {
    let signature = signature(rt.alloc())?;
    let language = Language::new(rt.alloc(), &signature)?;
    for (said, state, left, wanted) in &ROWS {
        assert!(rt;
            counts(rt.alloc(), &language, state, left)? == *wanted,
            "{said}"
        );
    }
    Ok(())
}
