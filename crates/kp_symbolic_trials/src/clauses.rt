use crate::forms::add_clauses;
use crate::module::SMALL;
use crate::rows::{Asked, Table, first_failed};
use kp_clause_substitution::open_clause;
use kp_clauses::clauses_of;
use kp_kore::Pattern;
use kp_symbolic::{Clause, Language, Replaced};
use std::alloc::{AllocError, Global};
use std::test::Fail;

/// Adds the form of the clauses of a predicate.
pub(crate) fn clauses_told(
    alloc: Global,
    language: &Language,
    pattern: &Pattern,
    told: &mut String,
) -> Result<(), AllocError> {
    match clauses_of(alloc, language, &[], pattern) {
        Ok(clauses) => add_clauses(&clauses, told),
        Err(_) => told.push_str("no clauses"),
    }
}

/// Adds the form of the clauses that the clauses of a predicate are opened to with terms in the place of variables.
pub(crate) fn again_told(
    alloc: Global,
    language: &Language,
    replaced: &[Replaced],
    pattern: &Pattern,
    told: &mut String,
) -> Result<(), AllocError> {
    let Ok(clauses) = clauses_of(alloc, language, &[], pattern) else {
        return told.push_str("no clauses");
    };
    for clause in &clauses {
        clause_told(alloc, language, replaced, clause, told)?;
    }
    Ok(())
}

/// The same of a clause.
fn clause_told(
    alloc: Global,
    language: &Language,
    replaced: &[Replaced],
    clause: &Clause,
    told: &mut String,
) -> Result<(), AllocError> {
    match open_clause(alloc, language, replaced, clause) {
        Ok(opened) => add_clauses(&opened.clauses, told),
        Err(_) => told.push_str("not opened"),
    }
}

/// Connectives are opened with their sign.
const CONNECTIVES: &str = r##"\top{S{}}() ->
\not{S{}}(\top{S{}}()) -> []
\not{S{}}(\bottom{S{}}()) ->
\and{S{}}(\equals{Int{},S{}}(X:Int{}, Y:Int{}), \not{S{}}(\equals{Int{},S{}}(X:Int{}, Z:Int{}))) -> [+][-]
\not{S{}}(\and{S{}}(\equals{Int{},S{}}(X:Int{}, Y:Int{}), \not{S{}}(\equals{Int{},S{}}(X:Int{}, Z:Int{})))) -> [-+]
\or{S{}}(\equals{Int{},S{}}(X:Int{}, Y:Int{}), \bottom{S{}}()) -> [+]
\implies{S{}}(\equals{Int{},S{}}(X:Int{}, Y:Int{}), \in{Int{},S{}}(X:Int{}, Z:Int{})) -> [-+]
\not{S{}}(\implies{S{}}(\equals{Int{},S{}}(X:Int{}, Y:Int{}), \in{Int{},S{}}(X:Int{}, Z:Int{}))) -> [+][-]
\iff{S{}}(\equals{Int{},S{}}(X:Int{}, Y:Int{}), \equals{Int{},S{}}(X:Int{}, Z:Int{})) -> [-+][+-]
\not{S{}}(\iff{S{}}(\equals{Int{},S{}}(X:Int{}, Y:Int{}), \equals{Int{},S{}}(X:Int{}, Z:Int{}))) -> [--][++]"##;

/// What is defined is opened.
const DEFINED: &str = r##"\ceil{S{},S{}}(f{}(X:Int{})) ->
\not{S{}}(\ceil{S{},S{}}(f{}(X:Int{}))) -> []
\ceil{S{},S{}}(\and{S{}}(f{}(X:Int{}), f{}(Y:Int{}))) -> [+]
\ceil{S{},S{}}(\and{S{}}(f{}(X:Int{}), g{}(Z:S{}))) -> []
\ceil{S{},S{}}(\not{S{}}(\equals{Int{},S{}}(X:Int{}, Y:Int{}))) -> [-]
\not{S{}}(\floor{S{},S{}}(Z:S{})) -> [-q]
\floor{S{},S{}}(\equals{Int{},S{}}(X:Int{}, Y:Int{})) -> [+]"##;

/// Questions for heads are opened.
const HEADS: &str = r##"\exists{S{}}(X:Int{}, \equals{S{},S{}}(Z:S{}, f{}(X:Int{}))) -> [+h]
\not{S{}}(\exists{S{}}(X:Int{}, \exists{S{}}(Y:S{}, \equals{S{},S{}}(Z:S{}, pair{}(X:Int{}, Y:S{}))))) -> [-h]
\exists{S{}}(X:Int{}, \exists{S{}}(Y:S{}, \equals{S{},S{}}(Y:S{}, pair{}(X:Int{}, Y:S{})))) -> [+q]
\exists{S{}}(X:Int{}, \exists{S{}}(Y:S{}, \equals{S{},S{}}(Z:S{}, f{}(X:Int{})))) -> [+q]
\exists{S{}}(X:Int{}, \equals{S{},S{}}(g{}(Z:S{}), f{}(X:Int{}))) -> [+q]
\not{S{}}(\exists{S{}}(X:Int{}, \equals{Int{},S{}}(Y:Int{}, X:Int{}))) -> []
# by the other side, by \in, by \forall of the opposite
\exists{S{}}(X:Int{}, \equals{S{},S{}}(f{}(X:Int{}), Z:S{})) -> [+h]
\not{S{}}(\exists{S{}}(X:Int{}, \in{S{},S{}}(f{}(X:Int{}), Z:S{}))) -> [-h]
\not{S{}}(\forall{S{}}(X:Int{}, \not{S{}}(\equals{S{},S{}}(Z:S{}, f{}(X:Int{}))))) -> [+h]
\forall{S{}}(X:Int{}, \forall{S{}}(Y:S{}, \not{S{}}(\equals{S{},S{}}(pair{}(X:Int{}, Y:S{}), Z:S{})))) -> [-h]
\forall{S{}}(X:Int{}, \equals{S{},S{}}(Z:S{}, f{}(X:Int{}))) -> [+q]"##;

/// A clause and a literal stand once.
const ONCE: &str =
    r##"\and{S{}}(\equals{Int{},S{}}(X:Int{}, Y:Int{}), \equals{Int{},S{}}(X:Int{}, Y:Int{})) -> [+]
\or{S{}}(\equals{Int{},S{}}(X:Int{}, Y:Int{}), \equals{Int{},S{}}(X:Int{}, Y:Int{})) -> [+]
\equals{Bool{},S{}}(\dv{Bool{}}("true"), and{}(B:Bool{}, C:Bool{})) -> [+][+]"##;

/// Clauses that are opened again with a term in the place of `Z`.
const AGAIN: &str = r##"# an equality
\equals{S{},S{}}(Z:S{}, f{}(X:Int{})) where Z = f{}(\dv{Int{}}("1")) -> [+]
\equals{S{},S{}}(Z:S{}, f{}(X:Int{})) where Z = f{}(X:Int{}) ->
\equals{S{},S{}}(Z:S{}, f{}(X:Int{})) where Z = g{}(W:S{}) -> []
# one of two
\or{S{}}(\equals{S{},S{}}(Z:S{}, f{}(X:Int{})), \equals{Int{},S{}}(X:Int{}, Y:Int{})) where Z = pair{}(X:Int{}, W:S{}) -> [+]
\or{S{}}(\equals{S{},S{}}(Z:S{}, f{}(X:Int{})), \equals{Int{},S{}}(X:Int{}, Y:Int{})) where Z = f{}(W:Int{}) -> [++]
# a question for a head
\exists{S{}}(X:Int{}, \equals{S{},S{}}(Z:S{}, f{}(X:Int{}))) where Z = f{}(Y:Int{}) ->
\exists{S{}}(X:Int{}, \equals{S{},S{}}(Z:S{}, f{}(X:Int{}))) where Z = g{}(W:S{}) -> []
\exists{S{}}(X:Int{}, \equals{S{},S{}}(Z:S{}, f{}(X:Int{}))) where Z = W:S{} -> [+h]
# what isn't opened
\floor{S{},S{}}(Z:S{}) where Z = g{}(W:S{}) -> [+q]"##;

/// The tables of clauses.
const TABLES: [Table<'static>; 5] = [
    (Asked::Clauses, CONNECTIVES),
    (Asked::Clauses, DEFINED),
    (Asked::Clauses, HEADS),
    (Asked::Clauses, ONCE),
    (Asked::Again, AGAIN),
];

#[test]
fn predicates_are_read_as_clauses(rt: HostRuntime) {
    assert_eq!(rt; first_failed(rt.alloc(), SMALL, &TABLES), None);
}

/// Adds a row of so many nested `\iff`s of a predicate with an equality.
fn add_nest(table: &mut String, levels: usize, left: &str, told: &str) -> Result<(), AllocError> {
    for _ in 0..levels {
        table.push_str(r"\iff{S{}}(")?;
        table.push_str(left)?;
        table.push_str(", ")?;
    }
    table.push_str(r"\equals{Int{},S{}}(X:Int{}, Y:Int{})")?;
    for _ in 0..levels {
        table.push_str(")")?;
    }
    table.push_str(told)
}

#[test]
fn nested_equivalences_are_counted_as_they_are_made(rt: HostRuntime) -> Result<(), Fail> {
    let mut table = String::new(rt.alloc());
    add_nest(&mut table, 40, r"\top{S{}}()", " -> [+]\n")?;
    add_nest(&mut table, 41, r"\bottom{S{}}()", " -> [-]\n")?;
    add_nest(
        &mut table,
        40,
        r"\equals{Int{},S{}}(X:Int{}, Z:Int{})",
        " -> [+q]\n",
    )?;
    assert_eq!(rt;
        first_failed(rt.alloc(), SMALL, &[(Asked::Clauses, table.as_str())]),
        None
    );
    Ok(())
}
