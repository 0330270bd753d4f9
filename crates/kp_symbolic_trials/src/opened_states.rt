use crate::forms::add_clauses;
use crate::module::SMALL;
use crate::rows::{Asked, Table, first_failed};
use kp_clauses::{TermFault, open_state};
use kp_kore::{Pattern, Sort};
use kp_symbolic::{Language, State};
use std::alloc::{AllocError, Global};

/// A pattern, read as a state of the sort S.
pub(crate) fn open(
    alloc: Global,
    language: &Language,
    pattern: &Pattern,
) -> Result<State, TermFault> {
    let Ok(name) = String::from_str(alloc, "S") else {
        return Err(TermFault::Memory);
    };
    let arguments = Vec::new(alloc);
    open_state(alloc, language, pattern, Sort::App { name, arguments })
}

/// What is told of a pattern that isn't read.
fn fault(error: &TermFault) -> &str {
    match error {
        TermFault::Memory => "memory",
        TermFault::Unread => "unread",
        TermFault::ForeignSymbol { name } => name.as_str(),
        TermFault::OtherShape => "shape",
    }
}

/// Adds a state's variables, and the form of its clauses.
fn add_state(state: &State, told: &mut String) -> Result<(), AllocError> {
    for variable in &state.variables {
        told.push_str(variable.name.as_str())?;
    }
    add_clauses(&state.clauses, told)
}

/// Adds the state that a pattern is read as, or its fault.
pub(crate) fn state_told(
    alloc: Global,
    language: &Language,
    pattern: &Pattern,
    told: &mut String,
) -> Result<(), AllocError> {
    match open(alloc, language, pattern) {
        Ok(state) => add_state(&state, told),
        Err(error) => told.push_str(fault(&error)),
    }
}

/// A state is one term and predicates.
const STATES: &str = r##"f{}(X:Int{}) -> X
\and{S{}}(\equals{Int{},S{}}(X:Int{}, Y:Int{}), f{}(X:Int{})) -> XYX[+]
\and{S{}}(f{}(X:Int{}), \and{S{}}(\top{S{}}(), \not{S{}}(\equals{Int{},S{}}(X:Int{}, Y:Int{})))) -> XXY[-]
\and{S{}}(f{}(X:Int{}), f{}(Y:Int{})) -> shape
\top{S{}}() -> shape
\not{S{}}(f{}(X:Int{})) -> shape
g{}(\top{S{}}()) -> shape"##;

/// The first fault from the left is told.
const FAULTS: &str = r##"g{}(h{}(Y:S{})) -> h
\and{S{}}(h{}(Y:S{}), f{}(X:Int{})) -> h
\and{S{}}(f{}(X:Int{}), h{}(Y:S{})) -> shape
\and{S{}}(\ceil{S{},S{}}(h{}(Y:S{})), \top{S{}}()) -> h
\and{S{}}(\not{S{}}(f{}(X:Int{})), h{}(Y:S{})) -> shape
g{}(\not{S{}}(h{}(Y:S{}))) -> shape
h{}(\top{S{}}()) -> h"##;

/// The tables of states.
const TABLES: [Table<'static>; 2] = [(Asked::State, STATES), (Asked::State, FAULTS)];

#[test]
fn patterns_are_read_as_states(rt: HostRuntime) {
    assert_eq!(rt; first_failed(rt.alloc(), SMALL, &TABLES), None);
}
