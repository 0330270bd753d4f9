use crate::clause::Clause;
use crate::term::Term;
use crate::variable::Variable;
use kp_kore::Sort;
use std::alloc::{AllocError, Global};
use std::sync::Arc;

/// A symbolic state: a term, the sort of its place, clauses that restrict it, and the variables at hand.
/// `state_view` in specs/View.antt says which state of kp_symbolic it is.
#[derive(Drop)]
pub struct State {
    pub term: Term,
    pub sort: Arc<Sort>,
    pub clauses: Vec<Clause>,
    pub variables: Vec<Arc<Variable>>,
}

ghost use Rattle.std.specs.Prelude.{◌≡◌, IfOk};
ghost use Rattle.kp_symbolic.specs.View.{variables_view};

impl State {
    ghost use Rattle.std.specs.Prelude.{◌≡◌, IfOk};
    ghost use Rattle.kp_symbolic.specs.View.{state_view, variables_view};

    /// The same state, sharing its parts.
    pub fn share(&self, alloc: Global) -> Result<State, AllocError>
        ensures { IfOk result (λ s. state_view s ≡ state_view self.now) }
    {
        Ok(State {
            term: self.term.share(alloc)?,
            sort: self.sort.clone()?,
            clauses: Clause::share_all(alloc, &self.clauses)?,
            variables: share_variables(alloc, &self.variables)?,
        })
    }
}

/// The same variables, one by one.
pub fn share_variables(
    alloc: Global,
    variables: &[Arc<Variable>],
) -> Result<Vec<Arc<Variable>>, AllocError>
    ensures { IfOk result (λ xs. variables_view xs.items ≡ variables_view variables.now) }
{
    let mut shared = Vec::new(alloc);
    for variable in variables {
        shared.push(variable.clone()?)?;
    }
    Ok(shared)
}
