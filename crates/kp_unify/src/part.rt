// Parts of a state, and what a left side makes of one.
ghost use Rattle.std.specs.Prelude.{◌≡◌, IfOk};
ghost use Rattle.kp_symbolic.specs.View.{state_view};
ghost use Rattle.kp_case_laws.specs.Parts as model;
ghost use Rattle.kp_unify.specs.Views.{part_view};

use kp_heads::HeadTable;
use kp_names::names::Names;
use kp_symbolic::{Clause, Language, Replaced, State};
use std::alloc::{AllocError, Global};

/// What holds for a whole step: the language with its table of heads, and the names that were met before.
#[derive(Clone, Copy)]
pub struct Setting<'a> {
    pub language: &'a Language<'a>,
    pub table: &'a HeadTable,
    pub met: &'a Names,
}

/// A state, and the clauses that were added to the state that it is a part of. `Fresh` with each number from 1 below the
/// next one is in use.
#[derive(Drop)]
pub struct Part {
    pub state: State,
    pub added: Vec<Clause>,
    pub next: u64,
}

/// A part that a left side meets where the equations are true: its variables stand for these terms.
#[derive(Drop)]
pub struct MetPart {
    pub part: Part,
    pub equations: Vec<Clause>,
    pub bindings: Vec<Replaced>,
}

/// The part that a left side meets, and those that it doesn't meet.
#[derive(Drop)]
pub struct Meeting {
    pub met: MetPart,
    pub apart: Vec<Part>,
}

impl Part {
    ghost use Rattle.std.specs.Prelude.{◌≡◌, IfOk};
    ghost use Rattle.kp_unify.specs.Views.{part_view};

    /// The same part, sharing its parts.
    pub fn share(&self, alloc: Global) -> Result<Part, AllocError>
        ensures view { IfOk result (λ p. part_view p ≡ part_view self.now) }
        ensures next { IfOk result (λ p. p.next ≡ self.now.next) }
    {
        Ok(Part {
            state: self.state.share(alloc)?,
            added: Clause::share_all(alloc, &self.added)?,
            next: self.next,
        })
    }
}

/// A whole state as a part of itself.
pub fn whole(alloc: Global, state: &State, next: u64) -> Result<Part, AllocError>
    ensures view { IfOk result (λ p. part_view p ≡ model.whole (state_view state.now)) }
    ensures next { IfOk result (λ p. p.next ≡ next) }
{
    Ok(Part {
        state: state.share(alloc)?,
        added: Vec::new(alloc),
        next,
    })
}
