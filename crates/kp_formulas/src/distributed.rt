// The clauses of a formula with their number, put together from those of its parts.
ghost use Rattle.std.specs.Prelude.{◌≡◌, [], ◌∷◌, IfOk, map};
ghost use Rattle.kp_symbolic.specs.Formulas.{fact as literal_alone};
ghost use Rattle.kp_symbolic.specs.Opening.{fixed as always_or_never};
ghost use Rattle.kp_symbolic.specs.View.{literal_view, clause_view};
ghost use Rattle.kp_formulas.specs.Distribution as model;
ghost use Rattle.kp_formulas.specs.Distribution.{distribution_of};
ghost use Rattle.kp_formulas.specs.DistributionView.{distributed_view};

use crate::count::{Count, each_with_each, is_too_large, together};
use crate::joined::{crossed, kept_once, make_clause};
use kp_symbolic::{Clause, Literal};
use std::alloc::{AllocError, Global};
use std::sync::Arc;

/// The number of a formula's clauses and literals, and its clauses, unless they hold too many literals.
/// `distributed_view` in specs/View.antt says which distribution it is.
#[derive(Drop)]
pub struct Distributed {
    pub count: Count,
    pub clauses: Vec<Clause>,
}

/// What is always true has no clauses.
pub fn make_always(alloc: Global) -> Distributed
    ensures { distributed_view result ≡ model.always }
{
    let count = Count {
        clauses: 0,
        literals: 0,
    };
    Distributed {
        count,
        clauses: Vec::new(alloc),
    }
}

/// What is never true has one clause without literals.
pub fn make_never(alloc: Global) -> Result<Distributed, AllocError>
    ensures { IfOk result (λ d. distributed_view d ≡ model.never) }
{
    let mut clauses = Vec::new(alloc);
    clauses.push(empty_clause(alloc)?)?;
    let count = Count {
        clauses: 1,
        literals: 0,
    };
    Ok(Distributed { count, clauses })
}

/// The clause without literals.
fn empty_clause(alloc: Global) -> Result<Clause, AllocError>
    ensures { IfOk result (λ c. clause_view c ≡ []) }
{
    Ok(Clause {
        literals: Arc::new(alloc, Vec::new(alloc))?,
    })
}

/// What is always true, or never.
pub fn make_fixed(alloc: Global, holds: bool) -> Result<Distributed, AllocError>
    ensures { IfOk result (λ d. distributed_view d ≡ distribution_of (always_or_never holds)) }
{
    if holds {
        Ok(make_always(alloc))
    } else {
        make_never(alloc)
    }
}

/// A literal alone.
pub fn make_fact(alloc: Global, literal: Literal) -> Result<Distributed, AllocError>
    ensures { IfOk result (λ d. distributed_view d ≡ distribution_of (literal_alone (literal_view literal))) }
{
    let mut clauses = Vec::new(alloc);
    clauses.push(make_clause(alloc, literal)?)?;
    let count = Count {
        clauses: 1,
        literals: 1,
    };
    Ok(Distributed { count, clauses })
}

/// The clauses of both.
pub fn both_of(
    alloc: Global,
    first: &Distributed,
    mut second: Distributed,
) -> Result<Distributed, AllocError>
    ensures { IfOk result (λ d. distributed_view d ≡ model.both_of (distributed_view first.now) (distributed_view second)) }
{
    let count = together(first.count, second.count);
    if is_too_large(count) {
        return Ok(Distributed {
            count,
            clauses: Vec::new(alloc),
        });
    }
    let mut clauses = Clause::share_all(alloc, &first.clauses)?;
    clauses.append(&mut second.clauses)?;
    Ok(Distributed { count, clauses })
}

/// Each clause of the one with each of the other.
pub fn either_of(
    alloc: Global,
    first: &Distributed,
    second: &Distributed,
) -> Result<Distributed, AllocError>
    ensures { IfOk result (λ d. distributed_view d ≡ model.either_of (distributed_view first.now) (distributed_view second.now)) }
{
    let count = each_with_each(first.count, second.count);
    if is_too_large(count) {
        return Ok(Distributed {
            count,
            clauses: Vec::new(alloc),
        });
    }
    let clauses = kept_once(alloc, crossed(alloc, &first.clauses, &second.clauses)?)?;
    Ok(Distributed { count, clauses })
}

/// All of these are true.
pub fn all_of(alloc: Global, parts: &[Distributed]) -> Result<Distributed, AllocError>
    ensures { IfOk result (λ d. distributed_view d ≡ model.all_distributed (map distributed_view parts.now)) }
{
    let mut found = make_always(alloc);
    let mut left = parts.len();
    while left > 0 {
        left -= 1;
        found = both_of(alloc, &parts[left], found)?;
    }
    Ok(found)
}

/// One of these is true.
pub fn one_of(alloc: Global, parts: &[Distributed]) -> Result<Distributed, AllocError>
    ensures { IfOk result (λ d. distributed_view d ≡ model.one_distributed (map distributed_view parts.now)) }
{
    let mut found = make_never(alloc)?;
    let mut left = parts.len();
    while left > 0 {
        left -= 1;
        found = either_of(alloc, &parts[left], &found)?;
    }
    Ok(found)
}

/// Both are true.
pub fn all_of_two(
    alloc: Global,
    first: &Distributed,
    second: &Distributed,
) -> Result<Distributed, AllocError>
    ensures { IfOk result (λ d. distributed_view d ≡ model.all_distributed (distributed_view first.now ∷ distributed_view second.now ∷ [])) }
{
    let found = both_of(alloc, second, make_always(alloc))?;
    both_of(alloc, first, found)
}

/// One of both is true.
pub fn one_of_two(
    alloc: Global,
    first: &Distributed,
    second: &Distributed,
) -> Result<Distributed, AllocError>
    ensures { IfOk result (λ d. distributed_view d ≡ model.one_distributed (distributed_view first.now ∷ distributed_view second.now ∷ [])) }
{
    let none = make_never(alloc)?;
    let found = either_of(alloc, second, &none)?;
    either_of(alloc, first, &found)
}

/// Both are true or both are false: the one with its opposite, then the other with its own.
pub fn agreement_of(
    alloc: Global,
    first: &Distributed,
    not_first: &Distributed,
    second: &Distributed,
    not_second: &Distributed,
) -> Result<Distributed, AllocError>
    ensures { let agreed = model.agreement_of (distributed_view first.now) (distributed_view not_first.now) (distributed_view second.now) (distributed_view not_second.now) in IfOk result (λ d. distributed_view d ≡ agreed) }
{
    let forwards = one_of_two(alloc, not_first, second)?;
    let backwards = one_of_two(alloc, first, not_second)?;
    all_of_two(alloc, &forwards, &backwards)
}
