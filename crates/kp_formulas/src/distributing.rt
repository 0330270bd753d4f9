// What is kept of the clauses of a formula of literals.
ghost use Rattle.std.specs.Prelude.{◌≡◌, IfOk, map};
ghost use Rattle.kp_formulas.specs.FormulaView.{formula_view, formulas_of};
ghost use Rattle.kp_formulas.specs.Distribution.{distribution_of, distributions_of};
ghost use Rattle.kp_formulas.specs.DistributionView.{distributed_view};

use crate::Formula;
use crate::distributed::{Distributed, all_of, make_fact, one_of};
use std::alloc::{AllocError, Global};

/// What is kept of a formula's clauses.
#[cycle(distribute)]
pub fn distribute(formula: &Formula, alloc: Global) -> Result<Distributed, AllocError>
    ensures { IfOk result (λ d. distributed_view d ≡ distribution_of (formula_view formula.now)) }
{
    match formula {
        Formula::Fact { literal } => make_fact(alloc, literal.share(alloc)?),
        Formula::AllOf { parts } => {
            let parts = distribute_each(parts, alloc)?;
            all_of(alloc, &parts)
        }
        Formula::OneOf { parts } => {
            let parts = distribute_each(parts, alloc)?;
            one_of(alloc, &parts)
        }
    }
}

/// The same of each formula.
#[cycle(distribute)]
fn distribute_each(formulas: &[Formula], alloc: Global) -> Result<Vec<Distributed>, AllocError>
    ensures { IfOk result (λ ds. map distributed_view ds.items ≡ distributions_of (formulas_of (map formula_view formulas.now))) }
{
    let mut found = Vec::new(alloc);
    for formula in formulas {
        found.push(distribute(formula, alloc)?)?;
    }
    Ok(found)
}
