// Formulas of literals.
ghost use Rattle.std.specs.Prelude.{◌≡◌, IfOk, map};
ghost use Rattle.kp_symbolic.specs.Formulas.{fact};
ghost use Rattle.kp_symbolic.specs.Opening.{all_if, fixed};
ghost use Rattle.kp_symbolic.specs.View.{literal_view};
ghost use Rattle.kp_formulas.specs.FormulaView.{formulas_of, formula_view};

use kp_symbolic::Literal;
use std::alloc::{AllocError, Global};
use std::sync::Arc;

/// Literals under 'all of' and 'one of', whose parts are shared. `formula_view` in specs/View.antt says which formula of
/// kp_symbolic it is.
#[derive(Drop)]
pub enum Formula {
    Fact { literal: Literal },
    AllOf { parts: Arc<Vec<Formula>> },
    /// Not all of the parts are false.
    OneOf { parts: Arc<Vec<Formula>> },
}

/// The literal that is kept, as a formula.
pub fn kept_fact(alloc: Global, kept: &Literal) -> Result<Formula, AllocError>
    ensures { IfOk result (λ f. formula_view f ≡ fact (literal_view kept.now)) }
{
    Ok(Formula::Fact {
        literal: kept.share(alloc)?,
    })
}

/// All of these where the sign is positive, else one of these.
pub fn make_all_if(alloc: Global, sign: bool, parts: Vec<Formula>) -> Result<Formula, AllocError>
    ensures { IfOk result (λ f. formula_view f ≡ all_if sign (formulas_of (map formula_view parts.items))) }
{
    let parts = Arc::new(alloc, parts)?;
    if sign {
        Ok(Formula::AllOf { parts })
    } else {
        Ok(Formula::OneOf { parts })
    }
}

/// What is always true, or always false.
pub fn make_fixed(alloc: Global, holds: bool) -> Result<Formula, AllocError>
    ensures { IfOk result (λ f. formula_view f ≡ fixed holds) }
{
    make_all_if(alloc, holds, Vec::new(alloc))
}
