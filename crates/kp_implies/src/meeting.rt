// Whether the consequent's term meets the state's.
ghost use Rattle.std.specs.Prelude.{◌↔◌, IfOk, IsTrue};
ghost use Rattle.std.specs.List.{AllByRecursion};
ghost use Rattle.kp_goals.specs.View.{consequent_view};
ghost use Rattle.kp_heads.specs.Heads.{HasValue};
ghost use Rattle.kp_heads.specs.Made.{IsHeadTableOf};
ghost use Rattle.kp_signature.specs.View.{signature_view};
ghost use Rattle.kp_symbolic.specs.View.{state_view, variables_view};
ghost use Rattle.kp_unify.specs.Views.{signature_of, HasItsTable};
ghost use Rattle.kp_implies.specs.Steps.{MeetsIf};

use kp_goals::Consequent;
use kp_heads::HeadTable;
use kp_overlap::meets;
use kp_overlap::terms::term_skeleton;
use kp_signature::Signature;
use kp_symbolic::{State, Variable};
use kp_unify::Setting;
use std::alloc::{AllocError, Global};
use std::sync::Arc;

/// Whether each bound variable's sort has a value.
fn have_values(table: &HeadTable, signature: &Signature, bound: &[Arc<Variable>]) -> bool
    requires { IsHeadTableOf (signature_view signature.now) table.now }
    ensures { let g = signature_view signature.now in IsTrue result ↔ AllByRecursion (λ x. HasValue g x.sort) (variables_view bound.now) }
{
    for variable in bound {
        if !table.has_value(signature, &variable.sort) {
            return false;
        }
    }
    true
}

/// Whether each bound variable's sort has a value, and the consequent's term may be one that the state's term is.
pub fn terms_meet(
    alloc: Global,
    setting: &Setting<'_>,
    state: &State,
    consequent: &Consequent<'_>,
) -> Result<bool, AllocError>
    requires { HasItsTable setting.now }
    ensures { IfOk result (MeetsIf (signature_of setting.now) (state_view state.now) (consequent_view consequent.now)) }
{
    let signature = setting.language.signature;
    if !have_values(setting.table, signature, &consequent.bound) {
        return Ok(false);
    }
    let left = term_skeleton(alloc, signature, &consequent.term)?;
    meets(
        alloc,
        setting.table,
        signature,
        &state.sort,
        &state.term,
        &left,
    )
}
