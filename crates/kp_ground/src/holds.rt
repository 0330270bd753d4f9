ghost use Rattle.std.specs.Prelude.{◌≡◌, true};
ghost use Rattle.std.specs.List.{list_all};
ghost use Rattle.kp_kore.specs.Value.{values_same};
ghost use Rattle.kp_ground.specs.Slots.{condition_reads};
ghost use Rattle.kp_ground.specs.Solves.{bound_names};
ghost use Rattle.kp_ground.specs.View.{value_view};
ghost use Rattle.kp_ground.specs.ConditionView.{condition_view, GivesTruth, GivesAllTruth, GivesAnyTruth};

use crate::binding::Binding;
use crate::condition::Condition;
use crate::evaluate::EvaluationError;
use crate::value::Value;
use std::alloc::Global;

/// Whether two values are the same.
fn same_value(left: &Value, right: &Value) -> bool
    ensures { result ≡ values_same (value_view left.now) (value_view right.now) }
{
    left.equal(right)
}

impl Condition {
    /// Whether the condition holds under the bindings of its variables. All of it is evaluated, so that a number beyond
    /// 128 bits is told wherever it stands.
    #[cycle(holding)]
    pub fn holds(&self, alloc: Global, bindings: &[Binding]) -> Result<bool, EvaluationError>
        requires { condition_reads (bound_names bindings.now) self.now ≡ true }
        ensures { GivesTruth result bindings.now (condition_view self.now) }
    {
        match self {
            Condition::Always => Ok(true),
            Condition::Never => Ok(false),
            Condition::Not { condition } => Ok(!condition.holds(alloc, bindings)?),
            Condition::All { conditions } => Ok(Condition::all_hold(alloc, conditions, bindings)?),
            Condition::Any { conditions } => Ok(Condition::any_holds(alloc, conditions, bindings)?),
            Condition::Implies { left, right } => {
                let left = left.holds(alloc, bindings)?;
                let right = right.holds(alloc, bindings)?;
                Ok(!left || right)
            }
            Condition::Iff { left, right } => {
                let left = left.holds(alloc, bindings)?;
                let right = right.holds(alloc, bindings)?;
                Ok(left == right)
            }
            Condition::Same { left, right } => {
                let left = left.evaluate(alloc, bindings)?;
                let right = right.evaluate(alloc, bindings)?;
                Ok(same_value(&left, &right))
            }
        }
    }

    /// Whether all of them hold.
    #[cycle(holding)]
    fn all_hold(
        alloc: Global,
        conditions: &[Condition],
        bindings: &[Binding],
    ) -> Result<bool, EvaluationError>
        requires { list_all (condition_reads (bound_names bindings.now)) conditions.now ≡ true }
        ensures { GivesAllTruth result bindings.now conditions.now }
    {
        let mut all = true;
        for condition in conditions {
            let holds = condition.holds(alloc, bindings)?;
            all = all && holds;
        }
        Ok(all)
    }

    /// Whether some of them holds.
    #[cycle(holding)]
    fn any_holds(
        alloc: Global,
        conditions: &[Condition],
        bindings: &[Binding],
    ) -> Result<bool, EvaluationError>
        requires { list_all (condition_reads (bound_names bindings.now)) conditions.now ≡ true }
        ensures { GivesAnyTruth result bindings.now conditions.now }
    {
        let mut any = false;
        for condition in conditions {
            let holds = condition.holds(alloc, bindings)?;
            any = any || holds;
        }
        Ok(any)
    }
}
