ghost use Rattle.std.specs.Prelude.{◌≡◌, map, true, false, string_bytes, IfOk};
ghost use Rattle.std.specs.List.{list_all};
ghost use Rattle.kp_kore.specs.Instance.{Valuation};
ghost use Rattle.kp_kore.specs.Interpretation.{interpreted};
ghost use Rattle.kp_kore.specs.Hooks.{whole_arithmetic, whole_comparison, truth_connective, truth_negation};
ghost use Rattle.kp_kore.specs.Value.{truth, constructed, no_values, next_value};
ghost use Rattle.kp_kore.specs.Forms.{two};
ghost use Rattle.kp_kore.specs.HookView.{hook_view, arithmetic_view, comparison_view, connective_view};
ghost use Rattle.kp_ground.specs.Terms.{is_narrow, stays_narrow, all_stay_narrow, term_value, term_values};
ghost use Rattle.kp_ground.specs.TermView.{term_view, terms_of};
ghost use Rattle.kp_ground.specs.View.{value_view, values_of};
ghost use Rattle.kp_ground.specs.Slots.{term_reads};
ghost use Rattle.kp_ground.specs.Solves.{Solves, bound_names};
ghost use Rattle.kp_ground.specs.Outcomes.{Gives, GivesCall, GiveAll};

use crate::binding::{Binding, bound_at};
use crate::names::share_name;
use crate::term::CompiledTerm;
use crate::value::Value;
use kp_kore::{Arithmetic, Comparison, Connective, Hook};
use std::alloc::{AllocError, AllocFailed, Global};
use std::sync::Arc;

/// Why a term has no value here.
#[derive(Debug, Drop)]
pub enum EvaluationError {
    Memory,
    /// A call computes a number beyond signed 128 bits.
    Number,
}

impl From<AllocError> for EvaluationError {
    ghost use Rattle.kp_ground.specs.declared.evaluate.EvaluationError.TheVariants.{Memory};

    ghost from_gives = { λ _ e. e ≡ Memory };

    fn from(_error: AllocError) -> Self {
        EvaluationError::Memory
    }
}

impl<T: Drop> From<AllocFailed<T>> for EvaluationError {
    ghost use Rattle.kp_ground.specs.declared.evaluate.EvaluationError.TheVariants.{Memory};

    ghost from_gives = { λ _ e. e ≡ Memory };

    fn from(_error: AllocFailed<T>) -> Self {
        EvaluationError::Memory
    }
}

/// A truth value.
fn truth_value(holds: bool) -> Value
    ensures { value_view result ≡ truth holds }
{
    Value::Truth { holds }
}

/// A constructor with its arguments.
fn constructed_value(constructor: Arc<String>, arguments: Arc<Vec<Value>>) -> Value
    ensures { value_view result ≡ constructed (string_bytes constructor.value) (values_of (map value_view arguments.value.items)) }
{
    Value::Constructed {
        constructor,
        arguments,
    }
}

/// What a call of other arguments than its own is: no term that is verified has one.
fn no_meaning() -> Value
    ensures { value_view result ≡ truth false }
{
    Value::Truth { holds: false }
}

/// The value of a call of two whole numbers.
fn arithmetic(operation: Arithmetic, left: &Value, right: &Value) -> Result<Value, EvaluationError>
    ensures { GivesCall result (interpreted (whole_arithmetic (arithmetic_view operation)) (two (value_view left.now) (value_view right.now))) }
{
    match left {
        Value::Whole { number: m } => match right {
            Value::Whole { number: n } => match operation.computes(*m, *n) {
                Some(number) => Ok(Value::Whole { number }),
                None => Err(EvaluationError::Number),
            },
            _ => Ok(no_meaning()),
        },
        _ => Ok(no_meaning()),
    }
}

/// Whether two whole numbers compare so.
fn comparison(operation: Comparison, left: &Value, right: &Value) -> Value
    ensures { value_view result ≡ interpreted (whole_comparison (comparison_view operation)) (two (value_view left.now) (value_view right.now)) }
{
    match left {
        Value::Whole { number: m } => match right {
            Value::Whole { number: n } => Value::Truth {
                holds: operation.holds(*m, *n),
            },
            _ => no_meaning(),
        },
        _ => no_meaning(),
    }
}

/// The truth value of two.
fn connective(operation: Connective, left: &Value, right: &Value) -> Value
    ensures { value_view result ≡ interpreted (truth_connective (connective_view operation)) (two (value_view left.now) (value_view right.now)) }
{
    match left {
        Value::Truth { holds: a } => match right {
            Value::Truth { holds: b } => Value::Truth {
                holds: operation.connects(*a, *b),
            },
            _ => no_meaning(),
        },
        _ => no_meaning(),
    }
}

/// The opposite truth value.
pub fn negation(value: &Value) -> Value
    ensures { value_view result ≡ interpreted truth_negation (next_value (value_view value.now) no_values) }
{
    match value {
        Value::Truth { holds } => Value::Truth { holds: !*holds },
        _ => no_meaning(),
    }
}

/// The value of a call of two arguments.
pub fn call_of_two(hook: Hook, left: &Value, right: &Value) -> Result<Value, EvaluationError>
    ensures { GivesCall result (interpreted (hook_view hook) (two (value_view left.now) (value_view right.now))) }
{
    match hook {
        Hook::Arithmetic(operation) => Ok(arithmetic(operation, left, right)?),
        Hook::Comparison(operation) => Ok(comparison(operation, left, right)),
        Hook::Connective(operation) => Ok(connective(operation, left, right)),
        Hook::Equal => Ok(truth_value(left.equal(right))),
        Hook::Different => Ok(truth_value(!left.equal(right))),
    }
}

impl CompiledTerm {
    /// The term's value under the bindings of its variables.
    #[cycle(evaluate)]
    pub fn evaluate(&self, alloc: Global, bindings: &[Binding]) -> Result<Value, EvaluationError>
        requires { term_reads (bound_names bindings.now) self.now ≡ true }
        ensures { Gives result bindings.now (term_view self.now) }
    {
        match self {
            CompiledTerm::Variable { slot, .. } => Ok(bound_at(bindings, *slot).share(alloc)?),
            CompiledTerm::Fixed { value } => Ok(value.share(alloc)?),
            CompiledTerm::Built {
                constructor,
                arguments,
            } => {
                let values = CompiledTerm::evaluate_all(alloc, arguments, bindings)?;
                let shared = Arc::new(alloc, values)?;
                let name = share_name(constructor)?;
                Ok(constructed_value(name, shared))
            }
            CompiledTerm::Call { hook, left, right } => {
                let left = left.evaluate(alloc, bindings)?;
                let right = right.evaluate(alloc, bindings)?;
                Ok(call_of_two(*hook, &left, &right)?)
            }
            CompiledTerm::Opposite { term } => {
                let value = term.evaluate(alloc, bindings)?;
                Ok(negation(&value))
            }
        }
    }

    /// The terms' values under the bindings, one by one.
    #[cycle(evaluate)]
    fn evaluate_all(
        alloc: Global,
        terms: &[CompiledTerm],
        bindings: &[Binding],
    ) -> Result<Vec<Value>, EvaluationError>
        requires { list_all (term_reads (bound_names bindings.now)) terms.now ≡ true }
        ensures { GiveAll result bindings.now terms.now }
    {
        let mut values = Vec::new(alloc);
        for term in terms {
            values.push(term.evaluate(alloc, bindings)?)?;
        }
        Ok(values)
    }
}
