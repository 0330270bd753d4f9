// Whether a value or a term has few levels, asked without writing it.
ghost use Rattle.std.specs.Prelude.{◌≡◌, map};
ghost use Rattle.kp_ground.specs.View.{value_view, values_of};
ghost use Rattle.kp_symbolic.specs.View.{term_view, terms_of};
ghost use Rattle.kp_simplify.specs.Levels as model;

use kp_ground::Value;
use kp_symbolic::Term;

/// Whether a value has at most so many levels.
#[cycle(values)]
fn is_shallow_value(value: &Value, levels: u64) -> bool
    ensures { result ≡ model.is_shallow_value (value_view value.now) levels }
{
    if levels == 0 {
        return false;
    }
    match value {
        Value::Constructed { arguments, .. } => are_shallow_values(arguments, levels - 1),
        Value::Whole { .. } | Value::Truth { .. } | Value::Token { .. } => true,
    }
}

/// Whether all of these have.
#[cycle(values)]
fn are_shallow_values(values: &[Value], levels: u64) -> bool
    ensures { result ≡ model.are_shallow_values (values_of (map value_view values.now)) levels }
{
    for value in values {
        if !is_shallow_value(value, levels) {
            return false;
        }
    }
    true
}

/// Whether a term has at most so many levels: a sum of a variable and a constant has two.
#[cycle(terms)]
pub fn is_shallow(term: &Term, levels: u64) -> bool
    ensures { result ≡ model.is_shallow_term (term_view term.now) levels }
{
    if levels == 0 {
        return false;
    }
    match term {
        Term::Unknown { .. } => true,
        Term::Offset { .. } => levels > 1,
        Term::Known { value } => is_shallow_value(value, levels),
        Term::Headed { arguments, .. } => are_shallow(arguments, levels - 1),
    }
}

/// Whether all of these have.
#[cycle(terms)]
fn are_shallow(terms: &[Term], levels: u64) -> bool
    ensures { result ≡ model.are_shallow_terms (terms_of (map term_view terms.now)) levels }
{
    for term in terms {
        if !is_shallow(term, levels) {
            return false;
        }
    }
    true
}
