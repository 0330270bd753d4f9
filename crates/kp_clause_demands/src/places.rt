// Places of names and of tokens in lists.
ghost use Rattle.std.specs.Prelude.{◌≡◌, ◌≤◌, length, map, string_bytes};
ghost use Rattle.std.specs.Option.{option_map};
ghost use Rattle.std.specs.Str.{bytes_eq};
ghost use Rattle.kp_ground.specs.View.{value_view};
ghost use Rattle.kp_kore.specs.Value.{values_same};
ghost use Rattle.kp_symbolic.specs.Plain.{some_token, one_token};
ghost use Rattle.kp_literals.specs.Forms.{token_part_view};
ghost use Rattle.kp_clause_demands.specs.Numbers as spec;
ghost use Rattle.kp_clause_demands.specs.Numbers.{texts};

use kp_ground::Value;
use kp_kore::Name;
use kp_literals::TokenPart;
use kp_symbolic::Variable;

/// The place of the first name that is this one; how many there are, where none is.
pub fn place_of_name(names: &[&Name], name: &Name) -> usize
    ensures place { result ≡ spec.place_by bytes_eq (texts names.now) (string_bytes name.now) }
    ensures within { result ≤ length names.now }
{
    for i in 0..names.len() {
        if name.as_str() == names[i].as_str() {
            return i;
        }
    }
    names.len()
}

/// The number of a whole number's variable, 0 for none.
pub fn whole_number(names: &[&Name], variable: Option<&Variable>) -> usize
    ensures { result ≡ spec.whole_number (texts names.now) (option_map (λ x. string_bytes x.now.name) variable.entry) }
{
    match variable {
        Some(variable) => names.len() - place_of_name(names, &variable.name),
        None => 0,
    }
}

/// Whether the side is the variable of this name.
fn is_variable(part: TokenPart, name: &Name) -> bool
    ensures { result ≡ spec.parts_same (some_token (string_bytes name.now)) (token_part_view part.entry) }
{
    match part {
        TokenPart::Unknown { variable } => name.as_str() == variable.name.as_str(),
        TokenPart::Known { .. } => false,
    }
}

/// Whether two values are one.
fn is_same_value(value: &Value, other: &Value) -> bool
    ensures { result ≡ values_same (value_view value.now) (value_view other.now) }
{
    value.equal(other)
}

/// Whether the side is this value.
fn is_value(part: TokenPart, value: &Value) -> bool
    ensures { result ≡ spec.parts_same (one_token (value_view value.now)) (token_part_view part.entry) }
{
    match part {
        TokenPart::Unknown { .. } => false,
        TokenPart::Known { value: other } => is_same_value(value, other),
    }
}

/// Whether two sides are one variable, or one value.
fn is_same_part(first: TokenPart, second: TokenPart) -> bool
    ensures { result ≡ spec.parts_same (token_part_view first.entry) (token_part_view second.entry) }
{
    match first {
        TokenPart::Unknown { variable } => is_variable(second, &variable.name),
        TokenPart::Known { value } => is_value(second, value),
    }
}

/// The place of the first side that is the same as this one; how many there are, where none is.
pub fn place_of_part(parts: &[TokenPart], part: TokenPart) -> usize
    ensures { result ≡ spec.place_by spec.parts_same (map token_part_view parts.now) (token_part_view part.entry) }
{
    for i in 0..parts.len() {
        if is_same_part(part, parts[i]) {
            return i;
        }
    }
    parts.len()
}
