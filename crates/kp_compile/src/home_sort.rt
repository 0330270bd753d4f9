// Whether a value is written at a sort without `inj` around it.
ghost use Rattle.std.specs.Prelude.{◌≡◌, ◌↔◌, IsTrue, string_bytes, unwrap_or};
ghost use Rattle.std.specs.Option.{option_map};
ghost use Rattle.kp_kore.specs.Syntax.{sort_of, no_sorts};
ghost use Rattle.kp_kore.specs.Signature.{symbol_declared};
ghost use Rattle.kp_kore.specs.View.{sort_view};
ghost use Rattle.kp_signature.specs.View.{signature_view};
ghost use Rattle.kp_ground.specs.View.{value_view};
ghost use Rattle.kp_compile.specs.Spelled.{home_of};

use kp_ground::Value;
use kp_kore::{Name, Sort};
use kp_signature::Signature;

/// Whether a value is written at a sort without `inj` around it: its own sort is this one, or it has none.
pub fn is_home(value: &Value, signature: &Signature, sort: &Sort) -> bool
    ensures { IsTrue result ↔ (home_of (signature_view signature.now) (sort_view sort.now) (value_view value.now) ≡ sort_view sort.now) }
{
    match value {
        Value::Whole { .. } => is_sort_named(signature.integer_sort(), sort),
        Value::Truth { .. } => is_sort_named(signature.boolean_sort(), sort),
        Value::Token { sort: own, .. } => own.equal(sort),
        Value::Constructed { constructor, .. } => is_result(signature, constructor, sort),
    }
}

/// Whether the sort is that of the name without arguments, where there is a name.
fn is_sort_named(name: Option<&Name>, sort: &Sort) -> bool
    ensures { IsTrue result ↔ (unwrap_or (option_map (λ n. sort_of (string_bytes n.now) no_sorts) name.entry) (sort_view sort.now) ≡ sort_view sort.now) }
{
    match name {
        Some(name) => is_plain_sort(name, sort),
        None => true,
    }
}

/// Whether the sort is that of the name without arguments.
fn is_plain_sort(plain: &Name, sort: &Sort) -> bool
    ensures { IsTrue result ↔ (sort_of (string_bytes plain.now) no_sorts ≡ sort_view sort.now) }
{
    match sort {
        Sort::App { name, arguments } => arguments.is_empty() && name == plain,
        Sort::Variable { .. } => false,
    }
}

/// Whether a constructor is written at a sort without `inj` around it.
fn is_result(signature: &Signature, constructor: &str, sort: &Sort) -> bool
    ensures { let g = signature_view signature.now in IsTrue result ↔ (unwrap_or (option_map (λ d. d.result) (symbol_declared g constructor.now)) (sort_view sort.now) ≡ sort_view sort.now) }
{
    match signature.symbol(constructor) {
        Some(symbol) => symbol.result_sort.equal(sort),
        None => true,
    }
}
