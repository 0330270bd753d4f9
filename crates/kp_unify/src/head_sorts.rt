// Which sorts the head of a term has.
ghost use Rattle.std.specs.Prelude.{◌≡◌, Some, FitsSigned};
ghost use Rattle.std.specs.Int.{w128};
ghost use Rattle.kp_kore.specs.HookView.{hook_view};
ghost use Rattle.kp_kore.specs.Parts.{SortedName};
ghost use Rattle.kp_kore.specs.Signature as model;
ghost use Rattle.kp_kore.specs.View.{sort_view, symbol_sentence_view};
ghost use Rattle.kp_kore.specs.Value.{head_of};
ghost use Rattle.kp_signature.specs.View.{signature_view};
ghost use Rattle.kp_ground.specs.View.{value_view};
ghost use Rattle.kp_compile.specs.Spelled.{NumbersFit};
ghost use Rattle.kp_symbolic.specs.Heads.{is_construction};
ghost use Rattle.kp_symbolic.specs.Opening.{head_of_call};
ghost use Rattle.kp_symbolic.specs.Terms.{unknown};
ghost use Rattle.kp_symbolic.specs.View.{term_view};
ghost use Rattle.kp_case_laws.specs.Rows.{IsHeadOfSymbol, IsOfHead};
ghost use Rattle.kp_unify.specs.Literals.{IsLiteral};

use kp_ground::Value;
use kp_kore::{Hook, Sort, SymbolSentence};
use kp_literals::value_kinds::{has_numbers, has_tokens_of, has_truths, lies_below};
use kp_signature::symbols::is_constructor as is_construction_declared;
use kp_signature::{Function, Meaning, Signature, meaning_of};
use kp_symbolic::Term;

/// Whether the symbol of this name is a constructor that makes values of the sort.
pub fn makes(signature: &Signature, symbol: &str, sort: &Sort) -> bool
    ensures { result ≡ model.is_head (signature_view signature.now) (sort_view sort.now) (model.constructor_of symbol.now) }
{
    match signature.symbol(symbol) {
        Some(declaration) => makes_values(signature, declaration, sort),
        None => false,
    }
}

/// Whether the symbol is a constructor that makes values of the sort.
fn makes_values(signature: &Signature, declaration: &SymbolSentence, sort: &Sort) -> bool
    ensures { result ≡ model.is_own_below (signature_view signature.now) (sort_view sort.now) (model.sort_made (Some (symbol_sentence_view declaration.now))) }
{
    is_construction_declared(declaration) && lies_below(signature, &declaration.result_sort, sort)
}

/// Whether the symbol is a constructor.
pub fn is_constructor(signature: &Signature, symbol: &str) -> bool
    ensures { result ≡ is_construction (model.meaning_of (signature_view signature.now) symbol.now) }
{
    matches!(meaning_of(signature, symbol), Meaning::Constructor)
}

/// Whether the value's head is one of the sort's.
fn is_value_of(signature: &Signature, value: &Value, sort: &Sort) -> bool
    ensures { result ≡ model.is_head (signature_view signature.now) (sort_view sort.now) (head_of (value_view value.now)) }
{
    match value {
        Value::Whole { .. } => has_numbers(signature, sort),
        Value::Truth { .. } => has_truths(signature, sort),
        Value::Token { sort: own, .. } => has_tokens_of(signature, own, sort),
        Value::Constructed { constructor, .. } => makes(signature, constructor, sort),
    }
}

/// Whether whole numbers of 128 bits, as this is one, have the sort.
fn has_whole(signature: &Signature, _number: i128, sort: &Sort) -> bool
    ensures head { result ≡ model.is_head (signature_view signature.now) (sort_view sort.now) model.integers }
    ensures fits { FitsSigned w128 _number }
{
    has_numbers(signature, sort)
}

/// Whether a literal's head is one of the sort's.
pub fn is_own_literal(signature: &Signature, value: &Value, sort: &Sort) -> bool
    requires { IsLiteral (value_view value.now) }
    ensures head { result ≡ model.is_head (signature_view signature.now) (sort_view sort.now) (head_of (value_view value.now)) }
    ensures fits { NumbersFit (value_view value.now) }
{
    match value {
        Value::Whole { number } => has_whole(signature, *number, sort),
        Value::Truth { .. } => has_truths(signature, sort),
        Value::Token { sort: own, .. } => has_tokens_of(signature, own, sort),
        Value::Constructed { constructor, .. } => makes(signature, constructor, sort),
    }
}

/// Whether the values of the hook's calls have the sort.
fn is_call_of(signature: &Signature, hook: Hook, sort: &Sort) -> bool
    ensures { result ≡ model.is_head (signature_view signature.now) (sort_view sort.now) (head_of_call (hook_view hook)) }
{
    match hook {
        Hook::Arithmetic(_) => has_numbers(signature, sort),
        Hook::Comparison(_) | Hook::Connective(_) | Hook::Equal | Hook::Different => {
            has_truths(signature, sort)
        }
    }
}

/// Whether the values of the symbol's applications have the sort.
fn is_applied_of(signature: &Signature, symbol: &str, sort: &Sort) -> bool
    ensures { (h : model.Head) → let g = signature_view signature.now in IsHeadOfSymbol symbol.now (model.meaning_of g symbol.now) h → result ≡ model.is_head g (sort_view sort.now) h }
{
    match meaning_of(signature, symbol) {
        Meaning::Constructor => makes(signature, symbol, sort),
        Meaning::Interpreted(Function::Negation) => has_truths(signature, sort),
        Meaning::Interpreted(Function::Two(hook)) => is_call_of(signature, hook, sort),
        Meaning::Injection | Meaning::Foreign => false,
    }
}

/// Whether each value of the term has the sort: of a variable that its own sort lies below it, of another term its head.
pub fn has_sort(signature: &Signature, term: &Term, sort: &Sort) -> bool
    ensures variable { (x : SortedName) → term_view term.now ≡ unknown x → result ≡ model.is_below (signature_view signature.now).subsorts x.sort (sort_view sort.now) }
    ensures head { (h : model.Head) → let g = signature_view signature.now in IsOfHead g (term_view term.now) h → result ≡ model.is_head g (sort_view sort.now) h }
{
    match term {
        Term::Unknown { variable } => lies_below(signature, &variable.sort, sort),
        Term::Offset { .. } => has_numbers(signature, sort),
        Term::Known { value } => is_value_of(signature, value, sort),
        Term::Headed { symbol, .. } => is_applied_of(signature, symbol, sort),
    }
}
