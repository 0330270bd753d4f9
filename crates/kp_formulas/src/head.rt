// Heads of values, and whether they are heads of a sort.
ghost use Rattle.std.specs.Prelude.{◌≡◌, Some, None, if◌then◌else◌, IfOk, string_bytes};
ghost use Rattle.std.specs.Option.{option_map};
ghost use Rattle.kp_ground.specs.View.{value_view};
ghost use Rattle.kp_kore.specs.Syntax.{sort_of, no_sorts};
ghost use Rattle.kp_kore.specs.Signature.{is_below, is_own_below, is_head as head_test, symbol_declared, sort_made as made_sort, tokens, constructor_of};
ghost use Rattle.kp_kore.specs.View.{sort_view, symbol_sentence_view};
ghost use Rattle.kp_kore.specs.Value.{head_of as head_of_value};
ghost use Rattle.kp_signature.specs.View.{signature_view};
ghost use Rattle.kp_symbolic.specs.Heads.{is_constructor_head, passes_head as passes_test};
ghost use Rattle.kp_symbolic.specs.View.{test_view};
ghost use Rattle.kp_formulas.specs.LeafView.{head_view};

use kp_ground::Value;
use kp_kore::{Name, Sort, SymbolSentence};
use kp_signature::Signature;
use kp_signature::symbols::is_constructor;
use kp_symbolic::HeadTest;
use std::alloc::{AllocError, Global};

/// The head of a value. `head_view` in specs/View.antt says which one it is.
#[derive(Clone, Copy)]
pub enum LeafHead<'a> {
    Integers,
    Booleans,
    /// Texts of this sort.
    Tokens { sort: &'a Sort },
    Constructor { symbol: &'a str },
}

/// The head of a value.
pub fn head_of<'a>(value: &'a Value) -> LeafHead<'a>
    ensures { head_view result ≡ head_of_value (value_view value.now) }
{
    match value {
        Value::Whole { .. } => LeafHead::Integers,
        Value::Truth { .. } => LeafHead::Booleans,
        Value::Token { sort, .. } => LeafHead::Tokens { sort },
        Value::Constructed { constructor, .. } => LeafHead::Constructor {
            symbol: constructor,
        },
    }
}

/// Whether a sort is another or lies below it.
fn lies_below(signature: &Signature, lower: &Sort, upper: &Sort) -> bool
    ensures { result ≡ is_below (signature_view signature.now).subsorts (sort_view lower.now) (sort_view upper.now) }
{
    signature.subsort(lower, upper)
}

/// Whether a head's own sort, where it has one, is the sort or lies below it.
fn is_below_if(signature: &Signature, own: Option<&Sort>, sort: &Sort) -> bool
    ensures { result ≡ is_own_below (signature_view signature.now) (sort_view sort.now) (option_map (λ s. sort_view s.now) own.entry) }
{
    match own {
        Some(own) => lies_below(signature, own, sort),
        None => false,
    }
}

/// A sort without arguments.
fn plain_sort(alloc: Global, name: &Name) -> Result<Sort, AllocError>
    ensures { IfOk result (λ s. sort_view s ≡ sort_of (string_bytes name.now) no_sorts) }
{
    Ok(Sort::App {
        name: name.clone()?,
        arguments: Vec::new(alloc),
    })
}

/// Whether the sort of this name, if there is one, is the sort or lies below it.
fn is_named_below(
    alloc: Global,
    signature: &Signature,
    name: Option<&Name>,
    sort: &Sort,
) -> Result<bool, AllocError>
    ensures { IfOk result (λ b. b ≡ is_own_below (signature_view signature.now) (sort_view sort.now) (option_map (λ n. sort_of (string_bytes n.now) no_sorts) name.entry)) }
{
    match name {
        Some(name) => {
            let own = plain_sort(alloc, name)?;
            Ok(lies_below(signature, &own, sort))
        }
        None => Ok(false),
    }
}

/// The sort of the symbol's values, where this is so.
fn result_if(holds: bool, declaration: &SymbolSentence) -> Option<&Sort>
    ensures { option_map (λ s. sort_view s.now) result ≡ (if holds then Some (symbol_sentence_view declaration.now).result else None) }
{
    if holds {
        Some(&declaration.result_sort)
    } else {
        None
    }
}

/// The sort of a constructor's values.
fn sort_made<'a>(signature: &'a Signature, symbol: &str) -> Option<&'a Sort>
    ensures { option_map (λ s. sort_view s.now) result ≡ made_sort (symbol_declared (signature_view signature.now) symbol.now) }
{
    match signature.symbol(symbol) {
        Some(declaration) => result_if(is_constructor(declaration), declaration),
        None => None,
    }
}

/// Whether the tokens of a sort are values of another.
fn are_tokens_below(signature: &Signature, own: &Sort, sort: &Sort) -> bool
    ensures { result ≡ head_test (signature_view signature.now) (sort_view sort.now) (tokens (sort_view own.now)) }
{
    if signature.is_token_sort(own) {
        return lies_below(signature, own, sort);
    }
    false
}

/// Whether it is a head of the sort.
pub fn is_head(
    alloc: Global,
    signature: &Signature,
    sort: &Sort,
    head: LeafHead<'_>,
) -> Result<bool, AllocError>
    ensures { IfOk result (λ b. b ≡ head_test (signature_view signature.now) (sort_view sort.now) (head_view head.entry)) }
{
    match head {
        LeafHead::Integers => is_named_below(alloc, signature, signature.integer_sort(), sort),
        LeafHead::Booleans => is_named_below(alloc, signature, signature.boolean_sort(), sort),
        LeafHead::Tokens { sort: own } => Ok(are_tokens_below(signature, own, sort)),
        LeafHead::Constructor { symbol } => {
            Ok(is_below_if(signature, sort_made(signature, symbol), sort))
        }
    }
}

/// Whether it is the head of this constructor.
fn is_head_of(symbol: &str, head: LeafHead<'_>) -> bool
    ensures { result ≡ is_constructor_head symbol.now (head_view head.entry) }
{
    match head {
        LeafHead::Constructor { symbol: other } => other == symbol,
        LeafHead::Integers | LeafHead::Booleans | LeafHead::Tokens { .. } => false,
    }
}

/// Whether a head passes the test.
pub fn passes_head(
    alloc: Global,
    signature: &Signature,
    test: &HeadTest,
    head: LeafHead<'_>,
) -> Result<bool, AllocError>
    ensures { IfOk result (λ b. b ≡ passes_test (signature_view signature.now) (test_view test.now) (head_view head.entry)) }
{
    match test {
        HeadTest::Constructor { symbol } => Ok(is_head_of(symbol, head)),
        HeadTest::Sort { sort } => is_head(alloc, signature, sort, head),
    }
}
