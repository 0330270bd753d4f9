// A signature and the symbols by which sums are written over it.
ghost use Rattle.std.specs.Prelude.{◌≡◌, IfOk, string_bytes};
ghost use Rattle.std.specs.Option.{option_map};
ghost use Rattle.std.proofs.Props.{props};
ghost use Rattle.kp_kore.specs.Hooks.{addition as sum, subtraction as difference, whole_arithmetic};
ghost use Rattle.kp_kore.specs.Signature.{interpretation};
ghost use Rattle.kp_kore.specs.HookView.{arithmetic_view};
ghost use Rattle.kp_signature.specs.Meanings.{meaning_view};
ghost use Rattle.kp_kore.specs.View.{symbol_sentence_view};
ghost use Rattle.kp_signature.specs.View.{signature_view};
ghost use Rattle.kp_symbolic.specs.Sums.{least_with, text_seen};
ghost use Rattle.kp_symbolic.specs.Folding.{is_text_before, is_arithmetic as arithmetic_test, least_of, least_symbol as least_named};

use kp_kore::{Arithmetic, Hook, Name, SymbolSentence};
use kp_signature::{Function, Meaning, Signature, meaning_of};
use std::alloc::{AllocError, Global};
use std::sync::Arc;

/// A signature, and the symbols by which sums are written over it, looked up once.
#[derive(Drop)]
pub struct Language<'a> {
    pub signature: &'a Signature,
    pub addition: Option<Arc<String>>,
    pub subtraction: Option<Arc<String>>,
    ghost added: { option_map (λ f. string_bytes f.value) addition ≡ least_named (signature_view signature.now) sum } by { Prim.hlevel props },
    ghost subtracted: { option_map (λ f. string_bytes f.value) subtraction ≡ least_named (signature_view signature.now) difference } by { Prim.hlevel props },
}

impl<'a> Language<'a> {
    /// The language of a signature.
    pub fn new(alloc: Global, signature: &'a Signature) -> Result<Language<'a>, AllocError>
        ensures { IfOk result (λ l. signature_view l.signature.now ≡ signature_view signature.now) }
    {
        let addition = least_symbol(alloc, signature, Arithmetic::Addition)?;
        let subtraction = least_symbol(alloc, signature, Arithmetic::Subtraction)?;
        Ok(Language {
            signature,
            addition,
            subtraction,
        })
    }
}

/// Whether one text is before another in the order of bytes.
pub fn is_before(left: &str, right: &str) -> bool
    ensures { result ≡ is_text_before left.now right.now }
{
    left < right
}

/// Whether a symbol of this meaning computes so.
fn is_arithmetic(arithmetic: Arithmetic, meaning: Meaning) -> bool
    ensures { result ≡ arithmetic_test (arithmetic_view arithmetic) (meaning_view meaning) }
{
    match meaning {
        Meaning::Interpreted(Function::Two(Hook::Arithmetic(operation))) => {
            is_same(arithmetic, operation)
        }
        Meaning::Interpreted(
            Function::Two(
                Hook::Comparison(_) | Hook::Connective(_) | Hook::Equal | Hook::Different,
            ),
        ) => false,
        Meaning::Interpreted(Function::Negation) => false,
        Meaning::Injection | Meaning::Constructor | Meaning::Foreign => false,
    }
}

/// Whether both are the same arithmetic.
fn is_same(arithmetic: Arithmetic, operation: Arithmetic) -> bool
    ensures { result ≡ arithmetic_test (arithmetic_view arithmetic) (interpretation (whole_arithmetic (arithmetic_view operation))) }
{
    match arithmetic {
        Arithmetic::Addition => matches!(operation, Arithmetic::Addition),
        Arithmetic::Subtraction => matches!(operation, Arithmetic::Subtraction),
        Arithmetic::Multiplication => matches!(operation, Arithmetic::Multiplication),
    }
}

/// The least name among the symbols that compute this, shared.
fn least_symbol(
    alloc: Global,
    signature: &Signature,
    arithmetic: Arithmetic,
) -> Result<Option<Arc<String>>, AllocError>
    ensures { IfOk result (λ o. option_map (λ f. string_bytes f.value) o ≡ least_named (signature_view signature.now) (arithmetic_view arithmetic)) }
{
    match least_name(signature, arithmetic) {
        Some(name) => Ok(Some(Arc::new(alloc, name.clone()?)?)),
        None => Ok(None),
    }
}

/// The least name among the symbols that compute this.
fn least_name<'a>(signature: &'a Signature, arithmetic: Arithmetic) -> Option<&'a Name>
    ensures { text_seen result ≡ least_named (signature_view signature.now) (arithmetic_view arithmetic) }
{
    let symbols = signature.symbols();
    let mut least: Option<&Name> = None;
    let mut left = symbols.len();
    while left > 0 {
        left -= 1;
        least = lesser_if(signature, arithmetic, &symbols[left], least);
    }
    least
}

/// The lesser of the symbol's name and another, where the symbol computes this, else the other.
fn lesser_if<'a>(
    signature: &Signature,
    arithmetic: Arithmetic,
    symbol: &'a SymbolSentence,
    other: Option<&'a Name>,
) -> Option<&'a Name>
    ensures { let g = signature_view signature.now in let arithmetic' = arithmetic_view arithmetic in let symbol' = symbol_sentence_view symbol.now in text_seen result ≡ least_with g arithmetic' symbol' (text_seen other.entry) }
{
    if is_arithmetic(arithmetic, meaning_of(signature, &symbol.name)) {
        Some(lesser(&symbol.name, other))
    } else {
        other
    }
}

/// The lesser of two names, in the order of bytes.
fn lesser<'a>(name: &'a Name, other: Option<&'a Name>) -> &'a Name
    ensures { string_bytes result.now ≡ least_of (string_bytes name.now) (text_seen other.entry) }
{
    match other {
        Some(other) => if is_before(other, name) { other } else { name },
        None => name,
    }
}
