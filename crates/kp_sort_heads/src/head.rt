// Which heads a sort has, and which of them some value has.
ghost use Rattle.std.specs.Prelude.{◌≡◌, ◌↔◌, IsTrue, Some, string_bytes, true};
ghost use Rattle.kp_kore.specs.Signature as model;
ghost use Rattle.kp_kore.specs.Signature.{is_own_below};
ghost use Rattle.kp_kore.specs.Syntax.{KoreSort};
ghost use Rattle.kp_kore.specs.View.{sort_view, symbol_sentence_view};
ghost use Rattle.kp_signature.specs.View.{signature_view};
ghost use Rattle.kp_symbolic.specs.Heads.{is_constructor_head};
ghost use Rattle.kp_heads.specs.Heads.{IsLive};
ghost use Rattle.kp_heads.specs.Made.{IsHeadTableOf};
ghost use Rattle.kp_sort_heads.specs.Views.{head_view};

use kp_heads::HeadTable;
use kp_kore::{Name, Sort, SymbolSentence};
use kp_literals::value_kinds::{has_numbers, has_tokens_of, has_truths, lies_below};
use kp_signature::Signature;
use kp_signature::symbols::is_constructor;

/// What a value is built with: a whole number, a truth value, a token of a sort, or the constructor of this name.
#[derive(Clone, Copy)]
pub enum SortHead<'a> {
    Integers,
    Booleans,
    Tokens { sort: &'a Sort },
    Constructor { declaration: &'a SymbolSentence },
}

/// Whether the head is the constructor of this name.
pub fn is_named(head: &SortHead, name: &str) -> bool
    ensures { result ≡ is_constructor_head name.now (head_view head.now) }
{
    match head {
        SortHead::Constructor { declaration } => declaration.name.as_str() == name,
        SortHead::Integers | SortHead::Booleans | SortHead::Tokens { .. } => false,
    }
}

/// Whether values of the sort may have the head.
pub fn is_head(signature: &Signature, sort: &Sort, head: &SortHead) -> bool
    ensures { result ≡ model.is_head (signature_view signature.now) (sort_view sort.now) (head_view head.now) }
{
    match head {
        SortHead::Integers => has_numbers(signature, sort),
        SortHead::Booleans => has_truths(signature, sort),
        SortHead::Tokens { sort: tokens } => has_tokens_of(signature, tokens, sort),
        SortHead::Constructor { declaration } => has_constructor(
            signature,
            &declaration.name,
            sort,
        ),
    }
}

/// Whether the symbol of this name is a constructor that makes values of the sort.
fn has_constructor(signature: &Signature, name: &Name, sort: &Sort) -> bool
    ensures { result ≡ model.is_head (signature_view signature.now) (sort_view sort.now) (model.constructor_of (string_bytes name.now)) }
{
    match signature.symbol(name) {
        Some(declaration) => makes_values(signature, declaration, sort),
        None => false,
    }
}

/// Whether the symbol is a constructor that makes values of the sort.
fn makes_values(signature: &Signature, declaration: &SymbolSentence, sort: &Sort) -> bool
    ensures { result ≡ is_own_below (signature_view signature.now) (sort_view sort.now) (model.sort_made (Some (symbol_sentence_view declaration.now))) }
{
    is_constructor(declaration) && lies_below(signature, &declaration.result_sort, sort)
}

/// Whether some value has the head, which is one of a sort, where the table is the signature's.
pub fn is_live(table: &HeadTable, signature: &Signature, head: &SortHead) -> bool
    ensures { (s : KoreSort) → let g = signature_view signature.now in IsHeadTableOf g table.now → model.is_head g s (head_view head.now) ≡ true → IsTrue result ↔ IsLive g (head_view head.now) }
{
    match head {
        SortHead::Integers => true,
        SortHead::Booleans => true,
        SortHead::Tokens { .. } => true,
        SortHead::Constructor { declaration } => table.is_live(signature, &declaration.name),
    }
}
