// Of which kind all values of a sort are, told without memory.
ghost use Rattle.std.specs.Prelude.{◌≡◌, ◌&&◌, ◌||◌, not, Some, map, string_bytes};
ghost use Rattle.kp_kore.specs.Attributes.{sorts_equal};
ghost use Rattle.kp_kore.specs.Signature as head;
ghost use Rattle.kp_kore.specs.Signature.{is_below, is_head, is_own_below};
ghost use Rattle.kp_kore.specs.View.{sort_view, symbol_sentence_view};
ghost use Rattle.kp_signature.specs.Pairs.{subsort_view};
ghost use Rattle.kp_signature.specs.View.{signature_view};
ghost use Rattle.kp_symbolic.specs.Plain as plain;
ghost use Rattle.kp_literals.specs.Kinds.{lower_sorts, lowers, some_below, are_other, no_tokens_among, no_constructors_among, tokens_are, one_kind_of_tokens};

use kp_kore::{Name, Sort, SymbolSentence};
use kp_signature::symbols::is_constructor;
use kp_signature::{Signature, Subsort};

/// Whether all values of the sort are whole numbers.
pub fn has_only_numbers(signature: &Signature, sort: &Sort) -> bool
    ensures { result ≡ head.has_only_numbers (signature_view signature.now) (sort_view sort.now) }
{
    if signature.is_number_sort(sort) {
        return true;
    }
    has_numbers_at_most(signature, sort)
}

/// Whether all values of the sort are truth values.
pub fn has_only_truths(signature: &Signature, sort: &Sort) -> bool
    ensures { result ≡ head.has_only_truths (signature_view signature.now) (sort_view sort.now) }
{
    if signature.is_truth_sort(sort) {
        return true;
    }
    has_truths_at_most(signature, sort)
}

/// Whether all values of the sort are tokens of one sort.
pub fn has_only_tokens(signature: &Signature, sort: &Sort) -> bool
    ensures { result ≡ plain.has_only_tokens (signature_view signature.now) (sort_view sort.now) }
{
    has_tokens_at_most(signature, sort)
}

/// Whether the sort has heads, and no others than tokens of one sort.
fn has_tokens_at_most(signature: &Signature, sort: &Sort) -> bool
    ensures { let g = signature_view signature.now in let sort' = sort_view sort.now in result ≡ (not (is_head g sort' head.integers) && not (is_head g sort' head.booleans) && (one_kind_of_tokens g sort' (lowers g sort') && no_constructors_among g sort' g.symbols)) }
{
    !has_numbers(signature, sort)
        && !has_truths(signature, sort)
        && has_tokens_alone(signature, sort)
}

/// Whether the sort has no heads but whole numbers.
fn has_numbers_at_most(signature: &Signature, sort: &Sort) -> bool
    ensures { result ≡ (not (is_head (signature_view signature.now) (sort_view sort.now) head.booleans) && are_other (signature_view signature.now) (sort_view sort.now)) }
{
    !has_truths(signature, sort) && has_no_others(signature, sort)
}

/// Whether the sort has no heads but truth values.
fn has_truths_at_most(signature: &Signature, sort: &Sort) -> bool
    ensures { result ≡ (not (is_head (signature_view signature.now) (sort_view sort.now) head.integers) && are_other (signature_view signature.now) (sort_view sort.now)) }
{
    !has_numbers(signature, sort) && has_no_others(signature, sort)
}

/// Whether the sort's heads but whole numbers and truth values are tokens of one sort, and there are some.
fn has_tokens_alone(signature: &Signature, sort: &Sort) -> bool
    ensures { let g = signature_view signature.now in let sort' = sort_view sort.now in result ≡ (one_kind_of_tokens g sort' (lowers g sort') && no_constructors_among g sort' g.symbols) }
{
    has_tokens_of_one(signature, sort) && makes_none(signature, sort)
}

/// Whether whole numbers are values of the sort.
pub fn has_numbers(signature: &Signature, sort: &Sort) -> bool
    ensures { result ≡ is_head (signature_view signature.now) (sort_view sort.now) head.integers }
{
    has_numbers_by(signature, signature.subsorts(), sort)
}

/// Whether the sort of whole numbers is the sort, or is below it and on the left of one of these pairs.
fn has_numbers_by(signature: &Signature, pairs: &[Subsort], sort: &Sort) -> bool
    ensures { let g = signature_view signature.now in let sort' = sort_view sort.now in result ≡ (head.is_integer_sort g sort' || some_below g sort' (head.is_integer_sort g) (lower_sorts (map subsort_view pairs.now))) }
{
    signature.is_integer_sort(sort) || has_numbers_among(signature, pairs, sort)
}

/// Whether truth values are values of the sort.
pub fn has_truths(signature: &Signature, sort: &Sort) -> bool
    ensures { result ≡ is_head (signature_view signature.now) (sort_view sort.now) head.booleans }
{
    has_truths_by(signature, signature.subsorts(), sort)
}

/// Whether the sort of truth values is the sort, or is below it and on the left of one of these pairs.
fn has_truths_by(signature: &Signature, pairs: &[Subsort], sort: &Sort) -> bool
    ensures { let g = signature_view signature.now in let sort' = sort_view sort.now in result ≡ (head.is_boolean_sort g sort' || some_below g sort' (head.is_boolean_sort g) (lower_sorts (map subsort_view pairs.now))) }
{
    signature.is_boolean_sort(sort) || has_truths_among(signature, pairs, sort)
}

/// Whether the sort of whole numbers is on the left of one of these pairs, and below the sort.
fn has_numbers_among(signature: &Signature, pairs: &[Subsort], sort: &Sort) -> bool
    ensures { let g = signature_view signature.now in result ≡ some_below g (sort_view sort.now) (head.is_integer_sort g) (lower_sorts (map subsort_view pairs.now)) }
{
    for pair in pairs {
        if signature.is_integer_sort(&pair.lower) && lies_below(signature, &pair.lower, sort) {
            return true;
        }
    }
    false
}

/// Whether the sort of truth values is on the left of one of these pairs, and below the sort.
fn has_truths_among(signature: &Signature, pairs: &[Subsort], sort: &Sort) -> bool
    ensures { let g = signature_view signature.now in result ≡ some_below g (sort_view sort.now) (head.is_boolean_sort g) (lower_sorts (map subsort_view pairs.now)) }
{
    for pair in pairs {
        if signature.is_boolean_sort(&pair.lower) && lies_below(signature, &pair.lower, sort) {
            return true;
        }
    }
    false
}

/// Whether the sort has neither tokens nor constructors for heads.
fn has_no_others(signature: &Signature, sort: &Sort) -> bool
    ensures { result ≡ are_other (signature_view signature.now) (sort_view sort.now) }
{
    !has_tokens_of(signature, sort, sort)
        && has_no_lower_tokens(signature, sort)
        && makes_none(signature, sort)
}

/// Whether no tokens but those of the sort itself are heads of it.
fn has_no_lower_tokens(signature: &Signature, sort: &Sort) -> bool
    ensures { result ≡ no_tokens_among (signature_view signature.now) (sort_view sort.now) (lower_sorts (signature_view signature.now).subsorts) }
{
    has_no_tokens(signature, signature.subsorts(), sort)
}

/// Whether no constructor makes values of the sort.
fn makes_none(signature: &Signature, sort: &Sort) -> bool
    ensures { result ≡ no_constructors_among (signature_view signature.now) (sort_view sort.now) (signature_view signature.now).symbols }
{
    has_no_constructors(signature, signature.symbols(), sort)
}

/// Whether the tokens among the sort's heads are those of one sort, and there are some.
fn has_tokens_of_one(signature: &Signature, sort: &Sort) -> bool
    ensures { result ≡ one_kind_of_tokens (signature_view signature.now) (sort_view sort.now) (lowers (signature_view signature.now) (sort_view sort.now)) }
{
    if has_tokens_of(signature, sort, sort) {
        has_own_tokens_only(signature, sort)
    } else {
        has_one_lower_kind(signature, sort)
    }
}

/// Whether all tokens among the sort's heads are its own.
fn has_own_tokens_only(signature: &Signature, sort: &Sort) -> bool
    ensures { result ≡ tokens_are (signature_view signature.now) (sort_view sort.now) (sort_view sort.now) (lower_sorts (signature_view signature.now).subsorts) }
{
    are_tokens_of(signature, sort, signature.subsorts(), sort)
}

/// Whether the tokens among the sort's heads, but for its own, are those of one sort, and there are some.
fn has_one_lower_kind(signature: &Signature, sort: &Sort) -> bool
    ensures { result ≡ one_kind_of_tokens (signature_view signature.now) (sort_view sort.now) (lower_sorts (signature_view signature.now).subsorts) }
{
    has_one_kind(signature, signature.subsorts(), sort)
}

/// The same of the tokens of the sorts on the left of these pairs.
fn has_one_kind(signature: &Signature, pairs: &[Subsort], sort: &Sort) -> bool
    ensures { result ≡ one_kind_of_tokens (signature_view signature.now) (sort_view sort.now) (lower_sorts (map subsort_view pairs.now)) }
{
    let mut left = pairs;
    while let [first, rest @ ..] = left {
        if has_tokens_of(signature, &first.lower, sort) {
            return are_tokens_of(signature, &first.lower, rest, sort);
        }
        left = rest;
    }
    false
}

/// Whether the tokens of the sorts on the left of these pairs, where they are heads of the sort, are those of this one.
fn are_tokens_of(signature: &Signature, tokens: &Sort, pairs: &[Subsort], sort: &Sort) -> bool
    ensures { result ≡ tokens_are (signature_view signature.now) (sort_view sort.now) (sort_view tokens.now) (lower_sorts (map subsort_view pairs.now)) }
{
    for pair in pairs {
        if !is_same(tokens, &pair.lower) && has_tokens_of(signature, &pair.lower, sort) {
            return false;
        }
    }
    true
}

/// Whether no tokens of the sorts on the left of these pairs are heads of the sort.
fn has_no_tokens(signature: &Signature, pairs: &[Subsort], sort: &Sort) -> bool
    ensures { result ≡ no_tokens_among (signature_view signature.now) (sort_view sort.now) (lower_sorts (map subsort_view pairs.now)) }
{
    for pair in pairs {
        if has_tokens_of(signature, &pair.lower, sort) {
            return false;
        }
    }
    true
}

/// Whether none of these symbols is a constructor that makes values of the sort.
fn has_no_constructors(signature: &Signature, symbols: &[SymbolSentence], sort: &Sort) -> bool
    ensures { result ≡ no_constructors_among (signature_view signature.now) (sort_view sort.now) (map symbol_sentence_view symbols.now) }
{
    for symbol in symbols {
        if has_constructor(signature, &symbol.name, sort) {
            return false;
        }
    }
    true
}

/// Whether the symbol of this name is a constructor that makes values of the sort.
fn has_constructor(signature: &Signature, name: &Name, sort: &Sort) -> bool
    ensures { result ≡ is_head (signature_view signature.now) (sort_view sort.now) (head.constructor_of (string_bytes name.now)) }
{
    match signature.symbol(name) {
        Some(declaration) => makes_values(signature, declaration, sort),
        None => false,
    }
}

/// Whether the symbol is a constructor that makes values of the sort.
fn makes_values(signature: &Signature, declaration: &SymbolSentence, sort: &Sort) -> bool
    ensures { result ≡ is_own_below (signature_view signature.now) (sort_view sort.now) (head.sort_made (Some (symbol_sentence_view declaration.now))) }
{
    is_constructor(declaration) && lies_below(signature, &declaration.result_sort, sort)
}

/// Whether the tokens of a sort are values of this one.
pub fn has_tokens_of(signature: &Signature, tokens: &Sort, sort: &Sort) -> bool
    ensures { result ≡ is_head (signature_view signature.now) (sort_view sort.now) (head.tokens (sort_view tokens.now)) }
{
    signature.is_token_sort(tokens) && lies_below(signature, tokens, sort)
}

/// Whether two sorts are one.
pub fn is_same(first: &Sort, second: &Sort) -> bool
    ensures { result ≡ sorts_equal (sort_view first.now) (sort_view second.now) }
{
    first.equal(second)
}

/// Whether a sort is another or lies below it.
pub fn lies_below(signature: &Signature, lower: &Sort, upper: &Sort) -> bool
    ensures { result ≡ is_below (signature_view signature.now).subsorts (sort_view lower.now) (sort_view upper.now) }
{
    signature.subsort(lower, upper)
}
