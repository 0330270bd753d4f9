// Whether the sorts of whole numbers and of truth values have these values alone.
ghost use Rattle.std.specs.Prelude.{◌≡◌, IfOk, string_bytes};
ghost use Rattle.std.specs.Option.{option_map};
ghost use Rattle.kp_kore.specs.Signature as head;
ghost use Rattle.kp_kore.specs.Signature.{is_below, is_head, is_own_below};
ghost use Rattle.kp_kore.specs.Syntax.{sort_of, no_sorts};
ghost use Rattle.kp_kore.specs.View.{sort_view};
ghost use Rattle.kp_signature.specs.Alone.{no_tokens_below, no_constructors_below, no_other_heads, none_but_own, numbers_stand_alone, truths_stand_alone, token_sort};
ghost use Rattle.kp_signature.specs.Table.{table_view};

use crate::declarations::Declarations;
use kp_kore::{Name, Sort};
use std::alloc::{AllocError, Global};

/// The sort of this name without arguments.
fn plain_sort(alloc: Global, name: &Option<Name>) -> Result<Option<Sort>, AllocError>
    ensures { IfOk result (λ o. option_map sort_view o ≡ option_map (λ n. sort_of (string_bytes n) no_sorts) name.now) }
{
    match name {
        Some(name) => Ok(Some(Sort::App {
            name: name.clone()?,
            arguments: Vec::new(alloc),
        })),
        None => Ok(None),
    }
}

impl Declarations {
    /// Whether the whole-number sort has no other heads than its own.
    pub fn numbers_stand_alone(&self, alloc: Global) -> Result<bool, AllocError>
        ensures { IfOk result (λ b. b ≡ numbers_stand_alone (table_view self.now.table)) }
    {
        self.stand_alone(alloc, &self.integers, &self.booleans)
    }

    /// Whether the truth sort has no other heads than its own.
    pub fn truths_stand_alone(&self, alloc: Global) -> Result<bool, AllocError>
        ensures { IfOk result (λ b. b ≡ truths_stand_alone (table_view self.now.table)) }
    {
        self.stand_alone(alloc, &self.booleans, &self.integers)
    }

    /// Whether the one of the two sorts has no other heads than its own.
    fn stand_alone(
        &self,
        alloc: Global,
        own: &Option<Name>,
        other: &Option<Name>,
    ) -> Result<bool, AllocError>
        ensures { let table' = table_view self.now.table in IfOk result (λ b. b ≡ none_but_own table' (option_map (λ n. sort_of (string_bytes n) no_sorts) own.now) (option_map (λ n. sort_of (string_bytes n) no_sorts) other.now)) }
    {
        let own = plain_sort(alloc, own)?;
        let other = plain_sort(alloc, other)?;
        match &own {
            Some(own) => Ok(self.has_no_other_heads(own, other.as_ref())),
            None => Ok(true),
        }
    }

    /// Whether no head but the sort's own stands below it: not the other of the two sorts, no tokens, no constructor.
    fn has_no_other_heads(&self, own: &Sort, other: Option<&Sort>) -> bool
        ensures { result ≡ no_other_heads (table_view self.now.table) (sort_view own.now) (option_map (λ s. sort_view s.now) other.entry) }
    {
        !self.is_own_below(other, own) && self.has_no_tokens(own) && self.has_no_constructors(own)
    }

    /// Whether no tokens are values of the sort, but for those of the sort itself.
    fn has_no_tokens(&self, own: &Sort) -> bool
        ensures { result ≡ no_tokens_below (table_view self.now.table) (sort_view own.now) (table_view self.now.table).subsorts }
    {
        for pair in self.subsorts() {
            if self.has_tokens_of(&pair.lower, own) {
                return false;
            }
        }
        true
    }

    /// Whether no constructor makes values of the sort.
    fn has_no_constructors(&self, own: &Sort) -> bool
        ensures { result ≡ no_constructors_below (table_view self.now.table) (sort_view own.now) (table_view self.now.table).symbols }
    {
        for symbol in self.symbols() {
            if self.has_constructor(&symbol.name, own) {
                return false;
            }
        }
        true
    }

    /// Whether the tokens of a sort are values of this one.
    fn has_tokens_of(&self, tokens: &Sort, own: &Sort) -> bool
        ensures { result ≡ is_head (table_view self.now.table) (sort_view own.now) (head.tokens (sort_view tokens.now)) }
    {
        self.is_own_below(self.token_sort(tokens), own)
    }

    /// Whether the symbol of this name is a constructor that makes values of the sort.
    fn has_constructor(&self, name: &Name, own: &Sort) -> bool
        ensures { result ≡ is_head (table_view self.now.table) (sort_view own.now) (head.constructor_of (string_bytes name.now)) }
    {
        self.is_own_below(self.sort_made(name), own)
    }

    /// The sort, where any text is a literal of it.
    fn token_sort<'a>(&self, sort: &'a Sort) -> Option<&'a Sort>
        ensures { option_map (λ s. sort_view s.now) result ≡ token_sort (table_view self.now.table) (sort_view sort.now) }
    {
        if self.is_token_sort(sort) {
            Some(sort)
        } else {
            None
        }
    }

    /// Whether a head's own sort, where it has one, is the sort or lies below it.
    fn is_own_below(&self, made: Option<&Sort>, sort: &Sort) -> bool
        ensures { result ≡ is_own_below (table_view self.now.table) (sort_view sort.now) (option_map (λ s. sort_view s.now) made.entry) }
    {
        match made {
            Some(made) => self.lies_below(made, sort),
            None => false,
        }
    }

    /// Whether a sort is another or lies below it, as the test tells it.
    fn lies_below(&self, lower: &Sort, upper: &Sort) -> bool
        ensures { result ≡ is_below (table_view self.now.table).subsorts (sort_view lower.now) (sort_view upper.now) }
    {
        self.subsort(lower, upper)
    }
}
