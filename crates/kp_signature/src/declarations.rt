// What the sentences of modules declare, with the sorts of whole numbers and truth values at hand.
ghost use Rattle.std.specs.Prelude.{◌≡◌, codes, map, string_bytes};
ghost use Rattle.std.specs.Option.{option_map};
ghost use Rattle.std.proofs.Props.{props};
ghost use Rattle.kp_signature.specs.Order.{IsOrderOf};
ghost use Rattle.kp_signature.specs.Table.{IsIndexed, table_view, name_hooked, name_other_than};

use crate::Subsort;
use crate::attributes::has_mark;
use crate::hooked::{first_hooked, other_than};
use crate::kinds::is_named;
use crate::order::SortOrder;
use crate::symbols::is_constructor;
use crate::table::DeclarationTable;
use kp_kore::{AliasSentence, Module, Name, Sort, SortSentence, SymbolSentence};
use std::alloc::{AllocError, Global};

/// The declarations, the order of their sorts, and the names of the sorts of whole numbers and truth values.
pub struct Declarations {
    pub table: DeclarationTable,
    pub(crate) order: SortOrder,
    pub(crate) integers: Option<Name>,
    pub(crate) booleans: Option<Name>,
    ghost indexed: { IsIndexed table },
    ghost ordered: { ∥ IsOrderOf (table_view table).subsorts order ∥₁ },
    ghost integers_named: { option_map string_bytes integers ≡ name_hooked (codes "INT.Int") (table_view table).sorts } by { Prim.hlevel props },
    ghost booleans_named: { option_map string_bytes booleans ≡ name_other_than (name_hooked (codes "INT.Int") (table_view table).sorts) (name_hooked (codes "BOOL.Bool") (table_view table).sorts) } by { Prim.hlevel props },
}

// Written out: a derived one is proved again at each exit where declarations are let go.
impl Drop for Declarations {
    fn drop(self) {
        let Declarations {
            table: _table,
            order: _order,
            integers: _integers,
            booleans: _booleans,
        } = self;
    }
}

impl Declarations {
    ghost use Rattle.std.specs.Prelude.{◌↔◌, IfOk, IsTrue};
    ghost use Rattle.std.specs.List.{find};
    ghost use Rattle.std.specs.Str.{bytes_eq};
    ghost use Rattle.kp_kore.specs.Signature.{IsBelow, signature_of, sort_made, symbol_declared, alias_declared, integer_sort, boolean_sort, is_integer_sort, is_boolean_sort, is_token_sort};
    ghost use Rattle.kp_kore.specs.Syntax.{sort_of, no_sorts};
    ghost use Rattle.kp_kore.specs.View.{sort_view, sort_sentence_view, symbol_sentence_view, alias_sentence_view};
    ghost use Rattle.kp_signature.specs.Kinds.{holds_tokens};
    ghost use Rattle.kp_signature.specs.Pairs.{subsort_view};
    ghost use Rattle.kp_signature.specs.View.{sentences_of};

    /// What the sentences of these modules declare, in order.
    pub fn new(alloc: Global, modules: &[&Module]) -> Result<Declarations, AllocError>
        ensures { IfOk result (λ d. table_view d.table ≡ signature_of (sentences_of modules.now)) }
    {
        let mut table = DeclarationTable::new(alloc);
        for module in modules {
            table.add_all(alloc, &module.sentences)?;
        }
        let order = SortOrder::new(alloc, &table.subsorts)?;
        let integers = first_hooked(&table.sorts, "INT.Int")?;
        let booleans = other_than(&integers, first_hooked(&table.sorts, "BOOL.Bool")?);
        Ok(Declarations {
            table,
            order,
            integers,
            booleans,
        })
    }

    /// The first declaration of a sort of this name.
    pub fn sort_named(&self, name: &str) -> Option<&SortSentence>
        ensures { option_map (λ d. sort_sentence_view d.now) result ≡ find (λ d. bytes_eq d.name name.now) (table_view self.now.table).sorts }
    {
        match self.table.sort_places.get(name) {
            Some(place) => self.table.sorts.get(*place),
            None => None,
        }
    }

    /// The first declaration of a symbol of this name.
    pub fn symbol(&self, name: &str) -> Option<&SymbolSentence>
        ensures { option_map (λ d. symbol_sentence_view d.now) result ≡ symbol_declared (table_view self.now.table) name.now }
    {
        match self.table.symbol_places.get(name) {
            Some(place) => self.table.symbols.get(*place),
            None => None,
        }
    }

    /// The first declaration of an alias of this name.
    pub fn alias(&self, name: &str) -> Option<&AliasSentence>
        ensures { option_map (λ d. alias_sentence_view d.now) result ≡ alias_declared (table_view self.now.table) name.now }
    {
        match self.table.alias_places.get(name) {
            Some(place) => self.table.aliases.get(*place),
            None => None,
        }
    }

    /// The name of the sort of whole numbers, the first hooked sort with `INT.Int`.
    pub fn integer_sort(&self) -> Option<&Name>
        ensures { option_map (λ n. sort_of (string_bytes n.now) no_sorts) result ≡ integer_sort (table_view self.now.table) }
    {
        self.integers.as_ref()
    }

    /// The name of the sort of truth values, the first hooked sort with `BOOL.Bool`, if it isn't that of whole
    /// numbers.
    pub fn boolean_sort(&self) -> Option<&Name>
        ensures { option_map (λ n. sort_of (string_bytes n.now) no_sorts) result ≡ boolean_sort (table_view self.now.table) }
    {
        self.booleans.as_ref()
    }

    /// Whether the sort is that of whole numbers.
    pub fn is_integer_sort(&self, sort: &Sort) -> bool
        ensures { result ≡ is_integer_sort (table_view self.now.table) (sort_view sort.now) }
    {
        is_named(self.integer_sort(), sort)
    }

    /// Whether the sort is that of truth values.
    pub fn is_boolean_sort(&self, sort: &Sort) -> bool
        ensures { result ≡ is_boolean_sort (table_view self.now.table) (sort_view sort.now) }
    {
        is_named(self.boolean_sort(), sort)
    }

    /// Whether any text is a literal of the sort: a further hooked sort, or one with `hasDomainValues`.
    pub fn is_token_sort(&self, sort: &Sort) -> bool
        ensures { result ≡ is_token_sort (table_view self.now.table) (sort_view sort.now) }
    {
        self.holds_tokens(sort) && !self.is_integer_sort(sort) && !self.is_boolean_sort(sort)
    }

    /// Whether the sort is declared as a hooked one, or with `hasDomainValues`.
    fn holds_tokens(&self, sort: &Sort) -> bool
        ensures { result ≡ holds_tokens (table_view self.now.table) (sort_view sort.now) }
    {
        match sort {
            Sort::App { name, .. } => match self.sort_named(name) {
                Some(declaration) => {
                    declaration.hooked || has_mark(&declaration.attributes, "hasDomainValues")
                }
                None => false,
            },
            Sort::Variable { .. } => false,
        }
    }

    /// The declarations of symbols, in order.
    pub fn symbols(&self) -> &[SymbolSentence]
        ensures { map symbol_sentence_view result.now ≡ (table_view self.now.table).symbols }
    {
        &self.table.symbols
    }

    /// The pairs of sorts that the attributes `subsort{A,B}()` give, in order.
    pub fn subsorts(&self) -> &[Subsort]
        ensures { map subsort_view result.now ≡ (table_view self.now.table).subsorts }
    {
        &self.table.subsorts
    }

    /// The order of the sorts, by the pairs that the attributes `subsort{A,B}()` give.
    pub fn order(&self) -> &SortOrder
        ensures { IsOrderOf (table_view self.now.table).subsorts result.now }
    {
        &self.order
    }

    /// Whether a sort is another or lies below it, by the pairs that the attributes `subsort{A,B}()` give. Takes no
    /// memory, and as many steps as the upper sort has spans (see `SortOrder`).
    pub fn subsort(&self, lower: &Sort, upper: &Sort) -> bool
        ensures { IsTrue result ↔ IsBelow (table_view self.now.table).subsorts (sort_view lower.now) (sort_view upper.now) }
    {
        self.order().is_below(lower, upper)
    }

    /// The sort of the values that the symbol of this name makes, where it is a constructor.
    pub fn sort_made(&self, name: &str) -> Option<&Sort>
        ensures { option_map (λ s. sort_view s.now) result ≡ sort_made (symbol_declared (table_view self.now.table) name.now) }
    {
        let declaration = self.symbol(name)?;
        if is_constructor(declaration) {
            Some(&declaration.result_sort)
        } else {
            None
        }
    }
}
