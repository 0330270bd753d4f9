ghost use Rattle.std.specs.Prelude.{◌≡◌, map, string_bytes};
ghost use Rattle.std.specs.Option.{option_map};
ghost use Rattle.std.proofs.Props.{props};
ghost use Rattle.kp_kore.specs.Signature.{symbol_meaning};
ghost use Rattle.kp_signature.specs.Meanings.{meaning_view};
ghost use Rattle.kp_signature.specs.Table.{table_view};

use crate::Subsort;
use crate::kinds::Kinds;
use crate::meaning::Meaning;
use crate::meanings::meanings;
use crate::order::SortOrder;
use kp_kore::{AliasSentence, Module, Name, Sort, SortSentence, SymbolSentence};
use std::alloc::{AllocError, Global};

/// The signature of a definition: what the sentences of its modules declare, and what each declared symbol means.
pub struct Signature {
    pub(crate) kinds: Kinds,
    pub(crate) meanings: Vec<Meaning>,
    ghost meanings_told: { map meaning_view meanings.items ≡ map (symbol_meaning (table_view kinds.declarations.table)) (table_view kinds.declarations.table).symbols } by { Prim.hlevel props },
}

// Written out: a derived one is proved again, with those of all that it holds, in each crate that owns a signature.
impl Drop for Signature {
    fn drop(self) {
        let Signature {
            kinds: _kinds,
            meanings: _meanings,
        } = self;
    }
}

impl Signature {
    ghost use Rattle.std.specs.Prelude.{◌↔◌, IfOk, IsTrue, None, length};
    ghost use Rattle.kp_kore.specs.Signature.{IsBelow, signature_of, symbol_declared, alias_declared, integer_sort, boolean_sort};
    ghost use Rattle.kp_kore.specs.View.{sort_view, sorts_view, sort_sentence_view, symbol_sentence_view, alias_sentence_view};
    ghost use Rattle.kp_kore.specs.Syntax.{KoreSorts, sort_of, no_sorts};
    ghost use Rattle.kp_kore.specs.Parts.{sort_list};
    ghost use Rattle.kp_signature.specs.Places.{unknown_sort_in, unknown_sort_among, is_known};
    ghost use Rattle.std.specs.List.{find};
    ghost use Rattle.std.specs.Str.{bytes_eq};
    ghost use Rattle.kp_signature.specs.Order.{IsOrderOf};
    ghost use Rattle.kp_signature.specs.Pairs.{subsort_view};
    ghost use Rattle.kp_signature.specs.View.{signature_view, sentences_of};

    /// What the sentences of these modules declare, in order.
    pub fn new(alloc: Global, modules: &[&Module]) -> Result<Signature, AllocError>
        ensures { IfOk result (λ g. signature_view g ≡ signature_of (sentences_of modules.now)) }
    {
        let kinds = Kinds::new(alloc, modules)?;
        let meanings = meanings(alloc, &kinds)?;
        Ok(Signature { kinds, meanings })
    }

    /// The first declaration of a sort of this name.
    pub fn sort_named(&self, name: &str) -> Option<&SortSentence>
        ensures { option_map (λ d. sort_sentence_view d.now) result ≡ find (λ d. bytes_eq d.name name.now) (signature_view self.now).sorts }
    {
        self.kinds.declarations.sort_named(name)
    }

    /// The first declaration of a symbol of this name.
    pub fn symbol(&self, name: &str) -> Option<&SymbolSentence>
        ensures { option_map (λ d. symbol_sentence_view d.now) result ≡ symbol_declared (signature_view self.now) name.now }
    {
        self.kinds.declarations.symbol(name)
    }

    /// What the first declaration of a symbol of this name means.
    pub(crate) fn meaning(&self, name: &str) -> Option<&Meaning>
        ensures { let g = signature_view self.now in option_map (λ m. meaning_view m.now) result ≡ option_map (symbol_meaning g) (symbol_declared g name.now) }
    {
        match self.kinds.declarations.table.symbol_places.get(name) {
            Some(place) => self.meanings.get(*place),
            None => None,
        }
    }

    /// The first declaration of an alias of this name.
    pub fn alias(&self, name: &str) -> Option<&AliasSentence>
        ensures { option_map (λ d. alias_sentence_view d.now) result ≡ alias_declared (signature_view self.now) name.now }
    {
        self.kinds.declarations.alias(name)
    }

    /// The declarations of symbols, in order.
    pub fn symbols(&self) -> &[SymbolSentence]
        ensures { map symbol_sentence_view result.now ≡ (signature_view self.now).symbols }
    {
        self.kinds.declarations.symbols()
    }

    /// The name of the sort of whole numbers, the first hooked sort with `INT.Int`.
    pub fn integer_sort(&self) -> Option<&Name>
        ensures { option_map (λ n. sort_of (string_bytes n.now) no_sorts) result ≡ integer_sort (signature_view self.now) }
    {
        self.kinds.declarations.integer_sort()
    }

    /// The name of the sort of truth values, the first hooked sort with `BOOL.Bool`, if it isn't that of whole
    /// numbers.
    pub fn boolean_sort(&self) -> Option<&Name>
        ensures { option_map (λ n. sort_of (string_bytes n.now) no_sorts) result ≡ boolean_sort (signature_view self.now) }
    {
        self.kinds.declarations.boolean_sort()
    }

    /// The pairs of sorts that the attributes `subsort{A,B}()` give, in order.
    pub fn subsorts(&self) -> &[Subsort]
        ensures { map subsort_view result.now ≡ (signature_view self.now).subsorts }
    {
        self.kinds.declarations.subsorts()
    }

    /// Whether a sort and all sorts in it are declared, with as many arguments as they take.
    pub fn has_sort(&self, sort: &Sort) -> bool
        ensures { IsTrue result ↔ (unknown_sort_in (signature_view self.now) (sort_view sort.now) ≡ None) }
    {
        self.unknown_sort(sort).is_none()
    }

    /// The first sort in this one that isn't declared, or that takes another number of arguments, from the outermost.
    #[cycle(unknown)]
    pub fn unknown_sort<'a>(&self, sort: &'a Sort) -> Option<&'a Sort>
        ensures { option_map (λ s. sort_view s.now) result ≡ unknown_sort_in (signature_view self.now) (sort_view sort.now) }
    {
        match sort {
            Sort::App { name, arguments } => {
                if self.is_known(name, arguments.len()) {
                    self.unknown_sort_among(arguments)
                } else {
                    Some(sort)
                }
            }
            Sort::Variable { .. } => Some(sort),
        }
    }

    /// The same of the first of these sorts that has one.
    #[cycle(unknown)]
    pub fn unknown_sort_among<'a>(&self, sorts: &'a [Sort]) -> Option<&'a Sort>
        ensures { option_map (λ s. sort_view s.now) result ≡ unknown_sort_among (signature_view self.now) (sorts_view sorts.now) }
    {
        for sort in sorts {
            let unknown = self.unknown_sort(sort);
            if unknown.is_some() {
                return unknown;
            }
        }
        None
    }

    /// Whether the sort is declared with so many parameters.
    fn is_known(&self, name: &Name, arguments: usize) -> bool
        ensures { (ss : KoreSorts) → length (sort_list ss) ≡ arguments → result ≡ is_known (signature_view self.now) (string_bytes name.now) ss }
    {
        match self.sort_named(name) {
            Some(declaration) => declaration.parameters.len() == arguments,
            None => false,
        }
    }

    /// The order of the sorts, by the pairs that the attributes `subsort{A,B}()` give.
    pub fn order(&self) -> &SortOrder
        ensures { IsOrderOf (signature_view self.now).subsorts result.now }
    {
        self.kinds.declarations.order()
    }

    /// Whether a sort is another or lies below it, by the pairs that the attributes `subsort{A,B}()` give. Takes no
    /// memory, and as many steps as the upper sort has spans (see `SortOrder`).
    pub fn subsort(&self, lower: &Sort, upper: &Sort) -> bool
        ensures { IsTrue result ↔ IsBelow (signature_view self.now).subsorts (sort_view lower.now) (sort_view upper.now) }
    {
        self.kinds.declarations.subsort(lower, upper)
    }
}
