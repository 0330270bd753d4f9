use crate::Subsort;
use crate::names::{NamePlaces, note_name};
use crate::subsorts::add_subsorts;
use indexmap::IndexMap;
use kp_kore::{AliasSentence, Sentence, SortSentence, SymbolSentence};
use std::alloc::{AllocError, Global};

/// The declarations in order, and the first place of each name among them.
pub struct DeclarationTable {
    pub sorts: Vec<SortSentence>,
    pub symbols: Vec<SymbolSentence>,
    pub aliases: Vec<AliasSentence>,
    pub subsorts: Vec<Subsort>,
    pub sort_places: NamePlaces,
    pub symbol_places: NamePlaces,
    pub alias_places: NamePlaces,
}

// Written out: a derived one is proved again at each exit where a table is let go.
impl Drop for DeclarationTable {
    fn drop(self) {
        let DeclarationTable {
            sorts: _sorts,
            symbols: _symbols,
            aliases: _aliases,
            subsorts: _subsorts,
            sort_places: _sort_places,
            symbol_places: _symbol_places,
            alias_places: _alias_places,
        } = self;
    }
}

impl DeclarationTable {
    ghost use Rattle.std.specs.Prelude.{◌++◌, ◌∷◌, [], List, OnOk, map};
    ghost use Rattle.kp_kore.specs.Syntax.{KoreSentence, sort_sentence, symbol_sentence, alias_sentence};
    ghost use Rattle.kp_kore.specs.View.{sentence_view, sort_sentence_view, symbol_sentence_view, alias_sentence_view};
    ghost use Rattle.kp_signature.specs.Table.{IsTableOf};

    /// No declarations.
    pub fn new(alloc: Global) -> DeclarationTable
        ensures { IsTableOf result [] }
    {
        DeclarationTable {
            sorts: Vec::new(alloc),
            symbols: Vec::new(alloc),
            aliases: Vec::new(alloc),
            subsorts: Vec::new(alloc),
            sort_places: IndexMap::new(alloc),
            symbol_places: IndexMap::new(alloc),
            alias_places: IndexMap::new(alloc),
        }
    }

    /// Adds what more sentences declare.
    pub fn add_all(&mut self, alloc: Global, sentences: &[Sentence]) -> Result<(), AllocError>
        ensures { (before : List KoreSentence) → IsTableOf self.old before → OnOk result (IsTableOf self.new (before ++ map sentence_view sentences.now)) }
    {
        for sentence in sentences {
            self.add(alloc, sentence)?;
        }
        Ok(())
    }

    /// Adds what one more sentence declares.
    pub fn add(&mut self, alloc: Global, sentence: &Sentence) -> Result<(), AllocError>
        ensures { (sentences : List KoreSentence) → IsTableOf self.old sentences → OnOk result (IsTableOf self.new (sentences ++ sentence_view sentence.now ∷ [])) }
    {
        match sentence {
            Sentence::Sort(declaration) => self.add_sort(alloc, declaration),
            Sentence::Symbol(declaration) => self.add_symbol(alloc, declaration),
            Sentence::Alias(declaration) => self.add_alias(alloc, declaration),
            Sentence::Axiom(axiom) => Ok(add_subsorts(
                &mut self.subsorts,
                alloc,
                &axiom.attributes,
            )?),
            Sentence::Import { .. } => Ok(()),
            Sentence::Claim(_) => Ok(()),
        }
    }

    /// Takes in a sort's declaration.
    fn add_sort(&mut self, alloc: Global, declaration: &SortSentence) -> Result<(), AllocError>
        ensures { let added = sort_sentence (sort_sentence_view declaration.now) in (sentences : List KoreSentence) → IsTableOf self.old sentences → OnOk result (IsTableOf self.new (sentences ++ added ∷ [])) }
    {
        note_name(&mut self.sort_places, &declaration.name, self.sorts.len())?;
        Ok(self.sorts.push(declaration.copy(alloc)?)?)
    }

    /// Takes in a symbol's declaration.
    fn add_symbol(&mut self, alloc: Global, declaration: &SymbolSentence) -> Result<(), AllocError>
        ensures { let added = symbol_sentence (symbol_sentence_view declaration.now) in (sentences : List KoreSentence) → IsTableOf self.old sentences → OnOk result (IsTableOf self.new (sentences ++ added ∷ [])) }
    {
        note_name(
            &mut self.symbol_places,
            &declaration.name,
            self.symbols.len(),
        )?;
        Ok(self.symbols.push(declaration.copy(alloc)?)?)
    }

    /// Takes in an alias's declaration.
    fn add_alias(&mut self, alloc: Global, declaration: &AliasSentence) -> Result<(), AllocError>
        ensures { let added = alias_sentence (alias_sentence_view declaration.now) in (sentences : List KoreSentence) → IsTableOf self.old sentences → OnOk result (IsTableOf self.new (sentences ++ added ∷ [])) }
    {
        note_name(
            &mut self.alias_places,
            &declaration.name,
            self.aliases.len(),
        )?;
        Ok(self.aliases.push(declaration.copy(alloc)?)?)
    }
}
