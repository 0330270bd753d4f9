use crate::pattern::Pattern;
use crate::sort::{Name, Sort};

/// `sort` or `hooked-sort`, a name with its parameters and attributes.
#[derive(Drop)]
pub struct SortSentence {
    pub hooked: bool,
    pub name: Name,
    pub parameters: Vec<Name>,
    pub attributes: Vec<Pattern>,
}

/// `symbol` or `hooked-symbol`, a name with its parameters, the sorts of its arguments and of its result.
#[derive(Drop)]
pub struct SymbolSentence {
    pub hooked: bool,
    pub name: Name,
    pub parameters: Vec<Name>,
    pub arguments: Vec<Sort>,
    pub result_sort: Sort,
    pub attributes: Vec<Pattern>,
}

/// `alias`, a name with its parameters and sorts, and the pattern that it stands for.
#[derive(Drop)]
pub struct AliasSentence {
    pub name: Name,
    pub parameters: Vec<Name>,
    pub arguments: Vec<Sort>,
    pub result_sort: Sort,
    pub left: Pattern,
    pub right: Pattern,
    pub attributes: Vec<Pattern>,
}

/// What an axiom or a claim states.
#[derive(Drop)]
pub struct AxiomSentence {
    pub parameters: Vec<Name>,
    pub pattern: Pattern,
    pub attributes: Vec<Pattern>,
}

/// One sentence of a module.
pub enum Sentence {
    Import {
        name: Name,
        attributes: Vec<Pattern>,
    },
    Sort(SortSentence),
    Symbol(SymbolSentence),
    Alias(AliasSentence),
    Axiom(AxiomSentence),
    Claim(AxiomSentence),
}

// Written out: a derived one is proved again in each crate that owns such a value.
impl Drop for Sentence {
    fn drop(self) {
        match self {
            Sentence::Import {
                name: _name,
                attributes: _attributes,
            } => {}
            Sentence::Sort(_part) => {}
            Sentence::Symbol(_part) => {}
            Sentence::Alias(_part) => {}
            Sentence::Axiom(_part) => {}
            Sentence::Claim(_part) => {}
        }
    }
}

/// A module: its name, sentences and attributes.
#[derive(Drop)]
pub struct Module {
    pub name: Name,
    pub sentences: Vec<Sentence>,
    pub attributes: Vec<Pattern>,
}

/// A definition: attributes and modules.
#[derive(Drop)]
pub struct Definition {
    pub attributes: Vec<Pattern>,
    pub modules: Vec<Module>,
}
