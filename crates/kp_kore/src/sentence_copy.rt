ghost use Rattle.std.specs.Prelude.{◌≡◌, IfOk};
ghost use Rattle.kp_kore.specs.View.{names_view, sort_sentence_view, symbol_sentence_view, alias_sentence_view};

use crate::pattern::Pattern;
use crate::sentence::{AliasSentence, SortSentence, SymbolSentence};
use crate::sort::{Name, Sort};
use std::alloc::{AllocError, Global};

/// The names, one by one.
fn copy_names(alloc: Global, names: &[Name]) -> Result<Vec<Name>, AllocError>
    ensures { IfOk result (λ copies. names_view copies.items ≡ names_view names.now) }
{
    let mut copies = Vec::new(alloc);
    for name in names {
        copies.push(name.clone()?)?;
    }
    Ok(copies)
}

impl SortSentence {
    /// A sentence that is seen as the same declaration.
    pub fn copy(&self, alloc: Global) -> Result<SortSentence, AllocError>
        ensures { IfOk result (λ s. sort_sentence_view s ≡ sort_sentence_view self.now) }
    {
        Ok(SortSentence {
            hooked: self.hooked,
            name: self.name.clone()?,
            parameters: copy_names(alloc, &self.parameters)?,
            attributes: Pattern::copy_all(alloc, &self.attributes)?,
        })
    }
}

impl SymbolSentence {
    /// A sentence that is seen as the same declaration.
    pub fn copy(&self, alloc: Global) -> Result<SymbolSentence, AllocError>
        ensures { IfOk result (λ s. symbol_sentence_view s ≡ symbol_sentence_view self.now) }
    {
        Ok(SymbolSentence {
            hooked: self.hooked,
            name: self.name.clone()?,
            parameters: copy_names(alloc, &self.parameters)?,
            arguments: Sort::copy_all(alloc, &self.arguments)?,
            result_sort: self.result_sort.copy(alloc)?,
            attributes: Pattern::copy_all(alloc, &self.attributes)?,
        })
    }
}

impl AliasSentence {
    /// A sentence that is seen as the same declaration.
    pub fn copy(&self, alloc: Global) -> Result<AliasSentence, AllocError>
        ensures { IfOk result (λ s. alias_sentence_view s ≡ alias_sentence_view self.now) }
    {
        Ok(AliasSentence {
            name: self.name.clone()?,
            parameters: copy_names(alloc, &self.parameters)?,
            arguments: Sort::copy_all(alloc, &self.arguments)?,
            result_sort: self.result_sort.copy(alloc)?,
            left: self.left.copy(alloc)?,
            right: self.right.copy(alloc)?,
            attributes: Pattern::copy_all(alloc, &self.attributes)?,
        })
    }
}
