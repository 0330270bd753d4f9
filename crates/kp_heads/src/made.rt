// The steps of a signature, by numbers of sorts.
ghost use Rattle.std.specs.Prelude.{◌++◌, ◌∷◌, [], IfOk, OnOk, List, map};
ghost use Rattle.std.specs.List.{flat_map};
ghost use Rattle.kp_kore.specs.View.{sort_view, symbol_sentence_view};
ghost use Rattle.kp_signature.specs.Pairs.{subsort_view};
ghost use Rattle.kp_signature.specs.View.{signature_view};
ghost use Rattle.kp_heads.specs.Steps.{Step, constructor_step, pair_step, steps_of, symbol_steps};
ghost use Rattle.kp_signature.specs.Numbering.{IsNumbering, sorts_in};
ghost use Rattle.kp_heads.specs.Made.{HasNumbers, IsMade};

use crate::constructor::constructor_named;
use crate::row::Row;
use kp_kore::{Sort, SymbolSentence};
use kp_signature::numbering::Numbering;
use kp_signature::{Signature, Subsort};
use std::alloc::{AllocError, Global};

/// The sorts that steps name, and a row for each step.
#[derive(Drop)]
pub struct Made {
    pub numbering: Numbering,
    pub rows: Vec<Row>,
}

/// The numbers of sorts, one by one.
fn numbers_for(
    numbering: &mut Numbering,
    alloc: Global,
    sorts: &[Sort],
) -> Result<Vec<usize>, AllocError>
    ensures { IsNumbering numbering.old → IfOk result (λ ns. HasNumbers (sorts_in numbering.old) numbering.new (map sort_view sorts.now) ns.items) }
{
    let mut numbers = Vec::new(alloc);
    for sort in sorts {
        numbers.push(numbering.number_for(alloc, sort)?)?;
    }
    Ok(numbers)
}

impl Made {
    /// The steps of a signature.
    pub fn new(alloc: Global, signature: &Signature) -> Result<Made, AllocError>
        ensures { IfOk result (IsMade (steps_of (signature_view signature.now))) }
    {
        let mut made = Made::empty(alloc);
        made.add_pairs(alloc, signature)?;
        made.add_symbols(alloc, signature)?;
        Ok(made)
    }

    /// No sorts and no rows.
    fn empty(alloc: Global) -> Made
        ensures { IsMade [] result }
    {
        Made {
            numbering: Numbering::empty(alloc),
            rows: Vec::new(alloc),
        }
    }

    /// Takes in each subsort of the signature.
    fn add_pairs(&mut self, alloc: Global, signature: &Signature) -> Result<(), AllocError>
        ensures { IsMade [] self.old → OnOk result (IsMade (map pair_step (signature_view signature.now).subsorts) self.new) }
    {
        for pair in signature.subsorts() {
            self.add_pair(alloc, pair)?;
        }
        Ok(())
    }

    /// Takes in one subsort: a value of the lower sort is one of the upper.
    fn add_pair(&mut self, alloc: Global, pair: &Subsort) -> Result<(), AllocError>
        ensures { (steps : List Step) → IsMade steps self.old → OnOk result (IsMade (steps ++ pair_step (subsort_view pair.now) ∷ []) self.new) }
    {
        let lower = self.numbering.number_for(alloc, &pair.lower)?;
        let gives = self.numbering.number_for(alloc, &pair.upper)?;
        let mut needs = Vec::new(alloc);
        needs.push(lower)?;
        Ok(self.rows.push(Row { needs, gives })?)
    }

    /// Takes in each symbol of the signature.
    fn add_symbols(&mut self, alloc: Global, signature: &Signature) -> Result<(), AllocError>
        ensures { (steps : List Step) → let g = signature_view signature.now in IsMade steps self.old → OnOk result (IsMade (steps ++ flat_map (symbol_steps g) g.symbols) self.new) }
    {
        for symbol in signature.symbols() {
            self.add_symbol(alloc, signature, symbol)?;
        }
        Ok(())
    }

    /// Takes in a symbol, where it is a constructor.
    fn add_symbol(
        &mut self,
        alloc: Global,
        signature: &Signature,
        symbol: &SymbolSentence,
    ) -> Result<(), AllocError>
        ensures { (steps : List Step) → let g = signature_view signature.now in IsMade steps self.old → OnOk result (IsMade (steps ++ symbol_steps g (symbol_sentence_view symbol.now)) self.new) }
    {
        match constructor_named(signature, &symbol.name) {
            Some(declaration) => Ok(self.add_constructor(alloc, declaration)?),
            None => Ok(()),
        }
    }

    /// Takes in a constructor: values of its arguments' sorts make one of its own.
    fn add_constructor(
        &mut self,
        alloc: Global,
        declaration: &SymbolSentence,
    ) -> Result<(), AllocError>
        ensures { (steps : List Step) → IsMade steps self.old → OnOk result (IsMade (steps ++ constructor_step (symbol_sentence_view declaration.now) ∷ []) self.new) }
    {
        let gives = self.numbering.number_for(alloc, &declaration.result_sort)?;
        let needs = numbers_for(&mut self.numbering, alloc, &declaration.arguments)?;
        Ok(self.rows.push(Row { needs, gives })?)
    }
}
