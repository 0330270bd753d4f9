// The sorts that subsort pairs name, by number, with the pairs as edges both ways.
ghost use Rattle.std.specs.Prelude.{◌++◌, ◌∷◌, [], IfOk, OnOk, List, map};
ghost use Rattle.std.specs.List.{Contains};
ghost use Rattle.kp_kore.specs.Syntax.{KoreSort};
ghost use Rattle.kp_kore.specs.View.{sort_view};
ghost use Rattle.kp_signature.specs.Order.{IsGraphOf, HasNew, sorts_of};
ghost use Rattle.kp_signature.specs.Pairs.{subsort_view};

use crate::edges::add_edge;
use crate::numbering::Numbering;
use crate::subsort::Subsort;
use kp_kore::Sort;
use std::alloc::{AllocError, Global};

/// Sorts by number: of each the numbers of those that a pair puts directly above it, and directly below it.
pub struct SortGraph {
    pub numbering: Numbering,
    pub above: Vec<Vec<usize>>,
    pub below: Vec<Vec<usize>>,
}

// Written out: a derived one is proved again at each exit where a graph is let go.
impl Drop for SortGraph {
    fn drop(self) {
        let SortGraph {
            numbering: _numbering,
            above: _above,
            below: _below,
        } = self;
    }
}

impl SortGraph {
    /// No sorts.
    pub fn empty(alloc: Global) -> SortGraph
        ensures { IsGraphOf [] result }
    {
        SortGraph {
            numbering: Numbering::empty(alloc),
            above: Vec::new(alloc),
            below: Vec::new(alloc),
        }
    }

    /// Adds the pairs to a graph that has none.
    pub fn add_pairs(&mut self, alloc: Global, pairs: &[Subsort]) -> Result<(), AllocError>
        ensures { IsGraphOf [] self.old → OnOk result (IsGraphOf (map subsort_view pairs.now) self.new) }
    {
        for pair in pairs {
            self.add_pair(alloc, pair)?;
        }
        Ok(())
    }

    /// Adds a pair, with numbers for its sorts.
    fn add_pair(&mut self, alloc: Global, pair: &Subsort) -> Result<(), AllocError>
        ensures { (pairs : List (KoreSort × KoreSort)) → IsGraphOf pairs self.old → OnOk result (IsGraphOf (pairs ++ subsort_view pair.now ∷ []) self.new) }
    {
        let lower = self.number_for(alloc, &pair.lower)?;
        let upper = self.number_for(alloc, &pair.upper)?;
        add_edge(&mut self.below, upper, lower)?;
        Ok(add_edge(&mut self.above, lower, upper)?)
    }

    /// The number of a sort, a new one where it has none.
    fn number_for(&mut self, alloc: Global, sort: &Sort) -> Result<usize, AllocError>
        ensures { (pairs : List (KoreSort × KoreSort)) → IsGraphOf pairs self.old → IfOk result (HasNew pairs (sorts_of self.old) self.new (sort_view sort.now)) }
    {
        match self.numbering.number_of(sort) {
            Some(number) => Ok(number),
            None => Ok(self.add_sort(alloc, sort)?),
        }
    }

    /// Gives a number to a sort that has none.
    fn add_sort(&mut self, alloc: Global, sort: &Sort) -> Result<usize, AllocError>
        ensures { let sort' = sort_view sort.now in let before = sorts_of self.old in (pairs : List (KoreSort × KoreSort)) → IsGraphOf pairs self.old → ¬ Contains before sort' → IfOk result (HasNew pairs before self.new sort') }
    {
        let number = self.numbering.add_sort(alloc, sort)?;
        self.above.push(Vec::new(alloc))?;
        self.below.push(Vec::new(alloc))?;
        Ok(number)
    }

    /// Gives numbers to those of the sorts that stand at these places, in this order.
    pub fn add_sorts(
        &mut self,
        alloc: Global,
        sorts: &[Sort],
        places: &[usize],
    ) -> Result<(), AllocError>
        ensures { IsGraphOf [] self.old → OnOk result (IsGraphOf [] self.new) }
    {
        for place in places {
            self.add_sort_at(alloc, sorts, *place)?;
        }
        Ok(())
    }

    /// Gives a number to the sort at this place.
    fn add_sort_at(&mut self, alloc: Global, sorts: &[Sort], place: usize) -> Result<(), AllocError>
        ensures { IsGraphOf [] self.old → OnOk result (IsGraphOf [] self.new) }
    {
        if place < sorts.len() {
            self.number_for(alloc, &sorts[place])?;
        }
        Ok(())
    }
}
