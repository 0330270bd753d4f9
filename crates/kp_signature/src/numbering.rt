// Sorts by number, found without memory.
ghost use Rattle.std.specs.Prelude.{◌≡◌, ◌↔◌, [], ℕ, IfOk, IsTrue, None, Some, string_bytes};
ghost use Rattle.std.specs.List.{Contains};
ghost use Rattle.indexmap.specs.IndexMap.{get_by_text};
ghost use Rattle.kp_kore.specs.View.{sort_view};
ghost use Rattle.kp_signature.specs.Edges.{IsNumber};
ghost use Rattle.kp_signature.specs.Numbering.{HasNumber, HasNewNumber, IsNumbering, HasGroup, TellsNumber, sorts_in, outer_name as name_of};

use crate::edges::add_edge;
use indexmap::IndexMap;
use kp_kore::{Name, Sort};
use std::alloc::{AllocError, Global};

/// Sorts in the order of their numbers. `names` gives each outermost name its place in `groups`, where the numbers of
/// the sorts of that name are.
#[derive(Drop)]
pub struct Numbering {
    pub names: IndexMap<Name, usize>,
    pub groups: Vec<Vec<usize>>,
    pub sorts: Vec<Sort>,
}

impl Numbering {
    /// No sorts.
    pub fn empty(alloc: Global) -> Numbering
        ensures numbering { IsNumbering result }
        ensures none { sorts_in result ≡ [] }
    {
        Numbering {
            names: IndexMap::new(alloc),
            groups: Vec::new(alloc),
            sorts: Vec::new(alloc),
        }
    }

    /// Whether the number is this sort's.
    fn is_number(&self, number: usize, sort: &Sort) -> bool
        ensures { IsTrue result ↔ IsNumber (sorts_in self.now) number (sort_view sort.now) }
    {
        if number < self.sorts.len() {
            return self.sorts[number].equal(sort);
        }
        false
    }

    /// The sort's number among these.
    fn find_among(&self, numbers: &[usize], sort: &Sort) -> Option<usize>
        ensures found { (i : ℕ) → result ≡ Some i → IsNumber (sorts_in self.now) i (sort_view sort.now) }
        ensures none { result ≡ None → (i : ℕ) → Contains numbers.now i → ¬ IsNumber (sorts_in self.now) i (sort_view sort.now) }
    {
        for number in numbers {
            if self.is_number(*number, sort) {
                return Some(*number);
            }
        }
        None
    }

    /// The number of a sort, where it has one.
    pub fn number_of(&self, sort: &Sort) -> Option<usize>
        ensures { IsNumbering self.now → TellsNumber (sorts_in self.now) (sort_view sort.now) result }
    {
        let Some(group) = self.names.get(outer_name(sort)) else {
            return None;
        };
        if *group < self.groups.len() {
            return self.find_among(&self.groups[*group], sort);
        }
        None
    }

    /// The number of a sort, a new one where it has none.
    pub fn number_for(&mut self, alloc: Global, sort: &Sort) -> Result<usize, AllocError>
        ensures { IsNumbering self.old → IfOk result (HasNumber (sorts_in self.old) self.new (sort_view sort.now)) }
    {
        match self.number_of(sort) {
            Some(number) => Ok(number),
            None => Ok(self.add_sort(alloc, sort)?),
        }
    }

    /// The number of a sort that has none yet.
    pub fn add_sort(&mut self, alloc: Global, sort: &Sort) -> Result<usize, AllocError>
        ensures { IsNumbering self.old → ¬ Contains (sorts_in self.old) (sort_view sort.now) → IfOk result (HasNewNumber (sorts_in self.old) self.new (sort_view sort.now)) }
    {
        let group = self.group_for(alloc, outer_name(sort))?;
        let number = self.sorts.len();
        self.sorts.push(sort.copy(alloc)?)?;
        add_edge(&mut self.groups, group, number)?;
        Ok(number)
    }

    /// The group of a name, a new one where it has none.
    fn group_for(&mut self, alloc: Global, name: &Name) -> Result<usize, AllocError>
        ensures { IsNumbering self.old → IfOk result (HasGroup self.old self.new (string_bytes name.now)) }
    {
        match self.names.get(name.as_str()) {
            Some(group) => Ok(*group),
            None => Ok(self.add_group(alloc, name)?),
        }
    }

    /// Begins a group for the sorts of one name.
    fn add_group(&mut self, alloc: Global, name: &Name) -> Result<usize, AllocError>
        ensures { IsNumbering self.old → None ≡ get_by_text self.old.names (string_bytes name.now) → IfOk result (HasGroup self.old self.new (string_bytes name.now)) }
    {
        let group = self.groups.len();
        self.names.insert(name.clone()?, group)?;
        self.groups.push(Vec::new(alloc))?;
        Ok(group)
    }
}

/// The sort's own name.
fn outer_name(sort: &Sort) -> &Name
    ensures { string_bytes result.now ≡ name_of (sort_view sort.now) }
{
    match sort {
        Sort::App { name, .. } => name,
        Sort::Variable { name } => name,
    }
}
