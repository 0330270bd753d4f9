use std::alloc::{AllocError, Global};

/// A name or a text, seen as the bytes of its UTF-8.
pub type Name = String;

/// A sort. `sort_view` in specs/View.antt says what it stands for.
pub enum Sort {
    /// A sort by its name and arguments, as `SortInt{}`.
    App { name: Name, arguments: Vec<Sort> },
    /// A sort variable, as `R`.
    Variable { name: Name },
}

// Written out: a derived one is proved again in each crate that owns such a value.
impl Drop for Sort {
    fn drop(self) {
        match self {
            Sort::App {
                name: _name,
                arguments: _arguments,
            } => {}
            Sort::Variable { name: _name } => {}
        }
    }
}

impl Sort {
    ghost use Rattle.std.specs.Prelude.{◌≡◌, ◌↔◌, IfOk, IsTrue, map};
    ghost use Rattle.kp_kore.specs.View.{sort_view, sorts_view};

    /// A sort that is seen as the same data.
    #[cycle(copy)]
    pub fn copy(&self, alloc: Global) -> Result<Sort, AllocError>
        ensures { IfOk result (λ s. sort_view s ≡ sort_view self.now) }
    {
        match self {
            Sort::App { name, arguments } => Ok(Sort::App {
                name: name.clone()?,
                arguments: Sort::copy_all(alloc, arguments)?,
            }),
            Sort::Variable { name } => Ok(Sort::Variable {
                name: name.clone()?,
            }),
        }
    }

    /// Sorts that are seen as the same data, one by one.
    #[cycle(copy)]
    pub fn copy_all(alloc: Global, sorts: &[Sort]) -> Result<Vec<Sort>, AllocError>
        ensures { IfOk result (λ ss. map sort_view ss.items ≡ map sort_view sorts.now) }
    {
        let mut copies = Vec::new(alloc);
        for sort in sorts {
            copies.push(sort.copy(alloc)?)?;
        }
        Ok(copies)
    }

    /// Whether two sorts are seen as the same data.
    #[cycle(equal)]
    pub fn equal(&self, other: &Sort) -> bool
        ensures { IsTrue result ↔ (sort_view self.now ≡ sort_view other.now) }
    {
        match self {
            Sort::App { name, arguments } => match other {
                Sort::App {
                    name: n,
                    arguments: ss,
                } => name == n && Sort::all_equal(arguments, ss),
                _ => false,
            },
            Sort::Variable { name } => match other {
                Sort::Variable { name: n } => name == n,
                _ => false,
            },
        }
    }

    /// Whether two lists of sorts are seen as the same data.
    #[cycle(equal)]
    pub fn all_equal(sorts: &[Sort], others: &[Sort]) -> bool
        ensures { IsTrue result ↔ (sorts_view sorts.now ≡ sorts_view others.now) }
    {
        if sorts.len() != others.len() {
            return false;
        }
        for i in 0..sorts.len() {
            if !sorts[i].equal(&others[i]) {
                return false;
            }
        }
        true
    }
}
