ghost use Rattle.std.specs.Prelude.{◌≡◌, IfOk, map, string_bytes};
ghost use Rattle.kp_kore.specs.View.{sort_view, view};

use crate::pattern::Pattern;
use crate::sort::{Name, Sort};
use std::alloc::{AllocError, Global};

impl Pattern {
    /// A pattern that is seen as the same data.
    #[cycle(copy)]
    pub fn copy(&self, alloc: Global) -> Result<Pattern, AllocError>
        ensures { IfOk result (λ p. view p ≡ view self.now) }
    {
        match self {
            Pattern::Variable { name, sort } => {
                let (name, sort) = copy_name(alloc, name, sort)?;
                Ok(Pattern::Variable { name, sort })
            }
            Pattern::SetVariable { name, sort } => {
                let (name, sort) = copy_name(alloc, name, sort)?;
                Ok(Pattern::SetVariable { name, sort })
            }
            Pattern::Application {
                symbol,
                sorts,
                arguments,
            } => Ok(Pattern::Application {
                symbol: symbol.clone()?,
                sorts: Sort::copy_all(alloc, sorts)?,
                arguments: Pattern::copy_all(alloc, arguments)?,
            }),
            Pattern::StringLiteral { text } => Ok(Pattern::StringLiteral {
                text: text.clone()?,
            }),
            Pattern::Literal { sort, text } => {
                let (text, sort) = copy_name(alloc, text, sort)?;
                Ok(Pattern::Literal { sort, text })
            }
            Pattern::Top { sort } => Ok(Pattern::Top {
                sort: sort.copy(alloc)?,
            }),
            Pattern::Bottom { sort } => Ok(Pattern::Bottom {
                sort: sort.copy(alloc)?,
            }),
            Pattern::Not { sort, pattern } => Ok(Pattern::Not {
                sort: sort.copy(alloc)?,
                pattern: pattern.copy_box(alloc)?,
            }),
            Pattern::Next { sort, pattern } => Ok(Pattern::Next {
                sort: sort.copy(alloc)?,
                pattern: pattern.copy_box(alloc)?,
            }),
            Pattern::And { sort, patterns } => Ok(Pattern::And {
                sort: sort.copy(alloc)?,
                patterns: Pattern::copy_all(alloc, patterns)?,
            }),
            Pattern::Or { sort, patterns } => Ok(Pattern::Or {
                sort: sort.copy(alloc)?,
                patterns: Pattern::copy_all(alloc, patterns)?,
            }),
            Pattern::Implies { sort, left, right } => Ok(Pattern::Implies {
                sort: sort.copy(alloc)?,
                left: left.copy_box(alloc)?,
                right: right.copy_box(alloc)?,
            }),
            Pattern::Iff { sort, left, right } => Ok(Pattern::Iff {
                sort: sort.copy(alloc)?,
                left: left.copy_box(alloc)?,
                right: right.copy_box(alloc)?,
            }),
            Pattern::Rewrites { sort, left, right } => Ok(Pattern::Rewrites {
                sort: sort.copy(alloc)?,
                left: left.copy_box(alloc)?,
                right: right.copy_box(alloc)?,
            }),
            Pattern::Exists {
                sort,
                name,
                name_sort,
                pattern,
            } => {
                let (name, name_sort) = copy_name(alloc, name, name_sort)?;
                Ok(Pattern::Exists {
                    sort: sort.copy(alloc)?,
                    name,
                    name_sort,
                    pattern: pattern.copy_box(alloc)?,
                })
            }
            Pattern::Forall {
                sort,
                name,
                name_sort,
                pattern,
            } => {
                let (name, name_sort) = copy_name(alloc, name, name_sort)?;
                Ok(Pattern::Forall {
                    sort: sort.copy(alloc)?,
                    name,
                    name_sort,
                    pattern: pattern.copy_box(alloc)?,
                })
            }
            Pattern::Ceil {
                argument_sort,
                sort,
                pattern,
            } => {
                let (argument_sort, sort) = copy_sorts(alloc, argument_sort, sort)?;
                Ok(Pattern::Ceil {
                    argument_sort,
                    sort,
                    pattern: pattern.copy_box(alloc)?,
                })
            }
            Pattern::Floor {
                argument_sort,
                sort,
                pattern,
            } => {
                let (argument_sort, sort) = copy_sorts(alloc, argument_sort, sort)?;
                Ok(Pattern::Floor {
                    argument_sort,
                    sort,
                    pattern: pattern.copy_box(alloc)?,
                })
            }
            Pattern::Equals {
                argument_sort,
                sort,
                left,
                right,
            } => {
                let (argument_sort, sort) = copy_sorts(alloc, argument_sort, sort)?;
                Ok(Pattern::Equals {
                    argument_sort,
                    sort,
                    left: left.copy_box(alloc)?,
                    right: right.copy_box(alloc)?,
                })
            }
            Pattern::In {
                argument_sort,
                sort,
                left,
                right,
            } => {
                let (argument_sort, sort) = copy_sorts(alloc, argument_sort, sort)?;
                Ok(Pattern::In {
                    argument_sort,
                    sort,
                    left: left.copy_box(alloc)?,
                    right: right.copy_box(alloc)?,
                })
            }
            Pattern::Mu {
                name,
                sort,
                pattern,
            } => {
                let (name, sort) = copy_name(alloc, name, sort)?;
                Ok(Pattern::Mu {
                    name,
                    sort,
                    pattern: pattern.copy_box(alloc)?,
                })
            }
            Pattern::Nu {
                name,
                sort,
                pattern,
            } => {
                let (name, sort) = copy_name(alloc, name, sort)?;
                Ok(Pattern::Nu {
                    name,
                    sort,
                    pattern: pattern.copy_box(alloc)?,
                })
            }
        }
    }

    /// Patterns that are seen as the same data, one by one.
    #[cycle(copy)]
    pub fn copy_all(alloc: Global, patterns: &[Pattern]) -> Result<Vec<Pattern>, AllocError>
        ensures { IfOk result (λ ps. map view ps.items ≡ map view patterns.now) }
    {
        let mut copies = Vec::new(alloc);
        for pattern in patterns {
            copies.push(pattern.copy(alloc)?)?;
        }
        Ok(copies)
    }

    /// The same pattern once more, boxed.
    #[cycle(copy)]
    fn copy_box(&self, alloc: Global) -> Result<Box<Pattern>, AllocError>
        ensures { IfOk result (λ p. view p.value ≡ view self.now) }
    {
        Ok(Box::new(alloc, self.copy(alloc)?)?)
    }
}

/// A name with its sort.
fn copy_name(alloc: Global, name: &Name, sort: &Sort) -> Result<(Name, Sort), AllocError>
    ensures name { IfOk result (λ r. string_bytes r.0 ≡ string_bytes name.now) }
    ensures sort { IfOk result (λ r. sort_view r.1 ≡ sort_view sort.now) }
{
    Ok((name.clone()?, sort.copy(alloc)?))
}

/// Two sorts.
fn copy_sorts(alloc: Global, first: &Sort, second: &Sort) -> Result<(Sort, Sort), AllocError>
    ensures first { IfOk result (λ r. sort_view r.0 ≡ sort_view first.now) }
    ensures second { IfOk result (λ r. sort_view r.1 ≡ sort_view second.now) }
{
    Ok((first.copy(alloc)?, second.copy(alloc)?))
}
