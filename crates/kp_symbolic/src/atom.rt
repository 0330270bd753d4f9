use crate::term::Term;
use crate::variable::Variable;
use kp_kore::{Pattern, Sort};
use std::alloc::{AllocError, Global};
use std::sync::Arc;

/// Which heads are asked for. `test_view` in specs/View.antt says which test of kp_symbolic it is.
#[derive(Drop)]
pub enum HeadTest {
    /// A constructor's own.
    Constructor { symbol: Arc<String> },
    /// Any of a sort's.
    Sort { sort: Arc<Sort> },
}

/// A variable's name, and the term that stands for it.
#[derive(Drop)]
pub struct Replaced {
    pub name: Arc<String>,
    pub term: Term,
}

/// What a literal says is true, or false. `atom_view` in specs/View.antt says which atom of kp_symbolic it is.
#[derive(Drop)]
pub enum Atom {
    /// Equality at a sort; a Boolean expression is one with `true`.
    Same {
        sort: Arc<Sort>,
        left: Term,
        right: Term,
    },
    /// The head of a variable of several heads.
    Head {
        variable: Arc<Variable>,
        test: HeadTest,
    },
    /// A predicate that isn't opened, with terms in the place of free variables.
    Quoted {
        pattern: Arc<Pattern>,
        replaced: Arc<Vec<Replaced>>,
    },
}

impl HeadTest {
    ghost use Rattle.std.specs.Prelude.{◌≡◌, ◌↔◌, IfOk, IsTrue};
    ghost use Rattle.kp_symbolic.specs.View.{test_view};

    /// The same test, sharing its parts.
    pub fn share(&self) -> Result<HeadTest, AllocError>
        ensures { IfOk result (λ t. test_view t ≡ test_view self.now) }
    {
        match self {
            HeadTest::Constructor { symbol } => Ok(HeadTest::Constructor {
                symbol: symbol.clone()?,
            }),
            HeadTest::Sort { sort } => Ok(HeadTest::Sort {
                sort: sort.clone()?,
            }),
        }
    }

    /// Whether both are the same test.
    pub fn same(&self, other: &HeadTest) -> bool
        ensures { IsTrue result ↔ (test_view self.now ≡ test_view other.now) }
    {
        match self {
            HeadTest::Constructor { symbol } => match other {
                HeadTest::Constructor { symbol: f } => **symbol == **f,
                HeadTest::Sort { .. } => false,
            },
            HeadTest::Sort { sort } => match other {
                HeadTest::Sort { sort: s } => sort.equal(s),
                HeadTest::Constructor { .. } => false,
            },
        }
    }
}

impl Replaced {
    ghost use Rattle.std.specs.Prelude.{◌≡◌, ◌↔◌, IfOk, IsTrue, map};
    ghost use Rattle.kp_symbolic.specs.View.{replaced_view};

    /// The same name and term, sharing its parts.
    pub fn share(&self, alloc: Global) -> Result<Replaced, AllocError>
        ensures { IfOk result (λ r. replaced_view r ≡ replaced_view self.now) }
    {
        Ok(Replaced {
            name: self.name.clone()?,
            term: self.term.share(alloc)?,
        })
    }

    /// Whether both are the same term for the same name.
    pub fn same(&self, other: &Replaced) -> bool
        ensures { IsTrue result ↔ (replaced_view self.now ≡ replaced_view other.now) }
    {
        *self.name == *other.name && self.term.same(&other.term)
    }

    /// Whether both lists have the same terms for the same names.
    pub fn all_same(replaced: &[Replaced], others: &[Replaced]) -> bool
        ensures { IsTrue result ↔ (map replaced_view replaced.now ≡ map replaced_view others.now) }
    {
        if replaced.len() != others.len() {
            return false;
        }
        for i in 0..replaced.len() {
            if !replaced[i].same(&others[i]) {
                return false;
            }
        }
        true
    }
}

impl Atom {
    ghost use Rattle.std.specs.Prelude.{◌≡◌, ◌↔◌, IfOk, IsTrue};
    ghost use Rattle.kp_symbolic.specs.View.{atom_view};

    /// The same atom, sharing its parts.
    pub fn share(&self, alloc: Global) -> Result<Atom, AllocError>
        ensures { IfOk result (λ a. atom_view a ≡ atom_view self.now) }
    {
        match self {
            Atom::Same { sort, left, right } => Ok(Atom::Same {
                sort: sort.clone()?,
                left: left.share(alloc)?,
                right: right.share(alloc)?,
            }),
            Atom::Head { variable, test } => Ok(Atom::Head {
                variable: variable.clone()?,
                test: test.share()?,
            }),
            Atom::Quoted { pattern, replaced } => Ok(Atom::Quoted {
                pattern: pattern.clone()?,
                replaced: replaced.clone()?,
            }),
        }
    }

    /// Whether both are the same atom.
    pub fn same(&self, other: &Atom) -> bool
        ensures { IsTrue result ↔ (atom_view self.now ≡ atom_view other.now) }
    {
        match self {
            Atom::Same { sort, left, right } => match other {
                Atom::Same {
                    sort: s,
                    left: t,
                    right: u,
                } => sort.equal(s) && left.same(t) && right.same(u),
                _ => false,
            },
            Atom::Head { variable, test } => match other {
                Atom::Head {
                    variable: x,
                    test: other_test,
                } => variable.same(x) && test.same(other_test),
                _ => false,
            },
            Atom::Quoted { pattern, replaced } => match other {
                Atom::Quoted {
                    pattern: p,
                    replaced: rs,
                } => pattern.equal(p) && Replaced::all_same(replaced, rs),
                _ => false,
            },
        }
    }
}
