use crate::variable::Variable;
use kp_ground::Value;
use std::alloc::{AllocError, Global};
use std::sync::Arc;

/// A symbolic term, whose parts are shared. `term_view` in specs/View.antt says which term of kp_symbolic it is.
#[derive(Drop)]
pub enum Term {
    Unknown {
        variable: Arc<Variable>,
    },
    /// The sum of a whole-number variable and a constant other than 0.
    Offset {
        variable: Arc<Variable>,
        constant: i128,
    },
    /// A term without variables and calls is its value.
    Known {
        value: Value,
    },
    /// A constructor not all of whose arguments are known, or an interpreted symbol.
    Headed {
        symbol: Arc<String>,
        arguments: Arc<Vec<Term>>,
    },
}

impl Term {
    ghost use Rattle.std.specs.Prelude.{◌≡◌, ◌↔◌, IfOk, IsTrue, map};
    ghost use Rattle.kp_symbolic.specs.View.{term_view, terms_of};

    /// The same term, sharing its parts.
    pub fn share(&self, alloc: Global) -> Result<Term, AllocError>
        ensures { IfOk result (λ t. term_view t ≡ term_view self.now) }
    {
        match self {
            Term::Unknown { variable } => Ok(Term::Unknown {
                variable: variable.clone()?,
            }),
            Term::Offset { variable, constant } => Ok(Term::Offset {
                variable: variable.clone()?,
                constant: *constant,
            }),
            Term::Known { value } => Ok(Term::Known {
                value: value.share(alloc)?,
            }),
            Term::Headed { symbol, arguments } => Ok(Term::Headed {
                symbol: symbol.clone()?,
                arguments: arguments.clone()?,
            }),
        }
    }

    /// The same terms, one by one.
    pub fn share_all(alloc: Global, terms: &[Term]) -> Result<Vec<Term>, AllocError>
        ensures { IfOk result (λ ts. map term_view ts.items ≡ map term_view terms.now) }
    {
        let mut shared = Vec::new(alloc);
        for term in terms {
            shared.push(term.share(alloc)?)?;
        }
        Ok(shared)
    }

    /// Whether both are the same term.
    #[cycle(same)]
    pub fn same(&self, other: &Term) -> bool
        ensures { IsTrue result ↔ (term_view self.now ≡ term_view other.now) }
    {
        match self {
            Term::Unknown { variable } => match other {
                Term::Unknown { variable: x } => variable.same(x),
                _ => false,
            },
            Term::Offset { variable, constant } => match other {
                Term::Offset {
                    variable: x,
                    constant: c,
                } => variable.same(x) && constant == c,
                _ => false,
            },
            Term::Known { value } => match other {
                Term::Known { value: u } => value.equal(u),
                _ => false,
            },
            Term::Headed { symbol, arguments } => match other {
                Term::Headed {
                    symbol: f,
                    arguments: ts,
                } => **symbol == **f && Term::all_same(arguments, ts),
                _ => false,
            },
        }
    }

    /// Whether both lists have the same terms.
    #[cycle(same)]
    pub fn all_same(terms: &[Term], others: &[Term]) -> bool
        ensures { IsTrue result ↔ (terms_of (map term_view terms.now) ≡ terms_of (map term_view others.now)) }
    {
        if terms.len() != others.len() {
            return false;
        }
        for i in 0..terms.len() {
            if !terms[i].same(&others[i]) {
                return false;
            }
        }
        true
    }
}
