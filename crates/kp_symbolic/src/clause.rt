use crate::atom::Atom;
use std::alloc::{AllocError, Global};
use std::sync::Arc;

/// An atom that is to be true, or false.
#[derive(Drop)]
pub struct Literal {
    pub holds: bool,
    pub atom: Atom,
}

/// Literals of which one is to be true. `clause_view` in specs/View.antt says which clause of kp_symbolic it is.
#[derive(Drop)]
pub struct Clause {
    pub literals: Arc<Vec<Literal>>,
}

impl Literal {
    ghost use Rattle.std.specs.Prelude.{◌≡◌, ◌↔◌, IfOk, IsTrue, map};
    ghost use Rattle.kp_symbolic.specs.View.{literal_view};

    /// The same literal, sharing its parts.
    pub fn share(&self, alloc: Global) -> Result<Literal, AllocError>
        ensures { IfOk result (λ l. literal_view l ≡ literal_view self.now) }
    {
        Ok(Literal {
            holds: self.holds,
            atom: self.atom.share(alloc)?,
        })
    }

    /// Whether both are the same literal.
    pub fn same(&self, other: &Literal) -> bool
        ensures { IsTrue result ↔ (literal_view self.now ≡ literal_view other.now) }
    {
        self.holds == other.holds && self.atom.same(&other.atom)
    }

    /// Whether both lists have the same literals.
    pub fn all_same(literals: &[Literal], others: &[Literal]) -> bool
        ensures { IsTrue result ↔ (map literal_view literals.now ≡ map literal_view others.now) }
    {
        if literals.len() != others.len() {
            return false;
        }
        for i in 0..literals.len() {
            if !literals[i].same(&others[i]) {
                return false;
            }
        }
        true
    }
}

impl Clause {
    ghost use Rattle.std.specs.Prelude.{◌≡◌, ◌↔◌, IfOk, IsTrue, map};
    ghost use Rattle.kp_symbolic.specs.View.{clause_view};

    /// The same clause, sharing its literals.
    pub fn share(&self) -> Result<Clause, AllocError>
        ensures { IfOk result (λ c. clause_view c ≡ clause_view self.now) }
    {
        Ok(Clause {
            literals: self.literals.clone()?,
        })
    }

    /// The same clauses, one by one.
    pub fn share_all(alloc: Global, clauses: &[Clause]) -> Result<Vec<Clause>, AllocError>
        ensures { IfOk result (λ cs. map clause_view cs.items ≡ map clause_view clauses.now) }
    {
        let mut shared = Vec::new(alloc);
        for clause in clauses {
            shared.push(clause.share()?)?;
        }
        Ok(shared)
    }

    /// Whether both have the same literals, in one order.
    pub fn same(&self, other: &Clause) -> bool
        ensures { IsTrue result ↔ (clause_view self.now ≡ clause_view other.now) }
    {
        Literal::all_same(&self.literals, &other.literals)
    }
}
