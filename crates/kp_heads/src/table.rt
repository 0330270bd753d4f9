// Which sorts have a value.
ghost use Rattle.std.specs.Prelude.{◌≡◌, ◌↔◌, ◌⊎◌, ◌∷◌, [], IfOk, IsTrue, MatchBool, OnOk, map};
ghost use Rattle.std.specs.List.{Contains};
ghost use Rattle.kp_kore.specs.Syntax.{KoreSort};
ghost use Rattle.kp_kore.specs.Signature.{KoreSignature, constructor_of, has_literals};
ghost use Rattle.kp_kore.specs.View.{sort_view};
ghost use Rattle.kp_signature.specs.Edges.{Extended};
ghost use Rattle.kp_signature.specs.View.{signature_view};
ghost use Rattle.kp_heads.specs.Heads.{HasValue, IsLive};
ghost use Rattle.kp_heads.specs.Made.{AreLiteralNumbers, IsHeadTableOf};

use crate::constructor::constructor_named;
use crate::made::Made;
use crate::spread::{Numbers, spread};
use crate::users::users_of;
use indexmap::IndexSet;
use kp_kore::Sort;
use kp_signature::Signature;
use kp_signature::numbering::Numbering;
use std::alloc::{AllocError, Global};

/// The sorts that subsort pairs and constructors name, and the numbers of those that have a value.
#[derive(Drop)]
pub struct HeadTable {
    pub numbering: Numbering,
    pub live: Numbers,
}

/// Adds a number where it passes.
fn add_if(found: &mut Numbers, number: usize, passes: bool) -> Result<(), AllocError>
    ensures { OnOk result (MatchBool passes (Extended found.old.keys (number ∷ []) found.new.keys) (found.new.keys ≡ found.old.keys)) }
{
    if !passes {
        return Ok(());
    }
    found.insert(number)?;
    Ok(())
}

/// The numbers of the sorts that have literals.
fn literal_numbers(
    alloc: Global,
    signature: &Signature,
    sorts: &[Sort],
) -> Result<Numbers, AllocError>
    ensures { IfOk result (λ found. AreLiteralNumbers (signature_view signature.now) (map sort_view sorts.now) found.keys) }
{
    let mut found = IndexSet::new(alloc);
    for number in 0..sorts.len() {
        add_if(&mut found, number, signature.has_literals(&sorts[number]))?;
    }
    Ok(found)
}

impl HeadTable {
    /// The table of a signature, made in time and memory in proportion to it.
    pub fn new(alloc: Global, signature: &Signature) -> Result<HeadTable, AllocError>
        ensures { IfOk result (IsHeadTableOf (signature_view signature.now)) }
    {
        let Made { numbering, rows } = Made::new(alloc, signature)?;
        let users = users_of(alloc, &rows, numbering.sorts.len())?;
        let mut live = literal_numbers(alloc, signature, &numbering.sorts)?;
        spread(&rows, &users, &mut live)?;
        Ok(HeadTable { numbering, live })
    }

    /// Whether the sort has a number, and a value.
    fn is_marked(&self, sort: &Sort) -> bool
        ensures sound { (g : KoreSignature) → IsHeadTableOf g self.now → IsTrue result → HasValue g (sort_view sort.now) }
        ensures others { (g : KoreSignature) → IsHeadTableOf g self.now → HasValue g (sort_view sort.now) → IsTrue result ⊎ IsTrue (has_literals g (sort_view sort.now)) }
    {
        match self.numbering.number_of(sort) {
            Some(number) => self.live.contains(&number),
            None => false,
        }
    }

    /// Whether some value has the sort, where the table is the signature's.
    pub fn has_value(&self, signature: &Signature, sort: &Sort) -> bool
        ensures { IsHeadTableOf (signature_view signature.now) self.now → IsTrue result ↔ HasValue (signature_view signature.now) (sort_view sort.now) }
    {
        signature.has_literals(sort) || self.is_marked(sort)
    }

    /// Whether each of the sorts has a value, where the table is the signature's.
    pub fn have_values(&self, signature: &Signature, sorts: &[Sort]) -> bool
        ensures { let g = signature_view signature.now in IsHeadTableOf g self.now → IsTrue result ↔ ((s : KoreSort) → Contains (map sort_view sorts.now) s → HasValue g s) }
    {
        for sort in sorts {
            if !self.has_value(signature, sort) {
                return false;
            }
        }
        true
    }

    /// Whether some value has the constructor of this name for its head, where the table is the signature's.
    pub fn is_live(&self, signature: &Signature, name: &str) -> bool
        ensures { IsHeadTableOf (signature_view signature.now) self.now → IsTrue result ↔ IsLive (signature_view signature.now) (constructor_of name.now) }
    {
        match constructor_named(signature, name) {
            Some(declaration) => self.have_values(signature, &declaration.arguments),
            None => false,
        }
    }
}
