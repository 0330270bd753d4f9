// Whether some values of the unknowns make one literal of each clause hold.
ghost use Rattle.std.specs.Prelude.{◌≡◌, IfOk, IsTrue, false};
ghost use Rattle.kp_signature.specs.View.{signature_view};
ghost use Rattle.kp_clause_demands.specs.Holding.{AreLight, CanBeAsked, CanBeDecided};
ghost use Rattle.kp_clause_demands.specs.Ways.{HasRoomFor};

use crate::clause_demands::{asked_by, can_all_be_met};
use crate::unknowns::Unknowns;
use kp_demands::Tables;
use kp_literals::ReadLiteral;
use kp_signature::Signature;
use std::alloc::{AllocError, Global};

/// Room for the values of the unknowns.
fn tables_for(alloc: Global, unknowns: &Unknowns) -> Result<Tables, AllocError>
    ensures sizes { IfOk result (HasRoomFor unknowns.now) }
    ensures fixed { IfOk result (λ t. t.fixed ≡ unknowns.now.written) }
{
    Tables::new(
        alloc,
        unknowns.wholes.len(),
        unknowns.truths.len(),
        unknowns.tokens.len(),
        unknowns.written,
    )
}

/// Whether some values make a literal of each clause hold that says what is decided: heads and solved equations are
/// taken to hold.
pub fn can_be_met_together(
    alloc: Global,
    signature: &Signature,
    clauses: &[Vec<ReadLiteral>],
) -> Result<bool, AllocError>
    requires { AreLight clauses.now }
    ensures yes { let g = signature_view signature.now in IfOk result (λ b. IsTrue b → CanBeDecided g clauses.now → CanBeAsked g clauses.now) }
    ensures no { let g = signature_view signature.now in IfOk result (λ b. b ≡ false → CanBeDecided g clauses.now → ¬ CanBeAsked g clauses.now) }
{
    let unknowns = Unknowns::of(alloc, clauses)?;
    let mut asked = asked_by(alloc, signature, &unknowns, clauses)?;
    let mut tables = tables_for(alloc, &unknowns)?;
    can_all_be_met(alloc, &mut asked, &mut tables)
}
