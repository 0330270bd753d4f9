// The clauses of a state, read one after another.
ghost use Rattle.std.specs.Prelude.{◌≡◌, ◌∷◌, ◌++◌, [], IfOk, map};
ghost use Rattle.std.specs.Option.{option_map};
ghost use Rattle.kp_kore.specs.Signature.{KoreSignature};
ghost use Rattle.kp_signature.specs.View.{signature_view};
ghost use Rattle.kp_symbolic.specs.Plain as model;
ghost use Rattle.kp_symbolic.specs.States.{atom_variables};
ghost use Rattle.kp_symbolic.specs.View.{literal_view, clauses_view, state_view};
ghost use Rattle.kp_literals.specs.Forms.{form_view};
ghost use Rattle.kp_literals.specs.Readings as reading;
ghost use Rattle.kp_literals.specs.Readings.{read_view};
ghost use Rattle.kp_literals.specs.Unknowns.{IsSaidAmong, IsReadOfKind, IsClauseOfKind, AreReadOfKind};
ghost use Rattle.kp_literals.specs.Each.{read_literal};

use crate::own_clause::own_form;
use crate::{LiteralForm, ReadLiteral, form_of};
use kp_signature::Signature;
use kp_symbolic::{Clause, Literal, State};
use std::alloc::{AllocError, Global};

/// A literal with what it says.
fn read<'a>(literal: &'a Literal, form: Option<LiteralForm<'a>>) -> ReadLiteral<'a>
    ensures view { read_view result ≡ read_literal (literal_view literal.now) (option_map form_view form.entry) }
    ensures kinds { (g : KoreSignature) → IsSaidAmong g (atom_variables (literal_view literal.now).atom) form.entry → IsReadOfKind g result }
{
    ReadLiteral { literal, form }
}

/// A literal with what it says in any clause.
fn read_in_any<'a>(signature: &Signature, literal: &'a Literal) -> ReadLiteral<'a>
    ensures view { read_view result ≡ read_literal (literal_view literal.now) (model.form_of (signature_view signature.now) (literal_view literal.now)) }
    ensures kinds { IsReadOfKind (signature_view signature.now) result }
{
    read(literal, form_of(signature, literal))
}

/// The literals of a clause, each with what it says in any clause.
fn read_each<'a>(
    alloc: Global,
    signature: &Signature,
    literals: &'a [Literal],
) -> Result<Vec<ReadLiteral<'a>>, AllocError>
    ensures view { IfOk result (λ c. map read_view c.items ≡ map (λ l. read_literal l (model.form_of (signature_view signature.now) l)) (map literal_view literals.now)) }
    ensures kinds { IfOk result (λ c. IsClauseOfKind (signature_view signature.now) c.items) }
{
    let mut found = Vec::new(alloc);
    for literal in literals {
        found.push(read_in_any(signature, literal))?;
    }
    Ok(found)
}

/// A literal that is a clause of its own between others.
fn read_alone<'a>(
    alloc: Global,
    signature: &Signature,
    state: &State,
    before: &[Clause],
    after: &[Clause],
    literal: &'a Literal,
) -> Result<Vec<ReadLiteral<'a>>, AllocError>
    ensures view { let literal' = literal_view literal.now in let g = signature_view signature.now in IfOk result (λ c. map read_view c.items ≡ read_literal literal' (model.own_form g (state_view state.now) (clauses_view before.now ++ clauses_view after.now) literal') ∷ []) }
    ensures kinds { IfOk result (λ c. IsClauseOfKind (signature_view signature.now) c.items) }
{
    let form = own_form(alloc, signature, state, before, after, literal)?;
    let mut found = Vec::new(alloc);
    found.push(read(literal, form))?;
    Ok(found)
}

/// A clause between others, each literal with what it says there.
fn read_clause<'a>(
    alloc: Global,
    signature: &Signature,
    state: &State,
    before: &[Clause],
    after: &[Clause],
    clause: &'a [Literal],
) -> Result<Vec<ReadLiteral<'a>>, AllocError>
    ensures view { let g = signature_view signature.now in let others = clauses_view before.now ++ clauses_view after.now in IfOk result (λ c. map read_view c.items ≡ model.read_clause g (state_view state.now) others (map literal_view clause.now)) }
    ensures kinds { IfOk result (λ c. IsClauseOfKind (signature_view signature.now) c.items) }
{
    match clause {
        [literal] => read_alone(alloc, signature, state, before, after, literal),
        _ => read_each(alloc, signature, clause),
    }
}

/// The clauses of a state, each literal with what it says in its clause.
pub fn read_clauses<'a>(
    alloc: Global,
    signature: &Signature,
    state: &'a State,
) -> Result<Vec<Vec<ReadLiteral<'a>>>, AllocError>
    ensures view { IfOk result (λ cs. reading.clauses_view cs.items ≡ model.read_clauses (signature_view signature.now) (state_view state.now)) }
    ensures kinds { IfOk result (λ cs. AreReadOfKind (signature_view signature.now) cs.items) }
{
    let clauses = state.clauses.as_slice();
    let mut found = Vec::new(alloc);
    for i in 0..clauses.len() {
        let before = &clauses[..i];
        let after = &clauses[i + 1..];
        found.push(read_clause(alloc, signature, state, before, after, &clauses[i].literals)?)?;
    }
    Ok(found)
}
