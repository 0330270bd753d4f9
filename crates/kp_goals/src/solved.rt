// What a state tells of its own variables.
ghost use Rattle.std.specs.Prelude.{◌≡◌, ◌++◌, IfOk, OnOk, map};
ghost use Rattle.std.specs.List.{flat_map};
ghost use Rattle.std.specs.Option.{option_map};
ghost use Rattle.kp_signature.specs.View.{signature_view};
ghost use Rattle.kp_symbolic.specs.View.{state_view, replaced_view};
ghost use Rattle.kp_literals.specs.Forms.{form_view};
ghost use Rattle.kp_literals.specs.Readings.{read_view, clauses_view as read_clauses_view};
ghost use Rattle.kp_goals.specs.Gives as model;
ghost use Rattle.kp_goals.specs.Gives.{solved_of};

use crate::equations::put_for;
use kp_literals::LiteralForm;
use kp_literals::clauses::read_clauses;
use kp_literals::reading::ReadLiteral;
use kp_signature::Signature;
use kp_symbolic::{Replaced, State};
use std::alloc::{AllocError, Global};

/// Adds the term of a solved equation.
fn add_form(
    alloc: Global,
    form: &Option<LiteralForm<'_>>,
    found: &mut Vec<Replaced>,
) -> Result<(), AllocError>
    ensures { OnOk result (map replaced_view found.new.items ≡ map replaced_view found.old.items ++ solved_of (option_map form_view form.now)) }
{
    match form {
        Some(LiteralForm::Gives { variable, term }) => {
            Ok(found.push(put_for(alloc, variable, term)?)?)
        }
        _ => Ok(()),
    }
}

/// Adds the term of the clause's solved equation, where it is one.
fn add_solved(
    alloc: Global,
    clause: &[ReadLiteral<'_>],
    found: &mut Vec<Replaced>,
) -> Result<(), AllocError>
    ensures { OnOk result (map replaced_view found.new.items ≡ map replaced_view found.old.items ++ model.solved_by (map read_view clause.now)) }
{
    match clause {
        [literal] => add_form(alloc, &literal.form, found),
        _ => Ok(()),
    }
}

/// The terms of the solved equations among these clauses.
fn solved_among(
    alloc: Global,
    clauses: &[Vec<ReadLiteral<'_>>],
) -> Result<Vec<Replaced>, AllocError>
    ensures { IfOk result (λ rs. map replaced_view rs.items ≡ flat_map model.solved_by (read_clauses_view clauses.now)) }
{
    let mut found = Vec::new(alloc);
    for clause in clauses {
        add_solved(alloc, clause, &mut found)?;
    }
    Ok(found)
}

/// The terms of a state's solved equations.
fn solved_in(
    alloc: Global,
    signature: &Signature,
    state: &State,
) -> Result<Vec<Replaced>, AllocError>
    ensures { IfOk result (λ rs. map replaced_view rs.items ≡ model.solved_in (signature_view signature.now) (state_view state.now)) }
{
    let read = read_clauses(alloc, signature, state)?;
    solved_among(alloc, &read)
}

/// What was given, and what the part's own equations give.
pub fn all_put(
    alloc: Global,
    signature: &Signature,
    state: &State,
    put: &[Replaced],
) -> Result<Vec<Replaced>, AllocError>
    ensures { IfOk result (λ rs. map replaced_view rs.items ≡ map replaced_view put.now ++ model.solved_in (signature_view signature.now) (state_view state.now)) }
{
    let mut all = Vec::new(alloc);
    for replaced in put {
        all.push(replaced.share(alloc)?)?;
    }
    let mut solved = solved_in(alloc, signature, state)?;
    all.append(&mut solved)?;
    Ok(all)
}
