// What equalities tell of bound variables.
ghost use Rattle.std.specs.Prelude.{◌≡◌, ◌++◌, not, [], ◌∷◌, IfOk, OnOk, map};
ghost use Rattle.std.specs.List.{flat_map};
ghost use Rattle.std.specs.Str.{bytes_eq};
ghost use Rattle.kp_kore.specs.Instance.{is_named};
ghost use Rattle.kp_signature.specs.View.{signature_view};
ghost use Rattle.kp_symbolic.specs.Endings.{all_open_places, open_places};
ghost use Rattle.kp_symbolic.specs.View.{atom_view, term_view, terms_of, variable_view, variables_view};
ghost use Rattle.kp_implies.specs.Printed as model;
ghost use Rattle.kp_implies.specs.View.{telling_view};

use crate::matched::is_construction;
use kp_goals::{has_bound, is_among};
use kp_signature::Signature;
use kp_symbolic::state::share_variables;
use kp_symbolic::{Atom, Term, Variable};
use std::alloc::{AllocError, Global};
use std::sync::Arc;

/// An equality with the bound variables that it tells.
#[derive(Drop)]
pub struct Telling {
    pub atom: Atom,
    pub told: Vec<Arc<Variable>>,
}

/// Adds the variables that stand in a term outside of calls.
#[cycle(outside)]
fn add_open(
    term: &Term,
    signature: &Signature,
    found: &mut Vec<Arc<Variable>>,
) -> Result<(), AllocError>
    ensures { let g = signature_view signature.now in OnOk result (variables_view found.new.items ≡ variables_view found.old.items ++ open_places g (term_view term.now)) }
{
    match term {
        Term::Unknown { variable } | Term::Offset { variable, .. } => {
            Ok(found.push(variable.clone()?)?)
        }
        Term::Known { .. } => Ok(()),
        Term::Headed { symbol, arguments } => {
            if is_construction(signature, symbol) {
                return add_all_open(arguments, signature, found);
            }
            Ok(())
        }
    }
}

/// The same of each of these.
#[cycle(outside)]
fn add_all_open(
    terms: &[Term],
    signature: &Signature,
    found: &mut Vec<Arc<Variable>>,
) -> Result<(), AllocError>
    ensures { let g = signature_view signature.now in let ts = terms_of (map term_view terms.now) in OnOk result (variables_view found.new.items ≡ variables_view found.old.items ++ all_open_places g ts) }
{
    for term in terms {
        add_open(term, signature, found)?;
    }
    Ok(())
}

/// Adds the variable, if so.
fn add_if(
    keep: bool,
    variable: &Arc<Variable>,
    found: &mut Vec<Arc<Variable>>,
) -> Result<(), AllocError>
    ensures { OnOk result (variables_view found.new.items ≡ variables_view found.old.items ++ model.only_if keep (variable_view variable.now.value)) }
{
    if keep {
        found.push(variable.clone()?)?;
        return Ok(());
    }
    Ok(())
}

/// Those of the variables that are left that are among these.
fn named_in(
    alloc: Global,
    names: &[Arc<Variable>],
    left: &[Arc<Variable>],
) -> Result<Vec<Arc<Variable>>, AllocError>
    ensures { IfOk result (λ xs. variables_view xs.items ≡ flat_map (λ x. model.only_if (is_named x.name (variables_view names.now)) x) (variables_view left.now)) }
{
    let mut found = Vec::new(alloc);
    for variable in left {
        add_if(is_among(&variable.name, names), variable, &mut found)?;
    }
    Ok(found)
}

/// Those that aren't.
fn without(
    alloc: Global,
    told: &[Arc<Variable>],
    left: &[Arc<Variable>],
) -> Result<Vec<Arc<Variable>>, AllocError>
    ensures { IfOk result (λ xs. variables_view xs.items ≡ model.without (variables_view told.now) (variables_view left.now)) }
{
    let mut found = Vec::new(alloc);
    for variable in left {
        add_if(!is_among(&variable.name, told), variable, &mut found)?;
    }
    Ok(found)
}

/// Those that stand in the term outside of calls.
fn open_in(
    alloc: Global,
    signature: &Signature,
    left: &[Arc<Variable>],
    term: &Term,
) -> Result<Vec<Arc<Variable>>, AllocError>
    ensures { IfOk result (λ xs. variables_view xs.items ≡ model.open_in (signature_view signature.now) (variables_view left.now) (term_view term.now)) }
{
    let mut names = Vec::new(alloc);
    add_open(term, signature, &mut names)?;
    named_in(alloc, &names, left)
}

/// What the equality of two terms tells of those that are left.
fn told_by_sides(
    alloc: Global,
    signature: &Signature,
    left: &[Arc<Variable>],
    first: &Term,
    second: &Term,
) -> Result<Vec<Arc<Variable>>, AllocError>
    ensures { let g = signature_view signature.now in let left' = variables_view left.now in IfOk result (λ xs. variables_view xs.items ≡ model.told_by_sides g left' (term_view first.now) (term_view second.now)) }
{
    if !has_bound(left, first) {
        return open_in(alloc, signature, left, second);
    }
    if has_bound(left, second) {
        return Ok(Vec::new(alloc));
    }
    open_in(alloc, signature, left, first)
}

/// What an atom tells of them.
fn told_by(
    alloc: Global,
    signature: &Signature,
    left: &[Arc<Variable>],
    atom: &Atom,
) -> Result<Vec<Arc<Variable>>, AllocError>
    ensures { IfOk result (λ xs. variables_view xs.items ≡ model.told_by (signature_view signature.now) (variables_view left.now) (atom_view atom.now)) }
{
    match atom {
        Atom::Same {
            left: first,
            right,
            ..
        } => told_by_sides(alloc, signature, left, first, right),
        Atom::Head { .. } | Atom::Quoted { .. } => Ok(Vec::new(alloc)),
    }
}

/// The atom with what it tells.
fn make_telling(
    alloc: Global,
    signature: &Signature,
    left: &[Arc<Variable>],
    atom: &Atom,
) -> Result<Telling, AllocError>
    ensures { let a = atom_view atom.now in IfOk result (λ t. telling_view t ≡ record { atom = a; told = model.told_by (signature_view signature.now) (variables_view left.now) a }) }
{
    Ok(Telling {
        atom: atom.share(alloc)?,
        told: told_by(alloc, signature, left, atom)?,
    })
}

/// Adds the atom with what it tells of those that are left; the others are left then.
fn tell(
    alloc: Global,
    signature: &Signature,
    left: &[Arc<Variable>],
    atom: &Atom,
    found: &mut Vec<Telling>,
) -> Result<Vec<Arc<Variable>>, AllocError>
    ensures left { let g = signature_view signature.now in let before = variables_view left.now in IfOk result (λ xs. variables_view xs.items ≡ model.without (model.told_by g before (atom_view atom.now)) before) }
    ensures told { let a = atom_view atom.now in OnOk result (map telling_view found.new.items ≡ map telling_view found.old.items ++ record { atom = a; told = model.told_by (signature_view signature.now) (variables_view left.now) a } ∷ []) }
{
    let next = make_telling(alloc, signature, left, atom)?;
    let others = without(alloc, &next.told, left)?;
    found.push(next)?;
    Ok(others)
}

/// Adds each of these.
fn add_each<'a>(all: &'a [Atom], found: &mut Vec<&'a Atom>) -> Result<(), AllocError>
    ensures { OnOk result (map (λ a. atom_view a.now) found.new.items ≡ map (λ a. atom_view a.now) found.old.items ++ map atom_view all.now) }
{
    for atom in all {
        found.push(atom)?;
    }
    Ok(())
}

/// The atoms as often as there are bound variables.
fn repeated<'a>(
    alloc: Global,
    bound: &[Arc<Variable>],
    all: &'a [Atom],
) -> Result<Vec<&'a Atom>, AllocError>
    ensures { IfOk result (λ found. map (λ a. atom_view a.now) found.items ≡ flat_map (λ x. map atom_view all.now) (variables_view bound.now)) }
{
    let mut found = Vec::new(alloc);
    for _step in bound {
        add_each(all, &mut found)?;
    }
    Ok(found)
}

/// The atoms one by one, with what each tells of those that are left.
fn tellings(
    alloc: Global,
    signature: &Signature,
    bound: &[Arc<Variable>],
    all: &[&Atom],
) -> Result<Vec<Telling>, AllocError>
    ensures { IfOk result (λ ts. map telling_view ts.items ≡ model.tellings (signature_view signature.now) (variables_view bound.now) (map (λ a. atom_view a.now) all.now)) }
{
    let mut left = share_variables(alloc, bound)?;
    let mut found = Vec::new(alloc);
    for atom in all {
        left = tell(alloc, signature, &left, atom, &mut found)?;
    }
    Ok(found)
}

/// The atoms with what they tell of the bound variables.
pub fn all_tellings(
    alloc: Global,
    signature: &Signature,
    bound: &[Arc<Variable>],
    all: &[Atom],
) -> Result<Vec<Telling>, AllocError>
    ensures { IfOk result (λ ts. map telling_view ts.items ≡ model.all_tellings (signature_view signature.now) (variables_view bound.now) (map atom_view all.now)) }
{
    let repeated = repeated(alloc, bound, all)?;
    tellings(alloc, signature, bound, &repeated)
}

/// Adds the variables.
fn add_variables(told: &[Arc<Variable>], found: &mut Vec<Arc<Variable>>) -> Result<(), AllocError>
    ensures { OnOk result (variables_view found.new.items ≡ variables_view found.old.items ++ variables_view told.now) }
{
    for variable in told {
        found.push(variable.clone()?)?;
    }
    Ok(())
}

/// All that is told.
pub fn told_variables(alloc: Global, tellings: &[Telling]) -> Result<Vec<Arc<Variable>>, AllocError>
    ensures { IfOk result (λ xs. variables_view xs.items ≡ model.told_variables (map telling_view tellings.now)) }
{
    let mut found = Vec::new(alloc);
    for telling in tellings {
        add_variables(&telling.told, &mut found)?;
    }
    Ok(found)
}

/// Whether the variable is the first that is told.
fn begins_with(variable: &Variable, told: &[Arc<Variable>]) -> bool
    ensures { result ≡ model.begins_with (variable_view variable.now) (variables_view told.now) }
{
    match told {
        [first, ..] => first.name.as_str() == variable.name.as_str(),
        [] => false,
    }
}

/// Adds the atom, if the variable is the first that it tells.
fn add_atom(
    alloc: Global,
    variable: &Variable,
    telling: &Telling,
    found: &mut Vec<Atom>,
) -> Result<(), AllocError>
    ensures { let t = telling_view telling.now in OnOk result (map atom_view found.new.items ≡ map atom_view found.old.items ++ model.only_if (model.begins_with (variable_view variable.now) t.told) t.atom) }
{
    if begins_with(variable, &telling.told) {
        found.push(telling.atom.share(alloc)?)?;
        return Ok(());
    }
    Ok(())
}

/// Adds what is written for the variable.
fn add_written_for(
    alloc: Global,
    tellings: &[Telling],
    variable: &Variable,
    found: &mut Vec<Atom>,
) -> Result<(), AllocError>
    ensures { OnOk result (map atom_view found.new.items ≡ map atom_view found.old.items ++ model.written_for (map telling_view tellings.now) (variable_view variable.now)) }
{
    for telling in tellings {
        add_atom(alloc, variable, telling, found)?;
    }
    Ok(())
}

/// What is written, in the binders' order.
pub fn in_binders_order(
    alloc: Global,
    tellings: &[Telling],
    bound: &[Arc<Variable>],
) -> Result<Vec<Atom>, AllocError>
    ensures { IfOk result (λ all. map atom_view all.items ≡ model.in_binders_order (map telling_view tellings.now) (variables_view bound.now)) }
{
    let mut found = Vec::new(alloc);
    for variable in bound {
        add_written_for(alloc, tellings, variable, &mut found)?;
    }
    Ok(found)
}
