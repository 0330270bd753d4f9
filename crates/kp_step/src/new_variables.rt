// New variables for those of a rule, and what all variables of its right side stand for.
ghost use Rattle.std.specs.Prelude.{◌≡◌, ◌++◌, IfOk, OnOk, List, map, string_bytes, is_some};
ghost use Rattle.kp_kore.specs.Syntax.{Text};
ghost use Rattle.kp_kore.specs.View.{sorted_variable_view};
ghost use Rattle.kp_symbolic.specs.Terms.{unknown, replacement_for};
ghost use Rattle.kp_symbolic.specs.View.{replaced_view, variable_view};
ghost use Rattle.kp_unify.specs.Views.{IsSetting};
ghost use Rattle.kp_step.specs.Follows as model;
ghost use Rattle.kp_step.specs.RightSides.{AreChosen, IsChosenOne};
ghost use Rattle.kp_step.specs.Chosen.{chosen_view};

use kp_kore::SortedVariable;
use kp_rules::is_named;
use kp_symbolic::{Replaced, Term, Variable};
use kp_unify::Setting;
use kp_unify::new_names::new_variable;
use std::alloc::{AllocError, Global};
use std::sync::Arc;

/// New variables for those of a rule, what the rule's stand for, and the number of the next name.
#[derive(Drop)]
pub struct Chosen {
    pub bindings: Vec<Replaced>,
    pub made: Vec<Arc<Variable>>,
    pub next: u64,
}

/// A rule's variable that stands for a new one.
fn stands_for(
    alloc: Global,
    own: &SortedVariable,
    variable: &Arc<Variable>,
) -> Result<Replaced, AllocError>
    ensures { IfOk result (λ r. replaced_view r ≡ record { name = string_bytes own.now.name; term = unknown (variable_view variable.now.value) }) }
{
    Ok(Replaced {
        name: Arc::new(alloc, own.name.clone()?)?,
        term: Term::Unknown {
            variable: variable.clone()?,
        },
    })
}

/// Whether a term stands in the place of the variable already.
fn is_bound(bindings: &[Replaced], own: &SortedVariable) -> bool
    ensures { result ≡ is_some (replacement_for (map replaced_view bindings.now) (string_bytes own.now.name)) }
{
    for binding in bindings {
        if binding.name.as_str() == own.name.as_str() {
            return true;
        }
    }
    false
}

/// Adds a new variable for one of the rule's, where it has none.
fn choose_one(
    alloc: Global,
    setting: Setting<'_>,
    own: &SortedVariable,
    chosen: &mut Chosen,
) -> Result<(), AllocError>
    ensures { let own' = sorted_variable_view own.now in (used : List Text) → IsSetting used setting.entry → OnOk result (IsChosenOne used own' (chosen_view chosen.old) (chosen_view chosen.new)) }
{
    if is_bound(&chosen.bindings, own) {
        return Ok(());
    }
    let new = new_variable(alloc, setting.met, chosen.next, &own.sort)?;
    chosen.next = new.next;
    chosen
        .bindings
        .push(stands_for(alloc, own, &new.variable)?)?;
    chosen.made.push(new.variable)?;
    Ok(())
}

/// A new variable for each new variable of the rule.
pub fn choose(
    alloc: Global,
    setting: Setting<'_>,
    own: &[SortedVariable],
    next: u64,
) -> Result<Chosen, AllocError>
    ensures { (used : List Text) → IsSetting used setting.entry → IfOk result (λ c. AreChosen used (map sorted_variable_view own.now) next (chosen_view c)) }
{
    let mut chosen = Chosen {
        bindings: Vec::new(alloc),
        made: Vec::new(alloc),
        next,
    };
    for one in own {
        choose_one(alloc, setting, one, &mut chosen)?;
    }
    Ok(chosen)
}

/// What the left side's variables stand for, but for those of the name of a new one, which hide them.
fn kept_bindings(
    alloc: Global,
    own: &[SortedVariable],
    bindings: &[Replaced],
) -> Result<Vec<Replaced>, AllocError>
    ensures { IfOk result (λ bs. map replaced_view bs.items ≡ model.kept_bindings (map sorted_variable_view own.now) (map replaced_view bindings.now)) }
{
    let mut kept = Vec::new(alloc);
    for binding in bindings {
        if !is_named(binding.name.as_str(), own) {
            kept.push(binding.share(alloc)?)?;
        }
    }
    Ok(kept)
}

/// What all variables of the right side stand for.
pub fn all_bindings(
    alloc: Global,
    own: &[SortedVariable],
    bindings: &[Replaced],
    fresh: Vec<Replaced>,
) -> Result<Vec<Replaced>, AllocError>
    ensures { let kept = model.kept_bindings (map sorted_variable_view own.now) (map replaced_view bindings.now) in IfOk result (λ bs. map replaced_view bs.items ≡ kept ++ map replaced_view fresh.items) }
{
    let mut all = kept_bindings(alloc, own, bindings)?;
    let mut fresh = fresh;
    all.append(&mut fresh)?;
    Ok(all)
}
