// The rule set of a module that main reaches, in the order of its own walk.
ghost use Rattle.std.specs.Prelude.{◌++◌, IfOk, OnOk, length};
ghost use Rattle.kp_kore.specs.Theory.{rewrite_axioms};
ghost use Rattle.kp_book.specs.Books.{Opening, rules_in};
ghost use Rattle.kp_modules.specs.Keeping.{own_axioms};
ghost use Rattle.kp_modules.specs.Made.{IsSetOf};
ghost use Rattle.kp_modules.specs.Openings.{IsTableOf};
ghost use Rattle.kp_modules.specs.Extending.{AreTakenFrom};
ghost use Rattle.kp_modules.specs.OwnSets.{AtModuleBehind, AtModulesKept, MeansRules};

use crate::ModuleTable;
use crate::joined_rules::{add_own, called};
use kp_rule_sets::RuleSet;
use kp_rules::Rule;
use std::alloc::{AllocError, Global};
use std::sync::Arc;

/// The rule set of a module that the table's main module reaches, in the order of that module's own walk; none of
/// another name. Main's takes no memory.
pub fn rules_of(
    alloc: Global,
    table: &ModuleTable,
    name: &str,
) -> Result<Option<Arc<RuleSet>>, AllocError>
    ensures { (o : Opening) → IsTableOf o table.now → IfOk result (MeansRules o name.now) }
{
    if table.main() == name {
        return Ok(Some(table.shared()?));
    }
    match table.places_of(alloc, name)? {
        Some(places) => Ok(Some(set_at(alloc, table, &places)?)),
        None => Ok(None),
    }
}

/// The rule set of the modules at these places.
fn set_at(alloc: Global, table: &ModuleTable, places: &[usize]) -> Result<Arc<RuleSet>, AllocError>
    ensures { AtModulesKept table.now places.now (λ g ms. IfOk result (λ rules. IsSetOf g (rewrite_axioms ms) rules.value)) }
{
    let found = rules_at(alloc, table, places)?;
    Ok(Arc::new(alloc, called(alloc, &table.rule_set().signature, &found)?)?)
}

/// The rules of the modules at these places.
fn rules_at<'a>(
    alloc: Global,
    table: &'a ModuleTable,
    places: &[usize],
) -> Result<Vec<&'a Rule>, AllocError>
    ensures { AtModulesKept table.now places.now (λ g ms. IfOk result (λ found. AreTakenFrom g (rewrite_axioms ms) found.items)) }
{
    let mut found = Vec::new(alloc);
    for i in 0..places.len() {
        add_at(&mut found, table, places[i])?;
    }
    Ok(found)
}

/// Adds the rules of the module at this place.
fn add_at<'a>(
    found: &mut Vec<&'a Rule>,
    table: &'a ModuleTable,
    place: usize,
) -> Result<(), AllocError>
    ensures { AtModuleBehind table.now place (λ g m before. AreTakenFrom g before found.old.items → OnOk result (AreTakenFrom g (before ++ own_axioms m) found.new.items)) }
{
    match table.rules_at(place) {
        Some(rules) => add_own(found, rules),
        None => Ok(()),
    }
}
