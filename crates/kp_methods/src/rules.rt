// The rules of a table.
ghost use Rattle.kp_rule_sets.specs.RuleSets.{RunsAs};
ghost use Rattle.kp_methods.specs.ServedTheory.{IsServedTheoryOf, ServedTheory};

use kp_modules::ModuleTable;
use kp_rule_sets::RuleSet;

/// The rules of a table.
pub fn rules_of(table: &ModuleTable) -> &RuleSet
    ensures { (s : ServedTheory) → IsServedTheoryOf s table.now → RunsAs s.theory result.now }
{
    table.rule_set()
}
