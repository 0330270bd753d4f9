// What is loaded of a definition.
ghost use Rattle.std.specs.Prelude.{◌≡◌, ◌++◌, ◌∷◌, [], List, IfOk, IfErr, OnOk, map, string_bytes};
ghost use Rattle.kp_kore.specs.Syntax.{Text};
ghost use Rattle.kp_kore.specs.Signature.{signature_of};
ghost use Rattle.kp_kore.specs.View.{module_view, definition_view};
ghost use Rattle.kp_signature.specs.View.{sentences_of};
ghost use Rattle.kp_kore.specs.Theory.{Theory, IsTheoryOf, modules_reached, rewrite_axioms as axioms_among};
ghost use Rattle.kp_imports.specs.Faults.{AreSound, HasNoFault, TellsFaulty, TellsFirst};
ghost use Rattle.std.specs.List.{flat_map};
ghost use Rattle.kp_modules.specs.Made.{IsRunOf, IsSetOf};
ghost use Rattle.kp_imports.specs.Names.{Lists, names_of as names_among};
ghost use Rattle.kp_modules.specs.Openings.{IsTableOf, opening_of};
ghost use Rattle.kp_imports.specs.Reaching.{has};
ghost use Rattle.kp_modules.specs.Tables.{rule_set_of, main_of, does_reach, RunsTable, IsTableOver};

use crate::outlines::{RuleSpan, outlines, rule_spans};
use crate::reached_modules::reached;
use crate::rules::rules_of;
use indexmap::IndexMap;
use kp_imports::duplicates::{check_sorts, check_symbols};
use kp_imports::fault::LoadError;
use kp_kore::{Definition, Module, Name};
use kp_rule_sets::RuleSet;
use kp_signature::Signature;
use std::alloc::{AllocError, Global};
use std::sync::Arc;

/// The rule set of a definition's main module, with the names of the modules that it reaches. Of these modules it has the
/// imports, in order, and where their rules stand among main's: the rule set of each can be made of main's.
pub struct ModuleTable {
    pub(crate) main: Name,
    pub(crate) names: IndexMap<Name, ()>,
    pub(crate) modules: Vec<Module>,
    pub(crate) spans: Vec<RuleSpan>,
    pub(crate) rule_set: Arc<RuleSet>,
}

// Written out: a derived one is proved again in each crate that owns such a value.
impl Drop for ModuleTable {
    fn drop(self) {
        let ModuleTable {
            main: _main,
            names: _names,
            modules: _modules,
            spans: _spans,
            rule_set: _rule_set,
        } = self;
    }
}

impl ModuleTable {
    /// The signature and the rules in order.
    pub fn rule_set(&self) -> &RuleSet
        ensures { result.now ≡ rule_set_of self.now }
    {
        &self.rule_set
    }

    /// The same, to be kept beside the table.
    pub fn shared(&self) -> Result<Arc<RuleSet>, AllocError>
        ensures { IfOk result (λ rules. rules.value ≡ rule_set_of self.now) }
    {
        self.rule_set.clone()
    }

    /// The name of the main module.
    pub fn main(&self) -> &str
        ensures { result.now ≡ main_of self.now }
    {
        self.main.as_str()
    }

    /// Whether a module of this name is main or imported by it, directly or further on.
    pub fn reaches(&self, name: &str) -> bool
        ensures { result ≡ does_reach self.now name.now }
    {
        self.names.contains_key(name)
    }
}

/// The table of a definition for its main module. Of several faults M5 and M8 come first, then the least.
///
/// Its rule set is the theory that the definition means for its main module, rule by rule.
pub fn load(alloc: Global, definition: &Definition, main: &str) -> Result<ModuleTable, LoadError>
    ensures loaded { IfOk result (λ table. (t : Theory) × IsTheoryOf (definition_view definition.now) main.now t × RunsTable t table) }
    ensures made { let the_modules_reached = modules_reached (definition_view definition.now) main.now in IfOk result (λ table. IsSetOf (signature_of (flat_map (λ m. m.sentences) the_modules_reached)) (axioms_among the_modules_reached) (rule_set_of table)) }
    ensures opening { IfOk result (IsTableOf (opening_of (definition_view definition.now) main.now)) }
    ensures main { IfOk result (λ table. main_of table ≡ main.now) }
    ensures reaches { IfOk result (λ table. (n : Text) → does_reach table n ≡ has n (names_among (modules_reached (definition_view definition.now) main.now))) }
    ensures none { OnOk result (HasNoFault (definition_view definition.now) main.now) }
    ensures err { IfErr result (TellsFirst (definition_view definition.now) main.now) }
{
    let modules = reached(alloc, definition, main)?;
    check_sorts(alloc, &modules)?;
    check_symbols(alloc, &modules)?;
    let set = rule_set(alloc, &modules)?;
    Ok(table_over(alloc, main, &modules, set)?)
}

/// The table of these modules with this rule set.
fn table_over(
    alloc: Global,
    main: &str,
    modules: &[&Module],
    set: RuleSet,
) -> Result<ModuleTable, AllocError>
    ensures table { IfOk result (IsTableOver main.now modules.now) }
    ensures rules { IfOk result (λ table. rule_set_of table ≡ set) }
{
    let rule_set = Arc::new(alloc, set)?;
    let main = String::from_str(alloc, main)?;
    Ok(ModuleTable {
        main,
        names: names_of(alloc, modules)?,
        modules: outlines(alloc, modules)?,
        spans: rule_spans(alloc, modules)?,
        rule_set,
    })
}

/// The signature and the rules of these modules.
fn rule_set(alloc: Global, modules: &[&Module]) -> Result<RuleSet, LoadError>
    ensures err { IfErr result (TellsFaulty (signature_of (sentences_of modules.now)) (axioms_among (map (λ m. module_view m.now) modules.now))) }
    ensures sound { OnOk result (AreSound (signature_of (sentences_of modules.now)) (axioms_among (map (λ m. module_view m.now) modules.now))) }
    ensures ok { IfOk result (IsRunOf (map (λ m. module_view m.now) modules.now)) }
{
    let signature = Signature::new(alloc, modules)?;
    let signature = Arc::new(alloc, signature)?;
    let rules = rules_of(alloc, &signature, modules)?;
    let set = RuleSet::new(alloc, signature, rules)?;
    Ok(set)
}

/// The modules' names.
fn names_of(alloc: Global, modules: &[&Module]) -> Result<IndexMap<Name, ()>, AllocError>
    ensures { IfOk result (λ names. Lists (names_among (map (λ m. module_view m.now) modules.now)) names) }
{
    let mut names = IndexMap::new(alloc);
    for i in 0..modules.len() {
        add_name(&mut names, &modules[i].name)?;
    }
    Ok(names)
}

/// Adds a name.
fn add_name(names: &mut IndexMap<Name, ()>, name: &Name) -> Result<(), AllocError>
    ensures { (before : List Text) → Lists before names.old → OnOk result (Lists (before ++ string_bytes name.now ∷ []) names.new) }
{
    names.insert(name.clone()?, ())?;
    Ok(())
}
