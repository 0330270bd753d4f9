ghost use Rattle.std.specs.Prelude.{◌≡◌, ◌⊎◌, ℕ, List, codes, ◌∷◌};
ghost use Rattle.kp_text.specs.Spelling.{SpellsPattern, SpellsModule, SpellsModules, SpellsDefinition, IsPatternText, IsModuleText, IsModulesText, IsDefinitionText, IsFaultOf};
ghost use Rattle.kp_text.specs.declared.fault.TextFault.{TextFault};
ghost use Rattle.kp_kore.specs.Syntax.{KoreSort, KorePattern, KoreModule, KoreDefinition};
ghost use Rattle.kp_text.specs.Examples.{SpellsTop, SpellsVariable, SpellsApplication, BreaksInItsEscape, EndsInItsComment};

/// `\and{S{}}()` spells `\top{S{}}()`, and `\and{S{}}(X:S{})` spells `X:S{}`.
pub fn conjunctions_of_none_and_of_one()
    ensures none { SpellsTop (codes "\\and{S{}}()") }
    ensures one { SpellsVariable (codes "\\and{S{}}(X:S{})") }
{}

/// ` f{ S{} } ( X:S{} , "a\n" ) // end` spells an application.
pub fn an_application_is_spelled()
    ensures { SpellsApplication (codes " f{ S{} } ( X:S{} , \"a\\n\" ) // end") }
{}

/// `\dv{S{}}("a\q")` has a bad escape, which is answered at the quote that opens its string.
pub fn a_bad_escape_is_told_at_its_quote()
    ensures { BreaksInItsEscape (codes "\\dv{S{}}(\"a\\q\")") }
{}

/// `/* x` ends in its comment.
pub fn a_comment_may_not_end_the_text()
    ensures { EndsInItsComment (codes "/* x") }
{}

/// A text spells at most one pattern.
pub fn a_text_spells_at_most_one_pattern()
    ensures { (bytes : List ℕ) → (p q : KorePattern) → SpellsPattern bytes p → SpellsPattern bytes q → p ≡ q }
{}

/// A text spells at most one module.
pub fn a_text_spells_at_most_one_module()
    ensures { (bytes : List ℕ) → (m n : KoreModule) → SpellsModule bytes m → SpellsModule bytes n → m ≡ n }
{}

/// A text spells at most one list of modules.
pub fn a_text_spells_modules_in_one_way()
    ensures { (bytes : List ℕ) → (ms ns : List KoreModule) → SpellsModules bytes ms → SpellsModules bytes ns → ms ≡ ns }
{}

/// A text spells at most one definition.
pub fn a_text_spells_at_most_one_definition()
    ensures { (bytes : List ℕ) → (d e : KoreDefinition) → SpellsDefinition bytes d → SpellsDefinition bytes e → d ≡ e }
{}

/// A text spells a pattern, or has a first fault where a pattern should stand; never both, and never two faults.
pub fn a_text_spells_a_pattern_or_has_one_fault()
    ensures either { (bytes : List ℕ) → ((v : KorePattern) × SpellsPattern bytes v) ⊎ ((f : TextFault) × IsFaultOf IsPatternText bytes f) }
    ensures one_fault { (bytes : List ℕ) → (f g : TextFault) → IsFaultOf IsPatternText bytes f → IsFaultOf IsPatternText bytes g → f ≡ g }
    ensures not_both { (bytes : List ℕ) → (v : KorePattern) → (f : TextFault) → SpellsPattern bytes v → IsFaultOf IsPatternText bytes f → ⊥ }
{}

/// A text spells a module, or has a first fault where a module should stand; never both, and never two faults.
pub fn a_text_spells_a_module_or_has_one_fault()
    ensures either { (bytes : List ℕ) → ((v : KoreModule) × SpellsModule bytes v) ⊎ ((f : TextFault) × IsFaultOf IsModuleText bytes f) }
    ensures one_fault { (bytes : List ℕ) → (f g : TextFault) → IsFaultOf IsModuleText bytes f → IsFaultOf IsModuleText bytes g → f ≡ g }
    ensures not_both { (bytes : List ℕ) → (v : KoreModule) → (f : TextFault) → SpellsModule bytes v → IsFaultOf IsModuleText bytes f → ⊥ }
{}

/// A text spells modules, or has a first fault where modules should stand; never both, and never two faults.
pub fn a_text_spells_modules_or_has_one_fault()
    ensures either { (bytes : List ℕ) → ((v : List KoreModule) × SpellsModules bytes v) ⊎ ((f : TextFault) × IsFaultOf IsModulesText bytes f) }
    ensures one_fault { (bytes : List ℕ) → (f g : TextFault) → IsFaultOf IsModulesText bytes f → IsFaultOf IsModulesText bytes g → f ≡ g }
    ensures not_both { (bytes : List ℕ) → (v : List KoreModule) → (f : TextFault) → SpellsModules bytes v → IsFaultOf IsModulesText bytes f → ⊥ }
{}

/// A text spells a definition, or has a first fault where a definition should stand; never both, and never two faults.
pub fn a_text_spells_a_definition_or_has_one_fault()
    ensures either { (bytes : List ℕ) → ((v : KoreDefinition) × SpellsDefinition bytes v) ⊎ ((f : TextFault) × IsFaultOf IsDefinitionText bytes f) }
    ensures one_fault { (bytes : List ℕ) → (f g : TextFault) → IsFaultOf IsDefinitionText bytes f → IsFaultOf IsDefinitionText bytes g → f ≡ g }
    ensures not_both { (bytes : List ℕ) → (v : KoreDefinition) → (f : TextFault) → SpellsDefinition bytes v → IsFaultOf IsDefinitionText bytes f → ⊥ }
{}
