// What is printed can be read.
ghost use Rattle.std.specs.Prelude.{◌≡◌, ℕ, List};
ghost use Rattle.kp_kore.specs.Syntax.{KorePattern, KoreModule};
ghost use Rattle.kp_text.specs.Spelling.{SpellsPattern, SpellsModule, IsPatternText, IsModuleText, IsFaultOf};
ghost use Rattle.kp_text.specs.declared.fault.TextFault.{TextFault};
ghost use Rattle.kp_print.specs.Printed.{pattern_text, module_text};

/// Where a text spells a pattern, its printed text spells it.
pub fn a_printed_pattern_is_spelled()
    ensures { (bytes : List ℕ) → (p : KorePattern) → SpellsPattern bytes p → SpellsPattern (pattern_text p) p }
{}

/// Where a text spells a module, its printed text spells it.
pub fn a_printed_module_is_spelled()
    ensures { (bytes : List ℕ) → (m : KoreModule) → SpellsModule bytes m → SpellsModule (module_text m) m }
{}

/// What is read of a printed pattern is the pattern, and it has no fault.
pub fn a_printed_pattern_is_read_back()
    ensures value { (bytes : List ℕ) → (p q : KorePattern) → SpellsPattern bytes p → SpellsPattern (pattern_text p) q → q ≡ p }
    ensures no_fault { (bytes : List ℕ) → (p : KorePattern) → (f : TextFault) → SpellsPattern bytes p → IsFaultOf IsPatternText (pattern_text p) f → ⊥ }
{}

/// What is read of a printed module is the module, and it has no fault.
pub fn a_printed_module_is_read_back()
    ensures value { (bytes : List ℕ) → (m n : KoreModule) → SpellsModule bytes m → SpellsModule (module_text m) n → n ≡ m }
    ensures no_fault { (bytes : List ℕ) → (m : KoreModule) → (f : TextFault) → SpellsModule bytes m → IsFaultOf IsModuleText (module_text m) f → ⊥ }
{}
