// What is written of claims can be read; the claims of a file without a fault are sound.
ghost use Rattle.std.specs.List.{AllByRecursion, AllZip};
ghost use Rattle.std.specs.Prelude.{List};
ghost use Rattle.kp_kore.specs.Signature.{KoreSignature};
ghost use Rattle.kp_kore.specs.Syntax.{KoreModule, KoreSentence};
ghost use Rattle.kp_text.specs.Spelling.{SpellsModule};
ghost use Rattle.kp_print.specs.Printed.{module_text};
ghost use Rattle.kp_kore.specs.ClaimModules.{SortedClaim, claims_module};
ghost use Rattle.kp_claim_sentences.specs.Claims.{StatedClaim, IsStatedBy};
ghost use Rattle.kp_claim_sentences.specs.Faults.{IsFaultlessFile, needs_of};
ghost use Rattle.kp_claim_sentences.specs.Sound.{AreSoundClaims};
ghost use Rattle.kp_claim_files.specs.Modules.{IsSpelled, IsSpelledClaim};

/// The text of a module of claims that were read spells it, where main is the name of a module that was read.
pub fn a_module_of_claims_is_spelled()
    ensures { (main : KoreModule) (cs : List SortedClaim) → IsSpelled main → AllByRecursion IsSpelledClaim cs →
        SpellsModule (module_text (claims_module main.name cs)) (claims_module main.name cs) }
{}

/// Each claim of a file without a fault is sound, and those that are used as rules can be: the claims that are their own
/// circularities, and those that some claim depends on.
pub fn the_claims_of_a_file_are_sound()
    ensures { (g : KoreSignature) (ss : List KoreSentence) (cs : List StatedClaim) → IsFaultlessFile g ss → AllZip IsStatedBy ss cs →
        AreSoundClaims g cs (needs_of ss) }
{}
