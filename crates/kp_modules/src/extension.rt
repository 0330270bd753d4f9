// A module that is added to a table's: its own rules behind those of its imports.
ghost use Rattle.std.specs.Prelude.{◌≡◌, IfOk, IfErr, OnOk, List, MatchOption, map, ℕ, Some, true, false};
ghost use Rattle.std.specs.List.{AllByRecursion, AllZip};
ghost use Rattle.kp_kore.specs.Syntax.{Text};
ghost use Rattle.kp_kore.specs.Signature.{KoreSignature};
ghost use Rattle.kp_kore.specs.View.{module_view, sentence_view, view};
ghost use Rattle.kp_signature.specs.Faults.{fault_view};
ghost use Rattle.kp_signature.specs.Verify.{VerifyFault, FailsWith};
ghost use Rattle.kp_signature.specs.View.{signature_view};
ghost use Rattle.kp_kore.specs.Rules.{is_rewriting};
ghost use Rattle.kp_kore.specs.Theory.{NumberedAxiom, rewrite_axioms_from};
ghost use Rattle.kp_rules.specs.Bodies.{IsReadAs};
ghost use Rattle.kp_rules.specs.Index.{IsIndexOf};
ghost use Rattle.kp_book.specs.Books.{extended};
ghost use Rattle.kp_modules.specs.Axioms.{axiom_view, axioms_view};
ghost use Rattle.kp_modules.specs.Extending.{AreAllSound, AreSetsOf, ExtendFault, IsAddable, IsFirstDeclaration, IsFirstUnsound, IsTakenFrom, IsUnsound, TellsExtendFault, TellsUnsoundAxiom, declaration, extend_fault, is_declaration, rule_fault};
ghost use Rattle.kp_modules.specs.Made.{AreRewriting, IsSetOf};
ghost use Rattle.kp_modules.specs.Tables.{rule_set_of};
ghost use Rattle.kp_modules.specs.declared.extend_error.ExtendError.TheVariants.{Memory, RuleFault};

use crate::ModuleTable;
use crate::axioms::{RewriteAxiom, axioms_in};
use crate::extend_error::ExtendError;
use crate::joined_rules::joined;
use crate::labels::source_of;
use kp_kore::{Module, Name, Pattern, Sentence};
use kp_rule_reading::{RuleError, read_rule};
use kp_rule_sets::RuleSet;
use kp_rules::{Rule, RuleBody, SortIndex};
use kp_signature::{Signature, VerifyError, verify};
use std::alloc::{AllocError, Global};
use std::sync::Arc;

/// The rule set of a module that is added with this id: the rules of its imports, in order and each once, and then its
/// own. M6 of the first of its axioms that has it, else M7.
pub fn extend(
    alloc: Global,
    table: &ModuleTable,
    imports: &[Arc<RuleSet>],
    id: &str,
    added: &Module,
) -> Result<RuleSet, ExtendError>
    ensures set { let g = signature_view (rule_set_of table.now).signature.value in (lists : List (List NumberedAxiom)) → AreSetsOf g lists imports.now →
        IfOk result (IsSetOf g (extended lists id.now (module_view added.now))) }
    ensures none { OnOk result (IsAddable (signature_view (rule_set_of table.now).signature.value) id.now (module_view added.now)) }
    ensures err { IfErr result (TellsExtendFault (signature_view (rule_set_of table.now).signature.value) id.now (module_view added.now)) }
{
    let rules = table.rule_set();
    let own = own_rules(alloc, &rules.signature, id, &added.sentences)?;
    check_sentences(&added.sentences)?;
    Ok(joined(alloc, &rules.signature, imports, &own)?)
}

/// The sentences declare nothing, and claim nothing.
fn check_sentences(sentences: &[Sentence]) -> Result<(), ExtendError>
    ensures ok { OnOk result (AllByRecursion (λ s. is_declaration s ≡ false) (map sentence_view sentences.now)) }
    ensures err { IfErr result (λ e. (f : ExtendFault) → extend_fault e ≡ Some f → (i : ℕ) × (f ≡ declaration i) × IsFirstDeclaration (map sentence_view sentences.now) i) }
{
    for i in 0..sentences.len() {
        if declares(&sentences[i]) {
            return Err(ExtendError::Declaration(i + 1));
        }
    }
    Ok(())
}

/// Whether it is a sort, a symbol, an alias or a claim.
fn declares(sentence: &Sentence) -> bool
    ensures { result ≡ is_declaration (sentence_view sentence.now) }
{
    match sentence {
        Sentence::Import { .. } | Sentence::Axiom(_) => false,
        Sentence::Sort(_) | Sentence::Symbol(_) | Sentence::Alias(_) | Sentence::Claim(_) => true,
    }
}

/// The rules of these sentences' rewrite axioms, each called by its number.
fn own_rules(
    alloc: Global,
    signature: &Signature,
    id: &str,
    sentences: &[Sentence],
) -> Result<Vec<Rule>, ExtendError>
    ensures err { let g = signature_view signature.now in let rewrite_axioms = rewrite_axioms_from id.now 1 (map sentence_view sentences.now) in IfErr result (λ e. (f : ExtendFault) → extend_fault e ≡ Some f → (i : ℕ) × (f ≡ rule_fault i) × IsFirstUnsound g rewrite_axioms i) }
    ensures sound { OnOk result (AreAllSound (signature_view signature.now) (rewrite_axioms_from id.now 1 (map sentence_view sentences.now))) }
    ensures ok { let g = signature_view signature.now in IfOk result (λ rules. AllZip (IsTakenFrom g) (rewrite_axioms_from id.now 1 (map sentence_view sentences.now)) rules.items) }
{
    let key = String::from_str(alloc, id)?;
    let axioms = axioms_in(alloc, &key, sentences)?;
    let index = SortIndex::new(alloc, signature)?;
    rules_read(alloc, signature, &index, &axioms)
}

/// The rules of these axioms.
fn rules_read(
    alloc: Global,
    signature: &Signature,
    index: &SortIndex,
    axioms: &[RewriteAxiom<'_>],
) -> Result<Vec<Rule>, ExtendError>
    requires index { IsIndexOf (signature_view signature.now) index.now }
    ensures err { let axioms' = axioms_view axioms.now in let g = signature_view signature.now in AreRewriting axioms' → IfErr result (λ e. (f : ExtendFault) → extend_fault e ≡ Some f → (i : ℕ) × (f ≡ rule_fault i) × IsFirstUnsound g axioms' i) }
    ensures sound { AreRewriting (axioms_view axioms.now) → OnOk result (AreAllSound (signature_view signature.now) (axioms_view axioms.now)) }
    ensures ok { let axioms' = axioms_view axioms.now in AreRewriting axioms' → IfOk result (λ rules. AllZip (IsTakenFrom (signature_view signature.now)) axioms' rules.items) }
{
    let mut rules = Vec::new(alloc);
    for i in 0..axioms.len() {
        rules.push(rule_read(alloc, signature, index, &axioms[i])?)?;
    }
    Ok(rules)
}

/// The rule of an axiom.
fn rule_read(
    alloc: Global,
    signature: &Signature,
    index: &SortIndex,
    rewriting: &RewriteAxiom<'_>,
) -> Result<Rule, ExtendError>
    requires index { IsIndexOf (signature_view signature.now) index.now }
    ensures err { let rewriting' = axiom_view rewriting.now in let g = signature_view signature.now in is_rewriting rewriting'.axiom_of.pattern ≡ true → IfErr result (TellsUnsoundAxiom g rewriting') }
    ensures sound { let rewriting' = axiom_view rewriting.now in is_rewriting rewriting'.axiom_of.pattern ≡ true → OnOk result (¬ IsUnsound (signature_view signature.now) rewriting'.axiom_of) }
    ensures ok { let rewriting' = axiom_view rewriting.now in is_rewriting rewriting'.axiom_of.pattern ≡ true → IfOk result (IsTakenFrom (signature_view signature.now) rewriting') }
{
    check_axiom(alloc, signature, &rewriting.axiom.pattern, rewriting.number)?;
    match read_rule(alloc, signature, index, rewriting.axiom) {
        Ok((priority, body)) => Ok(rule_from(alloc, rewriting, priority, body)?),
        Err(RuleError::Memory) => Err(ExtendError::Memory),
        Err(RuleError::Fault) => Err(ExtendError::RuleFault(rewriting.number)),
    }
}

/// The pattern of the axiom of this number has no verify fault.
fn check_axiom(
    alloc: Global,
    signature: &Signature,
    pattern: &Pattern,
    number: usize,
) -> Result<(), ExtendError>
    ensures ok { OnOk result ((f : VerifyFault) → ¬ FailsWith (signature_view signature.now) (view pattern.now) f) }
    ensures err { let g = signature_view signature.now in let pattern' = view pattern.now in IfErr result (λ e. (f : ExtendFault) → extend_fault e ≡ Some f → (f ≡ rule_fault number) × ((v : VerifyFault) × FailsWith g pattern' v)) }
{
    match verify(alloc, signature, pattern) {
        Ok(_sort) => Ok(()),
        Err(error) => Err(fault_of(&error, number)),
    }
}

/// What the error of a verification says of the axiom of this number.
fn fault_of(error: &VerifyError, number: usize) -> ExtendError
    ensures { MatchOption (fault_view error.now) (result ≡ Memory) (λ f. result ≡ RuleFault number) }
{
    match error {
        VerifyError::Memory => ExtendError::Memory,
        VerifyError::UnknownSort { .. }
        | VerifyError::UnknownSymbol { .. }
        | VerifyError::WrongNumber { .. }
        | VerifyError::SortDiffers { .. }
        | VerifyError::NumberTooWide { .. }
        | VerifyError::TermTooDeep
        | VerifyError::NoLiteral { .. } => ExtendError::RuleFault(number),
    }
}

/// The rule of an axiom that is read as this body, called by its number.
fn rule_from(
    alloc: Global,
    rewriting: &RewriteAxiom<'_>,
    priority: u32,
    body: RuleBody,
) -> Result<Rule, AllocError>
    ensures { (g : KoreSignature) → IsReadAs g (axiom_view rewriting.now).axiom_of priority body → IfOk result (IsTakenFrom g (axiom_view rewriting.now)) }
{
    let source = source_of(alloc, rewriting)?;
    Ok(Rule {
        id: source.numbered.clone()?,
        priority,
        body: Arc::new(alloc, body)?,
        source: Arc::new(alloc, source)?,
    })
}
