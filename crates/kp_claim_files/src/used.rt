// Claims that are used as rules, and what they depend on.
ghost use Rattle.std.specs.Prelude.{◌≡◌, ◌⊎◌, ◌||◌, List, not, true, Some, None, IfOk, IfErr, OnOk, MatchBool, string_bytes};
ghost use Rattle.std.specs.List.{find, list_any};
ghost use Rattle.std.specs.Option.{option_map};
ghost use Rattle.std.specs.Str.{bytes_eq};
ghost use Rattle.kp_kore.specs.Syntax.{Text, Statement};
ghost use Rattle.kp_kore.specs.View.{names_view};
ghost use Rattle.kp_kore.specs.ClaimModules.{CanBeRule};
ghost use Rattle.kp_signature.specs.Names.{Indexes};
ghost use Rattle.kp_signature.specs.Places.{the_top};
ghost use Rattle.kp_signature.specs.Verify.{first_fault};
ghost use Rattle.kp_signature.specs.View.{signature_view};
ghost use Rattle.kp_rules.specs.Index.{IsIndexOf};
ghost use Rattle.kp_claims.specs.Faults.{bare_claim, no_rule, unknown_label, TellsOf};
ghost use Rattle.kp_names.specs.Met.{Lists};
ghost use Rattle.kp_claim_sentences.specs.Faults.{FileLabels as Stated, IsRuleFault, IsUsable, unknown_fault};
ghost use Rattle.kp_claim_sentences.specs.Items.{sorted_view};
ghost use Rattle.kp_claim_sentences.specs.Noted.{has_name};
ghost use Rattle.kp_claim_files.specs.Read.{Notes, IsClear, reads_rule, sides_at};

use crate::labels::{FileLabels, LabelPlaces};
use crate::module::claim_axiom;
use kp_claim_sentences::FiledClaim;
use kp_claims::{ClaimError, ClaimFault};
use kp_kore::Name;
use kp_names::names::is_noted;
use kp_rule_reading::{RuleError, read_rule};
use kp_rules::{RuleBody, SortIndex};
use kp_signature::Signature;
use std::alloc::{AllocError, Global};

/// C8 where a claim is its own circularity or some claim depends on it, and it can't be a rule; then C4 of the first label
/// that it depends on and that no claim of the file has.
pub fn check_use(
    alloc: Global,
    signature: &Signature,
    index: &SortIndex,
    file: &FileLabels,
    item: &FiledClaim,
) -> Result<(), ClaimError>
    requires index { IsIndexOf (signature_view signature.now) index.now }
    ensures ok { (f : Stated) (s : Statement) → let g = signature_view signature.now in Notes f file.now → IsClear g s item.now → OnOk result (IsUsable g f s × (unknown_fault f s ≡ None)) }
    ensures err { (f : Stated) (s : Statement) → let g = signature_view signature.now in Notes f file.now → IsClear g s item.now → IfErr result (TellsOf (λ e. IsRuleFault g f s e ⊎ (IsUsable g f s × (unknown_fault f s ≡ Some e)))) }
{
    check_rule(alloc, signature, index, file, item)?;
    check_known(&file.places, &item.depends)
}

/// C8.
fn check_rule(
    alloc: Global,
    signature: &Signature,
    index: &SortIndex,
    file: &FileLabels,
    item: &FiledClaim,
) -> Result<(), ClaimError>
    requires index { IsIndexOf (signature_view signature.now) index.now }
    ensures ok { (f : Stated) (s : Statement) → Notes f file.now → IsClear (signature_view signature.now) s item.now → OnOk result (IsUsable (signature_view signature.now) f s) }
    ensures err { (f : Stated) (s : Statement) → let g = signature_view signature.now in Notes f file.now → IsClear g s item.now → IfErr result (TellsOf (IsRuleFault g f s)) }
{
    if !is_used(file, item) {
        return Ok(());
    }
    if can_be_rule(alloc, signature, index, item)? {
        Ok(())
    } else {
        Err(ClaimError::Fault(ClaimFault::NoRule))
    }
}

/// Whether the claim is its own circularity, or some claim depends on its label.
fn is_used(file: &FileLabels, item: &FiledClaim) -> bool
    ensures { (used : List Text) → Lists used file.now.used → result ≡ (item.now.circular || list_any (bytes_eq (string_bytes item.now.label)) used) }
{
    item.circular || is_noted(&file.used, &item.label)
}

/// Whether its axiom is read as a rule.
fn can_be_rule(
    alloc: Global,
    signature: &Signature,
    index: &SortIndex,
    item: &FiledClaim,
) -> Result<bool, AllocError>
    requires index { IsIndexOf (signature_view signature.now) index.now }
    ensures { let g = signature_view signature.now in let item' = sorted_view item.now in first_fault g the_top (bare_claim (sides_at item.now)) ≡ None → IfOk result (λ b. MatchBool b (CanBeRule g item') (¬ CanBeRule g item')) }
{
    let axiom = claim_axiom(alloc, item)?;
    match read_rule(alloc, signature, index, &axiom) {
        Ok((_, body)) => Ok(is_read(&body)),
        Err(RuleError::Memory) => Err(AllocError),
        Err(RuleError::Fault) => Ok(true),
    }
}

/// Whether it is no foreign rule's.
fn is_read(body: &RuleBody) -> bool
    ensures { result ≡ reads_rule body.now }
{
    match body {
        RuleBody::Rewrite(_) => true,
        RuleBody::Foreign(_) => false,
    }
}

/// C4 of the first of these labels that has no place.
fn check_known(places: &LabelPlaces, labels: &[Name]) -> Result<(), ClaimError>
    ensures ok { OnOk result (find (λ l. not (has_name places.now l)) (names_view labels.now) ≡ None) }
    ensures err { IfErr result (TellsOf (λ e. option_map unknown_label (find (λ l. not (has_name places.now l)) (names_view labels.now)) ≡ Some e)) }
{
    match first_unknown(places, labels) {
        Some(label) => Err(ClaimError::Fault(ClaimFault::UnknownLabel(label.clone()?))),
        None => Ok(()),
    }
}

/// The first of these labels that has no place.
fn first_unknown<'a>(places: &LabelPlaces, labels: &'a [Name]) -> Option<&'a Name>
    ensures { option_map (λ n. string_bytes n.now) result ≡ find (λ l. not (has_name places.now l)) (names_view labels.now) }
{
    for i in 0..labels.len() {
        if !places.contains_key(labels[i].as_str()) {
            return Some(&labels[i]);
        }
    }
    None
}
