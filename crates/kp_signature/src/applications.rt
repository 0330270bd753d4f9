// The rules of an application.
ghost use Rattle.std.specs.Prelude.{◌≡◌, ◌≤◌, IfErr, IfOk, OnOk, Some, None, length, string_bytes};
ghost use Rattle.std.specs.Option.{option_map};
ghost use Rattle.kp_kore.specs.Parts.{pattern_list, sort_list};
ghost use Rattle.kp_kore.specs.Signature.{symbol_declared};
ghost use Rattle.kp_kore.specs.Sorting.{at_arguments, result_sort};
ghost use Rattle.kp_kore.specs.Syntax.{KoreSorts, KorePatterns, application};
ghost use Rattle.kp_kore.specs.View.{sort_view, sorts_view, names_view};
ghost use Rattle.kp_signature.specs.Faults.{fault_view, IfTold};
ghost use Rattle.kp_signature.specs.Nodes.{application_fault, two_sorts, injects};
ghost use Rattle.kp_signature.specs.Places.{argument_sorts, profile_of};
ghost use Rattle.kp_signature.specs.Scopes.{wanted_sort};
ghost use Rattle.kp_signature.specs.Verify.{VerifyFault, symbol_fault, injection_fault};
ghost use Rattle.kp_signature.specs.View.{signature_view};

use crate::error::VerifyError;
use crate::instance::{sort_at, sorts_at};
use crate::nodes::check_all_known;
use crate::rules::{check_depth, check_sort};
use crate::signature::Signature;
use kp_kore::{Name, Sort};
use std::alloc::Global;

/// What a symbol, or else an alias, takes and gives.
#[derive(Drop)]
pub struct Profile<'a> {
    pub parameters: &'a [Name],
    pub arguments: &'a [Sort],
    pub result_sort: &'a Sort,
}

/// The rules of an application, in their order: V1, V2 and V3, V4, V4 of `inj`, V6. Gives the sorts of the places of its
/// arguments.
pub fn check_application(
    alloc: Global,
    signature: &Signature,
    symbol: &Name,
    sorts: &[Sort],
    count: usize,
    wanted: Option<&Sort>,
    depth: usize,
) -> Result<Vec<Sort>, VerifyError>
    ensures places { IfOk result (λ ss. sorts_view ss.items ≡ argument_sorts (signature_view signature.now) (string_bytes symbol.now) (sorts_view sorts.now)) }
    ensures number { IfOk result (λ ss. length ss.items ≡ count) }
    ensures shallow { OnOk result (depth ≤ 48) }
    ensures ok { let g = signature_view signature.now in let sorts' = sorts_view sorts.now in OnOk result ((ps : KorePatterns) → length (pattern_list ps) ≡ count → application_fault g (wanted_sort wanted.entry) depth (string_bytes symbol.now) sorts' ps ≡ None) }
    ensures err { let g = signature_view signature.now in IfErr result (λ e. (f : VerifyFault) → (ps : KorePatterns) → length (pattern_list ps) ≡ count → IfTold e f (application_fault g (wanted_sort wanted.entry) depth (string_bytes symbol.now) (sorts_view sorts.now) ps)) }
{
    check_all_known(alloc, signature, sorts)?;
    let profile = check_symbol(signature, symbol, sorts.len(), count)?;
    let own = sort_at(profile.result_sort, alloc, profile.parameters, sorts)?;
    check_sort(alloc, wanted, &own)?;
    check_injection(alloc, signature, symbol, sorts)?;
    check_depth(depth)?;
    Ok(sorts_at(profile.arguments, alloc, profile.parameters, sorts)?)
}

/// What a declared symbol takes and gives, where it has so many sorts and arguments.
fn check_symbol<'a>(
    signature: &'a Signature,
    symbol: &Name,
    sorts: usize,
    count: usize,
) -> Result<Profile<'a>, VerifyError>
    ensures takes { let g = signature_view signature.now in IfOk result (λ p. profile_of g (string_bytes symbol.now) ≡ Some (record { parameters = names_view p.parameters.now; arguments = sorts_view p.arguments.now })) }
    ensures gives { let g = signature_view signature.now in IfOk result (λ p. (ss : KoreSorts) → result_sort g (string_bytes symbol.now) ss ≡ Some (at_arguments (names_view p.parameters.now) ss (sort_view p.result_sort.now))) }
    ensures number { IfOk result (λ p. length p.arguments.now ≡ count) }
    ensures ok { let g = signature_view signature.now in OnOk result ((ss : KoreSorts) (ps : KorePatterns) → length (sort_list ss) ≡ sorts → length (pattern_list ps) ≡ count → symbol_fault g (application (string_bytes symbol.now) ss ps) ≡ None) }
    ensures err { let g = signature_view signature.now in IfErr result (λ e. (f : VerifyFault) → (ss : KoreSorts) (ps : KorePatterns) → length (sort_list ss) ≡ sorts → length (pattern_list ps) ≡ count → IfTold e f (symbol_fault g (application (string_bytes symbol.now) ss ps))) }
{
    match signature.profile(symbol) {
        Some(profile) => {
            if profile.parameters.len() != sorts {
                return Err(VerifyError::WrongNumber {
                    name: symbol.clone()?,
                });
            }
            if profile.arguments.len() != count {
                return Err(VerifyError::WrongNumber {
                    name: symbol.clone()?,
                });
            }
            Ok(profile)
        }
        None => Err(VerifyError::UnknownSymbol {
            name: symbol.clone()?,
        }),
    }
}

impl Signature {
    /// What a symbol of this name, or else an alias, takes and gives.
    pub(crate) fn profile(&self, symbol: &str) -> Option<Profile<'_>>
        ensures takes { let g = signature_view self.now in option_map (λ p. record { parameters = names_view p.parameters.now; arguments = sorts_view p.arguments.now }) result ≡ profile_of g symbol.now }
        ensures gives { (ss : KoreSorts) → let g = signature_view self.now in option_map (λ p. at_arguments (names_view p.parameters.now) ss (sort_view p.result_sort.now)) result ≡ result_sort g symbol.now ss }
    {
        match self.symbol(symbol) {
            Some(declaration) => Some(Profile {
                parameters: &declaration.parameters,
                arguments: &declaration.arguments,
                result_sort: &declaration.result_sort,
            }),
            None => self.alias_profile(symbol),
        }
    }

    /// What an alias takes and gives.
    fn alias_profile(&self, symbol: &str) -> Option<Profile<'_>>
        ensures takes { let g = signature_view self.now in symbol_declared g symbol.now ≡ None → option_map (λ p. record { parameters = names_view p.parameters.now; arguments = sorts_view p.arguments.now }) result ≡ profile_of g symbol.now }
        ensures gives { (ss : KoreSorts) → let g = signature_view self.now in symbol_declared g symbol.now ≡ None → option_map (λ p. at_arguments (names_view p.parameters.now) ss (sort_view p.result_sort.now)) result ≡ result_sort g symbol.now ss }
    {
        match self.alias(symbol) {
            Some(declaration) => Some(Profile {
                parameters: &declaration.parameters,
                arguments: &declaration.arguments,
                result_sort: &declaration.result_sort,
            }),
            None => None,
        }
    }
}

/// Whether `inj` goes from a sort to one above it.
fn check_injection(
    alloc: Global,
    signature: &Signature,
    symbol: &Name,
    sorts: &[Sort],
) -> Result<(), VerifyError>
    ensures ok { let g = signature_view signature.now in OnOk result ((ps : KorePatterns) → injection_fault g (application (string_bytes symbol.now) (sorts_view sorts.now) ps) ≡ None) }
    ensures err { let g = signature_view signature.now in let sorts' = sorts_view sorts.now in IfErr result (λ e. (f : VerifyFault) → (ps : KorePatterns) → fault_view e ≡ Some f → injection_fault g (application (string_bytes symbol.now) sorts' ps) ≡ Some f) }
{
    if sorts.len() != 2 {
        return Ok(());
    }
    Ok(check_upwards(alloc, signature, symbol, &sorts[0], &sorts[1])?)
}

/// Whether `inj` between these sorts goes upwards.
fn check_upwards(
    alloc: Global,
    signature: &Signature,
    symbol: &Name,
    lower: &Sort,
    upper: &Sort,
) -> Result<(), VerifyError>
    ensures ok { let g = signature_view signature.now in let lower' = sort_view lower.now in let upper' = sort_view upper.now in OnOk result ((ps : KorePatterns) → injection_fault g (application (string_bytes symbol.now) (two_sorts lower' upper') ps) ≡ None) }
    ensures err { let g = signature_view signature.now in let sorts' = two_sorts (sort_view lower.now) (sort_view upper.now) in IfErr result (λ e. (f : VerifyFault) → (ps : KorePatterns) → IfTold e f (injection_fault g (application (string_bytes symbol.now) sorts' ps))) }
{
    if !signature.injects(symbol) {
        return Ok(());
    }
    if signature.subsort(lower, upper) {
        return Ok(());
    }
    Err(VerifyError::SortDiffers {
        expected: upper.copy(alloc)?,
        found: lower.copy(alloc)?,
    })
}

impl Signature {
    /// Whether the symbol is `inj`.
    fn injects(&self, symbol: &str) -> bool
        ensures { result ≡ injects (signature_view self.now) symbol.now }
    {
        match self.symbol(symbol) {
            Some(declaration) => {
                declaration.name.as_str() == "inj" && declaration.parameters.len() == 2
            }
            None => false,
        }
    }
}
