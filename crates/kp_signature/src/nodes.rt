// The rules of one node together, in their order.
ghost use Rattle.std.specs.Prelude.{◌≡◌, ◌++◌, ◌∷◌, [], IfErr, IfOk, OnOk, List, Some, None, string_bytes};
ghost use Rattle.std.specs.Option.{option_map};
ghost use Rattle.kp_kore.specs.Parts.{SortedName};
ghost use Rattle.kp_kore.specs.View.{sort_view, sorts_view};
ghost use Rattle.kp_signature.specs.Faults.{fault_view, IfTold};
ghost use Rattle.kp_signature.specs.Nodes.{sorts_fault, one_sort, two_sorts, own_fault, form_fault, variable_node_fault};
ghost use Rattle.kp_signature.specs.Scopes.{Knows, wanted_sort};
ghost use Rattle.kp_signature.specs.Places.{text_sort};
ghost use Rattle.kp_signature.specs.Verify.{VerifyFault};
ghost use Rattle.kp_signature.specs.View.{signature_view};

use crate::error::VerifyError;
use crate::rules::{check_depth, check_sort};
use crate::scope::{Scope, meet_variable};
use crate::signature::Signature;
use kp_kore::{Name, Sort};
use std::alloc::{AllocError, Global};

/// V1 of these sorts.
pub fn check_all_known(
    alloc: Global,
    signature: &Signature,
    sorts: &[Sort],
) -> Result<(), VerifyError>
    ensures ok { OnOk result (sorts_fault (signature_view signature.now) (sorts_view sorts.now) ≡ None) }
    ensures err { IfErr result (λ e. (f : VerifyFault) → fault_view e ≡ Some f → sorts_fault (signature_view signature.now) (sorts_view sorts.now) ≡ Some f) }
{
    match signature.unknown_sort_among(sorts) {
        Some(sort) => Err(VerifyError::UnknownSort {
            sort: sort.copy(alloc)?,
        }),
        None => Ok(()),
    }
}

/// V1 of one sort.
pub fn check_known(alloc: Global, signature: &Signature, sort: &Sort) -> Result<(), VerifyError>
    ensures ok { OnOk result (sorts_fault (signature_view signature.now) (one_sort (sort_view sort.now)) ≡ None) }
    ensures err { let g = signature_view signature.now in IfErr result (λ e. (f : VerifyFault) → fault_view e ≡ Some f → sorts_fault g (one_sort (sort_view sort.now)) ≡ Some f) }
{
    match signature.unknown_sort(sort) {
        Some(unknown) => Err(VerifyError::UnknownSort {
            sort: unknown.copy(alloc)?,
        }),
        None => Ok(()),
    }
}

/// V1 of two sorts.
pub fn check_two_known(
    alloc: Global,
    signature: &Signature,
    first: &Sort,
    second: &Sort,
) -> Result<(), VerifyError>
    ensures ok { OnOk result (sorts_fault (signature_view signature.now) (two_sorts (sort_view first.now) (sort_view second.now)) ≡ None) }
    ensures err { let g = signature_view signature.now in let first' = sort_view first.now in IfErr result (λ e. (f : VerifyFault) → fault_view e ≡ Some f → sorts_fault g (two_sorts first' (sort_view second.now)) ≡ Some f) }
{
    check_known(alloc, signature, first)?;
    Ok(check_known(alloc, signature, second)?)
}

/// V4 and V6: a node's own sort and depth.
pub fn check_own(
    alloc: Global,
    wanted: Option<&Sort>,
    depth: usize,
    own: &Sort,
) -> Result<(), VerifyError>
    ensures ok { OnOk result (own_fault (option_map (λ s. sort_view s.now) wanted.entry) depth (sort_view own.now) ≡ None) }
    ensures err { let own' = sort_view own.now in IfErr result (λ e. (f : VerifyFault) → fault_view e ≡ Some f → own_fault (option_map (λ s. sort_view s.now) wanted.entry) depth own' ≡ Some f) }
{
    check_sort(alloc, wanted, own)?;
    Ok(check_depth(depth)?)
}

/// V1, V4 and V6 of a node of one sort.
pub fn check_form(
    alloc: Global,
    signature: &Signature,
    wanted: Option<&Sort>,
    depth: usize,
    sort: &Sort,
) -> Result<(), VerifyError>
    ensures ok { let g = signature_view signature.now in let sort' = sort_view sort.now in OnOk result (form_fault g (option_map (λ s. sort_view s.now) wanted.entry) depth (one_sort sort') sort' ≡ None) }
    ensures err { let g = signature_view signature.now in let sort' = sort_view sort.now in IfErr result (λ e. (f : VerifyFault) → fault_view e ≡ Some f → form_fault g (option_map (λ s. sort_view s.now) wanted.entry) depth (one_sort sort') sort' ≡ Some f) }
{
    check_known(alloc, signature, sort)?;
    Ok(check_own(alloc, wanted, depth, sort)?)
}

/// V1, V4 and V6 of a node of two sorts: first the sort of its part, then its own.
pub fn check_form_of_part(
    alloc: Global,
    signature: &Signature,
    wanted: Option<&Sort>,
    depth: usize,
    part: &Sort,
    sort: &Sort,
) -> Result<(), VerifyError>
    ensures ok { let g = signature_view signature.now in let part' = sort_view part.now in let sort' = sort_view sort.now in OnOk result (form_fault g (option_map (λ s. sort_view s.now) wanted.entry) depth (two_sorts part' sort') sort' ≡ None) }
    ensures err { let g = signature_view signature.now in let part' = sort_view part.now in let sort' = sort_view sort.now in let wanted' = wanted_sort wanted.entry in IfErr result (λ e. (f : VerifyFault) → IfTold e f (form_fault g wanted' depth (two_sorts part' sort') sort')) }
{
    check_two_known(alloc, signature, part, sort)?;
    Ok(check_own(alloc, wanted, depth, sort)?)
}

/// V1, V4 and V6 of a binder: its own sort, then its variable's.
pub fn check_binder(
    alloc: Global,
    signature: &Signature,
    wanted: Option<&Sort>,
    depth: usize,
    sort: &Sort,
    variable: &Sort,
) -> Result<(), VerifyError>
    ensures ok { let g = signature_view signature.now in let sort' = sort_view sort.now in OnOk result (form_fault g (option_map (λ s. sort_view s.now) wanted.entry) depth (two_sorts sort' (sort_view variable.now)) sort' ≡ None) }
    ensures err { let g = signature_view signature.now in let sort' = sort_view sort.now in let wanted' = wanted_sort wanted.entry in IfErr result (λ e. (f : VerifyFault) → IfTold e f (form_fault g wanted' depth (two_sorts sort' (sort_view variable.now)) sort')) }
{
    check_two_known(alloc, signature, sort, variable)?;
    Ok(check_own(alloc, wanted, depth, sort)?)
}

/// V1, V4 and V6 of a text that stands as a pattern.
pub fn check_text(
    alloc: Global,
    signature: &Signature,
    wanted: Option<&Sort>,
    depth: usize,
) -> Result<(), VerifyError>
    ensures ok { let g = signature_view signature.now in OnOk result (form_fault g (option_map (λ s. sort_view s.now) wanted.entry) depth (one_sort text_sort) text_sort ≡ None) }
    ensures err { let g = signature_view signature.now in IfErr result (λ e. (f : VerifyFault) → fault_view e ≡ Some f → form_fault g (option_map (λ s. sort_view s.now) wanted.entry) depth (one_sort text_sort) text_sort ≡ Some f) }
{
    let sort = sort_of_texts(alloc)?;
    Ok(check_form(alloc, signature, wanted, depth, &sort)?)
}

/// The sort of a text that stands as a pattern.
pub fn sort_of_texts(alloc: Global) -> Result<Sort, AllocError>
    ensures { IfOk result (λ s. sort_view s ≡ text_sort) }
{
    Ok(Sort::App {
        name: String::from_str(alloc, "#String")?,
        arguments: Vec::new(alloc),
    })
}

/// The rules of a variable, in their order: V1, V4 of its place and of its scope, V6. A new name is in scope from here on.
pub fn check_variable(
    alloc: Global,
    signature: &Signature,
    wanted: Option<&Sort>,
    depth: usize,
    scope: &mut Scope,
    name: &Name,
    sort: &Sort,
) -> Result<(), VerifyError>
    ensures known { OnOk result ((s : List SortedName) → Knows s scope.old → Knows (s ++ record { name = string_bytes name.now; sort = sort_view sort.now } ∷ []) scope.new) }
    ensures ok { let g = signature_view signature.now in let sort' = sort_view sort.now in OnOk result ((s : List SortedName) → Knows s scope.old → variable_node_fault g (option_map (λ s. sort_view s.now) wanted.entry) depth s (string_bytes name.now) sort' ≡ None) }
    ensures err { let g = signature_view signature.now in let sort' = sort_view sort.now in IfErr result (λ e. (f : VerifyFault) → (s : List SortedName) → Knows s scope.old → IfTold e f (variable_node_fault g (wanted_sort wanted.entry) depth s (string_bytes name.now) sort')) }
{
    check_known(alloc, signature, sort)?;
    check_sort(alloc, wanted, sort)?;
    meet_variable(alloc, scope, name, sort)?;
    Ok(check_depth(depth)?)
}
