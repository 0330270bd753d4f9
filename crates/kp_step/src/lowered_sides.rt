// A left side with one name at several sorts, as one in which it stands at a sort below them all, of the values that all of them
// share.
ghost use Rattle.std.specs.Prelude.{◌≡◌, ◌∷◌, [], IfOk, MatchOption, ⊤, map, string_bytes};
ghost use Rattle.kp_kore.specs.View.{sort_view};
ghost use Rattle.kp_signature.specs.View.{signature_view};
ghost use Rattle.kp_rules.specs.Skeletons.{one_of, skeleton_view, forms_of};
ghost use Rattle.kp_case_laws.specs.Courses.{form_variables, all_form_variables};
ghost use Rattle.kp_step.specs.OneSort.{IsLowest, IsLowered, AreLowered};

use kp_compile::CompileError;
use kp_ground::names::{same_name, share_name};
use kp_kore::Sort;
use kp_rules::Skeleton;
use kp_signature::Signature;
use kp_unify::shared_sorts::meet_of;
use std::alloc::Global;
use std::sync::Arc;

/// A sort of the values that both sorts share, if there is one, where a variable of the name stands at the other; else the sort.
fn lower<'a>(
    signature: &'a Signature,
    own: &Arc<String>,
    of: &'a Sort,
    name: &Arc<String>,
    sort: &'a Sort,
) -> Option<&'a Sort>
    ensures { let g = signature_view signature.now in MatchOption result ⊤ (λ low. IsLowest g (string_bytes name.now.value) (sort_view sort.now) (record { name = string_bytes own.now.value; sort = sort_view of.now } ∷ []) (sort_view low.now)) }
{
    if same_name(own, name) {
        return meet_of(signature, sort, of);
    }
    Some(sort)
}

/// A sort of exactly the values that have this sort and each at which the name stands, if one is found.
#[cycle(lowest)]
fn lowest<'a>(
    signature: &'a Signature,
    skeleton: &'a Skeleton,
    name: &Arc<String>,
    sort: &'a Sort,
) -> Option<&'a Sort>
    ensures { let xs = form_variables (skeleton_view skeleton.now) in MatchOption result ⊤ (λ low. IsLowest (signature_view signature.now) (string_bytes name.now.value) (sort_view sort.now) xs (sort_view low.now)) }
{
    match skeleton {
        Skeleton::Variable {
            name: own,
            sort: of,
        } => lower(signature, own, of, name, sort),
        Skeleton::Built { arguments, .. } => lowest_among(signature, arguments, name, sort),
        Skeleton::Anything | Skeleton::Nothing => Some(sort),
        Skeleton::Any { .. } | Skeleton::Fixed { .. } => Some(sort),
    }
}

/// The same in all of these.
#[cycle(lowest)]
fn lowest_among<'a>(
    signature: &'a Signature,
    skeletons: &'a [Skeleton],
    name: &Arc<String>,
    sort: &'a Sort,
) -> Option<&'a Sort>
    ensures { let g = signature_view signature.now in MatchOption result ⊤ (λ low. IsLowest g (string_bytes name.now.value) (sort_view sort.now) (all_form_variables (forms_of (map skeleton_view skeletons.now))) (sort_view low.now)) }
{
    let mut low = sort;
    for skeleton in skeletons {
        match lowest(signature, skeleton, name, low) {
            Some(next) => low = next,
            None => return None,
        }
    }
    Some(low)
}

/// A variable at a sort.
fn variable_at(name: Arc<String>, sort: Sort) -> Skeleton
    ensures { skeleton_view result ≡ one_of (string_bytes name.value) (sort_view sort) }
{
    Skeleton::Variable { name, sort }
}

/// A variable of the left side, at a sort of the values of all sorts of its name. Refused where none is found.
fn variable(
    alloc: Global,
    signature: &Signature,
    name: &Arc<String>,
    sort: &Sort,
    whole: &Skeleton,
) -> Result<Skeleton, CompileError>
    ensures { let xs = form_variables (skeleton_view whole.now) in IfOk result (λ k. IsLowered (signature_view signature.now) xs (one_of (string_bytes name.now.value) (sort_view sort.now)) (skeleton_view k)) }
{
    match lowest(signature, whole, name, sort) {
        Some(low) => {
            let name = share_name(name)?;
            Ok(variable_at(name, low.copy(alloc)?))
        }
        None => Err(CompileError::Shape),
    }
}

/// A part of the left side in which each variable stands at a sort of the values of all sorts of its name. Refused where none is
/// found.
#[cycle(lowered)]
pub fn lowered(
    alloc: Global,
    signature: &Signature,
    skeleton: &Skeleton,
    whole: &Skeleton,
) -> Result<Skeleton, CompileError>
    ensures { IfOk result (λ k. IsLowered (signature_view signature.now) (form_variables (skeleton_view whole.now)) (skeleton_view skeleton.now) (skeleton_view k)) }
{
    match skeleton {
        Skeleton::Variable { name, sort } => Ok(variable(alloc, signature, name, sort, whole)?),
        Skeleton::Built {
            constructor,
            arguments,
        } => {
            let arguments = all_lowered(alloc, signature, arguments, whole)?;
            Ok(Skeleton::Built {
                constructor: share_name(constructor)?,
                arguments,
            })
        }
        Skeleton::Anything => Ok(Skeleton::Anything),
        Skeleton::Nothing => Ok(Skeleton::Nothing),
        Skeleton::Any { sort } => Ok(Skeleton::Any {
            sort: sort.copy(alloc)?,
        }),
        Skeleton::Fixed { value } => Ok(Skeleton::Fixed {
            value: value.share(alloc)?,
        }),
    }
}

/// The same of each of these.
#[cycle(lowered)]
fn all_lowered(
    alloc: Global,
    signature: &Signature,
    skeletons: &[Skeleton],
    whole: &Skeleton,
) -> Result<Vec<Skeleton>, CompileError>
    ensures { let xs = form_variables (skeleton_view whole.now) in IfOk result (λ ks. AreLowered (signature_view signature.now) xs (forms_of (map skeleton_view skeletons.now)) (forms_of (map skeleton_view ks.items))) }
{
    let mut made = Vec::new(alloc);
    for skeleton in skeletons {
        made.push(lowered(alloc, signature, skeleton, whole)?)?;
    }
    Ok(made)
}
