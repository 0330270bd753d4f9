// The consequent's term as a left side whose variables stand for any values of their sorts, each place for itself.
ghost use Rattle.std.specs.Prelude.{◌≡◌, IfOk, map};
ghost use Rattle.kp_kore.specs.View.{sort_view};
ghost use Rattle.kp_overlap.specs.Overlaps.{term_form};
ghost use Rattle.kp_rules.specs.Skeletons.{any_of, forms_of, skeleton_view};
ghost use Rattle.kp_signature.specs.View.{signature_view};
ghost use Rattle.kp_symbolic.specs.View.{term_view};
ghost use Rattle.kp_goals.specs.Loosened as model;

use kp_kore::Sort;
use kp_overlap::terms::term_skeleton;
use kp_rules::Skeleton;
use kp_signature::Signature;
use kp_symbolic::Term;
use std::alloc::{AllocError, Global};

/// Any value of the sort.
fn any_value(sort: Sort) -> Skeleton
    ensures { skeleton_view result ≡ any_of (sort_view sort) }
{
    Skeleton::Any { sort }
}

/// The left side with any value of its sort in the place of each variable.
#[cycle(loosen)]
fn loosened(skeleton: &Skeleton, alloc: Global) -> Result<Skeleton, AllocError>
    ensures { IfOk result (λ k. skeleton_view k ≡ model.loosened (skeleton_view skeleton.now)) }
{
    match skeleton {
        Skeleton::Variable { sort, .. } => Ok(any_value(sort.copy(alloc)?)),
        Skeleton::Built {
            constructor,
            arguments,
        } => {
            let arguments = all_loosened(arguments, alloc)?;
            Ok(Skeleton::Built {
                constructor: constructor.clone()?,
                arguments,
            })
        }
        Skeleton::Any { sort } => Ok(any_value(sort.copy(alloc)?)),
        Skeleton::Fixed { value } => Ok(Skeleton::Fixed {
            value: value.share(alloc)?,
        }),
        Skeleton::Anything => Ok(Skeleton::Anything),
        Skeleton::Nothing => Ok(Skeleton::Nothing),
    }
}

/// The same of each of these.
#[cycle(loosen)]
fn all_loosened(skeletons: &[Skeleton], alloc: Global) -> Result<Vec<Skeleton>, AllocError>
    ensures { IfOk result (λ ks. forms_of (map skeleton_view ks.items) ≡ model.all_loosened (forms_of (map skeleton_view skeletons.now))) }
{
    let mut made = Vec::new(alloc);
    for skeleton in skeletons {
        made.push(loosened(skeleton, alloc)?)?;
    }
    Ok(made)
}

/// What the consequent's term may stand for, each place for itself.
pub fn left_of(alloc: Global, signature: &Signature, term: &Term) -> Result<Skeleton, AllocError>
    ensures { IfOk result (λ k. skeleton_view k ≡ model.loosened (term_form (signature_view signature.now) (term_view term.now))) }
{
    let form = term_skeleton(alloc, signature, term)?;
    loosened(&form, alloc)
}
