// Whether a left side's variables stand for terms of their sorts by their form.
ghost use Rattle.std.specs.Prelude.{map};
ghost use Rattle.kp_kore.specs.View.{sort_view};
ghost use Rattle.kp_signature.specs.View.{signature_view};
ghost use Rattle.kp_symbolic.specs.View.{replaced_view};
ghost use Rattle.kp_rules.specs.Skeletons.{skeleton_view, forms_of};
ghost use Rattle.kp_case_laws.specs.Courses.{form_variables, all_form_variables};
ghost use Rattle.kp_step.specs.FiringPromises.{IsPlacedIf, ArePlacedIf};

use kp_kore::Sort;
use kp_rules::skeleton::Skeleton;
use kp_signature::Signature;
use kp_symbolic::Replaced;
use kp_symbolic::replaced::replacement_of;
use kp_unify::head_sorts::has_sort;

/// Whether the variable of this name stands for a term that has the sort by its form.
fn is_placed(signature: &Signature, bindings: &[Replaced], name: &str, sort: &Sort) -> bool
    ensures { IsPlacedIf result (signature_view signature.now) (map replaced_view bindings.now) (record { name = name.now; sort = sort_view sort.now }) }
{
    match replacement_of(bindings, name) {
        Some(term) => has_sort(signature, term, sort),
        None => false,
    }
}

/// Whether each variable of the left side does.
#[cycle(placing)]
pub fn are_placed(left: &Skeleton, signature: &Signature, bindings: &[Replaced]) -> bool
    ensures { ArePlacedIf result (signature_view signature.now) (map replaced_view bindings.now) (form_variables (skeleton_view left.now)) }
{
    match left {
        Skeleton::Variable { name, sort } => is_placed(signature, bindings, name, sort),
        Skeleton::Built { arguments, .. } => all_placed(arguments, signature, bindings),
        Skeleton::Anything | Skeleton::Nothing | Skeleton::Any { .. } | Skeleton::Fixed { .. } =>
            true,
    }
}

/// The same of its members.
#[cycle(placing)]
fn all_placed(members: &[Skeleton], signature: &Signature, bindings: &[Replaced]) -> bool
    ensures { ArePlacedIf result (signature_view signature.now) (map replaced_view bindings.now) (all_form_variables (forms_of (map skeleton_view members.now))) }
{
    for member in members {
        if !are_placed(member, signature, bindings) {
            return false;
        }
    }
    true
}
