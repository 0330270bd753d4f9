// The variables of a left side: whether each name has one sort, and whether terms stand for these alone.
ghost use Rattle.std.specs.Prelude.{◌≡◌, ◌↔◌, IsTrue, true, map, string_bytes};
ghost use Rattle.std.specs.List.{AllByRecursion};
ghost use Rattle.kp_kore.specs.View.{sort_view};
ghost use Rattle.kp_kore.specs.Instance.{is_named};
ghost use Rattle.kp_symbolic.specs.View.{replaced_view};
ghost use Rattle.kp_symbolic_laws.specs.Runs.{HasOneSortEach};
ghost use Rattle.kp_rules.specs.Skeletons.{skeleton_view, forms_of};
ghost use Rattle.kp_case_laws.specs.Courses.{form_variables, all_form_variables};
ghost use Rattle.kp_step.specs.OneSort.{HasOnly, HaveOnlySortsOf};

use kp_kore::Sort;
use kp_rules::Skeleton;
use kp_symbolic::Replaced;
use std::sync::Arc;

/// Whether the variable has another name, or this sort.
fn is_only(own: &Arc<String>, of: &Sort, name: &Arc<String>, sort: &Sort) -> bool
    ensures { IsTrue result ↔ (string_bytes own.now.value ≡ string_bytes name.now.value → sort_view of.now ≡ sort_view sort.now) }
{
    if **own == **name {
        return of.equal(sort);
    }
    true
}

/// Whether each variable of the name has the sort.
#[cycle(only)]
fn has_only(skeleton: &Skeleton, name: &Arc<String>, sort: &Sort) -> bool
    ensures { IsTrue result ↔ HasOnly (string_bytes name.now.value) (sort_view sort.now) (form_variables (skeleton_view skeleton.now)) }
{
    match skeleton {
        Skeleton::Variable {
            name: own,
            sort: of,
        } => is_only(own, of, name, sort),
        Skeleton::Built { arguments, .. } => have_only(arguments, name, sort),
        Skeleton::Anything | Skeleton::Nothing => true,
        Skeleton::Any { .. } | Skeleton::Fixed { .. } => true,
    }
}

/// The same of each of these.
#[cycle(only)]
fn have_only(skeletons: &[Skeleton], name: &Arc<String>, sort: &Sort) -> bool
    ensures { IsTrue result ↔ HasOnly (string_bytes name.now.value) (sort_view sort.now) (all_form_variables (forms_of (map skeleton_view skeletons.now))) }
{
    for skeleton in skeletons {
        if !has_only(skeleton, name, sort) {
            return false;
        }
    }
    true
}

/// Whether each variable of the one has the sort of those of its name in the other.
#[cycle(each)]
fn is_one(skeleton: &Skeleton, whole: &Skeleton) -> bool
    ensures { IsTrue result ↔ HaveOnlySortsOf (form_variables (skeleton_view whole.now)) (form_variables (skeleton_view skeleton.now)) }
{
    match skeleton {
        Skeleton::Variable { name, sort } => has_only(whole, name, sort),
        Skeleton::Built { arguments, .. } => are_one(arguments, whole),
        Skeleton::Anything | Skeleton::Nothing => true,
        Skeleton::Any { .. } | Skeleton::Fixed { .. } => true,
    }
}

/// The same of each of these.
#[cycle(each)]
fn are_one(skeletons: &[Skeleton], whole: &Skeleton) -> bool
    ensures { IsTrue result ↔ HaveOnlySortsOf (form_variables (skeleton_view whole.now)) (all_form_variables (forms_of (map skeleton_view skeletons.now))) }
{
    for skeleton in skeletons {
        if !is_one(skeleton, whole) {
            return false;
        }
    }
    true
}

/// Whether each name among the variables of the left side has one sort.
pub fn has_one_sort_each(skeleton: &Skeleton) -> bool
    ensures { IsTrue result ↔ HasOneSortEach (form_variables (skeleton_view skeleton.now)) }
{
    is_one(skeleton, skeleton)
}

/// Whether a variable of the left side has the name.
#[cycle(named)]
fn has_variable(skeleton: &Skeleton, name: &Arc<String>) -> bool
    ensures { IsTrue result → is_named (string_bytes name.now.value) (form_variables (skeleton_view skeleton.now)) ≡ true }
{
    match skeleton {
        Skeleton::Variable { name: own, .. } => **own == **name,
        Skeleton::Built { arguments, .. } => have_variable(arguments, name),
        Skeleton::Anything | Skeleton::Nothing => false,
        Skeleton::Any { .. } | Skeleton::Fixed { .. } => false,
    }
}

/// The same of one of these.
#[cycle(named)]
fn have_variable(skeletons: &[Skeleton], name: &Arc<String>) -> bool
    ensures { IsTrue result → is_named (string_bytes name.now.value) (all_form_variables (forms_of (map skeleton_view skeletons.now))) ≡ true }
{
    for skeleton in skeletons {
        if has_variable(skeleton, name) {
            return true;
        }
    }
    false
}

/// Whether terms stand for variables of the left side alone.
pub fn are_of_left(skeleton: &Skeleton, bindings: &[Replaced]) -> bool
    ensures { IsTrue result → AllByRecursion (λ b. is_named b.name (form_variables (skeleton_view skeleton.now)) ≡ true) (map replaced_view bindings.now) }
{
    for binding in bindings {
        if !has_variable(skeleton, &binding.name) {
            return false;
        }
    }
    true
}
