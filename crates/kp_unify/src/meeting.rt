// The cases of a part, and of a whole state, under a left side.
ghost use Rattle.std.specs.Prelude.{◌≡◌, IfOk, map};
ghost use Rattle.kp_signature.specs.View.{signature_view};
ghost use Rattle.kp_rules.specs.Skeletons.{skeleton_view};
ghost use Rattle.kp_symbolic.specs.View.{clauses_view, state_view};
ghost use Rattle.kp_case_laws.specs.Parts as parts;
ghost use Rattle.kp_case_laws.specs.Courses.{all_equality_clauses};
ghost use Rattle.kp_unify.specs.Views.{signature_of, numbered_view, met_view, equality_view, stage_view, HasItsTable};
ghost use Rattle.kp_unify.specs.Promises.{RunsToItsEnd, IsPlacedIf, ArePlacedIf, met_at_end, MeetsAtEnd, MeetsPart};

use crate::course::{Course, Equality, begin};
use crate::head_sorts::has_sort;
use crate::left_parts::LeftPart;
use crate::literals::{are_never, equal_clauses};
use crate::part::{Meeting, MetPart, Part, Setting, whole};
use crate::repeats::differs;
use kp_compile::CompileError;
use kp_rules::skeleton::Skeleton;
use kp_signature::Signature;
use kp_symbolic::{Clause, State};
use std::alloc::{AllocError, Global};

/// All pairs: whether the left side may meet the part. One with as many parts as there are numbers of 64 bits doesn't fit into
/// memory.
fn run<'a>(
    alloc: Global,
    setting: &Setting<'_>,
    course: &mut Course<'a>,
) -> Result<bool, CompileError>
    requires heads { HasItsTable setting.now }
    ensures { RunsToItsEnd setting.now course.old result course.new }
{
    for _step in 0..u64::MAX {
        match course.pairs.pop() {
            Some(pair) => {
                if !course.meet_pair(alloc, setting, &pair)? {
                    return Ok(false);
                }
            }
            None => return Ok(true),
        }
    }
    Err(CompileError::Memory)
}

/// The clauses of all equalities.
fn equations(
    alloc: Global,
    setting: &Setting<'_>,
    equalities: &[Equality],
) -> Result<Vec<Clause>, AllocError>
    ensures { IfOk result (λ cs. clauses_view cs.items ≡ all_equality_clauses (signature_of setting.now) (map equality_view equalities.now)) }
{
    let signature = setting.language.signature;
    let mut found = Vec::new(alloc);
    for equality in equalities {
        let mut clauses = equal_clauses(
            alloc,
            signature,
            &equality.sort,
            &equality.left,
            &equality.right,
        )?;
        found.append(&mut clauses)?;
    }
    Ok(found)
}

/// Whether both sides, which have the equality's sort for each instance of a part, have it by their form.
fn is_placed(signature: &Signature, equality: &Equality) -> bool
    ensures { IsPlacedIf result (signature_view signature.now) (equality_view equality.now) }
{
    has_sort(signature, &equality.left, &equality.sort)
        && has_sort(signature, &equality.right, &equality.sort)
}

/// The same of each equality.
fn are_placed(signature: &Signature, equalities: &[Equality]) -> bool
    ensures { ArePlacedIf result (signature_view signature.now) (map equality_view equalities.now) }
{
    for equality in equalities {
        if !is_placed(signature, equality) {
            return false;
        }
    }
    true
}

/// What was met, where no pair is left.
fn make_meeting(course: Course<'_>, equations: Vec<Clause>) -> Meeting
    ensures met { met_view result.met ≡ met_at_end course.entry equations.items }
    ensures next { result.met.part.next ≡ course.entry.part.next }
    ensures apart { map numbered_view result.apart.items ≡ (stage_view course.entry).apart }
{
    let Course {
        part,
        bindings,
        apart,
        ..
    } = course;
    let met = MetPart {
        part,
        equations,
        bindings,
    };
    Meeting { met, apart }
}

/// What was met, where no pair is left; nothing, where the equalities are never true. A Shape where a side of one hasn't its sort
/// by its form, so that the equality has no place in Kore.
fn met(
    alloc: Global,
    setting: &Setting<'_>,
    course: Course<'_>,
) -> Result<Option<Meeting>, CompileError>
    ensures { MeetsAtEnd (signature_of setting.now) course.entry result }
{
    let equations = equations(alloc, setting, &course.equalities)?;
    if are_never(&equations) {
        return Ok(None);
    }
    if !are_placed(setting.language.signature, &course.equalities) {
        return Err(CompileError::Shape);
    }
    Ok(Some(make_meeting(course, equations)))
}

/// What a left side makes of a part, of a read or a foreign rule alike: the part that it meets, where the equations are
/// true, and those that it doesn't meet. None where it doesn't meet the part at all, which isn't divided then. Refused
/// where a sum can't be written, where an equation would be of a variable whose sort isn't the other side's or below it (no sort
/// lies below both), or for want of memory.
pub fn meet(
    alloc: Global,
    setting: &Setting<'_>,
    part: &Part,
    left: &Skeleton,
) -> Result<Option<Meeting>, CompileError>
    requires heads { HasItsTable setting.now }
    ensures { MeetsPart setting.now (numbered_view part.now) (skeleton_view left.now) result }
{
    if differs(&part.state.term, LeftPart::Skeleton { skeleton: left }) {
        return Ok(None);
    }
    let mut course = begin(alloc, left, part)?;
    if !run(alloc, setting, &mut course)? {
        return Ok(None);
    }
    met(alloc, setting, course)
}

/// The same of a whole state, refused where that is; `Fresh` with each number from 1 below the next one is in use.
pub fn cases(
    alloc: Global,
    setting: &Setting<'_>,
    state: &State,
    left: &Skeleton,
    next: u64,
) -> Result<Option<Meeting>, CompileError>
    requires heads { HasItsTable setting.now }
    ensures { MeetsPart setting.now (record { part = parts.whole (state_view state.now); next = next }) (skeleton_view left.now) result }
{
    let part = whole(alloc, state, next)?;
    meet(alloc, setting, &part, left)
}
