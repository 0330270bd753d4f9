// Laws of a left side against a part, from the first pair to the cases.
ghost use Rattle.std.specs.Prelude.{[]};
ghost use Rattle.kp_kore.specs.Signature.{KoreSignature};
ghost use Rattle.kp_rules.specs.Skeletons.{Form};
ghost use Rattle.kp_case_laws.specs.Parts.{StatePart, IsTold, IsSortedPart};
ghost use Rattle.kp_case_laws.specs.Courses.{beginning, IsOnCourse};
ghost use Rattle.kp_case_laws.specs.CaseLaws.{AreCasesAtTheEnd, AreBoundAtTheEnd, AreApartWhereUnequal, GivesWayToWhatItAsks, IsApartByOnePair, GoesOnWhereHeadsAreAsked, GoesOnWithTheTerm, GoesOnWithTheTermAlone, IsApartWhereNotAdmitted};

/// A left side begins as one pair with the part's term. Where no pair is left, the part at hand is met and the others are apart,
/// and each variable of the left side stands for a term of its sort; where the equalities are never true, the whole part is apart.
pub fn a_course_begins_and_ends()
    ensures begins { (g : KoreSignature) (left : Form) (p : StatePart) → IsTold g p → IsSortedPart g p → IsOnCourse g left p (beginning left p) [] }
    ensures ends { (g : KoreSignature) → AreCasesAtTheEnd g }
    ensures bound { (g : KoreSignature) → AreBoundAtTheEnd g }
    ensures never { (g : KoreSignature) → AreApartWhereUnequal g }
{}

/// A pair is exchanged for what it asks; one that is never admitted sets the whole part apart.
pub fn a_pair_goes_on()
    ensures asked { (g : KoreSignature) → GivesWayToWhatItAsks g }
    ensures never { (g : KoreSignature) → IsApartByOnePair g }
{}

/// A left side goes on in a part of the part, and the other is split off: where heads are asked for, and where a variable is a
/// term, which then stands in its place. A part in which the next pair isn't admitted is apart.
pub fn a_course_goes_on_in_parts()
    ensures asked { (g : KoreSignature) → GoesOnWhereHeadsAreAsked g }
    ensures narrowed { (g : KoreSignature) → GoesOnWithTheTerm g }
    ensures whole { (g : KoreSignature) → GoesOnWithTheTermAlone g }
    ensures apart { (g : KoreSignature) → IsApartWhereNotAdmitted g }
{}
