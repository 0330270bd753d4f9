use crate::forms::add_formula;
use crate::module::SMALL;
use crate::rows::{Asked, Table, first_failed};
use kp_formulas::{open_same, open_truth};
use kp_kore::Pattern;
use kp_symbolic::{Language, term_under};
use std::alloc::{AllocError, Global};

/// Adds the form that an equality with a sign opens to.
pub(crate) fn equality_told(
    alloc: Global,
    language: &Language,
    sign: bool,
    pattern: &Pattern,
    told: &mut String,
) -> Result<(), AllocError> {
    let Pattern::Equals {
        argument_sort,
        left,
        right,
        ..
    } = pattern
    else {
        return told.push_str("no equality");
    };
    let Ok(left) = term_under(left, alloc, language, &[]) else {
        return told.push_str("no term on the left");
    };
    let Ok(right) = term_under(right, alloc, language, &[]) else {
        return told.push_str("no term on the right");
    };
    let signature = language.signature;
    let formula = open_same(alloc, signature, true, sign, argument_sort, &left, &right)?;
    add_formula(&formula, told)
}

/// Adds the form that a Boolean expression with a sign opens to.
pub(crate) fn truth_told(
    alloc: Global,
    language: &Language,
    sign: bool,
    pattern: &Pattern,
    told: &mut String,
) -> Result<(), AllocError> {
    let Ok(term) = term_under(pattern, alloc, language, &[]) else {
        return told.push_str("no term");
    };
    let formula = open_truth(alloc, language.signature, true, sign, &term)?;
    add_formula(&formula, told)
}

/// The forms that equalities open to.
const EQUAL: &str = r##"# constructors are opened member by member
\equals{S{},S{}}(f{}(X:Int{}), f{}(Y:Int{})) -> (+)
\equals{S{},S{}}(f{}(X:Int{}), g{}(Y:S{})) -> []
\equals{S{},S{}}(pair{}(X:Int{}, g{}(Y:S{})), pair{}(Z:Int{}, g{}(f{}(X:Int{})))) -> (+(+))
\equals{S{},S{}}(pair{}(\dv{Int{}}("1"), Y:S{}), pair{}(\dv{Int{}}("2"), Y:S{})) -> ([]())
\equals{S{},S{}}(Y:S{}, g{}(pair{}(X:Int{}, Y:S{}))) -> []
\equals{S{},S{}}(Y:S{}, g{}(Z:S{})) -> +
\equals{S{},S{}}(Y:S{}, Y:S{}) -> ()
# sums of one variable are compared
\equals{Int{},S{}}(plus{}(X:Int{}, \dv{Int{}}("1")), plus{}(X:Int{}, \dv{Int{}}("2"))) -> []
\equals{Int{},S{}}(plus{}(X:Int{}, \dv{Int{}}("1")), Y:Int{}) -> +
# equalities of truth values are opened
\equals{Bool{},S{}}(and{}(B:Bool{}, C:Bool{}), \dv{Bool{}}("true")) -> (++)
\equals{Bool{},S{}}(\dv{Bool{}}("false"), and{}(B:Bool{}, C:Bool{})) -> [--]
\equals{Bool{},S{}}(D:Bool{}, and{}(B:Bool{}, C:Bool{})) -> +"##;

/// The forms that equalities open to which don't hold.
const DIFFERENT: &str = r##"# constructors are opened member by member
\equals{S{},S{}}(f{}(X:Int{}), f{}(Y:Int{})) -> [-]
\equals{S{},S{}}(f{}(X:Int{}), g{}(Y:S{})) -> ()
\equals{S{},S{}}(Y:S{}, g{}(Y:S{})) -> ()
# sums of one variable are compared
\equals{Int{},S{}}(plus{}(X:Int{}, \dv{Int{}}("1")), plus{}(X:Int{}, \dv{Int{}}("2"))) -> ()
# equalities of truth values are opened
\equals{Bool{},S{}}(D:Bool{}, C:Bool{}) -> ([--][++])"##;

/// The forms that true Boolean expressions open to.
const TRUE: &str = r##"B:Bool{} -> +
not{}(B:Bool{}) -> -
and{}(B:Bool{}, C:Bool{}) -> (++)
or{}(B:Bool{}, not{}(C:Bool{})) -> [+-]
implies{}(B:Bool{}, C:Bool{}) -> [-+]
less{}(plus{}(X:Int{}, \dv{Int{}}("1")), plus{}(X:Int{}, \dv{Int{}}("2"))) -> ()
same{}(f{}(X:Int{}), f{}(Y:Int{})) -> (+)
differ{}(f{}(X:Int{}), f{}(Y:Int{})) -> [-]"##;

/// The forms that false ones open to.
const FALSE: &str = r##"and{}(B:Bool{}, C:Bool{}) -> [--]
implies{}(B:Bool{}, C:Bool{}) -> (+-)
less{}(X:Int{}, Y:Int{}) -> -"##;

/// The tables of what is opened.
const TABLES: [Table<'static>; 4] = [
    (Asked::Equality(true), EQUAL),
    (Asked::Equality(false), DIFFERENT),
    (Asked::Truth(true), TRUE),
    (Asked::Truth(false), FALSE),
];

#[test]
fn predicates_are_opened(rt: HostRuntime) {
    assert_eq!(rt; first_failed(rt.alloc(), SMALL, &TABLES), None);
}
