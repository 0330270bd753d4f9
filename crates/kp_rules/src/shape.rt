// The two sides of a rewrite axiom.
ghost use Rattle.std.specs.Prelude.{◌≡◌, ◌++◌, IfOk, OnOk, not, Some, None, if◌then◌else◌};
ghost use Rattle.std.specs.List.{filter, list_all};
ghost use Rattle.std.specs.Option.{option_map};
ghost use Rattle.kp_kore.specs.Syntax.{KoreSort, KorePattern, rewriting};
ghost use Rattle.kp_kore.specs.Parts.{is_term as term_test};
ghost use Rattle.kp_kore.specs.View.{view};
ghost use Rattle.kp_kore.specs.Instance.{is_named as named_among, is_predicate as predicate_test};
ghost use Rattle.kp_kore.specs.Rules.{only_one, top_binders, under_binders as what_is_bound, have_distinct_names, rewrite_of, constrained_term, joined as joined_sides};
ghost use Rattle.kp_rules.specs.Shapes.{seen, variables_seen, side_of, side_view, rewrite_seen};

use kp_compile::{conjuncts, is_predicate, is_term};
use kp_kore::{Name, Pattern, Sort};
use std::alloc::{AllocError, Global};

/// A conjunction, in any order and nesting, of one term and predicates.
pub struct RuleSide<'a> {
    pub term: &'a Pattern,
    pub predicates: Vec<&'a Pattern>,
}

// Written out: a derived one is proved again in each crate that owns such a value.
impl<'a> Drop for RuleSide<'a> {
    fn drop(self) {
        let RuleSide {
            term: _term,
            predicates: _predicates,
        } = self;
    }
}

/// A variable that `\exists` binds.
#[derive(Drop)]
pub struct Binder<'a> {
    pub name: &'a Name,
    pub sort: &'a Sort,
}

/// What `\exists` binds at the top, outermost first, and what stands under it.
pub struct Bound<'a> {
    pub variables: Vec<Binder<'a>>,
    pub pattern: &'a Pattern,
}

// Written out: a derived one is proved again in each crate that owns such a value.
impl<'a> Drop for Bound<'a> {
    fn drop(self) {
        let Bound {
            variables: _variables,
            pattern: _pattern,
        } = self;
    }
}

/// The parts of a `\rewrites`: each side is a conjunction of one term and predicates, the right one maybe under
/// `\exists` of different names.
pub struct Shape<'a> {
    pub left: RuleSide<'a>,
    pub right: RuleSide<'a>,
}

// Written out: a derived one is proved again in each crate that owns such a value.
impl<'a> Drop for Shape<'a> {
    fn drop(self) {
        let Shape {
            left: _left,
            right: _right,
        } = self;
    }
}

/// The terms among the patterns.
pub fn terms_among<'a>(
    alloc: Global,
    patterns: &[&'a Pattern],
) -> Result<Vec<&'a Pattern>, AllocError>
    ensures { IfOk result (λ ps. seen ps.items ≡ filter term_test (seen patterns.now)) }
{
    let mut found = Vec::new(alloc);
    for pattern in patterns {
        if is_term(pattern) {
            found.push(*pattern)?;
        }
    }
    Ok(found)
}

/// The patterns that are no terms.
fn others_among<'a>(alloc: Global, patterns: &[&'a Pattern]) -> Result<Vec<&'a Pattern>, AllocError>
    ensures { IfOk result (λ ps. seen ps.items ≡ filter (λ p. not (term_test p)) (seen patterns.now)) }
{
    let mut found = Vec::new(alloc);
    for pattern in patterns {
        if !is_term(pattern) {
            found.push(*pattern)?;
        }
    }
    Ok(found)
}

/// Whether each of them is a predicate.
fn are_predicates(patterns: &[&Pattern]) -> bool
    ensures { result ≡ list_all predicate_test (seen patterns.now) }
{
    for pattern in patterns {
        if !is_predicate(pattern) {
            return false;
        }
    }
    true
}

/// The one member of a list.
pub fn only<'a>(terms: &[&'a Pattern]) -> Option<&'a Pattern>
    ensures { option_map (λ p. view p.now) result ≡ only_one (seen terms.now) }
{
    if terms.len() == 1 {
        Some(terms[0])
    } else {
        None
    }
}

/// A side's one term and predicates, where it has these alone.
fn side_among<'a>(terms: &[&'a Pattern], predicates: Vec<&'a Pattern>) -> Option<RuleSide<'a>>
    ensures { let predicates' = seen predicates.entry.items in let only_term = if list_all predicate_test predicates' then only_one (seen terms.now) else None in option_map side_view result ≡ option_map (λ t. (t, predicates')) only_term }
{
    if !are_predicates(&predicates) {
        return None;
    }
    match only(terms) {
        Some(term) => Some(RuleSide { term, predicates }),
        None => None,
    }
}

/// The one term and the predicates of a side, where it is a conjunction of these.
pub fn constrained_side<'a>(
    alloc: Global,
    pattern: &'a Pattern,
) -> Result<Option<RuleSide<'a>>, AllocError>
    ensures { IfOk result (λ o. option_map side_view o ≡ side_of (view pattern.now)) }
{
    let members = conjuncts(alloc, pattern)?;
    let terms = terms_among(alloc, &members)?;
    let predicates = others_among(alloc, &members)?;
    Ok(side_among(&terms, predicates))
}

/// Adds the variables that leading quantifiers bind; what is under them.
#[cycle(binders)]
fn add_binders<'a>(
    pattern: &'a Pattern,
    variables: &mut Vec<Binder<'a>>,
) -> Result<&'a Pattern, AllocError>
    ensures found { OnOk result (variables_seen variables.new.items ≡ variables_seen variables.old.items ++ top_binders (view pattern.now)) }
    ensures rest { IfOk result (λ p. view p.now ≡ what_is_bound (view pattern.now)) }
{
    match pattern {
        Pattern::Exists {
            name,
            name_sort,
            pattern,
            ..
        } => {
            variables.push(Binder {
                name,
                sort: name_sort,
            })?;
            add_binders(pattern, variables)
        }
        _ => Ok(pattern),
    }
}

/// What `\exists` binds at the top, and what stands under it.
pub fn under_binders<'a>(alloc: Global, pattern: &'a Pattern) -> Result<Bound<'a>, AllocError>
    ensures found { IfOk result (λ b. variables_seen b.variables.items ≡ top_binders (view pattern.now)) }
    ensures rest { IfOk result (λ b. view b.pattern.now ≡ what_is_bound (view pattern.now)) }
{
    let mut variables = Vec::new(alloc);
    let pattern = add_binders(pattern, &mut variables)?;
    Ok(Bound { variables, pattern })
}

/// Whether one of the variables has this name.
fn is_named(name: &str, variables: &[Binder<'_>]) -> bool
    ensures { result ≡ named_among name.now (variables_seen variables.now) }
{
    for variable in variables {
        if variable.name.as_str() == name {
            return true;
        }
    }
    false
}

/// Whether no name stands twice. A pattern has no more binders than it has levels.
fn are_distinct(variables: &[Binder<'_>]) -> bool
    ensures { result ≡ have_distinct_names (variables_seen variables.now) }
{
    for i in 0..variables.len() {
        if is_named(variables[i].name.as_str(), &variables[i + 1..]) {
            return false;
        }
    }
    true
}

/// The parts of `\rewrites`, where it has them.
pub fn shape_of<'a>(
    alloc: Global,
    left: &'a Pattern,
    right: &'a Pattern,
) -> Result<Option<Shape<'a>>, AllocError>
    ensures { (s : KoreSort) → IfOk result (λ o. option_map (rewrite_seen (view right.now)) o ≡ rewrite_of (rewriting s (view left.now) (view right.now))) }
{
    let bound = under_binders(alloc, right)?;
    if !are_distinct(&bound.variables) {
        return Ok(None);
    }
    let left = constrained_side(alloc, left)?;
    let right = constrained_side(alloc, bound.pattern)?;
    Ok(joined(left, right))
}

/// A rule's shape, where both sides have one.
fn joined<'a>(left: Option<RuleSide<'a>>, right: Option<RuleSide<'a>>) -> Option<Shape<'a>>
    ensures { (l r : KorePattern) → let bound = what_is_bound r in option_map side_view left.entry ≡ side_of l → option_map side_view right.entry ≡ side_of bound → option_map (rewrite_seen r) result ≡ joined_sides l r (constrained_term l) (constrained_term bound) }
{
    match left {
        Some(left) => match right {
            Some(right) => Some(Shape { left, right }),
            None => None,
        },
        None => None,
    }
}
