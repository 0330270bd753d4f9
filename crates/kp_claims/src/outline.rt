// The sides of a claim, where it has the shape of one.
ghost use Rattle.std.specs.Prelude.{◌≡◌, Some, None};
ghost use Rattle.std.specs.Option.{option_map};
ghost use Rattle.kp_kore.specs.View.{view, sort_view, sorts_view, patterns_view};
ghost use Rattle.kp_kore.specs.Syntax.{application};
ghost use Rattle.kp_claims.specs.Claims.{is_applied as applied_test, is_one_path as one_path_test, reached_on_all as stated_reached, sides_of as stated_sides, has_attribute as attribute_test};
ghost use Rattle.kp_claims.specs.Sides.{sides_view};

use kp_kore::{Pattern, Sort};

/// The sort of a claim and its sides.
#[derive(Clone, Copy)]
pub struct ClaimOutline<'a> {
    pub sort: &'a Sort,
    pub left: &'a Pattern,
    pub right: &'a Pattern,
}

/// Whether the right side is reached on some path.
pub fn is_one_path(pattern: &Pattern) -> bool
    ensures { result ≡ one_path_test (view pattern.now) }
{
    match pattern {
        Pattern::Implies { right, .. } => is_applied(right, "weakExistsFinally"),
        _ => false,
    }
}

/// Whether it is an application of this name.
fn is_applied(pattern: &Pattern, name: &str) -> bool
    ensures { result ≡ applied_test name.now (view pattern.now) }
{
    match pattern {
        Pattern::Application { symbol, .. } => symbol.as_str() == name,
        _ => false,
    }
}

/// Whether an attribute of this name is among them.
pub fn has_attribute(attributes: &[Pattern], name: &str) -> bool
    ensures { result ≡ attribute_test name.now (patterns_view attributes.now) }
{
    for attribute in attributes {
        if is_applied(attribute, name) {
            return true;
        }
    }
    false
}

/// The sides of `\implies{S}(left, weakAlwaysFinally{S}(right))`.
pub fn sides_of(pattern: &Pattern) -> Option<ClaimOutline<'_>>
    ensures { option_map sides_view result ≡ stated_sides (view pattern.now) }
{
    match pattern {
        Pattern::Implies { sort, left, right } => match reached_on_all(sort, right) {
            Some(reached) => Some(ClaimOutline {
                sort,
                left,
                right: reached,
            }),
            None => None,
        },
        _ => None,
    }
}

/// What `weakAlwaysFinally{S}(p)` says is reached.
fn reached_on_all<'a>(sort: &Sort, pattern: &'a Pattern) -> Option<&'a Pattern>
    ensures { option_map (λ p. view p.now) result ≡ stated_reached (sort_view sort.now) (view pattern.now) }
{
    match pattern {
        Pattern::Application {
            symbol,
            sorts,
            arguments,
        } => argument_on_all(sort, symbol, sorts, arguments),
        _ => None,
    }
}

/// The argument of `weakAlwaysFinally` at this sort, if it is that.
fn argument_on_all<'a>(
    sort: &Sort,
    symbol: &str,
    sorts: &[Sort],
    arguments: &'a [Pattern],
) -> Option<&'a Pattern>
    ensures { let sort' = sort_view sort.now in option_map (λ p. view p.now) result ≡ stated_reached sort' (application symbol.now (sorts_view sorts.now) (patterns_view arguments.now)) }
{
    if sorts.len() != 1 {
        return None;
    }
    if arguments.len() != 1 {
        return None;
    }
    if symbol != "weakAlwaysFinally" {
        return None;
    }
    if sort.equal(&sorts[0]) {
        return Some(&arguments[0]);
    }
    None
}
