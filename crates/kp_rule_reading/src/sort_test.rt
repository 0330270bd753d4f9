// Which left variables a match must test.
ghost use Rattle.std.specs.Prelude.{◌≡◌, ◌∷◌, [], ◌↔◌, true, length, IfOk, IfErr, OnOk, string_bytes};
ghost use Rattle.std.specs.List.{AllByRecursion};
ghost use Rattle.kp_kore.specs.Syntax.{KoreSorts, application};
ghost use Rattle.kp_kore.specs.Parts.{free_variables, all_free_variables};
ghost use Rattle.kp_kore.specs.Signature.{KoreSignature};
ghost use Rattle.kp_kore.specs.View.{view, patterns_view, sort_view, sorts_view};
ghost use Rattle.kp_signature.specs.View.{signature_view};
ghost use Rattle.kp_kore.specs.Value.{Value, HasSort, HaveSorts};
ghost use Rattle.kp_kore.specs.Sorted.{IsSorted};
ghost use Rattle.kp_kore.specs.Instance.{Valuation, instance, instances, GivesSorts};
ghost use Rattle.kp_ground.specs.Slots.{is_one_of};
ghost use Rattle.kp_compile.specs.Exact.{are_named};
ghost use Rattle.kp_compile.specs.Names.{names_seen};
ghost use Rattle.kp_compile.specs.Verified.{IsVerifiedLeftTerm};
ghost use Rattle.kp_compile.specs.declared.error.CompileError.TheVariants.{Memory};
ghost use Rattle.kp_rules.specs.Bodies.{IsVerifiedLeft};
ghost use Rattle.kp_rules.specs.Bound.{tests_read};
ghost use Rattle.kp_rules.specs.Heads.{HasHead};
ghost use Rattle.kp_rule_reading.specs.Tests.{IsGiven, Adds, AddWhere, HasSortedInstance, ReadMore};

use kp_compile::{CompileError, NameSet, slot_of};
use kp_kore::{Name, Pattern, Sort};
use kp_rules::rule::SortTest;
use kp_signature::{Meaning, Signature, meaning_of};
use std::alloc::{AllocError, Global};

/// The sort tests of a left term: one for each variable that doesn't stand as a constructor's argument of its own sort.
/// A term that `compile_left` refuses is refused, and a constructor with another number of arguments than it declares.
pub fn sort_tests(
    alloc: Global,
    signature: &Signature,
    names: &NameSet,
    left: &Pattern,
) -> Result<Vec<SortTest>, CompileError>
    ensures tests { let g = signature_view signature.now in IfOk result (λ tests. IsVerifiedLeft g (view left.now) → (v : Valuation) → IsSorted g (instance g v (view left.now)) → AllByRecursion (HasHead g v) tests.items ↔ GivesSorts g v (free_variables (view left.now))) }
    ensures reads { IfOk result (λ tests. are_named (names_seen names.now) (free_variables (view left.now)) ≡ true → tests_read (names_seen names.now) tests.items ≡ true) }
    ensures refused { IfErr result (λ e. IsVerifiedLeftTerm (signature_view signature.now) (view left.now) → e ≡ Memory) }
{
    let mut tests = Vec::new(alloc);
    add_tests(left, alloc, signature, None, names, &mut tests)?;
    Ok(tests)
}

/// Adds the tests of a term at a place that gives its values this sort, or none.
#[cycle(sort_tests)]
fn add_tests(
    pattern: &Pattern,
    alloc: Global,
    signature: &Signature,
    given: Option<&Sort>,
    names: &NameSet,
    tests: &mut Vec<SortTest>,
) -> Result<(), CompileError>
    ensures tests { let g = signature_view signature.now in let pattern' = view pattern.now in OnOk result ((v : Valuation) → IsGiven g given.entry (instance g v pattern') → Adds g v tests.old.items tests.new.items (free_variables pattern')) }
    ensures reads { OnOk result (ReadMore (names_seen names.now) (free_variables (view pattern.now)) tests.old.items tests.new.items) }
    ensures refused { IfErr result (λ e. IsVerifiedLeftTerm (signature_view signature.now) (view pattern.now) → e ≡ Memory) }
{
    match pattern {
        Pattern::Variable { name, sort } => Ok(add_test(alloc, name, sort, given, names, tests)?),
        Pattern::Literal { .. } => Ok(()),
        Pattern::Application {
            symbol,
            arguments,
            ..
        } => add_tests_of_applied(arguments, alloc, signature, symbol, names, tests),
        _ => Err(CompileError::Shape),
    }
}

/// The same of a name applied to arguments: `inj` gives its argument no sort, a constructor those that it declares.
#[cycle(sort_tests)]
fn add_tests_of_applied(
    arguments: &[Pattern],
    alloc: Global,
    signature: &Signature,
    symbol: &Name,
    names: &NameSet,
    tests: &mut Vec<SortTest>,
) -> Result<(), CompileError>
    ensures tests { let g = signature_view signature.now in let arguments' = patterns_view arguments.now in OnOk result (AddWhere g (HasSortedInstance g (string_bytes symbol.now) arguments') tests.old.items tests.new.items (all_free_variables arguments')) }
    ensures reads { OnOk result (ReadMore (names_seen names.now) (all_free_variables (patterns_view arguments.now)) tests.old.items tests.new.items) }
    ensures refused { let g = signature_view signature.now in let arguments' = patterns_view arguments.now in IfErr result (λ e. (ss : KoreSorts) → IsVerifiedLeftTerm g (application (string_bytes symbol.now) ss arguments') → e ≡ Memory) }
{
    match meaning_of(signature, symbol) {
        Meaning::Injection => match arguments {
            [argument] => add_tests(argument, alloc, signature, None, names, tests),
            _ => Err(CompileError::Shape),
        },
        Meaning::Constructor => match signature.symbol(symbol) {
            Some(found) => {
                add_tests_of_arguments(arguments, alloc, signature, &found.arguments, names, tests)
            }
            None => Err(CompileError::Shape),
        },
        Meaning::Interpreted(_) => Err(CompileError::Shape),
        Meaning::Foreign => Err(CompileError::Shape),
    }
}

/// The same of a constructor's arguments, at places that give these sorts.
#[cycle(sort_tests)]
fn add_tests_of_arguments(
    patterns: &[Pattern],
    alloc: Global,
    signature: &Signature,
    places: &[Sort],
    names: &NameSet,
    tests: &mut Vec<SortTest>,
) -> Result<(), CompileError>
    ensures tests { let g = signature_view signature.now in let patterns' = patterns_view patterns.now in OnOk result (AddWhere g (λ v. HaveSorts g (sorts_view places.now) (instances g v patterns')) tests.old.items tests.new.items (all_free_variables patterns')) }
    ensures reads { OnOk result (ReadMore (names_seen names.now) (all_free_variables (patterns_view patterns.now)) tests.old.items tests.new.items) }
    ensures refused { let g = signature_view signature.now in IfErr result (λ e. length patterns.now ≡ length places.now → AllByRecursion (λ p. IsVerifiedLeftTerm g (view p)) patterns.now → e ≡ Memory) }
{
    if patterns.len() != places.len() {
        return Err(CompileError::Shape);
    }
    for i in 0..patterns.len() {
        add_tests(
            &patterns[i],
            alloc,
            signature,
            Some(&places[i]),
            names,
            tests,
        )?;
    }
    Ok(())
}

/// Whether the place gives this sort.
fn gives(given: Option<&Sort>, sort: &Sort) -> bool
    ensures { (g : KoreSignature) (u : Value) → result ≡ true → IsGiven g given.entry u → HasSort g (sort_view sort.now) u }
{
    match given {
        Some(given) => given.equal(sort),
        None => false,
    }
}

/// Adds a variable's test, unless its place gives its sort.
fn add_test(
    alloc: Global,
    name: &Name,
    sort: &Sort,
    given: Option<&Sort>,
    names: &NameSet,
    tests: &mut Vec<SortTest>,
) -> Result<(), AllocError>
    ensures reads { let names' = names_seen names.now in OnOk result (is_one_of (string_bytes name.now) names' ≡ true → tests_read names' tests.old.items ≡ true → tests_read names' tests.new.items ≡ true) }
    ensures tests { let name' = string_bytes name.now in OnOk result ((g : KoreSignature) (v : Valuation) → IsGiven g given.entry (v name') → Adds g v tests.old.items tests.new.items (record { name = name'; sort = sort_view sort.now } ∷ [])) }
{
    if gives(given, sort) {
        return Ok(());
    }
    tests.push(SortTest {
        name: name.clone()?,
        slot: slot_of(names, name.as_str()),
        sort: sort.copy(alloc)?,
    })?;
    Ok(())
}
