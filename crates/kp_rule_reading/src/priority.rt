// Priorities of rules.
ghost use Rattle.std.specs.Prelude.{◌≡◌, ◌&&◌, nat_lt, length, codes, if◌then◌else◌};
ghost use Rattle.std.specs.List.{list_all};
ghost use Rattle.std.specs.Char.{is_ascii_digit};
ghost use Rattle.kp_kore.specs.View.{patterns_view};
ghost use Rattle.kp_kore.specs.Attributes.{has_mark as mark_among};
ghost use Rattle.kp_kore.specs.Rules.{owise_priority, usual_priority, priority_of as stated_priority, decimal_number as number_written};
ghost use Rattle.kp_rule_reading.specs.Priorities.{Tells};

use kp_kore::Pattern;
use kp_signature::attributes::{has_mark, text_of};
use std::num::ParseIntError;

/// The priority of a rule without one.
pub const USUAL_PRIORITY: u32 = 50;

const OWISE_PRIORITY: u32 = 200;

/// What attributes say of a rule's priority.
#[derive(Clone, Copy)]
pub enum Priority {
    Number(u32),
    /// Above 4294967295.
    TooLarge,
    /// The text of `priority{}` is no number.
    NoNumber,
}

/// The number of `priority{}("n")`, else 200 with `owise{}()`, else 50.
pub fn priority_of(attributes: &[Pattern]) -> Priority
    ensures { Tells result (stated_priority (patterns_view attributes.now)) }
{
    match text_of(attributes, "priority") {
        Some(text) => decimal_number(text),
        None => Priority::Number(priority_without_number(attributes)),
    }
}

/// The priority of a rule that states no number.
fn priority_without_number(attributes: &[Pattern]) -> u32
    ensures { result ≡ (if mark_among (codes "owise") (patterns_view attributes.now) then owise_priority else usual_priority) }
{
    if has_mark(attributes, "owise") {
        OWISE_PRIORITY
    } else {
        USUAL_PRIORITY
    }
}

/// The number that one or more decimal digits write.
fn decimal_number(text: &str) -> Priority
    ensures { Tells result (number_written text.now) }
{
    if !is_decimal(text.as_bytes()) {
        return Priority::NoNumber;
    }
    let number: Result<u32, ParseIntError> = text.parse();
    match number {
        Ok(number) => Priority::Number(number),
        Err(_) => Priority::TooLarge,
    }
}

/// Whether it is one or more digits.
fn is_decimal(text: &[u8]) -> bool
    ensures { result ≡ (nat_lt 0 (length text.now) && list_all is_ascii_digit text.now) }
{
    0 < text.len() && are_digits(text)
}

/// Whether each byte is a digit.
fn are_digits(text: &[u8]) -> bool
    ensures { result ≡ list_all is_ascii_digit text.now }
{
    text.iter().all(|byte| byte.is_ascii_digit())
}
