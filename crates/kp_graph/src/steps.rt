// Which steps are progress.
ghost use Rattle.std.specs.Prelude.{◌≡◌, ◌&&◌, nat_lt, length};
ghost use Rattle.std.specs.List.{list_all};
ghost use Rattle.std.specs.Char.{is_ascii_digit};
ghost use Rattle.kp_kore.specs.ClaimRules.{is_lower_hexadecimal, is_digest_and_number as is_digest, is_claim_rule_id, is_progress};
ghost use Rattle.kp_graph.specs.View.{rule_view};

/// The digits of a module's digest.
const DIGITS: usize = 64;

/// Whether a step by this rule is progress: by none it isn't, nor by a claim's.
pub fn is_step_progress(rule: &Option<String>) -> bool
    ensures { result ≡ is_progress (rule_view rule.now) }
{
    match rule {
        Some(id) => !is_claim_id(id.as_bytes()),
        None => false,
    }
}

/// Whether the id is that of a claim's rule: m, 64 lower-case hexadecimal digits, # and a number.
pub fn is_claim_id(id: &[u8]) -> bool
    ensures { result ≡ is_claim_rule_id id.now }
{
    match id.split_first() {
        Some((first, rest)) => *first == b'm' && is_digest_and_number(rest),
        None => false,
    }
}

/// Whether these are 64 lower-case hexadecimal digits, # and a number.
#[tactic(auto, using(crate::proofs::Digits::next_digit, crate::proofs::Digits::no_digit, crate::proofs::Digits::ends_early, crate::proofs::Digits::behind_digits, crate::proofs::Digits::no_number))]
fn is_digest_and_number(text: &[u8]) -> bool
    ensures { result ≡ is_digest 64 text.now }
{
    let mut place = 0;
    while place < DIGITS {
        if place >= text.len() {
            return false;
        }
        if !is_hexadecimal(text[place]) {
            return false;
        }
        place += 1;
    }
    if place >= text.len() {
        return false;
    }
    text[place] == b'#' && is_number(&text[place + 1..])
}

/// Whether the byte is a digit, or one of the letters a to f.
fn is_hexadecimal(byte: u8) -> bool
    ensures { result ≡ is_lower_hexadecimal byte }
{
    (48 <= byte && byte <= 57) || (97 <= byte && byte <= 102)
}

/// Whether these are digits, one or more.
fn is_number(text: &[u8]) -> bool
    ensures { result ≡ (nat_lt 0 (length text.now) && list_all is_ascii_digit text.now) }
{
    !text.is_empty() && are_digits(text)
}

/// Whether each of these is a digit.
#[tactic(auto, using(crate::proofs::Digits::next_of_number, crate::proofs::Digits::not_of_number, crate::proofs::Digits::all_of_number))]
fn are_digits(text: &[u8]) -> bool
    ensures { result ≡ list_all is_ascii_digit text.now }
{
    let mut place = 0;
    while place < text.len() {
        if !text[place].is_ascii_digit() {
            return false;
        }
        place += 1;
    }
    true
}
