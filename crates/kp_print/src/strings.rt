// Strings between quotes, with the shortest escapes.
ghost use Rattle.std.specs.Prelude.{◌≡◌, ◌++◌, ◌<◌, OnOk, string_bytes};
ghost use Rattle.std.specs.Char.{digit_char};
ghost use Rattle.std.specs.Str.{chars};
ghost use Rattle.kp_print.specs.Strings.{two_digits, four_digits, number_text, character_text, characters_text, quoted};

use std::alloc::AllocError;

/// A string, between quotes.
pub fn push_quoted(string: &str, text: &mut String) -> Result<(), AllocError>
    ensures { OnOk result (string_bytes text.new ≡ string_bytes text.old ++ quoted string.now) }
{
    text.push_str("\"")?;
    push_characters(string, text)?;
    text.push_str("\"")
}

/// The characters of a string, each bare or escaped.
fn push_characters(string: &str, text: &mut String) -> Result<(), AllocError>
    ensures { OnOk result (string_bytes text.new ≡ string_bytes text.old ++ characters_text (chars string.now)) }
{
    for c in string.chars() {
        push_character(c, text)?;
    }
    Ok(())
}

/// A character, bare or by its shortest escape.
fn push_character(c: char, text: &mut String) -> Result<(), AllocError>
    ensures { OnOk result (string_bytes text.new ≡ string_bytes text.old ++ character_text c) }
{
    match c {
        '\n' => text.push_str("\\n"),
        '\r' => text.push_str("\\r"),
        '\t' => text.push_str("\\t"),
        '\x0c' => text.push_str("\\f"),
        '"' => text.push_str("\\\""),
        '\\' => text.push_str("\\\\"),
        ' '..='~' => text.push(c),
        _ => push_number(c as u32, text),
    }
}

/// A character by its number, in the fewest digits.
fn push_number(number: u32, text: &mut String) -> Result<(), AllocError>
    ensures { OnOk result (string_bytes text.new ≡ string_bytes text.old ++ number_text number) }
{
    if number < 256 {
        text.push_str("\\x")?;
        return push_two_digits(number, text);
    }
    if number < 65536 {
        text.push_str("\\u")?;
        return push_four_digits(number, text);
    }
    text.push_str("\\U")?;
    push_four_digits(number / 65536, text)?;
    push_four_digits(number % 65536, text)
}

/// A number below 65536, by four hexadecimal digits.
fn push_four_digits(number: u32, text: &mut String) -> Result<(), AllocError>
    requires { number < 65536 }
    ensures { OnOk result (string_bytes text.new ≡ string_bytes text.old ++ four_digits number) }
{
    push_two_digits(number / 256, text)?;
    push_two_digits(number % 256, text)
}

/// A number below 256, by two hexadecimal digits.
fn push_two_digits(number: u32, text: &mut String) -> Result<(), AllocError>
    requires { number < 256 }
    ensures { OnOk result (string_bytes text.new ≡ string_bytes text.old ++ two_digits number) }
{
    text.push(hexadecimal(number / 16))?;
    text.push(hexadecimal(number % 16))
}

/// A hexadecimal digit.
fn hexadecimal(digit: u32) -> char
    requires { digit < 16 }
    ensures { result ≡ digit_char digit }
{
    match char::from_digit(digit, 16) {
        Some(c) => c,
        None => '0',
    }
}
