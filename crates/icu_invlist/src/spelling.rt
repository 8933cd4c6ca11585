//! How the ranges of a set are spelled in JSON.
ghost use Rattle.std.specs.Prelude.{◌≡◌, ℕ, ◌+◌, ◌*◌, ◌<◌, ◌≤◌, ◌^◌, ◌++◌, List, option_map, IfSome, Some, IfOk, OnOk, string_bytes};
ghost use Rattle.std.specs.Str.{chars, encode_utf8_all};
ghost use Rattle.icu_zerovec.specs.CodePoints.{code_point_limit};
ghost use Rattle.icu_invlist.specs.SetJson.{first_of, digit_at, hex_at, point_at, range_at, IsRange, upper_hex, upper_hex4, spelling_of, range_text};

use icu_zerovec::MemoryError;
use std::alloc::Global;

/// Returns the first character and the rest of the text.
#[tactic(auto, using(std::proofs::lemmas::Str::chars_past_char))]
fn first_of(text: &str) -> Option<(char, &str)>
    ensures { option_map (λ x. (x.0, chars x.1.now)) result ≡ first_of (chars text.now) }
{
    let mut rest = text.chars();
    let first = rest.next()?;
    Some((first, rest.as_str()))
}

/// Reads one hexadecimal digit. Returns `number` with that digit appended, and the rest of the
/// text.
#[tactic(auto, unfolding(crate::specs::SetJson::digit_at))]
fn digit_at(number: u32, text: &str) -> Option<(u32, &str)>
    requires { number < 2 ^ 24 }
    ensures digit { option_map (λ x. (x.0, chars x.1.now)) result
        ≡ digit_at number (chars text.now) }
    ensures small { IfSome result (λ x. x.0 < number * 16 + 16) }
{
    let (digit, rest) = first_of(text)?;
    let digit = digit.to_digit(16)?;
    Some((number * 16 + digit, rest))
}

/// Reads four hexadecimal digits. Returns their number and the rest of the text.
#[tactic(auto, unfolding(crate::specs::SetJson::hex_at))]
fn hex_at(text: &str) -> Option<(u32, &str)>
    ensures hex { option_map (λ x. (x.0, chars x.1.now)) result ≡ hex_at (chars text.now) }
    ensures small { IfSome result (λ x. x.0 < 0x1_0000) }
{
    let (first, rest) = digit_at(0, text)?;
    let (second, rest) = digit_at(first, rest)?;
    let (third, rest) = digit_at(second, rest)?;
    digit_at(third, rest)
}

/// Reads a code point: `U+` and four hexadecimal digits of either case, or a character. Returns it
/// and the rest of the text.
#[tactic(auto, unfolding(crate::specs::SetJson::point_at))]
fn point_at(text: &str) -> Option<(u32, &str)>
    ensures point { option_map (λ x. (x.0, chars x.1.now)) result ≡ point_at (chars text.now) }
    ensures small { IfSome result (λ x. x.0 < code_point_limit) }
{
    let (first, rest) = first_of(text)?;
    if first == 'U' {
        if let Some(('+', digits)) = first_of(rest) {
            return hex_at(digits);
        }
    }
    Some((first as u32, rest))
}

/// Returns the first and the last code point of the range that the whole text spells.
#[tactic(auto, unfolding(crate::specs::SetJson::range_at))]
fn range_at(text: &str) -> Option<(u32, u32)>
    ensures exact { result ≡ range_at (chars text.now) }
    ensures small { IfSome result (λ r. r.1 < code_point_limit) }
{
    let (first, rest) = point_at(text)?;
    if first_of(rest).is_none() {
        return Some((first, first));
    }
    let (minus, rest) = point_at(rest)?;
    if minus != 0x2D {
        return None;
    }
    let (last, rest) = point_at(rest)?;
    match first_of(rest) {
        None => Some((first, last)),
        Some(_) => None,
    }
}

/// Returns the first and the last code point of the range that the whole text spells, or `None` if
/// it does not spell a range.
pub(crate) fn range_of(text: &str) -> Option<(u32, u32)>
    // Any result is a range that the text spells.
    ensures found { IfSome result (λ r. IsRange (chars text.now) r.0 r.1) }
    // Any range that the text spells is the result.
    ensures only { (a b : ℕ) → IsRange (chars text.now) a b → result ≡ Some (a, b) }
    ensures exact { result ≡ range_at (chars text.now) }
    ensures small { IfSome result (λ r. r.1 < code_point_limit) }
{
    range_at(text)
}

/// Returns the upper-case hexadecimal digit of a number below 16.
fn upper_digit(digit: u32) -> char
    requires { digit < 16 }
    ensures { result ≡ upper_hex digit }
{
    if digit < 10 {
        char::from(0x30 + digit as u8)
    } else {
        char::from(0x37 + digit as u8)
    }
}

/// Appends the four hexadecimal digits of a number below 0x10000 to the text.
fn push_hex(text: &mut String, number: u32) -> Result<(), MemoryError>
    ensures { OnOk result
        (string_bytes text.new ≡ string_bytes text.old ++ encode_utf8_all (upper_hex4 number)) }
{
    text.push(upper_digit(number / 4096 % 16))?;
    text.push(upper_digit(number / 256 % 16))?;
    text.push(upper_digit(number / 16 % 16))?;
    text.push(upper_digit(number % 16))?;
    Ok(())
}

/// Appends a code point to the text.
fn push_point(text: &mut String, point: u32) -> Result<(), MemoryError>
    requires { point < code_point_limit }
    ensures { OnOk result
        (string_bytes text.new ≡ string_bytes text.old ++ encode_utf8_all (spelling_of point)) }
{
    match char::from_u32(point) {
        Some(c) => text.push(c)?,
        None => {
            text.push('U')?;
            text.push('+')?;
            push_hex(text, point)?;
        }
    }
    Ok(())
}

/// Returns the text of the range from `first` to `last` inclusive.
pub(crate) fn text_of_range(alloc: Global, first: u32, last: u32) -> Result<String, MemoryError>
    requires first { first < code_point_limit }
    requires last { last < code_point_limit }
    ensures { IfOk result (λ t. string_bytes t ≡ encode_utf8_all (range_text first last)) }
{
    let mut text = String::new(alloc);
    push_point(&mut text, first)?;
    if first != last {
        text.push('-')?;
        push_point(&mut text, last)?;
    }
    Ok(text)
}
