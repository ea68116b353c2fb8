//! What the template of a substitution names, as `regex` reads it.
ghost use Rattle.std.specs.Prelude.{◌≡◌, ◌≤◌, ◌+◌, ◌∷◌, false, Some, option_map, slice_index, length, not, ◌==◌, bytes_eq, IfSome, MatchResult};
ghost use Rattle.std.specs.List.{list_any, prefix_len};
ghost use Rattle.std.specs.Char.{is_ascii_digit};
ghost use Rattle.regex_hir.specs.Text.{is_some_and};
ghost use Rattle.regex.specs.Templates.{is_name_byte, name_at};
ghost use Rattle.bz_command_syntax.specs.Patterns.{has_escaped_digit, is_missing, missing_after};
ghost use Rattle.bz_command_syntax.specs.private.Braces.{left_brace, right_brace};

use bz_items::Text;
use std::str;

/// Whether a backslash is right before an ASCII digit somewhere, as in `\1`, which names no group.
pub fn has_escaped_digit(template: &[u8]) -> bool
    ensures { result ≡ has_escaped_digit template.now }
{
    let mut left = template;
    while let Some((&byte, rest)) = left.split_first() {
        if byte == b'\\' && first_byte(rest).is_ascii_digit() {
            return true;
        }
        left = rest;
    }
    false
}

// The first byte, or 0 where there is none.
fn first_byte(bytes: &[u8]) -> u8
    ensures { result ≡ slice_index bytes.now 0 }
{
    match bytes.first() {
        Some(byte) => *byte,
        None => 0,
    }
}

/// The name of the template's first reference to a group that the pattern lacks.
pub(crate) fn missing_group<'a>(names: &[Option<Text>], template: &'a [u8]) -> Option<&'a str>
    ensures { option_map (λ s. s.now) result ≡ missing_after names.now template.now 0 }
{
    let mut left = template;
    while let Some((&byte, rest)) = left.split_first() {
        match skip_count(names, byte, rest) {
            Ok(count) => left = &rest[count..],
            Err(name) => return Some(name),
        }
    }
    None
}

// How many bytes to skip after this one, or as the error the name of the missing group to which it begins a reference.
fn skip_count<'a>(names: &[Option<Text>], byte: u8, rest: &'a [u8]) -> Result<usize, &'a str>
    ensures { MatchResult result (λ count. (count ≤ length rest.now) × (missing_after names.now (byte ∷ rest.now) 0 ≡ missing_after names.now rest.now count)) (λ name. missing_after names.now (byte ∷ rest.now) 0 ≡ Some name.now) }
{
    if byte != b'$' {
        return Ok(0);
    }
    // The second of two dollar signs.
    if first_byte(rest) == b'$' {
        return Ok(1);
    }
    let Some((name, len)) = name_at(rest) else {
        return Ok(0);
    };
    if is_missing(names, name) {
        return Err(name);
    }
    Ok(len)
}

// Whether a group has this name.
fn is_named(group: &Option<Text>, name: &str) -> bool
    ensures { result ≡ is_some_and group.now (bytes_eq name.now) }
{
    match group {
        Some(other) => name.as_bytes() == other.as_slice(),
        None => false,
    }
}

fn has_group(names: &[Option<Text>], name: &str) -> bool
    ensures { result ≡ list_any (λ group. is_some_and group (bytes_eq name.now)) names.now }
{
    names.iter().any(|group| is_named(group, name))
}

fn is_missing(names: &[Option<Text>], name: &str) -> bool
    ensures { result ≡ is_missing names.now name.now }
{
    match name.parse::<usize>() {
        Ok(number) => names.len() <= number,
        Err(_) => !has_group(names, name),
    }
}

// The name in the reference that comes after a dollar sign, and how many bytes the reference has.
fn name_at(rest: &[u8]) -> Option<(&str, usize)>
    ensures value { option_map (λ found. (found.0.now, found.1)) result ≡ name_at rest.now }
    ensures within { IfSome result (λ found. found.1 ≤ length rest.now) }
{
    let Some((&first, inside)) = rest.split_first() else {
        return None;
    };
    if first == b'{' {
        name_in_braces(inside)
    } else {
        bare_name(rest)
    }
}

fn name_in_braces(inside: &[u8]) -> Option<(&str, usize)>
    ensures value { option_map (λ found. (found.0.now, found.1)) result ≡ name_at (left_brace ∷ inside.now) }
    ensures within { IfSome result (λ found. found.1 ≤ 1 + length inside.now) }
{
    let len = len_in_braces(inside);
    if inside.len() <= len {
        return None;
    }
    let Ok(name) = str::from_utf8(&inside[..len]) else {
        return None;
    };
    Some((name, len + 2))
}

fn bare_name(rest: &[u8]) -> Option<(&str, usize)>
    requires { (slice_index rest.now 0 == left_brace) ≡ false }
    ensures value { option_map (λ found. (found.0.now, found.1)) result ≡ name_at rest.now }
    ensures within { IfSome result (λ found. found.1 ≤ length rest.now) }
{
    let len = name_len(rest);
    if len == 0 {
        return None;
    }
    let Ok(name) = str::from_utf8(&rest[..len]) else {
        return None;
    };
    Some((name, len))
}

fn len_in_braces(inside: &[u8]) -> usize
    ensures { result ≡ prefix_len (λ byte. not (byte == right_brace)) inside.now }
{
    inside.iter().take_while(|byte| **byte != b'}').count()
}

fn name_len(rest: &[u8]) -> usize
    ensures value { result ≡ prefix_len is_name_byte rest.now }
    ensures within { result ≤ length rest.now }
{
    rest.iter().take_while(|byte| is_name_byte(**byte)).count()
}

fn is_name_byte(byte: u8) -> bool
    ensures { result ≡ is_name_byte byte }
{
    byte.is_ascii_alphanumeric() || byte == b'_'
}
