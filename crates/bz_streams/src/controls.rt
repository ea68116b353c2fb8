//! Control characters of a text, and what is printed in their place. It takes no memory.
ghost use Rattle.std.specs.Prelude.{◌≡◌, ◌<◌, ◌≤◌, ◌+◌, ◌++◌, ℕ, length, get_or, MatchOption, IfSome};
ghost use Rattle.arrayvec.specs.ArrayVec.{array_vec_len};
ghost use Rattle.bz_items.specs.Characters.{Bytes};
ghost use Rattle.bz_streams.specs.Controls.{is_control_pair, with_controls, hexadecimal_digits, hexadecimal, escape};

use arrayvec::ArrayVec;

/// The text up to a control character, the number of that character, and the text after it.
pub(crate) type ControlCut<'a> = (&'a [u8], u8, &'a [u8]);

// The escape of U+0080 is six bytes long.
pub(crate) type Escape = ArrayVec<u8, 6>;

const DIGITS: [u8; 16] = *b"0123456789abcdef";

fn is_control_pair(byte: u8, next: u8) -> bool
    ensures { result ≡ is_control_pair byte next }
{
    byte == 194 && (128..=159).contains(&next)
}

/// The text cut at its first control character, if it has one.
pub(crate) fn next_control(text: &[u8]) -> Option<ControlCut<'_>>
    ensures cut { MatchOption result ((shown : ℕ → Bytes) → with_controls shown text.now ≡ text.now)
        (λ cut. (shown : ℕ → Bytes) → with_controls shown text.now ≡ cut.0.now ++ (shown cut.1 ++ with_controls shown cut.2.now)) }
    ensures shorter { IfSome result (λ cut. length cut.0.now + 1 + length cut.2.now ≤ length text.now) }
{
    for at in 0..text.len() {
        let byte = text[at];
        if byte.is_ascii_control() {
            return Some((&text[..at], byte, &text[at + 1..]));
        }
        if at + 1 < text.len() && is_control_pair(byte, text[at + 1]) {
            return Some((&text[..at], text[at + 1], &text[at + 2..]));
        }
    }
    None
}

fn digit(number: u8) -> u8
    requires { number < 16 }
    ensures { result ≡ get_or hexadecimal_digits number 48 }
{
    DIGITS[number as usize]
}

fn put_hexadecimal(text: &mut Escape, number: u8)
    requires { array_vec_len text.old ≤ 3 }
    ensures items { text.new.items ≡ text.old.items ++ hexadecimal number }
    ensures len { array_vec_len text.new ≡ array_vec_len text.old + 2 }
{
    text.push(digit(number / 16));
    text.push(digit(number % 16));
}

/// What is printed of a control character of this number.
pub(crate) fn escape(number: u8) -> Escape
    ensures { result.items ≡ escape number }
{
    let mut text = ArrayVec::new();
    text.push(b'\\');
    match number {
        b'\n' => text.push(b'n'),
        b'\r' => text.push(b'r'),
        b'\t' => text.push(b't'),
        0..128 => {
            text.push(b'x');
            put_hexadecimal(&mut text, number);
        }
        _ => {
            text.push(b'u');
            text.push(b'{');
            put_hexadecimal(&mut text, number);
            text.push(b'}');
        }
    }
    text
}
