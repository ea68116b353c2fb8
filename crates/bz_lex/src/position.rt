ghost use Rattle.std.specs.Prelude.{◌≡◌, ◌≤◌, ◌-◌, ◌+◌, ◌^◌, ◌&&◌, length, min, not, count_by, take_while, reverse};
ghost use Rattle.bz_lex.specs.Positions.{is_continuation, is_newline, line_at, column_of};

/// The line and the column, both from 1, at which the byte at `offset` is; columns count characters.
/// A number past `u32::MAX` is reported as `u32::MAX`.
pub fn line_and_column(text: &[u8], offset: usize) -> (u32, u32)
    requires { offset ≤ length text.now }
    ensures line { result.0 ≡ min (line_at text.now offset) u32.MAX }
    ensures column { result.1 ≡ min (column_of text.now offset) u32.MAX }
{
    let before = &text[..offset];
    let newlines = before.iter().filter(|byte| **byte == b'\n').count();
    (
        one_more(newlines),
        one_more(characters_after_newline(before)),
    )
}

/// How many characters are after the last newline.
fn characters_after_newline(text: &[u8]) -> usize
    ensures { result ≡ count_by (λ byte. not (is_continuation byte)) (take_while (λ byte. not (is_newline byte)) (reverse text.now)) }
{
    let backwards = text.iter().rev();
    backwards
        .take_while(|byte| !is_newline(**byte))
        .filter(|byte| !is_continuation(**byte))
        .count()
}

fn is_newline(byte: u8) -> bool
    ensures { result ≡ is_newline byte }
{
    byte == b'\n'
}

/// UTF-8: whether the byte goes on with a character.
fn is_continuation(byte: u8) -> bool
    ensures { result ≡ is_continuation byte }
{
    byte >= 128 && byte <= 191
}

fn one_more(count: usize) -> u32
    ensures { result ≡ min (count + 1) u32.MAX }
{
    if count < u32::MAX as usize {
        count as u32 + 1
    } else {
        u32::MAX
    }
}
