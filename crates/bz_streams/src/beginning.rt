//! What is at a place of a line, in words.
ghost use Rattle.std.specs.Prelude.{◌≡◌, ◌==◌, ◌≤◌, ◌<◌, ◌+◌, ◌-◌, ◌++◌, length, take, take_while, get_or};
ghost use Rattle.std.specs.List.{list_any, prefix_len};
ghost use Rattle.bz_lex.specs.Positions.{is_continuation};
ghost use Rattle.bz_streams.specs.Beginnings.{from_character, is_quotation_mark, prefix_length, opens_text, is_beyond_ascii, is_word_byte, is_doubled, mark_length, word_beginning, text_beginning, beginning};

/// Words, bytes of a text, and words after them.
pub(crate) type Beginning<'a> = (&'static str, &'a [u8], &'static str);

/// Whether a byte of UTF-8 goes on with a character.
pub(crate) fn is_continuation(byte: u8) -> bool
    ensures { result ≡ is_continuation byte }
{
    byte >= 128 && byte <= 191
}

/// The line from a column on, which counts characters from 1.
pub(crate) fn from_column(line: &[u8], column: usize) -> &[u8]
    ensures { result.now ≡ from_character (column - 1) line.now }
{
    let mut left = column.saturating_sub(1);
    for at in 0..line.len() {
        if !is_continuation(line[at]) {
            if left == 0 {
                return &line[at..];
            }
            left -= 1;
        }
    }
    &[]
}

fn byte_at(text: &[u8], at: usize) -> u8
    ensures { result ≡ get_or text.now at 0 }
{
    if at < text.len() { text[at] } else { 0 }
}

/// Whether a byte is one of the two marks of strings.
pub(crate) fn is_quotation_mark(byte: u8) -> bool
    ensures { result ≡ is_quotation_mark byte }
{
    byte == b'"' || byte == b'\''
}

fn prefix_length(first: u8, second: u8) -> usize
    ensures { result ≡ prefix_length first second }
{
    if (first == b'r' && second == b'b') || (first == b'b' && second == b'r') {
        return 2;
    }
    if first == b'r' || first == b'b' {
        return 1;
    }
    0
}

fn opens_text(text: &[u8]) -> bool
    ensures { result ≡ opens_text text.now }
{
    let prefix = prefix_length(byte_at(text, 0), byte_at(text, 1));
    is_quotation_mark(byte_at(text, prefix))
}

fn is_word_byte(byte: u8) -> bool
    ensures { result ≡ is_word_byte byte }
{
    byte.is_ascii_alphanumeric() || (byte == b'_' || byte >= 128)
}

fn word_length(text: &[u8]) -> usize
    ensures value { result ≡ prefix_len is_word_byte text.now }
    ensures within { result ≤ length text.now }
{
    for at in 0..text.len() {
        if !is_word_byte(text[at]) {
            return at;
        }
    }
    text.len()
}

fn word_front(text: &[u8]) -> &[u8]
    ensures { result.now ≡ take_while is_word_byte text.now }
{
    let length = word_length(text);
    &text[..length]
}

fn has_high(word: &[u8]) -> bool
    ensures { result ≡ list_any is_beyond_ascii word.now }
{
    word.iter().any(|byte| *byte >= 128)
}

fn word_beginning(word: &[u8]) -> Beginning<'_>
    ensures words { result.0.now ++ (result.1.now ++ result.2.now) ≡ word_beginning word.now }
    ensures within { length result.0.now + (length result.1.now + length result.2.now) ≤ 51 }
{
    if has_high(word) {
        return ("a word", &[], "");
    }
    ("the word '", front(word, 40), "'")
}

/// Whether a byte is among these.
pub(crate) fn is_one_of(bytes: &[u8], byte: u8) -> bool
    ensures { result ≡ list_any (λ other. other == byte) bytes.now }
{
    bytes.contains(&byte)
}

fn is_doubled(first: u8, second: u8) -> bool
    ensures { result ≡ is_doubled first second }
{
    second == first && is_one_of(b"*/<>", first)
}

fn mark_length(text: &[u8]) -> usize
    requires { 0 < length text.now }
    ensures value { result ≡ mark_length (get_or text.now 0 0) (get_or text.now 1 0) (get_or text.now 2 0) }
    ensures within { result ≤ 3 }
{
    let second = byte_at(text, 1);
    if is_doubled(text[0], second) {
        if byte_at(text, 2) == b'=' {
            return 3;
        }
        return 2;
    }
    if second == b'=' && is_one_of(b"=!<>+-*/%&|^", text[0]) {
        return 2;
    }
    1
}

// The first bytes, or all where there are fewer.
#[tactic(auto, using(crate::proofs::BeginningSteps::front_cut, crate::proofs::BeginningSteps::whole_front))]
fn front(text: &[u8], count: usize) -> &[u8]
    ensures value { result.now ≡ take count text.now }
    ensures within { length result.now ≤ count }
{
    if count < text.len() {
        &text[..count]
    } else {
        text
    }
}

fn text_beginning(text: &[u8]) -> Beginning<'_>
    requires { 0 < length text.now }
    ensures words { result.0.now ++ (result.1.now ++ result.2.now) ≡ text_beginning text.now (get_or text.now 0 0) }
    ensures within { length result.0.now + (length result.1.now + length result.2.now) ≤ 51 }
{
    let first = text[0];
    if opens_text(text) {
        return ("a string", &[], "");
    }
    if first == b'#' {
        return ("a comment", &[], "");
    }
    if first.is_ascii_digit() {
        return ("a number", &[], "");
    }
    if is_word_byte(first) {
        return word_beginning(word_front(text));
    }
    if first.is_ascii_control() {
        return ("a control character", &[], "");
    }
    ("'", front(text, mark_length(text)), "'")
}

/// What this rest of a line begins with, where the line is the last one or not.
pub(crate) fn beginning(text: &[u8], last: bool) -> Beginning<'_>
    ensures words { result.0.now ++ (result.1.now ++ result.2.now) ≡ beginning text.now last }
    ensures within { length result.0.now + (length result.1.now + length result.2.now) ≤ 51 }
{
    if text.len() == 0 {
        if last {
            return ("the end of the file", &[], "");
        }
        return ("the end of the line", &[], "");
    }
    text_beginning(text)
}
