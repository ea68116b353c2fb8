ghost use Rattle.std.specs.Prelude.{◌≡◌, IsTrue, IfSome, Some, None};
ghost use Rattle.bz_token.specs.Bytes.{among, is_digit, is_hexadecimal, is_octal, is_e, is_x, is_o, is_sign, is_high, is_letter};
ghost use Rattle.bz_token.specs.private.Scanner.{lone_marks, operator_marks, mark_start, number_start, text_start, quote_or_word, word_move, high_move, zero_move, whole_move, fraction_move, exponent_move, doubled_move, quote_byte, short_move, long_move, move, ends, may_end, is_in_string};

use crate::Class;

/// A quotation mark: `'` or `"`.
#[derive(Clone, Copy)]
pub enum Quote {
    Single,
    Double,
}

impl Quote {
    pub fn byte(self) -> u8
        ensures { result ≡ quote_byte self }
    {
        match self {
            Quote::Single => b'\'',
            Quote::Double => b'"',
        }
    }
}

/// How far a lexeme has been read.
#[derive(Clone, Copy)]
pub enum State {
    Start,
    Word,
    PrefixR,
    PrefixB,
    PrefixBoth,
    /// After EF, EF BB, and EF with another byte: U+FEFF, which is EF BB BF, is no letter.
    High,
    HighMark,
    HighOther,
    Zero,
    Whole,
    HexMark,
    Hex,
    OctMark,
    Oct,
    Point,
    Fraction,
    ExponentMark,
    ExponentSign,
    Exponent,
    /// After one mark, and after two: a third one opens a text of three.
    Opened(Quote),
    Empty(Quote),
    Short(Quote),
    ShortTaken(Quote),
    ShortReturn(Quote),
    Long(Quote),
    LongOne(Quote),
    LongTwo(Quote),
    LongTaken(Quote),
    Closed,
    Star,
    Slash,
    Less,
    Greater,
    Bang,
    /// After a mark that may still be followed by `=`.
    Operator,
    /// After a mark with which no longer one begins.
    Ended,
}

impl State {
    /// The class of a text that ends here; a keyword is a Name here.
    pub fn class(self) -> Option<Class>
        ensures { result ≡ ends self }
    {
        match self {
            State::Word | State::PrefixR | State::PrefixB | State::PrefixBoth => Some(Class::Name),
            State::Zero
            | State::Whole
            | State::Hex
            | State::Oct
            | State::Fraction
            | State::Exponent => Some(Class::Number),
            State::Empty(_) | State::Closed => Some(Class::String),
            State::Point
            | State::Star
            | State::Slash
            | State::Less
            | State::Greater
            | State::Operator
            | State::Ended => Some(Class::Mark),
            _ => None,
        }
    }

    /// Whether a lexeme may end here.
    pub fn may_end(self) -> bool
        ensures { result ≡ may_end self }
    {
        self.class().is_some()
    }

    /// Whether a string was begun that is not closed here.
    pub fn is_in_string(self) -> bool
        ensures { result ≡ is_in_string self }
    {
        matches!(
            self,
            State::Opened(_)
                | State::Short(_)
                | State::ShortTaken(_)
                | State::ShortReturn(_)
                | State::Long(_)
                | State::LongOne(_)
                | State::LongTwo(_)
                | State::LongTaken(_)
        )
    }

    /// Whether the state after one more byte is surely the same; of most states this is not known before the step.
    pub fn stays(self, byte: u8) -> bool
        ensures { IsTrue result → move self byte ≡ Some self }
    {
        match self {
            State::Word => word_stays(byte),
            State::Short(quote) => short_stays(quote, byte),
            State::Long(quote) => long_stays(quote, byte),
            _ => false,
        }
    }

    /// The state after one more byte; `None` where no lexeme goes on with it.
    pub fn step(self, byte: u8) -> Option<State>
        ensures { result ≡ move self byte }
    {
        match self {
            State::Start => start_step(byte),
            State::Word => word_step(byte),
            State::PrefixR if byte == b'b' => Some(State::PrefixBoth),
            State::PrefixB if byte == b'r' => Some(State::PrefixBoth),
            State::PrefixR | State::PrefixB | State::PrefixBoth => quote_or_word(byte),
            State::High => high_step(byte),
            State::HighMark => (byte != 0xBF && high(byte)).then_some(State::Word),
            State::HighOther => high(byte).then_some(State::Word),
            State::Zero => zero_step(byte),
            State::Whole => whole_step(byte),
            State::HexMark | State::Hex => hexadecimal(byte).then_some(State::Hex),
            State::OctMark | State::Oct => octal(byte).then_some(State::Oct),
            State::Point => digit(byte).then_some(State::Fraction),
            State::Fraction => fraction_step(byte),
            State::ExponentMark => exponent_step(byte),
            State::ExponentSign | State::Exponent => digit(byte).then_some(State::Exponent),
            State::Opened(quote) if byte == quote.byte() => Some(State::Empty(quote)),
            State::Empty(quote) => (byte == quote.byte()).then_some(State::Long(quote)),
            State::ShortReturn(quote) if byte == b'\n' => Some(State::Short(quote)),
            State::Opened(quote) | State::Short(quote) | State::ShortReturn(quote) => {
                short_step(quote, byte)
            }
            State::ShortTaken(quote) if byte == b'\r' => Some(State::ShortReturn(quote)),
            State::ShortTaken(quote) => Some(State::Short(quote)),
            State::Long(quote) => long_step(State::LongOne(quote), quote, byte),
            State::LongOne(quote) => long_step(State::LongTwo(quote), quote, byte),
            State::LongTwo(quote) => long_step(State::Closed, quote, byte),
            State::LongTaken(quote) => Some(State::Long(quote)),
            State::Star => (byte == b'*' || byte == b'=').then_some(State::Ended),
            State::Slash => doubled_step(b'/', byte),
            State::Less => doubled_step(b'<', byte),
            State::Greater => doubled_step(b'>', byte),
            State::Bang | State::Operator => (byte == b'=').then_some(State::Ended),
            State::Closed | State::Ended => None,
        }
    }
}

fn digit(byte: u8) -> bool
    ensures { result ≡ is_digit byte }
{
    byte >= b'0' && byte <= b'9'
}

fn octal(byte: u8) -> bool
    ensures { result ≡ is_octal byte }
{
    byte >= b'0' && byte <= b'7'
}

fn hexadecimal(byte: u8) -> bool
    ensures { result ≡ is_hexadecimal byte }
{
    digit(byte) || byte >= b'A' && byte <= b'F' || byte >= b'a' && byte <= b'f'
}

fn exponent(byte: u8) -> bool
    ensures { result ≡ is_e byte }
{
    byte == b'E' || byte == b'e'
}

fn hexadecimal_mark(byte: u8) -> bool
    ensures { result ≡ is_x byte }
{
    byte == b'X' || byte == b'x'
}

fn octal_mark(byte: u8) -> bool
    ensures { result ≡ is_o byte }
{
    byte == b'O' || byte == b'o'
}

fn sign(byte: u8) -> bool
    ensures { result ≡ is_sign byte }
{
    byte == b'+' || byte == b'-'
}

fn high(byte: u8) -> bool
    ensures { result ≡ is_high byte }
{
    byte >= 128
}

fn letter(byte: u8) -> bool
    ensures { result ≡ is_letter byte }
{
    byte >= b'A' && byte <= b'Z' || byte >= b'a' && byte <= b'z' || byte == b'_' || high(byte)
}

#[inline(always)]
fn lone_mark(byte: u8) -> bool
    ensures { result ≡ among byte lone_marks }
{
    matches!(
        byte,
        b'~' | b',' | b';' | b':' | b'(' | b')' | b'[' | b']' | b'{' | b'}'
    )
}

#[inline(always)]
fn operator_mark(byte: u8) -> bool
    ensures { result ≡ among byte operator_marks }
{
    matches!(byte, b'+' | b'-' | b'%' | b'&' | b'|' | b'^' | b'=')
}

/// The state after the first byte.
#[inline(always)]
pub fn start_step(byte: u8) -> Option<State>
    ensures { result ≡ move State.Start byte }
{
    if let Some(state) = common_start(byte) {
        return Some(state);
    }
    if let Some(state) = mark_start(byte) {
        return Some(state);
    }
    if let Some(state) = number_start(byte) {
        return Some(state);
    }
    text_start(byte)
}

/// The state after a small letter that begins no prefix of a string, or after a double quote: most names and strings begin so.
/// `None` says nothing.
#[inline(always)]
fn common_start(byte: u8) -> Option<State>
    ensures { IfSome result (λ state. move State.Start byte ≡ Some state) }
{
    if byte > b'b' && byte <= b'z' && byte != b'r' {
        Some(State::Word)
    } else {
        (byte == b'"').then_some(State::Opened(Quote::Double))
    }
}

#[inline(always)]
fn mark_start(byte: u8) -> Option<State>
    ensures { result ≡ mark_start byte }
{
    if lone_mark(byte) {
        Some(State::Ended)
    } else if operator_mark(byte) {
        Some(State::Operator)
    } else {
        match byte {
            b'*' => Some(State::Star),
            b'/' => Some(State::Slash),
            b'<' => Some(State::Less),
            b'>' => Some(State::Greater),
            b'!' => Some(State::Bang),
            _ => None,
        }
    }
}

#[inline(always)]
fn number_start(byte: u8) -> Option<State>
    ensures { result ≡ number_start byte }
{
    if byte == b'0' {
        Some(State::Zero)
    } else if digit(byte) {
        Some(State::Whole)
    } else {
        (byte == b'.').then_some(State::Point)
    }
}

#[inline(always)]
fn text_start(byte: u8) -> Option<State>
    ensures { result ≡ text_start byte }
{
    match byte {
        b'r' => Some(State::PrefixR),
        b'b' => Some(State::PrefixB),
        b'"' => Some(State::Opened(Quote::Double)),
        b'\'' => Some(State::Opened(Quote::Single)),
        0xEF => Some(State::High),
        _ => letter(byte).then_some(State::Word),
    }
}

/// The state after one more byte in a word.
pub fn word_step(byte: u8) -> Option<State>
    ensures { result ≡ word_move byte }
{
    if byte == 0xEF {
        Some(State::High)
    } else {
        (letter(byte) || digit(byte)).then_some(State::Word)
    }
}

fn word_stays(byte: u8) -> bool
    ensures { IsTrue result → word_move byte ≡ Some State.Word }
{
    byte >= b'a' && byte <= b'z' || byte != 0xEF && (letter(byte) || digit(byte))
}

fn short_stays(quote: Quote, byte: u8) -> bool
    ensures { IsTrue result → short_move quote byte ≡ Some (State.Short quote) }
{
    byte > b'\\' || byte != quote.byte() && byte != b'\\' && byte != b'\n'
}

fn long_stays(quote: Quote, byte: u8) -> bool
    ensures { IsTrue result → long_move (State.LongOne quote) quote byte ≡ Some (State.Long quote) }
{
    byte > b'\\' || byte != quote.byte() && byte != b'\\'
}

fn quote_or_word(byte: u8) -> Option<State>
    ensures { result ≡ quote_or_word byte }
{
    match byte {
        b'"' => Some(State::Opened(Quote::Double)),
        b'\'' => Some(State::Opened(Quote::Single)),
        _ => word_step(byte),
    }
}

fn high_step(byte: u8) -> Option<State>
    ensures { result ≡ high_move byte }
{
    if byte == 0xBB {
        Some(State::HighMark)
    } else {
        high(byte).then_some(State::HighOther)
    }
}

fn zero_step(byte: u8) -> Option<State>
    ensures { result ≡ zero_move byte }
{
    if digit(byte) {
        Some(State::Whole)
    } else if byte == b'.' {
        Some(State::Fraction)
    } else if exponent(byte) {
        Some(State::ExponentMark)
    } else if hexadecimal_mark(byte) {
        Some(State::HexMark)
    } else {
        octal_mark(byte).then_some(State::OctMark)
    }
}

fn whole_step(byte: u8) -> Option<State>
    ensures { result ≡ whole_move byte }
{
    if digit(byte) {
        Some(State::Whole)
    } else if byte == b'.' {
        Some(State::Fraction)
    } else {
        exponent(byte).then_some(State::ExponentMark)
    }
}

fn fraction_step(byte: u8) -> Option<State>
    ensures { result ≡ fraction_move byte }
{
    if digit(byte) {
        Some(State::Fraction)
    } else {
        exponent(byte).then_some(State::ExponentMark)
    }
}

fn exponent_step(byte: u8) -> Option<State>
    ensures { result ≡ exponent_move byte }
{
    if digit(byte) {
        Some(State::Exponent)
    } else {
        sign(byte).then_some(State::ExponentSign)
    }
}

fn doubled_step(mark: u8, byte: u8) -> Option<State>
    ensures { result ≡ doubled_move mark byte }
{
    if byte == mark {
        Some(State::Operator)
    } else {
        (byte == b'=').then_some(State::Ended)
    }
}

fn short_step(quote: Quote, byte: u8) -> Option<State>
    ensures { result ≡ short_move quote byte }
{
    if byte == quote.byte() {
        Some(State::Closed)
    } else if byte == b'\\' {
        Some(State::ShortTaken(quote))
    } else {
        (byte != b'\n').then_some(State::Short(quote))
    }
}

/// `more` is the state after one more mark.
fn long_step(more: State, quote: Quote, byte: u8) -> Option<State>
    ensures { result ≡ long_move more quote byte }
{
    if byte == quote.byte() {
        Some(more)
    } else if byte == b'\\' {
        Some(State::LongTaken(quote))
    } else {
        Some(State::Long(quote))
    }
}
