//! The innermost bracket that is open at a place of a text. It takes no memory.
ghost use Rattle.std.specs.Prelude.{◌≡◌, ◌<◌, ◌≤◌, ◌+◌, ◌^◌, ◌∷◌, []};
ghost use Rattle.std.specs.List.{slice_get};
ghost use Rattle.bz_lex.specs.Places.{is_closing, is_opening};
ghost use Rattle.bz_lex.specs.Positions.{is_newline};
ghost use Rattle.bz_streams.specs.Brackets.{Scan, first_scan, in_text, is_outside, brackets_after, brackets_at, outside, scan_after, within_after};
ghost use Rattle.bz_streams.specs.private.Search.{AreOpen, IsSearch};

use crate::beginning::{is_continuation, is_quotation_mark};

/// Where a byte of a text is.
#[derive(Clone, Copy)]
pub(crate) enum Within {
    /// In no string and no comment.
    Outside,
    Comment,
    /// After one quotation mark that begins a string, or after two, which are a string or the front of three.
    Marks {
        mark: u8,
        count: u8,
    },
    /// In a string between one such mark or, where it is long, three. Of them `marks` are right before, or a backslash is.
    Text {
        mark: u8,
        long: bool,
        marks: u8,
        escaped: bool,
    },
}

/// A bracket, and its place in a text.
#[derive(Clone, Copy)]
pub(crate) struct Bracket {
    pub byte: u8,
    pub line: usize,
    pub column: usize,
}

// The last bracket is sought that is at a depth, the outermost ones being at 1.
#[derive(Clone, Copy)]
pub(crate) struct Search {
    within: Within,
    line: usize,
    column: usize,
    // how many brackets are open
    depth: usize,
    wanted: usize,
    // the last one that was opened at that depth
    found: Option<Bracket>,
}

fn outside(byte: u8) -> Within
    ensures { result ≡ outside byte }
{
    if is_quotation_mark(byte) {
        return Within::Marks {
            mark: byte,
            count: 1,
        };
    }
    if byte == b'#' {
        Within::Comment
    } else {
        Within::Outside
    }
}

fn text(mark: u8, long: bool, marks: u8, escaped: bool) -> Within
    ensures { result ≡ Within.Text mark long marks escaped }
{
    Within::Text {
        mark,
        long,
        marks,
        escaped,
    }
}

fn in_text(mark: u8, long: bool, marks: u8, byte: u8) -> Within
    ensures { result ≡ in_text mark long marks byte }
{
    if byte == b'\\' {
        return text(mark, long, 0, true);
    }
    if byte != mark {
        return text(mark, long, 0, false);
    }
    if long && marks < 2 {
        text(mark, long, marks + 1, false)
    } else {
        Within::Outside
    }
}

fn after_marks(mark: u8, count: u8, byte: u8) -> Within
    ensures { result ≡ within_after (Within.Marks mark count) byte }
{
    if byte == mark {
        return if count == 1 {
            Within::Marks { mark, count: 2 }
        } else {
            text(mark, true, 0, false)
        };
    }
    if count == 1 {
        in_text(mark, false, 0, byte)
    } else {
        outside(byte)
    }
}

impl Within {
    /// Where the byte after this one is.
    pub(crate) fn after(self, byte: u8) -> Within
        ensures { result ≡ within_after self byte }
    {
        match self {
            Within::Outside => outside(byte),
            Within::Comment => {
                if byte == b'\n' {
                    Within::Outside
                } else {
                    Within::Comment
                }
            }
            Within::Marks { mark, count } => after_marks(mark, count, byte),
            Within::Text {
                mark,
                long,
                marks,
                escaped,
            } => {
                if escaped {
                    text(mark, long, 0, false)
                } else {
                    in_text(mark, long, marks, byte)
                }
            }
        }
    }

    /// Whether it is in no string and no comment.
    pub(crate) fn is_outside(self) -> bool
        ensures { result ≡ is_outside self }
    {
        matches!(self, Within::Outside)
    }
}

fn is_opening(byte: u8) -> bool
    ensures { result ≡ is_opening (byte ∷ []) }
{
    byte == b'(' || (byte == b'[' || byte == b'{')
}

fn is_closing(byte: u8) -> bool
    ensures { result ≡ is_closing (byte ∷ []) }
{
    byte == b')' || (byte == b']' || byte == b'}')
}

impl Search {
    fn new(wanted: usize) -> Search
        ensures search { IsSearch result first_scan }
        ensures wanted { result.wanted ≡ wanted }
        ensures first { (result.line ≡ 1) × (result.column ≡ 1) × (result.depth ≡ 0) }
    {
        Search {
            within: Within::Outside,
            line: 1,
            column: 1,
            depth: 0,
            wanted,
            found: None,
        }
    }

    // Opens a bracket.
    fn opened(self, byte: u8) -> Search
        requires { self.depth < 2 ^ 63 }
        ensures same { result ≡ record self { depth = result.depth; found = result.found } }
        ensures brackets { (scan : Scan) → IsSearch self scan → AreOpen result (record { byte = byte; line = scan.line; column = scan.column } ∷ scan.brackets) }
        ensures depth { result.depth ≡ self.depth + 1 }
    {
        let mut search = self;
        search.depth += 1;
        if search.depth == search.wanted {
            search.found = Some(Bracket {
                byte,
                line: search.line,
                column: search.column,
            });
        }
        search
    }

    // Opens or closes a bracket, where the byte is one.
    fn passing(self, byte: u8) -> Search
        requires { self.depth < 2 ^ 63 }
        ensures same { result ≡ record self { depth = result.depth; found = result.found } }
        ensures brackets { (scan : Scan) → IsSearch self scan → AreOpen result (brackets_after scan byte) }
        ensures depth { result.depth ≤ self.depth + 1 }
    {
        if is_opening(byte) {
            return self.opened(byte);
        }
        let mut search = self;
        if is_closing(byte) {
            search.depth = search.depth.saturating_sub(1);
        }
        search
    }

    // After one more byte.
    fn after(self, byte: u8) -> Search
        requires depth { self.depth < 2 ^ 63 }
        requires place { (self.line < 2 ^ 63) × (self.column < 2 ^ 63) }
        ensures search { (scan : Scan) → IsSearch self scan → IsSearch result (scan_after scan byte) }
        ensures wanted { result.wanted ≡ self.wanted }
        ensures depth { result.depth ≤ self.depth + 1 }
        ensures place { (result.line ≤ self.line + 1) × (result.column ≤ self.column + 1) }
    {
        let within = self.within.after(byte);
        let mut search = if within.is_outside() {
            self.passing(byte)
        } else {
            self
        };
        search.within = within;
        if byte == b'\n' {
            search.line += 1;
            search.column = 1;
        } else if !is_continuation(byte) {
            search.column += 1;
        }
        search
    }
}

// Reads up to this place. What is found is the last bracket at the depth that is wanted.
fn search_to(text: &[u8], line: usize, column: usize, wanted: usize) -> Search
    ensures brackets { AreOpen result (brackets_at line column first_scan text.now) }
    ensures wanted { result.wanted ≡ wanted }
{
    let mut search = Search::new(wanted);
    for at in 0..text.len() {
        if search.line == line && search.column == column {
            return search;
        }
        search = search.after(text[at]);
    }
    search
}

/// The innermost bracket that is open at this line and column of a text, which count from 1.
pub(crate) fn bracket_at(text: &[u8], line: usize, column: usize) -> Option<Bracket>
    ensures { result ≡ slice_get (brackets_at line column first_scan text.now) 0 }
{
    let depth = search_to(text, line, column, 0).depth;
    search_to(text, line, column, depth).found
}
