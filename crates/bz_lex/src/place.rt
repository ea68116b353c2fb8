ghost use Rattle.std.specs.Prelude.{◌≡◌, ◌<◌, ◌^◌, ◌↔◌, IsTrue};
ghost use Rattle.bz_lex.specs.Places.{after_token, is_closing, is_opening, deeper, same_depth, shallower, open_brackets, newlines_at};

use bz_token::Class;

/// Where a leaf is in a file.
#[derive(Clone, Copy)]
pub enum Place {
    /// Before the first token of a line: at the start of the text or after a newline.
    Fresh,
    /// After a token of a line, outside brackets.
    After,
    /// Inside brackets, with this many open brackets around them.
    Inside(usize),
    /// After the newline that is no byte, at the end of the text.
    Last,
    /// After the end.
    Over,
}

impl Place {
    /// Whether the end was read.
    pub fn is_over(self) -> bool
        ensures { IsTrue result ↔ (self ≡ Place.Over) }
    {
        matches!(self, Place::Over)
    }

    /// The place after a token of this class.
    #[inline(always)]
    pub fn after_token(self, class: Class, token: &[u8]) -> Place
        requires { open_brackets self < 2 ^ 64 }
        ensures { result ≡ after_token class token.now self }
    {
        match class {
            Class::Newline => {
                if token.is_empty() {
                    Place::Last
                } else {
                    Place::Fresh
                }
            }
            Class::End => Place::Over,
            Class::Mark => {
                if is_opening(token) {
                    self.deeper()
                } else if is_closing(token) {
                    self.shallower()
                } else {
                    self.same_depth()
                }
            }
            _ => self.same_depth(),
        }
    }

    /// Whether unescaped newlines may be in the gap of a leaf here.
    pub fn newlines(self) -> bool
        ensures { result ≡ newlines_at self }
    {
        !matches!(self, Place::After)
    }

    /// After a token of a line that is no bracket.
    fn same_depth(self) -> Place
        ensures { result ≡ same_depth self }
    {
        match self {
            Place::Inside(depth) => Place::Inside(depth),
            _ => Place::After,
        }
    }

    /// After an opening bracket.
    fn deeper(self) -> Place
        requires { open_brackets self < 2 ^ 64 }
        ensures { result ≡ deeper self }
    {
        match self {
            Place::Inside(depth) => Place::Inside(depth + 1),
            _ => Place::Inside(0),
        }
    }

    /// After a closing bracket.
    fn shallower(self) -> Place
        ensures { result ≡ shallower self }
    {
        match self {
            Place::Inside(0) => Place::After,
            Place::Inside(depth) => Place::Inside(depth - 1),
            _ => Place::After,
        }
    }
}

fn is_opening(token: &[u8]) -> bool
    ensures { result ≡ is_opening token.now }
{
    matches!(token, [b'(' | b'[' | b'{'])
}

fn is_closing(token: &[u8]) -> bool
    ensures { result ≡ is_closing token.now }
{
    matches!(token, [b')' | b']' | b'}'])
}
