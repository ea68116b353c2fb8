//! Marks in comments.
ghost use Rattle.std.specs.Prelude.{◌≡◌, map};
ghost use Rattle.std.specs.Char.{to_ascii_lowercase};
ghost use Rattle.bz_passes.specs.Lists.{any_marked as marked_in_any, begins_with, is_marked as marked};

use bz_items::Text;

/// Whether the text begins with the mark, capital letters of ASCII being as good as small ones.
fn begins(mark: &[u8], text: &[u8]) -> bool
    ensures { result ≡ begins_with mark.now (map to_ascii_lowercase text.now) }
{
    let mut left = mark;
    let mut rest = text;
    while let [wanted, wanted_after @ ..] = left {
        match rest {
            [first, following @ ..] if first.to_ascii_lowercase() == *wanted => {
                left = wanted_after;
                rest = following;
            }
            _ => return false,
        }
    }
    true
}

/// Whether the mark is in the comment, capital letters of ASCII being as good as small ones.
pub(crate) fn is_marked(mark: &[u8], comment: &[u8]) -> bool
    ensures { result ≡ marked mark.now comment.now }
{
    let mut rest = comment;
    while let [_, following @ ..] = rest {
        if begins(mark, rest) {
            return true;
        }
        rest = following;
    }
    false
}

/// Whether the mark is in one of the comments. It is sought ignoring the case of ASCII letters, and has small ones.
pub(crate) fn any_marked(mark: &[u8], comments: &[Text]) -> bool
    ensures { result ≡ marked_in_any mark.now comments.now }
{
    comments
        .iter()
        .any(|comment| is_marked(mark, comment.as_slice()))
}
