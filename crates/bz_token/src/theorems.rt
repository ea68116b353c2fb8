ghost use Rattle.bz_token.specs.Characters.{ByCharacters};
ghost use Rattle.bz_token.specs.Laws.{OneToken, Begins, Separated, Single, EachMark, EachKeyword, EachNumber, Cuts, ClassOfNumber, OpensAfterPrefix};

/// No text begins with two tokens: neither of two classes nor of two lengths.
pub fn one_token()
    ensures { OneToken }
{}

/// A token begins with a byte that goes on with no gap.
pub fn begins()
    ensures { Begins }
{}

/// A lexeme is a token before a space, a newline, a bracket or a comma.
pub fn separated()
    ensures { Separated }
{}

/// A bracket or a comma is a token before any text.
pub fn single()
    ensures { Single }
{}

/// Each mark of the table is a token of class Mark before a newline.
pub fn each_mark()
    ensures { EachMark }
{}

/// Each keyword of the table is a token of class Keyword before a newline.
pub fn each_keyword()
    ensures { EachKeyword }
{}

/// Numbers of each form are tokens of class Number before a newline.
pub fn each_number()
    ensures { EachNumber }
{}

/// `1..real` is cut as `1.` `.` `real`, and `1.real` as `1.` `real`.
pub fn cuts()
    ensures { Cuts }
{}

/// The bytes of a text are a lexeme of a class just where its characters are.
pub fn by_characters()
    ensures { ByCharacters }
{}

/// Each class is the class of its number.
pub fn class_of_number()
    ensures { ClassOfNumber }
{}

/// A token at which a string begins that is not closed is its prefix: after it is a quotation mark, and no token begins there.
pub fn opens_after_prefix()
    ensures { OpensAfterPrefix }
{}
