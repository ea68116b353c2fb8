//! How the nodes of each kind are kept, and which tokens are operators.
ghost use Rattle.std.specs.Prelude.{◌≡◌, ◌≤◌};
ghost use Rattle.bz_value.specs.Frames.{frame, has_brackets, is_binary, is_compound, is_comprehension, is_header, is_statement, lead};
ghost use Rattle.bz_value.specs.Proper.{is_operator_class};

use bz_grammar::{Class, Kind};

/// Whether a node of the kind holds a sequence between brackets.
pub fn is_sequence(kind: Kind) -> bool
    ensures { result ≡ has_brackets (frame kind) }
{
    matches!(
        kind,
        Kind::Call | Kind::Load | Kind::Tuple | Kind::List | Kind::Dict | Kind::Def
    )
}

/// Whether a form of the kind is a suite with its header.
pub fn is_suite(kind: Kind) -> bool
    ensures { result ≡ is_compound (frame kind) }
{
    matches!(kind, Kind::Suite)
}

/// Whether a form of the kind is the header of a suite.
pub fn is_header(kind: Kind) -> bool
    ensures { result ≡ is_header kind }
{
    matches!(kind, Kind::Def | Kind::IfStmt | Kind::ForStmt)
}

/// How many parts are before the opening bracket of a sequence.
pub fn lead_of(kind: Kind) -> usize
    ensures value { result ≡ lead kind }
    ensures small { result ≤ 2 }
{
    match kind {
        Kind::Call | Kind::Load => 1,
        Kind::Def => 2,
        _ => 0,
    }
}

/// Whether a node of the kind has operators that may break.
pub fn is_binary(kind: Kind) -> bool
    ensures { result ≡ is_binary kind }
{
    matches!(
        kind,
        Kind::Or
            | Kind::And
            | Kind::Compare
            | Kind::BitOr
            | Kind::Xor
            | Kind::BitAnd
            | Kind::Shift
            | Kind::Sum
            | Kind::Product
    )
}

/// Whether a node of the kind is a comprehension, which may be open.
pub fn is_comprehension(kind: Kind) -> bool
    ensures { result ≡ is_comprehension kind }
{
    matches!(kind, Kind::ListComp | Kind::DictComp)
}

/// Whether a node of the kind is a statement.
pub fn is_statement(kind: Kind) -> bool
    ensures { result ≡ is_statement kind }
{
    matches!(kind, Kind::Bare | Kind::Assign | Kind::Load)
}

/// Whether a token of the class is an operator, in a row of operands and operators.
pub fn is_operator_class(class: Class) -> bool
    ensures { result ≡ is_operator_class class }
{
    matches!(class, Class::Mark | Class::Keyword)
}
