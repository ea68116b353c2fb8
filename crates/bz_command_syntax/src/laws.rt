//! Facts about the definitions, for readers: the functions do nothing.
ghost use Rattle.bz_command_syntax.specs.Identifiers.{IdentifiersAreNames};
ghost use Rattle.bz_command_syntax.specs.Patterns.{TextStaysText};
ghost use Rattle.bz_command_syntax.specs.Worked.{WorkedCommands, WorkedIdentifiers, WorkedStrings, WorkedTemplates, WorkedWords};

/// An identifier is a lexeme of class Name, and each such lexeme is one.
#[tactic(auto, using(crate::proofs::NameTests::identifiers_are_names))]
pub fn identifiers_are_names()
    ensures { IdentifiersAreNames }
{}

/// Worked rows: texts and their words.
pub fn worked_words()
    ensures { WorkedWords }
{}

/// Worked rows: what is an identifier, and what is a kind.
pub fn worked_identifiers()
    ensures { WorkedIdentifiers }
{}

/// Worked rows: texts and the commands that they are.
pub fn worked_commands()
    ensures { WorkedCommands }
{}

/// Worked rows: words as strings.
pub fn worked_strings()
    ensures { WorkedStrings }
{}

/// Worked rows: what templates name.
pub fn worked_templates()
    ensures { WorkedTemplates }
{}

/// What a substitution makes of a text is a text.
#[tactic(auto, using(crate::proofs::PlainTexts::substituted_utf8))]
pub fn text_stays_text()
    ensures { TextStaysText }
{}
