//! What is requested of a session, and what it answers.
ghost use Rattle.std.specs.Prelude.{◌≡◌, Ok, true};

use bz_command_syntax::Command;
use bz_items::Text;
use bz_label::Target;
use bz_value::Refusal;

/// What is requested of a session. It borrows its command and target, so that one command serves all targets with no copy.
#[derive(Clone, Copy)]
pub enum Action<'a> {
    /// The command, on the rules of the present text that the target means.
    Do(&'a Command, &'a Target),
    /// The whole file is tidied and laid out.
    Format,
    /// Back by this many steps.
    Undo(u32),
    /// Forward by this many steps.
    Redo(u32),
}

/// What a session answers.
#[derive(Debug, Drop)]
pub enum Reply {
    /// There is a new text, and it is the present one.
    Changed,
    /// The text is as it was.
    Same,
    /// The text is as it was, and this is printed.
    Printed(Text),
    /// Another text of the history is the present one; at 0 steps the same.
    Moved,
}

/// Whether it is answered that the text is another one.
pub(crate) fn is_changed(answer: &Result<Reply, Refusal>) -> bool
    ensures yes { result ≡ true → answer.now ≡ Ok Reply.Changed }
    ensures no { answer.now ≡ Ok Reply.Changed → result ≡ true }
{
    matches!(answer, Ok(Reply::Changed))
}
