//! Facts about the definitions, for readers: the functions do nothing.
ghost use Rattle.bz_command.specs.Laws.{CommentsStay, EffectsStayProper, LinesMatter};
ghost use Rattle.bz_command.specs.Table.{CommandsAreListed};
ghost use Rattle.bz_command.specs.Worked.{WorkedCommandEffects, WorkedEffects};

/// Worked rows: which rules of a small file value a target means.
pub fn worked_effects()
    ensures { WorkedEffects }
{}

/// Worked rows: what each command, as it is typed, makes of small file values and prints of them.
pub fn worked_command_effects()
    ensures { WorkedCommandEffects }
{}

/// What a command that was read makes of a proper file value is a proper file value, by any grammar.
pub fn effects_stay_proper()
    ensures { EffectsStayProper }
{}

/// To a command that doesn't look at lines they may be any.
pub fn lines_matter()
    ensures { LinesMatter }
{}

/// Commands that take nothing away lose no comment.
pub fn comments_stay()
    ensures { CommentsStay }
{}

/// Each command that a text is read as is as one table says: what it works on, whether it prints, whether it looks at the rules
/// that its target means, and whether it loses no comment.
#[tactic(auto, using(crate::proofs::CommandRows::commands_are_listed))]
pub fn commands_are_listed()
    ensures { CommandsAreListed }
{}
