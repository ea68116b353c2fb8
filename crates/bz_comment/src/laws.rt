//! Facts about the definitions, for readers: the functions do nothing.
ghost use Rattle.bz_comment.specs.Laws.{CommentLosesNone, CommentTakenAway, OwnCommentLosesNone, OwnCommentTakenAway, WorkedComments};

/// Worked rows: comments that are made of texts, and comments as they are printed.
pub fn worked_comments()
    ensures { WorkedComments }
{}

/// A comment that was put where there was none, and is taken away again, leaves the arguments as they were.
#[tactic(auto, using(crate::proofs::LawBack::comment_taken_away))]
pub fn comment_taken_away()
    ensures { CommentTakenAway }
{}

/// The same of a rule's own statement.
#[tactic(auto, using(crate::proofs::LawBack::own_comment_taken_away))]
pub fn own_comment_taken_away()
    ensures { OwnCommentTakenAway }
{}

/// A comment that is put takes no comment from the arguments.
#[tactic(auto, using(crate::proofs::LawBack::comment_loses_none))]
pub fn comment_loses_none()
    ensures { CommentLosesNone }
{}

/// The same of a rule's own statement.
#[tactic(auto, using(crate::proofs::LawBack::own_comment_loses_none))]
pub fn own_comment_loses_none()
    ensures { OwnCommentLosesNone }
{}
