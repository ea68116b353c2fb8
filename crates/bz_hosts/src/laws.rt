//! Facts about the definitions, for readers and for the proofs of other crates: the functions do nothing.

ghost use Rattle.bz_hosts.specs.Joined.{EmptyReads, ViewsJoin};
ghost use Rattle.bz_hosts.specs.Kept.{CommentsKept};
ghost use Rattle.bz_hosts.specs.Laws.{BuildViews, HostsByPlace, ViewsAreProper};
ghost use Rattle.bz_hosts.specs.SuitesJoined.{SuitesJoin};
ghost use Rattle.bz_hosts.specs.Worked.{WorkedHosts, WorkedSuites, WorkedViews};

use bz_grammar::laws::lines_join;

/// Each comment of a legal tree is in its file value as often as in the tree's gaps: none is lost or doubled.
pub fn comments_kept()
    ensures { CommentsKept }
{}

/// What a legal tree says is a proper file value.
pub fn views_are_proper()
    ensures { ViewsAreProper }
{}

/// What the tree of a BUILD file says has none of the kinds that BUILD files have not.
pub fn build_views()
    ensures { BuildViews }
{}

/// The view of a text after one that ends with a line is its own, after that of the other one; and that of no text is nothing.
pub fn views_join()
    ensures joined { ViewsJoin }
    ensures empty { EmptyReads }
{
    lines_join();
}

/// What a text says that begins without comments, after a text that ends with a statement, is its own after that of the other one.
pub fn suites_join()
    ensures { SuitesJoin }
{
    lines_join();
}

/// Worked rows of the view: for each a text, its tree, and the file value, or how often its comments occur in it.
pub fn worked_views()
    ensures { WorkedViews }
{}

/// The view of a legal tree has each comment at the host that its place in the whole text gives it, and each suite its end comments.
pub fn hosts_by_place()
    ensures { HostsByPlace }
{}

/// Worked rows: for each a text, its tree, and its comments with their hosts.
pub fn worked_hosts()
    ensures { WorkedHosts }
{}

/// Worked rows of files with suites: for each a text, its tree, and its items; and its comments with their hosts, by their places and
/// by what the tree says.
pub fn worked_suites()
    ensures { WorkedSuites }
{}
