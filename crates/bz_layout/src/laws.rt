ghost use Rattle.bz_layout.specs.Appended.{DepthsJoin, LayoutsJoin};
ghost use Rattle.bz_layout.specs.Laws.{BuildLayoutIsBuild, FlagsKeepLayout, FlagsKeepLayoutIn, LayoutIsAccepted, LayoutIsAcceptedIn, LayoutIsTooDeep, LayoutIsTooDeepIn, LayoutReadsBack, LayoutReadsBackIn};
ghost use Rattle.bz_layout.specs.Rows.{WorkedRows, WrittenRows};
ghost use Rattle.bz_layout.specs.declared.breaks.Lines.{Lines};

/// Settling the flags of a file value leaves its layout and the tree of it as they are, and keeps
/// it proper.
pub fn flags_keep_layout()
    ensures { FlagsKeepLayout }
{}

/// The same with any lines.
pub fn flags_keep_layout_in()
    ensures { (lines : Lines) → FlagsKeepLayoutIn lines }
{}

/// The layout of a proper file value reads as its tree, where it is within the limits of length and depth.
#[tactic(auto, using(crate::proofs::Accepting::accepted))]
pub fn layout_is_accepted()
    ensures { LayoutIsAccepted }
{}

/// The same with any lines.
#[tactic(auto, using(crate::proofs::Accepting::accepted))]
pub fn layout_is_accepted_in()
    ensures { (lines : Lines) → LayoutIsAcceptedIn lines }
{}

/// The tree of the layout of a BUILD file's value is one of a BUILD file.
#[tactic(auto, using(crate::proofs::BuildLaid::build_laid_out))]
pub fn build_layout_is_build()
    ensures { BuildLayoutIsBuild }
{}

/// No tree is read of the layout of a proper file value whose own tree is too deep.
#[tactic(auto, using(crate::proofs::Accepting::too_deep))]
pub fn layout_is_too_deep()
    ensures { LayoutIsTooDeep }
{}

/// The same with any lines.
#[tactic(auto, using(crate::proofs::Accepting::too_deep))]
pub fn layout_is_too_deep_in()
    ensures { (lines : Lines) → LayoutIsTooDeepIn lines }
{}

/// The tree of the layout of a proper file value has that value, with its flags settled, as its view.
#[tactic(auto, using(crate::proofs::BackFiles::items_read_back))]
pub fn layout_reads_back()
    ensures { LayoutReadsBack }
{}

/// The same with any lines.
#[tactic(auto, using(crate::proofs::BackFiles::items_read_back))]
pub fn layout_reads_back_in()
    ensures { (lines : Lines) → LayoutReadsBackIn lines }
{}

/// The layout of items after others is their own, after that of the others and the blank line between.
#[tactic(auto, using(crate::proofs::Appending::layouts_join, crate::proofs::Appending::depths_join))]
pub fn layouts_join()
    ensures text { LayoutsJoin }
    ensures depth { DepthsJoin }
{}

/// Small file values have the layout that they are to have, byte for byte; and the flags of some are settled as they are to be.
pub fn worked_rows()
    ensures { WorkedRows }
{}

/// The same of lines as they were written.
pub fn written_rows()
    ensures { WrittenRows }
{}
