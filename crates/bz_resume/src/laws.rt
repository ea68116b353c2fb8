//! Laws of journals: the contract of each function is a law, and there is nothing to run.
ghost use Rattle.std.specs.Prelude.{◌≡◌, List, Some};
ghost use Rattle.bz_resume.specs.Words.{Edit, Text};
ghost use Rattle.bz_resume.specs.Journals.{History, Journal, stands, text_at};

/// A history is at its cursor for the text there.
#[tactic(auto, using(crate::proofs::PairStanding::stands_now))]
pub fn reopened()
    ensures { (h : History) → stands h (text_at h h.cursor) ≡ Some h.cursor }
{}

/// No bytes are the journal of two histories, or of two lists of steps.
pub fn one_journal()
    ensures { (bytes : Text) (h : History) (es : List (List Edit)) (g : History) (fs : List (List Edit)) → Journal bytes h es → Journal bytes g fs → (g ≡ h) × (fs ≡ es) }
{}
