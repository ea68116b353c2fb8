//! Sessions that outlive the run: their journal, and what is resumed of one.
ghost use Rattle.std.specs.Prelude.{◌≡◌, ◌++◌, ◌↔◌, ℕ, List, Err, IfOk, IfErr, OnOk, OnErr, map, option_map, slice_get};
ghost use Rattle.bz_journal.specs.Clauses.{AreSmall, Edit, GoesOn, History, IsAgain, IsKnownSession, IsOtherVersion, IsResumedSession, IsSavedSession, IsSmall, IsStale, Journal, NoJournal, StandsFor, listing, present, saved, session_history, session_trail, sha256};
ghost use Rattle.bz_resume.specs.declared.fault.ResumeFault.TheVariants as f;
ghost use Rattle.bz_resume.specs.Resumed.{IsResumed as WasResumed};

use crate::course::{Course, text_of};
use crate::listing::listed;
use crate::session::Session;
use bz_edit::laws::texts_kept;
use bz_items::{Memory, Text};
use bz_resume::laws::reopened;
use bz_resume::{Content, ResumeFault, Resumed, Saved, resume, save_into};
use std::alloc::Global;

impl Course {
    /// The listing of texts that have these digests. The error: a growth was refused.
    pub(crate) fn listed(&self, alloc: Global, digests: &[[u8; 32]]) -> Result<Text, Memory>
        requires { digests.now ≡ map sha256 (session_history self.now).texts }
        ensures { IfOk result (λ text. text ≡ listing (session_history self.now)) }
    {
        self.holds();
        listed(alloc, self.cursor as usize, self.notes.as_slice(), digests)
    }
}

impl Session {
    /// The note of the step between texts i and i + 1; `None` past the last step.
    pub fn note(&self, i: u32) -> Option<&str>
        ensures { option_map (λ note. note.now) result ≡ slice_get (session_history self.now).notes i }
    {
        let note = bz_items::at(self.notes.as_slice(), i as usize)?;
        Some(str::from_utf8(note.as_slice()).unwrap())
    }

    /// Appends the journal of the session, in version 2. The error: a growth was refused; `out` is then as before.
    pub fn save_into(&self, out: &mut Vec<u8>) -> Result<(), Memory>
        ensures ok { OnOk result (out.new.items ≡ out.old.items ++ saved self.now) }
        ensures err { OnErr result (out.new.items ≡ out.old.items) }

        // It is the journal of its history and steps, also when the steps are small.
        ensures journal { IsSavedSession self.now }
        ensures small { IsSmall (session_trail self.now) → AreSmall (session_history self.now) self.now.steps }
    {
        self.holds();
        let text = text_of(self.present())?;
        let saved = Saved {
            tree: &self.tree,
            content: Content {
                package: self.package.as_bytes(),
                text: text.as_slice(),
                cursor: self.cursor,
                before: self.before,
                digests: self.digests.as_slice(),
                notes: self.notes.as_slice(),
                steps: self.steps.as_slice(),
            },
        };
        save_into(&saved, out)?;
        Ok(())
    }

    /// The session that a journal says, at the text that the file has now: at the cursor where that is the text there, else at
    /// the cursor before. Errors: `Version` exactly where the first line names another version; `Damaged` only where the bytes
    /// are no journal; `Stale` only where they are one, and the file has neither text; `Memory` where a growth was refused.
    pub fn resume(alloc: Global, journal: &[u8], text: &[u8]) -> Result<Session, ResumeFault>
        ensures ok { IfOk result (IsResumedSession journal.now text.now) }
        ensures version { (result ≡ Err f.Version) ↔ IsOtherVersion journal.now }
        ensures damaged { (result ≡ Err f.Damaged) → NoJournal journal.now }
        ensures stale { (result ≡ Err f.Stale) → IsStale journal.now text.now }
        ensures known { (h : History) (es : List (List Edit)) → Journal journal.now h es → IsKnownSession h es text.now result }
    {
        match resume(alloc, journal, text) {
            Ok(resumed) => Session::of_resumed(alloc, resumed),
            Err(fault) => Err(fault),
        }
    }

    /// The session of what was resumed. The error: memory was refused.
    fn of_resumed(alloc: Global, resumed: Resumed) -> Result<Session, ResumeFault>
        requires { (bytes : List ℕ) × (text : List ℕ) × WasResumed bytes text resumed }
        ensures ok { IfOk result (λ session. (h : History) (es : List (List Edit)) (text : List ℕ) → StandsFor h es text resumed → GoesOn h es text session) }
        ensures kinds { IfErr result (λ fault. fault ≡ f.Memory) }
    {
        texts_kept();
        let package = str::from_utf8(resumed.package.as_slice()).unwrap();
        let package = String::from_str(alloc, package)?;
        Ok(Session {
            tree: resumed.tree,
            steps: resumed.steps.into_vec(),
            digests: resumed.digests.into_vec(),
            notes: resumed.notes.into_vec(),
            package,
            cursor: resumed.cursor as u32,
            before: resumed.cursor as u32,
        })
    }

    /// The session, saved and resumed at its own text: the same, but that the present text counts as the one before. Errors:
    /// `Memory`, where a growth was refused, and no other.
    pub fn saved_and_resumed(&self, alloc: Global) -> Result<Session, ResumeFault>
        ensures { IsAgain self.now result }
    {
        reopened();
        let mut journal = Vec::new(alloc);
        self.save_into(&mut journal)?;
        let text = text_of(self.present())?;
        Session::resume(alloc, journal.as_slice(), text.as_slice())
    }
}
