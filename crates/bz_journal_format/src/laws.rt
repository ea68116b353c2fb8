//! Laws of records: the contract of each function is a law, and there is nothing to run.
ghost use Rattle.std.specs.Prelude.{◌≡◌, ℕ, List};
ghost use Rattle.sha2.specs.Sha256.{sha256};
ghost use Rattle.bz_journal_format.specs.Spellings.{IsDigest};
ghost use Rattle.bz_journal_format.specs.declared.content.Record.{Record};
ghost use Rattle.bz_journal_format.specs.declared.content.Version.{Version};
ghost use Rattle.bz_journal_format.specs.Texts.{IsOtherVersion, IsRecord, record_text};
ghost use Rattle.bz_journal_format.specs.Worked.{EmptySession, UndoneSession};

/// No bytes are those of two records.
pub fn one_record()
    ensures { (v w : Version) (depth : ℕ) (q r : Record) → IsRecord v depth q → IsRecord w depth r → record_text v q ≡ record_text w r → (v ≡ w) × (q ≡ r) }
{}

/// The first line of a record names no other version.
pub fn own_version()
    ensures { (v : Version) (r : Record) → IsOtherVersion (record_text v r) → ⊥ }
{}

/// The digest of a text may be in a record.
pub fn digests_fit()
    ensures { (m : List ℕ) → IsDigest (sha256 m) }
{}

/// A worked row: the journals of a session that did nothing over an empty text, in both versions.
pub fn empty_session()
    ensures { EmptySession }
{}

/// A worked row: the journals of a session that added a rule to an empty text and undid it, in both versions.
pub fn undone_session()
    ensures { UndoneSession }
{}
