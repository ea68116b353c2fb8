//! Facts about the definitions, for readers: the functions do nothing.

ghost use Rattle.bz_rule.specs.Worked.{WorkedBodies};

/// Worked rows: what is a plain string, and its body.
pub fn worked_bodies()
    ensures { WorkedBodies }
{}
