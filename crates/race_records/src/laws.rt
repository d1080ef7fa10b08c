//! The record of a rehearsal is read back, and what comes of a race is known from its scripts. The functions run nothing: their
//! contracts are laws.

ghost use Rattle.race_records.specs.ReadBack.{MergedAreReadBack};
ghost use Rattle.race_records.specs.Known.{VerdictsAreKnown};

/// The record that sound scripts make in a history reads, as any record does, as the given configuration and that history, with
/// each step of the process as actor 0's; and the answers that are written are the text of that record.
pub fn merged_records_are_read_back()
    ensures back { MergedAreReadBack }
{}

/// Where scripts of a sound plan raced and no turn found memory lacking, the lowest line whose turn met a full queue is one at whose request
/// the script's own bound is at least 16; the lowest such line, where no script writes an Oper of a control under enhanced security; and there is
/// none where there is no such line. Where there is none, all turns went.
pub fn verdicts_are_known()
    ensures known { VerdictsAreKnown }
{}
