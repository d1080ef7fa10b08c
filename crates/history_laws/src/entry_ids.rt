//! What a written EntryID is refused by (IEC 61850-7-2, BRCB attribute EntryID).

ghost use Rattle.history_laws.specs.EntryIds.{EntryIdsAreNamed};

/// An EntryID of eight octets is refused as temporarily unavailable where the block is reserved for another address or enabled, else
/// as an invalid value where it names neither zero nor a retained entry, and by nothing else.
pub fn entry_ids_are_named_or_refused()
    ensures { EntryIdsAreNamed }
{}
