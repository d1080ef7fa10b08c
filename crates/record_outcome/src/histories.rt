//! Laws of records: those of every history, of a record's. What each clause says stands in `specs/Laws.antt`, under its name.

ghost use Rattle.record_outcome.specs.Laws.{RecordsReportNext, RecordsResume, RecordFrontsRise};
ghost use Rattle.record_outcome.specs.Laws.{RecordsRetainWhatFits};

/// A client that writes an EntryID in a record is sent the successors that are retained, each once, in order; the first after
/// unsent entries were discarded is marked.
pub fn records_resume()
    ensures next { RecordsReportNext }
    ensures successors { RecordsResume }
{}

/// The front of a block never falls in a record, and what is above it fits the block's capacity.
pub fn record_fronts()
    ensures rises { RecordFrontsRise }
    ensures fit { RecordsRetainWhatFits }
{}
