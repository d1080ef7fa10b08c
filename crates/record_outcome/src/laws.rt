//! What is answered to a record, by its history.

ghost use Rattle.record_outcome.specs.Written.{TextIsOfHistory};

/// The text of a record's answers is that of its history, for the lines before any line: up to the one with which the reading
/// stops. Every step of that history is accepted after those before it.
pub fn texts_are_of_histories()
    ensures text { TextIsOfHistory }
{}
