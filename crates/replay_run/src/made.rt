//! Made records: what words ask for one, and how it is written.

ghost use Rattle.std.specs.Prelude.{◌≡◌, ◌≤◌, ℕ, Some, IfSome};
ghost use Rattle.std.specs.Io.KnownBytes.{Appends};
ghost use Rattle.sv_io.specs.Causes.{Rose};
ghost use Rattle.made_records.specs.Texts.{made_record};
ghost use Rattle.replay_run.specs.Made.{Asks};
ghost use Rattle.replay_run.specs.Writing.{IsOfWriting};

use made_records::MadeRecord;
use record_outcome::status::Status;
use std::alloc::Global;
use sv_io::Sink;
use text_words::{number, number_between};

/// The most drawn lines of a record.
const MOST: u32 = 100_000;

/// The made record that words ask for.
#[derive(Clone, Copy, Debug)]
pub struct Asked {
    pub seed: u64,
    /// How many lines are drawn.
    pub count: u32,
}

/// What the words ask for, if they are this one, a seed and a count.
pub fn asked_for(words: &[String], wanted: &str) -> Option<Asked>
    ensures some { IfSome result (λ a. Asks wanted.now words.now a.seed a.count) }
    ensures each { (seed : ℕ) → (count : ℕ) → Asks wanted.now words.now seed count
        → result ≡ Some (record { seed = seed; count = count }) }
{
    let [word, seed, count] = words else {
        return None;
    };
    if word.as_str() != wanted {
        return None;
    }
    let seed = number(seed.as_bytes())?;
    let count = number_between(count.as_bytes(), 1, MOST)?;
    Some(Asked { seed, count })
}

/// Writes a made record. No more than a piece of it is in memory at once.
pub fn generate<K: Sink>(alloc: Global, asked: Asked, sink: &mut K) -> Status
    ensures told { result ≡ Status.Ok → Appends (K.taken sink.old) (K.taken sink.new)
        (made_record asked.seed asked.count) }
    ensures listed { IsOfWriting result }
    ensures write { result ≡ Status.WriteFault → Rose (K.faults sink.old) (K.faults sink.new) }
    ensures later { K.faults sink.old ≤ K.faults sink.new }
{
    let mut record = MadeRecord::new(asked.seed, asked.count);
    let mut piece = Vec::new(alloc);
    while !record.is_empty() {
        let Ok(()) = record.next_piece(&mut piece) else {
            return Status::Memory;
        };
        let Ok(()) = sink.write_all(&piece) else {
            return Status::WriteFault;
        };
    }
    Status::Ok
}
