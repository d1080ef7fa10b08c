//! What a program shows of itself, and how it ends.

ghost use Rattle.std.specs.Prelude.{◌≡◌, ◌≢◌, ◌⊎◌, Some, IfSome, IfNone, codes};
ghost use Rattle.std.specs.Process.{exit_status};
ghost use Rattle.std.specs.Io.KnownBytes.{Appends};
ghost use Rattle.record_outcome.specs.Statuses.{number_of};
ghost use Rattle.command_line.specs.Words.{IsWord};
ghost use Rattle.sv_io.specs.Causes.{Rose};

use crate::words::is_word;
use record_outcome::status::Status;
use std::process::ExitCode;
use sv_io::{Failed, Sink};

/// A program.
#[derive(Clone, Copy)]
pub struct Program {
    /// Its name, which stands before its words on standard error.
    pub name: &'static str,
    /// What `-h` and `--help` show.
    pub usage: &'static str,
    /// What `--version` shows.
    pub version: &'static str,
}

impl Program {
    /// What words show that ask for no work: the use for `-h` and for `--help`, the version for `--version`, each alone.
    pub fn shown(&self, words: &[String]) -> Option<&'static str>
        ensures usage { IsWord (codes "-h") words.now ⊎ IsWord (codes "--help") words.now
            → result ≡ Some self.now.usage }
        ensures version { IsWord (codes "--version") words.now → result ≡ Some self.now.version }
        ensures none { IfNone result ((IsWord (codes "-h") words.now → ⊥)
            × (IsWord (codes "--help") words.now → ⊥)
            × (IsWord (codes "--version") words.now → ⊥)) }
        ensures some { IfSome result (λ t. IsWord (codes "-h") words.now
            ⊎ (IsWord (codes "--help") words.now ⊎ IsWord (codes "--version") words.now)) }
    {
        if is_word(words, "-h") || is_word(words, "--help") {
            return Some(self.usage);
        }
        if is_word(words, "--version") {
            return Some(self.version);
        }
        None
    }

    /// Ends with the number of a status, and says its words on standard error where it isn't 0.
    pub fn ended(&self, rt: &HostRuntime, status: Status) -> ExitCode
        ensures { exit_status result ≡ number_of status }
    {
        if status != Status::Ok {
            let name = self.name;
            let _ = eprintln!(rt; "{name}: {status}");
        }
        ExitCode::from(status.number())
    }
}

/// Writes a text that is shown, and the status of that.
pub fn show<K: Sink>(text: &str, sink: &mut K) -> Status
    ensures told { result ≡ Status.Ok → Appends (K.taken sink.old) (K.taken sink.new) text.now }
    ensures write { result ≢ Status.Ok → (result ≡ Status.WriteFault) × Rose (K.faults sink.old)
        (K.faults sink.new) }
{
    match sink.write_all(text.as_bytes()) {
        Ok(()) => Status::Ok,
        Err(Failed) => Status::WriteFault,
    }
}
