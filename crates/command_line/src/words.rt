//! The words of a command line.

ghost use Rattle.std.specs.Prelude.{◌≡◌, ◌≢◌, ◌↔◌, ◌⊎◌, IsTrue, IfOk, IfErr, Err, drop};
ghost use Rattle.std.specs.Vec.Iter.{into_iter_items};
ghost use Rattle.std.specs.IoError.{error_kind};
ghost use Rattle.command_line.specs.Words.{IsWord, IsForeign};

use record_outcome::status::Status;
use std::alloc::Global;
use std::env::Args;
use std::io::{Error, ErrorKind};

/// The words of the command line are this one word.
pub fn is_word(words: &[String], wanted: &str) -> bool
    ensures { IsTrue result ↔ IsWord wanted.now words.now }
{
    match words {
        [word] => word.as_str() == wanted,
        _ => false,
    }
}

/// The status where the words can't be had: there is no memory, or one of them isn't UTF-8.
fn without_words(error: &Error) -> Status
    ensures memory { error_kind error.now ≡ ErrorKind.OutOfMemory → result ≡ Status.Memory }
    ensures words { error_kind error.now ≢ ErrorKind.OutOfMemory → result ≡ Status.Words }
{
    if error.kind() == ErrorKind::OutOfMemory {
        Status::Memory
    } else {
        Status::Words
    }
}

/// The words after the program's name, of what std gives of a command line; else the status that says why there are none: Words where
/// one of them isn't UTF-8, Memory when out of memory.
pub fn words_of(alloc: Global, args: Result<Args, Error>) -> Result<Vec<String>, Status>
    ensures given { IfOk result (λ v. IfOk args (λ a. v.items ≡ drop 1 (into_iter_items a))) }
    ensures words { (result ≡ Err Status.Words) ↔ IsForeign args }
    ensures lacking { IfErr result (λ s. (s ≡ Status.Memory) ⊎ (s ≡ Status.Words)) }
{
    let mut args = match args {
        Ok(args) => args,
        Err(error) => return Err(without_words(&error)),
    };
    let _ = args.next();
    let mut words = Vec::new(alloc);
    for word in args {
        if words.push(word).is_err() {
            return Err(Status::Memory);
        }
    }
    Ok(words)
}
