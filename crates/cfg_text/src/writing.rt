//! What is written for a configuration, and how it reads.

ghost use Rattle.std.specs.Prelude.{◌≡◌, List, ℕ, IfOk};
ghost use Rattle.cfg_writing.specs.Written.{written};
ghost use Rattle.cfg_text.specs.Numbered.{ReadsAs};
ghost use Rattle.cfg_grammar.specs.Texts.{SpellsConfig};

use cfg_writing::written_text;
use std::alloc::{AllocError, Global};
use sv_base::{Config, Octs};

/// The text of a configuration: its lines in the order of their numbers, each in its shortest spelling, without empty lines
/// and remarks. A domain's `ld` stands before the first of its logical nodes.
///
/// Of a configuration that a text spells the written text reads as the same up to the numbers of lines. Fails out of
/// memory alone.
pub fn write_config(alloc: Global, config: &Config) -> Result<Octs, AllocError>
    ensures text { IfOk result (λ o. o ≡ written config.now) }
    ensures again { IfOk result (λ o. (text : List ℕ) → SpellsConfig text config.now
        → ReadsAs o config.now) }
{
    let text = written_text(alloc, config)?;
    Ok(text)
}
