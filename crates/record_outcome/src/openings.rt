//! The lines of a record before its configuration.

ghost use Rattle.std.specs.Prelude.{◌≡◌, IfOk};
ghost use Rattle.text_words.specs.Words.{texts};
ghost use Rattle.record_outcome.specs.Opens.{Opens, HeadedAs};

use run_record::{Kind, is_long};
use std::alloc::{AllocError, Global};
use text_words::{is_skipped, parts_of};

/// What a line before the configuration is.
#[derive(Clone, Copy, Debug, PartialEq, Eq)]
pub enum Opened {
    /// Empty, or a remark.
    Skip,
    /// The line `record 1`.
    Head,
    /// Refused.
    Refused(Kind),
}

/// The words of the first line.
fn head(words: &[&[u8]]) -> Opened
    ensures { HeadedAs result (texts words.now) }
{
    match words {
        [word, version] => {
            if *word != b"record".as_slice() || version.is_empty() {
                Opened::Refused(Kind::Word)
            } else if *version == b"1".as_slice() {
                Opened::Head
            } else {
                Opened::Refused(Kind::Number)
            }
        }
        _ => Opened::Refused(Kind::Word),
    }
}

/// What a line before the configuration is, without its newline.
#[tactic(auto, unfolding(crate::specs::Openings::opening_at))]
pub fn open(alloc: Global, line: &[u8]) -> Result<Opened, AllocError>
    ensures { IfOk result (λ o. Opens o line.now) }
{
    if is_long(line) {
        return Ok(Opened::Refused(Kind::Long));
    }
    if is_skipped(line) {
        return Ok(Opened::Skip);
    }
    let words = parts_of(alloc, line, b' ')?;
    Ok(head(&words))
}
