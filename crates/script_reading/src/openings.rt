//! The lines of a rehearsal's input before its configuration.

ghost use Rattle.std.specs.Prelude.{◌≡◌, ℕ};
ghost use Rattle.text_words.specs.Words.{texts};
ghost use Rattle.script_plans.specs.Openings.{headed};
ghost use Rattle.script_reading.specs.Readings.{Heads};

use run_record::Kind;

/// Why the words of the first line aren't `rehearse 1`; none where they are.
pub fn heading_fault(words: &[&[u8]]) -> Option<Kind>
    ensures { (number : ℕ) → Heads result number (headed number (texts words.now)) }
{
    match words {
        [word, version] => {
            if *word != b"rehearse".as_slice() || version.is_empty() {
                Some(Kind::Word)
            } else if *version == b"1".as_slice() {
                None
            } else {
                Some(Kind::Number)
            }
        }
        _ => Some(Kind::Word),
    }
}
