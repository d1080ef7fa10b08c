//! Whose a script is.

use run_record::{LineView, OpenForm};
use sv_base::AssocNo;

/// Whose a script is.
#[derive(Clone, Copy, Debug, PartialEq, Eq)]
pub enum Party {
    /// It is an association's.
    Association(AssocNo),
    /// It is the process's, which may have several.
    Process,
}

impl Party {
    ghost use Rattle.std.specs.Prelude.{◌≡◌};
    ghost use Rattle.run_record.specs.Seen.{line_seen};
    ghost use Rattle.script_lines.specs.Parties.{may_have};

    /// Whether a script of this party may have the line: of an association its own `open` (but for a stream), `write`, `pdu`, `take`
    /// and `lost`, of the process `set`, `done`, `block` and `tick`; of either `at`, and lines that say nothing.
    pub fn may_have(&self, line: &LineView<'_>) -> bool
        ensures { result ≡ may_have self.now (line_seen line.now) }
    {
        match (self, line) {
            (_, LineView::Skip | LineView::At(_)) => true,
            (Party::Association(own), LineView::Open { a, form }) => {
                own.0 == a.0 && *form != OpenForm::Wire
            }
            (Party::Association(own), LineView::Write { a, .. }) => own.0 == a.0,
            (Party::Association(own), LineView::Pdu(a, _)) => own.0 == a.0,
            (Party::Association(own), LineView::Take(a)) => own.0 == a.0,
            (Party::Association(own), LineView::Lost(a)) => own.0 == a.0,
            (Party::Process, LineView::Set(_) | LineView::Done(..)) => true,
            (Party::Process, LineView::Block(..) | LineView::Tick) => true,
            _ => false,
        }
    }
}
