//! The contents of a report's fields, read (ITU-T X.690; ISO 9506-2, Data).

ghost use Rattle.std.specs.Prelude.{◌≡◌, ◌==◌, ◌≤◌, ◌<◌, ◌^◌, List, length, IfSome};
ghost use Rattle.std.specs.Option.{option_map};
ghost use Rattle.ber_grammar.specs.Octets.{big_endian};
ghost use Rattle.bay_model.specs.Parameters.{bit as bit_at};
ghost use Rattle.mms_elements.specs.Invoke.{below_at};
ghost use Rattle.report_cut.specs.PartReading.{text_in, truth_in, moment_of, moment_in, id_in};
ghost use Rattle.report_cut.specs.PartReading.{options_in, inclusion_in, reasons_in};

use bay_model::Reasons;
use ber_view::{BitView, bits, text, uint};
use sv_base::Moment;

/// A visible string.
pub(crate) fn text_of(content: &[u8]) -> Option<&[u8]>
    ensures { option_map (λ x. x.now) result ≡ text_in content.now }
{
    text(content).ok()
}

/// A boolean (X.690, 8.2): any octet but 0 is true.
pub(crate) fn truth_of(content: &[u8]) -> Option<bool>
    ensures { result ≡ truth_in content.now }
{
    match content {
        [octet] => Some(*octet != 0),
        _ => None,
    }
}

/// A number of 16 bits.
#[tactic(auto, unfolding(mms_elements::specs::Invoke::below_at))]
pub(crate) fn short_of(content: &[u8]) -> Option<u16>
    ensures { result ≡ below_at 65536 content.now }
{
    let number = uint(content).ok()?;
    u16::try_from(number).ok()
}

/// A number of 32 bits.
#[tactic(auto, unfolding(mms_elements::specs::Invoke::below_at))]
pub(crate) fn number_of(content: &[u8]) -> Option<u32>
    ensures { result ≡ below_at (2 ^ 32) content.now }
{
    let number = uint(content).ok()?;
    u32::try_from(number).ok()
}

/// At most eight octets as one number, the first the highest.
fn unsigned_of(octets: &[u8]) -> u64
    requires { length octets.now ≤ 8 }
    ensures { result ≡ big_endian octets.now }
{
    let mut n = 0u64;
    for octet in octets {
        n = n * 256 + u64::from(*octet);
    }
    n
}

/// The moment n milliseconds into a day since the beginning of 1984.
fn moment_at(ms: u64, days: u64) -> Option<Moment>
    ensures { result ≡ moment_of ms days }
{
    if ms >= 86400000 || days > 65535 {
        return None;
    }
    Moment::new(441763200000 + days * 86400000 + ms)
}

/// A binary time (ISO 9506-2, TimeOfDay) of a moment.
#[tactic(auto, unfolding(crate::specs::PartReading::moment_in))]
pub(crate) fn time_of(content: &[u8]) -> Option<Moment>
    ensures { result ≡ moment_in content.now }
{
    if content.len() != 6 {
        return None;
    }
    moment_at(unsigned_of(&content[..4]), unsigned_of(&content[4..]))
}

/// An EntryID of eight octets.
#[tactic(auto, unfolding(crate::specs::PartReading::id_in))]
pub(crate) fn id_of(content: &[u8]) -> Option<u64>
    ensures { result ≡ id_in content.now }
{
    if content.len() != 8 {
        return None;
    }
    Some(unsigned_of(content))
}

/// OptFlds.
#[tactic(auto, unfolding(crate::specs::PartReading::options_in))]
pub(crate) fn options_of(content: &[u8]) -> Option<BitView<'_>>
    ensures { result ≡ options_in content.now }
{
    let view = bits(content).ok()?;
    if view.len() != 10 {
        return None;
    }
    Some(view)
}

/// The inclusion bits.
#[tactic(auto, unfolding(crate::specs::PartReading::inclusion_in))]
pub(crate) fn inclusion_of(content: &[u8]) -> Option<BitView<'_>>
    ensures value { result ≡ inclusion_in content.now }
    ensures few { IfSome result (λ x. length x ≤ 256) }
{
    let view = bits(content).ok()?;
    if view.len() < 1 || view.len() > 256 {
        return None;
    }
    Some(view)
}

/// A bit of a view.
fn flag(view: &BitView<'_>, i: usize) -> bool
    ensures { result ≡ bit_at i view.now }
{
    view.get(i).unwrap_or(false)
}

/// ReasonForInclusion.
#[tactic(auto, unfolding(crate::specs::PartReading::reasons_in))]
pub(crate) fn reasons_of(content: &[u8]) -> Option<Reasons>
    ensures { result ≡ reasons_in content.now }
{
    let view = bits(content).ok()?;
    if view.len() != 7 || flag(&view, 0) || flag(&view, 6) {
        return None;
    }
    Some(Reasons {
        dchg: flag(&view, 1),
        qchg: flag(&view, 2),
        dupd: flag(&view, 3),
        intg: flag(&view, 4),
        gi: flag(&view, 5),
    })
}
