//! Numbers, alone and under a tag.

ghost use Rattle.std.specs.Prelude.{◌≡◌, List};
ghost use Rattle.std.specs.Option.{option_map};
ghost use Rattle.ber_grammar.specs.Place.{piece};
ghost use Rattle.ber_view.specs.View.{element, spot};
ghost use Rattle.mms_elements.specs.Invoke.{below_at};
ghost use Rattle.mms_elements.specs.Tagged.{number_at, first_in, numbered_in};

use ber_view::{Tlv, first, uint};

/// A number of 8 bits.
#[tactic(auto, unfolding(crate::specs::Invoke::below_at))]
pub fn octet_of(content: &[u8]) -> Option<u8>
    ensures { result ≡ below_at 256 content.now }
{
    let number = uint(content).ok()?;
    u8::try_from(number).ok()
}

/// A number of 32 bits under this tag.
#[tactic(auto, unfolding(crate::specs::Tagged::number_at, crate::specs::Invoke::below_at))]
pub fn number_of(tag: u32, field: &Tlv<'_>) -> Option<u32>
    ensures { result ≡ number_at tag (element field.now) }
{
    if field.tag != tag {
        return None;
    }
    let number = uint(field.content).ok()?;
    u32::try_from(number).ok()
}

/// The first element, and the octets after it.
#[tactic(auto, unfolding(crate::specs::Tagged::first_in))]
fn first_of(bytes: &[u8]) -> Option<(Tlv<'_>, &[u8])>
    ensures { option_map (λ x. (spot x.0, piece x.1)) result ≡ first_in (piece bytes.entry) }
{
    first(bytes).ok()
}

/// The number under this tag in front, and the octets after it.
#[tactic(auto, unfolding(crate::specs::Tagged::numbered_in))]
pub fn numbered_of(tag: u32, bytes: &[u8]) -> Option<(u32, &[u8])>
    ensures { option_map (λ x. (x.0, piece x.1)) result ≡ numbered_in tag (piece bytes.entry) }
{
    let (element, rest) = first_of(bytes)?;
    let number = number_of(tag, &element)?;
    Some((number, rest))
}
