//! Booleans, and numbers under a tag.

ghost use Rattle.std.specs.Prelude.{◌≡◌, List};
ghost use Rattle.ber_view.specs.View.{spot};
ghost use Rattle.mms_pdu.specs.Access.{truth_at};
ghost use Rattle.mms_pdu.specs.NameList.{octet_at};

use ber_view::Tlv;
use mms_elements::octet_of;

/// A boolean (X.690, 8.2): any octet but 0 is true.
pub(crate) fn truth_of(content: &[u8]) -> Option<bool>
    ensures { result ≡ truth_at content.now }
{
    match content {
        [octet] => Some(*octet != 0),
        _ => None,
    }
}

/// A number of 8 bits under this tag.
#[tactic(auto, unfolding(crate::specs::NameList::octet_at))]
pub(crate) fn octet_with(tag: u32, field: &Tlv<'_>) -> Option<u8>
    ensures { result ≡ octet_at tag (spot field.now) }
{
    if field.tag != tag {
        return None;
    }
    octet_of(field.content)
}
