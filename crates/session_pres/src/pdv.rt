//! User data of the presentation layer: one PDV (ISO 8823-1, "User-data").

ghost use Rattle.std.specs.Prelude.{◌≡◌, List, ℕ};
ghost use Rattle.std.specs.Option.{option_map};
ghost use Rattle.ber_grammar.specs.Place.{Piece, piece};
ghost use Rattle.ber_grammar.specs.Reader.{Gives, Reads};
ghost use Rattle.ber_view.specs.View.{spot};
ghost use Rattle.session_pres.specs.declared.fault.SpFault.TheVariants as faults;
ghost use Rattle.ber_grammar.specs.Steps.{IsLacking, required};
ghost use Rattle.session_pres.specs.UserData.{IsUserData, context_at, pair_at, pdv_at, pdv_list_at};
ghost use Rattle.session_pres.specs.UserData.{user_data_at};
ghost use Rattle.session_pres.specs.View.{pdv};
ghost use Rattle.session_pres.specs.Plain.{pdv_now, pdv_from};

use crate::codes::{FULLY_ENCODED_DATA, INTEGER, OBJECT_IDENTIFIER, SEQUENCE, SINGLE_ASN1_TYPE};
use crate::fault::SpFault;
use ber_view::{Elements, Tlv, fields, only, only_with, uint};

/// The number of a presentation context.
#[tactic(auto, unfolding(crate::specs::UserData::context_at))]
pub fn context_of(content: &[u8]) -> Option<u32>
    ensures { result ≡ context_at content.now }
{
    let number = uint(content).ok()?;
    u32::try_from(number).ok()
}

#[tactic(auto, unfolding(crate::specs::UserData::pair_at))]
fn pair_of<'a>(number: &Tlv<'a>, value: &Tlv<'a>) -> Option<(u32, &'a [u8])>
    ensures { option_map pdv result ≡ pair_at (spot number.now) (spot value.now) }
{
    if number.tag != INTEGER {
        return None;
    }
    let context = context_of(number.content)?;
    if value.tag != SINGLE_ASN1_TYPE {
        return None;
    }
    only(value.content)?;
    Some((context, value.content))
}

/// The context and the value of a PDV, after a transfer syntax that may be there.
fn pdv_of<'a>(mut fields: Elements<'a>) -> Option<(u32, &'a [u8])>
    ensures { option_map pdv result ≡ pdv_at fields.entry }
{
    let first = fields.next()?;
    let second = fields.next()?;
    let Some(third) = fields.next() else {
        return pair_of(&first, &second);
    };
    if fields.next().is_some() || first.tag != OBJECT_IDENTIFIER {
        return None;
    }
    pair_of(&second, &third)
}

/// The only PDV of fully encoded user data.
#[tactic(auto, unfolding(crate::specs::UserData::pdv_list_at))]
pub fn pdv_list_of(values: &[u8]) -> Option<(u32, &[u8])>
    ensures { option_map pdv result ≡ pdv_list_at (piece values.entry) }
{
    let value = only_with(values, SEQUENCE)?;
    pdv_of(fields(value)?)
}

#[tactic(auto, unfolding(crate::specs::UserData::user_data_at))]
fn user_data_of(octets: &[u8]) -> Option<(u32, &[u8])>
    ensures { option_map pdv result ≡ user_data_at (piece octets.entry) }
{
    pdv_list_of(only_with(octets, FULLY_ENCODED_DATA)?)
}

fn data_of(octets: &[u8]) -> Result<(u32, &[u8]), SpFault>
    ensures { Gives {Y = ℕ × Piece} pdv result
        (required faults.Pdv (user_data_at (piece octets.entry))) }
{
    user_data_of(octets).ok_or(SpFault::Pdv)
}

/// The number of the context in which fully encoded user data stand, and their value, which is one element (ISO 8823-1,
/// "User-data"): an element 61 that holds one SEQUENCE, of an OBJECT IDENTIFIER that may be there, an INTEGER of 32 bits,
/// and A0 with the value.
///
/// Fails with `Pdv` where the octets are of another form.
pub fn read_data(octets: &[u8]) -> Result<(u32, &[u8]), SpFault>
    ensures reads { Reads {Y = ℕ × Piece} pdv result (IsUserData (piece octets.entry))
        (IsLacking faults.Pdv (IsUserData (piece octets.entry))) }
    ensures exact { Gives {Y = ℕ × Piece} pdv result
        (required faults.Pdv (user_data_at (piece octets.entry))) }
    ensures plain { Gives {Y = ℕ × List ℕ} pdv_now result (pdv_from octets.now) }
{
    data_of(octets)
}
