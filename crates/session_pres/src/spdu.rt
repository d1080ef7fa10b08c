//! What an SPDU brings: its code, its length, and its user data (ISO 8327-1, "Structure of SPDUs").

ghost use Rattle.std.specs.Prelude.{◌≡◌, Bool, Option};
ghost use Rattle.std.specs.Option.{option_map};
ghost use Rattle.ber_grammar.specs.Place.{piece};
ghost use Rattle.ber_grammar.specs.Reader.{Gives, Reads};
ghost use Rattle.session_pres.specs.Units.{begins, IsSpdu, IsSpduRefused, HasUser, IsUserRefused};
ghost use Rattle.session_pres.specs.UnitReading.{counted_at, unit_at, user_of, data_of};
ghost use Rattle.session_pres.specs.UnitReading.{transfer_at, spdu_at};
ghost use Rattle.session_pres.specs.View.{seen};
ghost use Rattle.session_pres.specs.Plain.{brought, user_now, spdu_from, dn_from};

use crate::codes::{ABORT, CONNECT, DATA_TRANSFER, DISCONNECT, FINISH, GIVE_TOKENS};
use crate::fault::SpFault;
use crate::parameters::{length_of, user_data};

/// What an SPDU brings to the side that was called, each part a slice of the input.
#[derive(Clone, Copy, Debug)]
pub enum Spdu<'a> {
    /// A CONNECT, with its user data.
    Connect(&'a [u8]),
    /// User data, after an empty GIVE TOKENS and an empty DATA TRANSFER.
    Data(&'a [u8]),
    /// A FINISH, with the user data that it may have.
    Finish(Option<&'a [u8]>),
    /// An ABORT.
    Abort,
}

/// Whether an SPDU has this code.
fn has_code(code: u8, spdu: &[u8]) -> bool
    ensures { result ≡ begins code spdu.now }
{
    match spdu {
        [a, ..] => *a == code,
        [] => false,
    }
}

/// What is after a length that counts all of it.
#[tactic(auto, unfolding(crate::specs::UnitReading::counted_at))]
fn counted(octets: &[u8]) -> Option<&[u8]>
    ensures { option_map piece result ≡ counted_at (piece octets.entry) }
{
    let (len, taken) = length_of(octets)?;
    if octets.len() != taken + len {
        return None;
    }
    Some(&octets[taken..])
}

/// The parameters of an SPDU, if it has this code.
#[tactic(auto, unfolding(crate::specs::UnitReading::unit_at))]
fn parameters_of(code: u8, spdu: &[u8]) -> Option<&[u8]>
    ensures { option_map piece result ≡ unit_at code (piece spdu.entry) }
{
    if !has_code(code, spdu) {
        return None;
    }
    counted(&spdu[1..])
}

/// The user data that an SPDU of this code may have.
#[tactic(auto, unfolding(crate::specs::UnitReading::user_of))]
pub fn user_data_of(code: u8, spdu: &[u8]) -> Result<Option<&[u8]>, SpFault>
    ensures { Gives (λ user. option_map piece user) result (user_of code (piece spdu.entry)) }
{
    let Some(parameters) = parameters_of(code, spdu) else {
        return Err(SpFault::Spdu);
    };
    user_data(parameters).ok_or(SpFault::Parameter)
}

/// The user data that an SPDU of this code must have.
#[tactic(auto, unfolding(crate::specs::UnitReading::data_of))]
pub fn connect_data_of(code: u8, spdu: &[u8]) -> Result<&[u8], SpFault>
    ensures { Gives piece result (data_of code (piece spdu.entry)) }
{
    user_data_of(code, spdu)?.ok_or(SpFault::Parameter)
}

/// What is after an empty GIVE TOKENS and an empty DATA TRANSFER.
#[tactic(auto, unfolding(crate::specs::UnitReading::transfer_at))]
fn transferred(spdu: &[u8]) -> Option<Spdu<'_>>
    ensures { option_map seen result ≡ transfer_at (piece spdu.entry) }
{
    match spdu {
        [GIVE_TOKENS, 0, DATA_TRANSFER, 0, user @ ..] => Some(Spdu::Data(user)),
        _ => None,
    }
}

#[tactic(auto, unfolding(crate::specs::UnitReading::spdu_at))]
fn spdu_of(spdu: &[u8]) -> Result<Spdu<'_>, SpFault>
    ensures { Gives seen result (spdu_at (piece spdu.entry)) }
{
    if has_code(CONNECT, spdu) {
        return Ok(Spdu::Connect(connect_data_of(CONNECT, spdu)?));
    }
    if has_code(FINISH, spdu) {
        return Ok(Spdu::Finish(user_data_of(FINISH, spdu)?));
    }
    if has_code(ABORT, spdu) {
        user_data_of(ABORT, spdu)?;
        return Ok(Spdu::Abort);
    }
    transferred(spdu).ok_or(SpFault::Spdu)
}

/// What an SPDU brings to the side that was called (ISO 8327-1). A FINISH may have user data, a CONNECT must; of user data
/// that are repeated the last count, and parameters of other codes are skipped, but cut.
///
/// Fails with `Spdu` where the code is none of CONNECT, FINISH and ABORT, or the length isn't that of all that follows, or
/// is in three octets where one does; user data stand after `01 00 01 00` alone. Fails with `Parameter` where the
/// parameters, those of a connect/accept item too, don't cut into whole ones, and where a CONNECT has no user data.
pub fn read_spdu(spdu: &[u8]) -> Result<Spdu<'_>, SpFault>
    // What the octets spell, with the places of its parts, else the refusal that the octets earn.
    ensures reads { Reads seen result (IsSpdu (piece spdu.entry))
        (IsSpduRefused (piece spdu.entry)) }
    ensures exact { Gives seen result (spdu_at (piece spdu.entry)) }
    // The octets that it brings don't depend on where the input lies.
    ensures plain { Gives brought result (spdu_from spdu.now) }
{
    spdu_of(spdu)
}

/// The user data of a DISCONNECT (ISO 8327-1), the answer to a FINISH, or none where it has none.
///
/// Fails with `Spdu` where it isn't a DISCONNECT, or the length isn't that of all that follows, and with `Parameter` where
/// the parameters don't cut into whole ones.
pub fn read_dn(spdu: &[u8]) -> Result<Option<&[u8]>, SpFault>
    ensures reads { Reads (λ user. option_map piece user) result
        (HasUser DISCONNECT (piece spdu.entry)) (IsUserRefused DISCONNECT (piece spdu.entry)) }
    ensures exact { Gives (λ user. option_map piece user) result
        (user_of DISCONNECT (piece spdu.entry)) }
    ensures plain { Gives user_now result (dn_from spdu.now) }
{
    user_data_of(DISCONNECT, spdu)
}
