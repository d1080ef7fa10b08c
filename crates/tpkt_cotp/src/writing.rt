//! TPDUs written in their TPKTs: CR, CC, and the DTs of a TSDU.

ghost use Rattle.std.specs.Prelude.{◌≡◌, ◌+◌, ◌≤◌, ◌++◌, length, IfOk, OnOk};
ghost use Rattle.tpkt_cotp.specs.Packet.{packet};
ghost use Rattle.tpkt_cotp.specs.Written.{selector, size_parameter, parameters_for, IsCr};
ghost use Rattle.tpkt_cotp.specs.Written.{connection, confirm_of, call_of, called_with, IsExponent};
ghost use Rattle.tpkt_cotp.specs.Written.{room, tsdu_of};

use crate::codes::{CALLED, CALLING, CC, CR, DT, END_OF_TSDU, TPDU_SIZE};
use crate::tsdus::Cr;
use std::alloc::{AllocError, Global};
use sv_base::Octs;

/// Adds a TPKT that holds the header and what follows it.
#[tactic(auto, using(std::proofs::lemmas::Grind::common_steps))]
fn put_packet(out: &mut Vec<u8>, header: &[u8], rest: &[u8]) -> Result<(), AllocError>
    requires { length header.now + length rest.now ≤ 65531 }
    ensures { OnOk result (out.new.items ≡ out.old.items ++ packet (header.now ++ rest.now)) }
{
    let len = header.len() + rest.len() + 4;
    out.extend_from_slice(&[3, 0, (len / 256) as u8, (len % 256) as u8])?;
    out.extend_from_slice(header)?;
    out.extend_from_slice(rest)
}

fn put_size(out: &mut Vec<u8>, size: Option<u8>) -> Result<(), AllocError>
    ensures { OnOk result (out.new.items ≡ out.old.items ++ size_parameter size) }
{
    match size {
        Some(exponent) => out.extend_from_slice(&[TPDU_SIZE, 1, exponent]),
        None => Ok(()),
    }
}

fn put_selector(out: &mut Vec<u8>, code: u8, value: &Option<Octs>) -> Result<(), AllocError>
    requires { length (selector code value.now) ≤ 249 }
    ensures { OnOk result (out.new.items ≡ out.old.items ++ selector code value.now) }
{
    match value {
        Some(octets) => {
            out.extend_from_slice(&[code, octets.len() as u8])?;
            out.extend_from_slice(octets.as_slice())
        }
        None => Ok(()),
    }
}

/// The parameters of a CC for this CR.
fn parameters(alloc: Global, cr: &Cr) -> Result<Vec<u8>, AllocError>
    requires { length (parameters_for cr.now) ≤ 249 }
    ensures { IfOk result (λ v. v.items ≡ parameters_for cr.now) }
{
    let mut out = Vec::new(alloc);
    put_size(&mut out, cr.size)?;
    put_selector(&mut out, CALLED, &cr.called)?;
    put_selector(&mut out, CALLING, &cr.calling)?;
    Ok(out)
}

/// A CR or a CC in its TPKT.
fn write_connection(
    alloc: Global,
    code: u8,
    dst: u16,
    src: u16,
    parameters: &[u8],
) -> Result<Octs, AllocError>
    requires { length parameters.now ≤ 249 }
    ensures { IfOk result (λ o. o ≡ packet (connection code dst src parameters.now)) }
{
    let mut out = Vec::new(alloc);
    let header = [
        6 + parameters.len() as u8,
        code,
        (dst / 256) as u8,
        (dst % 256) as u8,
        (src / 256) as u8,
        (src % 256) as u8,
        0,
    ];
    put_packet(&mut out, &header, parameters)?;
    Ok(Octs::from_vec(out))
}

/// The CC that answers a CR, in its TPKT (ISO 8073, "Connection Confirm (CC) TPDU"): DST-REF is the CR's SRC-REF, SRC-REF
/// is 1, the class is 0, and the TPDU size, the called and the calling selector follow, in this order, where the CR had
/// them.
///
/// Some CR says what it is given: the exponent is 7 to 13, and the parameters have at most 249 octets.
#[tactic(auto, unfolding(crate::specs::Written::confirm_of))]
pub fn confirm(alloc: Global, cr: &Cr) -> Result<Octs, AllocError>
    requires { IsCr cr.now }
    ensures { IfOk result (λ o. o ≡ confirm_of cr.now) }
{
    let parameters = parameters(alloc, cr)?;
    write_connection(alloc, CC, cr.src, 1, &parameters)
}

/// The CR that asks for a connection, in its TPKT (ISO 8073, "Connection Request (CR) TPDU"): DST-REF is 0, SRC-REF as
/// given, the class 0, the TPDU size 2 ^ 13, and both selectors are `00 01`.
#[tactic(auto, unfolding(crate::specs::Written::call_of))]
pub fn call(alloc: Global, src: u16) -> Result<Octs, AllocError>
    ensures { IfOk result (λ o. o ≡ call_of src) }
{
    write_connection(
        alloc,
        CR,
        0,
        src,
        &[TPDU_SIZE, 1, 13, CALLED, 2, 0, 1, CALLING, 2, 0, 1],
    )
}

/// How many octets of data a DT has at most: the TPDU with its three header octets has two to the exponent, and no more
/// than the 65531 that a TPKT can hold.
fn room_of(exponent: u8) -> usize
    requires { IsExponent exponent }
    ensures value { result ≡ room exponent }
    ensures least { 125 ≤ result }
    ensures most { result ≤ 65528 }
{
    2usize.pow(u32::from(exponent)).min(65531) - 3
}

/// A TSDU as DTs in their TPKTs (ISO 8073, "Data (DT) TPDU"): each but the last has as many octets as the TPDU size
/// allows, the last has the end bit. The TPDU size is two to the exponent, which is 7 to 13, or 16 for the 65531 octets
/// that RFC 1006 has where no size was said.
pub fn tsdu(alloc: Global, exponent: u8, octets: &[u8]) -> Result<Octs, AllocError>
    requires { IsExponent exponent }
    ensures { IfOk result (λ o. o ≡ tsdu_of exponent octets.now) }
{
    let room = room_of(exponent);
    let mut out = Vec::new(alloc);
    let mut rest = octets;
    while rest.len() > room {
        let (front, behind) = rest.split_at(room);
        put_packet(&mut out, &[2, DT, 0], front)?;
        rest = behind;
    }
    put_packet(&mut out, &[2, DT, END_OF_TSDU], rest)?;
    Ok(Octs::from_vec(out))
}
