//! The parameters of a CR and a CC (ISO 8073, "Connection Request (CR) TPDU", variable part).

ghost use Rattle.std.specs.Prelude.{◌≡◌, Ok, MatchResult, IfOk};
ghost use Rattle.std.specs.Option.{option_map};
ghost use Rattle.ber_grammar.specs.Reader.{Gives};
ghost use Rattle.tpkt_cotp.specs.Failing.{Fails};
ghost use Rattle.tpkt_cotp.specs.Parameters.{parameter_at, put_at, parameters_of};

use crate::codes::{CALLED, CALLING, TPDU_SIZE};
use crate::fault::TpFault;
use crate::tsdus::Cr;
use std::alloc::{AllocError, Global};
use sv_base::Octs;

/// Takes one parameter of a CR or a CC: the TPDU size or a selector; others are skipped (ISO 8073, variable part of
/// a CR).
fn put_parameter(alloc: Global, cr: &mut Cr, code: u8, value: &[u8]) -> Result<(), TpFault>
    ensures { MatchResult result (λ _. put_at cr.old code value.now ≡ Ok cr.new)
        (λ f. Fails f (put_at cr.old code value.now)) }
{
    match code {
        TPDU_SIZE => match value {
            [exponent] if *exponent >= 7 => cr.size = Some((*exponent).min(13)),
            _ => return Err(TpFault::Tpdu),
        },
        CALLING => cr.calling = Some(Octs::copied(alloc, value)?),
        CALLED => cr.called = Some(Octs::copied(alloc, value)?),
        _ => (),
    }
    Ok(())
}

/// The first parameter's code and value and what follows it, or None where there is no octet.
fn first_parameter(octets: &[u8]) -> Result<Option<(u8, &[u8], &[u8])>, TpFault>
    ensures { Gives (λ x. option_map (λ p. (p.0, p.1.now, p.2.now)) x) result
        (parameter_at octets.now) }
{
    match octets {
        [] => Ok(None),
        [_] => Err(TpFault::Tpdu),
        [code, len, more @ ..] => {
            if more.len() < usize::from(*len) {
                return Err(TpFault::Tpdu);
            }
            let (value, after) = more.split_at(usize::from(*len));
            Ok(Some((*code, value, after)))
        }
    }
}

/// Takes the parameters of a CR or a CC, to the last octet.
pub fn read_parameters(alloc: Global, cr: &mut Cr, octets: &[u8]) -> Result<(), TpFault>
    ensures { MatchResult result (λ _. parameters_of cr.old octets.now ≡ Ok cr.new)
        (λ f. Fails f (parameters_of cr.old octets.now)) }
{
    let mut rest = octets;
    while let Some((code, value, after)) = first_parameter(rest)? {
        put_parameter(alloc, cr, code, value)?;
        rest = after;
    }
    Ok(())
}
