//! The parameters of an SPDU (ISO 8327-1, "Structure of SPDUs").

ghost use Rattle.std.specs.Prelude.{◌≡◌, ◌≤◌, ◌+◌, ◌==◌, length, is_some, Option, Some, None};
ghost use Rattle.std.specs.Prelude.{IfSome, MatchOption};
ghost use Rattle.std.specs.Option.{option_map};
ghost use Rattle.ber_grammar.specs.Place.{piece};
ghost use Rattle.session_pres.specs.ParameterReading.{length_at, head_at, parameter_at};
ghost use Rattle.session_pres.specs.ParameterReading.{parameters_at, is_cut, if_user, user_at};
ghost use Rattle.session_pres.specs.View.{parameter, parameter_of};

use crate::codes::{CONNECT_ACCEPT_ITEM, USER_DATA};
use std::marker::Model;

/// A length, and how many octets it takes (ISO 8327-1, "Structure of SPDUs", LI).
#[tactic(auto, unfolding(crate::specs::ParameterReading::length_at))]
pub fn length_of(octets: &[u8]) -> Option<(usize, usize)>
    ensures value { result ≡ length_at octets.now }
    ensures bound { IfSome result (λ x. (x.0 ≤ 65535) × (x.1 ≤ 3)) }
{
    match octets {
        [] => None,
        [a, ..] if *a < 255 => Some((usize::from(*a), 1)),
        [_, b, c, ..] => {
            let len = usize::from(*b) * 256 + usize::from(*c);
            if len < 255 { None } else { Some((len, 3)) }
        }
        _ => None,
    }
}

/// A parameter's code, how many octets stand before its value, and how many the value has.
#[tactic(auto, unfolding(crate::specs::ParameterReading::head_at))]
fn head_of(octets: &[u8]) -> Option<(u8, usize, usize)>
    ensures value { result ≡ head_at octets.now }
    ensures within { IfSome result (λ h. h.1 + h.2 ≤ length octets.now) }
{
    let [code, rest @ ..] = octets else {
        return None;
    };
    let (len, taken) = length_of(rest)?;
    if rest.len() < taken + len {
        return None;
    }
    Some((*code, taken + 1, len))
}

/// The first parameter's code and value, and what follows it.
#[tactic(auto, unfolding(crate::specs::ParameterReading::parameter_at))]
fn first_parameter(octets: &[u8]) -> Option<(u8, &[u8], &[u8])>
    ensures { option_map parameter result ≡ parameter_at (piece octets.entry) }
{
    let (code, head, len) = head_of(octets)?;
    Some((code, &octets[head..head + len], &octets[head + len..]))
}

/// The parameters that are left of a row.
#[derive(Drop)]
struct Parameters<'a> {
    rest: &'a [u8],
}

impl<'a> Model for Parameters<'a> {
    ghost use Rattle.ber_grammar.specs.Place.{Piece, piece};

    ghost Value = { Piece };

    ghost view = { λ a. piece a.rest };
}

impl<'a> Parameters<'a> {
    fn new(octets: &'a [u8]) -> Self
        ensures { result ≡ piece octets.entry }
    {
        Parameters { rest: octets }
    }

    fn is_empty(&self) -> bool
        ensures { result ≡ (length self.now.octets == 0) }
    {
        self.rest.is_empty()
    }

    /// The code and the value of the next one, or none where it isn't whole.
    fn next(&mut self) -> Option<(u8, &'a [u8])>
        ensures { MatchOption result (parameter_at self.old ≡ None) (λ x. parameter_at self.old
            ≡ Some (parameter_of x.0 (piece x.1), self.new)) }
    {
        let (code, value, after) = first_parameter(self.rest)?;
        self.rest = after;
        Some((code, value))
    }
}

/// Whether the octets cut into whole parameters.
fn are_parameters(octets: &[u8]) -> bool
    ensures { result ≡ is_some (parameters_at (piece octets.entry)) }
{
    let mut rest = Parameters::new(octets);
    while !rest.is_empty() {
        let Some(_) = rest.next() else {
            return false;
        };
    }
    true
}

/// Whether the value of a parameter cuts into parameters, where it has to: in a connect/accept item.
fn is_cut(code: u8, value: &[u8]) -> bool
    ensures { result ≡ is_cut (parameter_of code (piece value.entry)) }
{
    code != CONNECT_ACCEPT_ITEM || are_parameters(value)
}

/// The user data, with one parameter more.
fn later<'a>(code: u8, value: &'a [u8], user: Option<&'a [u8]>) -> Option<&'a [u8]>
    ensures { option_map piece result ≡ if_user (parameter_of code (piece value.entry))
        (option_map piece user.entry) }
{
    if code == USER_DATA { Some(value) } else { user }
}

/// The value of the last user data parameter, or none where there is none. None where the octets don't cut into whole
/// parameters, those of a connect/accept item too.
pub fn user_data(octets: &[u8]) -> Option<Option<&[u8]>>
    ensures { option_map (λ user. option_map piece user) result ≡ user_at (piece octets.entry) }
{
    let mut user = None;
    let mut rest = Parameters::new(octets);
    while !rest.is_empty() {
        let (code, value) = rest.next()?;
        if !is_cut(code, value) {
            return None;
        }
        user = later(code, value, user);
    }
    Some(user)
}
