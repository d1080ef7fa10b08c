//! Names, paths and references (IEC 61850-7-2, ObjectName and ObjectReference), and functional constraints.

ghost use Rattle.std.specs.Prelude.{◌≡◌, IfOk};
ghost use Rattle.text_words.specs.Names.{is_name_octet as names_octet, is_letter as letter_at};
ghost use Rattle.text_words.specs.Names.{is_name as names, is_path as joins_names};
ghost use Rattle.text_words.specs.Names.{is_member as refers, are_member as refer};
ghost use Rattle.text_words.specs.Names.{item_of as item_of_reference, is_dollar};
ghost use Rattle.text_words.specs.Names.{is_fc as names_fc};
ghost use Rattle.text_words.specs.Words.{texts};
ghost use Rattle.std.specs.List.{count_by, list_all};

use crate::words::parts_of;
use std::alloc::{AllocError, Global};

fn is_letter(octet: u8) -> bool
    ensures { result ≡ letter_at octet }
{
    (octet >= b'A' && octet <= b'Z') || (octet >= b'a' && octet <= b'z')
}

fn is_name_octet(octet: u8) -> bool
    ensures { result ≡ names_octet octet }
{
    is_letter(octet) || (octet >= b'0' && octet <= b'9') || octet == b'_'
}

fn all_name_octets(octets: &[u8]) -> bool
    ensures { result ≡ list_all names_octet octets.now }
{
    octets.iter().all(|octet| is_name_octet(*octet))
}

/// A letter, then letters, digits or `_`, in all at most 32 octets.
pub fn is_name(word: &[u8]) -> bool
    ensures { result ≡ names word.now }
{
    match word {
        [first, rest @ ..] => { is_letter(*first) && all_name_octets(rest) && rest.len() <= 31 }
        [] => false,
    }
}

/// Names joined by `$`.
pub fn is_path(path: &[u8]) -> bool
    ensures { result ≡ joins_names path.now }
{
    path.split(|octet| *octet == b'$').all(|name| is_name(name))
}

/// How many `$` there are.
pub fn dollars(path: &[u8]) -> usize
    ensures { result ≡ count_by is_dollar path.now }
{
    path.iter().filter(|octet| **octet == b'$').count()
}

/// A domain, `/`, and a path of three names or more.
pub fn is_member(alloc: Global, reference: &[u8]) -> Result<bool, AllocError>
    ensures { IfOk result (λ r. r ≡ refers reference.now) }
{
    let parts = parts_of(alloc, reference, b'/')?;
    Ok(are_member(&parts))
}

fn are_member(parts: &[&[u8]]) -> bool
    ensures { result ≡ refer (texts parts.now) }
{
    match parts {
        [domain, item] => is_name(domain) && is_path(item) && dollars(item) >= 2,
        _ => false,
    }
}

/// The octets after the first `/`, none where there is none.
pub fn item_of(reference: &[u8]) -> &[u8]
    ensures { result.now ≡ item_of_reference reference.now }
{
    match reference {
        [b'/', item @ ..] => item,
        [_, rest @ ..] => item_of(rest),
        [] => reference,
    }
}

/// A functional constraint that an attribute may have (IEC 61850-7-2).
pub fn is_fc(fc: &[u8]) -> bool
    ensures { result ≡ names_fc fc.now }
{
    fc == b"ST".as_slice()
        || fc == b"MX".as_slice()
        || fc == b"CF".as_slice()
        || fc == b"DC".as_slice()
        || fc == b"SP".as_slice()
        || fc == b"SV".as_slice()
        || fc == b"SG".as_slice()
        || fc == b"EX".as_slice()
}
