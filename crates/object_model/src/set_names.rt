//! Names that a data set may have (IEC 61850-7-2, ObjectName and DATA-SET; IEC 61850-8-1, their MMS names).

ghost use Rattle.std.specs.Prelude.{◌≡◌};
ghost use Rattle.std.specs.List.{list_all};
ghost use Rattle.bay_model.specs.Definitions.{has_node as has_node_in, is_letter as is_letter_in};
ghost use Rattle.bay_model.specs.Definitions.{is_name as is_name_in};
ghost use Rattle.bay_model.specs.Definitions.{is_name_octet as is_octet_in};
ghost use Rattle.bay_model.specs.Definitions.{is_set_name as is_set_name_in};
ghost use Rattle.bay_model.specs.Named.{configured_model};

use crate::Model;
use bay_model::SetName;
use name_tree::{behind, front};

/// The most octets of a data set's name.
const OCTETS: usize = 64;

fn is_letter(octet: u8) -> bool
    ensures { result ≡ is_letter_in octet }
{
    (octet >= b'A' && octet <= b'Z') || (octet >= b'a' && octet <= b'z')
}

fn is_name_octet(octet: u8) -> bool
    ensures { result ≡ is_octet_in octet }
{
    is_letter(octet) || (octet >= b'0' && octet <= b'9') || octet == b'_'
}

fn all_name_octets(octets: &[u8]) -> bool
    ensures { result ≡ list_all is_octet_in octets.now }
{
    octets.iter().all(|octet| is_name_octet(*octet))
}

/// A letter, then letters, digits or `_`, in all at most 32 octets.
fn is_name(word: &[u8]) -> bool
    ensures { result ≡ is_name_in word.now }
{
    match word {
        [first, rest @ ..] => is_letter(*first) && all_name_octets(rest) && rest.len() < 32,
        [] => false,
    }
}

/// The domain has a logical node of this name.
fn has_node(model: &Model, domain: &[u8], node: &[u8]) -> bool
    ensures { result ≡ has_node_in (configured_model model.now) domain.now node.now }
{
    model.resolve(domain, node).is_some()
}

/// A client may define a data set of this name: it is `LN$NAME` of a logical node that is there, in at most 64 octets.
pub fn is_set_name(model: &Model, name: &SetName) -> bool
    ensures { result ≡ is_set_name_in (configured_model model.now) name.now }
{
    let item = name.item.as_slice();
    let has_node = has_node(model, name.domain.as_slice(), front(item));
    let has_name = is_name(behind(item));
    has_node && has_name && item.len() <= OCTETS
}
