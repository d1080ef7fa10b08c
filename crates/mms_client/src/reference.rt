//! References of variables.

ghost use Rattle.std.specs.Prelude.{◌≡◌, ◌++◌, ◌↔◌, IsTrue, IfOk, string_bytes};
ghost use Rattle.mms_pdu.specs.AskingOctets.{AreVisible};
ghost use Rattle.mms_client.specs.References.{IsReference, IsBlock, domain_in, item_in};

use std::alloc::{AllocError, Global};

/// Every octet is one of a VisibleString.
fn are_visible(text: &str) -> bool
    ensures { IsTrue result ↔ AreVisible text.now }
{
    text.as_bytes()
        .iter()
        .all(|octet| matches!(*octet, 0x20..=0x7e))
}

/// The text is the reference of a variable: `LD/item`, of at most 129 octets, 0x20 to 0x7e, where LD ends at the first `/`.
pub fn is_reference(text: &str) -> bool
    ensures { IsTrue result ↔ IsReference text.now }
{
    text.len() <= 129 && text.split_once('/').is_some() && are_visible(text)
}

/// The text is the reference of a block: with `$EntryID` or `$RptEna` after it, it is one of a variable.
pub fn is_block(text: &str) -> bool
    ensures { IsTrue result ↔ IsBlock text.now }
{
    text.len() <= 121 && is_reference(text)
}

/// The domain and the item that a reference names.
pub fn split(reference: &str) -> (&str, &str)
    requires { IsReference reference.now }
    ensures { (result.0.now ≡ domain_in reference.now) × (result.1.now ≡ item_in reference.now) }
{
    match reference.split_once('/') {
        Some(parts) => parts,
        None => unreachable!(),
    }
}

/// The reference of a component of a block.
pub fn component(alloc: Global, block: &str, name: &str) -> Result<String, AllocError>
    ensures { IfOk result (λ t. string_bytes t ≡ block.now ++ name.now) }
{
    let mut text = String::from_str(alloc, block)?;
    text.push_str(name)?;
    Ok(text)
}
