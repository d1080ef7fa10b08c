//! The texts that names are joined of (IEC 61850-8-1, the names of data attributes, of control blocks and of controls).

ghost use Rattle.std.specs.Prelude.{◌≡◌, ◌∷◌, ◌++◌, IfOk, OnOk};
ghost use Rattle.bay_model.specs.NamedLines.{path_item};

use std::alloc::{AllocError, Global};

/// Two texts with an octet between them.
pub fn joined(alloc: Global, before: &[u8], octet: u8, after: &[u8]) -> Result<Vec<u8>, AllocError>
    ensures { IfOk result (λ v. v.items ≡ before.now ++ octet ∷ after.now) }
{
    let octets = before.len().saturating_add(after.len());
    let mut text = Vec::with_capacity(alloc, octets.saturating_add(1))?;
    text.extend_from_slice(before)?;
    text.push(octet)?;
    text.extend_from_slice(after)?;
    Ok(text)
}

/// Adds `LN$FC$PATH`.
pub fn extend_item(text: &mut Vec<u8>, ln: &[u8], fc: &[u8], path: &[u8]) -> Result<(), AllocError>
    ensures { OnOk result (text.new.items ≡ text.old.items ++ path_item ln.now fc.now path.now) }
{
    text.extend_from_slice(ln)?;
    text.push(b'$')?;
    text.extend_from_slice(fc)?;
    text.push(b'$')?;
    text.extend_from_slice(path)?;
    Ok(())
}

/// How many octets `LN$FC$PATH` has.
fn item_len(ln: &[u8], fc: &[u8], path: &[u8]) -> usize {
    ln.len()
        .saturating_add(fc.len())
        .saturating_add(path.len())
        .saturating_add(2)
}

/// `LN$FC$PATH`.
pub fn item_at(alloc: Global, ln: &[u8], fc: &[u8], path: &[u8]) -> Result<Vec<u8>, AllocError>
    ensures { IfOk result (λ v. v.items ≡ path_item ln.now fc.now path.now) }
{
    let mut item = Vec::with_capacity(alloc, item_len(ln, fc, path))?;
    extend_item(&mut item, ln, fc, path)?;
    Ok(item)
}
