//! The words of a line, divided by spaces.

ghost use Rattle.std.specs.Prelude.{◌≡◌, ◌==◌, IfOk, OnOk, option_copied};
ghost use Rattle.text_words.specs.Words.{behind, texts};
ghost use Rattle.std.specs.List.{slice_split};

use smallvec::SmallVec;
use std::alloc::{AllocError, Global};

/// What stands between the separators. Up to ten parts take no memory.
pub fn parts_of<'a>(
    alloc: Global,
    octets: &'a [u8],
    separator: u8,
) -> Result<SmallVec<&'a [u8], 10>, AllocError>
    ensures { IfOk result (λ v. texts v.items ≡ slice_split (λ b. b == separator) octets.now) }
{
    octets.split(|octet| *octet == separator).collect(alloc)
}

/// Puts what stands between the separators in place of what there is. Up to ten parts take no memory.
pub fn put_parts<'a>(
    parts: &mut SmallVec<&'a [u8], 10>,
    octets: &'a [u8],
    separator: u8,
) -> Result<(), AllocError>
    ensures { OnOk result (texts parts.new.items ≡ slice_split (λ b. b == separator) octets.now) }
{
    parts.clear();
    let mut start = 0;
    for (i, octet) in octets.iter().enumerate() {
        if *octet == separator {
            parts.push(&octets[start..i])?;
            start = i + 1;
        }
    }
    parts.push(&octets[start..])?;
    Ok(())
}

/// What stands after a front.
pub fn after_front<'a>(octets: &'a [u8], front: &[u8]) -> Option<&'a [u8]>
    ensures { option_copied result ≡ behind front.now octets.now }
{
    octets.strip_prefix(front)
}
