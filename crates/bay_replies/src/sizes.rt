//! How many octets results and names have, and what is left after them (ISO 9506-2, AccessResult and Identifier).

ghost use Rattle.std.specs.Prelude.{◌≡◌, ◌<◌, ℕ, length, min, take, IfOk};
ghost use Rattle.bay_model.specs.Sizes.{access_result, are_too_long as are_too_long_in, identifier};
ghost use Rattle.bay_model.specs.Sizes.{within};
ghost use Rattle.bay_replies.specs.Held.{left_of};

use data_lengths::{data_len, element_len};
use std::alloc::AllocError;
use sv_base::{AccessResult, Octs};

/// How many octets a result has, and 4294967295 where there are more.
pub fn result_len(one: &AccessResult) -> u32
    ensures { result ≡ min (length (access_result one.now)) 4294967295 }
{
    match one {
        Ok(value) => data_len(value),
        Err(_) => 3,
    }
}

/// Values and codes are longer than a PDU of this size, where it is below 4294967295.
pub fn are_too_long(size: u32, results: &[AccessResult]) -> bool
    ensures { size < 4294967295 → result ≡ are_too_long_in size results.now }
{
    let mut sum = 0u32;
    for one in results {
        sum = sum.saturating_add(result_len(one));
    }
    size < sum
}

/// How many octets a name has as an Identifier, and 4294967295 where there are more.
fn name_len(name: &[u8]) -> u32
    ensures { result ≡ min (length (identifier name.now)) 4294967295 }
{
    element_len(name.len().min(4294967295) as u32)
}

/// What is left of some octets after as many as these, where 4294967295 stands for more; none where these are more. As many as
/// 4294967295 are out of memory.
pub fn left_behind(left: u32, len: u32) -> Result<Option<u32>, AllocError>
    ensures { (n : ℕ) → len ≡ min n 4294967295 → IfOk result (λ r. r ≡ left_of left n) }
{
    if left < len {
        return Ok(None);
    }
    if len == u32::MAX {
        return Err(AllocError);
    }
    Ok(Some(left - len))
}

/// How many of the names a PDU of this size can hold, and the one after them.
fn count_within(size: u32, names: &[Octs]) -> Result<usize, AllocError>
    ensures { IfOk result (λ k. take k names.now ≡ within size names.now) }
{
    let mut left = size;
    let mut count = 0;
    while count < names.len() {
        let len = name_len(names[count].as_slice());
        count += 1;
        match left_behind(left, len)? {
            Some(rest) => left = rest,
            None => return Ok(count),
        }
    }
    Ok(count)
}

/// Those of the names that a PDU of this size can hold, and the one after them.
pub fn names_within(size: u32, names: Vec<Octs>) -> Result<Vec<Octs>, AllocError>
    ensures { IfOk result (λ v. v.items ≡ within size names.items) }
{
    let mut names = names;
    let count = count_within(size, &names)?;
    names.truncate(count);
    Ok(names)
}
