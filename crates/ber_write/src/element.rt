//! An element: its tag and its length in as few octets as can be, and its content.

ghost use Rattle.std.specs.Prelude.{◌≡◌, ◌<◌, ◌≤◌, ◌^◌, ◌∷◌, ◌++◌, length, take, IfOk, OnOk, OnErr};
ghost use Rattle.std.specs.Int.{to_be_bytes, w32};
ghost use Rattle.sv_base.specs.Data.{length_field};
ghost use Rattle.ber_write.specs.Minimal.{tag_octets, length_octets, head_octets, octets_of};
ghost use Rattle.ber_write.specs.Minimal.{CanBeTag};

use data_lengths::without_zeros;
use std::alloc::{AllocError, Global};

/// How the length of a content is spelled whose number has these four octets: the first octet, and those after it, none to
/// four (X.690, 8.1.3).
pub fn length_parts(content: u32, octets: &[u8; 4]) -> (u8, &[u8])
    requires { octets.now ≡ to_be_bytes w32 content }
    ensures value { result.0 ∷ result.1.now ≡ length_field content }
    ensures few { length result.1.now ≤ 4 }
{
    if content < 128 {
        return (content as u8, &[]);
    }
    let short = without_zeros(octets);
    (128 + short.len() as u8, short)
}

/// How many octets the shortest length field of a content of `n` octets has, 1 to 5 (X.690, 8.1.3).
#[tactic(auto, using(crate::proofs::SameLaws::length_is_field))]
pub fn length_of(n: u32) -> u32
    ensures { result ≡ length (length_octets n) }
{
    let octets = n.to_be_bytes();
    let (_, more) = length_parts(n, &octets);
    1 + more.len() as u32
}

fn put_tag(out: &mut Vec<u8>, tag: u32) -> Result<(), AllocError>
    requires { tag < 2 ^ 24 }
    ensures ok { OnOk result (out.new.items ≡ out.old.items ++ tag_octets tag) }
    ensures err { OnErr result (out.new.items ≡ out.old.items) }
{
    if tag < 256 {
        return out.extend_from_slice(&[tag as u8]);
    }
    if tag < 65536 {
        return out.extend_from_slice(&[(tag / 256) as u8, (tag % 256) as u8]);
    }
    out.extend_from_slice(&[
        (tag / 65536 % 256) as u8,
        (tag / 256 % 256) as u8,
        (tag % 256) as u8,
    ])
}

#[tactic(auto, using(crate::proofs::SameLaws::length_is_field))]
fn put_length(out: &mut Vec<u8>, n: u32) -> Result<(), AllocError>
    ensures ok { OnOk result (out.new.items ≡ out.old.items ++ length_octets n) }
    ensures err { OnErr result (take (length out.old.items) out.new.items ≡ out.old.items) }
{
    let octets = n.to_be_bytes();
    let (first, more) = length_parts(n, &octets);
    out.push(first)?;
    out.extend_from_slice(more)
}

fn put_both(out: &mut Vec<u8>, tag: u32, len: u32) -> Result<(), AllocError>
    requires { tag < 2 ^ 24 }
    ensures ok { OnOk result (out.new.items ≡ out.old.items ++ head_octets tag len) }
    ensures err { OnErr result (take (length out.old.items) out.new.items ≡ out.old.items) }
{
    put_tag(out, tag)?;
    put_length(out, len)
}

/// Adds what stands before a content of `len` octets: the tag, and the length in as few octets as can be. The caller
/// then adds the content.
///
/// Without memory `out` stays as it was.
pub fn put_head(out: &mut Vec<u8>, tag: u32, len: u32) -> Result<(), AllocError>
    requires { CanBeTag tag }
    ensures ok { OnOk result (out.new.items ≡ out.old.items ++ head_octets tag len) }
    ensures err { OnErr result (out.new.items ≡ out.old.items) }
{
    let before = out.len();
    let done = put_both(out, tag, len);
    if done.is_err() {
        out.truncate(before);
    }
    done
}

fn put_parts(out: &mut Vec<u8>, tag: u32, content: &[u8]) -> Result<(), AllocError>
    requires tag { tag < 2 ^ 24 }
    requires len { length content.now < 2 ^ 32 }
    ensures ok { OnOk result (out.new.items ≡ out.old.items ++ octets_of tag content.now) }
    ensures err { OnErr result (take (length out.old.items) out.new.items ≡ out.old.items) }
{
    put_tag(out, tag)?;
    put_length(out, content.len() as u32)?;
    out.extend_from_slice(content)
}

/// Adds the element with this tag, as one big-endian number, and this content. The length takes as few octets as can be.
///
/// Without memory `out` stays as it was.
pub fn put(out: &mut Vec<u8>, tag: u32, content: &[u8]) -> Result<(), AllocError>
    requires tag { CanBeTag tag }
    requires len { length content.now < 2 ^ 32 }
    ensures ok { OnOk result (out.new.items ≡ out.old.items ++ octets_of tag content.now) }
    ensures err { OnErr result (out.new.items ≡ out.old.items) }
{
    let before = out.len();
    let done = put_parts(out, tag, content);
    if done.is_err() {
        out.truncate(before);
    }
    done
}

/// Adds the element with this tag and this content. Where the content is longer than a length field can say, it fails as it does
/// without memory; `out` is then as it was.
pub fn add(out: &mut Vec<u8>, tag: u32, content: &[u8]) -> Result<(), AllocError>
    requires { CanBeTag tag }
    ensures ok { OnOk result (out.new.items ≡ out.old.items ++ octets_of tag content.now) }
    ensures err { OnErr result (out.new.items ≡ out.old.items) }
{
    if content.len() > u32::MAX as usize {
        return Err(AllocError);
    }
    put(out, tag, content)
}

/// The element with this tag and this content.
pub fn enclosed(alloc: Global, tag: u32, content: &[u8]) -> Result<Vec<u8>, AllocError>
    requires { CanBeTag tag }
    ensures { IfOk result (λ v. v.items ≡ octets_of tag content.now) }
{
    let mut out = Vec::new(alloc);
    add(&mut out, tag, content)?;
    Ok(out)
}
