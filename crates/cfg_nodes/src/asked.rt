//! What the members of data sets name.

ghost use Rattle.std.specs.Prelude.{◌≡◌, ◌==◌, ◌≤◌, ◌||◌, List, ℕ, length, reverse, IfOk, OnOk};
ghost use Rattle.std.specs.List.{position_or_len};
ghost use Rattle.std.specs.Str.{bytes_eq};
ghost use Rattle.cfg_lines.specs.Keys.{added, is_among};
ghost use Rattle.cfg_nodes.specs.Asked.{asked, with_asked, head};

use cfg_lines::{Keys, Line, put_node_key};
use std::alloc::{AllocError, Global};
use std::marker::Model;

/// References of members, each once, seen by contracts as the list of them; and what stands before the first `$` of each, which
/// is its logical node.
#[derive(Drop)]
pub struct Asked {
    references: Keys,
    heads: Keys,
}

impl Model for Asked {
    ghost use Rattle.std.specs.Prelude.{List, ℕ};
    ghost use Rattle.cfg_nodes.specs.Asked.{HasHeads};

    ghost Value = { List (List ℕ) };

    ghost view = { λ a. a.references };

    ghost invariant = { λ a. HasHeads a.references a.heads };
}

/// The place of the first `$`, and of the end where there is none.
fn head_len(reference: &[u8]) -> usize
    ensures value { result ≡ position_or_len (λ o. o == 36) reference.now }
    ensures within { result ≤ length reference.now }
{
    for (i, octet) in reference.iter().enumerate() {
        if *octet == b'$' {
            return i;
        }
    }
    reference.len()
}

/// What stands before the first `$`.
fn head_of(reference: &[u8]) -> &[u8]
    ensures { result.now ≡ head reference.now }
{
    &reference[..head_len(reference)]
}

/// Adds a reference and its head.
fn add_both(references: &mut Keys, heads: &mut Keys, reference: &[u8]) -> Result<(), AllocError>
    ensures references { OnOk result (references.new ≡ added references.old reference.now) }
    ensures heads { OnOk result ((q : List ℕ)
        → is_among heads.new q ≡ (bytes_eq q (head reference.now) || is_among heads.old q)) }
{
    heads.add(head_of(reference))?;
    references.add(reference)
}

impl Asked {
    ghost use Rattle.std.specs.Prelude.{◌≡◌, [], false, IfOk, OnOk};
    ghost use Rattle.cfg_lines.specs.Keys.{added};
    ghost use Rattle.cfg_nodes.specs.Asked.{is_wanted, IsApart};

    /// There is none.
    fn new(alloc: Global) -> Asked
        ensures { result ≡ [] }
    {
        Asked {
            references: Keys::new(alloc),
            heads: Keys::new(alloc),
        }
    }

    /// Adds a reference, which may be there already. Without memory there is none any longer.
    fn add(&mut self, alloc: Global, reference: &[u8]) -> Result<(), AllocError>
        ensures { OnOk result (self.new ≡ added self.old reference.now) }
    {
        let Ok(()) = add_both(&mut self.references, &mut self.heads, reference) else {
            *self = Asked::new(alloc);
            return Err(AllocError);
        };
        Ok(())
    }

    /// The name is one of the references, or has one as a structure above it.
    pub fn wants(&self, name: &[u8]) -> bool
        ensures { result ≡ is_wanted self.now name.now }
    {
        self.references.has_or_above(name)
    }

    /// A member may name something of a logical node, whose reference is joined in a buffer.
    pub fn may_want(
        &self,
        room: &mut Vec<u8>,
        domain: &[u8],
        node: &[u8],
    ) -> Result<bool, AllocError>
        ensures { IfOk result (λ may. may ≡ false → IsApart self.now domain.now node.now) }
    {
        put_node_key(room, domain, node)?;
        Ok(self.heads.has(head_of(room)))
    }
}

/// Adds the reference of a line that is a member, which may be there already.
fn add_member(alloc: Global, refs: &mut Asked, line: &Line) -> Result<(), AllocError>
    ensures { OnOk result (refs.new ≡ with_asked refs.old line.now) }
{
    match line {
        Line::Member(reference) => refs.add(alloc, reference.as_slice()),
        _ => Ok(()),
    }
}

/// The references of the members among lines, each once.
pub fn asked_of(alloc: Global, lines: &[Line]) -> Result<Asked, AllocError>
    ensures { IfOk result (λ refs. refs ≡ asked (reverse lines.now)) }
{
    let mut refs = Asked::new(alloc);
    for line in lines {
        add_member(alloc, &mut refs, line)?;
    }
    Ok(refs)
}
