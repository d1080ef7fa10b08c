//! The logical node whose attributes are gone over, and whether members may name something of it.

ghost use Rattle.std.specs.Prelude.{◌≡◌, OnOk};

use crate::asked::Asked;
use std::alloc::AllocError;

/// A logical node; where nothing of it is wanted, its attributes need not be looked at.
#[derive(Drop)]
pub struct Spot<'a> {
    domain: &'a [u8],
    node: &'a [u8],
    pub is_wanted: bool,
}

impl<'a> Spot<'a> {
    ghost use Rattle.std.specs.Prelude.{◌≡◌, true, OnOk, List, ℕ};
    ghost use Rattle.cfg_nodes.specs.Asked.{IsRight};

    /// No logical node.
    pub fn new() -> Self
        ensures { (refs : List (List ℕ)) → IsRight refs result }
    {
        Spot {
            domain: &[],
            node: &[],
            is_wanted: true,
        }
    }

    /// Goes to a logical node, whose reference is joined in a buffer where it is another one.
    pub fn turn_to(
        &mut self,
        room: &mut Vec<u8>,
        asked: &Asked,
        domain: &'a [u8],
        node: &'a [u8],
    ) -> Result<(), AllocError>
        requires { IsRight asked.now self.old }
        ensures domain { OnOk result (self.new.domain.now ≡ domain.now) }
        ensures node { OnOk result (self.new.node.now ≡ node.now) }
        ensures right { OnOk result (IsRight asked.now self.new) }
    {
        if self.node == node && self.domain == domain {
            return Ok(());
        }
        self.is_wanted = asked.may_want(room, domain, node)?;
        self.domain = domain;
        self.node = node;
        Ok(())
    }
}
