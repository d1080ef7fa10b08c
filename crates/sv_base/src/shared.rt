//! Rows of octets that several have.

use crate::octs::Octs;
use std::alloc::{AllocError, Global};
use std::marker::Model;
use std::sync::Arc;

/// A row of octets that may be had several times, seen by contracts as the list of them. An empty one takes no memory.
#[derive(Drop)]
pub struct SharedOcts {
    octets: Option<Arc<Octs>>,
}

impl Model for SharedOcts {
    ghost use Rattle.std.specs.Prelude.{List, ℕ, []};
    ghost use Rattle.std.specs.Option.{option_map, unwrap_or};

    ghost Value = { List ℕ };

    ghost view = { λ s. unwrap_or (option_map (λ a. a.value) s.octets) [] };
}

impl SharedOcts {
    ghost use Rattle.std.specs.Prelude.{◌≡◌, [], IfOk};

    /// No octet. It takes no memory.
    pub fn empty() -> Self
        ensures { result ≡ [] }
    {
        SharedOcts { octets: None }
    }

    /// These octets.
    pub fn new(alloc: Global, octets: Octs) -> Result<Self, AllocError>
        ensures { IfOk result (λ s. s ≡ octets) }
    {
        Ok(SharedOcts {
            octets: Some(Arc::new(alloc, octets)?),
        })
    }

    /// The same octets again. It takes no memory.
    pub fn share(&self) -> Result<Self, AllocError>
        ensures { IfOk result (λ s. s ≡ self.now) }
    {
        match &self.octets {
            Some(octets) => Ok(SharedOcts {
                octets: Some(Arc::try_clone(octets)?),
            }),
            None => Ok(SharedOcts { octets: None }),
        }
    }

    /// The octets, borrowed.
    pub fn as_slice(&self) -> &[u8]
        ensures { result.now ≡ self.now }
    {
        match &self.octets {
            Some(octets) => octets.as_slice(),
            None => &[],
        }
    }
}
