//! The names directly below a structure.

ghost use Rattle.std.specs.Prelude.{◌≡◌, OnOk};
ghost use Rattle.text_words.specs.Words.{texts};
ghost use Rattle.cfg_lines.specs.Keys.{added};

use indexmap::IndexSet;
use std::alloc::{AllocError, Global};
use std::marker::Model;

/// The parts of a structure, each once, in the order in which they were added; seen by contracts as the list of their names.
#[derive(Drop)]
pub struct PartNames<'a> {
    /// The first: most structures have one part, and it takes no set to find that.
    one: Option<&'a [u8]>,
    /// All of them, where there are two or more.
    several: IndexSet<&'a [u8]>,
}

impl<'a> Model for PartNames<'a> {
    ghost use Rattle.std.specs.Prelude.{List, ℕ};
    ghost use Rattle.cfg_nodes.specs.PartNames.{part_names};

    ghost Value = { List (List ℕ) };

    ghost view = { λ p. part_names p.one p.several.keys };
}

/// Adds a name, which may be there already.
fn insert<'a>(names: &mut IndexSet<&'a [u8]>, name: &'a [u8]) -> Result<(), AllocError>
    ensures { OnOk result (texts names.new.keys ≡ added (texts names.old.keys) name.now) }
{
    names.insert(name)?;
    Ok(())
}

impl<'a> PartNames<'a> {
    ghost use Rattle.std.specs.Prelude.{◌≡◌, [], OnOk};
    ghost use Rattle.text_words.specs.Words.{texts};
    ghost use Rattle.cfg_lines.specs.Keys.{added};

    /// There is none.
    pub fn new(alloc: Global) -> PartNames<'a>
        ensures { result ≡ [] }
    {
        PartNames {
            one: None,
            several: IndexSet::new(alloc),
        }
    }

    /// Adds a name, which may be there already.
    pub fn add(&mut self, name: &'a [u8]) -> Result<(), AllocError>
        ensures { OnOk result (self.new ≡ added self.old name.now) }
    {
        if !self.several.is_empty() {
            insert(&mut self.several, name)?;
            return Ok(());
        }
        let Some(first) = self.one else {
            self.one = Some(name);
            return Ok(());
        };
        if name == first {
            return Ok(());
        }
        insert(&mut self.several, first)?;
        insert(&mut self.several, name)?;
        Ok(())
    }

    /// The names.
    pub fn names(&self) -> &[&'a [u8]]
        ensures { texts result.now ≡ self.now }
    {
        if self.several.is_empty() {
            self.one.as_slice()
        } else {
            self.several.as_slice()
        }
    }
}
