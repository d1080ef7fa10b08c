//! The nodes of a configuration, listed domain by domain.

ghost use Rattle.std.specs.Prelude.{◌≡◌, ◌++◌, ℕ, length, IfOk, OnOk};
ghost use Rattle.sv_base.specs.declared.config.Config.{Config as ModelConfig};
ghost use Rattle.bay_model.specs.NamedLines.{domains as domains_of, lines as lines_of};
ghost use Rattle.bay_model.specs.NamedLines.{in_order as lines_in_order};
ghost use Rattle.object_model.specs.Listed.{IsListed, IsOneMore};
ghost use Rattle.name_tree.specs.Nodes.{names_at, places_from};
ghost use Rattle.object_model.specs.Runs.{AreRuns, lines_in};
ghost use Rattle.name_tree.specs.Attrs.{attrs_in_spots, rows_with};
ghost use Rattle.name_tree.specs.Stands.{owns, stands_from};

use crate::growing::{growth_of, usual_nodes};
use crate::runs::{Run, runs_of};
use bay_model::NodeRow;
use name_leaves::{Leaf, count};
use name_tree::{
    Directory, NodeName, Spot, Stand, attrs_of, directory_of, push_nodes, push_stands,
};
use object_names::Line;
use octet_rows::Index;
use std::alloc::{AllocError, Global};
use sv_base::{Config, Octs};

/// The nodes by their numbers: their rows, their names and what stands at them; the names of each domain; and the leaves of
/// all nodes.
#[derive(Drop)]
pub struct Listing {
    pub rows: Vec<NodeRow>,
    pub names: Vec<NodeName>,
    pub directories: Vec<Directory>,
    pub stands: Vec<Stand>,
    pub leaves: Vec<Leaf>,
}

impl Listing {
    ghost use Rattle.std.specs.Prelude.{◌≡◌, [], IfOk};

    /// Nothing is listed, and there is capacity for n nodes.
    fn with_capacity(alloc: Global, nodes: usize) -> Result<Self, AllocError>
        ensures rows { IfOk result (λ l. l.rows.items ≡ []) }
        ensures names { IfOk result (λ l. l.names.items ≡ []) }
        ensures directories { IfOk result (λ l. l.directories.items ≡ []) }
        ensures stands { IfOk result (λ l. l.stands.items ≡ []) }
        ensures leaves { IfOk result (λ l. l.leaves.items ≡ []) }
    {
        Ok(Listing {
            rows: Vec::with_capacity(alloc, nodes)?,
            names: Vec::with_capacity(alloc, nodes)?,
            directories: Vec::new(alloc),
            stands: Vec::with_capacity(alloc, nodes)?,
            leaves: Vec::with_capacity(alloc, nodes)?,
        })
    }
}

/// Adds the nodes at these spots, which have these items, of the domain of this number.
fn push_spots(
    alloc: Global,
    listing: &mut Listing,
    number: u32,
    items: &Index,
    spots: Vec<Spot>,
) -> Result<(), AllocError>
    ensures directories { listing.new.directories ≡ listing.old.directories }
    ensures rows { OnOk result (listing.new.rows.items ≡ listing.old.rows.items ++ rows_with
        (length listing.old.rows.items) items.now
        (attrs_in_spots spots.items) spots.items) }
    ensures names { OnOk result (listing.new.names.items ≡ listing.old.names.items
        ++ names_at number 0 spots.items) }
    ensures stands { OnOk result (listing.new.stands.items ≡ listing.old.stands.items ++ stands_from
        (length listing.old.leaves.items) spots.items) }
    ensures leaves { OnOk result (listing.new.leaves.items ≡ listing.old.leaves.items
        ++ owns spots.items) }
{
    push_stands(&mut listing.stands, &mut listing.leaves, &spots)?;
    let attrs = attrs_of(alloc, &spots)?;
    let (rows, names) = (&mut listing.rows, &mut listing.names);
    push_nodes(rows, names, number, items, spots, &attrs)
}

/// Adds the nodes of a domain.
fn push_domain(
    alloc: Global,
    listing: &mut Listing,
    runs: &[Run<'_, '_>],
    domain: &[u8],
) -> Result<(), AllocError>
    requires { AreRuns runs.now }
    ensures { OnOk result (IsOneMore listing.old listing.new
        (places_from (lines_in runs.now) domain.now)) }
{
    let first = count(listing.rows.as_slice().len())?;
    let number = count(listing.directories.as_slice().len())?;
    let growth = growth_of(alloc, runs, domain)?;
    let (items, spots) = (growth.items, growth.spots);
    if let Err(error) = push_spots(alloc, listing, number, &items, spots) {
        drop(items);
        return Err(error);
    }
    let directory = directory_of(alloc, first, items)?;
    listing.directories.push(directory)?;
    Ok(())
}

/// Gives back the memory beyond what is listed.
fn fit(listing: &mut Listing)
    ensures { (c : ModelConfig) (i : ℕ) → IsListed c i listing.old → IsListed c i listing.new }
{
    listing.rows.shrink_to_fit();
    listing.names.shrink_to_fit();
    listing.stands.shrink_to_fit();
    listing.leaves.shrink_to_fit();
}

/// The nodes of the domains, whose lines stand in their order.
pub fn list(
    alloc: Global,
    config: &Config,
    domains: &[Octs],
    lines: &[Line<'_>],
) -> Result<Listing, AllocError>
    requires domains { domains.now ≡ domains_of config.now }
    requires lines { lines.now ≡ lines_in_order (lines_of config.now) }
    ensures { IfOk result (λ l. IsListed config.now (length (domains_of config.now)) l) }
{
    let mut listing = Listing::with_capacity(alloc, usual_nodes(lines.len()))?;
    let runs = runs_of(alloc, lines)?;
    for domain in domains {
        push_domain(alloc, &mut listing, &runs, domain.as_slice())?;
    }
    fit(&mut listing);
    Ok(listing)
}
