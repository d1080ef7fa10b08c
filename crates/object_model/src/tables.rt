//! What is found in a configuration: its nodes by their names, and its data sets.

ghost use Rattle.std.specs.Prelude.{◌≡◌, map, IfOk};
ghost use Rattle.sv_base.specs.declared.config.Config.{Config as ModelConfig};
ghost use Rattle.bay_model.specs.Named.{set_defined, member_number, nodes as nodes_of};
ghost use Rattle.name_tree.specs.Finding.{Finds, node_named};
ghost use Rattle.name_tree.specs.Sorting.{variables_after};
ghost use Rattle.object_model.specs.Tables.{IsTables, set_row, node_id};
ghost use Rattle.name_leaves.specs.References.{attr_references};

use crate::listing::list;
use bay_model::{NodeTable, Nodes, SetName, SetRow, SetTable};
use name_leaves::{Leaf, joined};
use name_order::names_after_at;
use name_tree::{Directory, NodeName, Stand, member_of, number_of};
use object_names::{domains, index_of, ordered_lines};
use octet_rows::Index;
use std::alloc::{AllocError, Global};
use sv_base::{Config, NodeId, Octs, SetDef};

/// The domains, by their numbers, and the names of each; the nodes, their names, what stands at them and the data sets, by their
/// numbers; and the leaves of all nodes.
#[derive(Drop)]
pub struct Tables {
    pub domains: Index,
    pub directories: Vec<Directory>,
    pub names: Vec<NodeName>,
    pub nodes: NodeTable,
    pub sets: SetTable,
    pub stands: Vec<Stand>,
    pub leaves: Vec<Leaf>,
}

/// The nodes of references.
fn members_of(
    alloc: Global,
    domains: &Index,
    directories: &[Directory],
    references: &[Octs],
) -> Result<Vec<NodeId>, AllocError>
    ensures { IfOk result (λ v. (c : ModelConfig) → Finds c domains.now directories.now
        → v.items ≡ map node_id (map (member_number (nodes_of c)) references.now)) }
{
    let mut members = Vec::with_capacity(alloc, references.len())?;
    for reference in references {
        let member = member_of(domains, directories, reference.as_slice());
        members.push(NodeId(member))?;
    }
    Ok(members)
}

/// The row of a data set.
fn set_row_of(
    alloc: Global,
    domains: &Index,
    directories: &[Directory],
    set: &SetDef,
) -> Result<SetRow, AllocError>
    ensures { IfOk result (λ r. (c : ModelConfig) → Finds c domains.now directories.now
        → r ≡ set_row (set_defined (nodes_of c) set.now)) }
{
    let item = joined(alloc, set.ln.as_slice(), b'$', set.name.as_slice())?;
    let name = SetName {
        domain: set.domain.copy(alloc)?,
        item: Octs::from_vec(item),
    };
    let members = members_of(alloc, domains, directories, set.members.as_slice())?;
    let nodes = Nodes::from_vec(members);
    Ok(SetRow { name, nodes })
}

/// The data sets, with the numbers of their members.
fn set_rows(
    alloc: Global,
    domains: &Index,
    directories: &[Directory],
    sets: &[SetDef],
) -> Result<Vec<SetRow>, AllocError>
    ensures { IfOk result (λ v. (c : ModelConfig) → Finds c domains.now directories.now
        → v.items ≡ map set_row (map (set_defined (nodes_of c)) sets.now)) }
{
    let mut rows = Vec::with_capacity(alloc, sets.len())?;
    for set in sets {
        rows.push(set_row_of(alloc, domains, directories, set)?)?;
    }
    Ok(rows)
}

impl Tables {
    /// The tables of a configuration, whose attributes have these references.
    pub fn of(alloc: Global, config: &Config, references: &Index) -> Result<Self, AllocError>
        requires { references.now ≡ attr_references config.now }
        ensures { IfOk result (λ t. IsTables config.now t) }
    {
        let names = domains(alloc, config.nodes.as_slice())?;
        let domains = index_of(alloc, &names)?;
        let lines = ordered_lines(alloc, config, &domains, references)?;
        let listing = list(alloc, config, &names, &lines)?;
        let sets = set_rows(
            alloc,
            &domains,
            &listing.directories,
            config.sets.as_slice(),
        )?;
        Ok(Tables {
            domains,
            directories: listing.directories,
            names: listing.names,
            nodes: NodeTable::from_vec(listing.rows),
            sets: SetTable::from_vec(sets),
            stands: listing.stands,
            leaves: listing.leaves,
        })
    }

    /// The number of the node of an item of a domain; none exactly where it is not there.
    pub fn resolve(&self, domain: &[u8], item: &[u8]) -> Option<u32>
        ensures { (c : ModelConfig) → IsTables c self.now
            → result ≡ node_named (nodes_of c) domain.now item.now }
    {
        number_of(&self.domains, &self.directories, domain, item)
    }

    /// The items of a domain that come after a name, ascending by their octets.
    pub fn names_after(
        &self,
        alloc: Global,
        domain: &[u8],
        after: &[u8],
    ) -> Result<Vec<Octs>, AllocError>
        ensures { IfOk result (λ v. (c : ModelConfig) → IsTables c self.now
            → v.items ≡ variables_after c domain.now after.now) }
    {
        match self.domains.place_of(domain) {
            None => Ok(Vec::new(alloc)),
            Some(number) => match self.directories.get(number as usize) {
                None => Ok(Vec::new(alloc)),
                Some(directory) => {
                    let (items, places) = (&directory.items, &directory.ascending);
                    let names = names_after_at(alloc, items, places, after)?;
                    Ok(names)
                }
            },
        }
    }
}
