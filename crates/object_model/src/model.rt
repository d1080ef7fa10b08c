//! The model of a configuration.

ghost use Rattle.std.specs.Prelude.{◌≡◌, IfOk};
ghost use Rattle.name_leaves.specs.Attributes.{attr_rows};
ghost use Rattle.name_leaves.specs.References.{block_references as blocks_of};
ghost use Rattle.name_leaves.specs.References.{control_references as controls_of};
ghost use Rattle.name_leaves.specs.References.{attr_references as attrs_of};
ghost use Rattle.object_model.specs.Tables.{IsTables};

use crate::tables::Tables;
use bay_model::{AttrRow, Flags, Names, NodeTable, SetTable, Step};
use config_copies::copy_config;
use name_leaves::{Leaf, What};
use name_order::name_at;
use name_tree::{between, item_at};
use object_names::{Attributes, block_references, control_references};
use octet_rows::Index;
use std::alloc::{AllocError, Global};
use step_fitting::{Counts, step_fits};
use sv_base::{AttrId, BlockNo, Config, CtlNo, NodeId, TypeOf};

/// What a configuration names (IEC 61850-7-2, the information model), with its nodes, attributes, blocks and controls by
/// their numbers. Contracts see it as its configuration.
#[derive(Drop)]
pub struct Model {
    config: Config,
    blocks: Index,
    controls: Index,
    attrs: Index,
    rows: Vec<AttrRow>,
    tables: Tables,
}

impl std::marker::Model for Model {
    ghost use Rattle.sv_base.specs.declared.config.Config.{Config};

    ghost Value = { Config };

    ghost use Rattle.std.specs.Coded.{codes};
    ghost use Rattle.sv_base.specs.Tree.{row_code};
    ghost use Rattle.sv_base.specs.Types.{fields_code};

    ghost coded = { Prim.hlevel (codes, row_code, fields_code) };

    ghost view = { λ m. m.config };

    ghost use Rattle.std.specs.Prelude.{◌≡◌};
    ghost use Rattle.name_leaves.specs.References.{block_references, control_references};
    ghost use Rattle.name_leaves.specs.References.{attr_references};
    ghost use Rattle.std.specs.List.{All};
    ghost use Rattle.sv_base.specs.declared.config.AttrDef.{AttrDef};
    ghost use Rattle.bay_rooms.specs.Slots.{IsSettable};
    ghost use Rattle.name_leaves.specs.Attributes.{attr_rows};
    ghost use Rattle.object_model.specs.Tables.{IsTables};

    ghost invariant = { λ m. (m.blocks ≡ block_references m.config)
        × (m.controls ≡ control_references m.config)
        × (m.attrs ≡ attr_references m.config) × IsTables m.config m.tables
        × All (λ (a : AttrDef). IsSettable a.kind) m.config.attrs
        × (m.rows.items ≡ attr_rows m.config) };
}

/// What is made of a configuration: the references of its blocks, controls and attributes, the rows of these, and its tables.
#[derive(Drop)]
struct Parts {
    blocks: Index,
    controls: Index,
    attrs: Index,
    rows: Vec<AttrRow>,
    tables: Tables,
}

/// The references of the blocks and those of the controls.
fn references_of(alloc: Global, config: &Config) -> Result<(Index, Index), AllocError>
    ensures blocks { IfOk result (λ r. r.0 ≡ blocks_of config.now) }
    ensures controls { IfOk result (λ r. r.1 ≡ controls_of config.now) }
{
    let blocks = block_references(alloc, config)?;
    let controls = control_references(alloc, config)?;
    Ok((blocks, controls))
}

/// What is made of a configuration.
fn parts_of(alloc: Global, config: &Config) -> Result<Parts, AllocError>
    ensures blocks { IfOk result (λ p. p.blocks ≡ blocks_of config.now) }
    ensures controls { IfOk result (λ p. p.controls ≡ controls_of config.now) }
    ensures attrs { IfOk result (λ p. p.attrs ≡ attrs_of config.now) }
    ensures rows { IfOk result (λ p. p.rows.items ≡ attr_rows config.now) }
    ensures tables { IfOk result (λ p. IsTables config.now p.tables) }
{
    let attributes = Attributes::of(alloc, config)?;
    let tables = Tables::of(alloc, config, &attributes.references)?;
    let (blocks, controls) = references_of(alloc, config)?;
    Ok(Parts {
        blocks,
        controls,
        attrs: attributes.references,
        rows: attributes.rows,
        tables,
    })
}

impl Model {
    ghost use Rattle.std.specs.Prelude.{◌≡◌, ◌<◌, length, map, slice_get, IfOk, option_map};
    ghost use Rattle.bay_model.specs.Lookups.{node_of, attr_of};
    ghost use Rattle.bay_model.specs.Attributes.{attributes};
    ghost use Rattle.bay_model.specs.Named.{configured_model, nodes as nodes_of};
    ghost use Rattle.std.specs.List.{All};
    ghost use Rattle.sv_base.specs.declared.config.AttrDef.{AttrDef as AttrLine};
    ghost use Rattle.bay_rooms.specs.Slots.{IsSettable};
    ghost use Rattle.object_model.specs.Fits.{fits as fits_in, attr_types};
    ghost use Rattle.name_tree.specs.Nodes.{node_rows};
    ghost use Rattle.name_tree.specs.Sorting.{variables_after};
    ghost use Rattle.object_model.specs.Tables.{node_named, node_type, set_rows, flags_of};
    ghost use Rattle.name_leaves.specs.Attributes.{types_of};
    ghost use Rattle.name_leaves.specs.Seen.{role_seen};
    ghost use Rattle.name_leaves.specs.Leaves.{leaves, leaf_seen};
    ghost use Rattle.name_leaves.specs.Numbers.{number_in};
    ghost use Rattle.name_leaves.specs.References.{block_references as blocks_of};
    ghost use Rattle.name_leaves.specs.References.{control_references as controls_of};
    ghost use Rattle.name_leaves.specs.References.{attr_references as attrs_of};

    /// The model of a configuration, whose attributes are of the types that an `attr` line may have.
    pub fn build(alloc: Global, config: Config) -> Result<Self, AllocError>
        requires { All (λ (a : AttrLine). IsSettable a.kind) config.attrs }
        ensures { IfOk result (λ m. m ≡ config) }
    {
        match parts_of(alloc, &config) {
            Ok(parts) => Ok(Model {
                config,
                blocks: parts.blocks,
                controls: parts.controls,
                attrs: parts.attrs,
                rows: parts.rows,
                tables: parts.tables,
            }),
            Err(error) => {
                drop(config);
                Err(error)
            }
        }
    }

    /// The same model again.
    pub fn copy(&self, alloc: Global) -> Result<Self, AllocError>
        ensures { IfOk result (λ m. m ≡ self.now) }
    {
        let config = copy_config(alloc, &self.config)?;
        let model = Model::build(alloc, config)?;
        Ok(model)
    }

    /// The configuration.
    pub fn config(&self) -> &Config
        ensures same { result.now ≡ self.now }
        ensures types { All (λ (a : AttrLine). IsSettable a.kind) self.now.attrs }
    {
        &self.config
    }

    /// The report block of a reference `LD/LN$BR$NAME`; none exactly where it is not there.
    pub fn block(&self, reference: &[u8]) -> Option<BlockNo>
        ensures { option_map (λ b. b.0) result ≡ number_in (blocks_of self.now) reference.now }
    {
        self.blocks.place_of(reference).map(BlockNo)
    }

    /// The reference of a report block; none exactly where the block is not there.
    pub fn reference_of(&self, block: BlockNo) -> Option<&[u8]>
        ensures { option_map (λ r. r.now) result ≡ slice_get (blocks_of self.now) block.0 }
    {
        self.blocks.get(block.0 as usize)
    }

    /// The control of a reference `LD/LN$CO$DO`; none exactly where it is not there.
    pub fn control(&self, reference: &[u8]) -> Option<CtlNo>
        ensures { option_map (λ k. k.0) result ≡ number_in (controls_of self.now) reference.now }
    {
        self.controls.place_of(reference).map(CtlNo)
    }

    /// The attribute of a reference `LD/LN$FC$PATH`; none exactly where it is not there.
    pub fn attr(&self, reference: &[u8]) -> Option<AttrId>
        ensures { option_map (λ x. x.0) result ≡ number_in (attrs_of self.now) reference.now }
    {
        self.attrs.place_of(reference).map(AttrId)
    }

    /// The node of an item of a domain (ISO 9506-2, a domain-specific name); none exactly where it is not there. It takes no
    /// memory.
    pub fn resolve(&self, domain: &[u8], item: &[u8]) -> Option<NodeId>
        ensures { option_map (λ n. n.0) result ≡ node_named
            (nodes_of self.now) domain.now item.now }
    {
        self.tables.resolve(domain, item).map(NodeId)
    }

    /// The domain of a node.
    pub fn domain_of(&self, node: NodeId) -> &[u8]
        requires { node.0 < length (nodes_of self.now) }
        ensures { result.now ≡ (node_of (configured_model self.now) node.0).domain }
    {
        let domain = self.tables.names.as_slice()[node.0 as usize].domain;
        name_at(&self.tables.domains, domain)
    }

    /// The item of a node.
    pub fn item_of(&self, node: NodeId) -> &[u8]
        requires { node.0 < length (nodes_of self.now) }
        ensures { result.now ≡ (node_of (configured_model self.now) node.0).item }
    {
        let name = self.tables.names.as_slice()[node.0 as usize];
        item_at(&self.tables.directories, name)
    }

    /// The type of a node's Data (ISO 9506-2, TypeSpecification).
    pub fn type_of(&self, node: NodeId) -> &TypeOf
        requires { node.0 < length (nodes_of self.now) }
        ensures { result.now ≡ node_type self.now node.0 }
    {
        &self.tables.nodes.as_slice()[node.0 as usize].shape.kind
    }

    /// The attributes of a node, in the order of its type.
    pub fn attrs_of(&self, node: NodeId) -> &[AttrId]
        requires { node.0 < length (nodes_of self.now) }
        ensures { map (λ x. x.0) result.now ≡ (node_of (configured_model self.now) node.0).attrs }
    {
        self.tables.nodes.as_slice()[node.0 as usize]
            .shape
            .attrs
            .as_slice()
    }

    /// The leaves of a node, in the order of its type.
    pub fn leaves_of(&self, node: NodeId) -> &[Leaf]
        requires { node.0 < length (nodes_of self.now) }
        ensures { map leaf_seen result.now ≡ leaves
            (node_of (configured_model self.now) node.0).tree }
    {
        let stand = &self.tables.stands.as_slice()[node.0 as usize];
        between(self.tables.leaves.as_slice(), stand.first, stand.end)
    }

    /// What a node is to one that reads or writes it.
    pub fn role_of(&self, node: NodeId) -> What
        requires { node.0 < length (nodes_of self.now) }
        ensures { role_seen result ≡ (node_of (configured_model self.now) node.0).role }
    {
        let stand = &self.tables.stands.as_slice()[node.0 as usize];
        stand.what
    }

    /// The rows of the attributes by their numbers. Their types are those that an `attr` line may have.
    pub fn attr_rows(&self) -> &[AttrRow]
        ensures types { types_of result.now ≡ attr_types self.now }
        ensures settable { All IsSettable (attr_types self.now) }
    {
        self.rows.as_slice()
    }

    /// The trigger conditions of an attribute (IEC 61850-7-2, TriggerConditions).
    pub fn flags(&self, attr: AttrId) -> Flags
        requires { attr.0 < length (attributes self.now) }
        ensures { result ≡ flags_of (attr_of (configured_model self.now) attr.0) }
    {
        self.rows.as_slice()[attr.0 as usize].flags
    }

    /// The configured data sets, with the numbers of their members.
    pub fn sets(&self) -> &SetTable
        ensures { result.now ≡ set_rows self.now }
    {
        &self.tables.sets
    }

    /// The nodes by their numbers.
    pub fn nodes(&self) -> &NodeTable
        ensures { result.now ≡ node_rows self.now }
    {
        &self.tables.nodes
    }

    /// The names of a domain's variables that come after a name, known or not, ascending by their octets (ISO 9506-2,
    /// GetNameList with continueAfter).
    pub fn names_after(
        &self,
        alloc: Global,
        domain: &[u8],
        after: &[u8],
    ) -> Result<Names, AllocError>
        ensures { IfOk result (λ names. names ≡ variables_after self.now domain.now after.now) }
    {
        let names = self.tables.names_after(alloc, domain, after)?;
        Ok(Names::from_vec(names))
    }

    /// Whether a step fits the configuration: each number in it is in range, each setting of its attribute's type and size;
    /// and octets 20 to 7E alone stand in its texts, in the domain-specific names of its variables and in the names of
    /// domains' data sets.
    pub fn fits(&self, step: &Step) -> bool
        ensures { result ≡ fits_in self.now step.now }
    {
        let counts = Counts {
            nodes: self.tables.nodes.len(),
            blocks: self.config.blocks.len(),
            controls: self.config.controls.len(),
        };
        step_fits(counts, self.rows.as_slice(), step)
    }
}
