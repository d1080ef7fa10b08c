//! The lines that were read, and what is kept of them.

use crate::draft::config_of;
use crate::known_lines::{Counts, KnownLines};
use cfg_lines::{Line, Place};
use std::alloc::{AllocError, Global};
use std::marker::Model;
use sv_base::{Config, SharedOcts};

/// The lines that were read, and what they say of the next. Contracts see it as the list of the lines, the last first.
#[derive(Drop)]
pub struct Reading {
    kept: KnownLines,
}

impl Model for Reading {
    ghost use Rattle.std.specs.Prelude.{List, reverse};
    ghost use Rattle.std.specs.Coded.{codes};
    ghost use Rattle.sv_base.specs.Tree.{row_code};
    ghost use Rattle.sv_base.specs.Types.{fields_code};
    ghost use Rattle.cfg_lines.specs.declared.line.Line.{Line};
    ghost use Rattle.cfg_reading.specs.Known.{Known, facts_kept};

    ghost Value = { List Line };

    ghost coded = { Prim.hlevel (codes, row_code, fields_code) };

    ghost view = { λ r. reverse r.kept.lines.items };

    ghost invariant = { λ r. Known (reverse r.kept.lines.items)
        (facts_kept r.kept) r.kept.heads r.kept.sets r.kept.names };
}

impl Reading {
    ghost use Rattle.std.specs.Prelude.{◌≡◌, ◌≤◌, ◌<◌, ◌∷◌, [], length, IfOk, OnOk};
    ghost use Rattle.cfg_lines.specs.Before.{number_of, place_of, domain_of, node_of, groups_of};
    ghost use Rattle.cfg_lines.specs.Before.{has_settings as has_settings_before};
    ghost use Rattle.cfg_lines.specs.Before.{domains as domains_before, nodes as nodes_before};
    ghost use Rattle.cfg_lines.specs.Before.{attributes as attributes_before, sets as sets_before};
    ghost use Rattle.cfg_lines.specs.Before.{members as members_before, blocks as blocks_before};
    ghost use Rattle.cfg_lines.specs.Before.{controls as controls_before};
    ghost use Rattle.std.specs.Prelude.{map, reverse};
    ghost use Rattle.std.specs.List.{list_any};
    ghost use Rattle.cfg_lines.specs.Keys.{is_among, octets_of};
    ghost use Rattle.cfg_lines.specs.Paths.{is_taken as is_taken_by};
    ghost use Rattle.cfg_lines.specs.Configs.{config_of as config_of_lines};
    ghost use Rattle.cfg_lines.specs.Claims.{heads as heads_before, sets as set_keys_before};
    ghost use Rattle.cfg_lines.specs.Claims.{claims};

    /// No line was read, and there is capacity for the lines of n octets, at 24 a line.
    pub fn with_capacity(alloc: Global, octets: usize) -> Result<Reading, AllocError>
        ensures { IfOk result (λ r. r ≡ []) }
    {
        Ok(Reading {
            kept: KnownLines::with_capacity(alloc, octets)?,
        })
    }

    /// How many lines were read.
    pub fn len(&self) -> usize
        ensures value { result ≡ length self.now }
        ensures few { result ≤ 20000 }
    {
        self.kept.lines.len()
    }

    /// The lines, from the first to the last.
    pub fn lines(&self) -> &[Line]
        ensures value { reverse result.now ≡ self.now }
        ensures few { length result.now ≤ 20000 }
    {
        &self.kept.lines
    }

    /// The number of the next line.
    pub fn number(&self) -> u32
        ensures { result ≡ number_of self.now }
    {
        self.len() as u32 + 1
    }

    /// Where the next line stands.
    pub fn place(&self) -> Place
        ensures { result ≡ place_of self.now }
    {
        self.kept.place
    }

    /// The name of the domain.
    pub fn domain(&self) -> &[u8]
        ensures { result.now ≡ domain_of self.now }
    {
        self.kept.domain.as_slice()
    }

    /// The name of the domain again. It takes no memory.
    pub fn share_domain(&self) -> Result<SharedOcts, AllocError>
        ensures { IfOk result (λ d. d ≡ domain_of self.now) }
    {
        self.kept.domain.share()
    }

    /// The name of the logical node again. It takes no memory.
    pub fn share_node(&self) -> Result<SharedOcts, AllocError>
        ensures { IfOk result (λ n. n ≡ node_of self.now) }
    {
        self.kept.node.share()
    }

    /// The name of the logical node, empty where there is none.
    pub fn node(&self) -> &[u8]
        ensures { result.now ≡ node_of self.now }
    {
        self.kept.node.as_slice()
    }

    /// How many setting groups the domain has, 0 before its `sgcb`.
    pub fn groups(&self) -> u8
        ensures { result ≡ groups_of self.now }
    {
        self.kept.groups
    }

    /// The domain has an attribute under SG.
    pub fn has_settings(&self) -> bool
        ensures { result ≡ has_settings_before self.now }
    {
        self.kept.has_settings
    }

    /// How many lines of each kind there are.
    pub fn counts(&self) -> Counts
        ensures domains { result.domains ≡ domains_before self.now }
        ensures nodes { result.nodes ≡ nodes_before self.now }
        ensures attributes { result.attributes ≡ attributes_before self.now }
        ensures sets { result.sets ≡ sets_before self.now }
        ensures members { result.members ≡ members_before self.now }
        ensures blocks { result.blocks ≡ blocks_before self.now }
        ensures controls { result.controls ≡ controls_before self.now }
    {
        self.kept.counts
    }

    /// A domain or logical node has this reference.
    pub fn has_head(&self, key: &[u8]) -> bool
        ensures { result ≡ is_among (heads_before self.now) key.now }
    {
        self.kept.heads.has(key)
    }

    /// A data set has this reference.
    pub fn has_set(&self, key: &[u8]) -> bool
        ensures { result ≡ is_among (set_keys_before self.now) key.now }
    {
        self.kept.sets.has(key)
    }

    /// The path can't stand beside those that are taken.
    pub fn is_taken(&self, path: &[u8]) -> bool
        ensures { result ≡ is_taken_by (claims self.now) path.now }
    {
        self.kept.names.is_taken(path)
    }

    /// One of the paths can't stand beside those that are taken.
    pub fn is_one_taken(&self, paths: &[Vec<u8>]) -> bool
        ensures { result ≡ list_any (λ path. is_taken_by (claims self.now) path)
            (map octets_of paths.now) }
    {
        self.kept.names.is_one_taken(paths)
    }

    /// Adds a line. Without memory none is left.
    pub fn add(&mut self, alloc: Global, line: Line) -> Result<(), AllocError>
        requires few { length self.old < 20000 }
        ensures { OnOk result (self.new ≡ line ∷ self.old) }
    {
        let Ok(()) = self.kept.add(alloc, line) else {
            self.kept = KnownLines::new(alloc);
            return Err(AllocError);
        };
        Ok(())
    }

    /// The configuration that the lines make.
    pub fn into_config(self, alloc: Global) -> Result<Config, AllocError>
        ensures { IfOk result (λ c. c ≡ config_of_lines self) }
    {
        let Reading { kept } = self;
        let config = config_of(alloc, kept.lines)?;
        Ok(config)
    }
}
