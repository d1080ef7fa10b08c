//! What is kept of the lines that were read, so that none is looked at again.

ghost use Rattle.std.specs.Prelude.{◌≡◌, true, codes, if◌then◌else◌};
ghost use Rattle.std.specs.Str.{bytes_eq};

use crate::claiming::{add_attribute, add_block, add_control, add_groups, add_node, add_set};
use cfg_lines::{Keys, Line, Names, Place};
use std::alloc::{AllocError, Global};
use sv_base::{AttrDef, BlockDef, CtlDef, LnDef, Octs, SetDef, SgDef, SharedOcts};

/// The functional constraint is SG, or there was one.
fn is_settings(fc: &[u8], before: bool) -> bool
    ensures { result ≡ (if bytes_eq fc.now (codes "SG") then true else before) }
{
    if fc == b"SG".as_slice() { true } else { before }
}

/// How many lines of a kind there are; of members those of the last data set.
#[derive(Clone, Copy, Debug, PartialEq, Eq)]
pub struct Counts {
    pub domains: u32,
    pub nodes: u32,
    pub attributes: u32,
    pub sets: u32,
    pub members: u32,
    pub blocks: u32,
    pub controls: u32,
}

/// The lines that were read, and what they say of the next.
#[derive(Drop)]
pub struct KnownLines {
    pub lines: Vec<Line>,
    pub place: Place,
    pub domain: SharedOcts,
    pub node: SharedOcts,
    pub groups: u8,
    pub has_settings: bool,
    pub counts: Counts,
    pub heads: Keys,
    pub sets: Keys,
    pub names: Names,
    /// What a line takes is joined here.
    pub room: Vec<u8>,
}

impl KnownLines {
    ghost use Rattle.std.specs.Prelude.{◌≡◌, ◌++◌, ◌∷◌, [], IfOk, OnOk};
    ghost use Rattle.cfg_lines.specs.Facts.{facts_of};
    ghost use Rattle.cfg_lines.specs.declared.line.Line.TheVariants.{Ld, Ln, Attr, Set, Brcb, Ctl};
    ghost use Rattle.cfg_lines.specs.declared.line.Line.TheVariants.{Sgcb};
    ghost use Rattle.cfg_reading.specs.Known.{AreFew, IsShort, Noted, Tells, facts_kept};

    /// What is kept of no line.
    pub fn new(alloc: Global) -> KnownLines
        ensures lines { result.lines.items ≡ [] }
        ensures facts { facts_kept result ≡ facts_of [] }
        ensures heads { result.heads ≡ [] }
        ensures sets { result.sets ≡ [] }
        ensures names { result.names ≡ [] }
    {
        Self::of(alloc, Vec::new(alloc), Names::new(alloc))
    }

    /// What is kept of no line, and memory for the lines of n octets, at 24 a line.
    pub fn with_capacity(alloc: Global, octets: usize) -> Result<KnownLines, AllocError>
        ensures lines { IfOk result (λ k. k.lines.items ≡ []) }
        ensures facts { IfOk result (λ k. facts_kept k ≡ facts_of []) }
        ensures heads { IfOk result (λ k. k.heads ≡ []) }
        ensures sets { IfOk result (λ k. k.sets ≡ []) }
        ensures names { IfOk result (λ k. k.names ≡ []) }
    {
        let count = octets / 24;
        let lines = Vec::with_capacity(alloc, count)?;
        let names = Names::with_capacity(alloc, count, octets)?;
        Ok(Self::of(alloc, lines, names))
    }

    /// What is kept of no line, where lines and names have some capacity.
    fn of(alloc: Global, lines: Vec<Line>, names: Names) -> KnownLines
        ensures lines { result.lines.items ≡ lines.items }
        ensures facts { facts_kept result ≡ facts_of [] }
        ensures heads { result.heads ≡ [] }
        ensures sets { result.sets ≡ [] }
        ensures names { result.names ≡ names }
    {
        KnownLines {
            lines,
            place: Place::Start,
            domain: SharedOcts::empty(),
            node: SharedOcts::empty(),
            groups: 0,
            has_settings: false,
            counts: Counts {
                domains: 0,
                nodes: 0,
                attributes: 0,
                sets: 0,
                members: 0,
                blocks: 0,
                controls: 0,
            },
            heads: Keys::new(alloc),
            sets: Keys::new(alloc),
            names,
            room: Vec::new(alloc),
        }
    }

    fn note_domain(&mut self, alloc: Global, name: &Octs) -> Result<(), AllocError>
        requires few { AreFew self.old.counts }
        ensures noted { OnOk result (Noted (Ld name.now) self.old self.new) }
    {
        self.place = Place::InDomain;
        self.domain = SharedOcts::new(alloc, Octs::copied(alloc, name.as_slice())?)?;
        self.node = SharedOcts::empty();
        self.groups = 0;
        self.has_settings = false;
        self.counts.domains += 1;
        self.heads.add(name.as_slice())
    }

    fn note_node(&mut self, alloc: Global, node: &LnDef) -> Result<(), AllocError>
        requires few { AreFew self.old.counts }
        ensures noted { OnOk result (Noted (Ln node.now) self.old self.new) }
    {
        self.place = Place::InNode;
        self.node = SharedOcts::new(alloc, Octs::copied(alloc, node.ln.as_slice())?)?;
        self.counts.nodes += 1;
        add_node(alloc, &mut self.heads, node)
    }

    fn note_attribute(&mut self, alloc: Global, attr: &AttrDef) -> Result<(), AllocError>
        requires few { AreFew self.old.counts }
        ensures noted { OnOk result (Noted (Attr attr.now) self.old self.new) }
    {
        self.place = Place::InNode;
        self.has_settings = is_settings(attr.fc.as_slice(), self.has_settings);
        self.counts.attributes += 1;
        add_attribute(alloc, &mut self.room, &mut self.names, attr)
    }

    fn note_set(&mut self, alloc: Global, set: &SetDef) -> Result<(), AllocError>
        requires few { AreFew self.old.counts }
        ensures noted { OnOk result (Noted (Set set.now) self.old self.new) }
    {
        self.place = Place::InSet;
        self.counts.sets += 1;
        self.counts.members = 0;
        add_set(alloc, &mut self.sets, set)
    }

    fn note_block(&mut self, alloc: Global, block: &BlockDef) -> Result<(), AllocError>
        requires few { AreFew self.old.counts }
        ensures noted { OnOk result (Noted (Brcb block.now) self.old self.new) }
    {
        self.place = Place::InNode;
        self.counts.blocks += 1;
        add_block(alloc, &mut self.names, block)
    }

    fn note_control(&mut self, alloc: Global, control: &CtlDef) -> Result<(), AllocError>
        requires few { AreFew self.old.counts }
        ensures noted { OnOk result (Noted (Ctl control.now) self.old self.new) }
    {
        self.place = Place::InNode;
        self.counts.controls += 1;
        add_control(alloc, &mut self.names, control)?;
        Ok(())
    }

    fn note_groups(&mut self, alloc: Global, groups: &SgDef) -> Result<(), AllocError>
        ensures noted { OnOk result (Noted (Sgcb groups.now) self.old self.new) }
    {
        self.place = Place::InNode;
        self.groups = groups.count;
        add_groups(alloc, &mut self.names, groups)
    }

    /// Notes a line of which nothing is kept but where the next one stands, and that it is one more member.
    fn note_short(&mut self, line: &Line)
        requires few { AreFew self.old.counts }
        ensures noted { IsShort line.now → Noted line.now self.old self.new }
    {
        match line {
            Line::Config => self.place = Place::Configured,
            Line::Server { .. } => self.place = Place::Served,
            Line::Member(_) => {
                self.place = Place::InMembers;
                self.counts.members += 1;
            }
            Line::End => self.place = Place::Ended,
            _ => {}
        }
    }

    /// Notes what a line says of the next.
    fn note(&mut self, alloc: Global, line: &Line) -> Result<(), AllocError>
        requires few { AreFew self.old.counts }
        ensures noted { OnOk result (Noted line.now self.old self.new) }
    {
        match line {
            Line::Ld(name) => self.note_domain(alloc, name),
            Line::Ln(node) => self.note_node(alloc, node),
            Line::Attr(attr) => self.note_attribute(alloc, attr),
            Line::Set(set) => self.note_set(alloc, set),
            Line::Brcb(block) => self.note_block(alloc, block),
            Line::Ctl(control) => self.note_control(alloc, control),
            Line::Sgcb(groups) => self.note_groups(alloc, groups),
            Line::Skip | Line::Config | Line::Server { .. } | Line::Member(_) | Line::End => {
                self.note_short(line);
                Ok(())
            }
        }
    }

    /// Adds a line.
    pub fn add(&mut self, alloc: Global, line: Line) -> Result<(), AllocError>
        requires few { AreFew self.old.counts }
        ensures lines { OnOk result (self.new.lines.items ≡ self.old.lines.items ++ line ∷ []) }
        ensures noted { OnOk result (Tells line self.old self.new) }
    {
        let Ok(()) = self.note(alloc, &line) else {
            drop(line);
            return Err(AllocError);
        };
        self.lines.push(line)?;
        Ok(())
    }
}
