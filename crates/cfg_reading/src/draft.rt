//! The configuration of lines that were read.

ghost use Rattle.std.specs.Prelude.{◌≡◌, ◌++◌, ◌∷◌, [], reverse, IfOk, OnOk};
ghost use Rattle.cfg_lines.specs.Configs.{with_member, with_line, no_config, config_on};
ghost use Rattle.cfg_reading.specs.Drafts.{drafted};

use cfg_lines::Line;
use std::alloc::{AllocError, Global};
use sv_base::{
    AttrDef, AttrDefs, BlockDef, BlockDefs, Config, CtlDef, CtlDefs, LnDef, LnDefs, Octs, OctsList,
    SetDef, SetDefs, SgDef, SgDefs,
};
use text_words::empty;

/// A configuration that is made line by line.
#[derive(Drop)]
pub struct Draft {
    vendor: Octs,
    model: Octs,
    revision: Octs,
    nodes: Vec<LnDef>,
    attrs: Vec<AttrDef>,
    sets: Vec<SetDef>,
    blocks: Vec<BlockDef>,
    controls: Vec<CtlDef>,
    groups: Vec<SgDef>,
}

fn push<T: Drop>(items: &mut Vec<T>, item: T) -> Result<(), AllocError>
    ensures { OnOk result (items.new.items ≡ items.old.items ++ item ∷ []) }
{
    items.push(item)?;
    Ok(())
}

/// Adds a member to the last data set.
fn push_member(sets: &mut Vec<SetDef>, reference: Octs) -> Result<(), AllocError>
    ensures { OnOk result (sets.new.items ≡ with_member sets.old.items reference) }
{
    let Some(set) = sets.pop() else {
        return Ok(());
    };
    let SetDef {
        line,
        domain,
        ln,
        name,
        members,
    } = set;
    let mut members = members.into_vec();
    members.push(reference)?;
    sets.push(SetDef {
        line,
        domain,
        ln,
        name,
        members: OctsList::from_vec(members),
    })?;
    Ok(())
}

impl Draft {
    ghost use Rattle.std.specs.Prelude.{◌≡◌, [], OnOk};
    ghost use Rattle.cfg_lines.specs.Configs.{with_line, no_config};
    ghost use Rattle.cfg_reading.specs.Drafts.{drafted};

    fn new(alloc: Global, attrs: Vec<AttrDef>) -> Draft
        requires { attrs.items ≡ [] }
        ensures { drafted result ≡ no_config }
    {
        Draft {
            vendor: empty(alloc),
            model: empty(alloc),
            revision: empty(alloc),
            nodes: Vec::new(alloc),
            attrs,
            sets: Vec::new(alloc),
            blocks: Vec::new(alloc),
            controls: Vec::new(alloc),
            groups: Vec::new(alloc),
        }
    }

    fn add(&mut self, line: Line) -> Result<(), AllocError>
        ensures { OnOk result (drafted self.new ≡ with_line line (drafted self.old)) }
    {
        match line {
            Line::Server {
                vendor,
                model,
                revision,
            } => {
                self.vendor = vendor;
                self.model = model;
                self.revision = revision;
                Ok(())
            }
            Line::Ln(node) => push(&mut self.nodes, node),
            Line::Attr(attr) => push(&mut self.attrs, attr),
            Line::Set(set) => push(&mut self.sets, set),
            Line::Member(reference) => push_member(&mut self.sets, reference),
            Line::Brcb(block) => push(&mut self.blocks, block),
            Line::Ctl(control) => push(&mut self.controls, control),
            Line::Sgcb(groups) => push(&mut self.groups, groups),
            _ => Ok(()),
        }
    }

    fn into_config(self) -> Config
        ensures { result ≡ drafted self }
    {
        let mut attrs = self.attrs;
        attrs.shrink_to_fit();
        Config {
            vendor: self.vendor,
            model: self.model,
            revision: self.revision,
            nodes: LnDefs::from_vec(self.nodes),
            attrs: AttrDefs::from_vec(attrs),
            sets: SetDefs::from_vec(self.sets),
            blocks: BlockDefs::from_vec(self.blocks),
            controls: CtlDefs::from_vec(self.controls),
            groups: SgDefs::from_vec(self.groups),
        }
    }
}

/// The configuration that these lines make, from the first to the last.
pub fn config_of(alloc: Global, lines: Vec<Line>) -> Result<Config, AllocError>
    ensures { IfOk result (λ c. c ≡ config_on no_config lines.items) }
{
    let attrs = Vec::with_capacity(alloc, lines.len())?;
    let mut draft = Draft::new(alloc, attrs);
    for line in lines {
        draft.add(line)?;
    }
    Ok(draft.into_config())
}
