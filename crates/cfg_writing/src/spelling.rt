//! The lines of a configuration, each in its shortest spelling.

ghost use Rattle.std.specs.Prelude.{◌≡◌, ◌++◌, ◌∷◌, [], map, OnOk};
ghost use Rattle.std.specs.Fmt.{decimal};
ghost use Rattle.std.specs.List.{flat_map, join_with_byte};
ghost use Rattle.sv_base.specs.Same.{values_of};
ghost use Rattle.cfg_lines.specs.declared.line.Line.TheVariants.{Config, Server, Ld, Ln, Attr, Set};
ghost use Rattle.cfg_lines.specs.declared.line.Line.TheVariants.{Member, Brcb, Ctl, Sgcb, End};
ghost use Rattle.text_words.specs.Spelled.{bits_word as word_of_bits, value_word as word_of_value};
ghost use Rattle.text_words.specs.Spelled.{type_word as word_of_type};
ghost use Rattle.text_words.specs.Spelled.{flags_word as word_of_flags, spaced};
ghost use Rattle.cfg_writing.specs.Written.{line_text, text_of, with_members};

use std::alloc::{AllocError, Global};
use sv_base::{AttrDef, BlockDef, CtlDef, LnDef, Octs, SetDef, SgDef};
use text_words::{
    flags_word, push_bits, push_number, push_text, push_type, push_values, push_word,
};

/// Adds the first two lines: `config`, and `server` with what Identify answers.
#[tactic(auto, unfolding(cfg_lines::specs::Spelled::words))]
pub fn push_heading(
    out: &mut Vec<u8>,
    vendor: &[u8],
    model: &[u8],
    revision: &[u8],
) -> Result<(), AllocError>
    ensures { OnOk result (out.new.items ≡ out.old.items ++ line_text Config ++ line_text
        (Server vendor.now model.now revision.now)) }
{
    out.extend_from_slice(b"config 1\nserver")?;
    push_word(out, vendor)?;
    push_word(out, model)?;
    push_word(out, revision)?;
    out.extend_from_slice(b"\n")
}

/// Adds the line that begins a domain.
#[tactic(auto, unfolding(cfg_lines::specs::Spelled::words))]
pub fn push_domain(out: &mut Vec<u8>, name: &[u8]) -> Result<(), AllocError>
    ensures { OnOk result (out.new.items ≡ out.old.items ++ line_text (Ld name.now)) }
{
    out.extend_from_slice(b"ld")?;
    push_word(out, name)?;
    out.extend_from_slice(b"\n")
}

/// Adds the line that begins a logical node.
#[tactic(auto, unfolding(cfg_lines::specs::Spelled::words))]
pub fn push_node(out: &mut Vec<u8>, node: &LnDef) -> Result<(), AllocError>
    ensures { OnOk result (out.new.items ≡ out.old.items ++ line_text (Ln node.now)) }
{
    out.extend_from_slice(b"ln")?;
    push_word(out, node.ln.as_slice())?;
    out.extend_from_slice(b"\n")
}

/// Adds the type, the trigger options and the values of an attribute.
fn push_contents(alloc: Global, out: &mut Vec<u8>, attr: &AttrDef) -> Result<(), AllocError>
    ensures { OnOk result (out.new.items ≡ out.old.items ++ spaced
        (join_with_byte 32 (word_of_type attr.now.kind
        ∷ word_of_flags attr.now.dchg attr.now.qchg attr.now.dupd ∷ map word_of_value
        (values_of attr.now.values)))) }
{
    push_type(out, &attr.kind)?;
    push_word(out, flags_word(attr.dchg, attr.qchg, attr.dupd))?;
    push_values(alloc, out, attr.values.as_slice())?;
    Ok(())
}

/// Adds the line of an attribute.
#[tactic(auto, unfolding(cfg_lines::specs::Spelled::words))]
pub fn push_attribute(alloc: Global, out: &mut Vec<u8>, attr: &AttrDef) -> Result<(), AllocError>
    ensures { OnOk result (out.new.items ≡ out.old.items ++ line_text (Attr attr.now)) }
{
    out.extend_from_slice(b"attr")?;
    push_word(out, attr.fc.as_slice())?;
    push_word(out, attr.path.as_slice())?;
    push_contents(alloc, out, attr)?;
    out.extend_from_slice(b"\n")
}

/// Adds the line of a data set's member.
#[tactic(auto, unfolding(cfg_lines::specs::Spelled::words))]
fn push_member(out: &mut Vec<u8>, reference: &[u8]) -> Result<(), AllocError>
    ensures { OnOk result (out.new.items ≡ out.old.items ++ line_text (Member reference.now)) }
{
    out.extend_from_slice(b"member")?;
    push_word(out, reference)?;
    out.extend_from_slice(b"\n")
}

fn push_members(out: &mut Vec<u8>, references: &[Octs]) -> Result<(), AllocError>
    ensures { OnOk result (out.new.items ≡ out.old.items ++ text_of (map Member references.now)) }
{
    for reference in references {
        push_member(out, reference.as_slice())?;
    }
    Ok(())
}

/// Adds the lines of a data set: its own, and those of its members.
#[tactic(auto, unfolding(cfg_lines::specs::Spelled::words))]
pub fn push_set(out: &mut Vec<u8>, set: &SetDef) -> Result<(), AllocError>
    ensures { OnOk result (out.new.items ≡ out.old.items ++ text_of (with_members (Set set.now))) }
{
    out.extend_from_slice(b"set")?;
    push_word(out, set.name.as_slice())?;
    out.extend_from_slice(b"\n")?;
    push_members(out, set.members.as_slice())
}

/// Adds ConfRev, OptFlds, BufTm, TrgOps, IntgPd and the capacity of a report control block.
fn push_options(out: &mut Vec<u8>, block: &BlockDef) -> Result<(), AllocError>
    ensures { OnOk result (out.new.items ≡ out.old.items ++ flat_map spaced
        (decimal block.now.conf_rev ∷ word_of_bits block.now.opt_flds ∷ decimal block.now.buf_tm
        ∷ word_of_bits block.now.trg_ops ∷ decimal block.now.intg_pd
        ∷ decimal block.now.capacity ∷ [])) }
{
    push_number(out, u64::from(block.conf_rev))?;
    push_bits(out, block.opt_flds.as_slice())?;
    push_number(out, u64::from(block.buf_tm))?;
    push_bits(out, block.trg_ops.as_slice())?;
    push_number(out, u64::from(block.intg_pd))?;
    push_number(out, u64::from(block.capacity))
}

/// Adds the line of a report control block.
#[tactic(auto, unfolding(cfg_lines::specs::Spelled::words))]
pub fn push_block(out: &mut Vec<u8>, block: &BlockDef) -> Result<(), AllocError>
    ensures { OnOk result (out.new.items ≡ out.old.items ++ line_text (Brcb block.now)) }
{
    out.extend_from_slice(b"brcb")?;
    push_word(out, block.name.as_slice())?;
    push_text(out, block.rpt_id.as_slice())?;
    push_text(out, block.dat_set.as_slice())?;
    push_options(out, block)?;
    out.extend_from_slice(b"\n")
}

/// Adds the line of a control.
#[tactic(auto, unfolding(cfg_lines::specs::Spelled::words))]
pub fn push_control(out: &mut Vec<u8>, control: &CtlDef) -> Result<(), AllocError>
    ensures { OnOk result (out.new.items ≡ out.old.items ++ line_text (Ctl control.now)) }
{
    out.extend_from_slice(b"ctl")?;
    push_word(out, control.path.as_slice())?;
    push_number(out, u64::from(control.model))?;
    push_number(out, u64::from(control.timeout))?;
    push_number(out, u64::from(control.class))?;
    push_type(out, &control.kind)?;
    out.extend_from_slice(b"\n")
}

/// Adds the line of a setting group control block.
#[tactic(auto, unfolding(cfg_lines::specs::Spelled::words))]
pub fn push_groups(out: &mut Vec<u8>, groups: &SgDef) -> Result<(), AllocError>
    ensures { OnOk result (out.new.items ≡ out.old.items ++ line_text (Sgcb groups.now)) }
{
    out.extend_from_slice(b"sgcb")?;
    push_number(out, u64::from(groups.count))?;
    push_number(out, u64::from(groups.active))?;
    out.extend_from_slice(b"\n")
}

/// Adds the last line.
#[tactic(auto, unfolding(cfg_lines::specs::Spelled::words))]
pub fn push_end(out: &mut Vec<u8>) -> Result<(), AllocError>
    ensures { OnOk result (out.new.items ≡ out.old.items ++ line_text End) }
{
    out.extend_from_slice(b"end\n")
}
