//! What a line says, word by word.

ghost use Rattle.std.specs.Prelude.{◌≡◌, ◌<◌, length, map, IfOk, option_copied};
ghost use Rattle.text_words.specs.Words.{texts};
ghost use Rattle.cfg_lines.specs.Before.{domain_of, node_of};
ghost use Rattle.cfg_parser.specs.Reader.{Gives};
ghost use Rattle.cfg_parser.specs.Contents.{config_at, domain_at, node_at, set_at, member_at};
ghost use Rattle.cfg_parser.specs.Contents.{typed_at, attribute_at, block_texts_at};
ghost use Rattle.cfg_parser.specs.Contents.{block_options_at, block_triggers_at, block_fields_at};
ghost use Rattle.cfg_parser.specs.Contents.{block_at, control_type_at};
ghost use Rattle.cfg_parser.specs.Contents.{model_of as model_number, control_fields_at};
ghost use Rattle.cfg_parser.specs.Contents.{control_at, group_fields_at, groups_at};

use crate::fault::{Kind, LineFault};
use cfg_lines::{Line, control_keys, group_key, item_key, node_item, node_key, put_item_key};
use cfg_reading::Reading;
use std::alloc::{AllocError, Global};
use sv_base::{
    AttrDef, Bits, BlockDef, CtlDef, FirstValues, LnDef, Octs, OctsList, SetDef, SgDef, SharedOcts,
    ShortOcts, TypeOf, Value,
};
use text_words::{
    bits, flags_of, is_fc, is_member, is_name, is_path, number_between, text, type_of, values_of,
};

/// The most octets of a line, and so of a text in it.
pub const MOST_OCTETS: u16 = 1000;

/// `config` and its version.
pub fn config_line(version: &[u8]) -> Result<Line, LineFault>
    ensures { Gives result (config_at version.now) }
{
    match number_between(version, 1, 1) {
        Some(_) => Ok(Line::Config),
        None => Err(LineFault::Refused(Kind::Number)),
    }
}

/// `ld` and the name of a domain.
#[tactic(auto, unfolding(crate::specs::Contents::domain_at))]
pub fn domain_line(alloc: Global, before: &Reading, name: &[u8]) -> Result<Line, LineFault>
    ensures { Gives result (domain_at before.now name.now) }
{
    if !is_name(name) {
        return Err(LineFault::Refused(Kind::Name));
    }
    if before.has_head(name) {
        return Err(LineFault::Refused(Kind::Duplicate));
    }
    Ok(Line::Ld(Octs::copied(alloc, name)?))
}

/// `ln` and the name of a logical node.
#[tactic(auto, unfolding(crate::specs::Contents::node_at))]
pub fn node_line(alloc: Global, before: &Reading, name: &[u8]) -> Result<Line, LineFault>
    ensures { Gives result (node_at before.now name.now) }
{
    if !is_name(name) {
        return Err(LineFault::Refused(Kind::Name));
    }
    let key = node_key(alloc, before.domain(), name)?;
    if before.has_head(&key) {
        return Err(LineFault::Refused(Kind::Duplicate));
    }
    Ok(Line::Ln(LnDef {
        line: before.number(),
        domain: Octs::copied(alloc, before.domain())?,
        ln: Octs::copied(alloc, name)?,
    }))
}

/// `set` and the name of a data set.
#[tactic(auto, unfolding(crate::specs::Contents::set_at))]
pub fn set_line(alloc: Global, before: &Reading, name: &[u8]) -> Result<Line, LineFault>
    ensures { Gives result (set_at before.now name.now) }
{
    if !is_name(name) {
        return Err(LineFault::Refused(Kind::Name));
    }
    let key = node_item(alloc, before.domain(), before.node(), name)?;
    if before.has_set(&key) {
        return Err(LineFault::Refused(Kind::Duplicate));
    }
    Ok(Line::Set(SetDef {
        line: before.number(),
        domain: Octs::copied(alloc, before.domain())?,
        ln: Octs::copied(alloc, before.node())?,
        name: Octs::copied(alloc, name)?,
        members: OctsList::from_vec(Vec::new(alloc)),
    }))
}

/// `member` and the reference of a node.
pub fn member_line(alloc: Global, reference: &[u8]) -> Result<Line, LineFault>
    ensures { Gives result (member_at reference.now) }
{
    if !is_member(alloc, reference)? {
        return Err(LineFault::Refused(Kind::Name));
    }
    Ok(Line::Member(Octs::copied(alloc, reference)?))
}

/// The names of an attribute: its domain, its logical node, its functional constraint and its path.
fn attribute_names(
    alloc: Global,
    before: &Reading,
    fc: &[u8],
    path: &[u8],
) -> Result<(SharedOcts, SharedOcts, ShortOcts, ShortOcts), AllocError>
    ensures { IfOk result (λ names. names
        ≡ (domain_of before.now, node_of before.now, fc.now, path.now)) }
{
    Ok((
        before.share_domain()?,
        before.share_node()?,
        ShortOcts::from_slice(alloc, fc)?,
        ShortOcts::from_slice(alloc, path)?,
    ))
}

/// The type, trigger options and values of an attribute.
#[tactic(auto, unfolding(crate::specs::Contents::typed_at))]
fn typed_line(
    alloc: Global,
    before: &Reading,
    fc: &[u8],
    path: &[u8],
    kind: &[u8],
    flags: &[u8],
    words: &[&[u8]],
) -> Result<Line, LineFault>
    ensures { Gives result (typed_at before.now fc.now path.now kind.now flags.now
        (texts words.now)) }
{
    let Some(kind) = type_of(kind) else {
        return Err(LineFault::Refused(Kind::TypeName));
    };
    let Some(flags) = flags_of(flags) else {
        return Err(LineFault::Refused(Kind::Flags));
    };
    let Some(values) = values_of(alloc, &kind, words)? else {
        return Err(LineFault::Refused(Kind::Value));
    };
    let Ok((domain, ln, fc, path)) = attribute_names(alloc, before, fc, path) else {
        drop(values);
        drop(kind);
        return Err(LineFault::Memory);
    };
    Ok(Line::Attr(AttrDef {
        line: before.number(),
        domain,
        ln,
        fc,
        path,
        kind,
        dchg: flags.dchg,
        qchg: flags.qchg,
        dupd: flags.dupd,
        values: FirstValues::new(values),
    }))
}

/// `attr` and what describes an attribute, whose reference is joined in a buffer.
#[tactic(auto, unfolding(crate::specs::Contents::attribute_at))]
pub fn attribute_line(
    alloc: Global,
    before: &Reading,
    room: &mut Vec<u8>,
    fc: &[u8],
    path: &[u8],
    kind: &[u8],
    flags: &[u8],
    words: &[&[u8]],
) -> Result<Line, LineFault>
    ensures { Gives result (attribute_at before.now fc.now path.now kind.now flags.now
        (texts words.now)) }
{
    if !is_fc(fc) || !is_path(path) {
        return Err(LineFault::Refused(Kind::Name));
    }
    put_item_key(room, before.domain(), before.node(), fc, path)?;
    if before.is_taken(room) {
        return Err(LineFault::Refused(Kind::Duplicate));
    }
    typed_line(alloc, before, fc, path, kind, flags, words)
}

/// RptID and DatSet.
fn block_texts(alloc: Global, rpt_id: &[u8], dat_set: &[u8]) -> Result<(Octs, Octs), LineFault>
    ensures { Gives result (block_texts_at rpt_id.now dat_set.now) }
{
    let Some(rpt_id) = text(alloc, rpt_id, 129)? else {
        return Err(LineFault::Refused(Kind::Value));
    };
    let Some(dat_set) = text(alloc, dat_set, MOST_OCTETS)? else {
        return Err(LineFault::Refused(Kind::Value));
    };
    Ok((rpt_id, dat_set))
}

/// ConfRev, OptFlds and BufTm.
fn block_options(
    alloc: Global,
    conf_rev: &[u8],
    opt_flds: &[u8],
    buf_tm: &[u8],
) -> Result<(u32, Bits, u32), LineFault>
    ensures { Gives result (block_options_at conf_rev.now opt_flds.now buf_tm.now) }
{
    let Some(conf_rev) = number_between(conf_rev, 1, 4294967295) else {
        return Err(LineFault::Refused(Kind::Number));
    };
    let Some(opt_flds) = bits(alloc, opt_flds, 10)? else {
        return Err(LineFault::Refused(Kind::Value));
    };
    let Some(buf_tm) = number_between(buf_tm, 0, 4294967295) else {
        return Err(LineFault::Refused(Kind::Number));
    };
    Ok((conf_rev, opt_flds, buf_tm))
}

/// TrgOps, IntgPd and the capacity.
fn block_triggers(
    alloc: Global,
    trg_ops: &[u8],
    intg_pd: &[u8],
    capacity: &[u8],
) -> Result<(Bits, u32, u32), LineFault>
    ensures { Gives result (block_triggers_at trg_ops.now intg_pd.now capacity.now) }
{
    let Some(trg_ops) = bits(alloc, trg_ops, 6)? else {
        return Err(LineFault::Refused(Kind::Value));
    };
    let Some(intg_pd) = number_between(intg_pd, 0, 4294967295) else {
        return Err(LineFault::Refused(Kind::Number));
    };
    let Some(capacity) = number_between(capacity, 1, 1048576) else {
        return Err(LineFault::Refused(Kind::Number));
    };
    Ok((trg_ops, intg_pd, capacity))
}

/// The words that describe a report control block.
#[derive(Clone, Copy)]
pub struct BlockWords<'a> {
    pub name: &'a [u8],
    pub rpt_id: &'a [u8],
    pub dat_set: &'a [u8],
    pub conf_rev: &'a [u8],
    pub opt_flds: &'a [u8],
    pub buf_tm: &'a [u8],
    pub trg_ops: &'a [u8],
    pub intg_pd: &'a [u8],
    pub capacity: &'a [u8],
}

/// The numbers and values of a report control block.
#[tactic(auto, unfolding(crate::specs::Contents::block_fields_at))]
fn block_fields(alloc: Global, before: &Reading, words: BlockWords<'_>) -> Result<Line, LineFault>
    ensures { Gives result (block_fields_at before.now words.entry.name.now words.entry.rpt_id.now
        words.entry.dat_set.now
        words.entry.conf_rev.now words.entry.opt_flds.now words.entry.buf_tm.now
        words.entry.trg_ops.now words.entry.intg_pd.now words.entry.capacity.now) }
{
    let (rpt_id, dat_set) = block_texts(alloc, words.rpt_id, words.dat_set)?;
    let (conf_rev, opt_flds, buf_tm) = block_options(
        alloc,
        words.conf_rev,
        words.opt_flds,
        words.buf_tm,
    )?;
    let (trg_ops, intg_pd, capacity) = block_triggers(
        alloc,
        words.trg_ops,
        words.intg_pd,
        words.capacity,
    )?;
    Ok(Line::Brcb(BlockDef {
        line: before.number(),
        domain: Octs::copied(alloc, before.domain())?,
        ln: Octs::copied(alloc, before.node())?,
        name: Octs::copied(alloc, words.name)?,
        rpt_id,
        dat_set,
        conf_rev,
        opt_flds,
        buf_tm,
        trg_ops,
        intg_pd,
        capacity,
    }))
}

/// `brcb` and what describes a report control block.
#[tactic(auto, unfolding(crate::specs::Contents::block_at))]
pub fn block_line(alloc: Global, before: &Reading, words: BlockWords<'_>) -> Result<Line, LineFault>
    ensures { Gives result (block_at before.now words.entry.name.now words.entry.rpt_id.now
        words.entry.dat_set.now
        words.entry.conf_rev.now words.entry.opt_flds.now words.entry.buf_tm.now
        words.entry.trg_ops.now words.entry.intg_pd.now words.entry.capacity.now) }
{
    if !is_name(words.name) {
        return Err(LineFault::Refused(Kind::Name));
    }
    let key = item_key(alloc, before.domain(), before.node(), b"BR", words.name)?;
    if before.is_taken(&key) {
        return Err(LineFault::Refused(Kind::Duplicate));
    }
    block_fields(alloc, before, words)
}

/// The type of a control's value.
fn control_type(word: &[u8]) -> Option<TypeOf>
    ensures { result ≡ control_type_at word.now }
{
    if word == b"bool".as_slice() {
        Some(TypeOf::Bool)
    } else if word == b"int32".as_slice() {
        Some(TypeOf::Int(32))
    } else {
        None
    }
}

/// The number of the model, and 0 where it is none.
fn model_of(model: &[u8]) -> u32
    ensures { result ≡ model_number model.now }
{
    number_between(model, 0, 4).unwrap_or(0)
}

/// The numbers and the type of a control.
#[tactic(auto, unfolding(crate::specs::Contents::control_fields_at))]
fn control_fields(
    alloc: Global,
    before: &Reading,
    path: &[u8],
    model: &[u8],
    timeout: &[u8],
    class: &[u8],
    kind: &[u8],
) -> Result<Line, LineFault>
    ensures { Gives result (control_fields_at before.now path.now model.now timeout.now
        class.now kind.now) }
{
    let Some(model) = number_between(model, 0, 4) else {
        return Err(LineFault::Refused(Kind::Number));
    };
    let Some(timeout) = number_between(timeout, 1, 4294967295) else {
        return Err(LineFault::Refused(Kind::Number));
    };
    let Some(class) = number_between(class, 0, 1) else {
        return Err(LineFault::Refused(Kind::Number));
    };
    let Some(kind) = control_type(kind) else {
        return Err(LineFault::Refused(Kind::TypeName));
    };
    Ok(Line::Ctl(CtlDef {
        line: before.number(),
        domain: Octs::copied(alloc, before.domain())?,
        ln: Octs::copied(alloc, before.node())?,
        path: Octs::copied(alloc, path)?,
        model: model as u8,
        timeout,
        class: class as u8,
        kind,
    }))
}

/// `ctl` and what describes a control.
#[tactic(auto, unfolding(crate::specs::Contents::control_at))]
pub fn control_line(
    alloc: Global,
    before: &Reading,
    path: &[u8],
    model: &[u8],
    timeout: &[u8],
    class: &[u8],
    kind: &[u8],
) -> Result<Line, LineFault>
    ensures { Gives result (control_at before.now path.now model.now timeout.now
        class.now kind.now) }
{
    if !is_path(path) {
        return Err(LineFault::Refused(Kind::Name));
    }
    let keys = control_keys(alloc, before.domain(), before.node(), path, model_of(model))?;
    if before.is_one_taken(&keys) {
        return Err(LineFault::Refused(Kind::Duplicate));
    }
    control_fields(alloc, before, path, model, timeout, class, kind)
}

/// How many setting groups there are, and which is active.
#[tactic(auto, unfolding(crate::specs::Contents::group_fields_at))]
fn group_fields(
    alloc: Global,
    before: &Reading,
    count: &[u8],
    active: &[u8],
) -> Result<Line, LineFault>
    ensures { Gives result (group_fields_at before.now count.now active.now) }
{
    let Some(count) = number_between(count, 1, 16) else {
        return Err(LineFault::Refused(Kind::Number));
    };
    let Some(active) = number_between(active, 1, count) else {
        return Err(LineFault::Refused(Kind::Number));
    };
    Ok(Line::Sgcb(SgDef {
        line: before.number(),
        domain: Octs::copied(alloc, before.domain())?,
        count: count as u8,
        active: active as u8,
    }))
}

/// `sgcb` and what describes a setting group control block.
#[tactic(auto, unfolding(crate::specs::Contents::groups_at))]
pub fn groups_line(
    alloc: Global,
    before: &Reading,
    count: &[u8],
    active: &[u8],
) -> Result<Line, LineFault>
    ensures { Gives result (groups_at before.now count.now active.now) }
{
    let key = group_key(alloc, before.domain())?;
    if before.is_taken(&key) {
        return Err(LineFault::Refused(Kind::Duplicate));
    }
    group_fields(alloc, before, count, active)
}
