//! A configuration: what a server is made of (IEC 61850-7-2, the information model).

use crate::{
    AttrDefs, Bits, BlockDefs, CtlDefs, FirstValues, LnDefs, Octs, OctsList, SetDefs, SgDefs,
    SharedOcts, ShortOcts, TypeOf,
};

/// What a server is made of: the identity that it gives, and the objects of its domains (logical devices of IEC
/// 61850-7-2). Each list is in the order of the configuration's lines.
#[derive(Drop)]
pub struct Config {
    /// What Identify answers (ISO 9506-2), 1 to 64 visible octets each.
    pub vendor: Octs,
    pub model: Octs,
    pub revision: Octs,
    pub nodes: LnDefs,
    pub attrs: AttrDefs,
    pub sets: SetDefs,
    pub blocks: BlockDefs,
    pub controls: CtlDefs,
    pub groups: SgDefs,
}

/// A logical node (IEC 61850-7-2, LOGICAL-NODE).
#[derive(Drop)]
pub struct LnDef {
    /// The number of its line, counted from 1.
    pub line: u32,
    /// The name of its domain.
    pub domain: Octs,
    /// The name of the logical node.
    pub ln: Octs,
}

/// An attribute (IEC 61850-7-2, DataAttribute).
#[derive(Drop)]
pub struct AttrDef {
    /// The number of its line, counted from 1.
    pub line: u32,
    /// The name of its domain.
    pub domain: SharedOcts,
    /// The name of its logical node.
    pub ln: SharedOcts,
    /// Its functional constraint, two letters.
    pub fc: ShortOcts,
    /// The names from the data object down to it, joined by `$`.
    pub path: ShortOcts,
    pub kind: TypeOf,
    /// The trigger options: a change of the data, of the quality, an update.
    pub dchg: bool,
    pub qchg: bool,
    pub dupd: bool,
    /// Its first value; under the functional constraint SG the value of each group.
    pub values: FirstValues,
}

/// A configured data set (IEC 61850-7-2, DATA-SET).
#[derive(Drop)]
pub struct SetDef {
    /// The number of its line, counted from 1.
    pub line: u32,
    /// The name of its domain.
    pub domain: Octs,
    /// The name of its logical node.
    pub ln: Octs,
    /// The name of the set within the logical node.
    pub name: Octs,
    /// The references of its members, 1 to 256.
    pub members: OctsList,
}

/// A buffered report control block (IEC 61850-7-2, BUFFERED-REPORT-CONTROL-BLOCK).
#[derive(Drop)]
pub struct BlockDef {
    /// The number of its line, counted from 1.
    pub line: u32,
    /// The name of its domain.
    pub domain: Octs,
    /// The name of its logical node.
    pub ln: Octs,
    /// The name of the block within the logical node.
    pub name: Octs,
    /// RptID, at most 129 octets.
    pub rpt_id: Octs,
    /// DatSet, the reference of its data set; empty for none.
    pub dat_set: Octs,
    /// ConfRev, at least 1.
    pub conf_rev: u32,
    /// OptFlds, ten bits.
    pub opt_flds: Bits,
    /// BufTm, the buffer time in milliseconds.
    pub buf_tm: u32,
    /// TrgOps, six bits.
    pub trg_ops: Bits,
    /// IntgPd, the integrity period in milliseconds; 0 for none.
    pub intg_pd: u32,
    /// The octets that its buffer holds, 1 to 1048576.
    pub capacity: u32,
}

/// A control (IEC 61850-7-2, control class model).
#[derive(Drop)]
pub struct CtlDef {
    /// The number of its line, counted from 1.
    pub line: u32,
    /// The name of its domain.
    pub domain: Octs,
    /// The name of its logical node.
    pub ln: Octs,
    /// The names down to the controlled data object, joined by `$`.
    pub path: Octs,
    /// ctlModel, 0 to 4.
    pub model: u8,
    /// sboTimeout in milliseconds, at least 1.
    pub timeout: u32,
    /// sboClass: 0 operate-once, 1 operate-many.
    pub class: u8,
    /// The type of its control value.
    pub kind: TypeOf,
}

/// A domain's setting group control block (IEC 61850-7-2, SETTING-GROUP-CONTROL-BLOCK).
#[derive(Drop)]
pub struct SgDef {
    /// The number of its line, counted from 1.
    pub line: u32,
    /// The name of its domain.
    pub domain: Octs,
    /// NumOfSG, 1 to 16.
    pub count: u8,
    /// ActSG at first, 1 to `count`.
    pub active: u8,
}
