//! Lists of a configuration's parts.

use crate::{AttrDef, BlockDef, CtlDef, List, LnDef, Octs, SetDef, SgDef};

/// Octet rows in order, as the references of a data set's members.
pub type OctsList = List<Octs>;

/// The logical nodes of a configuration, in the order of its lines.
pub type LnDefs = List<LnDef>;

/// The attributes of a configuration, in the order of its lines.
pub type AttrDefs = List<AttrDef>;

/// The data sets of a configuration, in the order of its lines.
pub type SetDefs = List<SetDef>;

/// The report control blocks of a configuration, in the order of its lines.
pub type BlockDefs = List<BlockDef>;

/// The controls of a configuration, in the order of its lines.
pub type CtlDefs = List<CtlDef>;

/// The setting group control blocks of a configuration, in the order of its lines.
pub type SgDefs = List<SgDef>;
