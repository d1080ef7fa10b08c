//! The numbers by which attributes, nodes, blocks, controls, members, associations and actors are known.

/// The number of an attribute, counted from 0: first the `attr` lines of a configuration, then the attributes that
/// its controls generate under CF, then the edited twins of its setting group attributes.
#[derive(Clone, Copy, Debug, PartialEq, Eq)]
pub struct AttrId(pub u32);

/// The number of a node of the name tree, counted from 0 domain by domain, a node before its children.
#[derive(Clone, Copy, Debug, PartialEq, Eq)]
pub struct NodeId(pub u32);

/// The number of a report control block, counted from 0 in the order of the configuration.
#[derive(Clone, Copy, Debug, PartialEq, Eq)]
pub struct BlockNo(pub u32);

/// The number of a control, counted from 0 in the order of the configuration.
#[derive(Clone, Copy, Debug, PartialEq, Eq)]
pub struct CtlNo(pub u32);

/// The number of an association, 1 to 16.
#[derive(Clone, Copy, Debug, PartialEq, Eq)]
pub struct AssocNo(pub u32);

/// The number of one who makes steps; 0 is the process.
#[derive(Clone, Copy, Debug, PartialEq, Eq)]
pub struct ActorNo(pub u32);

/// The number of a member of a data set, counted from 1.
#[derive(Clone, Copy, Debug, PartialEq, Eq)]
pub struct MemberNo(pub u32);
