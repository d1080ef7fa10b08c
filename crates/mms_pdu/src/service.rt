//! What a confirmed service asks, in place (ISO 9506-2, ConfirmedServiceRequest).

use crate::data_list::DataList;
use crate::object_name::{NameList, NameView};
use crate::variable::VariableList;

/// Whose names are asked for (ISO 9506-2, objectScope of GetNameList).
#[derive(Clone, Copy, Debug, PartialEq, Eq)]
pub enum ScopeView<'a> {
    Vmd,
    /// The domain's name, of any octets.
    Domain(&'a [u8]),
    Association,
}

/// What a confirmed service asks (ISO 9506-2, ConfirmedServiceRequest), with names and Data in place.
#[derive(Debug, Drop)]
pub enum ServiceView<'a> {
    Status,
    Identify,
    /// GetNameList. The name after which the list is to begin is of any octets.
    Names {
        class: u8,
        scope: ScopeView<'a>,
        after: Option<&'a [u8]>,
    },
    /// GetVariableAccessAttributes
    TypeOfNode(NameView<'a>),
    /// Read, of variables; `spec` where the specification is to come back.
    Read {
        variables: VariableList<'a>,
        spec: bool,
    },
    /// Read, of a named variable list
    ReadSet {
        name: NameView<'a>,
        spec: bool,
    },
    /// Write, of as many values as variables
    WriteVars {
        variables: VariableList<'a>,
        values: DataList<'a>,
    },
    /// Write, of a named variable list
    WriteSet {
        name: NameView<'a>,
        values: DataList<'a>,
    },
    /// DefineNamedVariableList
    Define {
        name: NameView<'a>,
        members: VariableList<'a>,
    },
    /// GetNamedVariableListAttributes
    SetOf(NameView<'a>),
    /// DeleteNamedVariableList
    Delete {
        scope: u8,
        names: NameList<'a>,
    },
}
