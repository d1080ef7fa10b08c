//! The components of a report block and of a setting group block, with their names and types (IEC 61850-7-2, BRCB and
//! SGCB attributes; IEC 61850-8-1, their names and MMS types).

use crate::TypeOf;

/// A component of a report block (IEC 61850-7-2, BRCB attributes).
#[derive(Clone, Copy, Debug)]
pub enum Comp {
    RptID,
    RptEna,
    DatSet,
    ConfRev,
    OptFlds,
    BufTm,
    SqNum,
    TrgOps,
    IntgPd,
    GI,
    PurgeBuf,
    EntryID,
    TimeofEntry,
    ResvTms,
    Owner,
}

/// A component of a setting group block (IEC 61850-7-2, SGCB attributes).
#[derive(Clone, Copy, Debug)]
pub enum SettingComp {
    NumOfSG,
    ActSG,
    EditSG,
    CnfEdit,
    LActTm,
}

impl Comp {
    ghost use Rattle.std.specs.Prelude.{◌≡◌};
    ghost use Rattle.sv_base.specs.ComponentTable.{comp_name, comp_named, comp_type};

    /// All of them, in the order of the block's type.
    pub const ALL: [Comp; 15] = [
        Comp::RptID,
        Comp::RptEna,
        Comp::DatSet,
        Comp::ConfRev,
        Comp::OptFlds,
        Comp::BufTm,
        Comp::SqNum,
        Comp::TrgOps,
        Comp::IntgPd,
        Comp::GI,
        Comp::PurgeBuf,
        Comp::EntryID,
        Comp::TimeofEntry,
        Comp::ResvTms,
        Comp::Owner,
    ];

    /// Its name.
    pub fn name(self) -> &'static [u8]
        ensures { result.now ≡ comp_name self }
    {
        match self {
            Comp::RptID => b"RptID",
            Comp::RptEna => b"RptEna",
            Comp::DatSet => b"DatSet",
            Comp::ConfRev => b"ConfRev",
            Comp::OptFlds => b"OptFlds",
            Comp::BufTm => b"BufTm",
            Comp::SqNum => b"SqNum",
            Comp::TrgOps => b"TrgOps",
            Comp::IntgPd => b"IntgPd",
            Comp::GI => b"GI",
            Comp::PurgeBuf => b"PurgeBuf",
            Comp::EntryID => b"EntryID",
            Comp::TimeofEntry => b"TimeofEntry",
            Comp::ResvTms => b"ResvTms",
            Comp::Owner => b"Owner",
        }
    }

    /// Its type.
    pub fn kind(self) -> TypeOf
        ensures { result ≡ comp_type self }
    {
        match self {
            Comp::RptID | Comp::DatSet => TypeOf::Text(129),
            Comp::RptEna | Comp::GI | Comp::PurgeBuf => TypeOf::Bool,
            Comp::ConfRev | Comp::BufTm | Comp::IntgPd => TypeOf::Uint(32),
            Comp::OptFlds => TypeOf::Bits(10),
            Comp::SqNum => TypeOf::Uint(16),
            Comp::TrgOps => TypeOf::Bits(6),
            Comp::EntryID => TypeOf::EntryId,
            Comp::TimeofEntry => TypeOf::Stamp,
            Comp::ResvTms => TypeOf::Int(16),
            Comp::Owner => TypeOf::Octets(64),
        }
    }

    /// The component of a name, if there is one.
    pub fn of_name(name: &[u8]) -> Option<Comp>
        ensures { result ≡ comp_named name.now }
    {
        for comp in &Comp::ALL {
            if name == comp.name() {
                return Some(*comp);
            }
        }
        None
    }
}

impl SettingComp {
    ghost use Rattle.std.specs.Prelude.{◌≡◌};
    ghost use Rattle.sv_base.specs.ComponentTable.{setting_comp_name, setting_comp_named};
    ghost use Rattle.sv_base.specs.ComponentTable.{setting_comp_type};

    /// All of them, in the order of the block's type.
    pub const ALL: [SettingComp; 5] = [
        SettingComp::NumOfSG,
        SettingComp::ActSG,
        SettingComp::EditSG,
        SettingComp::CnfEdit,
        SettingComp::LActTm,
    ];

    /// Its name.
    pub fn name(self) -> &'static [u8]
        ensures { result.now ≡ setting_comp_name self }
    {
        match self {
            SettingComp::NumOfSG => b"NumOfSG",
            SettingComp::ActSG => b"ActSG",
            SettingComp::EditSG => b"EditSG",
            SettingComp::CnfEdit => b"CnfEdit",
            SettingComp::LActTm => b"LActTm",
        }
    }

    /// Its type.
    pub fn kind(self) -> TypeOf
        ensures { result ≡ setting_comp_type self }
    {
        match self {
            SettingComp::NumOfSG | SettingComp::ActSG | SettingComp::EditSG => TypeOf::Uint(8),
            SettingComp::CnfEdit => TypeOf::Bool,
            SettingComp::LActTm => TypeOf::Time,
        }
    }

    /// The component of a name, if there is one.
    pub fn of_name(name: &[u8]) -> Option<SettingComp>
        ensures { result ≡ setting_comp_named name.now }
    {
        for comp in &SettingComp::ALL {
            if name == comp.name() {
                return Some(*comp);
            }
        }
        None
    }
}
