//! The parts of a command of a control, SBOw, Oper or Cancel, with their names and types (IEC 61850-7-2, control service
//! parameters; IEC 61850-8-1, their names and MMS types).

use crate::TypeOf;
use std::alloc::AllocError;

/// A part of a command.
#[derive(Clone, Copy, Debug)]
pub enum CallPart {
    CtlVal,
    OrCat,
    OrIdent,
    CtlNum,
    T,
    Test,
    Check,
}

impl CallPart {
    ghost use Rattle.std.specs.Prelude.{◌≡◌, IfOk};
    ghost use Rattle.sv_base.specs.CallParts.{part_name, part_type};

    /// Those of SBOw and Oper, in the order of their types. Cancel has all but the last.
    pub const ALL: [CallPart; 7] = [
        CallPart::CtlVal,
        CallPart::OrCat,
        CallPart::OrIdent,
        CallPart::CtlNum,
        CallPart::T,
        CallPart::Test,
        CallPart::Check,
    ];

    /// The names down to it, joined by `$`.
    pub fn name(self) -> &'static [u8]
        ensures { result.now ≡ part_name self }
    {
        match self {
            CallPart::CtlVal => b"ctlVal",
            CallPart::OrCat => b"origin$orCat",
            CallPart::OrIdent => b"origin$orIdent",
            CallPart::CtlNum => b"ctlNum",
            CallPart::T => b"T",
            CallPart::Test => b"Test",
            CallPart::Check => b"Check",
        }
    }

    /// Its type, where the control's value is of this one. It takes no memory.
    pub fn kind(self, value: &TypeOf) -> Result<TypeOf, AllocError>
        ensures { IfOk result (λ k. k ≡ part_type value.now self) }
    {
        match self {
            CallPart::CtlVal => value.share(),
            CallPart::OrCat => Ok(TypeOf::Int(8)),
            CallPart::OrIdent => Ok(TypeOf::Octets(64)),
            CallPart::CtlNum => Ok(TypeOf::Uint(8)),
            CallPart::T => Ok(TypeOf::Time),
            CallPart::Test => Ok(TypeOf::Bool),
            CallPart::Check => Ok(TypeOf::Bits(2)),
        }
    }
}
