//! The CF attributes of a control, with their names and types (IEC 61850-7-2, control class model; IEC 61850-7-3, their types;
//! IEC 61850-8-1, their names).

use crate::TypeOf;

/// A CF attribute of a control.
#[derive(Clone, Copy, Debug)]
pub enum CtlParameter {
    CtlModel,
    SboTimeout,
    SboClass,
}

impl CtlParameter {
    ghost use Rattle.std.specs.Prelude.{◌≡◌};
    ghost use Rattle.sv_base.specs.Parameters.{parameter_name, parameter_kind};

    /// Its name.
    pub fn name(self) -> &'static [u8]
        ensures { result.now ≡ parameter_name self }
    {
        match self {
            CtlParameter::CtlModel => b"ctlModel",
            CtlParameter::SboTimeout => b"sboTimeout",
            CtlParameter::SboClass => b"sboClass",
        }
    }

    /// Its type.
    pub fn kind(self) -> TypeOf
        ensures { result ≡ parameter_kind self }
    {
        match self {
            CtlParameter::CtlModel | CtlParameter::SboClass => TypeOf::Int(8),
            CtlParameter::SboTimeout => TypeOf::Uint(32),
        }
    }
}
