//! What a control has under CO: the nodes by which it is selected, operated and cancelled, with their names (IEC 61850-7-2, control
//! class model; IEC 61850-8-1, their names).

/// A node of a control under CO.
#[derive(Clone, Copy, Debug)]
pub enum CtlService {
    /// A read of it selects.
    Sbo,
    /// A write of it selects, with a value.
    SboWithValue,
    Oper,
    Cancel,
}

impl CtlService {
    ghost use Rattle.std.specs.Prelude.{◌≡◌};
    ghost use Rattle.sv_base.specs.CtlServices.{service_name};

    /// Its name.
    pub fn name(self) -> &'static [u8]
        ensures { result.now ≡ service_name self }
    {
        match self {
            CtlService::Sbo => b"SBO",
            CtlService::SboWithValue => b"SBOw",
            CtlService::Oper => b"Oper",
            CtlService::Cancel => b"Cancel",
        }
    }
}

/// A service of a control that carries a value (IEC 61850-7-2): SelectWithValue, Operate or Cancel.
#[derive(Clone, Copy, Debug, PartialEq, Eq)]
pub enum Call {
    Select,
    Operate,
    Cancel,
}

impl Call {
    ghost use Rattle.std.specs.Prelude.{◌≡◌};
    ghost use Rattle.sv_base.specs.CtlServices.{service_of};

    /// The node that it writes.
    pub fn service(self) -> CtlService
        ensures { result ≡ service_of self }
    {
        match self {
            Call::Select => CtlService::SboWithValue,
            Call::Operate => CtlService::Oper,
            Call::Cancel => CtlService::Cancel,
        }
    }
}
