//! A command in memory that was allocated before.

ghost use Rattle.std.specs.Prelude.{◌≡◌, ◌<◌, ◌++◌, ◌∷◌, [], IfOk};
ghost use Rattle.bay_model.specs.Outputs.{name_of_call};
ghost use Rattle.control_core.specs.Blame.{blame};
ghost use Rattle.sv_base.specs.Same.{is_same_seen};
ghost use Rattle.sv_base.specs.declared.value.Value.TheVariants as kinds;
ghost use Rattle.control_core.specs.Commands.{seen_val, said};

use crate::command::{Check, CommandRef, CtlVal, check_in};
use bay_model::ApplError;
use bay_rooms::Fixed;
use std::alloc::{AllocError, Global};
use std::marker::Model;
use sv_base::{Bits, Call, Octs, Utc, Value, Values};

/// The most octets of an orIdent.
const MOST: u32 = 64;

/// A command that is kept. Contracts see what it says.
#[derive(Drop)]
pub struct KeptCommand {
    value: CtlVal,
    or_cat: i64,
    or_ident: Fixed,
    ctl_num: u8,
    time: Utc,
    test: bool,
    check: Check,
}

impl Model for KeptCommand {
    ghost use Rattle.std.specs.Prelude.{◌≡◌};
    ghost use Rattle.control_core.specs.Commands.{Said, seen_val, rest_checked};

    ghost Value = { Said };

    ghost use Rattle.std.specs.Coded.{codes};
    ghost use Rattle.sv_base.specs.Tree.{row_code};
    ghost use Rattle.control_core.specs.Coding.{seen_code};

    ghost coded = { Prim.hlevel (codes, row_code, seen_code) };

    ghost view = { λ o. record {
      value = seen_val o.value;
      or_cat = o.or_cat;
      or_ident = o.or_ident.items;
      ctl_num = o.ctl_num;
      at = o.time;
      test = o.test;
      rest = rest_checked o.check;
    } };

    ghost invariant = { λ o. o.or_ident.room ≡ 64 };
}

/// The reference of the variable that is written.
fn object_of(alloc: Global, reference: &[u8], call: Call) -> Result<Octs, AllocError>
    ensures { IfOk result (λ o. o ≡ reference.now ++ name_of_call call) }
{
    let mut object = Vec::from_slice(alloc, reference)?;
    object.push(b'$')?;
    object.extend_from_slice(call.service().name())?;
    Ok(Octs::from_vec(object))
}

/// The LastApplError of a command, with the reference of its control.
pub fn error_of(
    alloc: Global,
    reference: &[u8],
    call: Call,
    command: &CommandRef<'_>,
    cause: u8,
) -> Result<ApplError, AllocError>
    requires { command.now.ctl_num < 256 }
    ensures { IfOk result (λ e. e ≡ blame reference.now call (said command.now) cause) }
{
    Ok(ApplError {
        object: object_of(alloc, reference, call)?,
        or_cat: command.origin.cat,
        or_ident: Octs::from_vec(Vec::from_slice(alloc, command.origin.ident)?),
        ctl_num: command.ctl_num as u8,
        cause,
    })
}

/// Two ctlVals are the same.
fn is_same_val(one: CtlVal, other: CtlVal) -> bool
    ensures { result ≡ is_same_seen (seen_val one) (seen_val other) }
{
    match one {
        CtlVal::Bool(a) => match other {
            CtlVal::Bool(b) => a == b,
            CtlVal::Int(_) => false,
        },
        CtlVal::Int(y) => match other {
            CtlVal::Bool(_) => false,
            CtlVal::Int(z) => y == z,
        },
    }
}

/// The value of a Check.
fn check_value(alloc: Global, check: Check) -> Result<Value, AllocError>
    ensures { IfOk result (λ v. v ≡ kinds.Bits (check.synchro ∷ check.interlock ∷ [])) }
{
    let bits = vec![in alloc; check.synchro, check.interlock]?;
    Ok(Value::Bits(Bits::from_vec(bits)))
}

impl KeptCommand {
    ghost use Rattle.std.specs.Prelude.{◌≡◌, ◌≤◌, ◌<◌, true, length, IfOk};
    ghost use Rattle.sv_base.specs.Seen.{row_of};
    ghost use Rattle.sv_base.specs.Tree.{plain, none, more, int, octets};
    ghost use Rattle.sv_base.specs.declared.value.Value.TheVariants as kinds;
    ghost use Rattle.bay_model.specs.Model.{operate};
    ghost use Rattle.bay_model.specs.Commands.{differs, is_rest};
    ghost use Rattle.control_core.specs.Commands.{said, command_said, value_said, blank};
    ghost use Rattle.control_core.specs.Blame.{blame};

    /// Memory for a command.
    pub fn new(alloc: Global) -> Result<KeptCommand, AllocError>
        ensures { IfOk result (λ o. o ≡ blank) }
    {
        Ok(KeptCommand {
            value: CtlVal::Bool(false),
            or_cat: 0,
            or_ident: Fixed::new(alloc, MOST)?,
            ctl_num: 0,
            time: Utc {
                secs: 0,
                frac: 0,
                quality: 0,
            },
            test: false,
            check: Check {
                synchro: false,
                interlock: false,
            },
        })
    }

    /// Keeps a command in place of the one before. It takes no memory.
    pub fn set(&mut self, command: &CommandRef<'_>)
        requires short { length command.now.origin.ident.now ≤ 64 }
        requires few { command.now.ctl_num < 256 }
        requires checked { is_rest operate (row_of command.now.rest.now) ≡ true }
        ensures { self.new ≡ said command.now }
    {
        self.value = command.value;
        self.or_cat = command.origin.cat;
        self.or_ident.clear();
        self.or_ident.push(command.origin.ident);
        self.ctl_num = command.ctl_num as u8;
        self.time = command.time;
        self.test = command.test;
        self.check = check_in(command.rest);
    }

    /// A command differs from the one that is kept in ctlVal, origin, ctlNum or Test.
    pub fn differs(&self, command: &CommandRef<'_>) -> bool
        ensures { result ≡ differs (command_said (said command.now)) (command_said self.now) }
    {
        !(is_same_val(command.value, self.value)
            && command.origin.cat == self.or_cat
            && command.origin.ident == self.or_ident.as_slice()
            && command.ctl_num == u64::from(self.ctl_num)
            && command.test == self.test)
    }

    /// The value of its origin.
    fn origin_value(&self, alloc: Global) -> Result<Value, AllocError>
        ensures { IfOk result (λ v. v ≡ kinds.Struct (more (plain (int self.now.or_cat))
            (more (plain (octets self.now.or_ident)) none))) }
    {
        let ident = Octs::from_vec(Vec::from_slice(alloc, self.or_ident.as_slice())?);
        let parts = vec![in alloc; Value::Int(self.or_cat), Value::Octets(ident)]?;
        Ok(Value::Struct(Values::from_vec(parts)))
    }

    /// The value that says it.
    pub fn value(&self, alloc: Global) -> Result<Value, AllocError>
        ensures { IfOk result (λ v. v ≡ value_said self.now) }
    {
        let origin = self.origin_value(alloc)?;
        let check = check_value(alloc, self.check)?;
        let parts = vec![in alloc;
            self.value.value(),
            origin,
            Value::Uint(u64::from(self.ctl_num)),
            Value::Time(self.time),
            Value::Bool(self.test),
            check,
        ]?;
        Ok(Value::Struct(Values::from_vec(parts)))
    }

    /// The LastApplError of it, with the reference of its control.
    pub fn error(&self, alloc: Global, reference: &[u8], cause: u8) -> Result<ApplError, AllocError>
        ensures { IfOk result (λ e. e ≡ blame reference.now operate self.now cause) }
    {
        Ok(ApplError {
            object: object_of(alloc, reference, Call::Operate)?,
            or_cat: self.or_cat,
            or_ident: Octs::from_vec(Vec::from_slice(alloc, self.or_ident.as_slice())?),
            ctl_num: self.ctl_num,
            cause,
        })
    }
}
