//! What the value of a command says.

use sv_base::{Call, Utc, Value};

/// The type of a ctlVal.
#[derive(Clone, Copy, Debug, PartialEq, Eq)]
pub enum CtlKind {
    Bool,
    Int32,
}

/// The ctlVal of a command.
#[derive(Clone, Copy, Debug, PartialEq, Eq)]
pub enum CtlVal {
    Bool(bool),
    Int(i64),
}

/// The two bits of Check.
#[derive(Clone, Copy, Debug, PartialEq, Eq)]
pub struct Check {
    pub synchro: bool,
    pub interlock: bool,
}

/// Who gave a command: orCat and orIdent, lent.
#[derive(Clone, Copy, Debug)]
pub struct Origin<'a> {
    pub cat: i64,
    pub ident: &'a [u8],
}

/// A command, lent: what the value of an SBOw, an Oper or a Cancel says, and what follows Test.
#[derive(Clone, Copy, Debug)]
pub struct CommandRef<'a> {
    pub value: CtlVal,
    pub origin: Origin<'a>,
    pub ctl_num: u64,
    pub time: Utc,
    pub test: bool,
    pub rest: &'a [Value],
}

ghost use Rattle.std.specs.Prelude.{◌≡◌, ◌≤◌, ◌<◌, ◌&&◌, is_some, true, IfSome, None, Some, length};
ghost use Rattle.std.specs.Prelude.{if◌then◌else◌};
ghost use Rattle.std.specs.Option.{option_map};
ghost use Rattle.sv_base.specs.Seen.{seen_of, row_of};
ghost use Rattle.bay_model.specs.Model.{operate};
ghost use Rattle.sv_base.specs.Kinds.{is_kind, is_in_range};
ghost use Rattle.bay_model.specs.Commands.{command_of as command_in, is_command, is_rest};
ghost use Rattle.control_core.specs.Commands.{int_in, octets_in, uint_in, time_in, bool_in};
ghost use Rattle.control_core.specs.Commands.{kind_in, origin_row, origin_in, parts_in, said_in};
ghost use Rattle.control_core.specs.Commands.{of_kind, seen_val, rest_checked, said, value_said};
ghost use Rattle.control_core.specs.Commands.{is_limited};

fn int_of(value: &Value) -> Option<i64>
    ensures { result ≡ int_in (seen_of value.now) }
{
    match value {
        Value::Int(z) => Some(*z),
        _ => None,
    }
}

fn octets_of(value: &Value) -> Option<&[u8]>
    ensures { option_map (λ o. o.now) result ≡ octets_in (seen_of value.now) }
{
    match value {
        Value::Octets(o) => Some(o.as_slice()),
        _ => None,
    }
}

fn uint_of(value: &Value) -> Option<u64>
    ensures { result ≡ uint_in (seen_of value.now) }
{
    match value {
        Value::Uint(n) => Some(*n),
        _ => None,
    }
}

fn time_of(value: &Value) -> Option<Utc>
    ensures { result ≡ time_in (seen_of value.now) }
{
    match value {
        Value::Time(t) => Some(*t),
        _ => None,
    }
}

fn bool_of(value: &Value) -> Option<bool>
    ensures { result ≡ bool_in (seen_of value.now) }
{
    match value {
        Value::Bool(b) => Some(*b),
        _ => None,
    }
}

/// A ctlVal of its type and in its range.
fn ctl_val(kind: CtlKind, value: &Value) -> Option<CtlVal>
    ensures found { IfSome result (λ v. seen_of value.now ≡ seen_val v) }
    ensures typed { is_some result ≡ (is_kind (kind_in kind) value.now && is_in_range
        (kind_in kind) value.now) }
{
    match kind {
        CtlKind::Bool => match value {
            Value::Bool(b) => Some(CtlVal::Bool(*b)),
            _ => None,
        },
        CtlKind::Int32 => match value {
            Value::Int(z) => {
                if -2147483648 <= *z && *z <= 2147483647 {
                    Some(CtlVal::Int(*z))
                } else {
                    None
                }
            }
            _ => None,
        },
    }
}

fn origin_of(value: &Value) -> Option<Origin<'_>>
    ensures { option_map (λ o. (o.cat, o.ident.now)) result ≡ origin_in (seen_of value.now) }
{
    match value {
        Value::Struct(parts) => origin_in_parts(parts.as_slice()),
        _ => None,
    }
}

fn origin_in_parts(parts: &[Value]) -> Option<Origin<'_>>
    ensures { option_map (λ o. (o.cat, o.ident.now)) result ≡ origin_row (row_of parts.now) }
{
    match parts {
        [cat, ident] => Some(Origin {
            cat: int_of(cat)?,
            ident: octets_of(ident)?,
        }),
        _ => None,
    }
}

/// A command whose ctlVal is of its kind.
fn command_in_parts(kind: CtlKind, parts: &[Value]) -> Option<CommandRef<'_>>
    ensures { option_map said result ≡ of_kind (kind_in kind) (parts_in (row_of parts.now)) }
{
    match parts {
        [value, origin, num, time, test, rest @ ..] => {
            let origin = origin_of(origin)?;
            let ctl_num = uint_of(num)?;
            let time = time_of(time)?;
            let test = bool_of(test)?;
            Some(CommandRef {
                value: ctl_val(kind, value)?,
                origin,
                ctl_num,
                time,
                test,
                rest,
            })
        }
        _ => None,
    }
}

fn command_of(kind: CtlKind, value: &Value) -> Option<CommandRef<'_>>
    ensures { option_map said result ≡ of_kind (kind_in kind) (said_in value.now) }
{
    match value {
        Value::Struct(parts) => command_in_parts(kind, parts.as_slice()),
        _ => None,
    }
}

/// SBOw and Oper end with the two bits of Check, Cancel with Test.
fn check_of(rest: &[Value]) -> Option<Check>
    ensures { option_map rest_checked result ≡ (if is_rest operate (row_of rest.now)
        then Some (row_of rest.now) else None) }
{
    match rest {
        [Value::Bits(bits)] => match bits.as_slice() {
            [synchro, interlock] => Some(Check {
                synchro: *synchro,
                interlock: *interlock,
            }),
            _ => None,
        },
        _ => None,
    }
}

fn is_end(call: Call, rest: &[Value]) -> bool
    ensures { result ≡ is_rest call (row_of rest.now) }
{
    match call {
        Call::Select | Call::Operate => check_of(rest).is_some(),
        Call::Cancel => rest.is_empty(),
    }
}

/// Origin, ctlNum and what follows are within their limits.
fn is_within(call: Call, command: &CommandRef<'_>) -> bool
    ensures { result ≡ is_limited call (said command.now) }
{
    -128 <= command.origin.cat
        && command.origin.cat <= 127
        && command.origin.ident.len() <= 64
        && command.ctl_num < 256
        && is_end(call, command.rest)
}

/// Reads a command; none exactly where the value isn't of the type of the call's node, length and range included.
pub fn read(kind: CtlKind, call: Call, value: &Value) -> Option<CommandRef<'_>>
    ensures found { IfSome result (λ r. value.now ≡ value_said (said r)) }
    ensures typed { is_some result ≡ is_command (kind_in kind) call (command_in value.now) }
    ensures short { IfSome result (λ r. length r.origin.ident.now ≤ 64) }
    ensures few { IfSome result (λ r. r.ctl_num < 256) }
    ensures checked { IfSome result (λ r. is_rest call (row_of r.rest.now) ≡ true) }
{
    let command = command_of(kind, value)?;
    if is_within(call, &command) {
        Some(command)
    } else {
        None
    }
}

/// The two bits of Check after Test.
pub fn check_in(rest: &[Value]) -> Check
    requires { is_rest operate (row_of rest.now) ≡ true }
    ensures { rest_checked result ≡ row_of rest.now }
{
    match check_of(rest) {
        Some(check) => check,
        None => Check {
            synchro: false,
            interlock: false,
        },
    }
}

impl CtlVal {
    ghost use Rattle.std.specs.Prelude.{◌≡◌};
    ghost use Rattle.sv_base.specs.Same.{value_of};
    ghost use Rattle.control_core.specs.Commands.{seen_val};

    /// The value.
    pub fn value(self) -> Value
        ensures { result ≡ value_of (seen_val self) }
    {
        match self {
            CtlVal::Bool(b) => Value::Bool(b),
            CtlVal::Int(z) => Value::Int(z),
        }
    }
}
