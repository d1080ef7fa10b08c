//! The Data of members of data sets.

ghost use Rattle.std.specs.Prelude.{◌≡◌, ◌≤◌, ◌<◌, ◌^◌, ◌+◌, length, map, drop};
ghost use Rattle.std.specs.List.{All};
ghost use Rattle.sv_base.specs.Data.{data_of, data_row};
ghost use Rattle.sv_base.specs.Fields.{shape_of, fields_of};
ghost use Rattle.value_store.specs.Members.{leaves, leaves_in, row_with, values_at, member_octets};
ghost use Rattle.value_store.specs.Stored.{Stored, stored, attribute, IsStored, AreStored};
ghost use Rattle.value_store.specs.Written.{adds};

use crate::octets::{put_head, put_value};
use crate::store::Store;
use bay_model::MemberShape;
use bay_rooms::Fixed;
use sv_base::{AttrId, Part1, TypeOf};

/// Adds the Data of an attribute.
fn put_attr(store: &Store, attr: AttrId, out: &mut Fixed)
    requires there { IsStored store.now attr }
    requires room { length out.old.items + length (data_of (attribute store.now attr.0).held.value)
        ≤ out.old.room }
    ensures { out.new ≡ adds out.old (data_of (attribute store.now attr.0).held.value) }
{
    put_value(out, store.get(attr));
}

/// Adds the Data of a type, with the values of the first attributes; gives the other attributes.
#[cycle(put)]
fn put_kind<'a>(store: &Store, kind: &TypeOf, attrs: &'a [AttrId], out: &mut Fixed) -> &'a [AttrId]
    requires there { AreStored store.now attrs.now }
    requires enough { leaves (shape_of kind.now) ≤ length attrs.now }
    requires small { length (member_octets store.now kind.now attrs.now) < 2 ^ 32 }
    requires room { length out.old.items + length (member_octets store.now kind.now attrs.now)
        ≤ out.old.room }
    ensures written { out.new ≡ adds out.old (member_octets store.now kind.now attrs.now) }
    ensures rest { result.now ≡ drop (leaves (shape_of kind.now)) attrs.now }
{
    match kind {
        TypeOf::Struct(parts) => {
            let start = out.len();
            let rest = put_parts(store, parts.as_slice(), attrs, out);
            put_head(out, start);
            rest
        }
        _ => match attrs {
            [] => attrs,
            [first, rest @ ..] => {
                put_attr(store, *first, out);
                rest
            }
        },
    }
}

#[cycle(put)]
fn put_parts<'a>(
    store: &Store,
    parts: &[Part1],
    attrs: &'a [AttrId],
    out: &mut Fixed,
) -> &'a [AttrId]
    requires there { AreStored store.now attrs.now }
    requires enough { leaves_in (fields_of parts.now) ≤ length attrs.now }
    requires small { length (data_row (row_with (fields_of parts.now)
        (values_at store.now attrs.now))) < 2 ^ 32 }
    requires room { length out.old.items + length
        (data_row (row_with (fields_of parts.now) (values_at store.now attrs.now))) ≤ out.old.room }
    ensures written { out.new ≡ adds out.old
        (data_row (row_with (fields_of parts.now) (values_at store.now attrs.now))) }
    ensures rest { result.now ≡ drop (leaves_in (fields_of parts.now)) attrs.now }
{
    let mut rest = attrs;
    for part in parts {
        rest = put_kind(store, &part.kind, rest, out);
    }
    rest
}

impl Store {
    ghost use Rattle.std.specs.Prelude.{◌≡◌, ◌≤◌, ◌<◌, ◌^◌, ◌+◌, length, map};
    ghost use Rattle.sv_base.specs.Fields.{shape_of};
    ghost use Rattle.value_store.specs.Members.{leaves, member_octets};
    ghost use Rattle.value_store.specs.Stored.{stored, AreStored};
    ghost use Rattle.value_store.specs.Written.{adds};

    /// Adds the Data of a member to octets in memory that was allocated before; gives how many these are. It takes no memory.
    pub fn member_bytes(&self, shape: &MemberShape, out: &mut Fixed) -> u32
        requires there { AreStored self.now shape.now.attrs }
        requires whole { leaves (shape_of shape.now.kind) ≡ length shape.now.attrs }
        requires small { length (member_octets self.now shape.now.kind shape.now.attrs) < 2 ^ 32 }
        requires room { length out.old.items + length
            (member_octets self.now shape.now.kind shape.now.attrs) ≤ out.old.room }
        ensures written { out.new ≡ adds out.old
            (member_octets self.now shape.now.kind shape.now.attrs) }
        ensures count { result ≡ length (member_octets self.now shape.now.kind shape.now.attrs) }
    {
        let start = out.len();
        match (&shape.kind, shape.attrs.as_slice()) {
            (TypeOf::Struct(_), attrs) => {
                put_kind(self, &shape.kind, attrs, out);
            }
            (_, [first, ..]) => put_attr(self, *first, out),
            (_, []) => (),
        }
        (out.len() - start) as u32
    }
}
