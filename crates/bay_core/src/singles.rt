//! The single writes of a request, each judged after those before it (ISO 9506-2, Write; IEC 61850-7-2, SetDataValues and
//! SetBRCBValues).

ghost use Rattle.std.specs.Prelude.{◌≡◌, ◌≤◌, ◌<◌, ◌++◌, ◌∷◌, [], vec_len, vec_capacity};
ghost use Rattle.std.specs.Prelude.{if◌then◌else◌};
ghost use Rattle.bay_core.specs.Asked.{set_code};
ghost use Rattle.sv_base.specs.Kinds.{is_kind, text};
ghost use Rattle.bay_model.specs.declared.access_errors.TheConstants.{OBJECT_ACCESS_DENIED};
ghost use Rattle.bay_model.specs.declared.access_errors.TheConstants.{TYPE_INCONSISTENT};

use crate::bay::Bay;
use bay_model::{ApplError, Target, Write, access_errors};
use bay_queues::Heard;
use block_events::{Source, event_all};
use object_model::What;
use sv_base::{AssocNo, AttrId, BlockNo, NodeId, Value};
use value_store::SetFault;

/// The code of a refused write of an attribute that doesn't stand under SE (ISO 9506-2, DataAccessError).
fn refusal(fault: SetFault) -> u8
    ensures { result ≡ set_code fault }
{
    match fault {
        SetFault::Kind => access_errors::TYPE_INCONSISTENT,
        SetFault::ReadOnly => access_errors::OBJECT_ACCESS_DENIED,
        SetFault::TooLong => access_errors::OBJECT_VALUE_INVALID,
    }
}

/// Adds a code, in memory that was allocated before.
fn add_code(codes: &mut Vec<Result<(), u8>>, code: Result<(), u8>)
    requires room { vec_len codes.old < vec_capacity codes.old }
    ensures added { codes.new.items ≡ codes.old.items ++ code ∷ [] }
    ensures room { vec_capacity codes.old ≤ vec_capacity codes.new }
{
    let _ = codes.push(code);
}

/// The code of a write of SBO (ISO 9506-2, DataAccessError): object-access-denied after type-inconsistent.
fn selecting_code(value: &Value) -> u8
    ensures { result ≡ (if is_kind (text 129) value.now then OBJECT_ACCESS_DENIED
        else TYPE_INCONSISTENT) }
{
    if matches!(value, Value::Text(_)) {
        access_errors::OBJECT_ACCESS_DENIED
    } else {
        access_errors::TYPE_INCONSISTENT
    }
}

impl Bay {
    ghost use Rattle.std.specs.Prelude.{◌≡◌, ◌≤◌, ◌<◌, [], ℕ, true, length, map, vec_capacity};
    ghost use Rattle.bay_model.specs.Lookups.{attr_of, node_of};
    ghost use Rattle.bay_model.specs.Named.{nodes as nodes_of};
    ghost use Rattle.bay_model.specs.Singles.{outcome_of, write_of, write_to, writes_of};
    ghost use Rattle.bay_model.specs.Writes.{write_attribute, write_node};
    ghost use Rattle.object_model.specs.Fits.{is_sound};
    ghost use Rattle.bay_model.specs.declared.request.Write.{Write as WriteValue};
    ghost use Rattle.bay_model.specs.Named.{configured_model};
    ghost use Rattle.assoc_table.specs.Tables.{IsNumber};
    ghost use Rattle.bay_replies.specs.Given.{copies_from};
    ghost use Rattle.bay_queues.specs.Heard.{unheard};
    ghost use Rattle.bay_core.specs.Asked.{AreFit, AreMembersFit, AreWrites, IsFit, IsKept};
    ghost use Rattle.bay_core.specs.Asked.{IsWrite, node_numbers};
    ghost use Rattle.bay_core.specs.Put.{IsOpenAt};
    ghost use Rattle.bay_core.specs.Commanded.{blame_to, AreNoCommands, AreSingles, IsNoCommand};
    ghost use Rattle.bay_core.specs.Commanded.{IsSingle};

    /// A client writes an attribute of a line or of a control, at the moment that time has come to, and each block takes in its event. It
    /// takes no memory.
    fn write_line(&mut self, attr: AttrId, value: &Value) -> Result<(), u8>
        requires there { attr.0 < copies_from self.old.stored self.old.groups }
        requires sound { is_sound value.now ≡ true }
        ensures kept { IsKept self.old self.new }
        ensures controls { self.new.controls ≡ self.old.controls }
        ensures written { (a : ℕ)
            → IsWrite self.old self.new (λ m past. write_attribute m a attr.0 value.now
            (attr_of m attr.0).access past) result }
    {
        self.changes.clear();
        if let Err(fault) = self
            .values
            .write(&self.model, attr, value, &mut self.changes)
        {
            return Err(refusal(fault));
        }
        let source = Source {
            store: self.values.store(),
            book: &self.sets,
            rows: self.model.nodes().as_slice(),
        };
        event_all(
            &mut self.parts,
            &mut self.dues,
            &mut self.watch,
            &source,
            self.changes.as_slice(),
            self.latest,
            self.steps,
            &mut self.events,
            &mut self.octets,
        );
        Ok(())
    }

    /// An association writes an attribute, at the moment that time has come to: one of a line or of a control, or an edit copy, which
    /// stand after these. It takes no memory.
    fn write_attribute(&mut self, a: AssocNo, attr: AttrId, value: &Value) -> Result<(), u8>
        requires there { attr.0 < length self.old.stored }
        requires sound { is_sound value.now ≡ true }
        ensures kept { IsKept self.old self.new }
        ensures controls { self.new.controls ≡ self.old.controls }
        ensures written { IsWrite self.old self.new
            (λ m past. write_attribute m a.0 attr.0 value.now
            (attr_of m attr.0).access past) result }
    {
        let number = attr.0 as usize;
        let copies = self.values.store().len().saturating_sub(self.groups.len());
        if number < copies {
            self.write_line(attr, value)
        } else {
            self.write_copy(a, number - copies, value)
        }
    }

    /// An association writes a node that is no command, at the moment that time has come to. It takes no memory.
    pub(crate) fn write_node(&mut self, a: AssocNo, node: NodeId, value: &Value) -> Result<(), u8>
        requires number { IsNumber a.0 }
        requires is_open { IsOpenAt self.old a.0 }
        requires there { node.0 < length (nodes_of self.old.config) }
        requires sound { is_sound value.now ≡ true }
        requires plain { IsNoCommand (node_of (configured_model self.old.config) node.0).role }
        ensures kept { IsKept self.old self.new }
        ensures controls { self.new.controls ≡ self.old.controls }
        ensures written { IsWrite self.old self.new
            (λ m past. write_node m a.0 node.0 value.now past) result }
    {
        match self.model.role_of(node) {
            What::Attribute(attr) => self.write_attribute(a, AttrId(attr), value),
            What::Component(b, comp) => self.write_at_arrival(a, BlockNo(b), comp, value),
            What::Setting(domain, part) => self.write_part(a, domain, part, value),
            What::Selecting(_) => Err(selecting_code(value)),
            What::Structure => Err(access_errors::OBJECT_ACCESS_DENIED),
            What::Withheld => Err(access_errors::OBJECT_ACCESS_DENIED),
            What::Calling(..) => unreachable!(),
        }
    }

    /// An association writes what a request names, in its turn; `blame` is the LastApplError that a command would have. It takes no
    /// memory.
    fn write_target(
        &mut self,
        a: AssocNo,
        target: &Target,
        value: &Value,
        blame: Option<ApplError>,
        heard: &mut Heard,
    )
        requires number { IsNumber a.0 }
        requires is_open { IsOpenAt self.old a.0 }
        requires fit { IsFit self.old.config target.now value.now }
        requires blame { blame ≡ blame_to self.old.config target.now value.now }
        requires room { length heard.old.codes < heard.old.room }
        ensures single { IsSingle self.old self.new a.0 heard.old heard.new
            (λ m past. outcome_of m a.0 (write_to target.now value.now) past) }
    {
        match target {
            Target::Node(node, _) => self.write_in_turn(a, *node, value, blame, heard),
            Target::Missing(_) => heard.code(Err(access_errors::OBJECT_NON_EXISTENT)),
            Target::Alternate(_) => heard.code(Err(access_errors::OBJECT_ACCESS_UNSUPPORTED)),
        }
    }

    /// An association writes variables, each in its turn; `blames` are the LastApplErrors that commands would have.
    pub(crate) fn write_all(
        &mut self,
        a: AssocNo,
        writes: &[Write],
        blames: &mut Vec<Option<ApplError>>,
        heard: &mut Heard,
    )
        requires number { IsNumber a.0 }
        requires is_open { IsOpenAt self.old a.0 }
        requires fit { AreFit self.old.config writes.now }
        requires blames { blames.old.items
            ≡ map (λ (w : WriteValue). blame_to self.old.config w.target w.value) writes.now }
        requires heard { heard.old ≡ unheard (length writes.now) }
        ensures singles { AreSingles self.old self.new a.0
            (map write_of writes.now) heard.old heard.new }
    {
        for i in 0..writes.len() {
            let blame = blames[i].take();
            self.write_target(a, &writes[i].target, &writes[i].value, blame, heard);
        }
    }

    /// An association writes the members of a data set in their order; the codes are added to `codes`, in memory that was allocated before.
    pub(crate) fn write_members(
        &mut self,
        a: AssocNo,
        nodes: &[NodeId],
        values: &[Value],
        codes: &mut Vec<Result<(), u8>>,
    )
        requires number { IsNumber a.0 }
        requires is_open { IsOpenAt self.old a.0 }
        requires fit { AreMembersFit self.old.config nodes.now values.now }
        requires plain { AreNoCommands self.old.config nodes.now }
        requires empty { codes.old.items ≡ [] }
        requires room { length nodes.now ≤ vec_capacity codes.old }
        ensures kept { IsKept self.old self.new }
        ensures written { AreWrites self.old self.new a.0
            (writes_of (node_numbers nodes.now) values.now) codes.new.items }
    {
        for i in 0..nodes.len() {
            let code = self.write_node(a, nodes[i], &values[i]);
            add_code(codes, code);
        }
    }
}
