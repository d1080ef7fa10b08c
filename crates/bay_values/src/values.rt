//! The values of a bay's attributes, and what a step of the process makes of them.

ghost use Rattle.std.specs.Prelude.{◌≡◌, ◌≤◌, ◌<◌, ◌++◌, ◌∷◌, [], not, length, slice_set, vec_len};
ghost use Rattle.std.specs.Prelude.{vec_capacity, List};
ghost use Rattle.std.specs.List.{All};
ghost use Rattle.sv_base.specs.Same.{is_same};
ghost use Rattle.bay_model.specs.Attributes.{attributes};
ghost use Rattle.value_store.specs.Stored.{Stored, attribute, with_value};
ghost use Rattle.bay_model.specs.declared.step.Setting.{Setting as SettingValue};
ghost use Rattle.bay_model.specs.declared.flags.Change.{Change as ChangeValue};
ghost use Rattle.bay_values.specs.Changed.{change_from, IsFit, AreFit};
ghost use Rattle.bay_values.specs.Marked.{IsBlank, AreNoted, IsDone, marked_in};

use bay_model::{Change, Setting};
use object_model::Model;
use std::alloc::{AllocError, Global};
use sv_base::{AttrId, Config, Value};
use value_store::{SetFault, Store};

/// The values of all attributes. Contracts see the list of them.
#[derive(Drop)]
pub struct Values {
    pub(crate) store: Store,
    /// Which attributes the step that is being made has set; none between steps.
    pub(crate) marks: Vec<bool>,
}

impl std::marker::Model for Values {
    ghost use Rattle.std.specs.Prelude.{◌≡◌, List, length};
    ghost use Rattle.value_store.specs.Stored.{Stored};
    ghost use Rattle.bay_values.specs.Marked.{IsBlank};

    ghost Value = { List Stored };

    ghost use Rattle.std.specs.Coded.{codes};
    ghost use Rattle.sv_base.specs.Tree.{row_code};

    ghost coded = { Prim.hlevel (codes, row_code) };

    ghost view = { λ v. v.store };

    ghost invariant = { λ v. (length v.marks.items ≡ length v.store) × IsBlank v.marks.items };
}

/// Sets the attribute of a setting; returns whether its value differs from the one before.
fn put(store: &mut Store, setting: &Setting) -> bool
    requires { IsFit store.old setting.now }
    ensures differs { result ≡ not (is_same setting.now.value
        (attribute store.old setting.now.attr.0).held.value) }
    ensures set { store.new ≡ slice_set store.old setting.now.attr.0 (with_value setting.now.value
        (attribute store.old setting.now.attr.0)) }
{
    match store.set(setting.attr, &setting.value, false) {
        Ok(changed) => changed.differs,
        Err(_) => false,
    }
}

/// Sets the attribute of a setting, and notes the change.
fn set_noted(store: &mut Store, model: &Model, setting: &Setting, changes: &mut Vec<Change>)
    requires fit { IsFit store.old setting.now }
    requires flags { length store.old ≡ length (attributes model.now) }
    requires room { vec_len changes.old < vec_capacity changes.old }
    ensures set { store.new ≡ slice_set store.old setting.now.attr.0 (with_value setting.now.value
        (attribute store.old setting.now.attr.0)) }
    ensures noted { changes.new.items ≡ changes.old.items
        ++ change_from model.now store.old setting.now.attr.0 setting.now.value ∷ [] }
    ensures room { vec_capacity changes.old ≤ vec_capacity changes.new }
{
    let flags = model.flags(setting.attr);
    let differs = put(store, setting);
    let _ = changes.push(Change {
        attr: setting.attr,
        flags,
        differs,
    });
}

/// Sets the attribute of a setting where no later one did.
fn set_once(
    store: &mut Store,
    marks: &mut [bool],
    model: &Model,
    setting: &Setting,
    changes: &mut Vec<Change>,
)
    requires fit { IsFit store.old setting.now }
    requires marks { length marks.old ≡ length store.old }
    requires flags { length store.old ≡ length (attributes model.now) }
    requires noted { length changes.old.items ≡ marked_in marks.old }
    requires room { length store.old ≤ vec_capacity changes.old }
    ensures done { (before : List Stored) (later : List SettingValue)
        → IsDone model.now before later store.old marks.old changes.old.items
        → IsDone model.now before (setting.now ∷ later) store.new marks.new changes.new.items }
    ensures room { vec_capacity changes.old ≤ vec_capacity changes.new }
{
    if !marks[setting.attr.0 as usize] {
        set_noted(store, model, setting, changes);
        marks[setting.attr.0 as usize] = true;
    }
}

/// Goes through settings from the last to the first.
fn set_all(
    store: &mut Store,
    marks: &mut [bool],
    model: &Model,
    settings: &[Setting],
    changes: &mut Vec<Change>,
)
    requires fits { AreFit store.old settings.now }
    requires marks { length marks.old ≡ length store.old }
    requires blank { IsBlank marks.old }
    requires flags { length store.old ≡ length (attributes model.now) }
    requires empty { changes.old.items ≡ [] }
    requires room { length store.old ≤ vec_capacity changes.old }
    ensures done { IsDone model.now store.old settings.now store.new marks.new changes.new.items }
    ensures room { vec_capacity changes.old ≤ vec_capacity changes.new }
{
    for i in (0..settings.len()).rev() {
        set_once(store, marks, model, &settings[i], changes);
    }
}

/// Unmarks the attributes of changes.
pub(crate) fn unmark(marks: &mut [bool], changes: &[Change])
    requires within { All (λ (ch : ChangeValue). ch.attr.0 < length marks.old) changes.now }
    requires noted { AreNoted changes.now marks.old }
    ensures { IsBlank marks.new }
{
    for change in changes {
        marks[change.attr.0 as usize] = false;
    }
}

impl Values {
    ghost use Rattle.std.specs.Prelude.{◌≡◌, ◌≤◌, ◌<◌, ◌∷◌, [], ℕ, true, length, slice_set};
    ghost use Rattle.std.specs.Prelude.{vec_capacity, IfOk, OnOk, OnErr};
    ghost use Rattle.std.specs.List.{All};
    ghost use Rattle.bay_model.specs.declared.flags.Change.{Change as ChangeValue};
    ghost use Rattle.bay_model.specs.Attributes.{attributes};
    ghost use Rattle.value_store.specs.Opened.{IsStorable, opened};
    ghost use Rattle.value_store.specs.Stored.{attribute, outcome, with_value};
    ghost use Rattle.bay_values.specs.Changed.{change_from, last_set, without_change, AreMade};
    ghost use Rattle.bay_values.specs.Changed.{AreDistinct, AreFit};

    /// The configured values.
    pub fn open(alloc: Global, config: &Config) -> Result<Values, AllocError>
        requires { IsStorable config.now }
        ensures { IfOk result (λ v. v ≡ opened config.now) }
    {
        let store = Store::open(alloc, config)?;
        let marks = vec![in alloc; false; store.len()]?;
        Ok(Values { store, marks })
    }

    /// The values, to be read.
    pub fn store(&self) -> &Store
        ensures { result.now ≡ self.now }
    {
        &self.store
    }

    /// Sets attributes as the process does, of one that is named twice the last time; adds to `changes` what became of
    /// each, once. It takes no memory, since `changes` has capacity for as many as there are attributes.
    pub fn set(&mut self, model: &Model, settings: &[Setting], changes: &mut Vec<Change>)
        requires fits { AreFit self.old settings.now }
        requires flags { length self.old ≡ length (attributes model.now) }
        requires empty { changes.old.items ≡ [] }
        requires room { length self.old ≤ vec_capacity changes.old }
        ensures set { (x : ℕ) → attribute self.new x ≡ last_set settings.now x
            (attribute self.old x) }
        ensures count { length self.new ≡ length self.old }
        ensures changes { AreMade model.now self.old settings.now changes.new.items }
        ensures once { AreDistinct changes.new.items }
        ensures within { All (λ (ch : ChangeValue). ch.attr.0 < length self.old) changes.new.items }
        ensures room { vec_capacity changes.old ≤ vec_capacity changes.new }
    {
        set_all(
            &mut self.store,
            self.marks.as_mut_slice(),
            model,
            settings,
            changes,
        );
        unmark(self.marks.as_mut_slice(), changes.as_slice());
    }

    /// Sets an attribute as a client does; adds to `changes` what became of it. It takes no memory, since `changes` has capacity.
    ///
    /// Refuses, in this order, a value of another kind, a write of what clients may not write, and a value out of the type's range
    /// or above its greatest length. A refusal leaves all as it was.
    pub fn write(
        &mut self,
        model: &Model,
        attr: AttrId,
        value: &Value,
        changes: &mut Vec<Change>,
    ) -> Result<(), SetFault>
        requires there { attr.0 < length self.old }
        requires flags { length self.old ≡ length (attributes model.now) }
        requires empty { changes.old.items ≡ [] }
        requires room { 0 < vec_capacity changes.old }
        ensures answer { result ≡ without_change
            (outcome (attribute self.old attr.0) value.now true) }
        ensures set { OnOk result (self.new ≡ slice_set self.old attr.0
            (with_value value.now (attribute self.old attr.0))) }
        ensures noted { OnOk result (changes.new.items
            ≡ change_from model.now self.old attr.0 value.now ∷ []) }
        ensures kept { OnErr result (self.new ≡ self.old) }
        ensures room { vec_capacity changes.old ≤ vec_capacity changes.new }
    {
        let flags = model.flags(attr);
        let changed = self.store.set(attr, value, true)?;
        let _ = changes.push(Change {
            attr,
            flags,
            differs: changed.differs,
        });
        Ok(())
    }
}
