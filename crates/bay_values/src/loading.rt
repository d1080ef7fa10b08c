//! The values of SG attributes where another group is the active one, or the active one was edited (IEC 61850-7-2, SelectActiveSG and
//! ConfirmEditSGValues).

ghost use Rattle.std.specs.Prelude.{◌≡◌, ◌<◌, ◌≤◌, ◌++◌, ◌∷◌, [], ℕ, List, length, slice_set};
ghost use Rattle.std.specs.Prelude.{vec_len, vec_capacity};
ghost use Rattle.bay_model.specs.Attributes.{attributes};
ghost use Rattle.bay_model.specs.declared.step.Setting.{Setting as SettingValue};
ghost use Rattle.value_store.specs.Stored.{Stored, attribute, with_value};
ghost use Rattle.setting_groups.specs.Grouped.{active_of, setting_at};
ghost use Rattle.setting_groups.specs.Loaded.{active_settings};
ghost use Rattle.bay_values.specs.Changed.{change_from};
ghost use Rattle.bay_values.specs.Loaded.{active_setting, AreLoadable, IsLoadable};
ghost use Rattle.bay_values.specs.Marked.{IsBlank, IsDone, marked_in};

use crate::values::{Values, unmark};
use bay_model::Change;
use object_model::Model;
use setting_groups::Groups;
use value_store::Store;

/// Gives an SG attribute what the active group of its domain holds, and notes the change.
fn load_noted(
    store: &mut Store,
    model: &Model,
    groups: &Groups,
    setting: usize,
    changes: &mut Vec<Change>,
)
    requires fit { IsLoadable store.old groups.now setting }
    requires flags { length store.old ≡ length (attributes model.now) }
    requires room { vec_len changes.old < vec_capacity changes.old }
    ensures set { store.new ≡ slice_set store.old (setting_at groups.now setting).attr
        (with_value (active_of groups.now setting).value
        (attribute store.old (setting_at groups.now setting).attr)) }
    ensures noted { changes.new.items ≡ changes.old.items ++ change_from model.now store.old
        (setting_at groups.now setting).attr
        (active_of groups.now setting).value ∷ [] }
    ensures room { vec_capacity changes.old ≤ vec_capacity changes.new }
{
    let attr = groups.attr(setting);
    let flags = model.flags(attr);
    let changed = store.copy_from(attr, groups.active(setting));
    let _ = changes.push(Change {
        attr,
        flags,
        differs: changed.differs,
    });
}

/// Gives an SG attribute what the active group of its domain holds, where it wasn't given it before.
fn load_once(
    store: &mut Store,
    marks: &mut [bool],
    model: &Model,
    groups: &Groups,
    setting: usize,
    changes: &mut Vec<Change>,
)
    requires fit { IsLoadable store.old groups.now setting }
    requires marks { length marks.old ≡ length store.old }
    requires flags { length store.old ≡ length (attributes model.now) }
    requires noted { length changes.old.items ≡ marked_in marks.old }
    requires room { length store.old ≤ vec_capacity changes.old }
    ensures done { (before : List Stored) (later : List SettingValue)
        → IsDone model.now before later store.old marks.old changes.old.items
        → IsDone model.now before (active_setting groups.now setting
        ∷ later) store.new marks.new changes.new.items }
    ensures fit { AreLoadable store.old groups.now → AreLoadable store.new groups.now }
    ensures room { vec_capacity changes.old ≤ vec_capacity changes.new }
{
    let attr = groups.attr(setting);
    if !marks[attr.0 as usize] {
        load_noted(store, model, groups, setting, changes);
        marks[attr.0 as usize] = true;
    }
}

/// Goes through the SG attributes of a domain from the last to the first.
fn load_all(
    store: &mut Store,
    marks: &mut [bool],
    model: &Model,
    groups: &Groups,
    domain: u32,
    changes: &mut Vec<Change>,
)
    requires fit { AreLoadable store.old groups.now }
    requires marks { length marks.old ≡ length store.old }
    requires blank { IsBlank marks.old }
    requires flags { length store.old ≡ length (attributes model.now) }
    requires empty { changes.old.items ≡ [] }
    requires room { length store.old ≤ vec_capacity changes.old }
    ensures done { IsDone model.now store.old
        (active_settings domain groups.now) store.new marks.new changes.new.items }
    ensures room { vec_capacity changes.old ≤ vec_capacity changes.new }
{
    for i in (0..groups.len()).rev() {
        if groups.domain(i) == domain {
            load_once(store, marks, model, groups, i, changes);
        }
    }
}

impl Values {
    ghost use Rattle.std.specs.Prelude.{◌≡◌, ◌≤◌, ◌<◌, [], ℕ, length, vec_capacity};
    ghost use Rattle.std.specs.List.{All};
    ghost use Rattle.bay_model.specs.declared.flags.Change.{Change as ChangeValue};
    ghost use Rattle.bay_model.specs.Attributes.{attributes};
    ghost use Rattle.value_store.specs.Stored.{attribute};
    ghost use Rattle.setting_groups.specs.Loaded.{active_settings};
    ghost use Rattle.bay_values.specs.Changed.{last_set, AreMade, AreDistinct};
    ghost use Rattle.bay_values.specs.Loaded.{AreLoadable};

    /// Gives the SG attributes of a domain what its active group holds; adds to `changes` what became of each, once. It takes no
    /// memory, since `changes` has capacity for as many as there are attributes.
    pub fn load(&mut self, model: &Model, groups: &Groups, domain: u32, changes: &mut Vec<Change>)
        requires fit { AreLoadable self.old groups.now }
        requires flags { length self.old ≡ length (attributes model.now) }
        requires empty { changes.old.items ≡ [] }
        requires room { length self.old ≤ vec_capacity changes.old }
        ensures set { (x : ℕ) → attribute self.new x ≡ last_set
            (active_settings domain groups.now) x (attribute self.old x) }
        ensures count { length self.new ≡ length self.old }
        ensures changes { AreMade model.now self.old
            (active_settings domain groups.now) changes.new.items }
        ensures once { AreDistinct changes.new.items }
        ensures within { All (λ (ch : ChangeValue). ch.attr.0 < length self.old) changes.new.items }
        ensures room { vec_capacity changes.old ≤ vec_capacity changes.new }
    {
        load_all(
            &mut self.store,
            self.marks.as_mut_slice(),
            model,
            groups,
            domain,
            changes,
        );
        unmark(self.marks.as_mut_slice(), changes.as_slice());
    }
}
