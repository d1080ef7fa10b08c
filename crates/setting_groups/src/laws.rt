//! The setting groups stand for each history, and each call comes to what the definitions say. The functions run nothing: each
//! contract is a law.

ghost use Rattle.std.specs.Prelude.{◌≡◌, ◌<◌, ◌≤◌, ◌+◌, ◌-◌, ◌&&◌, ◌==◌, if◌then◌else◌};
ghost use Rattle.std.specs.Prelude.{ℕ, Bool, List, [], ◌∷◌, length, is_some, true, slice_index_or};
ghost use Rattle.std.specs.Prelude.{Ok, Err};
ghost use Rattle.sv_base.specs.declared.value.Value.{Value};
ghost use Rattle.sv_base.specs.declared.value.Value.TheVariants as kinds;
ghost use Rattle.bay_model.specs.declared.step.Setting.{Setting};
ghost use Rattle.bay_model.specs.Components.{read_setting};
ghost use Rattle.bay_model.specs.Lookups.{attr_of, groups_of};
ghost use Rattle.bay_model.specs.Model as model;
ghost use Rattle.bay_model.specs.Model.{Model};
ghost use Rattle.sv_base.specs.declared.components.SettingComp.TheVariants.{NumOfSG, ActSG, EditSG};
ghost use Rattle.sv_base.specs.declared.components.SettingComp.TheVariants.{CnfEdit};
ghost use Rattle.bay_model.specs.Named.{configured_model};
ghost use Rattle.bay_model.specs.NamedLines.{domains, generated};
ghost use Rattle.bay_model.specs.Singles.{arrival};
ghost use Rattle.sv_base.specs.declared.config.Config.{Config};
ghost use Rattle.setting_groups.specs.Opened.{opened, IsGrouped};
ghost use Rattle.bay_model.specs.Points.{Deed, Point, Past, now, activated, edited, copied};
ghost use Rattle.bay_model.specs.Points.{confirmed, lost, valued, nothing};
ghost use Rattle.bay_model.specs.Outcomes.{outcome_by};
ghost use Rattle.bay_model.specs.Reads.{read_attribute};
ghost use Rattle.bay_model.specs.Settings.{active, edit, set_to, stored, group};
ghost use Rattle.bay_model.specs.SettingWrites.{write_part, write_attribute};
ghost use Rattle.bay_model.specs.Values.{gives, value_at};
ghost use Rattle.sv_base.specs.declared.components.SettingComp.{SettingComp};
ghost use Rattle.setting_groups.specs.Frames.{IsComplete, IsFramed};
ghost use Rattle.setting_groups.specs.Loaded.{active_settings};
ghost use Rattle.setting_groups.specs.Parts.{after_part, part_answer, part_deed, part_read};
ghost use Rattle.setting_groups.specs.Grouped.{Grouped, domain_at, setting_at, act_answer};
ghost use Rattle.setting_groups.specs.Grouped.{edit_answer, copy_answer, stored_answer, number_in};
ghost use Rattle.setting_groups.specs.Grouped.{edit_number};
ghost use Rattle.setting_groups.specs.Grouped.{is_on, holds, active_place, after_act, after_edit};
ghost use Rattle.setting_groups.specs.Grouped.{after_copy, after_confirm, after_loss, after_values};
ghost use Rattle.setting_groups.specs.Standing.{Stands, IsQuiet, IsTwin, at};
ghost use Rattle.bay_model.specs.declared.access_errors.TheConstants.{TEMPORARILY_UNAVAILABLE};

/// Setting groups that are opened stand for the empty history. Where they stand for what was before a point, they stand for its
/// arrival; then, after what came of it, for the point: after a client's accepted write of ActSG, of EditSG, into the copy or of
/// CnfEdit, the loss of an association, what the process sets, and whatever else; and for a further arrival.
pub fn settings_are_the_definition()
    ensures opened { (c : Config) → IsGrouped c
        → Stands (opened c (domains c)) (configured_model c) [] }
    ensures arrival { (c : Model) (s : Grouped) (n m : ℕ) (before : Past) → Stands s c before
        → Stands s c (arrival n m ∷ before) }
    ensures again { (c : Model) (s : Grouped) (n m : ℕ) (q : Point) (before : Past)
        → Stands s c (q ∷ before) → Stands s c (arrival n m ∷ q ∷ before) }
    ensures act { (c : Model) (s : Grouped) (a d g n m : ℕ) (before : Past) → Stands s c before
        → d < length s.domains → 1 ≤ g → g ≤ (groups_of c d).count
        → Stands (after_act d g (now (at n m (activated a d g) ∷ before)) s) c
        (at n m (activated a d g) ∷ before) }
    ensures edit { (c : Model) (s : Grouped) (a d g n m : ℕ) (before : Past) → Stands s c before
        → d < length s.domains → g ≤ (groups_of c d).count
        → Stands (after_edit d a g s) c (at n m (edited a d g) ∷ before) }
    ensures write { (c : Model) (s : Grouped) (a k n m : ℕ) (v : Value) (before : Past)
        → Stands s c before → k < length s.settings
        → Stands (after_copy k v s) c (at n m (copied a (setting_at s k).attr v) ∷ before) }
    ensures confirm { (c : Model) (s : Grouped) (a d n m : ℕ) (before : Past) → Stands s c before
        → d < length s.domains → is_some (edit d before) ≡ true
        → Stands (after_confirm d s) c (at n m (confirmed a d) ∷ before) }
    ensures loss { (c : Model) (s : Grouped) (a n m : ℕ) (before : Past) → Stands s c before
        → Stands (after_loss a s) c (at n m (lost a) ∷ before) }
    ensures values { (c : Model) (s : Grouped) (n m : ℕ) (settings : List Setting) (before : Past)
        → Stands s c before
        → Stands (after_values settings s) c (at n m (valued settings) ∷ before) }
    ensures quiet { (c : Model) (s : Grouped) (n m : ℕ) (d : Deed) (before : Past)
        → Stands s c before → IsQuiet d
        → Stands s c (at n m d ∷ before) }
{}

/// What comes of a client's writes is what the model of the bay has.
pub fn writes_are_answered()
    ensures act { (c : Model) (s : Grouped) (a d : ℕ) (v : Value) (past : Past) → Stands s c past
        → d < length s.domains → 1 ≤ (groups_of c d).count
        → write_part c a d ActSG v past ≡ outcome_by (act_answer (domain_at s d) v)
        (activated a d (number_in v)) }
    ensures edit { (c : Model) (s : Grouped) (a d : ℕ) (v : Value) (past : Past) → Stands s c past
        → d < length s.domains → 1 ≤ (groups_of c d).count
        → write_part c a d EditSG v past ≡ outcome_by (edit_answer a (domain_at s d) v)
        (edited a d (number_in v)) }
    ensures copy { (c : Model) (s : Grouped) (a k y : ℕ) (v : Value) (past : Past) → Stands s c past
        → k < length s.settings → IsTwin c y (setting_at s k)
        → write_attribute c a y v model.edited past
        ≡ outcome_by (copy_answer (holds a (domain_at s (setting_at s k).domain))
        (setting_at s k) v) (copied a (setting_at s k).attr v) }
    ensures confirm { (c : Model) (s : Grouped) (a d : ℕ) (v : Value) (past : Past)
        → Stands s c past → d < length s.domains → 1 ≤ (groups_of c d).count
        → write_part c a d CnfEdit v past ≡ outcome_by (stored_answer a (domain_at s d) v)
        (if is_on v then confirmed a d else nothing) }
{}

/// What is read of them is what the model of the bay has.
pub fn reads_are_shown()
    ensures active { (c : Model) (s : Grouped) (k : ℕ) (past : Past) → Stands s c past
        → k < length s.settings
        → (slice_index_or (setting_at s k).groups
        (active_place (domain_at s (setting_at s k).domain)) (setting_at s k).copy).value
        ≡ stored c (setting_at s k).attr past
        (group (active c (attr_of c (setting_at s k).attr).domain past)) }
    ensures copy { (c : Model) (s : Grouped) (k y : ℕ) (past : Past) → Stands s c past
        → k < length s.settings → IsTwin c y (setting_at s k)
        → read_attribute c model.edited y past
        ≡ (if is_some (domain_at s (setting_at s k).domain).edit then Ok (setting_at s k).copy.value
        else Err TEMPORARILY_UNAVAILABLE) }
    ensures count { (c : Model) (s : Grouped) (d : ℕ) (past : Past) → Stands s c past
        → d < length s.domains → 1 ≤ (groups_of c d).count
        → read_setting c d NumOfSG past ≡ kinds.Uint (domain_at s d).count }
    ensures act { (c : Model) (s : Grouped) (d : ℕ) (past : Past) → Stands s c past
        → d < length s.domains → 1 ≤ (groups_of c d).count
        → read_setting c d ActSG past ≡ kinds.Uint (domain_at s d).active }
    ensures edit { (c : Model) (s : Grouped) (d : ℕ) (past : Past) → Stands s c past
        → d < length s.domains → 1 ≤ (groups_of c d).count
        → read_setting c d EditSG past ≡ kinds.Uint (edit_number (domain_at s d)) }
{}

/// The values of the SG attributes after a group was made the active one, and after an edit was confirmed: those of the
/// group, and, where the active group was edited, those of the copy.
pub fn values_are_set()
    ensures act { (c : Model) (s : Grouped) (a d g k n m : ℕ) (before : Past) → Stands s c before
        → d < length s.domains → 1 ≤ g
        → g ≤ (groups_of c d).count → k < length s.settings
        → value_at c (setting_at s k).attr (at n m (activated a d g) ∷ before)
        ≡ (if (setting_at s k).domain == d
        then (slice_index_or (setting_at s k).groups (g - 1) (setting_at s k).copy).value
        else value_at c (setting_at s k).attr before) }
    ensures confirm { (c : Model) (s : Grouped) (a d k n m : ℕ) (before : Past) → Stands s c before
        → d < length s.domains
        → is_some (edit d before) ≡ true → k < length s.settings
        → value_at c (setting_at s k).attr (at n m (confirmed a d) ∷ before)
        ≡ (if ((setting_at s k).domain == d)
        && (edit_number (domain_at s d) == (domain_at s d).active) then
        (setting_at s k).copy.value else value_at c (setting_at s k).attr before) }
{}

/// What comes of a client's write of a component of the setting group block of a domain, and what such a component reads, is what the
/// model of the bay has; after an accepted write the groups stand for its point, and the attributes that it sets are given what the
/// active group then holds.
pub fn parts_are_written()
    ensures answered { (c : Model) (s : Grouped) (a d : ℕ) (part : SettingComp) (v : Value)
        (past : Past) → Stands s c past → d < length s.domains
        → 1 ≤ (groups_of c d).count
        → write_part c a d part v past ≡ outcome_by (part_answer a (domain_at s d) part v)
        (part_deed a d part v) }
    ensures read { (c : Model) (s : Grouped) (d : ℕ) (part : SettingComp) (past : Past)
        → Stands s c past → d < length s.domains → 1 ≤ (groups_of c d).count
        → read_setting c d part past ≡ part_read (domain_at s d) part }
    ensures stands { (c : Model) (s : Grouped) (a d n m : ℕ) (part : SettingComp) (v : Value)
        (before : Past) (is_set : Bool) → Stands s c before
        → d < length s.domains → 1 ≤ (groups_of c d).count
        → part_answer a (domain_at s d) part v ≡ Ok is_set
        → Stands (after_part d a part v (now (at n m (part_deed a d part v) ∷ before)) s) c
        (at n m (part_deed a d part v) ∷ before) }
    ensures given { (c : Model) (s : Grouped) (a d moment x : ℕ) (part : SettingComp) (v : Value)
        (before : Past) (is_set : Bool) → Stands s c before
        → IsComplete c s → d < length s.domains → 1 ≤ (groups_of c d).count
        → part_answer a (domain_at s d) part v ≡ Ok is_set
        → set_to x (if is_set then active_settings d (after_part d a part v moment s) else [])
        ≡ gives c x (part_deed a d part v) before }
{}

/// What the configuration of setting groups says of them, whatever was written: each SG attribute is among the settings, and their edit
/// copies stand after the attributes of lines and of controls, in the order of the settings.
pub fn frames_tell_attributes()
    ensures complete { (c : Config) (s : Grouped) → IsFramed c s
        → IsComplete (configured_model c) s }
    ensures twins { (c : Config) (s : Grouped) (k : ℕ) → IsFramed c s → k < length s.settings
        → IsTwin (configured_model c) (length c.attrs + length (generated c) + k) (setting_at s k) }
{}
