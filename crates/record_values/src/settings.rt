//! The settings of the process, by the references of attributes.

ghost use Rattle.std.specs.Prelude.{◌≡◌, IfOk};
ghost use Rattle.name_leaves.specs.Attributes.{types_of};
ghost use Rattle.run_record.specs.Seen.{pairs_seen};
ghost use Rattle.record_values.specs.Settings.{typed_in, IsPut};
ghost use Rattle.record_values.specs.Found.{AreFound, IsFitting};

use bay_model::{AttrRow, Setting};
use object_model::Model;
use run_record::PairsView;
use std::alloc::{AllocError, Global};
use step_fitting::row_at;
use sv_base::{AttrId, TypeOf, Value};
use text_words::{int, truth};

/// What the pairs of a line are: references of attributes, each with the text of a value.
#[derive(Drop)]
pub enum Found {
    /// The settings of these, in their order.
    Settings(Vec<Setting>),
    /// Nothing, since a reference is no attribute's.
    Unnamed,
    /// Nothing, since a text is no value of its attribute's type, where each reference is an attribute's.
    Unspelled,
}

/// Puts the setting of an attribute after others, where there is a value for it; returns whether there is.
#[inline(always)] // so that the value is made where it stays
fn put(settings: &mut Vec<Setting>, attr: AttrId, value: Option<Value>) -> Result<bool, AllocError>
    ensures { IfOk result (λ there. IsPut there attr.0 value settings.old.items
        settings.new.items) }
{
    match value {
        Some(value) => {
            settings.push(Setting { attr, value })?;
            Ok(true)
        }
        None => Ok(false),
    }
}

/// Puts the setting of an attribute after others, where a text spells a value of its type; returns whether that is so.
#[tactic(auto, unfolding(text_words::specs::Values::value_at))]
fn put_typed(
    alloc: Global,
    rows: &[AttrRow],
    attr: AttrId,
    word: &[u8],
    settings: &mut Vec<Setting>,
) -> Result<bool, AllocError>
    ensures { IfOk result (λ there. IsPut there attr.0
        (typed_in (types_of rows.now) word.now attr.0) settings.old.items settings.new.items) }
{
    let Some(row) = row_at(rows, attr) else {
        return Ok(false);
    };
    match &row.kind {
        TypeOf::Bool => put(settings, attr, truth(word).map(Value::Bool)),
        TypeOf::Int(bits) => put(settings, attr, int(word, *bits).map(Value::Int)),
        kind => {
            let value = text_words::value(alloc, kind, word)?;
            put(settings, attr, value)
        }
    }
}

/// What pairs are; the memory of other settings serves for these.
pub fn settings_of(
    alloc: Global,
    model: &Model,
    pairs: &PairsView<'_>,
    spare: Vec<Setting>,
) -> Result<Found, AllocError>
    ensures found { IfOk result (AreFound model.now (pairs_seen pairs.now)) }
    ensures fits { IfOk result (IsFitting model.now) }
{
    let rows = model.attr_rows();
    let mut settings = spare;
    settings.clear();
    let mut spelled = true;
    let mut rest = *pairs;
    while let Some(pair) = rest.next() {
        let Some(attr) = model.attr(pair.name) else {
            return Ok(Found::Unnamed);
        };
        spelled = put_typed(alloc, rows, attr, pair.value, &mut settings)? && spelled;
    }
    if spelled {
        Ok(Found::Settings(settings))
    } else {
        Ok(Found::Unspelled)
    }
}
