//! Data sets that clients delete (ISO 9506-2, DeleteNamedVariableList; IEC 61850-7-2, DeleteDataSet).

ghost use Rattle.std.specs.Prelude.{◌≡◌, map};
ghost use Rattle.data_sets.specs.Turns.{is_going, is_there};
ghost use Rattle.report_block.specs.Writes.{renumbered};
ghost use Rattle.bay_core.specs.Deleted.{is_reported as is_reported_by};
ghost use Rattle.bay_values.specs.Marked.{one_if};

use crate::bay::Bay;
use bay_model::{Reply, SetName, SetNames, deletion_scopes, service_errors};
use data_sets::{DeleteFault, is_reference};
use report_block::ReportBlock;
use std::alloc::AllocError;
use sv_base::{AssocNo, Moment};

/// The DatSet of a block, enabled or not, is the reference of this name.
fn is_reported(parts: &[ReportBlock], name: &SetName) -> bool
    ensures { result ≡ is_reported_by parts.now name.now }
{
    for part in parts {
        if is_reference(part.dat_set(), name.domain.as_slice(), name.item.as_slice()) {
            return true;
        }
    }
    false
}

/// The data set of a number was deleted: the numbers above move down by one.
fn renumber_all(parts: &mut Vec<ReportBlock>, gone: usize)
    ensures { parts.new.items ≡ map (renumbered gone) parts.old.items }
{
    let mut place = 0;
    while place < parts.len() {
        parts[place].renumber(gone);
        place += 1;
    }
}

/// One where a name had a data set at its turn.
fn matching(outcome: &Result<usize, DeleteFault>) -> u32
    ensures { result ≡ one_if (is_there outcome.now) }
{
    match outcome {
        Err(DeleteFault::NoSuchSet) => 0,
        _ => 1,
    }
}

/// One where it went.
fn going(outcome: &Result<usize, DeleteFault>) -> u32
    ensures { result ≡ one_if (is_going outcome.now) }
{
    match outcome {
        Ok(_) => 1,
        Err(_) => 0,
    }
}

impl Bay {
    ghost use Rattle.std.specs.Prelude.{◌≡◌, ◌<◌, ◌^◌, length, IfOk, OnOk, OnErr};
    ghost use Rattle.bay_model.specs.declared.request.Service.TheVariants as services;
    ghost use Rattle.assoc_table.specs.Tables.{IsNumber};
    ghost use Rattle.bay_core.specs.Asked.{IsKept, IsReplied};
    ghost use Rattle.bay_core.specs.Deleted.{after_deletion, after_deletions, deleted_in};
    ghost use Rattle.bay_core.specs.Deleted.{deletion_at, matched_in};

    /// The number of the data set of this name, where a client defined it and no block reports it, else the first cause why it isn't
    /// deleted.
    fn deletion(&self, name: &SetName) -> Result<usize, DeleteFault>
        ensures { result ≡ deletion_at self.now name.now }
    {
        let number = self.sets.deletion(name)?;
        if is_reported(&self.parts, name) {
            return Err(DeleteFault::InUse);
        }
        Ok(number)
    }

    /// Deletes the data set of a name, where it may go. It takes no memory.
    fn delete(&mut self, name: &SetName) -> Result<usize, DeleteFault>
        ensures answer { result ≡ deletion_at self.old name.now }
        ensures state { self.new ≡ after_deletion result self.old }
    {
        let number = self.deletion(name)?;
        self.sets.delete(number);
        renumber_all(&mut self.parts, number);
        Ok(number)
    }

    /// Deletes the data sets of names, each judged after those before it: how many were there at their turn, and how many of these
    /// went. It takes no memory.
    fn delete_all(&mut self, names: &[SetName]) -> (u32, u32)
        requires few { length names.now < 2 ^ 32 }
        ensures state { self.new ≡ after_deletions names.now self.old }
        ensures matched { result.0 ≡ matched_in names.now self.old }
        ensures deleted { result.1 ≡ deleted_in names.now self.old }
    {
        let mut matched: u32 = 0;
        let mut deleted: u32 = 0;
        for name in names {
            let outcome = self.delete(name);
            matched += matching(&outcome);
            deleted += going(&outcome);
        }
        (matched, deleted)
    }

    /// Answers deletions: time passes, and then each name is judged at its turn. A scope of all data sets of a domain or of the server
    /// isn't served.
    pub(crate) fn answer_deletion(
        &mut self,
        moment: Moment,
        a: AssocNo,
        scope: u8,
        names: &SetNames,
    ) -> Result<Reply, AllocError>
        requires number { IsNumber a.0 }
        ensures answered { IfOk result (λ r. IsReplied self.old self.new moment a.0
            (services.Delete scope names.now) r) }
        ensures kept { OnOk result (IsKept self.old self.new) }
        ensures refused { OnErr result (self.new ≡ self.old) }
    {
        let _ = &self.sets;
        if scope != deletion_scopes::SPECIFIC {
            self.arrive(moment);
            return Ok(Reply::Error {
                class: service_errors::ACCESS,
                code: service_errors::OBJECT_ACCESS_DENIED,
            });
        }
        if u32::try_from(names.len()).is_err() {
            return Err(AllocError);
        }
        self.arrive(moment);
        let (matched, deleted) = self.delete_all(names.as_slice());
        Ok(Reply::Deleted { matched, deleted })
    }
}
