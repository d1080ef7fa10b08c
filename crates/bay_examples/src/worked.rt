//! Worked histories over the example bay, each with what its steps are answered, and worked trees of names. A slip in a definition is refused here.

ghost use Rattle.bay_examples.specs.WorkedNames.{ExampleNamed, FirstNamed, GeneratedNamed};
ghost use Rattle.bay_examples.specs.WorkedNames.{AttributesNumbered, MembersAllowed, TypesNamed};
ghost use Rattle.bay_examples.specs.WorkedReports.{OneValue, UpdateFlag, TriggerBits};
ghost use Rattle.bay_examples.specs.WorkedReports.{IntegrityPeriod, Interrogation, MomentBelow};
ghost use Rattle.bay_examples.specs.WorkedBreaks.{TwoMembersInOneWindow, TwoWindows};
ghost use Rattle.bay_examples.specs.WorkedBreaks.{RepeatedMember, PurgeClosesEntry};
ghost use Rattle.bay_examples.specs.WorkedBreaks.{InterrogationClosesEntry};
ghost use Rattle.bay_examples.specs.WorkedBreaks.{IntegrityBeforeEffect, PeriodsBeginAnew};
ghost use Rattle.bay_examples.specs.WorkedBuffer.{GapMark, OversizedEntry, ExactCapacity};
ghost use Rattle.bay_examples.specs.WorkedBuffer.{PurgeOfUnsent, PurgeOfSent, PurgingChanges};
ghost use Rattle.bay_examples.specs.WorkedResumes.{ResumeAtNewest, ResumeBelowFront};
ghost use Rattle.bay_examples.specs.WorkedResumes.{RefusedEntryIDs, LossAndResume, EnabledTwice};
ghost use Rattle.bay_examples.specs.WorkedHolding.{Holding, LossOfAnother, RefusedComponents};
ghost use Rattle.bay_examples.specs.WorkedHolding.{RefusalsInOrder};
ghost use Rattle.bay_examples.specs.WorkedReservations.{RunsOut, Stopped, Shared, OwnersRead};
ghost use Rattle.bay_examples.specs.WorkedReservations.{ClampedLoss};
ghost use Rattle.bay_examples.specs.WorkedBlocks.{TieOfBlocks, EarliestStep};
ghost use Rattle.bay_examples.specs.WorkedReads.{ReadsOfNewestEntry, CountedChanges};
ghost use Rattle.bay_examples.specs.WorkedReads.{ReadOfStructure, RefusedAccess, LongReads};
ghost use Rattle.bay_examples.specs.WorkedControls.{RefusedOpers, ActAndTermination};
ghost use Rattle.bay_examples.specs.WorkedControls.{NegativeTermination, TestOperate};
ghost use Rattle.bay_examples.specs.WorkedControls.{CancelledSelection};
ghost use Rattle.bay_examples.specs.WorkedControls.{BlockedAndLost, SelectedBesideLoss};
ghost use Rattle.bay_examples.specs.WorkedControls.{LostExecution, LostTermination, RefusedSelects};
ghost use Rattle.bay_examples.specs.WorkedSelections.{SelectedBySBO, OperatedMany, DirectControl};
ghost use Rattle.bay_examples.specs.WorkedSelections.{BlockedSBO};
ghost use Rattle.bay_examples.specs.WorkedSettings.{ActiveGroup, EditedGroup, ConfirmedActive};
ghost use Rattle.bay_examples.specs.WorkedSettings.{HeldEdit, LastActivation, DroppedEdit};
ghost use Rattle.bay_examples.specs.WorkedSettings.{SetByProcess};
ghost use Rattle.bay_examples.specs.WorkedRequests.{RepliesInOrder, EnabledByRequest, DefinedSet};
ghost use Rattle.bay_examples.specs.WorkedRequests.{NamesAndDeletions, NamesOfSize};
ghost use Rattle.bay_examples.specs.WorkedRequests.{WaitingRepliesFull};
ghost use Rattle.bay_examples.specs.WorkedRequests.{TerminationsNotCounted, RefusedSteps};

/// Worked histories of events, and of what is reported of them.
pub fn worked_reports()
    ensures one_value { OneValue }
    ensures update_flag { UpdateFlag }
    ensures trigger_bits { TriggerBits }
    ensures integrity_period { IntegrityPeriod }
    ensures interrogation { Interrogation }
    ensures moment_below { MomentBelow }
{}

/// Worked histories of how events are gathered, and what closes the open entry.
pub fn worked_breaks()
    ensures two_members_in_one_window { TwoMembersInOneWindow }
    ensures two_windows { TwoWindows }
    ensures repeated_member { RepeatedMember }
    ensures purge_closes_entry { PurgeClosesEntry }
    ensures interrogation_closes_entry { InterrogationClosesEntry }
    ensures integrity_before_effect { IntegrityBeforeEffect }
    ensures periods_begin_anew { PeriodsBeginAnew }
{}

/// Worked histories of what the buffer retains, and when a report is marked.
pub fn worked_buffer()
    ensures gap_mark { GapMark }
    ensures oversized_entry { OversizedEntry }
    ensures exact_capacity { ExactCapacity }
    ensures purge_of_unsent { PurgeOfUnsent }
    ensures purge_of_sent { PurgeOfSent }
    ensures purging_changes { PurgingChanges }
{}

/// Worked histories of where the reports of a block go on.
pub fn worked_resumes()
    ensures resume_at_newest { ResumeAtNewest }
    ensures resume_below_front { ResumeBelowFront }
    ensures refused_entry_ids { RefusedEntryIDs }
    ensures loss_and_resume { LossAndResume }
    ensures enabled_twice { EnabledTwice }
{}

/// Worked histories of whose writes of a block are refused.
pub fn worked_holding()
    ensures holding { Holding }
    ensures loss_of_another { LossOfAnother }
    ensures refused_components { RefusedComponents }
    ensures refusals_in_order { RefusalsInOrder }
{}

/// Worked histories of who has reserved a block.
pub fn worked_reservations()
    ensures runs_out { RunsOut }
    ensures stopped { Stopped }
    ensures shared { Shared }
    ensures owners_read { OwnersRead }
    ensures clamped_loss { ClampedLoss }
{}

/// Worked histories of two blocks of one association.
pub fn worked_blocks()
    ensures tie_of_blocks { TieOfBlocks }
    ensures earliest_step { EarliestStep }
{}

/// Worked histories of reads.
pub fn worked_reads()
    ensures reads_of_newest_entry { ReadsOfNewestEntry }
    ensures counted_changes { CountedChanges }
    ensures read_of_structure { ReadOfStructure }
    ensures refused_access { RefusedAccess }
    ensures long_reads { LongReads }
{}

/// Worked histories of a control with enhanced security: refusals, act and termination.
pub fn worked_controls()
    ensures refused_opers { RefusedOpers }
    ensures act_and_termination { ActAndTermination }
    ensures negative_termination { NegativeTermination }
    ensures test_operate { TestOperate }
    ensures cancelled_selection { CancelledSelection }
    ensures blocked_and_lost { BlockedAndLost }
    ensures selected_beside_loss { SelectedBesideLoss }
    ensures lost_execution { LostExecution }
    ensures lost_termination { LostTermination }
    ensures refused_selects { RefusedSelects }
{}

/// Worked histories of a control with normal security.
pub fn worked_selections()
    ensures selected_by_sbo { SelectedBySBO }
    ensures operated_many { OperatedMany }
    ensures direct_control { DirectControl }
    ensures blocked_sbo { BlockedSBO }
{}

/// Worked histories of setting groups.
pub fn worked_settings()
    ensures active_group { ActiveGroup }
    ensures edited_group { EditedGroup }
    ensures confirmed_active { ConfirmedActive }
    ensures held_edit { HeldEdit }
    ensures last_activation { LastActivation }
    ensures dropped_edit { DroppedEdit }
    ensures set_by_process { SetByProcess }
{}

/// Worked histories of requests, data sets and refused steps.
pub fn worked_requests()
    ensures replies_in_order { RepliesInOrder }
    ensures enabled_by_request { EnabledByRequest }
    ensures defined_set { DefinedSet }
    ensures names_and_deletions { NamesAndDeletions }
    ensures names_of_size { NamesOfSize }
    ensures waiting_replies_full { WaitingRepliesFull }
    ensures terminations_not_counted { TerminationsNotCounted }
    ensures refused_steps { RefusedSteps }
{}

/// Worked trees of names.
pub fn worked_names()
    ensures example_named { ExampleNamed }
    ensures first_named { FirstNamed }
    ensures generated_named { GeneratedNamed }
    ensures attributes_numbered { AttributesNumbered }
    ensures members_allowed { MembersAllowed }
    ensures types_named { TypesNamed }
{}
