//! The codes of controls (IEC 61850-7-2, control class model), by their numbers.

ghost use Rattle.std.specs.Prelude.{◌≡◌, pos};
ghost use Rattle.sv_base.specs.declared.ctl_models.TheConstants.{STATUS_ONLY, SBO_NORMAL};
ghost use Rattle.sv_base.specs.declared.ctl_models.TheConstants.{DIRECT_ENHANCED, SBO_ENHANCED};
ghost use Rattle.sv_base.specs.declared.ctl_models.TheConstants.{OPERATE_ONCE};
ghost use Rattle.bay_model.specs.declared.add_causes.TheConstants.{NOT_SUPPORTED};
ghost use Rattle.bay_model.specs.declared.add_causes.TheConstants.{BLOCKED_BY_PROCESS};
ghost use Rattle.bay_model.specs.declared.add_causes.TheConstants.{COMMAND_ALREADY_IN_EXECUTION};
ghost use Rattle.bay_model.specs.declared.add_causes.TheConstants.{TIME_LIMIT_OVER};
ghost use Rattle.bay_model.specs.declared.add_causes.TheConstants.{OBJECT_NOT_SELECTED};
ghost use Rattle.bay_model.specs.declared.add_causes.TheConstants.{OBJECT_ALREADY_SELECTED};
ghost use Rattle.bay_answers.specs.declared.control_errors.TheConstants as control_errors;
ghost use Rattle.bay_model.specs.declared.add_causes.TheConstants.{INCONSISTENT_PARAMETERS};
ghost use Rattle.bay_model.specs.declared.add_causes.TheConstants.{LOCKED_BY_OTHER_CLIENT};

/// The codes of controls (IEC 61850-7-2, control class model; IEC 61850-8-1, LastApplError): the numbers of the code's tables, which the
/// definitions of `bay_model` and of `bay_answers` read too.
pub fn codes_of_controls_are_the_standards()
    // ctlModel
    ensures models { (STATUS_ONLY ≡ 0) × (SBO_NORMAL ≡ 2) × (DIRECT_ENHANCED ≡ 3)
        × (SBO_ENHANCED ≡ 4) }
    // sboClass
    ensures classes { OPERATE_ONCE ≡ 0 }
    // LastApplError, Error
    ensures errors { control_errors.UNKNOWN ≡ pos 1 }
    // AddCause
    ensures causes { (NOT_SUPPORTED ≡ 1) × (BLOCKED_BY_PROCESS ≡ 9)
        × (COMMAND_ALREADY_IN_EXECUTION ≡ 12) ×
        (TIME_LIMIT_OVER ≡ 16) × (OBJECT_NOT_SELECTED ≡ 18) × (OBJECT_ALREADY_SELECTED ≡ 19) ×
        (INCONSISTENT_PARAMETERS ≡ 26) × (LOCKED_BY_OTHER_CLIENT ≡ 27) }
{}
