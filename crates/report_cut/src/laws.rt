//! What the PDUs of a report are, as laws: functions that run nothing.

ghost use Rattle.std.specs.Prelude.{◌≡◌, ℕ, ◌≤◌, ◌<◌, ◌^◌, List, Option, false, length};
ghost use Rattle.std.specs.Prelude.{slice_index_or as get_or};
ghost use Rattle.std.specs.List.{AllByRecursion};
ghost use Rattle.bay_model.specs.declared.report.Report.{Report};
ghost use Rattle.report_cut.specs.Cutting.{cut_from};
ghost use Rattle.bay_model.specs.declared.report.Member.{Member};
ghost use Rattle.ber_grammar.specs.Element.{Element, IsRow};
ghost use Rattle.mms_elements.specs.Reports.{IsReport};
ghost use Rattle.report_cut.specs.declared.segment.Segment.{Segment};
ghost use Rattle.report_cut.specs.Fields.{pdu, rpt, results, included, is_there};
ghost use Rattle.report_cut.specs.Rows.{AreSpelled, results_row};
ghost use Rattle.report_cut.specs.Part.{IsReportPart};
ghost use Rattle.report_cut.specs.Told.{parts, AreParts, CanBeRead};
ghost use Rattle.report_cut.specs.declared.part.ReportPart.{ReportPart};
ghost use Rattle.ber_grammar.specs.Octets.{IsBytes};
ghost use Rattle.output_shapes.specs.Shapes.{IsShort, CanBeCut};
ghost use Rattle.report_cut.specs.Pdus.{fits, pdus, AreSegments, IsCut};

/// Each PDU of a report fits the size. Where the report goes in segments, each has members that fit, all together have each
/// member once and in order, and none but the last could take one more.
pub fn segments_are_full()
    ensures short { (r : Report) (size : ℕ) → CanBeCut r → 1024 ≤ size
        → AllByRecursion (λ o. length o ≤ size) (pdus r size) }
    ensures segments { (r : Report) (size : ℕ) → CanBeCut r → 1024 ≤ size
        → AreSegments r size (cut_from (fits r size) 0 r.members) }
    ensures cut { (r : Report) (size : ℕ) → CanBeCut r → 1024 ≤ size → IsCut r size (pdus r size) }
{}

/// Each PDU of a report, which has at most `size` octets, is an information report under the list name RPT, whose results
/// are these elements: fields, and those of the members that it has.
pub fn segments_are_reports()
    ensures report { (r : Report) (segment : Option Segment) (ms : List Member)
        → length (pdu r segment ms) < 2 ^ 32
        → IsReport (pdu r segment ms) rpt (results r segment ms) }
    ensures fields { (r : Report) (segment : Option Segment) (ms : List Member) (es : List Element)
        → CanBeCut r → AllByRecursion IsShort ms
        → AreSpelled ms es → IsRow (results r segment ms) (results_row r segment ms es) }
{}

/// The bit of a number says whether a member with that number stands in the PDU.
pub fn inclusion_bits_tell()
    ensures count { (total : ℕ) (ms : List Member) → length (included total ms) ≡ total }
    ensures tells { (total n : ℕ) (ms : List Member) → n < total
        → get_or (included total ms) n false ≡ is_there n ms }
{}

/// Octets say at most one thing.
pub fn each_pdu_tells_one_thing()
    ensures { (input : List ℕ) (p q : ReportPart) → IsBytes input → IsReportPart input p
        → IsReportPart input q → p ≡ q }
{}

/// Each PDU of a report is read back: it says the fields that OptFlds asks for and the members of that PDU.
pub fn segments_are_read_back()
    ensures { (r : Report) (size : ℕ) → CanBeCut r → CanBeRead r → 1024 ≤ size → size < 2 ^ 32
        → AreParts (pdus r size) (parts r size) }
{}
