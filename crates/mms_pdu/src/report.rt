//! A report, written (ISO 9506-2, Unconfirmed-PDU with an InformationReport).

ghost use Rattle.std.specs.Prelude.{◌≡◌, IfOk};
ghost use Rattle.mms_elements.specs.Reports.{report_octets, IsSpecificationElement};

use ber_write::{add, enclosed};
use mms_elements::tags;
use std::alloc::{AllocError, Global};
use sv_base::Octs;

/// An information report (ISO 9506-2, Unconfirmed-PDU with an InformationReport, tag A3): the variables, and under A0 the
/// results. `names` are the whole element of the variables, A0 for a list of them or A1 for the name of a list; `results`
/// are the content of the results' element.
#[tactic(auto, unfolding(mms_elements::specs::Reports::report_octets))]
pub fn write_report(alloc: Global, names: &[u8], results: &[u8]) -> Result<Octs, AllocError>
    requires { IsSpecificationElement names.now }
    ensures { IfOk result (λ o. o ≡ report_octets names.now results.now) }
{
    let mut fields = Vec::from_slice(alloc, names)?;
    add(&mut fields, tags::REPORT_RESULTS, results)?;
    let report = enclosed(alloc, tags::INFORMATION_REPORT, &fields)?;
    Ok(Octs::from_vec(enclosed(alloc, tags::UNCONFIRMED, &report)?))
}
