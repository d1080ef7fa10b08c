//! The client's side of MMS (ISO 9506-2) in octets: what it asks, what it reads of a server's replies, and of reports
//! (IEC 61850-8-1, mapping of the Report service).

use crate::written::is_written;
use mms_pdu::{
    PduFault, ReplyView, reply, write_conclude_request, write_read_request, write_write_request,
};
use report_cut::{ReportFault, ReportPart, read_report};
use std::alloc::Global;
use std::test::*;
use sv_base::Value;

/// The variable `L$S` of the domain `D`, as it is read and as it is written.
static READ: [u8; 25] =
    *b"\xa0\x17\x02\x01\x05\xa4\x12\xa1\x10\xa0\x0e\x30\x0c\xa0\x0a\xa1\x08\x1a\x01\x44\x1a\x03L$S";

static WRITTEN: [u8; 28] =
    *b"\xa0\x1a\x02\x01\x06\xa5\x15\xa0\x0e\x30\x0c\xa0\x0a\xa1\x08\x1a\x01\x44\x1a\x03L$S\xa0\x03\x83\x01\xff";

fn requests_are_written(alloc: Global) -> bool {
    let value = Value::Bool(true);
    is_written(write_read_request(alloc, 5, b"D", b"L$S"), &READ)
        && is_written(
            write_write_request(alloc, 6, b"D", b"L$S", &value),
            &WRITTEN,
        )
        && write_conclude_request() == [0x8b, 0]
}

/// A report of one value, and one that an operate was refused: the variable `LastApplError`.
const REPORT: &[u8] =
    b"\xa3\x3b\xa0\x39\xa1\x05\x80\x03RPT\xa0\x30\x8a\x03Ev1\x84\x03\x06\x73\x80\x86\x01\x00\x8c\x06\x00\x00\x00\x0a\
\x00\x00\x83\x01\x00\x89\x08\x00\x00\x00\x00\x00\x00\x00\x01\x86\x01\x01\x84\x02\x05\x20\x85\x01\x05\x84\x02\x01\
\x40";

const REFUSED: &[u8] =
    b"\xa3\x43\xa0\x41\xa0\x13\x30\x11\xa0\x0f\x80\x0dLastApplError\xa0\x2a\xa2\x28\x8a\x16BAY1/CSWI1$CO$Pos$Oper\x85\
\x01\x01\xa2\x05\x85\x01\x02\x89\x00\x86\x01\x01\x85\x01\x1b";

/// What a server sends, and what it is read as.
static REPLIES: [(&[u8], Result<ReplyView<'static>, PduFault>); 25] = [
    // status, a write that is refused, one that is done
    (
        b"\xa1\x0b\x02\x01\x01\xa0\x06\x80\x01\x00\x81\x01\x00",
        Ok(ReplyView::Answer {
            invoke: 1,
            tag: 0xa0,
            body: b"\x80\x01\x00\x81\x01\x00",
        }),
    ),
    (
        b"\xa1\x08\x02\x01\x05\xa5\x03\x80\x01\x03",
        Ok(ReplyView::Answer {
            invoke: 5,
            tag: 0xa5,
            body: b"\x80\x01\x03",
        }),
    ),
    (
        b"\xa1\x09\x02\x01\x05\xa5\x04\x81\x00\x81\x00",
        Ok(ReplyView::Answer {
            invoke: 5,
            tag: 0xa5,
            body: b"\x81\x00\x81\x00",
        }),
    ),
    // a read; with the specification, a list's name; with a failure and the deepest value; with one that is too deep
    (
        b"\xa1\x0a\x02\x01\x05\xa4\x05\xa1\x03\x85\x01\x05",
        Ok(ReplyView::Answer {
            invoke: 5,
            tag: 0xa4,
            body: b"\xa1\x03\x85\x01\x05",
        }),
    ),
    (
        b"\xa1\x13\x02\x01\x05\xa4\x0e\xa0\x07\xa1\x05\x80\x03RPT\xa1\x03\x85\x01\x05",
        Ok(ReplyView::Answer {
            invoke: 5,
            tag: 0xa4,
            body: b"\xa0\x07\xa1\x05\x80\x03RPT\xa1\x03\x85\x01\x05",
        }),
    ),
    (
        b"\xa1\x1e\x02\x01\x05\xa4\x19\xa1\x17\x80\x01\x0a\xa2\x12\xa2\x10\xa2\x0e\xa2\x0c\xa2\x0a\xa2\x08\xa2\x06\xa2\x04\
\xa2\x02\xa2\x00",
        Ok(ReplyView::Answer {
            invoke: 5,
            tag: 0xa4,
            body: b"\xa1\x17\x80\x01\x0a\xa2\x12\xa2\x10\xa2\x0e\xa2\x0c\xa2\x0a\xa2\x08\xa2\x06\xa2\x04\xa2\x02\xa2\x00",
        }),
    ),
    (
        b"\xa1\x1d\x02\x01\x05\xa4\x18\xa1\x16\xa2\x14\xa2\x12\xa2\x10\xa2\x0e\xa2\x0c\xa2\x0a\xa2\x08\xa2\x06\xa2\x04\xa2\
\x02\xa2\x00",
        Err(PduFault::Argument(5)),
    ),
    // the greatest invoke number; a service whose tag has two octets
    (
        b"\xa1\x09\x02\x05\x00\xff\xff\xff\xff\x8b\x00",
        Ok(ReplyView::Answer {
            invoke: 4294967295,
            tag: 0x8b,
            body: b"",
        }),
    ),
    (
        b"\xa1\x06\x02\x01\x00\xbf\x4d\x00",
        Ok(ReplyView::Answer {
            invoke: 0,
            tag: 0xbf4d,
            body: b"",
        }),
    ),
    // errors: no such set; the greatest class of one octet, and of three; one above
    (
        b"\xa2\x0a\x80\x01\x05\xa2\x05\xa0\x03\x87\x01\x02",
        Ok(ReplyView::Error {
            invoke: 5,
            class: 7,
            code: 2,
        }),
    ),
    (
        b"\xa2\x0b\x80\x01\x05\xa2\x06\xa0\x04\x9e\x02\x00\xff",
        Ok(ReplyView::Error {
            invoke: 5,
            class: 30,
            code: 255,
        }),
    ),
    (
        b"\xa2\x0c\x80\x01\x05\xa2\x07\xa0\x05\x9f\x81\x7f\x01\x02",
        Ok(ReplyView::Error {
            invoke: 5,
            class: 255,
            code: 2,
        }),
    ),
    (
        b"\xa2\x0c\x80\x01\x05\xa2\x07\xa0\x05\x9f\x82\x00\x01\x02",
        Err(PduFault::Argument(5)),
    ),
    // rejects, with an invoke number and without; of another reason
    (
        b"\xa4\x06\x80\x01\x07\x81\x01\x01",
        Ok(ReplyView::Reject {
            invoke: Some(7),
            code: 1,
        }),
    ),
    (
        b"\xa4\x03\x85\x01\x00",
        Ok(ReplyView::Reject {
            invoke: None,
            code: 0,
        }),
    ),
    (
        b"\xa4\x03\x8b\x01\x02",
        Ok(ReplyView::Reject {
            invoke: None,
            code: 2,
        }),
    ),
    // the association is concluded
    (b"\x8c\x00", Ok(ReplyView::Concluded)),
    // reports are given whole
    (REPORT, Ok(ReplyView::Information(REPORT))),
    (REFUSED, Ok(ReplyView::Information(REFUSED))),
    // what begins no PDU; what is none whole; what no server sends; an answer without an invoke number; a code of 256
    (b"\xb0\x00", Err(PduFault::UnknownPdu)),
    (b"", Err(PduFault::Invalid)),
    (
        b"\xa3\x3b\xa0\x39\xa1\x05\x80\x03RPT\xa0\x30\x8a\x03Ev1\x84\x03\x06\x73\x80\x86\x01\x00\x8c\x06\x00\x00\x00\x0a\
\x00\x00\x83\x01\x00\x89\x08\x00\x00\x00\x00\x00\x00\x00\x01\x86\x01\x01\x84\x02\x05\x20\x85\x01\x05\x84\x02\x01",
        Err(PduFault::Invalid),
    ),
    (b"\x8b\x00", Err(PduFault::Invalid)),
    (b"\xa1\x04\xa5\x02\x81\x00", Err(PduFault::Invalid)),
    (
        b"\xa1\x09\x02\x01\x05\xa5\x04\x80\x02\x01\x00",
        Err(PduFault::Argument(5)),
    ),
];

#[test]
fn requests_are_written_and_replies_read(rt: HostRuntime) {
    assert!(rt; requests_are_written(rt.alloc()), "requests");
    for (octets, told) in &REPLIES {
        assert!(rt; reply(octets) == *told, "{octets:?}");
    }
}

/// How many members the data set has, SubSqNum and MoreSegmentsFollow, and how many members are there.
type Told = (u32, u32, bool, usize);

/// What octets are, their text, and what is told of them; nothing where they are refused.
static REPORTS: [(&str, &[u8], Option<Told>); 11] = [
    ("one member", REPORT, Some((3, 0, false, 1))),
    (
        "a last segment",
        b"\xa3\x48\xa0\x46\xa1\x05\x80\x03RPT\xa0\x3d\x8a\x03Ev1\x84\x03\x06\x73\xc0\x86\x01\x00\x8c\x06\x00\x00\x00\x0a\
\x00\x00\x83\x01\x00\x89\x08\x00\x00\x00\x00\x00\x00\x00\x01\x86\x01\x01\x86\x01\x01\x83\x01\x00\x84\x02\x05\x60\
\x85\x01\x05\x83\x01\x00\x84\x02\x01\x04\x84\x02\x01\x04",
        Some((3, 1, false, 2)),
    ),
    (
        "a first segment, of a long subsequence number",
        b"\xa3\x42\xa0\x40\xa1\x05\x80\x03RPT\xa0\x37\x8a\x03Ev1\x84\x03\x06\x73\xc0\x86\x01\x00\x8c\x06\x00\x00\x00\x0a\
\x00\x00\x83\x01\x00\x89\x08\x00\x00\x00\x00\x00\x00\x00\x01\x86\x01\x01\x86\x02\x00\x80\x83\x01\xff\x84\x02\x05\
\x80\x83\x01\xff\x84\x02\x01\x04",
        Some((3, 128, true, 1)),
    ),
    (
        "no member",
        b"\xa3\x34\xa0\x32\xa1\x05\x80\x03RPT\xa0\x29\x8a\x03Ev1\x84\x03\x06\x73\x80\x86\x01\x00\x8c\x06\x00\x00\x00\x0a\
\x00\x00\x83\x01\x00\x89\x08\x00\x00\x00\x00\x00\x00\x00\x01\x86\x01\x01\x84\x02\x05\x00",
        Some((3, 0, false, 0)),
    ),
    ("no octet", b"", None),
    (
        "an octet behind the PDU",
        b"\xa3\x3b\xa0\x39\xa1\x05\x80\x03RPT\xa0\x30\x8a\x03Ev1\x84\x03\x06\x73\x80\x86\x01\x00\x8c\x06\x00\x00\x00\x0a\
\x00\x00\x83\x01\x00\x89\x08\x00\x00\x00\x00\x00\x00\x00\x01\x86\x01\x01\x84\x02\x05\x20\x85\x01\x05\x84\x02\x01\
\x40\x00",
        None,
    ),
    (
        "SqNum 65536",
        b"\xa3\x3d\xa0\x3b\xa1\x05\x80\x03RPT\xa0\x32\x8a\x03Ev1\x84\x03\x06\x73\x80\x86\x03\x01\x00\x00\x8c\x06\x00\x00\
\x00\x0a\x00\x00\x83\x01\x00\x89\x08\x00\x00\x00\x00\x00\x00\x00\x01\x86\x01\x01\x84\x02\x05\x20\x85\x01\x05\x84\
\x02\x01\x40",
        None,
    ),
    (
        "86400000 milliseconds of a day",
        b"\xa3\x3b\xa0\x39\xa1\x05\x80\x03RPT\xa0\x30\x8a\x03Ev1\x84\x03\x06\x73\x80\x86\x01\x00\x8c\x06\x05\x26\x5c\x00\
\x00\x00\x83\x01\x00\x89\x08\x00\x00\x00\x00\x00\x00\x00\x01\x86\x01\x01\x84\x02\x05\x20\x85\x01\x05\x84\x02\x01\
\x40",
        None,
    ),
    (
        "257 inclusion bits",
        b"\xa3\x54\xa0\x52\xa1\x05\x80\x03RPT\xa0\x49\x8a\x03Ev1\x84\x03\x06\x73\x80\x86\x01\x00\x8c\x06\x00\x00\x00\x0a\
\x00\x00\x83\x01\x00\x89\x08\x00\x00\x00\x00\x00\x00\x00\x01\x86\x01\x01\x84\x22\x07\x00\x00\x00\x00\x00\x00\x00\
\x00\x00\x00\x00\x00\x00\x00\x00\x00\x00\x00\x00\x00\x00\x00\x00\x00\x00\x00\x00\x00\x00\x00\x00\x00\x00",
        None,
    ),
    (
        "bit 6 of the reasons",
        b"\xa3\x3b\xa0\x39\xa1\x05\x80\x03RPT\xa0\x30\x8a\x03Ev1\x84\x03\x06\x73\x80\x86\x01\x00\x8c\x06\x00\x00\x00\x0a\
\x00\x00\x83\x01\x00\x89\x08\x00\x00\x00\x00\x00\x00\x00\x01\x86\x01\x01\x84\x02\x05\x20\x85\x01\x05\x84\x02\x01\
\x42",
        None,
    ),
    (
        "a value fewer than inclusion bits",
        b"\xa3\x3b\xa0\x39\xa1\x05\x80\x03RPT\xa0\x30\x8a\x03Ev1\x84\x03\x06\x73\x80\x86\x01\x00\x8c\x06\x00\x00\x00\x0a\
\x00\x00\x83\x01\x00\x89\x08\x00\x00\x00\x00\x00\x00\x00\x01\x86\x01\x01\x84\x02\x05\x60\x85\x01\x05\x84\x02\x01\
\x40",
        None,
    ),
];

/// What is told of a part of report 0 of entry 1 of the block Ev1, 10 milliseconds from the first moment.
fn told_of(part: ReportPart) -> Option<Told> {
    let report = &part.report;
    if report.rpt_id.as_slice() == b"Ev1".as_slice()
        && report.time.ms() == 441763200010
        && (report.sq, report.id, report.conf_rev, report.ovfl) == (0, 1, 1, false)
    {
        return Some((report.total, part.sub, part.more, report.members.len()));
    }
    None
}

fn is_read(alloc: Global, octets: &[u8], told: &Option<Told>) -> bool {
    match read_report(alloc, octets) {
        Ok(part) => told.is_some() && told_of(part) == *told,
        Err(fault) => told.is_none() && fault == ReportFault::Invalid,
    }
}

#[test]
fn reports_are_read_or_refused(rt: HostRuntime) {
    for (name, octets, told) in &REPORTS {
        assert!(rt; is_read(rt.alloc(), octets, told), "{name}");
    }
}
