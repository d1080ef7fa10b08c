//! Why octets are no PDU that is expected.

/// Why octets are no PDU that is expected, in the order of the tests.
#[derive(Clone, Copy, Debug, PartialEq, Eq)]
pub enum PduFault {
    /// The first octet begins no PDU (ISO 9506-2, MMSpdu) that is known here, as that of a cancel request.
    UnknownPdu,
    /// After this invoke number stands a service (ISO 9506-2, ConfirmedServiceRequest) that is not known here.
    UnknownService(u32),
    /// After this invoke number stand fields outside the grammar of the service, of the error or of the reject, or
    /// values of another number than variables.
    Argument(u32),
    /// The octets are not one whole PDU, there is no invoke number, or the PDU does not belong where it came.
    Invalid,
    /// An initiate PDU proposes this greatest size of a PDU, in octets, which is below 1024.
    SmallSize(u32),
}
