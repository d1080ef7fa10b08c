//! Why octets are refused.

/// Why octets are no BER element, or no content of its kind, in the order of the tests.
///
/// `Short`, `LongLength`, `Indefinite` and `BadTag` are of an element, `BadNumber` and `BadText` of a content.
#[derive(Clone, Copy, Debug, PartialEq, Eq)]
pub enum BerFault {
    /// The input ends inside the element.
    Short,
    /// A length field of more than five octets, or a length above 4294967295 (X.690, 8.1.3.5).
    LongLength,
    /// The indefinite length, 0x80 (X.690, 8.1.3.6).
    Indefinite,
    /// A tag of more than three octets (X.690, 8.1.2.4).
    BadTag,
    /// No octet, more than nine, a number out of its type's range (X.690, 8.3), or no bit string: no first octet,
    /// more than 7 unused bits, or unused bits without an octet (X.690, 8.6.2).
    BadNumber,
    /// An octet outside 0x20 to 0x7e in a visible string (X.690, 8.23).
    BadText,
}
