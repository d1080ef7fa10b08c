//! A retained entry of a buffer.

use sv_base::Moment;

/// A retained entry, borrowed: its octets are `first` and then `second`.
#[derive(Clone, Copy, Debug)]
pub struct Entry<'a> {
    /// The moment of its first event.
    pub moment: Moment,
    /// The number of the step at which it came to be, from 0.
    pub step: u64,
    pub first: &'a [u8],
    pub second: &'a [u8],
}
