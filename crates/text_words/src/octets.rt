//! The octets of a line, and the lines that say nothing.

ghost use Rattle.std.specs.Prelude.{◌≡◌};
ghost use Rattle.std.specs.List.{list_all};
ghost use Rattle.text_words.specs.Octets.{is_printable as printable, is_skipped as is_skipped_line};

fn is_printable(octet: u8) -> bool
    ensures { result ≡ printable octet }
{
    octet >= 0x20 && octet <= 0x7e
}

/// Every octet may stand in a line.
pub fn are_printable(line: &[u8]) -> bool
    ensures { result ≡ list_all printable line.now }
{
    let mut all = true;
    for octet in line {
        all = all & is_printable(*octet);
    }
    all
}

/// The line is empty or a remark.
pub fn is_skipped(text: &[u8]) -> bool
    ensures { result ≡ is_skipped_line text.now }
{
    match text {
        [] => true,
        [octet, ..] => *octet == b'#',
    }
}
