//! The first words of the lines of a record.

ghost use Rattle.std.specs.Prelude.{◌≡◌, ◌==◌};
ghost use Rattle.run_record.specs.Judging.{keyword_at};

/// The first word of a line, which says what the line says.
#[derive(Clone, Copy, Debug, PartialEq, Eq)]
pub enum Keyword {
    At,
    Open,
    Write,
    Pdu,
    Piece,
    Take,
    Lost,
    Set,
    Done,
    Block,
    Tick,
    End,
}

/// The keyword that a word is.
pub fn keyword_of(word: &[u8]) -> Option<Keyword>
    ensures { result ≡ keyword_at word.now }
{
    let found = if word == b"at".as_slice() {
        Keyword::At
    } else if word == b"open".as_slice() {
        Keyword::Open
    } else if word == b"write".as_slice() {
        Keyword::Write
    } else if word == b"pdu".as_slice() {
        Keyword::Pdu
    } else if word == b"in".as_slice() {
        Keyword::Piece
    } else if word == b"take".as_slice() {
        Keyword::Take
    } else if word == b"lost".as_slice() {
        Keyword::Lost
    } else if word == b"set".as_slice() {
        Keyword::Set
    } else if word == b"done".as_slice() {
        Keyword::Done
    } else if word == b"block".as_slice() {
        Keyword::Block
    } else if word == b"tick".as_slice() {
        Keyword::Tick
    } else if word == b"end".as_slice() {
        Keyword::End
    } else {
        return None;
    };
    Some(found)
}
