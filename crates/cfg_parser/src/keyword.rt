//! The first words of the lines of a configuration.

ghost use Rattle.std.specs.Prelude.{◌≡◌};
ghost use Rattle.cfg_parser.specs.Keywords.{keyword_at};

/// The first word of a line, which says what the line says.
#[derive(Clone, Copy, Debug, PartialEq, Eq)]
pub enum Keyword {
    Config,
    Server,
    Ld,
    Ln,
    Attr,
    Set,
    Member,
    Brcb,
    Ctl,
    Sgcb,
    End,
}

/// The keyword that a word is.
pub fn keyword_of(word: &[u8]) -> Option<Keyword>
    ensures { result ≡ keyword_at word.now }
{
    let found = if word == b"config".as_slice() {
        Keyword::Config
    } else if word == b"server".as_slice() {
        Keyword::Server
    } else if word == b"ld".as_slice() {
        Keyword::Ld
    } else if word == b"ln".as_slice() {
        Keyword::Ln
    } else if word == b"attr".as_slice() {
        Keyword::Attr
    } else if word == b"set".as_slice() {
        Keyword::Set
    } else if word == b"member".as_slice() {
        Keyword::Member
    } else if word == b"brcb".as_slice() {
        Keyword::Brcb
    } else if word == b"ctl".as_slice() {
        Keyword::Ctl
    } else if word == b"sgcb".as_slice() {
        Keyword::Sgcb
    } else if word == b"end".as_slice() {
        Keyword::End
    } else {
        return None;
    };
    Some(found)
}
