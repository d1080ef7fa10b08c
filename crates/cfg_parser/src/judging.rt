//! How a line is judged before its words are told: lengths, the count of words, its place, and limits.

ghost use Rattle.std.specs.Prelude.{◌≡◌, ◌≤◌, ◌+◌, ◌==◌, ◌&&◌, not, nat_lt, codes, length};
ghost use Rattle.std.specs.List.{list_any, count_by};
ghost use Rattle.std.specs.Str.{bytes_eq};
ghost use Rattle.text_words.specs.Names.{is_dollar};
ghost use Rattle.cfg_lines.specs.Before.{place_of, node_of, has_settings};
ghost use Rattle.text_words.specs.Words.{texts};
ghost use Rattle.cfg_parser.specs.Judging.{is_long_item as long_item};
ghost use Rattle.cfg_parser.specs.Judging.{is_long_control as long_control};
ghost use Rattle.cfg_parser.specs.Judging.{is_long_attribute as long_attribute};
ghost use Rattle.cfg_parser.specs.Judging.{is_long_set as long_set, is_long_block as long_block};
ghost use Rattle.cfg_parser.specs.Judging.{is_long_member as long_member};
ghost use Rattle.cfg_parser.specs.Judging.{has_long as has_long_word};
ghost use Rattle.cfg_parser.specs.Judging.{control_octets as octets_of_control};
ghost use Rattle.cfg_parser.specs.Judging.{counts as count_fits};
ghost use Rattle.cfg_parser.specs.Judging.{attribute_counts as attribute_count_fits};
ghost use Rattle.cfg_parser.specs.Judging.{may_stand as stands, has_groups as has_groups_for};
ghost use Rattle.cfg_parser.specs.Judging.{is_in_node as in_node, is_in_domain as in_domain};
ghost use Rattle.cfg_parser.specs.Judging.{is_in_set as in_set, is_open as open_at};
ghost use Rattle.cfg_parser.specs.Judging.{is_start as start_at, is_configured as configured_at};
ghost use Rattle.cfg_parser.specs.Judging.{is_deep as deep};
ghost use Rattle.cfg_parser.specs.Judging.{is_deep_attribute as deep_attribute};
ghost use Rattle.cfg_parser.specs.Judging.{is_deep_member as deep_member, has_many as has_as_many};
ghost use Rattle.cfg_parser.specs.Judging.{is_full as full};

use crate::keyword::Keyword;
use cfg_lines::Place;
use cfg_reading::Reading;
use text_words::{dollars, item_of};

/// The octets of `CO$` and `$Oper$origin$orIdent`, between which a control's name stands in its longest item
/// (IEC 61850-8-1, functional constraint CO).
const OF_CONTROL: usize = 23;

/// Those of `CO$` and `$Cancel$origin$orIdent`, for a control that is selected before it operates.
const OF_SELECTED: usize = 25;

/// Those of `BR$` and `$TimeofEntry`, for a report control block.
const OF_BLOCK: usize = 15;

/// A word is empty.
pub fn has_empty(words: &[&[u8]]) -> bool
    ensures { result ≡ list_any (λ w. length w == 0) (texts words.now) }
{
    words.iter().any(|word| word.is_empty())
}

fn has_long_of_server(words: &[&[u8]]) -> bool
    ensures { result ≡ list_any (λ word. nat_lt 64 (length word)) (texts words.now) }
{
    words.iter().any(|word| word.len() > 64)
}

/// An item name of the logical node, with n octets after the node's name and `$`, is above 64 octets.
fn is_long_item(before: &Reading, behind: usize) -> bool
    ensures { result ≡ long_item before.now behind }
{
    let node = before.node().len();
    node > 0 && node.saturating_add(behind) > 63
}

/// How many octets the longest item name of a control has around its path.
fn control_octets(model: &[u8]) -> usize
    ensures value { result ≡ octets_of_control model.now }
    ensures few { result ≤ 25 }
{
    if model == b"2".as_slice() || model == b"4".as_slice() {
        OF_SELECTED
    } else {
        OF_CONTROL
    }
}

fn is_long_control(before: &Reading, words: &[&[u8]]) -> bool
    ensures { result ≡ long_control before.now (texts words.now) }
{
    match words {
        [path] => is_long_item(before, path.len() + OF_CONTROL),
        [path, model, ..] => is_long_item(before, path.len() + control_octets(model)),
        [] => false,
    }
}

fn is_long_attribute(before: &Reading, words: &[&[u8]]) -> bool
    ensures { result ≡ long_attribute before.now (texts words.now) }
{
    match words {
        [fc, path, ..] => is_long_item(before, fc.len() + 1 + path.len()),
        _ => false,
    }
}

fn is_long_set(before: &Reading, words: &[&[u8]]) -> bool
    ensures { result ≡ long_set before.now (texts words.now) }
{
    match words {
        [name, ..] => is_long_item(before, name.len()),
        [] => false,
    }
}

fn is_long_block(before: &Reading, words: &[&[u8]]) -> bool
    ensures { result ≡ long_block before.now (texts words.now) }
{
    match words {
        [name, ..] => is_long_item(before, name.len() + OF_BLOCK),
        [] => false,
    }
}

fn is_long_member(words: &[&[u8]]) -> bool
    ensures { result ≡ long_member (texts words.now) }
{
    match words {
        [reference, ..] => reference.len() > 129 || item_of(reference).len() > 64,
        [] => false,
    }
}

/// A word, an item name or a reference is too long.
#[tactic(auto, unfolding(crate::specs::Judging::has_long))]
pub fn has_long(before: &Reading, keyword: Option<Keyword>, words: &[&[u8]]) -> bool
    ensures { result ≡ has_long_word before.now keyword (texts words.now) }
{
    match keyword {
        Some(Keyword::Server) => has_long_of_server(words),
        Some(Keyword::Attr) => is_long_attribute(before, words),
        Some(Keyword::Set) => is_long_set(before, words),
        Some(Keyword::Member) => is_long_member(words),
        Some(Keyword::Brcb) => is_long_block(before, words),
        Some(Keyword::Ctl) => is_long_control(before, words),
        _ => false,
    }
}

fn attribute_counts(groups: u8, words: &[&[u8]]) -> bool
    ensures { result ≡ attribute_count_fits groups (texts words.now) }
{
    match words {
        [fc, rest @ ..] => {
            if *fc != b"SG".as_slice() {
                return rest.len() == 4;
            }
            if groups == 0 {
                return rest.len() >= 4;
            }
            rest.len() == usize::from(groups) + 3
        }
        [] => false,
    }
}

/// There are as many words as the line has.
#[tactic(auto, unfolding(crate::specs::Judging::counts))]
pub fn counts(before: &Reading, keyword: Keyword, words: &[&[u8]]) -> bool
    ensures { result ≡ count_fits before.now keyword (texts words.now) }
{
    let count = match keyword {
        Keyword::End => 0,
        Keyword::Config | Keyword::Ld | Keyword::Ln | Keyword::Set | Keyword::Member => 1,
        Keyword::Sgcb => 2,
        Keyword::Server => 3,
        Keyword::Ctl => 5,
        Keyword::Brcb => 9,
        Keyword::Attr => return attribute_counts(before.groups(), words),
    };
    words.len() == count
}

fn is_start(place: Place) -> bool
    ensures { result ≡ start_at place }
{
    matches!(place, Place::Start)
}

fn is_configured(place: Place) -> bool
    ensures { result ≡ configured_at place }
{
    matches!(place, Place::Configured)
}

/// The line may go on with a logical node.
fn is_in_node(place: Place) -> bool
    ensures { result ≡ in_node place }
{
    matches!(place, Place::InNode | Place::InMembers)
}

/// The line may begin a domain, or end the configuration.
fn is_open(place: Place) -> bool
    ensures { result ≡ open_at place }
{
    matches!(place, Place::Served | Place::InNode | Place::InMembers)
}

/// The line may begin a logical node.
fn is_in_domain(place: Place) -> bool
    ensures { result ≡ in_domain place }
{
    matches!(place, Place::InDomain | Place::InNode | Place::InMembers)
}

/// The line may be a member of a data set.
fn is_in_set(place: Place) -> bool
    ensures { result ≡ in_set place }
{
    matches!(place, Place::InSet | Place::InMembers)
}

/// Under SG an attribute stands only after the domain's `sgcb`.
fn has_groups(groups: u8, words: &[&[u8]]) -> bool
    ensures { result ≡ has_groups_for groups (texts words.now) }
{
    match words {
        [fc, ..] => {
            if *fc == b"SG".as_slice() {
                groups > 0
            } else {
                true
            }
        }
        [] => false,
    }
}

/// The line of a setting group control block may stand in the domain's LLN0 before its attributes under SG.
fn may_have_groups(before: &Reading) -> bool
    ensures { result ≡ ((in_node (place_of before.now) && bytes_eq (node_of before.now)
        (codes "LLN0")) && not (has_settings before.now)) }
{
    is_in_node(before.place()) && before.node() == b"LLN0".as_slice() && !before.has_settings()
}

/// The line may stand there.
#[tactic(auto, unfolding(crate::specs::Judging::may_stand))]
pub fn may_stand(before: &Reading, keyword: Keyword, words: &[&[u8]]) -> bool
    ensures { result ≡ stands before.now keyword (texts words.now) }
{
    match keyword {
        Keyword::Config => is_start(before.place()),
        Keyword::Server => is_configured(before.place()),
        Keyword::Ld | Keyword::End => is_open(before.place()),
        Keyword::Ln => is_in_domain(before.place()),
        Keyword::Attr => is_in_node(before.place()) && has_groups(before.groups(), words),
        Keyword::Set | Keyword::Brcb | Keyword::Ctl => is_in_node(before.place()),
        Keyword::Member => is_in_set(before.place()),
        Keyword::Sgcb => may_have_groups(before),
    }
}

/// The path has more than n `$`.
fn is_deep(path: &[u8], most: usize) -> bool
    ensures { result ≡ nat_lt most (count_by is_dollar path.now) }
{
    dollars(path) > most
}

fn is_deep_attribute(words: &[&[u8]]) -> bool
    ensures { result ≡ deep_attribute (texts words.now) }
{
    match words {
        [_, path, ..] => is_deep(path, 7),
        _ => false,
    }
}

fn is_deep_member(words: &[&[u8]]) -> bool
    ensures { result ≡ deep_member (texts words.now) }
{
    match words {
        [reference, ..] => is_deep(item_of(reference), 9),
        [] => false,
    }
}

fn is_deep_control(words: &[&[u8]]) -> bool
    ensures { result ≡ deep 7 (texts words.now) }
{
    match words {
        [path, ..] => is_deep(path, 7),
        [] => false,
    }
}

/// There are as many lines as there may be.
pub fn is_full(before: &Reading) -> bool
    ensures { result ≡ full before.now }
{
    before.len() >= 20000
}

/// There are as many as there may be of what the line adds to, or a path has too many names.
#[tactic(auto, unfolding(crate::specs::Judging::has_many))]
pub fn has_many(before: &Reading, keyword: Keyword, words: &[&[u8]]) -> bool
    ensures { result ≡ has_as_many before.now keyword (texts words.now) }
{
    let counts = before.counts();
    match keyword {
        Keyword::Ld => counts.domains >= 16,
        Keyword::Ln => counts.nodes >= 256,
        Keyword::Attr => counts.attributes >= 10000 || is_deep_attribute(words),
        Keyword::Set => counts.sets >= 128,
        Keyword::Member => counts.members >= 256 || is_deep_member(words),
        Keyword::Brcb => counts.blocks >= 32,
        Keyword::Ctl => counts.controls >= 64 || is_deep_control(words),
        _ => false,
    }
}
