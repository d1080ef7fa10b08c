//! The nodes by their names, and by their references.

ghost use Rattle.std.specs.Prelude.{◌≡◌, ◌<◌, ◌+◌, length, position, List, ℕ};
ghost use Rattle.std.specs.Option.{option_map};
ghost use Rattle.std.specs.Str.{bytes_eq};
ghost use Rattle.sv_base.specs.declared.config.Config.{Config as ModelConfig};
ghost use Rattle.bay_model.specs.Model.{Node};
ghost use Rattle.bay_model.specs.Lookups.{reference_of};
ghost use Rattle.bay_model.specs.Named.{nodes as nodes_of, member_number};
ghost use Rattle.bay_model.specs.NamedLines.{domains as domains_of};
ghost use Rattle.name_order.specs.Sorting.{name_at as name_at_place};
ghost use Rattle.name_leaves.specs.Numbers.{number_in};
ghost use Rattle.name_tree.specs.Directories.{items_at};
ghost use Rattle.name_tree.specs.Finding.{Finds, node_named, is_cut, least as least_of};

use crate::directories::{Directory, NodeName};
use name_order::name_at;
use octet_rows::Index;

/// The number of the node of an item, by the names of its domain; none exactly where it is not there.
fn number_in_domain(directory: &Directory, item: &[u8]) -> Option<u32>
    ensures { directory.now.first + length directory.now.items < 4294967296
        → result ≡ option_map (λ place. directory.now.first + place)
        (number_in directory.now.items item.now) }
{
    match directory.items.place_of(item) {
        None => None,
        Some(place) => Some(directory.first.saturating_add(place)),
    }
}

/// The number of the node of an item of a domain; none exactly where it is not there.
pub fn number_of(
    domains: &Index,
    directories: &[Directory],
    domain: &[u8],
    item: &[u8],
) -> Option<u32>
    ensures { (c : ModelConfig) → Finds c domains.now directories.now
        → result ≡ node_named (nodes_of c) domain.now item.now }
{
    match domains.place_of(domain) {
        None => None,
        Some(number) => match directories.get(number as usize) {
            None => None,
            Some(directory) => number_in_domain(directory, item),
        },
    }
}

/// The item of a node, by where its name is.
pub fn item_at(directories: &[Directory], name: NodeName) -> &[u8]
    ensures { (c : ModelConfig) (domains : List (List ℕ)) → Finds c domains directories.now
        → name.domain < length (domains_of c)
        → result.now ≡ name_at_place (items_at c name.domain) name.place }
{
    match directories.get(name.domain as usize) {
        None => b"".as_slice(),
        Some(directory) => name_at(&directory.items, name.place),
    }
}

/// The first node of a reference `LD/item` whose domain ends at a place of it.
fn cut_at(domains: &Index, directories: &[Directory], reference: &[u8], at: usize) -> Option<u32>
    requires { at < length reference.now }
    ensures { (c : ModelConfig) → Finds c domains.now directories.now
        → result ≡ position (is_cut reference.now at) (nodes_of c) }
{
    if reference[at] != b'/' {
        return None;
    }
    number_of(domains, directories, &reference[..at], &reference[at + 1..])
}

/// The lesser of two numbers, of those that there are.
fn least(one: Option<u32>, other: Option<u32>) -> Option<u32>
    ensures { result ≡ least_of one other }
{
    match (one, other) {
        (None, other) => other,
        (one, None) => one,
        (Some(one), Some(other)) => Some(one.min(other)),
    }
}

/// The first node of a reference; none exactly where it is not there. The name of a domain may have a `/` as well.
fn first_of(domains: &Index, directories: &[Directory], reference: &[u8]) -> Option<u32>
    ensures { (c : ModelConfig) → Finds c domains.now directories.now
        → result ≡ position (λ (n : Node). bytes_eq reference.now
        (reference_of n.domain n.item)) (nodes_of c) }
{
    let mut first = None;
    for at in 0..reference.len() {
        first = least(first, cut_at(domains, directories, reference, at));
    }
    first
}

/// The number of the member of a data set, by its reference; 0 where it is not there.
pub fn member_of(domains: &Index, directories: &[Directory], reference: &[u8]) -> u32
    ensures { (c : ModelConfig) → Finds c domains.now directories.now
        → result ≡ member_number (nodes_of c) reference.now }
{
    first_of(domains, directories, reference).unwrap_or(0)
}
