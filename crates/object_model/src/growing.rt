//! The nodes of a domain, grown out of what its lines name.

ghost use Rattle.std.specs.Prelude.{◌≡◌, ◌++◌, map, filter, flat_map, suc, IfOk, OnOk};
ghost use Rattle.std.specs.Str.{bytes_eq};
ghost use Rattle.bay_model.specs.NamedLines.{Line as ModelLine};
ghost use Rattle.bay_model.specs.NameTree.{longest as longest_of};
ghost use Rattle.name_tree.specs.Grown.{items_of, spot};
ghost use Rattle.name_tree.specs.Nodes.{places_from};
ghost use Rattle.object_model.specs.Runs.{AreRuns, IsRun, lines_in};

use crate::runs::{Run, count_of, is_same};
use name_tree::{Cut, Grown, Growth, grow};
use object_names::{Line, Named};
use std::alloc::{AllocError, Global};

fn push_names<'a>(out: &mut Vec<Cut<'a>>, names: &'a [Named<'_>]) -> Result<(), AllocError>
    ensures { OnOk result (out.new.items ≡ out.old.items ++ names.now) }
{
    for named in names {
        out.push(Cut {
            rest: named.item.as_slice(),
            what: named.what,
            kind: &named.kind,
        })?;
    }
    Ok(())
}

fn push_lines<'a>(out: &mut Vec<Cut<'a>>, lines: &'a [Line<'_>]) -> Result<(), AllocError>
    ensures { OnOk result (out.new.items ≡ out.old.items ++ flat_map
        (λ (l : ModelLine). l.names) lines.now) }
{
    for line in lines {
        push_names(out, &line.names)?;
    }
    Ok(())
}

fn push_run<'a>(out: &mut Vec<Cut<'a>>, run: Run<'a, '_>, domain: &[u8]) -> Result<(), AllocError>
    requires { IsRun run }
    ensures { OnOk result (out.new.items ≡ out.old.items ++ flat_map (λ (l : ModelLine). l.names)
        (filter (λ (l : ModelLine). bytes_eq l.domain domain.now) run.entry.lines.now)) }
{
    if is_same(run.domain, domain) {
        push_lines(out, run.lines)?;
    }
    Ok(())
}

/// What the lines of a domain name.
fn names_of<'a>(
    alloc: Global,
    runs: &[Run<'a, '_>],
    domain: &[u8],
) -> Result<Vec<Cut<'a>>, AllocError>
    requires { AreRuns runs.now }
    ensures { IfOk result (λ v. v.items ≡ flat_map (λ (l : ModelLine). l.names)
        (filter (λ (l : ModelLine). bytes_eq l.domain domain.now) (lines_in runs.now))) }
{
    let mut cuts = Vec::with_capacity(alloc, count_of(runs, domain))?;
    for run in runs {
        push_run(&mut cuts, *run, domain)?;
    }
    Ok(cuts)
}

/// How many levels the tree of names has at most: one more than the longest item has octets.
fn levels_of(cuts: &[Cut<'_>]) -> usize
    ensures { result ≡ suc (longest_of cuts.now) }
{
    let mut most = 1;
    for cut in cuts {
        most = most.max(cut.rest.len() + 1);
    }
    most
}

/// How many nodes n names have mostly, at one structure a name and some above these.
pub(crate) fn usual_nodes(names: usize) -> usize {
    names.saturating_mul(2).saturating_add(64)
}

/// The nodes of a domain, each before its parts, and their items.
pub fn growth_of(alloc: Global, runs: &[Run<'_, '_>], domain: &[u8]) -> Result<Growth, AllocError>
    requires { AreRuns runs.now }
    ensures items { IfOk result (λ growth. growth.items ≡ items_of
        (places_from (lines_in runs.now) domain.now)) }
    ensures spots { IfOk result (λ growth. growth.spots.items ≡ map spot
        (places_from (lines_in runs.now) domain.now)) }
{
    let cuts = names_of(alloc, runs, domain)?;
    let mut growth = Growth::with_capacity(alloc, usual_nodes(cuts.len()))?;
    let mut all = Grown::new(alloc);
    grow(alloc, &mut growth, &mut all, &cuts, levels_of(&cuts))?;
    Ok(growth)
}
