//! The lines of a configuration in runs, each of one domain.

ghost use Rattle.std.specs.Prelude.{◌≡◌, ◌<◌, ◌≤◌, true, get_or, length, ℕ, IfOk};
ghost use Rattle.std.specs.Str.{bytes_eq};
ghost use Rattle.bay_model.specs.NamedLines.{Line as ModelLine};
ghost use Rattle.object_model.specs.Runs.{AreRuns, lines_in};

use object_names::Line;
use std::alloc::{AllocError, Global};

/// Lines side by side, all of this domain.
#[derive(Clone, Copy)]
pub struct Run<'a, 'b> {
    pub domain: &'a [u8],
    pub lines: &'a [Line<'b>],
}

/// The names are the same; their last octets, in which names of domains mostly differ, are looked at first.
pub fn is_same(one: &[u8], other: &[u8]) -> bool
    ensures { result ≡ bytes_eq one.now other.now }
{
    let len = one.len();
    if len != other.len() {
        return false;
    }
    if len > 0 && one[len - 1] != other[len - 1] {
        return false;
    }
    one == other
}

/// How many of the first lines are of a domain.
fn run_len(lines: &[Line<'_>], domain: &[u8]) -> usize
    ensures within { result ≤ length lines.now }
    ensures same { (k : ℕ) (d : ModelLine) → k < result
        → bytes_eq (get_or lines.now k d).domain domain.now ≡ true }
{
    for (i, line) in lines.iter().enumerate() {
        if !is_same(line.domain, domain) {
            return i;
        }
    }
    lines.len()
}

/// The lines in runs.
pub fn runs_of<'a, 'b>(alloc: Global, lines: &'a [Line<'b>]) -> Result<Vec<Run<'a, 'b>>, AllocError>
    ensures lines { IfOk result (λ v. lines_in v.items ≡ lines.now) }
    ensures runs { IfOk result (λ v. AreRuns v.items) }
{
    let mut runs = Vec::new(alloc);
    let mut rest = lines;
    while let [first, more @ ..] = rest {
        let domain = first.domain;
        let len = 1 + run_len(more, domain);
        runs.push(Run {
            domain,
            lines: &rest[..len],
        })?;
        rest = &rest[len..];
    }
    Ok(runs)
}

/// How many lines the runs of a domain have.
pub fn count_of(runs: &[Run<'_, '_>], domain: &[u8]) -> usize {
    let mut count = 0usize;
    for run in runs {
        if is_same(run.domain, domain) {
            count = count.saturating_add(run.lines.len());
        }
    }
    count
}
