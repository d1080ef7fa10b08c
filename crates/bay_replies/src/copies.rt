//! Copies of what a request asks for, which its reply writes back (ISO 9506-2, the specification with the result of Read).

ghost use Rattle.std.specs.Prelude.{◌≡◌, IfOk};
ghost use Rattle.bay_model.specs.Services.{set_name as set_named};

use bay_model::{ObjName, SetName, Target, Targets};
use std::alloc::{AllocError, Global};
use sv_base::Octs;

/// The same name again.
fn copy_name(alloc: Global, name: &ObjName) -> Result<ObjName, AllocError>
    ensures { IfOk result (λ n. n ≡ name.now) }
{
    match name {
        ObjName::Vmd(item) => Ok(ObjName::Vmd(item.copy(alloc)?)),
        ObjName::Domain { domain, item } => Ok(ObjName::Domain {
            domain: domain.copy(alloc)?,
            item: item.copy(alloc)?,
        }),
        ObjName::Assoc(item) => Ok(ObjName::Assoc(item.copy(alloc)?)),
    }
}

/// The same variable again.
fn copy_target(alloc: Global, target: &Target) -> Result<Target, AllocError>
    ensures { IfOk result (λ t. t ≡ target.now) }
{
    match target {
        Target::Node(node, name) => Ok(Target::Node(*node, copy_name(alloc, name)?)),
        Target::Missing(name) => Ok(Target::Missing(copy_name(alloc, name)?)),
        Target::Alternate(name) => Ok(Target::Alternate(copy_name(alloc, name)?)),
    }
}

/// The same variables again.
pub fn copy_targets(alloc: Global, targets: &[Target]) -> Result<Targets, AllocError>
    ensures { IfOk result (λ ts. ts ≡ targets.now) }
{
    let mut copies = Vec::with_capacity(alloc, targets.len())?;
    for target in targets {
        copies.push(copy_target(alloc, target)?)?;
    }
    Ok(Targets::from_vec(copies))
}

/// The name of a data set.
pub fn set_name(alloc: Global, domain: &Octs, item: &Octs) -> Result<SetName, AllocError>
    ensures { IfOk result (λ n. n ≡ set_named domain.now item.now) }
{
    Ok(SetName {
        domain: domain.copy(alloc)?,
        item: item.copy(alloc)?,
    })
}
