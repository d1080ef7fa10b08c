//! The references of logical nodes, data sets, attributes and controls.

ghost use Rattle.std.specs.Prelude.{◌≡◌, ◌++◌, ◌∷◌, [], map, codes, IfOk, OnOk};
ghost use Rattle.sv_base.specs.declared.parameters.CtlParameter.TheVariants.{SboTimeout, SboClass};
ghost use Rattle.sv_base.specs.Parameters.{parameter_name};
ghost use Rattle.sv_base.specs.CtlServices.{service_name};
ghost use Rattle.cfg_lines.specs.Keys.{octets_of};
ghost use Rattle.cfg_lines.specs.Paths.{below as below_front, node_key as node_key_of};
ghost use Rattle.cfg_lines.specs.Paths.{item_key as item_key_of};
ghost use Rattle.cfg_lines.specs.Claims.{operations, settings, control_keys as control_keys_of};
ghost use Rattle.cfg_lines.specs.Claims.{group_key as group_key_of};

use std::alloc::{AllocError, Global};
use sv_base::{CtlParameter, CtlService, ctl_models};

/// Adds a name below what a buffer holds.
fn extend_below(room: &mut Vec<u8>, name: &[u8]) -> Result<(), AllocError>
    ensures { OnOk result (room.new.items ≡ below_front room.old.items name.now) }
{
    room.push(b'$')?;
    room.extend_from_slice(name)
}

/// Makes a buffer hold the reference of a logical node.
pub fn put_node_key(room: &mut Vec<u8>, domain: &[u8], node: &[u8]) -> Result<(), AllocError>
    ensures { OnOk result (room.new.items ≡ node_key_of domain.now node.now) }
{
    room.clear();
    room.extend_from_slice(domain)?;
    room.push(b'/')?;
    room.extend_from_slice(node)
}

/// A buffer for the reference of a logical node, with n octets more, that has the reference.
fn node_room(alloc: Global, domain: &[u8], node: &[u8], more: usize) -> Result<Vec<u8>, AllocError>
    ensures { IfOk result (λ v. v.items ≡ node_key_of domain.now node.now) }
{
    let octets = domain.len().saturating_add(node.len()).saturating_add(more);
    let mut key = Vec::with_capacity(alloc, octets.saturating_add(1))?;
    put_node_key(&mut key, domain, node)?;
    Ok(key)
}

/// The reference of a logical node.
pub fn node_key(alloc: Global, domain: &[u8], node: &[u8]) -> Result<Vec<u8>, AllocError>
    ensures { IfOk result (λ v. v.items ≡ node_key_of domain.now node.now) }
{
    node_room(alloc, domain, node, 0)
}

/// The reference of a name below another.
pub fn below(alloc: Global, front: &[u8], name: &[u8]) -> Result<Vec<u8>, AllocError>
    ensures { IfOk result (λ v. v.items ≡ below_front front.now name.now) }
{
    let octets = front.len().saturating_add(name.len());
    let mut key = Vec::with_capacity(alloc, octets.saturating_add(1))?;
    key.extend_from_slice(front)?;
    extend_below(&mut key, name)?;
    Ok(key)
}

/// The reference of a data set or of a functional constraint of a logical node.
pub fn node_item(
    alloc: Global,
    domain: &[u8],
    node: &[u8],
    name: &[u8],
) -> Result<Vec<u8>, AllocError>
    ensures { IfOk result (λ v. v.items ≡ below_front (node_key_of domain.now node.now) name.now) }
{
    let mut key = node_room(alloc, domain, node, name.len().saturating_add(1))?;
    extend_below(&mut key, name)?;
    Ok(key)
}

/// Makes a buffer hold the reference of a path under a functional constraint of a logical node.
pub fn put_item_key(
    room: &mut Vec<u8>,
    domain: &[u8],
    node: &[u8],
    fc: &[u8],
    path: &[u8],
) -> Result<(), AllocError>
    ensures { OnOk result (room.new.items ≡ item_key_of domain.now node.now fc.now path.now) }
{
    put_node_key(room, domain, node)?;
    extend_below(room, fc)?;
    extend_below(room, path)
}

/// The reference of a path under a functional constraint of a logical node.
pub fn item_key(
    alloc: Global,
    domain: &[u8],
    node: &[u8],
    fc: &[u8],
    path: &[u8],
) -> Result<Vec<u8>, AllocError>
    ensures { IfOk result (λ v. v.items ≡ item_key_of domain.now node.now fc.now path.now) }
{
    let front = domain.len().saturating_add(node.len());
    let octets = front.saturating_add(fc.len()).saturating_add(path.len());
    let mut key = Vec::with_capacity(alloc, octets.saturating_add(3))?;
    put_item_key(&mut key, domain, node, fc, path)?;
    Ok(key)
}

/// The reference of a domain's setting group control block (IEC 61850-7-2, SGCB; IEC 61850-8-1, its name).
pub fn group_key(alloc: Global, domain: &[u8]) -> Result<Vec<u8>, AllocError>
    ensures { IfOk result (λ v. v.items ≡ group_key_of domain.now (codes "LLN0")) }
{
    item_key(alloc, domain, b"LLN0", b"SP", b"SGCB")
}

fn push_below(
    alloc: Global,
    keys: &mut Vec<Vec<u8>>,
    front: &[u8],
    name: &[u8],
) -> Result<(), AllocError>
    ensures { OnOk result (map octets_of keys.new.items ≡ map octets_of keys.old.items
        ++ below_front front.now name.now ∷ []) }
{
    let key = below(alloc, front, name)?;
    keys.push(key)?;
    Ok(())
}

fn push_service(
    alloc: Global,
    keys: &mut Vec<Vec<u8>>,
    front: &[u8],
    service: CtlService,
) -> Result<(), AllocError>
    ensures { OnOk result (map octets_of keys.new.items ≡ map octets_of keys.old.items
        ++ below_front front.now (service_name service) ∷ []) }
{
    push_below(alloc, keys, front, service.name())
}

/// What a control has under CO.
fn push_operations(
    alloc: Global,
    keys: &mut Vec<Vec<u8>>,
    front: &[u8],
    model: u32,
) -> Result<(), AllocError>
    ensures { OnOk result (map octets_of keys.new.items ≡ map octets_of keys.old.items
        ++ map (λ part. below_front front.now part) (operations model)) }
{
    push_service(alloc, keys, front, CtlService::Oper)?;
    if model == u32::from(ctl_models::SBO_NORMAL) {
        push_service(alloc, keys, front, CtlService::Sbo)?;
        return push_service(alloc, keys, front, CtlService::Cancel);
    }
    if model == u32::from(ctl_models::SBO_ENHANCED) {
        push_service(alloc, keys, front, CtlService::SboWithValue)?;
        return push_service(alloc, keys, front, CtlService::Cancel);
    }
    Ok(())
}

fn push_parameter(
    alloc: Global,
    keys: &mut Vec<Vec<u8>>,
    front: &[u8],
    parameter: CtlParameter,
) -> Result<(), AllocError>
    ensures { OnOk result (map octets_of keys.new.items ≡ map octets_of keys.old.items
        ++ below_front front.now (parameter_name parameter) ∷ []) }
{
    push_below(alloc, keys, front, parameter.name())
}

/// What a control that is selected first has besides under CF.
fn push_selection(alloc: Global, keys: &mut Vec<Vec<u8>>, front: &[u8]) -> Result<(), AllocError>
    ensures { OnOk result (map octets_of keys.new.items ≡ map octets_of keys.old.items
        ++ map (λ part. below_front front.now part)
        (parameter_name SboTimeout ∷ parameter_name SboClass ∷ [])) }
{
    push_parameter(alloc, keys, front, CtlParameter::SboTimeout)?;
    push_parameter(alloc, keys, front, CtlParameter::SboClass)?;
    Ok(())
}

/// What a control has under CF.
fn push_settings(
    alloc: Global,
    keys: &mut Vec<Vec<u8>>,
    front: &[u8],
    model: u32,
) -> Result<(), AllocError>
    ensures { OnOk result (map octets_of keys.new.items ≡ map octets_of keys.old.items
        ++ map (λ part. below_front front.now part) (settings model)) }
{
    push_parameter(alloc, keys, front, CtlParameter::CtlModel)?;
    if model == u32::from(ctl_models::SBO_NORMAL) {
        return push_selection(alloc, keys, front);
    }
    if model == u32::from(ctl_models::SBO_ENHANCED) {
        return push_selection(alloc, keys, front);
    }
    Ok(())
}

/// The references that a control takes by its model.
pub fn control_keys(
    alloc: Global,
    domain: &[u8],
    node: &[u8],
    path: &[u8],
    model: u32,
) -> Result<Vec<Vec<u8>>, AllocError>
    ensures { IfOk result (λ v. map octets_of v.items
        ≡ control_keys_of domain.now node.now path.now model) }
{
    let mut keys = Vec::new(alloc);
    let operated = item_key(alloc, domain, node, b"CO", path)?;
    push_operations(alloc, &mut keys, &operated, model)?;
    let set = item_key(alloc, domain, node, b"CF", path)?;
    push_settings(alloc, &mut keys, &set, model)?;
    Ok(keys)
}
