//! Checks whether a kept map has a key twice.
ghost use Rattle.std.specs.Prelude.{◌↔◌, IsTrue, [], IfOk};
ghost use Rattle.cabinet_text_nodes.specs.Faults.{HasKeyTwice};
ghost use Rattle.cabinet_text_nodes.specs.View.{node_pairs};

use crate::change::place_of;
use crate::node::Node;
use std::alloc::{AllocError, Global};
use std::collections::BTreeSet;

/// Returns whether a key occurs twice, by a set of the keys before it.
fn repeats_in_set(alloc: Global, pairs: &[(String, Node)]) -> Result<bool, AllocError>
    ensures { IfOk result (λ found. IsTrue found ↔ HasKeyTwice (node_pairs [] pairs.now)) }
{
    let mut seen = BTreeSet::new(alloc);
    for (key, _) in pairs {
        let is_new = seen.insert(key.as_str())?;
        if !is_new {
            return Ok(true);
        }
    }
    Ok(false)
}

/// Returns whether a key occurs twice, by comparing each two keys. It allocates no memory.
fn repeats_in_pairs(pairs: &[(String, Node)]) -> bool
    ensures { IsTrue result ↔ HasKeyTwice (node_pairs [] pairs.now) }
{
    for (place, (key, _)) in pairs.iter().enumerate() {
        if place_of(&pairs[place + 1..], key.as_str()).is_some() {
            return true;
        }
    }
    false
}

/// Returns whether a key occurs twice. If an allocation fails, each two keys are compared.
pub(crate) fn repeats_key(pairs: &Vec<(String, Node)>) -> bool
    ensures { IsTrue result ↔ HasKeyTwice (node_pairs [] pairs.now.items) }
{
    match repeats_in_set(*pairs.allocator(), pairs.as_slice()) {
        Ok(found) => found,
        Err(_) => repeats_in_pairs(pairs.as_slice()),
    }
}
