//! The keys of a line.
ghost use Rattle.std.specs.Prelude.{◌≡◌, List as Seq, IfOk, IfErr};
ghost use Rattle.ws_printing.specs.script.KeyWords as Spec;
ghost use Rattle.ws_printing.specs.script.ScriptFaults.{IsLineFault};

use crate::script::ScriptFault;
use crate::script::named_key::NamedKey;
use crate::script::script_line::{add, typed_key};
use std::alloc::Global;
use ws_code::List;

/// A key for each character of a text.
///
/// # Errors
///
/// `Memory` where a growth was refused.
pub fn typed_keys<Q: NamedKey>(
    alloc: Global,
    text: &str,
    inserts: bool,
) -> Result<List<Q>, ScriptFault>
    ensures keys { IfOk result (Spec.AreKeysOf Q.words inserts text.now) }
    ensures fault { IfErr result (λ fault. fault ≡ ScriptFault.Memory) }
{
    let mut keys = Vec::new(alloc);
    for character in text.chars() {
        add(&mut keys, Q::from_profile(typed_key(inserts, character)))?;
    }
    Ok(List::of(keys))
}

/// The key of this name.
///
/// # Errors
///
/// `Line(1)` where the display has no key of this name. `Memory` where it has one, and a growth was refused.
pub fn named_key<Q: NamedKey>(alloc: Global, name: &str) -> Result<List<Q>, ScriptFault>
    ensures keys { IfOk result (Spec.AreNamed Q.words name.now) }
    ensures fault { IfErr result (IsLineFault (Spec.AreNamed Q.words name.now)
        ((keys : Seq Q) × Spec.AreNamed Q.words name.now keys)) }
{
    let Some(key) = Q::named(name) else {
        return Err(ScriptFault::Line(1));
    };
    let mut keys = Vec::new(alloc);
    add(&mut keys, key)?;
    Ok(List::of(keys))
}
