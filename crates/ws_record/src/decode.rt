//! The items of a whole stream, from a slice of bytes or from a source.

ghost use Rattle.std.specs.Prelude.{◌≡◌, List, ℕ, IfOk, IfErr, MatchResult};
ghost use Rattle.ws_code.specs.Device.{GaveAll};
ghost use Rattle.ws_record.specs.declared.record.Item.{Item};
ghost use Rattle.ws_record.specs.Grammar.{IsInGrammar};
ghost use Rattle.ws_record.specs.Receiver.{IsDecodeFault};
ghost use Rattle.ws_record.specs.DecodeFrom.{IsSourceFault};

use crate::{Item, Receiver};
use std::alloc::Global;
use ws_code::{Body, DeviceFailed, Fault, Source};

/// The items that the bytes spell (RFC 854, 885, 1205).
///
/// # Errors
///
/// `Refused` names the first byte after which nothing that follows can make the stream valid, counted from 0, and why;
/// `Truncated` the bytes' number, where they end inside a token or a record; `Memory` comes only where a
/// growth was refused.
pub fn decode_all<B: Body>(alloc: Global, bytes: &[u8]) -> Result<Vec<Item<B::Unit>>, Fault>
    ensures accepted { IfOk result (λ items. IsInGrammar B.rules bytes.now items.items) }
    ensures fault { IfErr result (λ fault. IsDecodeFault B.rules bytes.now fault) }
    // What is in the grammar is accepted, unless memory runs out.
    ensures only { (items : List (Item B.Unit)) → IsInGrammar B.rules bytes.now items
        → MatchResult result (λ found. found.items ≡ items) (λ fault. fault ≡ Fault.Memory) }
{
    let mut receiver = Receiver::<B>::new(alloc);
    let mut items = Vec::new(alloc);
    receiver.take_all(bytes, &mut items)?;
    receiver.finish()?;
    Ok(items)
}

/// The items that the bytes of the source spell, up to its end (RFC 854, 885, 1205). At most 4,294,967,296 reads are
/// made. A failed read is never taken for the end.
///
/// # Errors
///
/// `Refused`, `Truncated` and `Memory` as of `decode_all`; `Read` exactly where a read failed, or 4,294,967,296
/// reads didn't reach the end.
pub fn decode_from<B: Body, S: Source>(
    alloc: Global,
    source: &mut S,
) -> Result<Vec<Item<B::Unit>>, Fault>
    ensures accepted { IfOk result (λ items. (bytes : List ℕ)
        × GaveAll S.reader source.old source.new bytes
        × IsInGrammar B.rules bytes items.items) }
    ensures fault { IfErr result
        (λ fault. IsSourceFault B.rules S.reader source.old source.new fault) }
{
    let mut receiver = Receiver::<B>::new(alloc);
    let mut items = Vec::new(alloc);
    let mut piece = [0u8; 4096];
    for _ in 0..4_294_967_296u64 {
        match source.read(&mut piece) {
            Ok(0) => {
                receiver.finish()?;
                return Ok(items);
            }
            Ok(given) => receiver.take_all(&piece[..given], &mut items)?,
            Err(DeviceFailed) => return Err(Fault::Read),
        }
    }
    Err(Fault::Read)
}
