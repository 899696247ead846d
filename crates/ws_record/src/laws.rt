//! What holds of streams by their definitions, and of reading what was written. Each law comes by a call.

ghost use Rattle.std.specs.Prelude.{◌≡◌, ◌++◌, ◌<◌, ◌≤◌, ◌⊎◌, List, ℕ, length, IfOk, IfErr, MatchResult};
ghost use Rattle.ws_code.specs.Device.{most_reads};
ghost use Rattle.std.specs.List.{AllByRecursion};
ghost use Rattle.ws_code.specs.declared.reason.Reason.{Reason};
ghost use Rattle.ws_record.specs.declared.record.Item.{Item};
ghost use Rattle.ws_record.specs.Arrived.{arrived};
ghost use Rattle.ws_record.specs.Grammar.{Holds, Spells, IsInGrammar};
ghost use Rattle.ws_record.specs.Encode.{CanAllBeEncoded, IsInRange, IsEncodeFault, plain_spelling};
ghost use Rattle.ws_record.specs.OpenPrefix.{IsRefusedByPrefix, IsTruncatedByPrefix};
ghost use Rattle.ws_record.specs.Receiver.{IsDecodeFault};
ghost use Rattle.ws_record.specs.Refusal.{Layer, IsOpen, IsRefused, IsTruncated};

use crate::{EncodeFault, Item, decode_all, decode_from, encode};
use std::alloc::Global;
use ws_code::{Body, Fault, SliceSource};

/// A list of bytes spells at most one list of items.
pub fn one_reading<B: Body>()
    ensures { (bytes : List ℕ) (items others : List (Item B.Unit))
        → Spells B.rules bytes items → Spells B.rules bytes others → items ≡ others }
{}

/// The same bytes are refused, at the same place and for the same reason, whether each layer
/// is asked of whole streams or prefix by prefix of the last record.
pub fn one_refusal<B: Body>()
    ensures named { (bytes : List ℕ) (place : ℕ) (reason : Reason)
        → IsRefused B.rules bytes place reason → IsRefusedByPrefix B.rules bytes place reason }
    ensures and_back { (bytes : List ℕ) (place : ℕ) (reason : Reason)
        → IsRefusedByPrefix B.rules bytes place reason → IsRefused B.rules bytes place reason }
{}

/// The same bytes are truncated, whether each layer is asked of whole streams or prefix by
/// prefix of the last record.
pub fn one_truncation<B: Body>()
    ensures named { (bytes : List ℕ)
        → IsTruncated B.rules bytes → IsTruncatedByPrefix B.rules bytes }
    ensures and_back { (bytes : List ℕ)
        → IsTruncatedByPrefix B.rules bytes → IsTruncated B.rules bytes }
{}

/// Bytes are refused at one place and for one reason, or they are truncated, and not both. What is open to each layer
/// ends before a refused byte.
pub fn one_fault<B: Body>()
    ensures refused { (bytes : List ℕ) (place other : ℕ) (reason another : Reason)
        → IsRefused B.rules bytes place reason → IsRefused B.rules bytes other another
        → (place ≡ other) × (reason ≡ another) }
    ensures apart { (bytes : List ℕ) (place : ℕ) (reason : Reason)
        → IsRefused B.rules bytes place reason → IsTruncated B.rules bytes → ⊥ }
    ensures open_before { (front rest : List ℕ) (place : ℕ) (reason : Reason)
        → ((layer : Layer) → IsOpen B.rules layer front)
        → IsRefused B.rules (front ++ rest) place reason → length front ≤ place }
{}

/// The plain spelling of items that can be encoded is in the grammar, and spells these items and no
/// others.
pub fn encoding_spells_its_items<B: Body>()
    ensures accepted { (items : List (Item B.Unit)) → CanAllBeEncoded B.rules items
        → AllByRecursion IsInRange items
        → IsInGrammar B.rules (plain_spelling B.rules items) items }
    ensures only { (items others : List (Item B.Unit)) → CanAllBeEncoded B.rules items
        → AllByRecursion IsInRange items → Spells B.rules (plain_spelling B.rules items) others
        → others ≡ items }
{}

/// Of items that can be encoded, those whose spelling ends in a front of their plain spelling are complete in it,
/// and nothing in it is refused.
pub fn fronts_hold_items<B: Body>()
    ensures held { (items : List (Item B.Unit)) → CanAllBeEncoded B.rules items
        → AllByRecursion IsInRange items → (front rest : List ℕ)
        → plain_spelling B.rules items ≡ front ++ rest
        → (so_far begun : List ℕ)
        × Holds B.rules front (arrived B.rules items (length front)) so_far begun }
    ensures unrefused { (items : List (Item B.Unit)) → CanAllBeEncoded B.rules items
        → AllByRecursion IsInRange items → (front rest : List ℕ)
        → plain_spelling B.rules items ≡ front ++ rest
        → (place : ℕ) (reason : Reason) → IsRefused B.rules front place reason → ⊥ }
    ensures one { (bytes : List ℕ) (items others : List (Item B.Unit))
        → ((so_far begun : List ℕ) × Holds B.rules bytes items so_far begun)
        → ((so_far begun : List ℕ) × Holds B.rules bytes others so_far begun) → items ≡ others }
{}

/// Encodes the items and decodes what came of it: the items come back.
///
/// # Errors
///
/// Those of `encode`; `Memory` also where a growth was refused in decoding.
pub fn encode_and_decode<B: Body>(
    alloc: Global,
    items: &[Item<B::Unit>],
) -> Result<Vec<Item<B::Unit>>, EncodeFault>
    ensures same { IfOk result (λ found. found.items ≡ items.now) }
    ensures fault { IfErr result (IsEncodeFault B.rules items.now) }
{
    let bytes = encode::<B>(alloc, items)?;
    match decode_all::<B>(alloc, bytes.as_slice()) {
        Ok(found) => Ok(found),
        Err(_) => Err(EncodeFault::Memory),
    }
}

// A law, since no clause of decode_from, generic over its source, can speak of one source.
/// Decodes the bytes at once, and through a source over them: the same items, or the same fault, unless one of
/// the two was refused a growth. The bytes are fewer than 4,294,967,296, since so many reads of a source are made
/// at most.
pub fn decode_both_ways<B: Body>(
    alloc: Global,
    bytes: &[u8],
) -> (
    Result<Vec<Item<B::Unit>>, Fault>,
    Result<Vec<Item<B::Unit>>, Fault>,
)
    requires { length bytes.now < most_reads }
    // Of a slice.
    ensures accepted { IfOk result.0 (λ items. IsInGrammar B.rules bytes.now items.items) }
    ensures fault { IfErr result.0 (λ fault. IsDecodeFault B.rules bytes.now fault) }
    // Of a source that gives the same bytes.
    ensures source_accepted { IfOk result.1 (λ items. IsInGrammar B.rules bytes.now items.items) }
    ensures source_fault { IfErr result.1 (λ fault. IsDecodeFault B.rules bytes.now fault) }
    // Both say the same.
    ensures alike { MatchResult result.0
        (λ found. MatchResult result.1
        (λ others. found.items ≡ others.items)
        (λ other. other ≡ Fault.Memory))
        (λ fault. MatchResult result.1
        (λ others. fault ≡ Fault.Memory)
        (λ other. (fault ≡ Fault.Memory) ⊎ (other ≡ Fault.Memory) ⊎ (fault ≡ other))) }
{
    let mut source = SliceSource::new(bytes);
    let at_once = decode_all::<B>(alloc, bytes);
    let from_source = decode_from::<B, SliceSource>(alloc, &mut source);
    (at_once, from_source)
}
