//! Items as the bytes that spell them, where all of them can be encoded.

// Not named encode: a module and a function brought in beside it may not share a name.
ghost use Rattle.std.specs.Prelude.{◌≡◌, IsTrue, ◌↔◌, OnOk, IfOk, IfErr};
ghost use Rattle.std.specs.List.{AllByRecursion};
ghost use Rattle.ws_code.specs.Code.{IsWhole};
ghost use Rattle.ws_code.specs.Device.{WentOut};
ghost use Rattle.ws_telnet.specs.Token.{IsTelnet};
ghost use Rattle.ws_record.specs.Grammar.{IsInGrammar};
ghost use Rattle.ws_record.specs.Encode.{CanAllBeEncoded, IsInRange, plain_spelling};
ghost use Rattle.ws_record.specs.Encode.{IsListFault, IsEncodeFault, IsWriteFault};

use crate::Item;
use crate::item_writer::{body_length, write_items};
use std::alloc::Global;
use std::error::Error;
use std::fmt;
use ws_code::{Body, Sink, VecSink};
use ws_telnet::Telnet;

/// Why items aren't encoded. An index counts items from 0, and is the least of those that offend.
#[derive(Clone, Copy, Debug, PartialEq, Eq)]
pub enum EncodeFault {
    /// The record there is of more than 65,535 bytes.
    TooBig { index: usize },
    /// The record's units there are no body. It comes before `TooBig`.
    BadSequence { index: usize },
    /// A growth was refused.
    Memory,
    /// The sink failed.
    Write,
}

impl fmt::Display for EncodeFault {
    fn fmt<W: fmt::Write>(&self, f: &mut fmt::Formatter<W>) -> fmt::Result {
        match self {
            EncodeFault::TooBig { index } => write!(
                f,
                "item {index} is a record of more than 65,535 bytes"
            ),
            EncodeFault::BadSequence { index } => write!(
                f,
                "item {index} is a record whose units are no body"
            ),
            EncodeFault::Memory => f.write_str("memory"),
            EncodeFault::Write => f.write_str("cannot write"),
        }
    }
}

impl Error for EncodeFault {}

/// The plain spelling of the items: each record with its IAC EOR, no command inside it, and each
/// command (RFC 1205, section 3; RFC 854; RFC 885).
///
/// # Errors
///
/// `BadSequence` and `TooBig` name the first item that can't be encoded, before any memory is asked
/// for; `Memory` comes only where a growth was refused.
pub fn encode<B: Body>(alloc: Global, items: &[Item<B::Unit>]) -> Result<Vec<u8>, EncodeFault>
    ensures encoded { OnOk result (CanAllBeEncoded B.rules items.now) }
    ensures spelled { IfOk result (λ bytes. bytes.items ≡ plain_spelling B.rules items.now) }
    ensures accepted { IfOk result (λ bytes. IsInGrammar B.rules bytes.items items.now) }
    ensures fault { IfErr result (IsEncodeFault B.rules items.now) }
{
    check_items::<B>(items)?;
    // By the code of encode_to: the one failure of a VecSink is a refused growth.
    let mut sink = VecSink::new(alloc);
    match write_items::<B, VecSink>(&mut sink, items) {
        Ok(()) => Ok(sink.into_inner()),
        Err(_) => Err(EncodeFault::Memory),
    }
}

/// Writes the plain spelling of the items, as `encode` gives it.
///
/// # Errors
///
/// `BadSequence` and `TooBig` name the first item that can't be encoded, before any byte is written.
/// With `Write` a write failed, or took no byte, and only bytes before it went out. `Memory` never
/// comes.
pub fn encode_to<B: Body, S: Sink>(items: &[Item<B::Unit>], sink: &mut S) -> Result<(), EncodeFault>
    ensures encoded { OnOk result (CanAllBeEncoded B.rules items.now) }
    ensures written { OnOk result (WentOut S.writer sink.old sink.new
        (plain_spelling B.rules items.now)) }
    ensures fault { IfErr result
        (IsWriteFault B.rules items.now S.writer sink.old sink.new) }
{
    check_items::<B>(items)?;
    match write_items::<B, S>(sink, items) {
        Ok(()) => Ok(()),
        Err(_) => Err(EncodeFault::Write),
    }
}

// The list's own fault, if it has one.
fn check_items<B: Body>(items: &[Item<B::Unit>]) -> Result<(), EncodeFault>
    ensures encoded { OnOk result (CanAllBeEncoded B.rules items.now) }
    ensures known { OnOk result (AllByRecursion IsInRange items.now) }
    ensures fault { IfErr result (IsListFault B.rules items.now) }
{
    for (index, item) in items.iter().enumerate() {
        match item {
            Item::Record(record) => {
                let _flags = record.flags;
                let units = record.body.as_slice();
                if !is_body::<B>(units) {
                    return Err(EncodeFault::BadSequence { index });
                }
                if body_length::<B>(units).is_none() {
                    return Err(EncodeFault::TooBig { index });
                }
            }
            Item::Telnet(telnet) => known_telnet(telnet),
        }
    }
    Ok(())
}

// Whether the units may stand one after another, and end.
fn is_body<B: Body>(units: &[B::Unit]) -> bool
    ensures { IsTrue result ↔ IsWhole B.rules units.now }
{
    let mut place = B::first();
    for unit in units {
        if !B::may_follow(place, unit) {
            return false;
        }
        B::known(unit);
        place = B::after(unit);
    }
    B::may_end(place)
}

// Has no effect, and tells that the numbers and lists in a command are those of its type.
fn known_telnet(telnet: &Telnet)
    ensures { IsTelnet telnet.now }
{
    match telnet {
        Telnet::Command(_code) => {}
        Telnet::Option(_verb, _option) => {
            let _read = *_option;
        }
        Telnet::Sub(_sub) => {
            let _read = _sub.option;
            let _bytes = _sub.data_.as_slice();
        }
    }
}
