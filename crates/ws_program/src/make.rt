//! A stream made of the items that a text spells.
ghost use Rattle.std.specs.Prelude.{◌≡◌, IfOk, IfErr};
ghost use Rattle.ws_record.specs.Encode.{CanAllBeEncoded, plain_spelling};
ghost use Rattle.ws_program.specs.Actions.{IsCarriedOut};
ghost use Rattle.ws_program.specs.Answering.{sender_parts};
ghost use Rattle.ws_program.specs.Making.{made_text, made_stream, make_action};

use std::alloc::Global;
use std::slice;
use ws_code::{Body, Fault, Sink};
use ws_extended::{ExtendedAnswers, ExtendedCommands};
use ws_record::{Item, encode};
use ws_script::{RunFault, Sender};
use ws_stream::{Answers, Commands};
use ws_text::{Bytes, Worded, print, read_items};

/// Writes the stream of a sender whose items a text spells, and tells true: with `raw` the bytes of their plain
/// spelling, else hex text, for each item a line in upper case hex (RFC 1205, section 3; RFC 854; RFC 885).
///
/// # Errors
///
/// `Line` where a line of the text is bad, `Memory` where a growth was refused, and then nothing was written. `Write`
/// where the sink failed, and then a proper prefix of the stream went out.
pub(crate) fn make_sent<S: Sink>(
    alloc: Global,
    text: &[u8],
    from: Sender,
    raw: bool,
    sink: &mut S,
) -> Result<bool, RunFault>
    ensures { IsCarriedOut S.writer sink.old sink.new
        (make_action (sender_parts from).rules (sender_parts from).wording raw text.now) result }
{
    match from {
        Sender::Host => make_stream::<Commands, S>(alloc, text, raw, sink),
        Sender::ExtendedHost => make_stream::<ExtendedCommands, S>(alloc, text, raw, sink),
        Sender::Station => make_stream::<Answers, S>(alloc, text, raw, sink),
        Sender::ExtendedStation => make_stream::<ExtendedAnswers, S>(alloc, text, raw, sink),
    }
}

// The same of items in one wording.
fn make_stream<B: Worded, S: Sink>(
    alloc: Global,
    text: &[u8],
    raw: bool,
    sink: &mut S,
) -> Result<bool, RunFault>
    ensures { IsCarriedOut S.writer sink.old sink.new
        (make_action B.rules B.wording raw text.now) result }
{
    let items = read_items::<B>(alloc, text)?;
    let made = stream_of::<B>(alloc, items.as_slice(), raw)?;
    print(&Bytes(made.as_slice()), sink)?;
    Ok(true)
}

// The stream of items.
fn stream_of<B: Body>(alloc: Global, items: &[Item<B::Unit>], raw: bool) -> Result<Vec<u8>, Fault>
    requires { CanAllBeEncoded B.rules items.now }
    ensures ok { IfOk result (λ made. made.items ≡ made_stream B.rules raw items.now) }
    ensures fault { IfErr result (λ fault. fault ≡ Fault.Memory) }
{
    if raw {
        spelling::<B>(alloc, items)
    } else {
        hex_lines::<B>(alloc, items)
    }
}

// The lines of items.
fn hex_lines<B: Body>(alloc: Global, items: &[Item<B::Unit>]) -> Result<Vec<u8>, Fault>
    requires { CanAllBeEncoded B.rules items.now }
    ensures ok { IfOk result (λ text. text.items ≡ made_text B.rules items.now) }
    ensures fault { IfErr result (λ fault. fault ≡ Fault.Memory) }
{
    let mut text = Vec::new(alloc);
    for item in items {
        let bytes = spelling::<B>(alloc, slice::from_ref(item))?;
        let digits = hex::encode_upper(alloc, bytes).map_err(|_| Fault::Memory)?;
        text.extend_from_slice(digits.as_bytes())
            .map_err(|_| Fault::Memory)?;
        text.push(b'\n').map_err(|_| Fault::Memory)?;
    }
    Ok(text)
}

// The bytes of items.
fn spelling<B: Body>(alloc: Global, items: &[Item<B::Unit>]) -> Result<Vec<u8>, Fault>
    requires { CanAllBeEncoded B.rules items.now }
    ensures ok { IfOk result (λ bytes. bytes.items ≡ plain_spelling B.rules items.now) }
    ensures fault { IfErr result (λ fault. fault ≡ Fault.Memory) }
{
    // Of such items no other fault comes.
    encode::<B>(alloc, items).map_err(|_| Fault::Memory)
}
