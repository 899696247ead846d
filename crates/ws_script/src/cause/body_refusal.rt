//! Where bytes in hex can be no body, and why.
ghost use Rattle.std.specs.Prelude.{IfOk, IfSome};
ghost use Rattle.ws_script.specs.cause.BodyRefusals.{IsHexRefused, IsRefusedAt};

use hex::FromHexError;
use std::alloc::{AllocError, Global};
use ws_code::{Body, End, Nothing, Reason, Standing};
use ws_stream::Commands;

/// How many of the bytes in hex begin a body of the profile (SC30-3533, commands and orders), and why it can't go on
/// with the next one, or end where there is none. `None` where they are one, or it isn't hex.
///
/// # Errors
///
/// `AllocError` where a growth was refused.
pub(crate) fn body_refusal(alloc: Global, hex: &str) -> Result<Option<(usize, Reason)>, AllocError>
    ensures { IfOk result (λ refusal. IfSome refusal (λ r. IsHexRefused hex.now r.0 r.1)) }
{
    match hex::decode(alloc, hex) {
        Ok(bytes) => Ok(refusal_of::<Commands>(bytes.as_slice())),
        Err(FromHexError::OutOfMemory) => Err(AllocError),
        Err(_) => Ok(None),
    }
}

// The same of bytes.
fn refusal_of<B: Body>(bytes: &[u8]) -> Option<(usize, Reason)>
    ensures { IfSome result (λ r. IsRefusedAt B.rules bytes.now r.0 r.1) }
{
    let place = B::first();
    let mut machine = B::start(place);
    let mut at = Standing {
        place,
        is_inside: false,
    };
    let run = machine.run(&mut at, bytes, &mut Nothing);
    match run.end {
        End::Bad(reason) => Some((run.used.saturating_sub(1), reason)),
        End::More => {
            if at.is_inside || !B::may_end(at.place) {
                return Some((bytes.len(), Reason::EndedInside));
            }
            None
        }
        End::Enough | End::NoMemory => None,
    }
}
