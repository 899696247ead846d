//! A record's body by itself, as a test or a caller in another language has it.

ghost use Rattle.std.specs.Prelude.{◌≡◌, IfOk, IfErr, Err};
ghost use Rattle.ws_record.specs.Body.{IsBody, IsBodyFault, HasUnitSoFar};
ghost use Rattle.ws_record.specs.declared.body_reader.BodyFault.{BodyFault as ABodyFault};

use std::alloc::Global;
use std::error::Error;
use std::fmt;
use ws_code::{Body, End, Standing};

/// Why bytes give no body.
#[derive(Clone, Copy, Debug, PartialEq, Eq)]
pub enum BodyFault {
    /// They spell none.
    Bad,
    /// A growth was refused.
    Memory,
}

impl fmt::Display for BodyFault {
    fn fmt<W: fmt::Write>(&self, f: &mut fmt::Formatter<W>) -> fmt::Result {
        f.write_str(match self {
            BodyFault::Bad => "no body",
            BodyFault::Memory => "memory",
        })
    }
}

impl Error for BodyFault {}

/// The units whose spelling the bytes are, and which may be a record's body (SC30-3533).
///
/// # Errors
///
/// `Bad` comes where the bytes spell no body; `Memory` where a growth was refused for a unit, up to which
/// nothing is wrong with the bytes.
pub fn read_body<B: Body>(alloc: Global, bytes: &[u8]) -> Result<Vec<B::Unit>, BodyFault>
    ensures ok { IfOk result (λ body. IsBody B.rules bytes.now body.items) }
    ensures fault { IfErr result (IsBodyFault (IsBody B.rules bytes.now)) }
    ensures memory { result ≡ Err ABodyFault.Memory → HasUnitSoFar B.rules bytes.now }
{
    let mut body = Vec::new(alloc);
    let place = B::first();
    let mut machine = B::start(place);
    let mut at = Standing {
        place,
        is_inside: false,
    };
    let run = machine.run(&mut at, bytes, &mut body);
    match run.end {
        End::More => {
            if at.is_inside || !B::may_end(at.place) {
                return Err(BodyFault::Bad);
            }
            Ok(body)
        }
        End::NoMemory => Err(BodyFault::Memory),
        End::Enough => Err(BodyFault::Bad),
        End::Bad(_) => Err(BodyFault::Bad),
    }
}
