//! The bytes of a stream that an input tells, in each of its forms.
ghost use Rattle.std.specs.Prelude.{◌≡◌, IfOk, IfErr};
ghost use Rattle.ws_program.specs.StreamBytes.{AreBytesOf, IsFormFault, held_bytes as the_bytes};

use crate::hex_text::hex_bytes;
use crate::recorded::recorded_bytes;
use crate::words::StreamForm;
use std::alloc::Global;
use ws_script::RunFault;

/// The bytes of a stream: an input's own, which aren't copied, or read from its text.
#[derive(Drop)]
pub enum StreamBytes<'a> {
    Given(&'a [u8]),
    Read(Vec<u8>),
}

impl StreamBytes<'_> {
    /// The bytes.
    pub fn as_slice(&self) -> &[u8]
        ensures { result.now ≡ the_bytes self.now }
    {
        match self {
            StreamBytes::Given(bytes) => bytes,
            StreamBytes::Read(bytes) => bytes.as_slice(),
        }
    }
}

/// The bytes that an input tells in a form.
///
/// # Errors
///
/// `NotHex` where it had to be hex text and isn't, `Line` where a line is none of a recording. `Memory` where a growth
/// was refused, and then it has its form.
pub(crate) fn bytes_of(
    alloc: Global,
    form: StreamForm,
    input: &[u8],
) -> Result<StreamBytes<'_>, RunFault>
    ensures ok { IfOk result (λ bytes. AreBytesOf form (the_bytes bytes) input.now) }
    ensures fault { IfErr result (IsFormFault form input.now) }
{
    match form {
        StreamForm::Hex => Ok(StreamBytes::Read(hex_bytes(alloc, input)?)),
        StreamForm::Recorded(end) => Ok(StreamBytes::Read(recorded_bytes(alloc, input, end)?)),
        StreamForm::Raw => Ok(StreamBytes::Given(input)),
    }
}
