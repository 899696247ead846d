//! An end whose caller can have it write.
ghost use Rattle.ws_end.specs.attached.Requests.{HasDoneRequest, judged};
ghost use Rattle.ws_end.specs.declared.host_end.send_fault.SendFault.{SendFault as ASendFault};

use crate::end::End;
use crate::{SendFault, Sent};

/// An end at which a request writes bytes, or is refused.
pub trait Acting: End {
    // It refuses the request, for this reason.
    ghost refrains: { Self → Self.Request → ASendFault → Type 0 };

    // It has no reason to refuse the request.
    ghost acts: { Self → Self.Request → Type 0 };

    // It would do it, and memory may be wanting for that.
    ghost wants: { Self → Self.Request → Type 0 };

    /// Does this, and gives the bytes that the end writes.
    ///
    /// # Errors
    ///
    /// Why it refuses; the end is then as it was. `Memory` where a growth was refused for what it would have written.
    fn act(&mut self, request: &Self::Request) -> Result<Sent, SendFault>
        ensures { HasDoneRequest (judged Self.behaviour refrains acts wants request.now)
            self.old self.new result };
}
