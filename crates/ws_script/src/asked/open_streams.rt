//! Which standard streams are open, and whether those that a run needs are.
ghost use Rattle.std.specs.Prelude.{◌≡◌, None, Some, OnOk, IfErr};
ghost use Rattle.ws_script.specs.asked.OpenStreams.{missing};

use crate::asked::fault::RunFault;

/// Which of the standard streams were open when the program began. One that was closed can't be read or written,
/// whatever stands in its place since.
#[derive(Clone, Copy, Debug, PartialEq, Eq)]
pub struct OpenStreams {
    pub input: bool,
    pub output: bool,
}

impl OpenStreams {
    /// Whether a command has what it needs: standard output, and where it reads standard input, that too.
    ///
    /// # Errors
    ///
    /// `Read` where standard input is to be read and is closed, else `Write` where standard output is closed.
    pub fn suffice(self, reads_input: bool) -> Result<(), RunFault>
        ensures ok { OnOk result (missing self reads_input ≡ None) }
        ensures err { IfErr result (λ fault. missing self reads_input ≡ Some fault) }
    {
        if reads_input && !self.input {
            return Err(RunFault::Read);
        }
        if !self.output {
            return Err(RunFault::Write);
        }
        Ok(())
    }
}
