//! The standard streams, with something in the place of each that was closed.

use std::fs::{File, OpenOptions};
use std::io;
use std::os::fd::AsFd;
use ws_script::{OpenStreams, RunFault};

// What stands in place of a stream that was closed.
const NULL_DEVICE: &str = "/dev/null";

// The error of a call on a descriptor that isn't open (EBADF of Linux).
const NOT_OPEN: i32 = 9;

/// The standard streams as the program found them. While it stands, none of their descriptors is free: what is opened
/// gets another, so that no socket and no file is taken for a stream.
#[derive(Drop)]
pub(crate) struct StandardStreams {
    /// Those that were open.
    pub(crate) open: OpenStreams,
    // What stands in place of those that were closed.
    _input: Option<File>,
    _output: Option<File>,
    _error: Option<File>,
}

impl StandardStreams {
    /// Looks at them, and fills those that are closed, before anything else is opened. What stands for standard input
    /// can't be read, and what stands for the others can't be written, as nothing could before.
    ///
    /// # Errors
    ///
    /// `Read` where one is closed and can't be filled.
    pub(crate) fn new(rt: &HostRuntime) -> Result<Self, RunFault> {
        let input = is_open(rt.stdin());
        let output = is_open(rt.stdout());
        let error = is_open(rt.stderr());
        // A file gets the lowest descriptor that is free, so they are filled from the first on.
        Ok(StandardStreams {
            open: OpenStreams { input, output },
            _input: fill(rt, input, File::options().write(true))?,
            _output: fill(rt, output, File::options().read(true))?,
            _error: fill(rt, error, File::options().read(true))?,
        })
    }
}

// Whether a stream's descriptor is open: only then there can be another of the same file.
fn is_open<S: AsFd + Drop>(stream: S) -> bool {
    match stream.as_fd().try_clone_to_owned() {
        Ok(_) => true,
        Err(error) => error.raw_os_error() != Some(NOT_OPEN),
    }
}

// Opens the null device in place of a stream that isn't open.
fn fill(rt: &HostRuntime, is_open: bool, how: &OpenOptions) -> Result<Option<File>, RunFault> {
    if is_open {
        return Ok(None);
    }
    match how.open(rt, NULL_DEVICE) {
        Ok(file) => Ok(Some(file)),
        Err(_) => Err(RunFault::Read),
    }
}
