//! How far long work has come, told on standard error to someone who looks there and not at the output.

use std::io::IsTerminal;
use std::time::{Duration, Instant};

// What is told is counted in so many bytes, and nothing is told of fewer.
const MEGABYTE: u64 = 1_000_000;

/// How much was written, and how much of that was told. Once a second it is told how many megabytes were.
#[derive(Drop)]
pub(crate) struct Progress<'a> {
    rt: &'a HostRuntime,
    // When it was told last, or begun; none where nobody looks, or there is no clock.
    last: Option<Instant>,
    bytes: u64,
    is_told: bool,
}

impl<'a> Progress<'a> {
    /// Nothing was written. It is told where standard error is a terminal and standard output is none.
    pub(crate) fn new(rt: &'a HostRuntime) -> Self {
        let is_watched = rt.stderr().is_terminal() && !rt.stdout().is_terminal();
        Progress {
            rt,
            last: if is_watched {
                Instant::now(rt).ok()
            } else {
                None
            },
            bytes: 0,
            is_told: false,
        }
    }

    /// So many bytes more were written.
    pub(crate) fn add(&mut self, bytes: usize) {
        self.bytes = self.bytes.saturating_add(bytes as u64);
        let Some(last) = self.last else {
            return;
        };
        if self.bytes < MEGABYTE || !is_over_a_second(self.rt, last) {
            return;
        }
        self.last = Instant::now(self.rt).ok();
        self.is_told = true;
        let _ = eprint!(self.rt; "\r{} MB written", self.bytes / MEGABYTE);
    }

    /// No more is written: the row on which that was told ends.
    pub(crate) fn end(&self) {
        if self.is_told {
            let _ = eprintln!(self.rt; "\r{} MB written", self.bytes / MEGABYTE);
        }
    }
}

// Whether more than a second has gone by since then.
fn is_over_a_second(rt: &HostRuntime, since: Instant) -> bool {
    match Instant::now(rt) {
        Ok(now) => now.saturating_duration_since(since) > Duration::from_secs(1),
        Err(_) => false,
    }
}
