//! Devices in memory: a slice that is read, and a vector that is written.
ghost use Rattle.std.specs.Prelude.{◌≡◌, ◌≤◌, ◌<◌, ◌++◌, [], List, ℕ, length};
ghost use Rattle.ws_code.specs.Device.{Held, list_reader, held_writer, most_reads, Gave, GaveAll, ReadFault};

use crate::{DeviceFailed, Sink, Source};
use std::alloc::Global;
use std::marker::Model;

/// Gives the bytes of a slice. It never fails.
#[derive(Drop)]
pub struct SliceSource<'a> {
    rest: &'a [u8],
}

impl<'a> Model for SliceSource<'a> {
    ghost Value = { List ℕ };

    ghost view = { λ s. s.rest.now };
}

impl<'a> SliceSource<'a> {
    /// A source of these bytes.
    pub fn new(bytes: &'a [u8]) -> Self
        ensures { result ≡ bytes.now }
    {
        SliceSource { rest: bytes }
    }

    /// What it has still to give.
    pub fn rest(&self) -> &[u8]
        ensures { result.now ≡ self.now }
    {
        self.rest
    }
}

impl Source for SliceSource<'_> {
    ghost reader = { list_reader };

    fn read(&mut self, into: &mut [u8]) -> Result<usize, DeviceFailed> {
        let taken = self.rest.len().min(into.len());
        into[..taken].copy_from_slice(&self.rest[..taken]);
        self.rest = &self.rest[taken..];
        Ok(taken)
    }
}

/// What a `SliceSource` gives is its slice: some reads give its front, and reads up to the end the whole of
/// it. A reader meets no fault in a slice of fewer than 4,294,967,296 bytes.
pub fn slices_are_given_whole()
    ensures front { (from to : List ℕ) (reads : ℕ) (bytes : List ℕ)
        → Gave list_reader from to reads bytes → (from ≡ bytes ++ to)
        × (reads ≤ length bytes) }
    ensures whole { (from to bytes : List ℕ)
        → GaveAll list_reader from to bytes → (bytes ≡ from) × (to ≡ []) }
    ensures no_fault { (from to bytes : List ℕ) → length from < most_reads
        → ReadFault list_reader from to bytes → ⊥ }
{}

/// Keeps what is written in a `Vec` that grows. A growth that is refused is a failure, and the bytes stay.
#[derive(Drop)]
pub struct VecSink {
    bytes: Vec<u8>,
    failures: u64,
}

impl Model for VecSink {
    ghost use Rattle.ws_code.specs.Device.{Held};

    ghost Value = { Held };

    ghost view = { λ s. record { bytes = s.bytes.items; failures = s.failures } };
}

impl VecSink {
    /// A sink that holds no bytes and has not failed. It grows in `alloc`.
    pub fn new(alloc: Global) -> Self
        ensures bytes { result.bytes ≡ [] }
        ensures failures { result.failures ≡ 0 }
    {
        VecSink {
            bytes: Vec::new(alloc),
            failures: 0,
        }
    }

    /// What was written.
    pub fn as_slice(&self) -> &[u8]
        ensures { result.now ≡ self.now.bytes }
    {
        self.bytes.as_slice()
    }

    /// How often a growth was refused.
    pub fn failures(&self) -> u64
        ensures { result ≡ self.now.failures }
    {
        self.failures
    }

    /// What was written, to be kept.
    pub fn into_inner(self) -> Vec<u8>
        ensures { result.items ≡ self.bytes }
    {
        self.bytes
    }
}

impl Sink for VecSink {
    ghost writer = { held_writer };

    fn write(&mut self, bytes: &[u8]) -> Result<usize, DeviceFailed> {
        match self.bytes.extend_from_slice(bytes) {
            Ok(()) => Ok(bytes.len()),
            Err(_) => {
                self.failures = self.failures.saturating_add(1);
                Err(DeviceFailed)
            }
        }
    }
}
