//! Ends that are attached to a source and a sink, and a line that breaks: a write fails, or a byte is refused. Each later
//! call answers that the end has failed. What such ends do else is seen in live sessions.

use crate::end_rows::{OPENED, OPENING, new_station};
use crate::same;
use std::alloc::Global;
use std::process::Abort;
use ws_code::{FailingSink, Fault, List, Reason, Sink, SliceSource, VecSink};
use ws_keys::Key;
use ws_record::Opcode;
use ws_session::{
    Acted, Applied, Attached, HostEnd, HostEvent, HostRequest, KeyFault, SendFault, Station,
};

type StationOnSlice<'a, K> = Attached<Station, SliceSource<'a>, K>;

type HostOnSlice<'a> = Attached<HostEnd, SliceSource<'a>, VecSink>;

fn station_hears<K: Sink>(
    rt: &impl Abort,
    line: &mut StationOnSlice<'_, K>,
    wanted: Result<Option<Applied>, Fault>,
) {
    same(rt, line.hear(), wanted);
}

fn presses<K: Sink>(
    rt: &impl Abort,
    line: &mut StationOnSlice<'_, K>,
    key: Key,
    wanted: Result<Acted<KeyFault>, Fault>,
) {
    same(rt, line.press(key), wanted);
}

fn host_hears(rt: &impl Abort, line: &mut HostOnSlice, wanted: Result<Option<HostEvent>, Fault>) {
    same(rt, line.hear(), wanted);
}

fn does(
    rt: &impl Abort,
    line: &mut HostOnSlice,
    order: &HostRequest,
    wanted: Result<Acted<SendFault>, Fault>,
) {
    same(rt, line.act(order), wanted);
}

// A station whose sink takes so many bytes, and then fails.
fn breaks_behind(rt: &impl Abort, alloc: Global, calls: usize) {
    let sink = FailingSink::new(alloc, calls as u64);
    let mut line = Attached::new(new_station(), SliceSource::new(OPENING), sink);
    station_hears(rt, &mut line, Err(Fault::Write));
    same(rt, Some(line.sink().as_slice()), OPENED.get(..calls));
    station_hears(rt, &mut line, Err(Fault::Failed));
    presses(rt, &mut line, Key::Char('B'), Err(Fault::Failed));
    same(rt, line.write(b"\xff\xf1"), Err(Fault::Failed));
}

// One that takes so many of the bytes beside what a station writes.
fn breaks_beside(rt: &impl Abort, alloc: Global, calls: usize) {
    let beside = b"\xff\xf1";
    let sink = FailingSink::new(alloc, calls as u64);
    let mut line = Attached::new(new_station(), SliceSource::new(OPENING), sink);
    same(rt, line.write(beside), Err(Fault::Write));
    same(rt, Some(line.sink().as_slice()), beside.get(..calls));
    station_hears(rt, &mut line, Err(Fault::Failed));
}

// A host end that refuses a byte.
fn breaks_at_a_refusal(rt: &impl Abort, alloc: Global) {
    let source = SliceSource::new(b"\xff\x00\xff");
    let mut line = Attached::new(HostEnd::new(alloc), source, VecSink::new(alloc));
    let (place, reason) = (1, Reason::BadCommand);
    host_hears(rt, &mut line, Err(Fault::Refused { place, reason }));
    same(rt, line.end().refused(), Some((place, reason)));
    host_hears(rt, &mut line, Err(Fault::Failed));
    does(rt, &mut line, &HostRequest::Cancel, Err(Fault::Failed));
    let empty = HostRequest::Send(Opcode::PutGet, List::of(Vec::new(alloc)));
    does(rt, &mut line, &empty, Err(Fault::Failed));
}

#[test]
fn lines_that_break(rt: HostRuntime) {
    for calls in 0..OPENED.len() {
        breaks_behind(&rt, rt.alloc(), calls);
    }
    for calls in 0..2 {
        breaks_beside(&rt, rt.alloc(), calls);
    }
    breaks_at_a_refusal(&rt, rt.alloc());
}
