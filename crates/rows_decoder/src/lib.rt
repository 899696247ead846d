//! The tests of the decoder: `ws_record`, and `ws_text` over the bodies of `ws_stream`. They call what these crates hand
//! out, and nothing else.
#![tactic(auto)]

// A body for rows of both ways.
#[cfg(test)]
mod escaped;

// Rows of ws_record.
#[cfg(test)]
mod body_rows;
#[cfg(test)]
mod decoder_rows;
#[cfg(test)]
mod encoder_rows;
#[cfg(test)]
mod feed_rows;
#[cfg(test)]
mod size_rows;

// Streams for the rows below.
#[cfg(test)]
mod vectors;

// Rows of ws_text, and of ws_record over the bodies of ws_stream.
#[cfg(test)]
mod command_rows;
#[cfg(test)]
mod encoding_rows;
#[cfg(test)]
mod hostile_rows;

// Expects two values to be the same, and shows both where they aren't. One call of it is proved sooner than an
// `assert_eq!`.
#[cfg(test)]
fn same<T: PartialEq + std::fmt::Debug + Drop>(rt: &impl std::process::Abort, found: T, wanted: T) {
    assert_eq!(rt; found, wanted);
}

// The same, and tells the row.
#[cfg(test)]
fn same_at<N: std::fmt::Debug + Drop, T: PartialEq + std::fmt::Debug + Drop>(
    rt: &impl std::process::Abort,
    row: N,
    found: T,
    wanted: T,
) {
    assert_eq!(rt; found, wanted, "{row:?}");
}

// Expects the same bytes.
#[cfg(test)]
fn same_bytes(rt: &impl std::process::Abort, found: &[u8], wanted: &[u8]) {
    same(rt, found, wanted);
}

// Expects that something holds.
#[cfg(test)]
fn holds(rt: &impl std::process::Abort, fact: bool) {
    assert!(rt; fact);
}

// Expects that what is told has this text.
#[cfg(test)]
fn says<T: std::fmt::Display + Drop>(
    rt: &impl std::process::Abort,
    alloc: std::alloc::Global,
    told: T,
    text: &str,
) {
    let found = told.to_string(alloc).expect(rt, "memory");
    same(rt, found.as_str(), text);
}
