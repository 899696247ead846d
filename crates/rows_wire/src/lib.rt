//! The tests of what crosses the wire, below records: `ws_code`, `ws_telnet`, `ws_nego`, `ws_identity` and
//! `ws_stream`. They call what these crates hand out, and nothing else.
#![tactic(auto)]

// Rows of ws_code.
#[cfg(test)]
mod code_rows;
#[cfg(test)]
mod device_rows;

// Rows of ws_telnet.
#[cfg(test)]
mod token_rows;

// Rows of ws_nego.
#[cfg(test)]
mod negotiation_rows;

// Rows of ws_identity.
#[cfg(test)]
mod identity_rows;

// Rows of ws_stream.
#[cfg(test)]
mod answer_part_rows;
#[cfg(test)]
mod element_rows;

// Expects two values to be the same, and shows both where they aren't. One call of it is proved sooner than an
// `assert_eq!`.
#[cfg(test)]
fn same<T: PartialEq + std::fmt::Debug + Drop>(rt: &impl std::process::Abort, found: T, wanted: T) {
    assert_eq!(rt; found, wanted);
}

// The same, and tells the row.
#[cfg(test)]
fn same_at<N: std::fmt::Debug + Drop, T: PartialEq + std::fmt::Debug + Drop>(
    rt: &impl std::process::Abort,
    row: N,
    found: T,
    wanted: T,
) {
    assert_eq!(rt; found, wanted, "{row:?}");
}

// Expects the same bytes.
#[cfg(test)]
fn same_bytes(rt: &impl std::process::Abort, found: &[u8], wanted: &[u8]) {
    same(rt, found, wanted);
}

// Expects that something holds.
#[cfg(test)]
fn holds(rt: &impl std::process::Abort, fact: bool) {
    assert!(rt; fact);
}
