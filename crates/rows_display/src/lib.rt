//! The tests of a display and its keys: `ws_screen` and `ws_keys`. They call what these crates hand out, and nothing
//! else.
#![tactic(auto)]

// Screens for the rows of both.
#[cfg(test)]
mod screens;

// Rows of ws_screen.
#[cfg(test)]
mod screen_rows;

// Rows of ws_keys.
#[cfg(test)]
mod answer_rows;
#[cfg(test)]
mod key_rows;
#[cfg(test)]
mod split_rows;

// Expects two values to be the same, and shows both where they aren't. One call of it is proved sooner than an
// `assert_eq!`.
#[cfg(test)]
fn same<T: PartialEq + std::fmt::Debug + Drop>(rt: &impl std::process::Abort, found: T, wanted: T) {
    assert_eq!(rt; found, wanted);
}

// The same, and tells the row.
#[cfg(test)]
fn same_at<N: std::fmt::Debug + Drop, T: PartialEq + std::fmt::Debug + Drop>(
    rt: &impl std::process::Abort,
    row: N,
    found: T,
    wanted: T,
) {
    assert_eq!(rt; found, wanted, "{row:?}");
}

// Expects the same bytes.
#[cfg(test)]
fn same_bytes(rt: &impl std::process::Abort, found: &[u8], wanted: &[u8]) {
    same(rt, found, wanted);
}

// Expects that something holds.
#[cfg(test)]
fn holds(rt: &impl std::process::Abort, fact: bool) {
    assert!(rt; fact);
}
