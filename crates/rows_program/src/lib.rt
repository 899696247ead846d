//! The tests of what the program `t5250` does: `ws_program`, and of each call of the libraries below that takes memory.
//! They call what these crates hand out, and nothing else.
#![tactic(auto)]

#[cfg(test)]
mod growth_rows;
#[cfg(test)]
mod memory_rows;
#[cfg(test)]
mod play_rows;
#[cfg(test)]
mod program_rows;
#[cfg(test)]
mod show_rows;
#[cfg(test)]
mod size_rows;
#[cfg(test)]
mod tcp_rows;

// Expects two values to be the same, and shows both where they aren't. One call of it is proved sooner than an
// `assert_eq!`.
#[cfg(test)]
fn same<T: PartialEq + std::fmt::Debug + Drop>(rt: &impl std::process::Abort, found: T, wanted: T) {
    assert_eq!(rt; found, wanted);
}

// The same, and tells the row.
#[cfg(test)]
fn same_at<N: std::fmt::Debug + Drop, T: PartialEq + std::fmt::Debug + Drop>(
    rt: &impl std::process::Abort,
    row: N,
    found: T,
    wanted: T,
) {
    assert_eq!(rt; found, wanted, "{row:?}");
}

// Expects the same bytes.
#[cfg(test)]
fn same_bytes(rt: &impl std::process::Abort, found: &[u8], wanted: &[u8]) {
    same(rt, found, wanted);
}

// Expects that something holds.
#[cfg(test)]
fn holds(rt: &impl std::process::Abort, fact: bool) {
    assert!(rt; fact);
}

// Expects that what is told has this text.
#[cfg(test)]
fn says<T: std::fmt::Display + Drop>(
    rt: &impl std::process::Abort,
    alloc: std::alloc::Global,
    told: T,
    text: &str,
) {
    let found = told.to_string(alloc).expect(rt, "memory");
    same(rt, found.as_str(), text);
}
