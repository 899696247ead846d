//! The tests of sessions and of scripts: `ws_session` and `ws_script`; and of live stations, `ws_lasting` and `ws_entry`.
//! They call what these crates hand out, and nothing else.
#![tactic(auto)]

// What the rows of ws_session share, the callers that docs/CALLING.md shows, and a display of their own.
#[cfg(test)]
mod calling;
#[cfg(test)]
mod end_rows;
#[cfg(test)]
mod second_display;

// Rows of ws_session.
#[cfg(test)]
mod attached_rows;
#[cfg(test)]
mod calling_rows;
#[cfg(test)]
mod carried_rows;
#[cfg(test)]
mod carry_rows;
#[cfg(test)]
mod display_rows;
#[cfg(test)]
mod fault_rows;
#[cfg(test)]
mod host_rows;
#[cfg(test)]
mod run_rows;
#[cfg(test)]
mod session_rows;
#[cfg(test)]
mod size_rows;
#[cfg(test)]
mod station_rows;

// Rows of ws_lasting and ws_entry.
#[cfg(test)]
mod live_station_rows;

// Rows of ws_script.
#[cfg(test)]
mod script_rows;

// Expects two values to be the same, and shows both where they aren't. One call of it is proved sooner than an
// `assert_eq!`.
#[cfg(test)]
fn same<T: PartialEq + std::fmt::Debug + Drop>(rt: &impl std::process::Abort, found: T, wanted: T) {
    assert_eq!(rt; found, wanted);
}

// The same, and tells the row.
#[cfg(test)]
fn same_at<N: std::fmt::Debug + Drop, T: PartialEq + std::fmt::Debug + Drop>(
    rt: &impl std::process::Abort,
    row: N,
    found: T,
    wanted: T,
) {
    assert_eq!(rt; found, wanted, "{row:?}");
}

// Expects that something holds.
#[cfg(test)]
fn holds(rt: &impl std::process::Abort, fact: bool) {
    assert!(rt; fact);
}

// Expects that what is told has this text.
#[cfg(test)]
fn says<T: std::fmt::Display + Drop>(
    rt: &impl std::process::Abort,
    alloc: std::alloc::Global,
    told: T,
    text: &str,
) {
    let found = told.to_string(alloc).expect(rt, "memory");
    same(rt, found.as_str(), text);
}
