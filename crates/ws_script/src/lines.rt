//! The lines of scripts for live sessions, at a station and at a host.

pub(crate) mod connect_line;
pub(crate) mod live_line;
pub(crate) mod report_words;
pub(crate) mod script_stroke;
pub(crate) mod serve_line;
pub(crate) mod stroke_words;
pub(crate) mod text_line;
pub(crate) mod wire_line;
pub(crate) mod wire_words;
