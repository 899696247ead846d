//! A display that an operator drives by lines.
ghost use Rattle.std.specs.Prelude.{◌≡◌, true, false};
ghost use Rattle.ws_printing.specs.ErrorRow.{error_line, operated_extended};
ghost use Rattle.ws_printing.specs.Operating.{OperatedOn, operated_profile};
ghost use Rattle.ws_text.specs.Printing.{Prints};

use ws_code::Sink;
use ws_extended_station::ExtendedDisplay;
use ws_session::{ProfileDisplay, StationDisplay};
use ws_text::{Number, Output, Text, texts};

/// A display that an operator drives by lines.
pub trait OperatedDisplay: StationDisplay {
    // When it is the operator's turn, and what is printed behind the lines of its screen.
    ghost operated: { OperatedOn Self };

    /// Whether it is the operator's turn.
    fn is_turn(&self) -> bool
        ensures turn { result ≡ true → operated.IsTurn self.now }
        ensures other { result ≡ false → operated.IsTurn self.now → ⊥ };

    /// Writes what is printed behind the lines of its screen.
    fn put_behind<S: Sink>(&self, sink: &mut S, output: Output) -> Output
        ensures { Prints S.writer sink.old sink.new output result
            (operated.behind self.now) };
}

// The keyboard is unlocked, and nothing is printed behind the screen.
impl OperatedDisplay for ProfileDisplay {
    ghost operated = { operated_profile };

    fn is_turn(&self) -> bool {
        !self.screen().locked()
    }

    fn put_behind<S: Sink>(&self, _sink: &mut S, output: Output) -> Output {
        output
    }
}

/// Writes the line of the row on which an error stands, where one does (SC30-3533, Write Error Code command).
pub fn put_error_row<S: Sink>(sink: &mut S, output: Output, row: Option<u8>) -> Output
    ensures { Prints S.writer sink.old sink.new output result (error_line row) }
{
    match row {
        Some(row) => texts!("error row ", Number(row as u64), "\n").put_to(sink, output),
        None => output,
    }
}

// The keyboard is unlocked, or an error stands, whose row is printed behind the screen.
impl OperatedDisplay for ExtendedDisplay {
    ghost operated = { operated_extended };

    fn is_turn(&self) -> bool {
        self.error_row().is_some() || !self.screen().locked()
    }

    fn put_behind<S: Sink>(&self, sink: &mut S, output: Output) -> Output {
        put_error_row(sink, output, self.error_row())
    }
}
