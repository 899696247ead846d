//! How the items of a body are shown and carried out.
ghost use Rattle.std.specs.Prelude.{◌≡◌, ◌++◌, ◌∷◌, [], List, ℕ, OnErr, OnOk};
ghost use Rattle.ws_extended_station.specs.ExtendedDisplays.{standing_row as a_standing_row};
ghost use Rattle.ws_record.specs.declared.record.Item.{Item as AnItem};
ghost use Rattle.ws_screen.specs.Faults.{refusal};
ghost use Rattle.ws_text.specs.Printing.{Prints};
ghost use Rattle.ws_program.specs.Views.{extended_view, IsExtendedEnd, MakesDisplay};
ghost use Rattle.ws_program.specs.StreamText.{View, IsWholeItem};
ghost use Rattle.ws_program.specs.Views.{host_view, answer_view, told_view, IsNoEnd, IsScreenEnd, MakesScreen};
ghost use Rattle.ws_printing.specs.ScreenLines.{on_037};
ghost use Rattle.ws_printing.specs.declared.look.Look.{Look as ALook};
ghost use Rattle.ws_printing.specs.declared.paint.Paint.TheVariants.{Plain};

use ws_code::{Body, Reason, Sink};
use ws_extended::{
    ExtendedAnswerPart, ExtendedAnswers, ExtendedCommands, ExtendedElement, ExtendedScreen,
};
use ws_printing::{Look, put_error_row, put_screen};
use ws_record::Item;
use ws_screen::Screen;
use ws_session::apply_record;
use ws_stream::{AnswerPart, Answers, Commands, Element};
use ws_text::{Output, put_item, put_text};
use ws_trace::apply_extended_record;

/// A body whose items are shown, and carried out one after another.
pub(crate) trait Shown: Body {
    /// What the items make.
    type Made: Drop;

    // How they are shown.
    ghost view: { View Self.Unit };

    // What stands behind them in a paint and on a page.
    ghost Ends: { ALook → List (AnItem Self.Unit) → List ℕ → Type 0 };

    // The items make it.
    ghost makes: { List (AnItem Self.Unit) → Self.Made → Type 0 };

    /// What there is before the first item.
    fn before_any() -> Self::Made
        ensures { makes [] result };

    /// Carries out an item, or tells why it can't be, and then nothing comes of it.
    fn carry_out(made: &mut Self::Made, item: &Item<Self::Unit>) -> Result<(), Reason>
        requires whole { IsWholeItem Self.rules item.now }
        requires known { (items : List (AnItem Self.Unit)) × makes items made.old }
        ensures fault { (items : List (AnItem Self.Unit)) → makes items made.old
            → refusal result ≡ view.fault items item.now }
        ensures after { OnOk result ((items : List (AnItem Self.Unit)) → makes items made.old
            → makes (items ++ item.now ∷ []) made.new) }
        ensures same { OnErr result (made.new ≡ made.old) };

    /// Writes an item's lines.
    fn put_lines<S: Sink>(
        sink: &mut S,
        output: Output,
        place: u64,
        item: &Item<Self::Unit>,
    ) -> Output
        ensures { Prints S.writer sink.old sink.new output result
            (view.lines place item.now) };

    /// Writes what stands behind all items of a stream that is accepted.
    fn put_end<S: Sink>(sink: &mut S, output: Output, look: Look, made: &Self::Made) -> Output
        ensures { (text : List ℕ)
            × ((items : List (AnItem Self.Unit)) → makes items made.now → Ends look items text)
            × Prints S.writer sink.old sink.new output result text };
}

// A host's records make a screen, which stands behind them.
impl Shown for Commands {
    type Made = Screen;

    ghost view = { host_view };

    ghost Ends = { IsScreenEnd };

    ghost makes = { MakesScreen };

    fn before_any() -> Screen {
        Screen::new()
    }

    fn carry_out(screen: &mut Screen, item: &Item<Element>) -> Result<(), Reason> {
        match item {
            Item::Record(record) => apply_record(screen, record),
            Item::Telnet(_) => Ok(()),
        }
    }

    fn put_lines<S: Sink>(
        sink: &mut S,
        output: Output,
        place: u64,
        item: &Item<Element>,
    ) -> Output {
        put_item::<S, Element>(sink, output, place, item)
    }

    fn put_end<S: Sink>(sink: &mut S, output: Output, look: Look, screen: &Screen) -> Output {
        put_screen(sink, output, look, screen)
    }
}

// A live host's records make a display, which stands behind them.
impl Shown for ExtendedCommands {
    type Made = ExtendedScreen;

    ghost view = { extended_view (on_037 Plain) };

    ghost Ends = { IsExtendedEnd };

    ghost makes = { MakesDisplay };

    fn before_any() -> ExtendedScreen {
        ExtendedScreen::new()
    }

    fn carry_out(display: &mut ExtendedScreen, item: &Item<ExtendedElement>) -> Result<(), Reason> {
        match item {
            Item::Record(record) => apply_extended_record(display, record),
            Item::Telnet(_) => Ok(()),
        }
    }

    fn put_lines<S: Sink>(
        sink: &mut S,
        output: Output,
        place: u64,
        item: &Item<ExtendedElement>,
    ) -> Output {
        put_item::<S, ExtendedElement>(sink, output, place, item)
    }

    fn put_end<S: Sink>(
        sink: &mut S,
        output: Output,
        look: Look,
        display: &ExtendedScreen,
    ) -> Output {
        let output = put_screen(sink, output, look, display.screen());
        put_error_row(sink, output, standing_row(display))
    }
}

// A station's answers make nothing that is shown.
impl Shown for Answers {
    type Made = ();

    ghost view = { answer_view };

    ghost Ends = { λ _. IsNoEnd };

    ghost makes = { λ _ _. Unit {0} };

    fn before_any() {}

    fn carry_out(_made: &mut (), _item: &Item<AnswerPart>) -> Result<(), Reason> {
        Ok(())
    }

    fn put_lines<S: Sink>(
        sink: &mut S,
        output: Output,
        place: u64,
        item: &Item<AnswerPart>,
    ) -> Output {
        put_item::<S, AnswerPart>(sink, output, place, item)
    }

    fn put_end<S: Sink>(sink: &mut S, output: Output, _look: Look, _made: &()) -> Output {
        put_text(sink, output, "")
    }
}

// Nor does what a live host's station sends.
impl Shown for ExtendedAnswers {
    type Made = ();

    ghost view = { told_view };

    ghost Ends = { λ _. IsNoEnd };

    ghost makes = { λ _ _. Unit {0} };

    fn before_any() {}

    fn carry_out(_made: &mut (), _item: &Item<ExtendedAnswerPart>) -> Result<(), Reason> {
        Ok(())
    }

    fn put_lines<S: Sink>(
        sink: &mut S,
        output: Output,
        place: u64,
        item: &Item<ExtendedAnswerPart>,
    ) -> Output {
        put_item::<S, ExtendedAnswerPart>(sink, output, place, item)
    }

    fn put_end<S: Sink>(sink: &mut S, output: Output, _look: Look, _made: &()) -> Output {
        put_text(sink, output, "")
    }
}

// The row on which an error stands, where one does.
fn standing_row(display: &ExtendedScreen) -> Option<u8>
    ensures { result ≡ a_standing_row display.now }
{
    if display.error_stands() {
        Some(display.error_row())
    } else {
        None
    }
}
