//! The bodies of both ends, whose items are carried out one after another.
ghost use Rattle.std.specs.Prelude.{◌≡◌, None, OnOk, OnErr, ℕ};
ghost use Rattle.ws_code.specs.Code.{IsChain};
ghost use Rattle.ws_record.specs.declared.record.Item.{Item as AnItem};
ghost use Rattle.ws_screen.specs.Faults.{refusal};
ghost use Rattle.ws_extended.specs.ExtendedStates.{ExtendedState};
ghost use Rattle.ws_extended.specs.ExtendedViews.{Shows};
ghost use Rattle.ws_trace.specs.BothEnds.{IsMadeDisplay, IsMadeNothing, host_end, station_end};
ghost use Rattle.ws_trace.specs.Ends.{IsWholeItem, Tracing, made_unless};
ghost use Rattle.ws_trace.specs.declared.entry.EndTold.{EndTold as AnEndTold};
ghost use Rattle.ws_trace.specs.declared.entry.EndTold.TheVariants as told_of;
ghost use Rattle.ws_trace.specs.declared.told.Told.{Told as ATold};

use crate::{EndTold, Told, apply_extended_record};
use ws_code::{Body, Reason};
use ws_extended::{
    ExtendedAnswerPart, ExtendedAnswers, ExtendedCommands, ExtendedElement, ExtendedScreen,
};
use ws_record::Item;

/// A body whose items are traced, and carried out one after another.
pub(crate) trait Traced: Body {
    /// What the items make.
    type Made: Drop;

    // The same, as it is told.
    ghost State: { Type 0 };

    // What is known of the end that sends such bodies.
    ghost tracing: { Tracing Self.Unit State };

    // An end's, as it is told.
    ghost told_as: { ATold Self.Unit → AnEndTold };

    // The value is this.
    ghost is_made: { State → Self.Made → Type 0 };

    /// What there is before the first item.
    fn before_any() -> Self::Made
        ensures { is_made tracing.first result };

    /// Carries out an item. Where that can't be, the reason comes, and nothing of it.
    fn carry_out(made: &mut Self::Made, item: &Item<Self::Unit>) -> Result<(), Reason>
        requires whole { IsWholeItem Self.rules item.now }
        requires made { (state : State) × is_made state made.old }
        ensures fault { (state : State) → is_made state made.old
            → refusal result ≡ tracing.fault state item.now }
        ensures after { (state : State) → is_made state made.old → is_made
            (made_unless state (tracing.after state item.now) (tracing.fault state item.now))
            made.new };

    /// The same as an end's.
    fn as_told(told: Told<Self::Unit>) -> EndTold
        ensures { result ≡ told_as told };
}

// A host's records are carried out on a display.
impl Traced for ExtendedCommands {
    type Made = ExtendedScreen;

    ghost State = { ExtendedState };

    ghost tracing = { host_end };

    ghost told_as = { told_of.Host };

    ghost is_made = { IsMadeDisplay };

    fn before_any() -> ExtendedScreen {
        ExtendedScreen::new()
    }

    fn carry_out(display: &mut ExtendedScreen, item: &Item<ExtendedElement>) -> Result<(), Reason> {
        match item {
            Item::Record(record) => apply_extended_record(display, record),
            Item::Telnet(_) => Ok(()),
        }
    }

    fn as_told(told: Told<ExtendedElement>) -> EndTold
        ensures { result ≡ told_of.Host told }
    {
        EndTold::Host(told)
    }
}

// A station's records make nothing.
impl Traced for ExtendedAnswers {
    type Made = ();

    ghost State = { Unit {0} };

    ghost tracing = { station_end };

    ghost told_as = { told_of.Station };

    ghost is_made = { IsMadeNothing };

    fn before_any() {}

    fn carry_out(_made: &mut (), _item: &Item<ExtendedAnswerPart>) -> Result<(), Reason> {
        Ok(())
    }

    fn as_told(told: Told<ExtendedAnswerPart>) -> EndTold
        ensures { result ≡ told_of.Station told }
    {
        EndTold::Station(told)
    }
}
