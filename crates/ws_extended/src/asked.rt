//! What a record asks at once, kept while its elements are read.

ghost use Rattle.std.specs.Prelude.{◌≡◌, ◌∷◌, ◌++◌, [], List, None};
ghost use Rattle.ws_extended.specs.Asking.{HasAsked, asks_in};
ghost use Rattle.ws_extended.specs.declared.ask.Ask.{Ask as AnAsk};

use crate::{Ask, ExtendedElement};
use ws_code::{Keep, Kept, Reason};

/// What elements ask at once: a keep that remembers nothing else of them.
#[derive(Clone, Copy, Debug, PartialEq, Eq)]
pub struct Asked {
    /// The first command that asks, if one does.
    pub ask: Option<Ask>,
    /// Why the record isn't carried out: it asks a second time (own choice).
    pub refused: Option<Reason>,
}

impl Asked {
    /// Nothing is asked yet.
    pub fn new() -> Self
        ensures { HasAsked [] result.ask result.refused }
    {
        Asked {
            ask: None,
            refused: None,
        }
    }

    // Is told of one more command that asks.
    fn note(&mut self, ask: Ask)
        ensures { (asks : List AnAsk) → HasAsked asks self.old.ask self.old.refused
            → HasAsked (asks ++ ask ∷ []) self.new.ask self.new.refused }
    {
        if self.ask.is_none() {
            self.ask = Some(ask);
        } else if self.refused.is_none() {
            self.refused = Some(ask.reason());
        }
    }
}

impl Keep<ExtendedElement> for Asked {
    ghost use Rattle.ws_extended.specs.Asking.{asked_keeper};

    ghost keeper = { asked_keeper };

    fn keep(&mut self, unit: ExtendedElement) -> Kept {
        if let ExtendedElement::Asks(ask) = unit {
            self.note(ask);
        }
        Kept::GoOn
    }

    fn took(&mut self, _values: &[u8]) {}
}
