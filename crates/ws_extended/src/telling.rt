//! What a station tells at once, where a record asks for it.
ghost use Rattle.std.specs.Prelude.{◌≡◌, ◌++◌, [], None};
ghost use Rattle.ws_keys.specs.Contents.{answer_bytes};
ghost use Rattle.ws_extended.specs.ExtendedStates.{ExtendedState};
ghost use Rattle.ws_extended.specs.ExtendedViews.{Shows};
ghost use Rattle.ws_extended.specs.QueryReply as Reply;
ghost use Rattle.ws_extended.specs.Telling.{told_bytes, told_head, told_of};

mod saved;

use crate::replies::query_reply;
use crate::{Ask, ExtendedScreen};
use arrayvec::ArrayVec;
use saved::put_saved;
use ws_keys::spell_with_data;
use ws_nego::TerminalType;
use ws_screen::{ReadKind, Screen};

/// The most bytes that the body of such an answer has: a saved screen's.
pub const MOST_TOLD_BYTES: usize = 4254;

/// What stands in the place of a key, where none was pressed.
pub(crate) const NO_KEY: u8 = 0;

// The cursor, and no key.
fn put_head(screen: &Screen, told: &mut ArrayVec<u8, MOST_TOLD_BYTES>)
    requires { told.old.items ≡ [] }
    ensures { told.new.items ≡ told_head screen.now }
{
    told.push(screen.cursor().row());
    told.push(screen.cursor().col());
    told.push(NO_KEY);
}

// The reply to a query.
fn put_reply(terminal: TerminalType, told: &mut ArrayVec<u8, MOST_TOLD_BYTES>)
    requires { told.old.items ≡ [] }
    ensures { told.new.items ≡ Reply.query_reply terminal }
{
    let reply = query_reply(terminal);
    told.try_extend_from_slice(reply.as_slice()).unwrap();
}

// The cursor and all cells.
fn put_cells(screen: &Screen, told: &mut ArrayVec<u8, MOST_TOLD_BYTES>)
    requires { told.old.items ≡ [] }
    ensures { told.new.items ≡ told_head screen.now ++ screen.now.cells }
{
    screen.known();
    put_head(screen, told);
    told.try_extend_from_slice(screen.cells()).unwrap();
}

// What a read sends of the fields, where no key was pressed.
fn put_fields(screen: &Screen, kind: ReadKind, told: &mut ArrayVec<u8, MOST_TOLD_BYTES>)
    requires { told.old.items ≡ [] }
    ensures { told.new.items ≡ answer_bytes kind screen.now NO_KEY }
{
    let bytes = spell_with_data(screen, kind, NO_KEY);
    told.try_extend_from_slice(bytes.as_slice()).unwrap();
}

// What is told of a screen whose error line is such a row.
fn put_of(
    ask: Ask,
    terminal: TerminalType,
    row: u8,
    screen: &Screen,
    told: &mut ArrayVec<u8, MOST_TOLD_BYTES>,
)
    requires { told.old.items ≡ [] }
    ensures { told.new.items ≡ told_of ask terminal row screen.now }
{
    match ask {
        Ask::Query => put_reply(terminal, told),
        Ask::SaveScreen => put_saved(screen, row, told),
        Ask::ReadScreen => put_cells(screen, told),
        Ask::ReadImmediate => put_fields(screen, ReadKind::Input, told),
        Ask::ReadImmediateAlternate => put_fields(screen, ReadKind::MdtAlternate, told),
    }
}

/// Replaces what the list held by the body of the record that answers a command which asks at once (SC30-3533,
/// commands). It tells of the screen that the key Reset would leave (own choice). The display is between two bodies,
/// and stays as it is.
pub fn put_told(
    ask: Ask,
    terminal: TerminalType,
    display: &ExtendedScreen,
    told: &mut ArrayVec<u8, MOST_TOLD_BYTES>,
)
    requires closed { display.now.screen.writing ≡ None }
    ensures told { (state : ExtendedState) → Shows state display.now
        → told.new.items ≡ told_bytes ask terminal state }
{
    told.clear();
    let row = display.error_row();
    if display.error_stands() {
        let left = display.told();
        put_of(ask, terminal, row, &left, told);
    } else {
        let screen = display.screen();
        screen.known();
        put_of(ask, terminal, row, screen, told);
    }
}
