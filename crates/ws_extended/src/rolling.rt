//! Rows of a screen that a Roll moves (SC30-3533, Roll command).
ghost use Rattle.std.specs.Prelude.{◌≡◌, ◌++◌, ◌≤◌, ◌*◌, None, if◌then◌else◌, length};
ghost use Rattle.ws_code.specs.declared.address.TheConstants.{COLUMNS as A_ROW};
ghost use Rattle.ws_screen.specs.Bodies.{after_elements, after_end, screen_of};
ghost use Rattle.ws_screen.specs.Events.{History};
ghost use Rattle.ws_screen.specs.Given.{Gives};
ghost use Rattle.ws_screen.specs.ScreenParts.{IsClean};
ghost use Rattle.ws_extended.specs.RollParts.{roll_distance, rolls_down};
ghost use Rattle.ws_extended.specs.Rolling.{moved_down, moved_up, roll_shown, rolled};

use crate::Roll;
use crate::error_line::write_cells;
use ws_code::{CELLS, COLUMNS};
use ws_screen::Screen;

// The cells of rows after a Roll, in two parts.
fn moved(down: bool, far: usize, cells: &[u8]) -> (&[u8], &[u8])
    requires { IsClean cells.now }
    ensures clean { IsClean result.0.now × IsClean result.1.now }
    ensures moved { result.0.now ++ result.1.now
        ≡ if down then moved_down far cells.now else moved_up far cells.now }
{
    let far = far.min(cells.len());
    let others = cells.len() - far;
    if down {
        (&cells[..far], &cells[..others])
    } else {
        (&cells[far..], &cells[others..])
    }
}

/// Carries out a Roll. Of each cell of its rows what comes there is written anew, in a write of its own, which ends.
pub(crate) fn roll_rows(screen: &mut Screen, roll: &Roll)
    ensures rolled { (h : History) → Gives h screen.old
        → Gives (after_end (after_elements h (roll_shown roll.now (screen_of h).cells)))
        screen.new }
    ensures closed { screen.new.writing ≡ None }
{
    screen.known();
    let mut before = [0; CELLS as usize];
    before.copy_from_slice(screen.cells());
    let columns = usize::from(COLUMNS);
    let start = (usize::from(roll.top()) - 1) * columns;
    let end = usize::from(roll.bottom()) * columns;
    let far = usize::from(roll.distance()) * columns;
    let (first, second) = moved(roll.is_down(), far, &before[start..end]);
    screen.end_write();
    write_cells(screen, roll.top(), first, second);
    screen.end_write();
}
