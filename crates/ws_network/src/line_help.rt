//! What help says of the lines of live sessions.
use std::rt::Runtime;
use ws_script::Vocabulary;

/// What help says of `connect`. The lines that can be typed stand first in it, after two blanks each.
pub const CONNECT_HELP: &str = "\
A script has a line for each step, and is read before anything is sent. Without
one a line of standard input is carried out before the next is read:
  type TEXT    keys for the characters; insert TEXT inserts them
  key NAME     a key, such as Enter, F3, FieldExit or Tab
  cursor R C   the cursor goes to that cell; newline goes to a row below
  field N TEXT the cursor goes to field N, as fields counts, and fills it
  erase        empties the field from the cursor on
  await        goes on until the keyboard is unlocked
  await record, await text TEXT, await at R C TEXT
               until one more record was applied, a row shows TEXT, or it begins
               at that cell
  await quiet MS
               until nothing has come for MS milliseconds, at most 3600000
  show         prints the screen; show R C LENGTH the text of so many cells
  fields       prints each field: field ROW COLUMN LENGTH FORMAT TEXT
  cells R      prints a row's bytes and attributes
  status       prints `status unlocked ready 6 53 field 1 records 3 bytes 128`
  note TEXT    prints TEXT
Those that show something first take what has come.

A bad line is `bad line: CAUSE` with --ready; else it ends the session, as a
script with one does, by `script line N: CAUSE`. At a terminal there are a
prompt, `help` and `quit`, a bad line is told and ends nothing, and what the
host sends is taken while no line is typed.

A refused key is told as `key refused REASON`, after it a character that it
enters. A wait that runs out prints `late`; one whose host has closed prints
`ended`. In a SCRIPT the line's number follows: `late (line 4)`, and the first
such line ends the session, with status 1; on standard input the session goes
on. --stop and --go-on change that.
A record that the host sends and the station refuses is told, before what the
line prints that took it, as `record refused at P: reason K NAME`: it has no
other effect, and that line counts as refused. `station refused at P: reason K
NAME` ends the session. After both stands what the reason says.

With --record, FILE has a line `MILLISECONDS host|station HEX` for each piece
that crossed the connection. It holds what was typed into hidden fields,
passwords too, so none but its owner can read it.

It takes what live hosts send in addition to the profile, such as Query, and
does what format words ask: where one has auto enter, Enter follows a key.
`key Reset` takes an error away that a host shows, and until then `await` goes
on too, and `show` ends with `error row R`. With --strict it does none of that,
there is no `key Reset`, and a refused record ends the session.

With --device, --keyboard or --code-page it tells a host that asks for
NEW-ENVIRON (RFC 4777) the device's name, the keyboard's type and the code page.
A host that finds the name in use asks again, and is told the rest alone.

Exit status:
  0  every line was carried out, none was late or ended, nothing was refused
  1  one was, or bad, or the station refused a byte
  2  a fault, told in one line on standard error

Examples:
  t5250 connect --strict 127.0.0.1:5250 examples/inquiry.connect
  t5250 connect --color --wait 5 '[::1]:5250' < examples/inquiry.connect
  t5250 connect 127.0.0.1:5250 examples/live-host.connect
  t5250 connect --ready --terminal IBM-5251-11 127.0.0.1:5250";

/// The same of `serve`.
pub const SERVE_HELP: &str = "\
It prints `listening ADDRESS`, and takes one connection. Port 0 takes a free
port. A script has a line for each step, and is read before anything is sent.
Without one a line of standard input is carried out before the next is read:
  send K HEX   sends a record of opcode K, with the body HEX
  send K       sends one without a body, or with the elements of the lines
               after it, as `show` prints them and `make` reads them:
    WRITE 00 08
    TEXT Sign On
  cancel       cancels the read that is asked
  await        goes on until the station has told something, and prints it
               as `play` does
  await answer, await KEY
               until it has answered, or answered by that key, such as F3
  show         prints the screen that the host keeps
  raw HEX      writes these bytes as they are
  telnet WORDS writes a Telnet command, as `make` reads it: telnet DO 39
  pause MS     lets MS milliseconds go by, at most 3600000
  close        closes the connection; no line is carried out after it
  end          ends the lines of a `send K`

On standard input `send K` is carried out when the next line comes that doesn't
begin with two blanks; `end` or an empty one belongs to it, and has no `ok` of
its own. Bad lines are told as connect tells them.

A refused send is told as `send refused REASON`. A wait that runs out prints
`late`; one whose station has closed prints `ended`. In a SCRIPT the line's
number follows: `late (line 4)`, and the first such line ends the session, with
status 1; on standard input the session goes on. --stop and --go-on change that.
`host refused at P: reason K NAME`, and what the reason says, come last. After the
last line of a script, unless a line ended the session, it answers on until the
station closes, or the wait is over.

With --record, FILE has a line `MILLISECONDS host|station HEX` for each piece
that crossed the connection. It holds what was typed into hidden fields,
passwords too, so none but its owner can read it.

With --sessions it serves so many stations one after another, each by the script
from its first line on, with a line `session N` between them.

With --any, for tests of emulators, it judges no terminal name and no record. It
prints `terminal NAME` and `record flags FFFF opcode K HEX`; `send K` takes any
bytes, and the elements of live hosts; `await KEY` goes on until a record by
that key; there is no `cancel`, `await answer` or `show`.

Exit status: as of connect.

Examples:
  t5250 serve 127.0.0.1:5250 examples/inquiry.serve
  t5250 serve --ready --wait 5 '[::1]:0'
  t5250 serve --any 127.0.0.1:5250 examples/live-host.serve";

// The lines that can be typed at a terminal alone.
const TYPED_LINES: &str = "  help         prints these lines
  quit         ends the session, as the end of input does";

/// Prints on standard error the lines of this kind that can be typed.
pub(crate) fn put_line_help<R: Runtime>(rt: &R, vocabulary: Vocabulary) {
    let text = match vocabulary {
        Vocabulary::Station | Vocabulary::ExtendedStation => CONNECT_HELP,
        _ => SERVE_HELP,
    };
    let _ = eprintln!(rt; "{}\n{}", TYPED_LINES, listed(text));
}

// What help lists, which stands between its first colon and an empty line.
fn listed(text: &str) -> &str {
    match text.split_once(":\n") {
        Some((_, list)) => match list.split_once("\n\n") {
            Some((list, _)) => list,
            None => list,
        },
        None => text,
    }
}
