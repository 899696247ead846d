//! What help says of the commands of an input, and of their words.

// What `--help` prints behind the options.
pub(crate) const HEX_AND_STATUS: &str = "\
A stream is read as hex text: two hex digits for each byte, in either case.
Blanks, tabs and line ends don't count. With --of it is read out of a recording,
with --raw as the bytes themselves.

Exit status:
  0  the whole stream is accepted, and in play no end refuses a byte
  1  it is refused at a byte, or ends too early
  2  a fault, told in one line on standard error: cannot read, not hex,
     script line N, memory, cannot write, no connection; or a wrong
     command line";

pub(crate) const CHECK_EXAMPLES: &str = "\
It prints one line, as one of:
  accepted: 1 records, 0 commands, 12 bytes
  refused at 11: reason 30 StructuredField
  truncated at 3
No record is applied to a screen: reasons 50 to 55, those of the screen, come by
show alone. `t5250 reasons` says what each means.

Of several files it prints a line each, the file's name first:
  one.hex: accepted: 1 records, 0 commands, 12 bytes
The status is 1 where one isn't accepted. The first file that can't be read, or
has another form, ends it with status 2.

With --of, FILE is a recording, as --record of connect and serve makes it. Of
its lines `MILLISECONDS host|station HEX` those of that end are the stream, one
after another; a line of another form is told as `script line N`.

With --raw, FILE has the bytes. They are read in pieces, none of which is kept,
and no further than to the one with a byte that is refused.

With --all it prints a line for each refusal. After it all up to the end of its
record is passed over, but for Telnet commands, and the next record is read. Of
a stream that may end the last line is then:
  2 records, 2 commands, 49 bytes, 1 refused
Where nothing is refused, it is `accepted: ..`; of several files each line stands
after the file's name. All of an input is then read first.

Examples:
  t5250 check examples/inquiry.hex
  t5250 check examples/inquiry.hex examples/sign-on.hex
  t5250 check --of host examples/inquiry.recording
  t5250 check --all --of host examples/refused.recording
  t5250 check --answers --of station examples/inquiry.recording
  t5250 make --raw examples/inquiry.show | t5250 check --raw
  t5250 check --extended examples/live-host.hex
  t5250 check --answers --cut 1 < examples/inquiry-answers.hex
  t5250 check --answers --extended examples/live-station.hex";

pub(crate) const SHOW_EXAMPLES: &str = "\
Each item is printed with the place of its last byte, counted from 0.
Where the stream isn't accepted, the line of `check` is the last.

With --all it goes on after a refusal, as `check --all` does, and a record that
the screen refuses leaves nothing. The screen has what the other records made.
After it stands `truncated at N` where the stream ends too early.

With --json each item and each refusal is an object of JSON on a line. It goes on
after a refusal too, and prints no screen:
  {\"at\":2,\"telnet\":\"DO 25\"}
  {\"at\":18,\"flags\":\"0000\",\"opcode\":3,\"body\":[\"WRITE 00 08\"]}
  {\"at\":30,\"refused\":21,\"name\":\"UnknownCommand\",\"sentence\":\"..\"}
Where the stream ends too early, the last line is {\"truncated\":N}.

A station's answers (--answers) have no screen. With --extended they have lines
more for what a live host's station tells at once:
    QUERY-REPLY HEX   the reply to a query, its 61 bytes
    SAVED             a saved screen, whose elements follow
    SCREEN R C        the cursor; a byte for each cell follows
    IMMEDIATE R C     the cursor; the fields that were read at once follow
Of a host's stream the last line is then `error row R` where an error stands.

With --of, FILE is a recording, as of check. With --raw it has the bytes; each
item is printed while they are read, and a read may fail after some lines.

Examples:
  t5250 show examples/inquiry.hex
  t5250 show --of host examples/inquiry.recording
  t5250 show --all --of host examples/refused.recording
  t5250 show --json --of host examples/refused.recording
  t5250 show --answers --of station examples/inquiry.recording
  t5250 show --color examples/inquiry.hex
  t5250 show --extended examples/live-host.hex
  t5250 show --answers examples/inquiry-answers.hex
  t5250 show --answers --extended examples/live-station.hex
  echo 000A12A0000004000001FFEF | t5250 show";

pub(crate) const TRACE_EXAMPLES: &str = "\
Each item of either end is printed as by `show --extended`, after the seconds
since the first piece and the name of the end that sent it:
  +0.023 host at 232 record flags 0000 opcode 3
An item stands where its last byte came; its place is that byte's, from 0, in
what its end sent. A refusal has a sentence, and eight bytes before the refused
one and from it on:
  +0.030 host refused at 277: reason 30 StructuredField
    30: structured fields aren't part of the profile
    bytes 0000000403040411 F30005D97000FFEF
After it all up to the end of its record is passed over, but for Telnet
commands, and the next record is read. The last lines are of this form:
  host: 278 bytes, 3 records, 1 refused, truncated

With --host FILE, --station FILE or both it reads what these ends sent: hex
text, as examples/from_capture.sh makes it of a capture, or with --raw bytes. An
end without a FILE sent nothing. The host's items are the first, without times:
  host at 232 record flags 0000 opcode 3

With --json each item, each refusal and each end is an object of JSON on a line:
  {\"time\":0.023,\"end\":\"host\",\"at\":232,\"flags\":\"0000\",\"opcode\":3,\"body\":[..]}

The status is 1 where anything is refused, or a stream ends too early.

Examples:
  t5250 trace examples/inquiry.recording
  t5250 trace --json examples/inquiry.recording
  t5250 trace examples/live-host.recording
  t5250 trace --host examples/inquiry.hex --station examples/inquiry-answers.hex
  t5250 make --raw examples/inquiry.show | t5250 trace --raw --host /dev/stdin";

pub(crate) const PLAY_EXAMPLES: &str = "\
A script has a line for each move, and is read before anything is run:
  send K HEX   the host end sends a record of opcode K; HEX may be absent
  cancel       the host end cancels its read
  down N       N bytes arrive at the station; all is all of them
  up N         N bytes arrive at the host end
  settle       four times down all and up all
  type TEXT    keys for the characters; insert TEXT inserts them
  key NAME     a key, such as Enter, F3, FieldExit or Tab

Examples:
  t5250 play --screen --color examples/sign-on.script
  t5250 play --tcp examples/sign-on.script
  echo settle | t5250 play";

pub(crate) const MAKE_EXAMPLES: &str = "\
A text has the lines that `show` prints, and is read before anything is written:
  record opcode K   a record of opcode K; flags FFFF may stand before opcode
  telnet DO 24      a Telnet command; so too telnet NOP, telnet SB 24 HEX
    WRITE 00 08     an element of the record, after two blanks
    TEXT Sign On    characters for cells
A place (at P) counts for nothing, nor does an empty line or one that begins
with #. A line screen ends the text.

A station's answers (--answers) have the lines that `show --answers` prints:
    HEAD 6 53 F1    the cursor's row and column, and the key
    AT 6 53         the cell of a field, and
    BYTES C1C2      its bytes; so too TEXT AB
With --extended they also have those of `show --answers --extended`: a line
QUERY-REPLY with a whole reply, SAVED, SCREEN R C or IMMEDIATE R C.

It prints a line of hex for each item, or with --raw the bytes.

Examples:
  t5250 make examples/inquiry.show
  t5250 make --raw examples/inquiry.show | t5250 show --raw
  t5250 make --extended examples/live-host.show
  t5250 make --answers examples/inquiry-answers.show
  t5250 make --answers --extended examples/live-station.show
  t5250 show examples/inquiry.hex | t5250 make";

// What help says of the words of a command.
pub(crate) const ANSWERS_HELP: &str = "Reads what a station sends, and not what a host sends";

pub(crate) const EXTENDED_HELP: &str =
    "Takes what live hosts send in addition to the profile, or with --answers what their stations tell";

pub(crate) const ALL_HELP: &str = "Goes on after a refusal with the next record";

pub(crate) const STREAM_HELP: &str =
    "A hex text, or what --of or --raw says; standard input by default";

pub(crate) const FILES_HELP: &str =
    "Hex texts, or what --of or --raw says; standard input by default";

pub(crate) const OF_HELP: &str = "Reads a recording, and of that what this end has sent";

pub(crate) const CUT_HELP: &str =
    "Reads the bytes in pieces of N, from 1 to 65535; the line stays the same";

pub(crate) const CODE_PAGE_HELP: &str =
    "The code page of a screen's text: 037 by default, 273, 277, 278, 280, 284, 285, 297, 500, 871 or 1140 to 1149";

pub(crate) const RAW_HELP: &str = "Reads the bytes themselves, and no hex text";

pub(crate) const JSON_HELP: &str = "Prints objects of JSON, one on a line";

pub(crate) const RAW_OUT_HELP: &str = "Prints the bytes themselves, and no hex text";

pub(crate) const SCREEN_HELP: &str = "Prints the station's screen at the end";

pub(crate) const TCP_HELP: &str =
    "Carries the bytes over a TCP connection on 127.0.0.1; what is printed stays the same";

pub(crate) const RECORDING_HELP: &str = "A recording; standard input by default";

pub(crate) const HOST_STREAM_HELP: &str = "What the host sent, as hex text";

pub(crate) const STATION_STREAM_HELP: &str = "What the station sent, as hex text";

pub(crate) const SCRIPT_HELP: &str = "A script; standard input by default";

pub(crate) const ITEMS_HELP: &str = "Items as text; standard input by default";
