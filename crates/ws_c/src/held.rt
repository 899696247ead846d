//! What a handle holds is taken out, used and put back: once for all calls.
ghost use Rattle.std.specs.Prelude.{◌≡◌};

use crate::Status;

/// The status where a handle holds nothing that a call is for.
pub(crate) fn nothing_held() -> Status
    ensures { result ≡ Status.NothingHeld }
{
    Status::NothingHeld
}

// A status; with `number` as C has it.
macro_rules! given {
    ($does:expr $(, $number:ident)?) => {{
        let status = $does;
        status$(.$number())?
    }};
}

// Does this with what a handle holds, where it is of one of these kinds. Else this is what the call gives.
macro_rules! on_held {
    ($alloc:expr, $handle:expr, $none:expr, $($kind:ident($held:ident) => $does:expr),+) => {
        match $handle.take($alloc) {
            Some(mut owned) => match &mut *owned {
                $(Machine::$kind(boxed) => {
                    let $held = &mut **boxed;
                    let given = $does;
                    $handle.put(owned);
                    given
                })+
                _ => {
                    $handle.put(owned);
                    $none
                }
            },
            None => $none,
        }
    };
}

// A station of any kind: this with one of the profile, with one that live hosts use, and with one that no refused record
// ends.
macro_rules! on_stations {
    (
        $alloc:expr,
        $handle:expr,
        |$station:ident| $does:expr,
        |$held:ident| $also:expr,
        |$live:ident| $lives:expr
        $(, $number:ident)?
    ) => {
        on_held!(
            $alloc,
            $handle,
            given!($crate::held::nothing_held() $(, $number)?),
            Station($station) => given!($does $(, $number)?),
            ExtendedStation($held) => given!($also $(, $number)?),
            LiveStation($live) => given!($lives $(, $number)?)
        )
    };
}

// The screen of a station of any kind, and the code page of one that no refused record ends, where it has one.
macro_rules! on_screen {
    ($alloc:expr, $handle:expr, |$screen:ident, $page:ident| $does:expr $(, $number:ident)?) => {
        on_stations!(
            $alloc,
            $handle,
            |held| {
                let $page: Option<ws_code::CodePage> = None;
                let $screen = held.end.screen();
                $does
            },
            |held| {
                let $page: Option<ws_code::CodePage> = None;
                let $screen = held.end.screen();
                $does
            },
            |held| {
                let $page = $crate::live_station::page_of(&held.end);
                let $screen = held.end.screen();
                $does
            }
            $(, $number)?
        )
    };
}

// A host's end.
macro_rules! on_host {
    ($alloc:expr, $handle:expr, |$host:ident| $does:expr $(, $number:ident)?) => {
        on_held!(
            $alloc,
            $handle,
            given!($crate::held::nothing_held() $(, $number)?),
            Host($host) => given!($does $(, $number)?)
        )
    };
}

// A decoder of either kind.
macro_rules! on_decoders {
    ($alloc:expr, $handle:expr, |$decoder:ident| $does:expr) => {
        on_held!(
            $alloc,
            $handle,
            given!($crate::held::nothing_held(), number),
            Decoder($decoder) => given!($does, number),
            ExtendedDecoder($decoder) => given!($does, number)
        )
    };
}

pub(crate) use given;
pub(crate) use on_decoders;
pub(crate) use on_held;
pub(crate) use on_host;
pub(crate) use on_screen;
pub(crate) use on_stations;
