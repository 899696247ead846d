//! Any name is free to be a terminal's.
ghost use Rattle.std.specs.Prelude.{◌≡◌, ◌≢◌, None, Some, List, ℕ};
ghost use Rattle.ws_nego.specs.Host.{host_answer, name_in};
ghost use Rattle.ws_nego.specs.Host.{HostState};
ghost use Rattle.ws_nego.specs.Options.{Answer};
ghost use Rattle.ws_nego.specs.declared.host.TerminalName.TheVariants.{Requested};
ghost use Rattle.ws_telnet.specs.declared.token.Sub.{Sub as ASub};
ghost use Rattle.ws_telnet.specs.declared.token.Telnet.{Telnet as AToken};
ghost use Rattle.ws_telnet.specs.declared.token.Telnet.TheVariants.{Sub};
ghost use Rattle.ws_any_host.specs.AnyOptions.{AnswersAlike, Negotiated, any_answer, name_after};

/// A law of `AnyOptions`, for every state and token: no name is refused, and the first behind SEND is kept as it came
/// (RFC 1091); and wherever a host end doesn't refuse a token, it answers the same, and comes to the same modes.
pub fn names_are_free()
    ensures taken { (n : Negotiated) (sub : ASub) (name : List ℕ) → name_in sub ≡ Some name
        → any_answer n (Sub sub) ≢ None }
    ensures kept { (n : Negotiated) (sub : ASub) (name : List ℕ) → name_in sub ≡ Some name
        → n.host.name ≡ Requested → name_after n (Sub sub) ≡ name }
    ensures alike { (n : Negotiated) (token : AToken) (answer : Answer HostState)
        → host_answer n.host token ≡ Some answer
        → AnswersAlike (any_answer n token) answer }
{}
