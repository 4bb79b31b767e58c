ghost use Rattle.std.specs.Prelude.{◌≡◌, List, None, IsTrue};
ghost use Rattle.pp_channel.specs.Answer.{event_of, only_looks};
ghost use Rattle.pp_channel.specs.declared.event.Event.{Event};

use pp_word::Word12;

/// One operation that a processor asks of a channel.
#[derive(Clone, Copy, PartialEq, Eq)]
pub enum ChanOp {
    /// Looks at the flags.
    Probe,
    /// Makes an inactive channel active.
    Activate,
    /// Makes an active channel inactive.
    Disconnect,
    /// Puts a word into an active, empty channel.
    Put(Word12),
    /// Takes the word out of a full channel.
    Take,
    /// Sends a function code on an inactive channel.
    Function(Word12),
}

impl ChanOp {
    /// Whether it only looks: it never makes an event, and is never held.
    #[inline(always)]
    pub fn only_looks(&self) -> bool
        ensures value { result ≡ only_looks self.now }
        ensures no_event { IsTrue result → (h : List Event) → event_of self.now h ≡ None }
    {
        matches!(self, ChanOp::Probe)
    }
}
