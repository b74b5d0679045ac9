ghost use Rattle.std.specs.Prelude.{◌≡◌};
ghost use Rattle.sw_lossy.specs.Losses.{fate_of as fate_of_step, fate_of_message as fate_of_numbered, is_number as is_number_named};
ghost use Rattle.sw_outside.specs.Counts.{raised};

use sw_peer::Link;

/// Which messages fail, by their numbers: all messages through the door are counted, from 1. Where several of these name one message, the
/// first of them counts.
#[derive(Clone, Copy, Debug, PartialEq, Eq)]
pub struct Acts {
    /// This message is lost on its way: it never comes.
    pub lose: Option<u64>,
    /// The answer to this one is lost: it comes, and the sender doesn't hear of it.
    pub lose_reply: Option<u64>,
    /// This one comes twice. The sender hears the second answer.
    pub repeat: Option<u64>,
}

/// What becomes of a step.
#[derive(Clone, Copy, Debug, PartialEq, Eq)]
pub(crate) enum Fate {
    Goes,
    IsLost,
    LosesReply,
    ComesTwice,
}

impl Acts {
    /// What becomes of a step that is said so, after so many messages. One that is said at the device itself goes through.
    pub(crate) fn fate_of(&self, link: Link, messages: u64) -> Fate
        ensures { result ≡ fate_of_step self.now link messages }
    {
        match link {
            Link::Local => Fate::Goes,
            Link::Sent => self.fate_of_message(messages.saturating_add(1)),
        }
    }

    /// What becomes of the message of this number.
    fn fate_of_message(&self, number: u64) -> Fate
        ensures { result ≡ fate_of_numbered self.now number }
    {
        if is_number(self.lose, number) {
            return Fate::IsLost;
        }
        if is_number(self.lose_reply, number) {
            return Fate::LosesReply;
        }
        if is_number(self.repeat, number) {
            return Fate::ComesTwice;
        }
        Fate::Goes
    }
}

/// Whether it is this number that is named.
fn is_number(named: Option<u64>, number: u64) -> bool
    ensures { result ≡ is_number_named named number }
{
    match named {
        Some(n) => n == number,
        None => false,
    }
}
