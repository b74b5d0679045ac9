ghost use Rattle.std.specs.Prelude.{◌≡◌};
ghost use Rattle.sw_pass.specs.Outcomes.{asking, ended, finished, finished_where, hindered, keeping, leaving, losing, nothing_yet, putting_off, sending};
ghost use Rattle.sw_pass.specs.Outcomes.{unanswered};

use crate::hindrance::Hindrance;

/// What a pass came to. Each count stands still at 2^64 - 1.
#[derive(Clone, Copy, Debug, PartialEq, Eq)]
pub struct Outcome {
    /// Whether all that it was for is done.
    pub done: bool,
    /// How many messages weren't answered.
    pub lost: u64,
    /// The first answer that hindered it.
    pub kept: Option<Hindrance>,
    /// The number (ROWID) of a row that came too late for it, and is for another pass.
    pub later: Option<u64>,
    /// How many messages asked for hashes or files.
    pub asked: u64,
    /// How many other messages were sent.
    pub sent: u64,
    /// How much is left of what it was for; each pass says what it counts.
    pub left: u64,
}

impl Outcome {
    /// A pass that has done nothing yet.
    pub fn new() -> Outcome
        ensures { result ≡ nothing_yet }
    {
        Outcome {
            done: false,
            lost: 0,
            kept: None,
            later: None,
            asked: 0,
            sent: 0,
            left: 0,
        }
    }

    /// A message that asks for hashes or files goes out.
    pub fn count_asked(&mut self)
        ensures { self.new ≡ asking self.old }
    {
        self.asked = self.asked.saturating_add(1);
    }

    /// Another message goes out.
    pub fn count_sent(&mut self)
        ensures { self.new ≡ sending self.old }
    {
        self.sent = self.sent.saturating_add(1);
    }

    /// A message wasn't answered, so that what it was for is left.
    pub fn lose(&mut self)
        ensures { self.new ≡ losing self.old }
    {
        self.miss();
        self.left = self.left.saturating_add(1);
    }

    /// A message wasn't answered. What is left by that isn't counted by messages.
    pub fn miss(&mut self)
        ensures { self.new ≡ unanswered self.old }
    {
        self.lost = self.lost.saturating_add(1);
    }

    /// A row came too late for it, under this number.
    pub fn put_off(&mut self, rowid: u64)
        ensures { self.new ≡ putting_off self.old rowid }
    {
        self.later = Some(rowid);
    }

    /// An answer hindered it, and left nothing that is counted. The first one is kept.
    pub fn keep(&mut self, hindrance: Hindrance)
        ensures { self.new ≡ keeping self.old hindrance }
    {
        if self.kept.is_none() {
            self.kept = Some(hindrance);
        }
    }

    /// An answer hindered it, so that what it was for is left. The first one is kept.
    pub fn hinder(&mut self, hindrance: Hindrance)
        ensures { self.new ≡ hindered self.old hindrance }
    {
        self.keep(hindrance);
        self.left = self.left.saturating_add(1);
    }

    /// What it was for is left where something was missed for it.
    pub fn leave_where(&mut self, missed: bool)
        ensures { self.new ≡ leaving missed self.old }
    {
        if missed {
            self.left = self.left.saturating_add(1);
        }
    }

    /// The outcome of a pass that is done exactly where nothing is left.
    pub fn finish(self) -> Outcome
        ensures { result ≡ finished self }
    {
        Outcome {
            done: self.left == 0,
            ..self
        }
    }

    /// The outcome of a pass that is done exactly where nothing is left and a condition of its own holds.
    pub fn finish_where(self, holds: bool) -> Outcome
        ensures { result ≡ finished_where holds self }
    {
        Outcome {
            done: self.left == 0 && holds,
            ..self
        }
    }

    /// The outcome of a pass that tells by itself whether it is done and how much is left.
    pub fn end(self, done: bool, left: u64) -> Outcome
        ensures { result ≡ ended done left self }
    {
        Outcome { done, left, ..self }
    }
}
