ghost use Rattle.std.specs.Prelude.{◌≡◌, ◌↔◌, ◌&&◌, nat_lt, false, [], Some, IsTrue};
ghost use Rattle.std.specs.Option.{option_map_or};
ghost use Rattle.sw_state.specs.Bases.{base_time, is_deletion, is_new_base};
ghost use Rattle.sw_state.specs.Metas.{is_after_base, is_after_meta};
ghost use Rattle.sw_state.specs.States.{IsAtLeast, is_new, joined, state_of, state_with};
ghost use Rattle.sw_state.specs.Writes.{tag_of};
ghost use Rattle.sw_state.specs.declared.write.Write.{Write};

use crate::base::Base;
use crate::state::State;
use crate::write::{Kind, Write};
use sw_timestamp::{Tag, Timestamp};

impl State {
    /// The state of no writes.
    pub fn empty() -> State
        ensures { result ≡ state_of [] }
    {
        State {
            base: None,
            meta: None,
        }
    }

    /// Adds a write: the state becomes that of the writes so far with this one at the end. The answer tells whether
    /// anything is new. The parts are moved, so no memory is needed.
    pub fn join(&mut self, write: Write) -> bool
        ensures state { self.new ≡ joined self.old write }
        ensures told { result ≡ is_new self.old write.time (tag_of write.kind) }
        ensures changed { (result ≡ false) ↔ (self.new ≡ self.old) }
    {
        let time = write.time;
        if !self.adds(time, write.kind.tag()) {
            return false;
        }
        match write.kind {
            Kind::Put(content) => self.rebase(Base::Put(time, content)),
            Kind::Del => self.rebase(Base::Del(time)),
            Kind::Meta(heads) => self.meta = Some((time, heads)),
        }
        true
    }

    /// Whether a write of this time and tag would change the state.
    pub fn adds(&self, time: Timestamp, tag: Tag) -> bool
        ensures told { result ≡ is_new self.now time tag }
        ensures changes { (w : Write) → w.time ≡ time → tag_of w.kind ≡ tag → (result ≡ false) ↔ (joined self.now w ≡ self.now) }
    {
        match tag {
            Tag::Put => self.has_below(time, false),
            Tag::Del => self.has_below(time, true),
            Tag::Meta => self.is_base_before(time) && self.is_meta_before(time),
        }
    }

    /// Whether the other state adds nothing to this one.
    pub fn at_least(&self, other: &State) -> bool
        ensures { IsTrue result ↔ IsAtLeast self.now other.now }
    {
        !self.wants_base_of(other) && !self.wants_meta_of(other)
    }

    /// Puts a base in the place of what is there. A meta stays where it is later.
    fn rebase(&mut self, base: Base)
        ensures { self.new ≡ state_with (Some base) self.old.meta }
    {
        if !self.has_meta_after(base.time()) {
            self.meta = None;
        }
        self.base = Some(base);
    }

    /// Whether there is no base, or one below a put or deletion of this time.
    fn has_below(&self, time: Timestamp, deletion: bool) -> bool
        ensures { result ≡ is_new_base self.now.base time deletion }
    {
        match &self.base {
            Some(base) => base.time() < time
                || (base.time() == time && (deletion && !base.is_deletion())),
            None => true,
        }
    }

    /// Whether there is no base, or an earlier one.
    fn is_base_before(&self, time: Timestamp) -> bool
        ensures { result ≡ is_after_base self.now.base time }
    {
        match &self.base {
            Some(base) => base.time() < time,
            None => true,
        }
    }

    /// Whether there is no meta, or an earlier one.
    fn is_meta_before(&self, time: Timestamp) -> bool
        ensures { result ≡ is_after_meta self.now.meta time }
    {
        match &self.meta {
            Some((meta, _)) => *meta < time,
            None => true,
        }
    }

    fn has_meta_after(&self, time: Timestamp) -> bool
        ensures { result ≡ option_map_or (λ m. nat_lt time m.0) self.now.meta false }
    {
        match &self.meta {
            Some((meta, _)) => time < *meta,
            None => false,
        }
    }

    /// Whether the other state's base would change this state.
    fn wants_base_of(&self, other: &State) -> bool
        ensures { result ≡ option_map_or (λ b. is_new_base self.now.base (base_time b) (is_deletion b)) other.now.base false }
    {
        match &other.base {
            Some(base) => self.has_below(base.time(), base.is_deletion()),
            None => false,
        }
    }

    /// Whether the other state's meta would change this state.
    fn wants_meta_of(&self, other: &State) -> bool
        ensures { result ≡ option_map_or (λ m. is_after_base self.now.base m.0 && is_after_meta self.now.meta m.0) other.now.meta false }
    {
        match &other.meta {
            Some((time, _)) => self.is_base_before(*time) && self.is_meta_before(*time),
            None => false,
        }
    }
}
