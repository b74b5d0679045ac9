ghost use Rattle.std.specs.Prelude.{◌≡◌, [], map};
ghost use Rattle.sw_peer.specs.Lines.{entered_in, settled_in};
ghost use Rattle.sw_object_steps.specs.Briefs.{brief_of};

use crate::line::Line;
use std::alloc::Global;
use std::marker::Model;
use sw_container_steps::{ContEntry, ContEntryList};
use sw_object_steps::Brief;

/// A line as the keeper of all nodes keeps it. Contracts see the line. Beside it stands what a trail prints of the doubts that its step settled, where
/// what they doubted had been made, and of a step at a record, and the entries that a step at a container added. A step that writes an object adds its
/// own write last.
#[derive(Drop)]
pub struct KeptLine {
    line: Line,
    settled: Vec<Brief>,
    entered: Option<ContEntryList>,
}

impl Model for KeptLine {
    ghost use Rattle.std.specs.Prelude.{◌≡◌, [], map};
    ghost use Rattle.std.specs.Option.{option_map_or};
    ghost use Rattle.sw_peer.specs.Lines.{entered_in, settled_in};
    ghost use Rattle.sw_object_steps.specs.Briefs.{brief_of};
    ghost use Rattle.sw_peer.specs.declared.line.Line.{Line};

    ghost Value = { Line };

    ghost view = { λ k. k.line };

    ghost invariant = { λ k. (k.settled.items ≡ map brief_of (settled_in k.line)) × (option_map_or (λ es. es) k.entered [] ≡ entered_in k.line.event) };
}

impl KeptLine {
    /// The line of a step that settled these doubts as made, and is none at a container.
    pub fn new(line: Line, settled: Vec<Brief>) -> KeptLine
        requires settled { settled.items ≡ map brief_of (settled_in line) }
        requires entered { entered_in line.event ≡ [] }
        ensures { result ≡ line }
    {
        KeptLine {
            line,
            settled,
            entered: None,
        }
    }

    /// The line of a step at a container, which added these entries there and none to an object's journal. No memory is taken.
    pub fn of_container(alloc: Global, line: Line, entered: ContEntryList) -> KeptLine
        requires added { line.added ≡ [] }
        requires entered { entered_in line.event ≡ entered }
        ensures { result ≡ line }
    {
        KeptLine {
            line,
            settled: Vec::new(alloc),
            entered: Some(entered),
        }
    }

    /// The line itself.
    pub fn line(&self) -> &Line
        ensures { result.now ≡ self.now }
    {
        &self.line
    }

    /// What a trail prints of the settled doubts that had been made, and of a step at a record.
    pub fn settled(&self) -> &[Brief]
        ensures { result.now ≡ map brief_of (settled_in self.now) }
    {
        &self.settled
    }

    /// The entries that the step added to the journal of a container's lock.
    pub fn entered(&self) -> &[ContEntry]
        ensures { result.now ≡ entered_in self.now.event }
    {
        match &self.entered {
            Some(entered) => entered.as_slice(),
            None => &[],
        }
    }
}
