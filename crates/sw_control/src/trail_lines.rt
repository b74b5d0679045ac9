ghost use Rattle.std.specs.Prelude.{◌≡◌, ◌≤◌, ◌∷◌, ◌++◌, [], codes, length, map, IfOk, OnOk, slice_index_or};
ghost use Rattle.sw_object_steps.specs.Steps.{is_entered as is_entered_by};
ghost use Rattle.sw_control.specs.Growth.{Adds};
ghost use Rattle.sw_control.specs.TrailText.{entry_told, line_told, own_told, path_of, settled_told, step_word, told, trail_text as trail_text_of, write_told};
ghost use Rattle.sw_control.specs.TrailText.{brief_word, write_word};

use itoa::Buffer;
use std::alloc::Global;
use sw_container_steps::ContEntry;
use sw_hashpath::{Name, Place};
use sw_metafile::push_escaped;
use sw_object_steps::{Answer, Brief, BriefKind, StepKind};
use sw_outside::{Bytes, BytesList, NoMemory};
use sw_peer::{Event, KeptLine};
use sw_timestamp::{Tag, Timestamp};

/// The text of a trail, for these devices: a text line for each doubt that was settled as made, each write that was entered, each entry of a
/// container and each restart. It has its number from 1, its kind, the device, the path in escaped form, and the time of the write, or `-`.
pub fn trail_text(alloc: Global, devices: &BytesList, lines: &[KeptLine]) -> Result<Bytes, NoMemory>
    ensures { IfOk result (λ text. text ≡ trail_text_of devices.now lines.now) }
{
    let mut texts = TextLines {
        text: Vec::new(alloc),
        count: 0,
    };
    for kept in lines {
        texts.add_kept(alloc, devices, kept)?;
    }
    Ok(Bytes::from(texts.text))
}

/// The text lines so far.
#[derive(Drop)]
struct TextLines {
    text: Vec<u8>,
    /// How many they are.
    count: u64,
}

impl TextLines {
    /// Adds those of a line.
    fn add_kept(
        &mut self,
        alloc: Global,
        devices: &BytesList,
        kept: &KeptLine,
    ) -> Result<(), NoMemory>
        requires { self.old.count ≤ length self.old.text.items }
        ensures { OnOk result (Adds self.old (line_told devices.now kept.now) self.new) }
    {
        let line = kept.line();
        let device = device_name(devices, line.device);
        let settled = kept.settled();
        self.add_settled(alloc, device, settled)?;
        self.add_own(alloc, device, &line.event)?;
        self.add_entered(alloc, device, kept.entered())
    }

    /// Adds those of settled doubts, and of a step at a record.
    fn add_settled(
        &mut self,
        alloc: Global,
        device: &[u8],
        settled: &[Brief],
    ) -> Result<(), NoMemory>
        requires { self.old.count ≤ length self.old.text.items }
        ensures { OnOk result (Adds self.old (map (settled_told device.now) settled.now) self.new) }
    {
        for brief in settled {
            self.add_write(
                alloc,
                brief_kind(brief.kind),
                device,
                &brief.name,
                brief.time,
            )?;
        }
        Ok(())
    }

    /// Adds that of an event's own write, or of a restart.
    fn add_own(&mut self, alloc: Global, device: &[u8], event: &Event) -> Result<(), NoMemory>
        requires { self.old.count ≤ length self.old.text.items }
        ensures { OnOk result (Adds self.old (own_told device.now event.now) self.new) }
    {
        match event {
            Event::Changed(name, change, answer) => {
                if is_entered(answer) {
                    self.add_write(alloc, step_kind(change.kind()), device, name, change.time())
                } else {
                    Ok(())
                }
            }
            Event::Restarted => self.add(b"restart", device, b"/", b"-"),
            Event::Read(..) | Event::ReadPart(_) | Event::Listed(_) | Event::AtContainer(..) => {
                Ok(())
            }
        }
    }

    /// Adds those of entries at a container.
    fn add_entered(
        &mut self,
        alloc: Global,
        device: &[u8],
        entered: &[ContEntry],
    ) -> Result<(), NoMemory>
        requires { self.old.count ≤ length self.old.text.items }
        ensures { OnOk result (Adds self.old (map (entry_told device.now) entered.now) self.new) }
    {
        for entry in entered {
            self.add_entry(alloc, device, entry)?;
        }
        Ok(())
    }

    /// Adds that of an entry at a container.
    fn add_entry(&mut self, alloc: Global, device: &[u8], entry: &ContEntry) -> Result<(), NoMemory>
        requires { self.old.count ≤ length self.old.text.items }
        ensures { OnOk result (Adds self.old (entry_told device.now entry.now ∷ []) self.new) }
    {
        let path = entry_path(alloc, entry)?;
        let mut digits = [0u8; 16];
        match entry_time(entry) {
            Some(time) => {
                time.write_normal(&mut digits);
                self.add(entry_word(entry), device, &path, &digits)
            }
            None => self.add(entry_word(entry), device, &path, b"-"),
        }
    }

    /// Adds that of a write.
    fn add_write(
        &mut self,
        alloc: Global,
        kind: &[u8],
        device: &[u8],
        name: &Name,
        time: Timestamp,
    ) -> Result<(), NoMemory>
        requires { self.old.count ≤ length self.old.text.items }
        ensures { OnOk result (Adds self.old (write_told kind.now device.now name.now time ∷ []) self.new) }
    {
        let path = path_text(alloc, name)?;
        let mut digits = [0u8; 16];
        time.write_normal(&mut digits);
        self.add(kind, device, &path, &digits)
    }

    /// Adds one, with the next number.
    fn add(&mut self, kind: &[u8], device: &[u8], path: &[u8], time: &[u8]) -> Result<(), NoMemory>
        requires { self.old.count ≤ length self.old.text.items }
        ensures { OnOk result (Adds self.old (told kind.now device.now path.now time.now ∷ []) self.new) }
    {
        self.count += 1;
        let text = &mut self.text;
        text.extend_from_slice(Buffer::new().format(self.count).as_bytes())?;
        add_word(text, kind)?;
        add_word(text, device)?;
        text.extend_from_slice(b" ")?;
        push_escaped(text, path)?;
        add_word(text, time)?;
        text.extend_from_slice(b"\n")?;
        Ok(())
    }
}

/// Adds a word, with a space before it.
fn add_word(text: &mut Vec<u8>, word: &[u8]) -> Result<(), NoMemory>
    ensures { OnOk result (text.new.items ≡ text.old.items ++ (codes " " ++ word.now)) }
{
    text.extend_from_slice(b" ")?;
    text.extend_from_slice(word)?;
    Ok(())
}

/// Whether the answer says that the write was entered.
fn is_entered(answer: &Answer) -> bool
    ensures { result ≡ is_entered_by answer.now }
{
    match answer {
        Answer::Done(_) | Answer::Buried(_) => true,
        _ => false,
    }
}

/// The word of what a step asks for.
fn step_kind(kind: StepKind) -> &'static [u8]
    ensures { result.now ≡ step_word kind }
{
    match kind {
        StepKind::Put => b"put",
        StepKind::Post => b"post",
        StepKind::Delete => b"delete",
        StepKind::Receive => b"receive",
        StepKind::MarkRecord => b"mark",
        StepKind::DropRecord => b"drop",
    }
}

/// The word of an entry of an object lock's journal.
fn brief_kind(kind: BriefKind) -> &'static [u8]
    ensures { result.now ≡ brief_word kind }
{
    match kind {
        BriefKind::Wrote(tag) => write_kind(tag),
        BriefKind::Files => b"filed",
        BriefKind::Marked => b"mark",
        BriefKind::Dropped => b"drop",
    }
}

/// The word of a write alone.
fn write_kind(tag: Tag) -> &'static [u8]
    ensures { result.now ≡ write_word tag }
{
    match tag {
        Tag::Put => b"put",
        Tag::Meta => b"post",
        Tag::Del => b"delete",
    }
}

/// The name of a device.
pub(crate) fn device_name(devices: &BytesList, device: u8) -> &[u8]
    ensures { result.now ≡ slice_index_or devices.now device [] }
{
    match devices.as_slice().get(usize::from(device)) {
        Some(name) => name.as_slice(),
        None => b"",
    }
}

/// The path of a name, as it stands.
fn path_text(alloc: Global, name: &Name) -> Result<Vec<u8>, NoMemory>
    ensures { IfOk result (λ path. path.items ≡ path_of name.now) }
{
    let mut path = Vec::new(alloc);
    path.extend_from_slice(b"/")?;
    path.extend_from_slice(name.account.as_slice())?;
    path.extend_from_slice(b"/")?;
    path.extend_from_slice(name.container.as_slice())?;
    path.extend_from_slice(b"/")?;
    path.extend_from_slice(name.object.as_slice())?;
    Ok(path)
}

/// The word of an entry at a container.
fn entry_word(entry: &ContEntry) -> &'static [u8]
    ensures { result.now ≡ Rattle.sw_control.specs.TrailText.entry_word entry.now }
{
    match entry {
        ContEntry::Created(_, _) => b"create",
        ContEntry::Removed(_, _) => b"remove",
        ContEntry::Merged(_, _) => b"row",
        ContEntry::Ranged(_, _) => b"ranges",
        ContEntry::Acked(_, _, _, _) => b"ack",
        ContEntry::Closed(_, _) => b"close",
        ContEntry::Emptied(_) => b"empty",
        ContEntry::Synced(_, _, _) => b"sync",
    }
}

/// The time that an entry gives its container, or that of its row. Ranges and points have none.
fn entry_time(entry: &ContEntry) -> Option<Timestamp>
    ensures { result ≡ Rattle.sw_control.specs.TrailText.entry_time entry.now }
{
    match entry {
        ContEntry::Created(_, time) => Some(*time),
        ContEntry::Removed(_, time) => Some(*time),
        ContEntry::Merged(_, row) => Some(row.created_at),
        ContEntry::Ranged(_, _) => None,
        ContEntry::Acked(_, _, _, _) => None,
        ContEntry::Closed(_, _) => None,
        ContEntry::Emptied(_) => None,
        ContEntry::Synced(_, _, _) => None,
    }
}

/// The path of an entry's container, or of its row.
fn entry_path(alloc: Global, entry: &ContEntry) -> Result<Vec<u8>, NoMemory>
    ensures { IfOk result (λ path. path.items ≡ Rattle.sw_control.specs.TrailText.entry_path entry.now) }
{
    match entry {
        ContEntry::Created(place, _)
        | ContEntry::Removed(place, _)
        | ContEntry::Ranged(place, _)
        | ContEntry::Acked(place, _, _, _)
        | ContEntry::Closed(place, _)
        | ContEntry::Emptied(place)
        | ContEntry::Synced(place, _, _) => place_path(alloc, place),
        ContEntry::Merged(place, row) => {
            let mut path = place_path(alloc, place)?;
            path.extend_from_slice(b"/")?;
            path.extend_from_slice(row.name.as_slice())?;
            Ok(path)
        }
    }
}

/// The path of a container, as it stands.
pub(crate) fn place_path(alloc: Global, place: &Place) -> Result<Vec<u8>, NoMemory>
    ensures { IfOk result (λ path. path.items ≡ Rattle.sw_control.specs.TrailText.place_path place.now) }
{
    let mut path = Vec::new(alloc);
    path.extend_from_slice(b"/")?;
    path.extend_from_slice(place.account.as_slice())?;
    path.extend_from_slice(b"/")?;
    path.extend_from_slice(place.container.as_slice())?;
    Ok(path)
}
