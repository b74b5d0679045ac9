ghost use Rattle.std.specs.Prelude.{◌≡◌, ℕ, true, false, [], ◌<◌, ◌≤◌, length, IsTrue, IfOk, OnOk, OnErr, is_ok};
ghost use Rattle.std.specs.List.{list_all, prefix_len};
ghost use Rattle.std.specs.Option.{option_copied, option_map_or};
ghost use Rattle.sw_state.specs.HeadNames.{are_heads, is_before, is_name, is_name_at, is_name_byte, value_of, with_head};

use crate::head::Head;
use std::alloc::Global;
use std::marker::Model;
use sw_outside::NoMemory;
use thiserror::Error;

/// The items are no header list: a name is empty or has a byte that isn't from `!` to `~`, or a name doesn't come after
/// the one before it.
#[derive(Clone, Copy, Debug, PartialEq, Eq, Error)]
#[error("not a list of header items")]
pub struct NotHeads;

/// Header items with distinct names, in the order of the names' bytes. Each name has one or more bytes from `!` to `~`.
/// Contracts see the list of the items.
#[derive(Debug, Drop)]
pub struct HeadList {
    heads: Vec<Head>,
}

impl Model for HeadList {
    ghost use Rattle.std.specs.Prelude.{◌≡◌, true, List};
    ghost use Rattle.sw_state.specs.declared.head.Head.{Head};
    ghost use Rattle.sw_state.specs.HeadNames.{are_heads};

    ghost Value = { List Head };

    ghost view = { λ l. l.heads.items };

    ghost invariant = { λ l. are_heads l.heads.items ≡ true };
}

impl HeadList {
    /// A list of no items. It takes no memory.
    pub fn new(alloc: Global) -> HeadList
        ensures { result ≡ [] }
    {
        HeadList {
            heads: Vec::new(alloc),
        }
    }

    /// The list of these items, or [`NotHeads`] where they break the rule of the type. It takes no memory.
    pub fn from_heads(heads: Vec<Head>) -> Result<HeadList, NotHeads>
        ensures same { IfOk result (λ list. list ≡ heads.items) }
        ensures rule { is_ok result ≡ are_heads heads.items }
    {
        if in_order(&heads) {
            Ok(HeadList { heads })
        } else {
            Err(NotHeads)
        }
    }

    /// Whether the bytes are an item's name: one or more bytes from `!` to `~`.
    pub fn is_name(name: &[u8]) -> bool
        ensures { result ≡ is_name name.now }
    {
        !name.is_empty() && all_name_bytes(name)
    }

    /// The items, in the order of their names.
    pub fn as_slice(&self) -> &[Head]
        ensures same { result.now ≡ self.now }
        ensures rule { are_heads result.now ≡ true }
    {
        &self.heads
    }

    /// The value of the item of this name.
    pub fn get(&self, name: &[u8]) -> Option<&[u8]>
        ensures { option_copied result ≡ value_of self.now name.now }
    {
        let head = self.heads.iter().find(|head| head.name.as_slice() == name)?;
        Some(head.value.as_slice())
    }

    /// Puts the item in its place. An item of the same name that was there is gone. After [`NoMemory`] the list is what
    /// it was.
    pub fn put(&mut self, head: Head) -> Result<(), NoMemory>
        requires { is_name head.name ≡ true }
        ensures ok { OnOk result (self.new ≡ with_head self.old head) }
        ensures err { OnErr result (self.new ≡ self.old) }
    {
        put_in_place(&mut self.heads, head)
    }

    /// A list that is equal to this one, or [`NoMemory`].
    pub fn copy(&self, alloc: Global) -> Result<HeadList, NoMemory>
        ensures { IfOk result (λ copy. copy ≡ self.now) }
    {
        Ok(HeadList {
            heads: copy_each(alloc, &self.heads)?,
        })
    }
}

/// Whether the items keep the rule of the type.
fn in_order(heads: &[Head]) -> bool
    ensures { result ≡ are_heads heads.now }
{
    let mut last: Option<&[u8]> = None;
    for head in heads {
        let name = head.name.as_slice();
        if !HeadList::is_name(name) {
            return false;
        }
        if !is_after(last, name) {
            return false;
        }
        last = Some(name);
    }
    true
}

/// Whether the name comes after the last one, where there was one.
fn is_after(last: Option<&[u8]>, name: &[u8]) -> bool
    ensures { result ≡ option_map_or (λ last. is_before last name.now) (option_copied last.entry) true }
{
    match last {
        Some(last) => comes_before(last, name),
        None => true,
    }
}

fn all_name_bytes(bytes: &[u8]) -> bool
    ensures { result ≡ list_all is_name_byte bytes.now }
{
    bytes.iter().all(|byte| is_name_byte(*byte))
}

fn is_name_byte(byte: u8) -> bool
    ensures { result ≡ is_name_byte byte }
{
    b'!' <= byte && byte <= b'~'
}

/// Whether one name comes before another.
fn comes_before(one: &[u8], other: &[u8]) -> bool
    ensures { result ≡ is_before one.now other.now }
{
    one.cmp(other).is_lt()
}

/// Puts the item where its name belongs, or in the place of the item that has its name.
fn put_in_place(heads: &mut Vec<Head>, head: Head) -> Result<(), NoMemory>
    requires { are_heads heads.old.items ≡ true }
    ensures ok { OnOk result (heads.new.items ≡ with_head heads.old.items head) }
    ensures err { OnErr result (heads.new.items ≡ heads.old.items) }
{
    let at = place_of(heads, head.name.as_slice());
    if is_at(heads, at, head.name.as_slice()) {
        heads[at] = head;
        return Ok(());
    }
    heads.insert(at, head)?;
    Ok(())
}

/// Whether the item at this place has the name.
fn is_at(heads: &[Head], at: usize, name: &[u8]) -> bool
    ensures name { result ≡ is_name_at heads.now at name.now }
    ensures within { IsTrue result → at < length heads.now }
{
    match heads.get(at) {
        Some(head) => head.name.as_slice() == name,
        None => false,
    }
}

/// How many items come before this name.
fn place_of(heads: &[Head], name: &[u8]) -> usize
    ensures place { result ≡ prefix_len (λ head. is_before head.name name.now) heads.now }
    ensures bound { result ≤ length heads.now }
{
    heads
        .iter()
        .take_while(|head| comes_before(head.name.as_slice(), name))
        .count()
}

/// Copies of these items, in their order.
fn copy_each(alloc: Global, heads: &[Head]) -> Result<Vec<Head>, NoMemory>
    ensures { IfOk result (λ copies. copies.items ≡ heads.now) }
{
    let mut copies = Vec::with_capacity(alloc, heads.len())?;
    for head in heads {
        copies.push(head.copy(alloc)?)?;
    }
    Ok(copies)
}

/// Gives the items back: no memory is taken.
impl From<HeadList> for Vec<Head> {
    ghost from_gives = { λ list vec. vec.items ≡ list };

    fn from(list: HeadList) -> Vec<Head> {
        list.heads
    }
}
