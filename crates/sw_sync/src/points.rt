ghost use Rattle.std.specs.Prelude.{◌≡◌, [], None, IfOk, OnErr, OnOk};
ghost use Rattle.sw_sync.specs.Points.{greatest_of_first, greatest_point, is_above, point_at, raised, with_point};

use std::alloc::Global;
use std::collections::BTreeMap;
use std::marker::Model;
use sw_outside::NoMemory;

/// For each range and device the number (ROWID) that is kept, where there is one. Contracts see them in order of range, then device.
///
/// The time of a call grows with the logarithm of the number of points.
#[derive(Debug, Drop)]
pub struct Points {
    points: BTreeMap<(u32, u8), u64>,
}

impl Model for Points {
    ghost use Rattle.sw_sync.specs.Points.{PointList};

    ghost Value = { PointList };

    ghost view = { λ p. p.points.entries };
}

impl Points {
    /// No points. It takes no memory.
    pub fn new(alloc: Global) -> Points
        ensures { result ≡ [] }
    {
        Points {
            points: BTreeMap::new(alloc),
        }
    }

    /// The number that is kept for a range and a device, where there is one.
    pub fn get(&self, range: u32, device: u8) -> Option<u64>
        ensures { result ≡ point_at self.now range device }
    {
        self.points.get(&(range, device)).copied()
    }

    /// Keeps this number for a range and a device, in place of the one that was kept. After [`NoMemory`], which comes only where none was kept, the
    /// points are what they were.
    pub fn set(&mut self, range: u32, device: u8, rowid: u64) -> Result<(), NoMemory>
        ensures ok { OnOk result (self.new ≡ with_point self.old range device rowid) }
        ensures err { OnErr result (self.new ≡ self.old) }
        ensures starved { OnErr result (point_at self.old range device ≡ None) }
    {
        self.points.insert((range, device), rowid)?;
        Ok(())
    }

    /// Whether this number is above the one that is kept for a range and a device. Where none is kept, each number is.
    pub fn rises(&self, range: u32, device: u8, rowid: u64) -> bool
        ensures { result ≡ is_above rowid (point_at self.now range device) }
    {
        match self.get(range, device) {
            Some(kept) => kept < rowid,
            None => true,
        }
    }

    /// Keeps the greater of this number and the one that is kept for a range and a device, and answers whether it rose. After [`NoMemory`], which
    /// comes only where none was kept, the points are what they were.
    pub fn raise(&mut self, range: u32, device: u8, rowid: u64) -> Result<bool, NoMemory>
        ensures rose { IfOk result (λ rose. rose ≡ is_above rowid (point_at self.old range device)) }
        ensures points { OnOk result (self.new ≡ raised self.old range device rowid) }
        ensures err { OnErr result (self.new ≡ self.old) }
        ensures starved { OnErr result (point_at self.old range device ≡ None) }
    {
        if !self.rises(range, device, rowid) {
            return Ok(false);
        }
        self.set(range, device, rowid)?;
        Ok(true)
    }

    /// The greatest number that is kept for a range, 0 where none is kept.
    pub fn greatest(&self, range: u32) -> u64
        ensures { result ≡ greatest_point self.now range }
    {
        let mut greatest = 0;
        for device in 0..256u16 {
            greatest = self.get(range, device as u8).unwrap_or(0).max(greatest);
        }
        greatest
    }

    /// Points that are equal to these, or [`NoMemory`].
    pub fn copy(&self) -> Result<Points, NoMemory>
        ensures { IfOk result (λ copy. copy ≡ self.now) }
    {
        Ok(Points {
            points: self.points.clone()?,
        })
    }
}
