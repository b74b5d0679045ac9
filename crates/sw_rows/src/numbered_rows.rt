ghost use Rattle.std.specs.Prelude.{◌≡◌, ◌≤◌, All, IfOk, OnOk, OnErr};
ghost use Rattle.sw_rows.specs.Exchanging.{exchanged};
ghost use Rattle.sw_rows.specs.Rows.{no_rows, IsListed, IsRising};

use crate::exchange::exchange;
use crate::numbered::Numbered;
use crate::numbers::Numbers;
use crate::rows::Rows;
use std::alloc::Global;
use std::marker::Model;
use sw_outside::NoMemory;

/// Rows of a container by their numbers alone, for one who keeps them and looks for no name: there is no index of names, and no
/// hash, count and bytes run along. Contracts see what they see of [`Rows`].
#[derive(Debug, Drop)]
pub struct NumberedRows {
    numbers: Numbers,
    top: u64,
}

impl Model for NumberedRows {
    ghost use Rattle.sw_rows.specs.Rows.{Listed, IsListed};

    ghost Value = { Listed };

    ghost view = { λ r. record { list = r.numbers; top = r.top } };

    ghost invariant = { λ r. IsListed (record { list = r.numbers; top = r.top }) };
}

impl NumberedRows {
    /// No rows, and no number given out. It takes no memory.
    pub fn empty(alloc: Global) -> NumberedRows
        ensures { result ≡ no_rows }
    {
        NumberedRows {
            numbers: Numbers::empty(alloc),
            top: 0,
        }
    }

    /// The greatest number given out; 0 where there is none.
    pub fn top(&self) -> u64
        ensures top { result ≡ self.now.top }
        ensures rule { IsListed self.now }
    {
        self.top
    }

    /// Takes the rows of these numbers away, and puts others behind all that are left, under numbers of their own above the
    /// greatest given out; `top` is the greatest given out from then on. A number that no row has is passed over.
    ///
    /// All of it is made or, after [`NoMemory`], nothing. Its time grows with the numbers and rows that it is given, each of
    /// them with the logarithm of the number of rows.
    pub fn exchange(
        &mut self,
        alloc: Global,
        numbers: &[u64],
        rows: Vec<Numbered>,
        top: u64,
    ) -> Result<(), NoMemory>
        requires given { All (λ rowid. rowid ≤ self.old.top) numbers.now }
        requires rising { IsRising self.old.top rows.items }
        requires listed { IsListed (exchanged self.old numbers.now rows.items top) }
        ensures rows { OnOk result (self.new ≡ exchanged self.old numbers.now rows.items top) }
        ensures err { OnErr result (self.new ≡ self.old) }
    {
        exchange(&mut self.numbers, alloc, numbers, rows)?;
        self.top = top;
        Ok(())
    }

    /// The same rows with an index of names, or [`NoMemory`]. The rows themselves are shared, and not copied.
    pub fn indexed(&self, alloc: Global) -> Result<Rows, NoMemory>
        ensures { IfOk result (λ rows. rows ≡ self.now) }
    {
        Rows::of(alloc, &self.numbers, self.top)
    }
}
