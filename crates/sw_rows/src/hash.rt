ghost use Rattle.std.specs.Prelude.{◌≡◌, ℕ, List, ◌++◌};
ghost use Rattle.md5.specs.Md5.{Holds, md5};
ghost use Rattle.sw_rows.specs.Sums.{row_hash, row_text};
ghost use Rattle.sw_timestamp.specs.TimeText.{text_of};

use crate::row::Row;
use md5::{Digest, Md5};
use sw_timestamp::Timestamp;

/// What a row adds to the hash of the rows.
#[tactic(auto, unfolding(crate::specs::Sums::row_hash))]
pub(crate) fn row_hash(row: &Row) -> u128
    ensures { result ≡ row_hash row.now }
{
    u128::from_be_bytes(row_digest(row))
}

fn row_digest(row: &Row) -> [u8; 16]
    ensures { result ≡ md5 (row_text row.now) }
{
    let mut hasher = Md5::new();
    hasher.update(row.name.as_slice());
    hasher.update(b"-");
    add_time(&mut hasher, row.created_at);
    hasher.finalize()
}

fn add_time(hasher: &mut Md5, time: Timestamp)
    ensures { (m : List ℕ) → Holds hasher.old m → Holds hasher.new (m ++ text_of time) }
{
    let mut text = [0; 33];
    let length = time.write_text(&mut text);
    hasher.update(&text[..length]);
}
