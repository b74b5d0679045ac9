ghost use Rattle.std.specs.Prelude.{◌≡◌, ℕ, ◌≤◌, ◌++◌, length, drop};
ghost use Rattle.sw_timestamp.specs.TimeText.{last_digits, normal_text, text_of};

use crate::timestamp::Timestamp;

impl Timestamp {
    /// Writes the normal form: ten digits of seconds, a point and five decimals.
    pub fn write_normal(&self, out: &mut [u8; 16])
        ensures text { out.new ≡ normal_text self.now }
        ensures bound { self.now ≤ 999999999999999 }
    {
        let units = self.units();
        write_last_digits(&mut out[..10], units / 100_000);
        out[10] = b'.';
        write_last_digits(&mut out[11..], units % 100_000);
    }

    /// Writes the text of the time to the front of `out`, and answers how many bytes it has. The rest of `out` stays.
    pub fn write_text(&self, out: &mut [u8; 33]) -> usize
        ensures count { result ≡ length (text_of self.now) }
        ensures text { out.new ≡ text_of self.now ++ drop result out.old }
        ensures bound { self.now ≤ 999999999999999 }
    {
        let mut normal = [0; 16];
        self.write_normal(&mut normal);
        out[..16].copy_from_slice(&normal);
        16
    }
}

/// Fills `out` with the last digits of the number.
fn write_last_digits(out: &mut [u8], number: u64)
    ensures { out.new ≡ last_digits (length out.old) number }
{
    let mut left = number;
    for at in (0..out.len()).rev() {
        out[at] = b'0' + (left % 10) as u8;
        left /= 10;
    }
}
