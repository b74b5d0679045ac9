ghost use Rattle.std.specs.Prelude.{◌≡◌, length, nat_eq, bytes_eq};
ghost use Rattle.std.specs.List.{list_all, list_any};
ghost use Rattle.sw_ring.specs.Faults.{has_repeat, has_unknown};

use crate::NumberRow;
use sw_outside::Bytes;

/// Whether each row of a table has this length.
pub(crate) fn have_length(table: &[NumberRow], replicas: u64) -> bool
    ensures { result ≡ list_all (λ row. nat_eq (length row) replicas) table.now }
{
    table
        .iter()
        .all(|row| row.as_slice().len() as u64 == replicas)
}

/// Whether two names are equal.
pub(crate) fn has_equal_names(names: &[Bytes]) -> bool
    ensures { result ≡ has_repeat bytes_eq names.now }
{
    for (i, name) in names.iter().enumerate() {
        if has_name(&names[i + 1..], name.as_slice()) {
            return true;
        }
    }
    false
}

fn has_name(names: &[Bytes], name: &[u8]) -> bool
    ensures { result ≡ list_any (λ other. bytes_eq other name.now) names.now }
{
    names.iter().any(|other| other.as_slice() == name)
}

/// Whether a row of a table has a number that isn't below the number of devices.
pub(crate) fn has_unknown_device(table: &[NumberRow], devices: usize) -> bool
    ensures { result ≡ list_any (has_unknown devices) table.now }
{
    table
        .iter()
        .any(|row| is_any_unknown(row.as_slice(), devices))
}

fn is_any_unknown(row: &[u64], devices: usize) -> bool
    ensures { result ≡ has_unknown devices row.now }
{
    row.iter().any(|device| *device >= devices as u64)
}

/// Whether a row of a table has a number twice.
pub(crate) fn has_row_with_repeat(table: &[NumberRow]) -> bool
    ensures { result ≡ list_any (has_repeat nat_eq) table.now }
{
    table.iter().any(|row| has_equal_numbers(row.as_slice()))
}

fn has_equal_numbers(numbers: &[u64]) -> bool
    ensures { result ≡ has_repeat nat_eq numbers.now }
{
    for (i, number) in numbers.iter().enumerate() {
        if numbers[i + 1..].contains(number) {
            return true;
        }
    }
    false
}
