ghost use Rattle.std.specs.Prelude.{◌≡◌, ◌==◌, ◌-◌, ◌<◌, ◌≤◌, length, slice_index, IfSome, position};
ghost use Rattle.std.specs.Option.{ForSome, option_map};
ghost use Rattle.std.specs.Str.{IsUtf8};
ghost use Rattle.sw_listing.specs.Asking.{rolled_size, rolled_text};

/// The beginning of a name that ends with a delimiter.
#[derive(Clone, Copy, Debug)]
pub(crate) struct Rolled<'a> {
    pub(crate) text: &'a [u8],
    pub ghost is_text: { ∥ IsUtf8 text.now ∥₁ },
}

/// What a name is rolled up to, where the delimiter stands behind so many of its bytes.
pub(crate) fn roll_up<'a>(
    name: &'a [u8],
    behind: usize,
    delimiter: Option<u8>,
) -> Option<Rolled<'a>>
    requires utf8 { ∥ IsUtf8 name.now ∥₁ }
    requires ascii { ForSome delimiter (λ d. d < 128) }
    requires within { behind ≤ length name.now }
    ensures { option_map (λ r. r.text.now) result ≡ rolled_text delimiter behind name.now }
{
    match delimiter {
        Some(delimiter) => roll_up_at(name, behind, delimiter),
        None => None,
    }
}

/// The same at this delimiter.
fn roll_up_at<'a>(name: &'a [u8], behind: usize, delimiter: u8) -> Option<Rolled<'a>>
    requires utf8 { ∥ IsUtf8 name.now ∥₁ }
    requires ascii { delimiter < 128 }
    requires within { behind ≤ length name.now }
    ensures { option_map (λ r. r.text.now) result ≡ rolled_text (Some delimiter) behind name.now }
{
    match rolled_size(name, behind, delimiter) {
        Some(size) => Some(Rolled {
            text: &name[..size],
        }),
        None => None,
    }
}

/// How many bytes of the name are up to and with the first delimiter behind so many.
pub(crate) fn rolled_size(name: &[u8], behind: usize, delimiter: u8) -> Option<usize>
    requires { behind ≤ length name.now }
    ensures size { result ≡ rolled_size delimiter behind name.now }
    ensures within { IfSome result (λ size. (0 < size) × (size ≤ length name.now) × (slice_index name.now (size - 1) ≡ delimiter)) }
{
    match place_of(&name[behind..], delimiter) {
        Some(place) => Some(behind + place + 1),
        None => None,
    }
}

/// Where the byte stands first.
fn place_of(bytes: &[u8], byte: u8) -> Option<usize>
    ensures place { result ≡ position (λ b. b == byte) bytes.now }
    ensures there { IfSome result (λ place. (place < length bytes.now) × (slice_index bytes.now place ≡ byte)) }
{
    bytes.iter().position(|other| *other == byte)
}
