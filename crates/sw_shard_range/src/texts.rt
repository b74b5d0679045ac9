ghost use Rattle.std.specs.Prelude.{◌≡◌, ◌+◌, ◌<◌, ◌++◌, ◌∷◌, MatchOption, OnSome, length};
ghost use Rattle.sw_shard_range.specs.ShardNames.{shard_account, shard_container};
ghost use Rattle.sw_timestamp.specs.TimeText.{normal_text};

use arrayvec::ArrayVec;
use itoa::Buffer;
use md5::{Digest, Md5};
use sw_hashpath::hex_text;
use sw_timestamp::Timestamp;

/// The name of an account or a container, which has at most 256 bytes.
pub(crate) type Text = ArrayVec<u8, 256>;

/// The account of a shard, where it has at most 256 bytes.
pub(crate) fn account_text(account: &[u8]) -> Option<Text>
    ensures { MatchOption result (256 < length (shard_account account.now)) (λ text. text.items ≡ shard_account account.now) }
{
    let mut text = Text::new();
    text.try_extend_from_slice(b".shards_").ok()?;
    text.try_extend_from_slice(account).ok()?;
    Some(text)
}

/// The container of a shard, where it has at most 256 bytes.
#[tactic(auto, unfolding(crate::specs::ShardNames::shard_container))]
pub(crate) fn container_text(container: &[u8], time: Timestamp, index: u32) -> Option<Text>
    ensures { MatchOption result (256 < length (shard_container container.now time index)) (λ text. text.items ≡ shard_container container.now time index) }
{
    let mut text = Text::new();
    text.try_extend_from_slice(container).ok()?;
    push_part(&mut text, &hex_text(&Md5::digest(container)))?;
    push_part(&mut text, &normal_text(time))?;
    push_part(&mut text, Buffer::new().format(index).as_bytes())?;
    Some(text)
}

/// Adds a dash and a part, where there is room for both.
fn push_part(text: &mut Text, part: &[u8]) -> Option<()>
    ensures { MatchOption result (256 < length text.old.items + 1 + length part.now) (λ _. text.new.items ≡ text.old.items ++ 45 ∷ part.now) }
{
    text.try_push(b'-').ok()?;
    text.try_extend_from_slice(part).ok()
}

fn normal_text(time: Timestamp) -> [u8; 16]
    ensures { result ≡ normal_text time }
{
    let mut text = [0; 16];
    time.write_normal(&mut text);
    text
}
