ghost use Rattle.std.specs.Prelude.{◌≡◌, true};
ghost use Rattle.sw_state.specs.Metas.{is_later};

use crate::base::Base;
use crate::heads::Heads;
use sw_timestamp::Timestamp;

/// What is left of the writes of one name: the highest put or deletion, and the latest metadata that is later than it.
#[derive(Debug, Drop)]
pub struct State {
    pub base: Option<Base>,
    pub meta: Option<(Timestamp, Heads)>,
    pub ghost meta_is_later: { is_later base meta ≡ true },
}
