ghost use Rattle.std.specs.Prelude.{◌≡◌, ◌+◌, ◌/◌, ◌^◌, ℕ};
ghost use Rattle.sw_jobs.specs.Draws.{draw, state_after, state_behind};

/// What decides about a request: five draws in order.
#[derive(Clone, Copy, Debug)]
pub(crate) struct Draws {
    pub kind: u64,
    pub container: u64,
    pub object: u64,
    pub length: u64,
    pub device: u64,
}

/// The next five draws.
#[tactic(auto, unfolding(crate::specs::Draws::state_after))]
pub(crate) fn next_draws(state: &mut u64) -> Draws
    ensures draws { (seed n : ℕ) → state.old ≡ state_after seed n
        → result ≡ record {
          kind = draw seed n;
          container = draw seed (n + 1);
          object = draw seed (n + 2);
          length = draw seed (n + 3);
          device = draw seed (n + 4);
        } }
    ensures state { (seed n : ℕ) → state.old ≡ state_after seed n → state.new ≡ state_after seed (n + 5) }
{
    Draws {
        kind: draw(state),
        container: draw(state),
        object: draw(state),
        length: draw(state),
        device: draw(state),
    }
}

/// Makes the state into the next one, and gives that without its last 33 bits.
fn draw(state: &mut u64) -> u64
    ensures state { state.new ≡ state_behind state.old }
    ensures drawn { result ≡ state.new / 2 ^ 33 }
{
    *state = state
        .wrapping_mul(6_364_136_223_846_793_005)
        .wrapping_add(1_442_695_040_888_963_407);
    *state >> 33
}
