//! Laws of pushes. Each function does nothing: its clause is the law.

ghost use Rattle.sw_replicator.specs.Laws.{ExchangeAgrees, ExchangeMeets};

/// A push that is done, and then one back that is done, leave both devices with the join of what both held.
pub fn exchange_meets()
    ensures { ExchangeMeets }
{}

/// Where the writes of what both held agree, that is one state, the state of the writes of both.
pub fn exchange_agrees()
    ensures { ExchangeAgrees }
{}
