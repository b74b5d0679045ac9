//! Laws of states and of their join. Each function does nothing: its clause is the law.

ghost use Rattle.sw_state.specs.Laws.{AtLeastAntisymmetric, AtLeastItself, AtLeastOneWrite, AtLeastTransitive, ComesAgain, EitherOrder, JoinAssociates};
ghost use Rattle.sw_state.specs.Laws.{JoinCommutes, JoinIsAtLeast, JoinIsIdempotent, JoinsLists, JoinsOneMore, NewChanges, OneState, StateIsState};
ghost use Rattle.sw_state.specs.Laws.{StateOfItsWrites, StateOfSet};

/// The state of writes has the highest base and the latest meta above it.
pub fn state_is_state()
    ensures { StateIsState }
{}

/// Of writes that agree there is one such state.
pub fn one_state()
    ensures { OneState }
{}

/// Where the writes agree, which means that no two of one time and kind differ, the state depends on the set of writes
/// alone: neither their order nor how often each came decides. Where they don't agree, their order does.
pub fn state_of_set()
    ensures { StateOfSet }
{}

/// A state is that of the writes that it consists of.
pub fn state_of_its_writes()
    ensures { StateOfItsWrites }
{}

/// A state joined with a write is the state of one write more.
pub fn joins_one_more()
    ensures { JoinsOneMore }
{}

/// The states of two lists of writes together are the state of both lists.
pub fn joins_lists()
    ensures { JoinsLists }
{}

pub fn join_associates()
    ensures { JoinAssociates }
{}

/// The join commutes where the writes agree.
pub fn join_commutes()
    ensures { JoinCommutes }
{}

pub fn join_is_idempotent()
    ensures { JoinIsIdempotent }
{}

/// Two writes may come in either order, where all agree.
pub fn either_order()
    ensures { EitherOrder }
{}

/// A write that comes again changes nothing.
pub fn comes_again()
    ensures { ComesAgain }
{}

pub fn at_least_itself()
    ensures { AtLeastItself }
{}

pub fn at_least_transitive()
    ensures { AtLeastTransitive }
{}

/// Two states that are at least each other are equal, where their writes agree.
pub fn at_least_antisymmetric()
    ensures { AtLeastAntisymmetric }
{}

/// Two states together are at least either.
pub fn join_is_at_least()
    ensures { JoinIsAtLeast }
{}

/// A write changes nothing exactly where the state is at least that of the write alone.
pub fn at_least_one_write()
    ensures { AtLeastOneWrite }
{}

/// Whether a write changes a state is told by its time and tag.
pub fn new_changes()
    ensures { NewChanges }
{}
