//! Laws of steps. Each function does nothing: its clause is the law.

ghost use Rattle.sw_step.specs.Laws.{EntersDoubtsAlone, KeepsHeld, KeepsItsKey, KeepsOthers, NoDoubtsTell, NothingToSettle};
ghost use Rattle.sw_step.specs.Plain.{CanMake, CanRefuse, CanStop};
ghost use Rattle.sw_step.specs.Rules.{RulesOf};

/// After a step its key stands for what the journal tells, with those of its doubts that were made: also where the step failed.
pub fn keeps_its_key<K, V, E, C, A>()
    ensures { (r : RulesOf K V E C A) → KeepsItsKey r }
{}

/// A step leaves each key out of its reach as it may have stood.
pub fn keeps_others<K, V, E, C, A>()
    ensures { (r : RulesOf K V E C A) → KeepsOthers r }
{}

/// And every other key may stand for what it held before the step, also where doubts of it were settled.
pub fn keeps_held<K, V, E, C, A>()
    ensures { (r : RulesOf K V E C A) → KeepsHeld r }
{}

/// A lock in order can make a step that isn't refused and for which there is room.
pub fn plain_can_make<K, V, E, C, A>()
    ensures { (r : RulesOf K V E C A) → CanMake r }
{}

/// It can stop at any of a step's changes, where a call failed: with that change made, or without it.
pub fn plain_can_stop<K, V, E, C, A>()
    ensures { (r : RulesOf K V E C A) → CanStop r }
{}

/// It can refuse a step that what stands refuses.
pub fn plain_can_refuse<K, V, E, C, A>()
    ensures { (r : RulesOf K V E C A) → CanRefuse r }
{}

/// What settling enters are doubts of the journal, each whole.
pub fn enters_doubts_alone<K, V, E, C, A>()
    ensures { (r : RulesOf K V E C A) → EntersDoubtsAlone r }
{}

/// Where nothing is in doubt settling changes nothing.
pub fn nothing_to_settle<K, V, E, C, A>()
    ensures { (r : RulesOf K V E C A) → NothingToSettle r }
{}

/// Where no doubt of a key is left, it stands for what its entries tell.
pub fn no_doubts_tell<K, V, E, C, A>()
    ensures { (r : RulesOf K V E C A) → NoDoubtsTell r }
{}
