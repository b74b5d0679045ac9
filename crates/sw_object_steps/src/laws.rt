//! Laws of outlines, of refusals, and of the rules of objects. Each function does nothing: its clause is the law.

ghost use Rattle.sw_object_steps.specs.Laws.{ObjectsAreRules};
ghost use Rattle.sw_object_steps.specs.OutlineLaws.{AllowedChanges, OutlineTells, TransferIsRefused};

/// The names of a state's files tell whether a write changes it.
pub fn outline_tells()
    ensures { OutlineTells }
{}

/// A write that isn't refused changes what stands.
pub fn allowed_changes()
    ensures { AllowedChanges }
{}

/// A transfer is refused exactly where its write would change nothing.
pub fn transfer_is_refused()
    ensures { TransferIsRefused }
{}

/// The rules of objects are rules.
pub fn objects_are_rules()
    ensures { ObjectsAreRules }
{}
