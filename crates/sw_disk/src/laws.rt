//! Laws of disks and crashes. Each function does nothing: its clause is the law.

ghost use Rattle.sw_disk.specs.Laws.{AcknowledgedIsKept, BlankIsOrdered, CallsAreOutlasted, CrashesLeaveOrder, CrashesLeavePaths, EachAnswerIsAStep};
ghost use Rattle.sw_disk.specs.Laws.{EachIsLeft, EachMomentIsAStep, FoundIsKept, WhatMayStand};

/// The disk that a crash leaves is ordered, as one is on which nothing was ever made: so a start may follow. It is in order where it was at the crash.
pub fn a_start_may_follow()
    ensures crashes { CrashesLeaveOrder }
    ensures blank { BlankIsOrdered }
{}

/// A crash leaves at each path what is said of that path alone, and all that is said of one is left by some crash.
pub fn crashes_leave_what_is_said()
    ensures paths { CrashesLeavePaths }
    ensures each { EachIsLeft }
{}

/// What is found after a crash is there after each further one.
pub fn what_is_found_is_kept()
    ensures { FoundIsKept }
{}

/// A crash at any moment of a put or an unlink leaves a disk in order; there each file is whole that would have outlived each crash before, and of the one that
/// was set the old one or the new one.
pub fn calls_are_outlasted()
    ensures { CallsAreOutlasted }
{}

/// Each moment of a call, and each call that was answered, is a step of those that the further laws speak of.
pub fn calls_are_steps()
    ensures moments { EachMomentIsAStep }
    ensures answers { EachAnswerIsAStep }
{}

/// After any number of starts, calls, kills and crashes a start may follow, and at each path stands what may stand there: what the last call set that was
/// answered, or what one tried since.
pub fn what_may_stand()
    ensures { WhatMayStand }
{}

/// So what was acknowledged is kept over any number of them, as long as no further put or unlink of its path is tried.
pub fn what_was_acknowledged_is_kept()
    ensures { AcknowledgedIsKept }
{}
