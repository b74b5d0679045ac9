//! Laws of times and their texts. Each function does nothing: its clause is the law.

ghost use Rattle.std.specs.Prelude.{◌≡◌};
ghost use Rattle.sw_timestamp.specs.Laws.{NormalTextReadsBack, ReadsAsOneTime, ReadsAsTime, TextsDiffer};

use crate::timestamp::GREATEST;

/// A text reads as one time at most.
pub fn reads_as_one_time()
    ensures { ReadsAsOneTime }
{}

/// [`GREATEST`] is 9999999999.99999 seconds.
pub fn greatest_time()
    ensures { GREATEST ≡ 999999999999999 }
{}

/// What a text reads as is a time: at most 9999999999.99999 seconds.
pub fn reads_as_time()
    ensures { ReadsAsTime }
{}

/// The normal form of a time reads as that time.
pub fn normal_text_reads_back()
    ensures { NormalTextReadsBack }
{}

/// Two times are written as two texts.
pub fn texts_differ()
    ensures { TextsDiffer }
{}
