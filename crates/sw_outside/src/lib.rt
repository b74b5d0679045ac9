//! Everything that a storage node takes from outside itself, as traits whose contracts say what may be relied on.
//!
//! A [`Source`] is where requests come from and a [`Sink`] where replies go. Each has three meanings that contracts see:
//! its content, which a source or sink in memory tells and a real one doesn't, how many calls there were, and how many of
//! them failed. A call counts once, whatever it answers, and one fault exactly where it failed. Code above is generic over
//! these traits and proved once: what it promises about content holds wherever the content is told, and what it says of
//! counts holds everywhere, since generic code can't raise a count by itself. A [`Clock`] is where the present moment
//! comes from: its meaning is the list of its readings to come, and it can't fail.
//!
//! The same crate has the byte string [`Bytes`], the list [`Sequence`] of any items, the errors [`NoMemory`] and [`Failed`],
//! the ends in memory that tests use, the plan of calls that fail ([`FailingCall`]), and the adapters over std's reader,
//! writer and clock. The next layer up is `sw_http`, which reads requests from a source.
#![tactic(auto)]

mod bytes;
mod clock;
mod doors;
mod errors;
mod failing_call;
mod host_clock;
mod mem_clock;
mod mem_doors;
mod mem_sink;
mod mem_source;
mod reader_source;
mod roll;
mod sequence;
mod sink;
mod sound_sink;
mod sound_source;
mod source;
mod store_error;
mod text;
mod writer_sink;

pub use bytes::Bytes;
pub use clock::Clock;
pub use doors::Doors;
pub use errors::{Failed, NoMemory};
pub use failing_call::{FailingCall, failure_of};
pub use host_clock::HostClock;
pub use mem_clock::MemClock;
pub use mem_doors::{MemConnection, MemDoors, MemFinished};
pub use mem_sink::{FailingPut, MemSink};
pub use mem_source::MemSource;
pub use reader_source::ReaderSource;
pub use roll::Roll;
pub use sequence::{Sequence, TryCopy};
pub use sink::Sink;
pub use sound_sink::SoundSink;
pub use sound_source::SoundSource;
pub use source::Source;
pub use store_error::StoreError;
pub use text::is_utf8;
pub use writer_sink::WriterSink;

/// A list of byte strings.
pub type BytesList = Sequence<Bytes>;
