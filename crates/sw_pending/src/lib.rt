//! Records of updates: which write of an object its container has to be told of, and which of the container's devices have
//! been told.
//!
//! A [`Filed`] names the object and the time, and lists the devices that are done. It is found by its [`RecordKey`], which
//! says where its file is: [`folder`] and [`write_name`] give the file's folder and name, and [`read_name`] takes exactly
//! these names. [`encode`] gives the one text of a record, and [`decode`] takes exactly these texts: what isn't one is
//! refused with the first of three faults that holds, and nothing is refused else but for want of memory ([`laws`]).
//!
//! The next layer up is `sw_pending_dir`, which keeps their files on a volume.
#![tactic(auto)]

mod devices;
mod filed;
mod key;
pub mod laws;
mod marking;
mod reading;
mod writing;

pub use filed::{DeviceList, Filed};
pub use key::{FOLDER_LENGTH, NAME_ROOM, RecordKey, folder, read_name, write_name};
pub use reading::decode;
pub use writing::encode;
