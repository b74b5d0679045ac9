use std::alloc::{AllocError, Global};
use std::cell::{Cell, RefCell};
use std::io;
use std::io::{ErrorKind, Write};
use std::test::Fail;
use std::time::{Clock, Duration};
use sw_store::{HostCall, LineNotes, Notes};

/// A clock that is set by hand.
#[derive(Drop)]
struct SetClock {
    millis: Cell<u64>,
}

impl Clock for SetClock {
    fn monotonic(&self) -> io::Result<Duration> {
        Ok(Duration::from_millis(self.millis.get()))
    }

    fn since_1970(&self) -> io::Result<Duration> {
        Err(io::Error::from(ErrorKind::Unsupported))
    }
}

/// What was written.
#[derive(Drop)]
struct Page {
    text: RefCell<Vec<u8>>,
}

impl Page {
    fn new(alloc: Global) -> Page {
        Page {
            text: RefCell::new(Vec::new(alloc)),
        }
    }

    fn is(&self, wanted: &str) -> bool {
        match self.text.try_borrow() {
            Ok(text) => text.as_slice() == wanted.as_bytes(),
            Err(_) => false,
        }
    }
}

impl Write for &Page {
    fn write(&mut self, buf: &[u8]) -> io::Result<usize> {
        if let Ok(mut text) = self.text.try_borrow_mut() {
            text.extend_from_slice(buf).map_err(AllocError::from)?;
        }
        Ok(buf.len())
    }

    fn flush(&mut self) -> io::Result<()> {
        Ok(())
    }
}

/// The moments at which a fault comes, in milliseconds.
const MOMENTS: [u64; 5] = [10, 500, 1009, 1010, 1500];

#[test]
fn faults_are_told_by_a_line_in_each_second(rt: HostRuntime) -> Result<(), Fail> {
    let clock = SetClock {
        millis: Cell::new(0),
    };
    let page = Page::new(rt.alloc());
    let notes = LineNotes::new(&page, &clock);
    notes.tell();
    let full = io::Error::from_raw_os_error(28);
    notes.keep(HostCall::Read, "what is told of no fault", &full);
    for moment in MOMENTS {
        clock.millis.set(moment);
        notes.keep(HostCall::SyncFile, "swc-data/0/03/tmp/put-1-2", &full);
        notes.tell();
        notes.tell();
    }
    notes.tell_left_out();
    notes.tell_left_out();
    assert!(rt;
        page.is(
            "sw: sync file swc-data/0/03/tmp/put-1-2: No space left on device (os error 28)\n\
         sw: sync file swc-data/0/03/tmp/put-1-2: No space left on device (os error 28); 2 more before it\n\
         sw: faults of the host left out: 1\n"
        )
    );
    Ok(())
}

#[test]
fn why_the_command_ends_is_told_at_once(rt: HostRuntime) -> Result<(), Fail> {
    let clock = SetClock {
        millis: Cell::new(0),
    };
    let page = Page::new(rt.alloc());
    let notes = LineNotes::new(&page, &clock);
    let full = io::Error::from_raw_os_error(28);
    for _ in 0..3 {
        notes.keep(HostCall::SyncFile, "swc-data/0/03/tmp/put-1-2", &full);
        notes.tell();
    }
    let many = io::Error::from_raw_os_error(24);
    notes.keep(HostCall::Accept, "127.0.0.1", &many);
    notes.tell_now();
    notes.tell_now();
    notes.tell_left_out();
    assert!(rt;
        page.is(
            "sw: sync file swc-data/0/03/tmp/put-1-2: No space left on device (os error 28)\n\
         sw: accept at 127.0.0.1: Too many open files (os error 24); 2 more before it\n"
        )
    );
    Ok(())
}
