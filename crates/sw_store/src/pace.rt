use std::io;
use std::io::ErrorKind;
use std::time::{Clock, Duration};

/// What is asked of a client, so that none holds up the next one for ever.
#[derive(Clone, Copy, Debug)]
pub struct Patience {
    /// How long is waited for a first byte, and then for so many as follow. A request that is whole by then may have fewer.
    pub time: Duration,
    /// How many bytes have to move in that time. Where they did, the time begins anew.
    pub bytes: usize,
}

impl Patience {
    /// A minute for 64 KiB.
    pub fn of_a_minute() -> Patience {
        Patience {
            time: Duration::from_secs(60),
            bytes: 65536,
        }
    }
}

/// How many milliseconds longer than what is left a wait may be, so that a socket isn't told anew before each read.
const GRAIN: u64 = 100;

/// How the bytes of a client move at one end of its connection.
#[derive(Debug, Drop)]
pub(crate) struct Pace {
    patience: Patience,
    /// When the time began and how many bytes moved since, once a first one did.
    begun: Option<(Duration, usize)>,
    /// How long the socket waits.
    wait: Duration,
}

impl Pace {
    /// The pace of an end whose socket waits for this time.
    pub fn new(patience: Patience) -> Pace {
        Pace {
            patience,
            begun: None,
            wait: patience.time,
        }
    }

    /// Begins anew: the next byte is a first one.
    pub fn begin(&mut self) {
        self.begun = None;
    }

    /// How long the socket may wait now, where it has to be told: an error where nothing is left.
    pub fn wait<C: Clock>(&mut self, clock: &C) -> io::Result<Option<Duration>> {
        let left = self.left(clock)?;
        if left.is_zero() {
            return Err(io::Error::from(ErrorKind::TimedOut));
        }
        if left <= self.wait && self.wait.saturating_sub(left) < Duration::from_millis(GRAIN) {
            return Ok(None);
        }
        self.wait = left;
        Ok(Some(left))
    }

    fn left<C: Clock>(&self, clock: &C) -> io::Result<Duration> {
        match self.begun {
            Some((begun, _)) => {
                let gone = clock.monotonic()?.saturating_sub(begun);
                Ok(self.patience.time.saturating_sub(gone))
            }
            None => Ok(self.patience.time),
        }
    }

    /// So many bytes have moved.
    pub fn moved<C: Clock>(&mut self, clock: &C, count: usize) -> io::Result<()> {
        let now = clock.monotonic()?;
        let (begun, before) = self.begun.unwrap_or((now, 0));
        let all = before.saturating_add(count);
        self.begun = if all < self.patience.bytes {
            Some((begun, all))
        } else {
            Some((now, 0))
        };
        Ok(())
    }
}
