// Standard output as the cases' lines are written to it: what is put is held until there is no room for more, or until a flush.
ghost use Rattle.std.specs.Prelude.{◌≤◌};

use std::fmt;
use std::fmt::Write;
use std::io::{Print, Stdout};

const ROOM: usize = 4096;

// A write that fails is passed over: its bytes are let go, and putting bytes never fails.
#[derive(Drop)]
pub(crate) struct Printer {
    stdout: Stdout,
    held: [u8; ROOM],
    count: usize,
    ghost in_bounds: { count ≤ 4096 },
}

impl Printer {
    pub(crate) fn new(stdout: Stdout) -> Printer {
        Printer {
            stdout,
            held: [0; ROOM],
            count: 0,
        }
    }

    // Writes what is held.
    pub(crate) fn flush(&mut self) {
        let _ = self.stdout.write_all(&self.held[..self.count]);
        self.count = 0;
    }

    pub(crate) fn put(&mut self, bytes: &[u8]) {
        if ROOM - self.count < bytes.len() {
            self.flush();
        }
        let start = self.count;
        if ROOM - start < bytes.len() {
            let _ = self.stdout.write_all(bytes);
            return;
        }
        let end = start + bytes.len();
        self.held[start..end].copy_from_slice(bytes);
        self.count = end;
    }
}

impl Write for Printer {
    fn write_str(&mut self, s: &str) -> fmt::Result {
        self.put(s.as_bytes());
        Ok(())
    }
}
