// Reading into a lent buffer, as far as it and the input reach.
#![tactic(auto)]

ghost use Rattle.std.specs.Prelude.{take};
ghost use Rattle.std.specs.Io.KnownBytes.{Consumes};
ghost use Rattle.input.specs.Counts.{IsPrefixLen};

use std::fs::File;
use std::io::Read;
use std::rt::Files;

// Reads until the buffer is full, the input ends or a read fails, and gives how many bytes stand at the buffer's start: the first that the reader had.
// A read that a signal interrupts counts as one that fails. With no room nothing is read. A loop, since `read_to_end` promises little of the bytes
// before a read that fails.
pub fn read_full<R: Read>(reader: &mut R, buf: &mut [u8]) -> usize
    ensures within { IsPrefixLen result buf.new }
    ensures bytes { Consumes (R.remaining reader.old) (R.remaining reader.new) (take result buf.new) }
{
    let mut done = 0;
    while done < buf.len() {
        match reader.read(&mut buf[done..]) {
            Ok(n) if n > 0 => done += n,
            _ => break,
        }
    }
    done
}

// Reads the start of the file at the path: no bytes where it is missing or cannot be opened; where reading fails, the bytes so far.
pub fn read_start(files: &impl Files, path: &str, buf: &mut [u8]) -> usize
    ensures within { IsPrefixLen result buf.new }
{
    match File::open(files, path) {
        Ok(mut file) => read_full(&mut file, buf),
        Err(_) => 0,
    }
}

#[cfg(test)]
mod tests {
    use super::*;
    use std::io;
    use std::test::Fail;

    // Gives a byte a read, so many times, and then fails.
    #[derive(Drop)]
    struct Failing {
        left: u8,
    }

    impl Read for Failing {
        fn read(&mut self, buf: &mut [u8]) -> io::Result<usize> {
            if self.left == 0 {
                return Err(io::Error::from(io::ErrorKind::Other));
            }
            if buf.is_empty() {
                return Ok(0);
            }
            self.left -= 1;
            buf[0] = b'x';
            Ok(1)
        }
    }

    #[test]
    fn reads_till_the_end(rt: HostRuntime) {
        let text: [u8; 5] = *b"abcde";
        for (room, want) in [(0, 0), (3, 3), (5, 5), (8, 5)] {
            let mut buf = [0u8; 8];
            let mut left = text.as_slice();
            let n = read_full(&mut left, &mut buf[..room]);
            assert_eq!(rt; n, want, "room for {room}");
            assert_eq!(rt; left.len(), 5 - want, "room for {room}");
            for i in 0..n {
                assert_eq!(rt; buf[i], text[i], "room for {room}");
            }
        }
    }

    #[test]
    fn reads_till_a_failure(rt: HostRuntime) {
        let mut buf = [0u8; 8];
        let n = read_full(&mut Failing { left: 3 }, &mut buf);
        assert_eq!(rt; n, 3);
        assert_eq!(rt; buf, *b"xxx\0\0\0\0\0");
    }

    #[test]
    fn no_file(rt: HostRuntime) {
        let mut buf = [0u8; 8];
        assert_eq!(rt; read_start(&rt, "no such file", &mut buf), 0);
        assert_eq!(rt; read_start(&rt, "/", &mut buf), 0, "a folder");
    }
}
