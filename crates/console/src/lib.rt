// What the programs share: network.bin or standard input is read, and a text is printed.
// A read that fails counts as the end of what is read: a missing file, or a directory, is an empty network. A write that fails is said on standard error, and
// the scripts at the top end with 1 then.
#![tactic(auto)]

ghost use Rattle.std.specs.Io.KnownBytes.{Appends, Consumes, Keeps};
ghost use Rattle.std.specs.Prelude.{◌≡◌, IsTrue, length, take};
ghost use Rattle.console.specs.Counts.{IsPrefixLen};
ghost use Rattle.console.specs.Limits.{file_most};

use std::fs;
use std::io::{Read, Write};
use std::rt::Files;

// What is read of the file at most: the longest that may be sound, and more, so that a longer one is refused and not cut to a sound one.
const FILE: usize = 16384;

// What may not change: its clause says that FILE is the paper's limit. An array of a program's own would say nothing of it.
pub fn file_space() -> [u8; FILE]
    ensures { file_most ≡ length result }
{
    [0; FILE]
}

// No `for` and no index counted by one: each read says how far it came.
// How many bytes were read: it ends where there is no room, the input ends, or a read fails. What a read that failed has put behind them is no part of them.
pub fn read_full<R: Read>(input: &mut R, space: &mut [u8]) -> usize
    ensures counted { IsPrefixLen result space.new }
    ensures bytes { Consumes (R.remaining input.old) (R.remaining input.new) (take result space.new) }
{
    let mut done = 0;
    while done < space.len() {
        match input.read(&mut space[done..]) {
            Ok(0) => return done,
            Ok(n) => done += n,
            Err(_) => return done,
        }
    }
    done
}

// How many bytes there are. A missing file counts as empty.
pub fn network<R: Files>(rt: &R, space: &mut [u8]) -> usize
    ensures { IsPrefixLen result space.new }
{
    match fs::open(rt, "network.bin") {
        Ok(mut file) => read_full(&mut file, space),
        Err(_) => 0,
    }
}

// A text to standard output; where it cannot be written, what is said of that. Whether it was written: no `Result`, which would be no plainer, since of the failure all is said here.
pub fn print<O: Write, E: Write>(out: &mut O, err: &mut E, text: &[u8], failed: &[u8]) -> bool
    ensures printed { IsTrue result → Appends (O.contents out.old) (O.contents out.new) text.now }
    ensures quiet { IsTrue result → Keeps (E.contents err.old) (E.contents err.new) }
{
    if out.write_all(text).is_ok() {
        return true;
    }
    let _ = err.write_all(failed);
    false
}

#[cfg(test)]
mod tests {
    use super::*;
    use std::io;
    use std::io::{Error, ErrorKind};

    // A byte a read, and then a failure.
    #[derive(Drop)]
    struct Drips {
        left: u8,
    }

    impl Read for Drips {
        fn read(&mut self, buf: &mut [u8]) -> io::Result<usize> {
            if self.left == 0 {
                return Err(Error::from(ErrorKind::Other));
            }
            if buf.is_empty() {
                return Ok(0);
            }
            buf[0] = self.left;
            self.left -= 1;
            Ok(1)
        }
    }

    // Takes a byte, and then nothing more.
    #[derive(Drop)]
    struct Full {
        has: bool,
    }

    impl Write for Full {
        fn write(&mut self, buf: &[u8]) -> io::Result<usize> {
            if self.has || buf.is_empty() {
                return Ok(0);
            }
            self.has = true;
            Ok(1)
        }

        fn flush(&mut self) -> io::Result<()> {
            Ok(())
        }
    }

    #[test]
    fn a_failed_read_is_the_end(rt: HostRuntime) {
        for (left, n, want) in [(0, 0, [0, 0, 0]), (2, 2, [2, 1, 0]), (5, 3, [5, 4, 3])] {
            let mut space = [0; 3];
            assert_eq!(rt; read_full(&mut Drips { left }, &mut space), n, "of {left}");
            assert_eq!(rt; space, want, "of {left}");
        }
    }

    #[test]
    fn a_failed_write_is_said(rt: HostRuntime) {
        let mut said = Vec::new(rt.alloc());
        assert!(rt; !print(&mut Full { has: false }, &mut said, b"HD", b"not written"));
        assert_eq!(rt; said.as_slice(), b"not written".as_slice());
    }

    #[test]
    fn a_text_is_written_and_nothing_said(rt: HostRuntime) {
        let mut out = Vec::new(rt.alloc());
        let mut said = Vec::new(rt.alloc());
        assert!(rt; print(&mut out, &mut said, b"HD", b"not written"));
        assert_eq!(rt; out.as_slice(), b"HD".as_slice());
        assert!(rt; said.is_empty());
    }
}
