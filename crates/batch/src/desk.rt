// What is lent again for every case.
ghost use Rattle.std.specs.Prelude.{◌≡◌, ◌+◌, ◌≤◌, OnOk};

use std::io;
use std::io::Read;
use stream::case::Case;

// The longest network, and the longest fault or label. Boards to be written, and volts and unit, are shorter.
pub(crate) const PARTS: usize = 16464;

pub(crate) const BUFFER: usize = 6400;

pub(crate) const FILE: usize = 16400;

// An answer of `solve` with the longest network shown and the largest buffer, 36 + 16400 + 8 * 6400; the others' are shorter.
pub(crate) const PAGE: usize = 67636;

// A case's two parts, the buffer of one that solves, the output of one that writes, and its answer's bytes.
#[derive(Drop)]
pub(crate) struct Desk {
    pub(crate) parts: [u8; PARTS],
    pub(crate) buffer: [i64; BUFFER],
    pub(crate) file: [u8; FILE],
    pub(crate) page: [u8; PAGE],
}

// A case is not whole, or is none that is answered here; or its answer could not be written.
#[derive(Clone, Copy)]
pub(crate) struct Cut;

impl From<io::Error> for Cut {
    fn from(_: io::Error) -> Cut {
        Cut
    }
}

// The most that a case may say: the room that it lends, the bytes of its two parts.
#[derive(Clone, Copy)]
pub(crate) struct Most {
    pub(crate) room: usize,
    pub(crate) first: usize,
    pub(crate) second: usize,
}

impl Desk {
    // Both parts, of a case that says no more than it may.
    pub(crate) fn read<R: Read>(
        &mut self,
        stdin: &mut R,
        asked: Case,
        most: Most,
    ) -> Result<(), Cut>
        requires { most.first + most.second ≤ PARTS }
        ensures room { OnOk result (asked.room ≤ most.room) }
        ensures first { OnOk result (asked.first ≤ most.first) }
        ensures second { OnOk result (asked.second ≤ most.second) }
    {
        if most.room < asked.room || most.first < asked.first || most.second < asked.second {
            return Err(Cut);
        }
        let e = asked.first + asked.second;
        if console::read_full(stdin, &mut self.parts[..e]) < e {
            return Err(Cut);
        }
        Ok(())
    }
}
