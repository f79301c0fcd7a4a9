// A case of a stream of cases: its four numbers read, the boards that it brings decoded, and its buffers marked.
ghost use Rattle.std.specs.Prelude.{◌++◌, ◌≡◌, ◌+◌, ◌*◌, ◌-◌, ◌<◌, ◌≤◌, length, replicate};
ghost use Rattle.node.specs.Tables.{empty_board};
ghost use Rattle.paper.specs.File.{records, decoded};
ghost use Rattle.stream.specs.Case.{u32_at, case_of, marks, byte_marks};

use file::bytes::board_of;
use file::table::empty_board;
use paper::Board;

// What a case says of itself: the entry point that it asks, by its number as it was read, the room that it lends, the bytes of its first part and of its second.
// The entry may not become a name here: `case_of` (specs/Case) says the number, 0 and over 3 too; batch names it.
#[derive(Clone, Copy)]
pub struct Case {
    pub entry: usize,
    pub room: usize,
    pub first: usize,
    pub second: usize,
}

fn u32_at(s: &[u8], i: usize) -> usize
    requires { i + 3 < length s.now }
    ensures { result ≡ u32_at s.now i }
{
    u32::from_le_bytes([s[i], s[i + 1], s[i + 2], s[i + 3]]) as usize
}

pub fn case_of(s: &[u8]) -> Case
    requires { length s.now ≡ 16 }
    ensures { result ≡ case_of s.now }
{
    Case {
        entry: u32_at(s, 0),
        room: u32_at(s, 4),
        first: u32_at(s, 8),
        second: u32_at(s, 12),
    }
}

// The n boards that a case brings to be written, each as a board's record, and empty places behind them. Their marks are not looked at.
// A table with places behind the n, since nothing is allocated: who calls lends the first n on.
pub fn boards_of(s: &[u8], n: usize) -> [Board; 372]
    requires { (length s.now ≡ 44 * n) × (n ≤ 372) }
    ensures { result ≡ decoded (records n s.now) ++ replicate (372 - n) empty_board }
{
    let mut boards = [empty_board(); 372];
    for i in 0..n {
        let a = 44 * i;
        let e = a + 44;
        boards[i] = board_of(&s[a..e]);
    }
    boards
}

// Marks every element, so that one sees afterwards what was not written.
pub fn mark(buffer: &mut [i64])
    requires { length buffer.old ≤ 6400 }
    ensures { buffer.new ≡ marks (length buffer.old) }
{
    for (i, z) in buffer.iter_mut().enumerate() {
        let m = 1000003 * (i + 1);
        *z = m as i64;
    }
}

// Marks every byte. Of i its low byte alone counts, so that nothing wraps.
pub fn mark_bytes(out: &mut [u8])
    ensures { out.new ≡ byte_marks (length out.old) }
{
    for (i, b) in out.iter_mut().enumerate() {
        let m = (7 * (i % 256) + 3) % 256;
        *b = m as u8;
    }
}
