// A case that asks `write`.
ghost use Rattle.std.specs.Prelude.{◌≡◌, ◌+◌, ◌*◌, ◌≤◌, length, IfOk};
ghost use Rattle.decimal.specs.Wrote.{Wrote};
ghost use Rattle.paper.specs.Bytes.{u16_at};
ghost use Rattle.paper.specs.File.{records, decoded};
ghost use Rattle.paper.specs.Write.{write_verdict, write_leaves};
ghost use Rattle.stream.specs.Case.{byte_marks};
ghost use Rattle.stream.specs.Layout.{written_of};

use crate::desk::{Cut, Desk, Most, PAGE};
use decimal::Pen;
use file::field::u16_at;
use std::io::Read;
use stream::case::{Case, boards_of};

// The bytes of a board, and those of volts and unit.
const BOARD: usize = 44;

const HEAD: usize = 4;

// The most bytes of the output, the most boards.
const MOST: Most = Most {
    room: 16400,
    first: 372 * BOARD,
    second: HEAD,
};

// All that the program does between reading and writing. n is the caller's quotient: else it would be divided again.
fn answer(out: &mut [u8], boards: &[u8], n: usize, head: &[u8], file: &mut [u8]) -> usize
    requires boards_len { (length boards.now ≡ 44 * n) × (n ≤ 372) }
    requires head_len { length head.now ≡ 4 }
    requires file_in_bounds { 28 + length file.old ≤ length out.old }
    ensures wrote { Wrote 0 (let volts = u16_at head.now 0 in let unit = u16_at head.now 2 in let bs = decoded (records n boards.now) in let room = length file.old in written_of (write_verdict volts unit bs room) (write_leaves volts unit bs (byte_marks room))) out.old out.new result }
    ensures upper_bound { result ≤ length out.old }
{
    stream::case::mark_bytes(file);
    let bs = boards_of(boards, n);
    let volts = u16_at(head, 0);
    let unit = u16_at(head, 2);
    let given = writer::write(volts, unit, &bs[..n], file);
    let mut pen = Pen { out, at: 0 };
    stream::written::put_written(&mut pen, given, file);
    pen.at
}

impl Desk {
    // How many bytes the answer has. Cut too where the first part is not whole boards, or the second not volts and unit.
    pub(crate) fn write<R: Read>(&mut self, stdin: &mut R, asked: Case) -> Result<usize, Cut>
        ensures { IfOk result (λ n. n ≤ PAGE) }
    {
        let first = asked.first;
        if first % BOARD != 0 || asked.second != HEAD {
            return Err(Cut);
        }
        self.read(stdin, asked, MOST)?;
        let (boards, head) = self.parts[..first + HEAD].split_at(first);
        let file = &mut self.file[..];
        let lent = &mut file[..asked.room];
        Ok(answer(&mut self.page, boards, first / BOARD, head, lent))
    }
}
