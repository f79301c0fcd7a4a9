// A case that asks `solve`.
ghost use Rattle.std.specs.Prelude.{◌≡◌, ◌+◌, ◌*◌, ◌≤◌, length, IfOk};
ghost use Rattle.decimal.specs.Wrote.{Wrote};
ghost use Rattle.paper.specs.Answer.{verdict, written};
ghost use Rattle.stream.specs.Case.{marks};
ghost use Rattle.stream.specs.Layout.{bytes_of};
ghost use Rattle.verdict.specs.Shown.{shown_bytes};

use crate::desk::{Cut, Desk, Most, PAGE};
use decimal::Pen;
use std::io::Read;
use stream::case::Case;

// The most elements of the buffer, and the most bytes of the network and of the fault.
const MOST: Most = Most {
    room: 6400,
    first: 16400,
    second: 64,
};

// All that the program does between reading and writing. A part that is shown is no longer than the network or the fault.
fn answer<'a>(out: &mut [u8], net: &'a [u8], flt: &'a [u8], buffer: &mut [i64]) -> usize
    requires net_len_bound { length net.now ≤ 16400 }
    requires flt_len_bound { length flt.now ≤ 64 }
    requires buffer_len_bound { length buffer.old ≤ 6400 }
    requires buffer_in_bounds { 36 + 16400 + 8 * length buffer.old ≤ length out.old }
    ensures wrote { Wrote 0 (let a = verdict net.now flt.now (length buffer.old) in bytes_of a (shown_bytes net.now flt.now a.part) (written net.now flt.now (marks (length buffer.old)))) out.old out.new result }
    ensures upper_bound { result ≤ length out.old }
{
    stream::case::mark(buffer);
    let given = solve::solve(net, flt, buffer);
    let part = given.part;
    let bytes = verdict::shown::shown(net, flt, part);
    let mut pen = Pen { out, at: 0 };
    stream::solved::put_answer(&mut pen, given, bytes, buffer);
    pen.at
}

impl Desk {
    // How many bytes the answer has.
    pub(crate) fn solve<R: Read>(&mut self, stdin: &mut R, asked: Case) -> Result<usize, Cut>
        ensures { IfOk result (λ n. n ≤ PAGE) }
    {
        self.read(stdin, asked, MOST)?;
        let e = asked.first + asked.second;
        let (net, flt) = self.parts[..e].split_at(asked.first);
        let buffer = &mut self.buffer[..];
        let lent = &mut buffer[..asked.room];
        Ok(answer(&mut self.page, net, flt, lent))
    }
}
