// A case that asks `earth`.
ghost use Rattle.std.specs.Prelude.{◌≡◌, ◌+◌, ◌≤◌, length, IfOk};
ghost use Rattle.decimal.specs.Wrote.{Wrote};
ghost use Rattle.paper.specs.Return.{earth_said};
ghost use Rattle.stream.specs.Said.{said_of};
ghost use Rattle.verdict.specs.Said.{part_said};
ghost use Rattle.verdict.specs.Shown.{shown_bytes};

use crate::desk::{Cut, Desk, Most, PAGE};
use decimal::Pen;
use std::io::Read;
use stream::case::Case;

// There is no use for room. The most bytes of the network and of the label.
const MOST: Most = Most {
    room: 0,
    first: 16400,
    second: 64,
};

// All that the program does between reading and writing.
fn answer<'a>(out: &mut [u8], net: &'a [u8], label: &'a [u8]) -> usize
    requires net_len_bound { length net.now ≤ 16400 }
    requires label_len_bound { length label.now ≤ 64 }
    requires in_bounds { 24 + 16400 ≤ length out.old }
    ensures wrote { Wrote 0 (let s = earth_said net.now label.now in said_of s (shown_bytes net.now label.now (part_said s.shown))) out.old out.new result }
    ensures upper_bound { result ≤ length out.old }
{
    let given = return_path::earth(net, label);
    let part = verdict::said::part_said(given);
    let bytes = verdict::shown::shown(net, label, part);
    let mut pen = Pen { out, at: 0 };
    stream::said::put_said(&mut pen, given, bytes);
    pen.at
}

impl Desk {
    // How many bytes the answer has.
    pub(crate) fn earth<R: Read>(&mut self, stdin: &mut R, asked: Case) -> Result<usize, Cut>
        ensures { IfOk result (λ n. n ≤ PAGE) }
    {
        self.read(stdin, asked, MOST)?;
        let e = asked.first + asked.second;
        let (net, label) = self.parts[..e].split_at(asked.first);
        Ok(answer(&mut self.page, net, label))
    }
}
