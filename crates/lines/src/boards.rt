// The lines of the boards, written into a lent buffer.
ghost use Rattle.std.specs.Prelude.{◌≡◌, ◌+◌, ◌*◌, ◌≤◌, length, take, drop};
ghost use Rattle.decimal.specs.Writing.{Fits, Writes};
ghost use Rattle.paper.specs.File.{head_of, board_of, boards_of};
ghost use Rattle.lines.specs.Boards.{board_lying, boards_lying};

use crate::name::letters;
use crate::put_phases;
use decimal::Pen;
use file::bytes::board_of;

// A board's numbers as they lie: three phases of voltages, three of currents.
fn put_board(pen: &mut Pen<'_>, l: [u8; 12], zs: &[i64])
    requires in_bounds { 24 ≤ length zs.now }
    requires room { Fits (board_lying l zs.now) pen.old }
    ensures { Writes (board_lying l zs.now) pen.old pen.new }
{
    let n = letters(l);
    let whose = &l[..n];
    put_phases(pen, whose, b" V ", zs);
    put_phases(pen, whose, b" I ", &zs[12..]);
}

// The label in a board's record, boards counted from 0.
fn label_of(net: &[u8], i: usize) -> [u8; 12]
    requires { 8 + 44 * i + 44 ≤ length net.now }
    ensures { result ≡ (board_of (take 44 (drop (8 + 44 * i) net.now))).label }
{
    let from = 8 + 44 * i;
    let to = from + 44;
    let board = board_of(&net[from..to]);
    board.label
}

// The numbers stand behind D and the fault currents. No plainer with net and n as one type: `text` would build it for this call alone.
pub fn put_boards(pen: &mut Pen<'_>, net: &[u8], n: usize, zs: &[i64])
    requires n_value { n ≡ (head_of net.now).boards }
    requires net_len { length net.now ≡ 8 + 44 * n }
    requires n_in_bounds { 13 + 24 * n ≤ length zs.now }
    requires room { Fits (boards_lying (boards_of net.now) (drop 13 zs.now)) pen.old }
    ensures { Writes (boards_lying (boards_of net.now) (drop 13 zs.now)) pen.old pen.new }
{
    for i in 0..n {
        let l = label_of(net, i);
        put_board(pen, l, &zs[13 + 24 * i..]);
    }
}
