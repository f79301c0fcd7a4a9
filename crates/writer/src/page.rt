// A network file written from a page of the call's own, on which its boards' records are laid down: judged there as the reader judges it, and copied out where all rules are kept and there is room.
ghost use Rattle.std.specs.Prelude.{◌≡◌, min, length};
ghost use Rattle.paper.specs.Chain.{Boards};
ghost use Rattle.paper.specs.Write.{head_bytes, write_verdict, write_leaves};
ghost use Rattle.decimal.specs.Wrote.{Room, Wrote};
ghost use Rattle.writer.specs.OnPage.{OnPage};
ghost use Rattle.writer.specs.Told.{told};

use crate::lay::put_head;
use decimal::Pen;
use file::field::SPACE;
use file::head::head_wrong;
use node::Node;
use paper::{Head, Lent, Part, Refusal, Rule, Written};
use records::judge;

// N as a head says it. More boards than it can say are too many as the most that it can say are (3).
fn said(n: usize) -> u16
    ensures { result ≡ min 65535 n }
{
    u16::try_from(n).unwrap_or(u16::MAX)
}

// The head, at the front of the page.
fn lay_head(page: &mut [u8], head: Head) -> usize
    requires { Room 0 (head_bytes head) page.old }
    ensures { Wrote 0 (head_bytes head) page.old page.new result }
{
    let mut pen = Pen { out: page, at: 0 };
    put_head(&mut pen, head);
    pen.at
}

// The file, at the front of the output.
fn copy_out(out: &mut [u8], file: &[u8])
    requires { Room 0 file.now out.old }
    ensures { Wrote 0 file.now out.old out.new (length file.now) }
{
    out[..file.len()].copy_from_slice(file);
}

// The file's length, or the first rule that is broken. What part a refusal says is nobody's: `write_page` has its own. volts and unit are two words, as in `write`.
fn written(
    volts: u16,
    unit: u16,
    n: usize,
    file: &mut [u8],
    out: &mut [u8],
) -> Result<usize, Refusal>
    requires { length file.old ≡ 11272 }
    ensures value { (bs : Boards) → OnPage bs n file.old → told result ≡ write_verdict volts unit bs (length out.old) }
    ensures out_after { (bs : Boards) → OnPage bs n file.old → out.new ≡ write_leaves volts unit bs out.old }
{
    let count = said(n);
    let head = Head {
        volts,
        unit,
        boards: count,
    };
    if head_wrong(head) {
        return Err(Refusal::at_the_front(Rule::HeadValues, Lent::NetworkBytes, 0));
    }
    lay_head(file, head);
    let len = 8 + 44 * n;
    let mut nodes = [Node::NONE; 256];
    let nobody = [SPACE; 12];
    judge(&file[..len], n, nobody, &mut nodes).outcome?;
    if out.len() < len {
        return Err(Refusal::at_the_front(Rule::ShortOutput, Lent::NetworkBytes, 0));
    }
    copy_out(out, &file[..len]);
    Ok(len)
}

// n boards were given; the page has the records of the first 256 of them, behind room for a head. The contract is said of whatever boards the page holds.
pub(crate) fn write_page(
    volts: u16,
    unit: u16,
    n: usize,
    file: &mut [u8],
    out: &mut [u8],
) -> Written
    requires { length file.old ≡ 11272 }
    ensures value { (bs : Boards) → OnPage bs n file.old → result ≡ write_verdict volts unit bs (length out.old) }
    ensures out_after { (bs : Boards) → OnPage bs n file.old → out.new ≡ write_leaves volts unit bs out.old }
{
    // No bytes were tested, so the part is empty.
    let part = Part::NONE;
    match written(volts, unit, n, file, out) {
        Ok(len) => Written {
            part,
            len,
            place: 0,
            number: 0,
        },
        Err(why) => Written {
            part,
            len: 0,
            place: why.place,
            number: why.number,
        },
    }
}
