// Of every board of a network, where its own label and its feeder's first stand; and where a label that is asked for does.
ghost use Rattle.std.specs.Prelude.{◌≡◌, ◌+◌, ◌*◌, ◌≤◌, length, replicate};
ghost use Rattle.paper.specs.File.{head_of, boards_of};
ghost use Rattle.label.specs.Places.{no_place, spelt_at, places_with, found_in};

use crate::case::{board_in_capitals, in_capitals};
use crate::search::find;
use file::bytes::board_of;
use file::table::empty_board;
use paper::Board;

// Of a board: the first place of its own label, and that of its feeder's (0: none).
// 0 as the paper's `place_of` has it; an Option would leave a gap in each of a table that is cleared in one go (docs/DECISIONS.md, 60, of nodes).
#[derive(Clone, Copy)]
pub struct Place {
    pub own: u16,
    pub fed: u16,
}

// What a search among a network's records gives: every record's own and feeder's place, and that of the label that is asked for (0: none). Tables have 256 places whatever N is: nothing is allocated here or above.
// Of the label too 0 as the paper's `place_of` has it.
#[derive(Clone, Copy)]
pub struct Found {
    pub places: [Place; 256],
    pub asked: u16,
}

// Of every board of the slice, among all of them, into a table that says no place: the slice is entered once. The table is lent, since one that is handed back is copied once more.
pub(crate) fn find_all(boards: &[Board], places: &mut [Place; 256])
    requires { (length boards.now ≤ 256) × (places.old ≡ replicate 256 no_place) }
    ensures { places.new ≡ places_with spelt_at boards.now }
{
    for (j, b) in boards.iter().enumerate() {
        // The feeder first: with the own label first `batch` took a third longer for 256 boards (docs/SPEED.md, "How a loop lies").
        let fed = find(boards, b.feeder) as u16;
        let own = find(boards, b.label) as u16;
        places[j] = Place { own, fed };
    }
}

// n stays beside net: no plainer as one type, which `network::read` and `written` (`writer`) would build of the two for this, `judge` and `judge_all` to take apart.
// The boards stay here: decoded in capitals, and searched. One function fills the table and lends it: a table that is passed is copied, so this loop is no twin to share with `stream::case::boards_of`, which hands its own on.
pub fn places_in(net: &[u8], n: usize, label: [u8; 12]) -> Found
    requires { (n ≡ (head_of net.now).boards) × (n ≤ 256) × (length net.now ≡ 8 + 44 * n) }
    ensures { result ≡ found_in (boards_of net.now) label }
{
    let mut boards = [empty_board(); 256];
    for i in 0..n {
        let a = 8 + 44 * i;
        let e = a + 44;
        boards[i] = board_in_capitals(board_of(&net[a..e]));
    }
    let searched = &boards[..n];
    let mut places = [Place { own: 0, fed: 0 }; 256];
    find_all(searched, &mut places);
    let asked = find(searched, in_capitals(label)) as u16;
    Found { places, asked }
}
