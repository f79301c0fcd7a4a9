// The twelve turns t⁰ to t¹¹, in a table, and any number turned, which takes no product.
ghost use Rattle.std.specs.Prelude.{◌≡◌, ◌%◌};
ghost use Rattle.turn.specs.Number.{power_n, turn_n};
ghost use Rattle.turn.specs.Bounds.{Addable};

use turn::Num;

// The table: row n is tⁿ. `turn` does not read it: that would be a product, of sixteen multiplications.
const TURNS: [[i64; 4]; 12] = [
    [1, 0, 0, 0],
    [0, 1, 0, 0],
    [0, 0, 1, 0],
    [0, 0, 0, 1],
    [-1, 0, 1, 0],
    [0, -1, 0, 1],
    [-1, 0, 0, 0],
    [0, -1, 0, 0],
    [0, 0, -1, 0],
    [0, 0, 0, -1],
    [1, 0, -1, 0],
    [0, 1, 0, -1],
];

// Which of the twelve n turns come to. As 16 is 4 more than 12, 16 q + r turns come to 4 q + r: shifts and sums, where a remainder by 12 would be compiled to a multiplication.
fn hour(n: usize) -> usize
    ensures { result ≡ n % 12 }
{
    let mut m = n;
    // no index is counted: what is left shrinks to a quarter and less than 16 each time
    while m > 15 {
        let q = m / 16;
        m = q + q + q + q + m % 16;
    }
    if m < 12 { m } else { m - 12 }
}

// tⁿ, from the table.
pub fn row(n: usize) -> Num
    ensures { result ≡ power_n n }
{
    let [x0, x1, x2, x3] = TURNS[hour(n)];
    Num { x0, x1, x2, x3 }
}

// No plainer written out: each line of the match would be four.
fn number(x0: i64, x1: i64, x2: i64, x3: i64) -> Num
    ensures { result ≡ record { x0 = x0; x1 = x1; x2 = x2; x3 = x3 } }
{
    Num { x0, x1, x2, x3 }
}

// n twelfths of a turn forward: the four coordinates and two sums of them, moved about and signed. Where n is a literal, the compiler keeps its line alone.
pub fn turn(a: Num, n: usize) -> Num
    requires { Addable a }
    ensures { result ≡ turn_n n a }
{
    let Num {
        x0: a0,
        x1: a1,
        x2: a2,
        x3: a3,
    } = a;
    let s = a0 + a2;
    let u = a1 + a3;
    let n0 = -a0;
    let n1 = -a1;
    let n2 = -a2;
    let n3 = -a3;
    let ns = -s;
    let nu = -u;
    match hour(n) {
        0 => number(a0, a1, a2, a3),
        1 => number(n3, a0, u, a2),
        2 => number(n2, n3, s, u),
        3 => number(nu, n2, a1, s),
        4 => number(ns, nu, a0, a1),
        5 => number(n1, ns, n3, a0),
        6 => number(n0, n1, n2, n3),
        7 => number(a3, n0, nu, n2),
        8 => number(a2, a3, ns, nu),
        9 => number(u, a2, n1, ns),
        10 => number(s, u, n0, n1),
        _ => number(a1, s, a3, n0),
    }
}
