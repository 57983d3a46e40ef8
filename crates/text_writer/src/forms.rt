// The forms that an answer is made of, each on its own line. A form begins with the line feed that ends the line before it, so that the brackets that
// close an answer stand on its last line.
ghost use Rattle.std.specs.Prelude.{◌≡◌, ◌+◌, ◌*◌, ◌≤◌, ◌<◌, ◌^◌, length};
ghost use Rattle.text_writer.specs.Puts.{Puts};
ghost use Rattle.text_writer.specs.Texts as Texts;

use crate::put::{put_all, put_digits, put_word, put_words};
use common::SOLVER_NODES;
use forward::Node;
use geom::Quat;

// A form of one count: what it begins with, the count in decimal, a bracket.
pub fn put_counted(b: &mut [u8], at: usize, head: &[u8], n: usize) -> usize
    requires { (at < 2 ^ 29) × (length head.now ≤ 64) }
    ensures { Puts b.old at (Texts.counted head.now n) (length head.now + 21) b.new result }
{
    let i = put_all(b, at, head);
    let j = put_digits(b, i, 20, n);
    put_all(b, j, b")")
}

// A row of c controls: row k of a packed decision.
fn put_row(b: &mut [u8], at: usize, z: &[f64], c: usize, k: usize) -> usize
    requires { (at < 2 ^ 29) × ((c ≤ 12) × (1 + k * c + c ≤ length z.now)) }
    ensures { Puts b.old at (Texts.row z.now c k) 211 b.new result }
{
    let i = put_all(b, at, b"\n (row");
    let j = put_words(b, i, z, 1 + k * c, c);
    put_all(b, j, b")")
}

// The 16 rows.
pub fn put_rows(b: &mut [u8], at: usize, z: &[f64], c: usize) -> usize
    requires { (at < 2 ^ 28) × ((c ≤ 12) × (1 + 16 * c ≤ length z.now)) }
    ensures { Puts b.old at (Texts.rows z.now c) 3376 b.new result }
{
    let mut i = at;
    for k in 0..16 {
        i = put_row(b, i, z, c, k);
    }
    i
}

// A form of one float: a path's duration.
pub fn put_duration(b: &mut [u8], at: usize, x: f64) -> usize
    requires { at < 2 ^ 29 }
    ensures { Puts b.old at (Texts.duration x) 29 b.new result }
{
    let i = put_all(b, at, b"\n (duration");
    let j = put_word(b, i, x);
    put_all(b, j, b")")
}

// Time, attitude, rate, torque, body momentum: the 14 floats that a node and a sample have.
pub fn state_of(t: f64, q: Quat, w: [f64; 3], tau: [f64; 3], h: [f64; 3]) -> [f64; 14]
    ensures { result ≡ Texts.state t q w tau h }
{
    [
        t, q.w, q.x, q.y, q.z, w[0], w[1], w[2], tau[0], tau[1], tau[2], h[0], h[1], h[2],
    ]
}

// A node's state, with the momenta of so many wheels.
fn put_node_line(b: &mut [u8], at: usize, state: &[f64], hw: &[f64], wheels: usize) -> usize
    requires { (at < 2 ^ 29) × ((wheels ≤ 8) × ((length state.now ≡ 14) × (length hw.now ≡ 8))) }
    ensures { Puts b.old at (Texts.node_line state.now hw.now wheels) 382 b.new result }
{
    let i = put_all(b, at, b"\n (node");
    let j = put_words(b, i, state, 0, 14);
    let k = put_words(b, j, hw, 0, wheels);
    put_all(b, k, b")")
}

// A node of a path.
fn put_node(b: &mut [u8], at: usize, node: Node, wheels: usize) -> usize
    requires { (at < 2 ^ 28) × (wheels ≤ 8) }
    ensures { Puts b.old at (Texts.node node wheels) 382 b.new result }
{
    let state = state_of(node.t, node.q, node.w, node.tau, node.h);
    put_node_line(b, at, &state, &node.hw, wheels)
}

// The 17 nodes.
pub fn put_nodes(b: &mut [u8], at: usize, nodes: [Node; SOLVER_NODES], wheels: usize) -> usize
    requires { (at < 2 ^ 27) × (wheels ≤ 8) }
    ensures { Puts b.old at (Texts.nodes nodes wheels) 6494 b.new result }
{
    let mut i = at;
    for node in &nodes {
        i = put_node(b, i, *node, wheels);
    }
    i
}
