// The tendency of one element, document 01's t(a, b), from its nine values, the winds of its four faces, and the products of these winds and the
// upwind values there.
// Every function here is a leaf: values are as small as the stages are, and winds within 1024.
#![tactic(auto)]

ghost use Rattle.std.specs.Prelude.{◌≡◌, ◌+◌, ◌*◌, ◌<◌, ◌*ℤ◌};
ghost use Rattle.whole.specs.Bound.{Within, AllWithin};
ghost use Rattle.whole.specs.Table.{table, at};
ghost use Rattle.rules.specs.Sizes.{stage_size};
ghost use Rattle.step_tendency.specs.Sizes.{product_size, line_size, LinesWithin};
ghost use Rattle.step_tendency.specs.Line.{place_sums, node_tendency, element_tendency};

use rules::element::{NODES, SIDE};
use std::array;

// A face as the lines of an element that end there meet it: its wind, and the products of the wind and the three upwind values at the face.
#[derive(Clone, Copy)]
pub struct Side {
    pub wind: i64,
    pub products: [i64; SIDE],
    ghost in_range: { Within 1024 wind },
    ghost small: { AllWithin product_size products },
}

// One of the two ways that an element's lines go: line b starts at step b and goes on by stride.
#[derive(Clone, Copy)]
struct Way {
    step: usize,
    stride: usize,
    ghost nodes_inside: { 2 * step + 2 * stride < 9 },
}

const EASTWARD: Way = Way {
    step: SIDE,
    stride: 1,
};

const NORTHWARD: Way = Way {
    step: 1,
    stride: SIDE,
};

// A wind, or the sum of two, times a value.
fn product(wind: i64, value: i64) -> i64
    requires wind_small { Within 2048 wind }
    requires value_small { Within stage_size value }
    ensures value { result ≡ wind *ℤ value }
    ensures small { Within product_size result }
{
    wind * value
}

// 4096 times what a line brings to the tendency at its three places, from the products of winds and values at its three nodes and at its two ends.
// E's numbers, the weights and the winds' shares are multiplied out: 1, 2 and 3 are left (`line-is`).
fn place_sums(first: i64, middle: i64, last: i64, first_end: i64, last_end: i64) -> [i64; SIDE]
    requires first_small { Within product_size first }
    requires middle_small { Within product_size middle }
    requires last_small { Within product_size last }
    requires first_end_small { Within product_size first_end }
    requires last_end_small { Within product_size last_end }
    ensures value { result ≡ place_sums first middle last first_end last_end }
    ensures small { AllWithin line_size result }
{
    [
        3 * (2 * first_end - first) + (last - 2 * middle),
        first - last,
        3 * (last - 2 * last_end) + (2 * middle - first),
    ]
}

// The three lines of an element that go one way: the element's nine values, and the sides where the lines begin and end.
#[derive(Clone, Copy)]
struct Lines<'a> {
    v: &'a [i64; NODES],
    first: Side,
    last: Side,
    way: Way,
    ghost values_small: { AllWithin stage_size v.now },
}

impl Lines<'_> {
    ghost use Rattle.step_tendency.specs.Lines.{line_of, lines_of};

    // What line b brings to the tendency at its three places.
    fn line(self, b: usize) -> [i64; SIDE]
        requires { b < 3 }
        ensures value { result ≡ line_of self.entry b }
        ensures small { AllWithin line_size result }
    {
        let Way { step, stride } = self.way;
        let start = step * b;
        let first = product(self.first.wind, self.v[start]);
        let middle = product(self.first.wind + self.last.wind, self.v[start + stride]);
        let last = product(self.last.wind, self.v[start + 2 * stride]);
        let first_end = self.first.products[b];
        let last_end = self.last.products[b];
        place_sums(first, middle, last, first_end, last_end)
    }

    // The same of its three lines.
    fn lines(self) -> [[i64; SIDE]; SIDE]
        ensures value { result ≡ lines_of self.entry }
        ensures small { LinesWithin line_size result }
    {
        [self.line(0), self.line(1), self.line(2)]
    }
}

// The tendency at node k, from the lines of both ways: one and the same shift at every node.
fn node_tendency(x: &[[i64; SIDE]; SIDE], y: &[[i64; SIDE]; SIDE], k: usize) -> i64
    requires x_small { LinesWithin line_size x.now }
    requires y_small { LinesWithin line_size y.now }
    requires k_bound { k < 9 }
    ensures { result ≡ node_tendency x.now y.now k }
{
    let a = k % SIDE;
    let b = k / SIDE;
    (x[b][a] + y[a][b]) >> 12
}

// The tendency at each node, from the element's values and its four sides.
pub fn tendencies(
    v: &[i64; NODES],
    west: Side,
    east: Side,
    south: Side,
    north: Side,
) -> [i64; NODES]
    requires { AllWithin stage_size v.now }
    ensures { result ≡ table 9 (element_tendency (at v.now) (at west.products) (at east.products) (at south.products) (at north.products) west.wind east.wind south.wind north.wind) }
{
    let x = Lines {
        v,
        first: west,
        last: east,
        way: EASTWARD,
    }
    .lines();
    let y = Lines {
        v,
        first: south,
        last: north,
        way: NORTHWARD,
    }
    .lines();
    array::from_fn(|k| node_tendency(&x, &y, k))
}
