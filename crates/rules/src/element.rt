// A quadratic element: how many nodes and numbers it has, and what a node weighs. Leaves, for a node that is there.
ghost use Rattle.std.specs.Prelude.{◌≡◌, ◌<◌, pos};
ghost use Rattle.whole.specs.Bound.{Are};
ghost use Rattle.rules.specs.Field.{quadratic};

// Nodes each way; nodes; and an element's numbers in a field, which are its nodes' values and its remainder.
pub const SIDE: usize = 3;

pub const NODES: usize = 9;

pub const NUMBERS: usize = 10;

// The weight of place a along one direction, document 01's ω.
pub fn line_weight(a: usize) -> i64
    requires { a < 3 }
    ensures { Are 4 result (pos (quadratic.line_weight a)) }
{
    1 + 3 * ((a % 2) as i64)
}

// The weight of node k, for sums of signed values.
pub fn signed_weight(k: usize) -> i64
    requires { k < 9 }
    ensures { Are 16 result (pos (quadratic.weight k)) }
{
    line_weight(k % SIDE) * line_weight(k / SIDE)
}

// The weight of node k, for sums of values that are not negative.
pub fn node_weight(k: usize) -> u64
    requires { k < 9 }
    ensures { result ≡ quadratic.weight k }
{
    signed_weight(k).unsigned_abs()
}
