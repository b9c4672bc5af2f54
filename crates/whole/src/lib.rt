// The two divisions that other crates use: rounded down, and to the nearest.
#![tactic(auto)]

ghost use Rattle.std.specs.Prelude.{◌≡◌, ◌≤◌, ◌<◌, pos, nat_abs, ◌≤ℤ◌};
ghost use Rattle.whole.specs.Bound.{Within, floor_div};
ghost use Rattle.whole.specs.Nearest.{nearest_natural};

// A leaf: x / d for d above 0, rounded toward minus infinity.
pub fn floor_div(x: i64, d: i64) -> i64
    requires within { Within 4611686018427387904 x }
    requires pos_bound { pos 1 ≤ℤ d }
    requires within_2 { Within 1048576 d }
    ensures { result ≡ floor_div x (nat_abs d) }
{
    // Not by div_euclid: its branch on the sign of x makes a step on the largest grid slower by 10 of 100.
    let q = x / d;
    if x % d < 0 { q - 1 } else { q }
}

// A leaf: n / d for d above 0, to the nearest whole number, the even one at a half.
pub fn nearest(n: u64, d: u64) -> u64
    requires d_nonzero { 0 < d }
    requires d_bound { d ≤ 9223372036854775808 }
    ensures { result ≡ nearest_natural n d }
{
    let q = n / d;
    // One test, which makes no branch: a match on their `cmp` is guessed wrong at every second rest, and an import then takes up to twice as long.
    if d < 2 * (n % d) + q % 2 { q + 1 } else { q }
}
