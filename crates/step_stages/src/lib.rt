// The stages of a step by number: document 01's φ0, φ1, φ2 and, as stage 3, the tentative ψ, each a list of nine numbers an element; and
// the products of winds and upwind values at all faces of a stage.
// Every function here is a leaf: what is lent has its length, and its numbers are as small as the stages are.
#![tactic(auto)]

ghost use Rattle.std.specs.Prelude.{◌≡◌, ◌+◌, ◌*◌, ◌≤◌, ◌<◌, pos, ◌+ℤ◌, ◌*ℤ◌, length, get_or};
ghost use Rattle.whole.specs.Bound.{Within, Are, AllWithin, floor_div};
ghost use Rattle.whole.specs.Table.{table, blocks, at};
ghost use Rattle.rules.specs.Field.{quadratic, elements_length, faces};
ghost use Rattle.rules.specs.Sizes.{tendency_size, sum_size, earlier_sum_size};
ghost use Rattle.rules.specs.Stages.{stage0};
ghost use Rattle.rules.specs.Calls.{wind_at};
ghost use Rattle.step_upwind.specs.Upwind.{stage_length, listed, as_stage, face_product, face_products};
ghost use Rattle.step_stages.specs.Passes.{from_stage, factor, divisor, new_value, new_sums, row_sum};

use field_layout::Grid;
use rules::element::{NODES, NUMBERS, SIDE};
use step_grid::Row;
use step_upwind::{FaceProducts, Stage};

// The passes from a stage to the next one: from stage 0, from stage 1, and from stage 2.
#[derive(Clone, Copy)]
pub enum Pass {
    First,
    Second,
    Third,
}

impl Pass {
    // How often the stage's tendencies count in their sum: 1, 1, 4. Of a match that gives 1 or 4 the compiler makes a shift at every node in place of the
    // product (tried: the step was 3 % slower).
    pub fn factor(self) -> i64
        ensures { Are 4 result (pos (factor (from_stage self))) }
    {
        1 + 3 * (self as i64 / 2)
    }

    // A sum of tendencies by the stage's divisor, rounded down.
    fn divided(self, sum: i64) -> i64
        requires { Within sum_size sum }
        ensures { Are (sum_size + 1) result (floor_div sum (divisor (from_stage self))) }
    {
        match self {
            Pass::First => sum,
            Pass::Second => sum >> 2,
            Pass::Third => whole::floor_div(sum, 6),
        }
    }
}

// An element's stored values, as `field_elements::element::values` has them, but in place. Other slices are read by number, here and below: of what a
// zip with `iter_mut` has lent, a proof knows nothing afterwards.
fn store(values: &mut [i64], numbers: &[u32; NUMBERS])
    requires { length values.old ≡ 9 }
    ensures { values.new ≡ table 9 (λ k. pos (get_or numbers.now k 0)) }
{
    for (k, value) in values.iter_mut().enumerate() {
        *value = i64::from(numbers[k]);
    }
}

// Stage 0 of a tracer's part: its stored values.
pub fn start(stage: &mut [i64], part: &[u32], grid: Grid)
    requires stage_len { length stage.old ≡ stage_length grid.shape }
    requires part_len { elements_length quadratic grid.shape ≤ length part.now }
    ensures { stage.new ≡ listed (stage_length grid.shape) (stage0 quadratic part.now) }
{
    let n = grid.elements();
    let (elements, _) = part.as_chunks::<NUMBERS>();
    // What is written is lent by number, here and below: of what stands in parts that `chunks_exact_mut` or `as_chunks_mut` has lent, a proof
    // knows nothing afterwards.
    for (index, numbers) in elements[..n].iter().enumerate() {
        let start = index * NODES;
        let end = start + NODES;
        store(&mut stage[start..end], numbers);
    }
}

// The products at a row of faces.
fn row_products(products: &mut [i64], stage: Stage, index: usize)
    requires inside { index < 2 * stage.winds.grid.shape.ny }
    requires products_len { length products.old ≡ stage.winds.grid.shape.nx * 3 }
    ensures { products.new ≡ blocks stage.entry.winds.grid.shape.nx (λ i. table 3 (face_product stage.entry.winds.grid.shape (wind_at stage.entry.winds.wind.now) (as_stage stage.entry.phi.now) (index * stage.entry.winds.grid.shape.nx + i))) }
{
    let row = Row {
        grid: stage.winds.grid,
        index,
    };
    for column in 0..row.grid.shape.nx {
        let start = column * SIDE;
        let end = start + SIDE;
        products[start..end].copy_from_slice(&stage.products(row.face(column)));
    }
}

// The products at all faces, by rows: those of the east faces come first, then those of the north faces.
pub fn products(products: &mut [i64], stage: Stage)
    requires { length products.old ≡ faces stage.winds.grid.shape * 3 }
    ensures { products.new ≡ face_products stage.entry.winds.grid.shape (wind_at stage.entry.winds.wind.now) (as_stage stage.entry.phi.now) }
{
    let shape = stage.winds.grid.shape;
    let width = shape.nx * SIDE;
    for index in 0..2 * shape.ny {
        let start = index * width;
        let end = start + width;
        row_products(&mut products[start..end], stage, index);
    }
}

// An element's sums with `times` its tendencies t.
fn add(sums: &mut [i64], t: &[i64; NODES], times: i64)
    requires sums_len { length sums.old ≡ 9 }
    requires all_within { AllWithin earlier_sum_size sums.old }
    requires all_within_2 { AllWithin tendency_size t.now }
    requires within { Within 4 times }
    ensures { sums.new ≡ table 9 (λ k. at sums.old k +ℤ times *ℤ at t.now k) }
{
    for (k, sum) in sums.iter_mut().enumerate() {
        *sum += times * t[k];
    }
}

// The sums of a row of elements with `times` the tendencies of a stage.
fn add_row(sums: &mut [i64], from: FaceProducts, index: usize, times: i64)
    requires inside { index < from.stage.winds.grid.shape.ny }
    requires sums_len { length sums.old ≡ from.stage.winds.grid.shape.nx * 9 }
    requires all_within { AllWithin earlier_sum_size sums.old }
    requires within { Within 4 times }
    ensures { sums.new ≡ blocks from.entry.stage.winds.grid.shape.nx (λ i. table 9 (row_sum from.entry.stage.winds.grid.shape (wind_at from.entry.stage.winds.wind.now) times sums.old from.entry.stage.phi.now index i)) }
{
    let row = Row {
        grid: from.stage.winds.grid,
        index,
    };
    for column in 0..row.grid.shape.nx {
        let t = from.tendencies(row.element(column));
        let start = column * NODES;
        let end = start + NODES;
        add(&mut sums[start..end], &t, times);
    }
}

// The sums of all elements with the tendencies of a stage.
pub fn add_tendencies(sums: &mut [i64], from: FaceProducts, pass: Pass)
    requires sums_len { length sums.old ≡ stage_length from.stage.winds.grid.shape }
    requires all_within { AllWithin earlier_sum_size sums.old }
    ensures { sums.new ≡ listed (stage_length from.entry.stage.winds.grid.shape) (new_sums from.entry.stage.winds.grid.shape (wind_at from.entry.stage.winds.wind.now) (from_stage pass) sums.old from.entry.stage.phi.now) }
{
    let shape = from.stage.winds.grid.shape;
    let width = shape.nx * NODES;
    let times = pass.factor();
    for index in 0..shape.ny {
        let start = index * width;
        let end = start + width;
        add_row(&mut sums[start..end], from, index, times);
    }
}

// An element's values of the next stage, from its stored values and its sums.
fn set(values: &mut [i64], numbers: &[u32; NUMBERS], sums: &[i64; NODES], pass: Pass)
    requires values_len { length values.old ≡ 9 }
    requires sums_small { AllWithin sum_size sums.now }
    ensures { values.new ≡ table 9 (λ k. new_value (from_stage pass) (pos (get_or numbers.now k 0)) (at sums.now k)) }
{
    for (k, value) in values.iter_mut().enumerate() {
        *value = i64::from(numbers[k]) + pass.divided(sums[k]);
    }
}

// The values of the next stage. Nothing reads the last one's any more, so that the next ones are written over them.
pub fn set_values(values: &mut [i64], part: &[u32], sums: &[i64], grid: Grid, pass: Pass)
    requires values_len { length values.old ≡ stage_length grid.shape }
    requires part_len { elements_length quadratic grid.shape ≤ length part.now }
    requires sums_len { length sums.now ≡ stage_length grid.shape }
    requires sums_small { AllWithin sum_size sums.now }
    ensures { values.new ≡ listed (stage_length grid.shape) (λ e k. new_value (from_stage pass) (stage0 quadratic part.now e k) (as_stage sums.now e k)) }
{
    let n = grid.elements();
    let (elements, _) = part.as_chunks::<NUMBERS>();
    let (all_sums, _) = sums.as_chunks::<NODES>();
    for (index, numbers) in elements[..n].iter().enumerate() {
        let start = index * NODES;
        let end = start + NODES;
        set(&mut values[start..end], numbers, &all_sums[index], pass);
    }
}
