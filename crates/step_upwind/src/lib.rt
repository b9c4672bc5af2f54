// Upwind values, their products with the winds, and the tendencies of one element of the grid, of a stage under the winds that carry it.
// Every function here is a leaf: the element is on the grid, as the face is, and either is of the winds' grid.
#![tactic(auto)]

ghost use Rattle.std.specs.Prelude.{◌≡◌, cond, ◌+◌, ◌*◌, ◌<◌, ◌*ℤ◌, length};
ghost use Rattle.whole.specs.Bound.{Within, Are, AllWithin};
ghost use Rattle.whole.specs.Table.{table, at};
ghost use Rattle.rules.specs.Field.{quadratic, elements, faces};
ghost use Rattle.rules.specs.Grid.{looks_east, behind, ahead};
ghost use Rattle.rules.specs.Sizes.{most_elements, stage_size};
ghost use Rattle.rules.specs.Stages.{tendency};
ghost use Rattle.rules.specs.Calls.{wind_at};
ghost use Rattle.step_tendency.specs.Sizes.{product_size};
ghost use Rattle.step_upwind.specs.Upwind.{stage_length, as_stage, WindsInRange, sign, upwind_start, face_product, face_products};

use field_layout::Grid;
use rules::element::{NODES, SIDE};
use std::array;
use step_grid::{Element, Face};
use step_tendency::Side;

// The winds of a grid's faces, each in its range.
#[derive(Clone, Copy)]
pub struct Winds<'a> {
    pub wind: &'a [i16],
    pub grid: Grid,
    ghost in_range: { WindsInRange grid.shape wind.now },
}

impl Winds<'_> {
    // The wind of a face.
    fn at_face(self, face: usize) -> i64
        requires { face < faces self.grid.shape }
        ensures { Are 1024 result (wind_at self.entry.wind.now face) }
    {
        i64::from(self.wind[face])
    }
}

// 0 for a wind that is not negative, else -1.
fn sign(c: i64) -> i64
    ensures { Are 1 result (sign c) }
{
    if c >= 0 { 0 } else { -1 }
}

// Where the upwind values of a face begin in a stage: in the element behind it where the wind is not negative, else in the one ahead.
// Computed from the sign: a branch here would be guessed wrong at every second face of a wind that often turns.
// By `as`: std has no `From` between usize and i64, and Rattle proves that nothing is lost.
pub fn upwind_start(c: i64, behind: usize, ahead: usize, last: usize) -> usize
    requires behind_lt_most_elements { behind < most_elements }
    requires ahead_lt_most_elements { ahead < most_elements }
    requires last_bound { last < 9 }
    ensures { result ≡ upwind_start c behind ahead last }
{
    let in_behind = (behind * NODES + last) as i64;
    let in_ahead = (ahead * NODES) as i64;
    (in_behind + sign(c) * (in_behind - in_ahead)) as usize
}

// A line of nodes: its first one, and how much further the next one stands.
#[derive(Clone, Copy)]
struct Line {
    start: usize,
    stride: usize,
}

// The line of nodes at a face, in the element behind: at its east side, or at its north side.
fn line_behind(face: Face) -> Line
    ensures start { result.start ≡ cond (looks_east face.grid.shape face.index) 2 6 }
    ensures stride { result.stride ≡ cond (looks_east face.grid.shape face.index) 3 1 }
{
    if face.looks_east() {
        Line {
            start: SIDE - 1,
            stride: SIDE,
        }
    } else {
        Line {
            start: NODES - SIDE,
            stride: 1,
        }
    }
}

// The line of a stage that has a face's upwind values, where its wind is c.
fn upwind_line(c: i64, face: Face) -> Line
    ensures start { result.start ≡ upwind_start c (behind face.grid.shape face.index) (ahead face.grid.shape face.index) (cond (looks_east face.grid.shape face.index) 2 6) }
    ensures stride { result.stride ≡ cond (looks_east face.grid.shape face.index) 3 1 }
    ensures room { result.start + 2 * result.stride < stage_length face.grid.shape }
{
    let (behind, ahead) = face.ends();
    let Line { start, stride } = line_behind(face);
    Line {
        start: upwind_start(c, behind, ahead, start),
        stride,
    }
}

// A stage under the winds that carry it: nine numbers an element, each as small as the stages are. A stage is lent for a pass, the winds for
// the whole step: hence two lifetimes.
#[derive(Clone, Copy)]
pub struct Stage<'s, 'w> {
    pub phi: &'s [i64],
    pub winds: Winds<'w>,
    ghost all_nodes: { length phi.now ≡ stage_length winds.grid.shape },
    ghost small: { AllWithin stage_size phi.now },
}

impl<'s> Stage<'s, '_> {
    // The product of a wind and the value at place r of a line.
    fn product(self, c: i64, line: Line, r: usize) -> i64
        requires wind { Within 1024 c }
        requires room { line.start + 2 * line.stride < length self.phi.now }
        requires place { r < 3 }
        ensures { result ≡ c *ℤ at self.entry.phi.now (line.start + line.stride * r) }
    {
        c * self.phi[line.start + line.stride * r]
    }

    // The products of a face's wind and its three upwind values.
    pub fn products(self, face: Face) -> [i64; SIDE]
        requires { face.grid.shape ≡ self.winds.grid.shape }
        ensures { result ≡ table 3 (face_product self.entry.winds.grid.shape (wind_at self.entry.winds.wind.now) (as_stage self.entry.phi.now) face.index) }
    {
        let c = self.winds.at_face(face.index);
        let line = upwind_line(c, face);
        array::from_fn(|r| self.product(c, line, r))
    }

    // An element's nine values.
    fn values_of(self, index: usize) -> &'s [i64; NODES]
        requires { index < elements self.winds.grid.shape }
        ensures { result.now ≡ table 9 (as_stage self.entry.phi.now index) }
    {
        let (elements, _) = self.phi.as_chunks::<NODES>();
        &elements[index]
    }
}

// A stage and the products at all faces, three each, in the order of the faces: the two elements at a face have the same ones.
#[derive(Clone, Copy)]
pub struct FaceProducts<'p, 's, 'w> {
    pub stage: Stage<'s, 'w>,
    pub products: &'p [i64],
    ghost of_stage: { products.now ≡ face_products stage.winds.grid.shape (wind_at stage.winds.wind.now) (as_stage stage.phi.now) },
}

impl FaceProducts<'_, '_, '_> {
    // The product at place r of a face.
    fn product(self, face: usize, r: usize) -> i64
        requires face { face < faces self.stage.winds.grid.shape }
        requires place { r < 3 }
        ensures { result ≡ face_product self.entry.stage.winds.grid.shape (wind_at self.entry.stage.winds.wind.now) (as_stage self.entry.stage.phi.now) face r }
    {
        self.products[face * SIDE + r]
    }

    // The products at a face.
    pub fn at_face(self, face: usize) -> [i64; SIDE]
        requires { face < faces self.stage.winds.grid.shape }
        ensures value { result ≡ table 3 (face_product self.entry.stage.winds.grid.shape (wind_at self.entry.stage.winds.wind.now) (as_stage self.entry.stage.phi.now) face) }
        ensures small { AllWithin product_size result }
    {
        array::from_fn(|r| self.product(face, r))
    }

    // A face as the lines of nodes that end there meet it.
    fn side(self, face: usize) -> Side
        requires { face < faces self.stage.winds.grid.shape }
        ensures wind { result.wind ≡ wind_at self.entry.stage.winds.wind.now face }
        ensures products { result.products ≡ table 3 (face_product self.entry.stage.winds.grid.shape (wind_at self.entry.stage.winds.wind.now) (as_stage self.entry.stage.phi.now) face) }
    {
        Side {
            wind: self.stage.winds.at_face(face),
            products: self.at_face(face),
        }
    }

    // The tendencies of an element.
    pub fn tendencies(self, element: Element) -> [i64; NODES]
        requires { element.grid.shape ≡ self.stage.winds.grid.shape }
        ensures { result ≡ table 9 (tendency quadratic self.entry.stage.winds.grid.shape (wind_at self.entry.stage.winds.wind.now) (as_stage self.entry.stage.phi.now) element.index) }
    {
        let [west, east, south, north] = element.sides();
        step_tendency::tendencies(
            self.stage.values_of(element.index),
            self.side(west),
            self.side(east),
            self.side(south),
            self.side(north),
        )
    }
}
