// Answers, shapes and faces as the numbers that the C interface passes.
// A number becomes an i64 by `as`: std has no `From` from u64 or usize, and Rattle proves that nothing is lost, so that a `try_from` would
// add an unwrap that can never fail.
#![tactic(auto)]

ghost use Rattle.std.specs.Prelude.{◌≡◌, pos, neg_ℤ};
ghost use Rattle.whole.specs.Bound.{Are};
ghost use Rattle.rules.specs.Answers.{number, answered, AtMost};
ghost use Rattle.rules.specs.Field.{limit};
ghost use Rattle.c_numbers.specs.Numbers.{shape_of, face_of, code, most_answered, number_or, shape_or, AdmittedShape};

use rules::{Face, Refusal, Shape, Way};

// 0 for an accepted call, else the refusal's number.
pub fn code(answer: Result<(), Refusal>) -> u8
    ensures { result ≡ code (answered answer) }
{
    match answer {
        Ok(()) => 0,
        Err(r) => r.into(),
    }
}

// A refusal's number negated.
fn negated(r: Refusal) -> i64
    ensures { Are 255 result (neg_ℤ (pos (number r))) }
{
    -i64::from(u8::from(r))
}

// The number that is answered, or the refusal's number negated. A leaf: the number is at most the largest that a call answers, a step's clipped
// mass.
pub fn number_or(answer: Result<u64, Refusal>) -> i64
    requires { AtMost most_answered (answered answer) }
    ensures { Are most_answered result (number_or (answered answer)) }
{
    match answer {
        Ok(n) => n as i64,
        Err(r) => negated(r),
    }
}

// The shape that is answered, as nx + 256 ny + 65536 K, or the refusal's number negated. A leaf: the shape is admitted.
pub fn shape_or(answer: Result<Shape, Refusal>) -> i64
    requires { AdmittedShape (answered answer) }
    ensures { Are limit result (shape_or (answered answer)) }
{
    match answer {
        Ok(shape) => (shape.nx + 256 * shape.ny + 65536 * shape.tracers) as i64,
        Err(r) => negated(r),
    }
}

// A shape from its three numbers.
pub fn shape(nx: usize, ny: usize, smokes: usize) -> Shape
    ensures { result ≡ shape_of nx ny smokes }
{
    Shape {
        nx,
        ny,
        tracers: smokes,
    }
}

// The face of element (i, j) that looks east (way 0) or north (way 1). No grid has a column 64: any other way is no face.
// The way is a byte, since that is what the C interface passes.
pub fn face(way: u8, i: usize, j: usize, wind: i16) -> Face
    ensures { result ≡ face_of way i j wind }
{
    let (way, i, j) = match way {
        0 => (Way::East, i, j),
        1 => (Way::North, i, j),
        _ => (Way::East, 64, 0),
    };
    Face { way, i, j, wind }
}
