// An admitted shape, and where its numbers stand in the buffers. The methods are leaves. An element is lent as tracer, i and j, which its callers have
// from calls that name them so.
ghost use Rattle.std.specs.Prelude.{◌≡◌, ◌+◌, ◌*◌, ◌≤◌, ◌<◌};
ghost use Rattle.rules.specs.Field.{quadratic, elements, faces, elements_length, part_length, field_length, Admitted};
ghost use Rattle.rules.specs.Grid.{face_index};
ghost use Rattle.field_layout.specs.Places.{Inside, element_start, most_field};

use rules::element::NUMBERS;
use rules::{Face, Refusal, Shape, Way};

// A shape within its ranges: whoever has a grid knows that its numbers fit.
#[derive(Clone, Copy)]
pub struct Grid {
    pub shape: Shape,
    ghost admitted: { Admitted shape },
}

// 2 where the shape is outside its ranges.
impl TryFrom<Shape> for Grid {
    ghost use Rattle.field_layout.specs.Grids.{IsGridOf};

    type Error = Refusal;

    ghost try_from_gives = { IsGridOf };

    fn try_from(shape: Shape) -> Result<Grid, Refusal> {
        if crate::admitted(shape) {
            Ok(Grid { shape })
        } else {
            Err(Refusal::BadShape)
        }
    }
}

impl Grid {
    // The elements of one tracer.
    pub fn elements(self) -> usize
        ensures { result ≡ elements self.shape }
    {
        self.shape.nx * self.shape.ny
    }

    // The faces: an east and a north one for each element.
    pub fn faces(self) -> usize
        ensures { result ≡ faces self.shape }
    {
        let n = self.elements();
        n + n
    }

    // The numbers of a tracer's elements.
    pub fn elements_length(self) -> usize
        ensures { result ≡ elements_length quadratic self.shape }
    {
        self.elements() * NUMBERS
    }

    // The numbers of a tracer's part of the field: those of its elements, and its stored total.
    pub fn part_length(self) -> usize
        ensures { result ≡ part_length quadratic self.shape }
    {
        self.elements_length() + 1
    }

    // The numbers of the field.
    pub fn field_length(self) -> usize
        ensures { result ≡ field_length quadratic self.shape }
    {
        self.shape.tracers * self.part_length()
    }

    // Where a tracer's part starts in the field.
    pub fn tracer_start(self, tracer: usize) -> usize
        requires { tracer < self.shape.tracers }
        ensures { result ≡ tracer * part_length quadratic self.shape }
    {
        tracer * self.part_length()
    }

    // Where a tracer's stored total stands in the field: after its elements.
    pub fn total_at(self, tracer: usize) -> usize
        requires { tracer < self.shape.tracers }
        ensures place { result ≡ tracer * part_length quadratic self.shape + elements_length quadratic self.shape }
        ensures room { result < field_length quadratic self.shape }
    {
        self.tracer_start(tracer) + self.elements_length()
    }

    // Where element (i, j) of a tracer starts in the field; its numbers end within the field.
    pub fn element_start(self, tracer: usize, i: usize, j: usize) -> usize
        requires { Inside self.shape tracer i j }
        ensures start { result ≡ element_start self.shape tracer i j }
        ensures room { result + 10 ≤ field_length quadratic self.shape }
        ensures small { result + 10 ≤ most_field }
    {
        self.tracer_start(tracer) + (j * self.shape.nx + i) * NUMBERS
    }

    // Where a face's wind stands.
    pub fn face_at(self, face: Face) -> usize
        requires { Inside self.shape 0 face.i face.j }
        ensures { result ≡ face_index self.shape face.way face.i face.j }
    {
        let e = face.j * self.shape.nx + face.i;
        match face.way {
            Way::East => e,
            Way::North => self.elements() + e,
        }
    }
}
