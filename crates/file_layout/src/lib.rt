// Where the sections of a file stand, for an admitted shape and a mark, and the marks that it may end with. Leaves.
#![tactic(auto)]

ghost use Rattle.std.specs.Prelude.{◌≡◌, ◌+◌, ◌≤◌, eqb, length, get_or};
ghost use Rattle.whole.specs.Sum.{all};
ghost use Rattle.rules.specs.Field.{quadratic};
ghost use Rattle.rules.specs.Bytes.{byte_at};
ghost use Rattle.rules.specs.FieldFile.{mark_bytes, section_length, section_start, table_start, file_length};

use field_layout::Grid;
use rules::Mark;

// The files of a grid that end with a mark: their sections have these lengths and places.
#[derive(Clone, Copy)]
pub struct Layout {
    pub grid: Grid,
    pub mark: Mark,
}

impl Layout {
    // The numbers of a tracer's section: "PLUM" stores no total.
    pub fn section_length(self) -> usize
        ensures { result ≡ section_length quadratic self.mark self.grid.shape }
    {
        match self.mark {
            Mark::Plum => self.grid.elements_length(),
            Mark::Plu2 => self.grid.part_length(),
        }
    }

    // Where section i starts: the wind's is section 0, tracer s's is section s + 1, and the table comes after the last.
    pub fn section_start(self, i: usize) -> usize
        requires { i ≤ self.grid.shape.tracers + 1 }
        ensures { result ≡ section_start quadratic self.mark self.grid.shape i }
    {
        if i == 0 {
            return 0;
        }
        2 * self.grid.faces() + (i - 1) * (4 * self.section_length())
    }

    // Where the table of offsets starts.
    pub fn table_start(self) -> usize
        ensures { result ≡ table_start quadratic self.mark self.grid.shape }
    {
        self.section_start(self.grid.shape.tracers + 1)
    }

    // The length of a file in bytes.
    pub fn file_length(self) -> usize
        ensures { result ≡ file_length quadratic self.mark self.grid.shape }
    {
        self.table_start() + 4 * (self.grid.shape.tracers + 1) + 12
    }
}

// The marks that a file ends with: both are read, "PLU2" is written.
pub const PLUM: [u8; 4] = *b"PLUM";

pub const PLU2: [u8; 4] = *b"PLU2";

// Whether these bytes begin with a mark.
pub fn is_mark(bytes: &[u8], mark: Mark) -> bool
    requires { 4 ≤ length bytes.now }
    ensures { result ≡ all 4 (λ i. eqb (byte_at bytes.now i) (get_or (mark_bytes mark) i 0)) }
{
    match mark {
        Mark::Plum => bytes.starts_with(&PLUM),
        Mark::Plu2 => bytes.starts_with(&PLU2),
    }
}
