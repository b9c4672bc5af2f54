// A row of the periodic grid, an element and a face in it, by their numbers, and what lies beside them. The methods are leaves.
#![tactic(auto)]

ghost use Rattle.std.specs.Prelude.{◌≡◌, ◌+◌, ◌*◌, ◌%◌, ◌<◌};
ghost use Rattle.rules.specs.Field.{elements, faces};
ghost use Rattle.rules.specs.Grid.{west, east, south, north, looks_east, behind, ahead};
ghost use Rattle.step_grid.specs.Place.{side_faces, OnGrid};

use field_layout::Grid;

// A row that is on its grid: nx elements, or nx faces. The elements' rows go from south to north; of the faces' rows those of the east faces come first,
// then those of the north faces, twice as many rows in all.
#[derive(Clone, Copy)]
pub struct Row {
    pub grid: Grid,
    pub index: usize,
    ghost inside: { index < 2 * grid.shape.ny },
}

impl Row {
    // The number of its first element or face.
    pub fn start(self) -> usize
        ensures { result ≡ self.index * self.grid.shape.nx }
    {
        self.index * self.grid.shape.nx
    }

    // Its element in a column.
    pub fn element(self, column: usize) -> Element
        requires row { self.index < self.grid.shape.ny }
        requires column { column < self.grid.shape.nx }
        ensures grid { result.grid ≡ self.grid }
        ensures place { result.index ≡ self.index * self.grid.shape.nx + column }
    {
        Element {
            grid: self.grid,
            index: self.start() + column,
            column,
        }
    }

    // Its face in a column.
    pub fn face(self, column: usize) -> Face
        requires { column < self.grid.shape.nx }
        ensures grid { result.grid ≡ self.grid }
        ensures place { result.index ≡ self.index * self.grid.shape.nx + column }
    {
        Face {
            grid: self.grid,
            index: self.start() + column,
            column,
        }
    }
}

// An element that is on its grid. Its column tells the ends of its row without a division.
#[derive(Clone, Copy)]
pub struct Element {
    pub grid: Grid,
    pub index: usize,
    pub column: usize,
    ghost inside: { index < elements grid.shape },
    ghost column_is: { column ≡ index % grid.shape.nx },
}

impl Element {
    // The element to the west; the first of a row has the row's last there.
    pub fn west(self) -> usize
        ensures { result ≡ west self.grid.shape self.index }
    {
        let nx = self.grid.shape.nx;
        let e = self.index;
        if self.column == 0 { e + nx - 1 } else { e - 1 }
    }

    // The element to the east; the last of a row has the row's first there.
    pub fn east(self) -> usize
        ensures { result ≡ east self.grid.shape self.index }
    {
        let nx = self.grid.shape.nx;
        let e = self.index;
        if self.column + 1 == nx {
            e + 1 - nx
        } else {
            e + 1
        }
    }

    // The element to the south; the first row has the last one there.
    pub fn south(self) -> usize
        ensures { result ≡ south self.grid.shape self.index }
    {
        let nx = self.grid.shape.nx;
        let n = self.grid.elements();
        let e = self.index;
        if e < nx { e + n - nx } else { e - nx }
    }

    // The element to the north; the last row has the first one there.
    pub fn north(self) -> usize
        ensures { result ≡ north self.grid.shape self.index }
    {
        let nx = self.grid.shape.nx;
        let n = self.grid.elements();
        let e = self.index;
        if e + nx < n { e + nx } else { e + nx - n }
    }

    // Its west, east, south and north face: its own are the second and the fourth, the others are its west and its south neighbour's.
    pub fn sides(self) -> [usize; 4]
        ensures faces { result ≡ side_faces self.grid.shape self.index }
        ensures inside { OnGrid self.grid.shape result }
    {
        let n = self.grid.elements();
        [self.west(), self.index, n + self.south(), n + self.index]
    }
}

// A face that is on its grid: the east faces come first, in the order of the elements that own them, then the north faces.
#[derive(Clone, Copy)]
pub struct Face {
    pub grid: Grid,
    pub index: usize,
    pub column: usize,
    ghost inside: { index < faces grid.shape },
    ghost column_is: { column ≡ index % grid.shape.nx },
}

impl Face {
    // Whether it is an east face.
    pub fn looks_east(self) -> bool
        ensures { result ≡ looks_east self.grid.shape self.index }
    {
        self.index < self.grid.elements()
    }

    // The element west or south of it, which owns it, and the one east or north of it.
    pub fn ends(self) -> (usize, usize)
        ensures behind { result.0 ≡ behind self.grid.shape self.index }
        ensures ahead { result.1 ≡ ahead self.grid.shape self.index }
    {
        let Face {
            grid,
            index,
            column,
        } = self;
        if self.looks_east() {
            let owner = Element {
                grid,
                index,
                column,
            };
            (index, owner.east())
        } else {
            let owner = Element {
                grid,
                index: index - grid.elements(),
                column,
            };
            (owner.index, owner.north())
        }
    }
}
