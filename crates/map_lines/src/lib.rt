// The page of a map, as a text: its blocks, and the line of the sum. Each function is a leaf; those that add to a text ask for room, and `page`
// for a tracer that can be printed. `page` and `page_length` are what the call uses. A place becomes a u64 by `as`: std has no `From` for it,
// and a `try_from` would add an unwrap that can never fail. Blocks, rows and columns are counted, since their numbers are handed on.
#![tactic(auto)]

ghost use Rattle.std.specs.Prelude.{◌≡◌, ◌+◌, ◌*◌, ◌≤◌, ◌<◌, length};
ghost use Rattle.rules.specs.Field.{quadratic, part, total, limit};
ghost use Rattle.rules.specs.Map.{block_count, column_text, block_line, block_text, sum_line, page_text, page_length};
ghost use Rattle.text.specs.Added.{Added};
ghost use Rattle.text.specs.Adds.{Adds, HasRoom};
ghost use Rattle.map_lines.specs.PageLines.{Printable, There, There-prop, line_first};

use field_layout::Grid;
use text::Text;

// A block's columns, the width of each, that of what comes before them, and the bytes of a line with its newline.
const COLUMNS: usize = 7;

const WIDTH: usize = 10;

const FIRST: usize = 3;

const LINE: usize = FIRST + COLUMNS * WIDTH + 1;

// A line of a block: its first one, or that of row j. Two lines by name, as the definition has them; an `Option` would only drop the names.
#[derive(Clone, Copy)]
pub(crate) enum BlockLine {
    Header,
    Row(usize),
}

// As many blocks as the columns need.
fn block_count(grid: Grid) -> usize
    ensures { result ≡ block_count grid.shape }
{
    grid.shape.nx.div_ceil(COLUMNS)
}

// The bytes of a page.
pub fn page_length(grid: Grid) -> usize
    ensures { result ≡ page_length grid.shape }
{
    (block_count(grid) * (grid.shape.ny + 1) + 1) * LINE
}

// The page of one tracer: every number of it fits its width.
#[derive(Clone, Copy)]
pub(crate) struct TracerPage<'a> {
    field: &'a [u32],
    grid: Grid,
    tracer: usize,
    ghost printable: { Printable grid.shape tracer field.now },
}

// A page and one of its lines: the first one of a block, or that of a row that the grid has.
#[derive(Clone, Copy)]
pub(crate) struct PageLine<'a> {
    page: TracerPage<'a>,
    line: BlockLine,
    ghost there: { There page.grid.shape line } by { There-prop page.grid.shape line },
}

impl PageLine<'_> {
    ghost use Rattle.map_lines.specs.PageNumbers.{numbers};

    // What comes before the columns.
    fn first(&self, text: &mut Text)
        requires { HasRoom 3 text.old }
        ensures { Adds 3 (line_first self.now.line) text.old text.new }
    {
        match self.line {
            BlockLine::Header => text.blanks(FIRST),
            BlockLine::Row(j) => text.right_aligned(FIRST, j as u64),
        }
    }

    // The number in column i.
    fn number(&self, i: usize) -> u64
        requires { i < self.now.page.grid.shape.nx }
        ensures { result ≡ numbers self.now i }
    {
        let page = self.page;
        match self.line {
            BlockLine::Header => i as u64,
            BlockLine::Row(j) => field::element_mass(page.field, page.grid, page.tracer, i, j),
        }
    }

    // Column i: the line's number, or blanks where the grid has no such column.
    fn column(&self, text: &mut Text, i: usize)
        requires { HasRoom 10 text.old }
        ensures { Adds 10 (column_text self.now.page.grid.shape (numbers self.now) i) text.old text.new }
    {
        if i < self.page.grid.shape.nx {
            text.right_aligned(WIDTH, self.number(i));
        } else {
            text.blanks(WIDTH);
        }
    }

    // The line of block b.
    fn block_line(&self, text: &mut Text, b: usize)
        requires b_bound { b < block_count self.now.page.grid.shape }
        requires room { HasRoom 74 text.old }
        ensures { Adds 74 (block_line self.now.page.grid.shape (line_first self.now.line) (numbers self.now) b) text.old text.new }
    {
        let west = COLUMNS * b;
        self.first(text);
        for c in 0..COLUMNS {
            self.column(text, west + c);
        }
        text.newline();
    }
}

impl TracerPage<'_> {
    ghost use Rattle.map_lines.specs.PageNumbers.{page_part};

    // Block b: its first line, and the rows from the northmost on.
    fn block(&self, text: &mut Text, b: usize)
        requires b_bound { b < block_count self.now.grid.shape }
        requires room { HasRoom ((self.now.grid.shape.ny + 1) * 74) text.old }
        ensures { Adds ((self.now.grid.shape.ny + 1) * 74) (block_text quadratic self.now.grid.shape (page_part self.now) b) text.old text.new }
    {
        let header = PageLine {
            page: *self,
            line: BlockLine::Header,
        };
        header.block_line(text, b);
        for j in (0..self.grid.shape.ny).rev() {
            let row = PageLine {
                page: *self,
                line: BlockLine::Row(j),
            };
            row.block_line(text, b);
        }
    }
}

// The line of the sum.
fn sum_line(text: &mut Text, sum: u64)
    requires sum_le_limit { sum ≤ limit }
    requires room { HasRoom 74 text.old }
    ensures { Adds 74 (sum_line sum) text.old text.new }
{
    text.put(b"sum");
    text.right_aligned(COLUMNS * WIDTH, sum);
    text.newline();
}

// The page of a tracer whose total is `sum`, at the front of the buffer, and its bytes.
pub fn page(out: &mut [u8], field: &[u32], grid: Grid, tracer: usize, sum: u64) -> usize
    requires printable { Printable grid.shape tracer field.now }
    requires sum_value { sum ≡ total quadratic grid.shape (part quadratic grid.shape tracer field.now) }
    requires shape_in_bounds { page_length grid.shape ≤ length out.old }
    ensures { Added (page_length grid.shape) 0 (page_text quadratic grid.shape (part quadratic grid.shape tracer field.now)) out.old out.new result }
{
    let page = TracerPage {
        field,
        grid,
        tracer,
    };
    let mut text = Text::new(out);
    for b in 0..block_count(grid) {
        page.block(&mut text, b);
    }
    sum_line(&mut text, sum);
    text.len()
}
