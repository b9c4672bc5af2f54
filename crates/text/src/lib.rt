// Text in a lent buffer: words, blanks and numbers in base ten, each added behind what stands there.
// Each function that adds bytes is a leaf and asks for room. No `Display`: std says which bytes `write!` puts only of a `String`, which needs a heap.
#![tactic(auto)]

ghost use Rattle.std.specs.Prelude.{◌≡◌, ◌≤◌, length};
ghost use Rattle.rules.specs.Text.{decimal, signed, newline, blanks, right_aligned};
ghost use Rattle.text.specs.Adds.{Adds, HasRoom};

// The text is the buffer's bytes before `end`; the bytes from there on are the lender's.
#[derive(Drop)]
pub struct Text<'a> {
    buffer: &'a mut [u8],
    end: usize,
}

impl<'a> Text<'a> {
    // No text, at the front of a buffer.
    pub fn new(buffer: &'a mut [u8]) -> Text<'a>
        ensures same_buffer { result.buffer.ghost_name ≡ buffer.entry.ghost_name }
        ensures bytes { result.buffer.now ≡ buffer.old }
        ensures empty { result.end ≡ 0 }
    {
        Text { buffer, end: 0 }
    }

    // How many bytes the text has.
    pub fn len(&self) -> usize
        ensures { result ≡ self.now.end }
    {
        let Text { end, .. } = *self;
        end
    }

    // The bytes of a word.
    pub fn put(&mut self, word: &[u8])
        requires { HasRoom (length word.now) self.old }
        ensures { Adds (length word.now) word.now self.old self.new }
    {
        let end = self.end + word.len();
        self.buffer[self.end..end].copy_from_slice(word);
        self.end = end;
    }

    // The newline that ends a line.
    pub fn newline(&mut self)
        requires { HasRoom 1 self.old }
        ensures { Adds 1 newline self.old self.new }
    {
        self.put(b"\n");
    }

    // n blanks.
    pub fn blanks(&mut self, n: usize)
        requires { HasRoom n self.old }
        ensures { Adds n (blanks n) self.old self.new }
    {
        let end = self.end + n;
        self.buffer[self.end..end].fill(b' ');
        self.end = end;
    }

    // A number in base ten, right-aligned: blanks before it up to the width, and none before a number that is as wide or wider.
    pub fn right_aligned(&mut self, width: usize, n: u64)
        requires { HasRoom (length (right_aligned width (decimal n))) self.old }
        ensures { Adds (length (right_aligned width (decimal n))) (right_aligned width (decimal n)) self.old self.new }
    {
        let mut digits = [0u8; 20];
        let k = io::decimal(n, &mut digits);
        self.blanks(width.saturating_sub(k));
        self.put(&digits[..k]);
    }

    // A number in base ten.
    pub fn number(&mut self, n: u64)
        requires { HasRoom 20 self.old }
        ensures { Adds 20 (decimal n) self.old self.new }
    {
        self.right_aligned(0, n);
    }

    // A signed number in base ten.
    pub fn signed(&mut self, z: i32)
        requires { HasRoom 21 self.old }
        ensures { Adds 21 (signed z) self.old self.new }
    {
        if z < 0 {
            self.put(b"-");
        }
        self.number(u64::from(z.unsigned_abs()));
    }
}
