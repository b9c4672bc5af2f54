// The numbers that a file stores, as little-endian bytes, and a u64 from its bytes. All functions are leaves: the bytes are there.
#![tactic(auto)]

ghost use Rattle.std.specs.Prelude.{◌≡◌, ◌+◌, ◌≤◌, ℕ, List, length};
ghost use Rattle.whole.specs.Table.{overwrite};
ghost use Rattle.rules.specs.Bytes.{number32, number64, number16, bytes32, bytes16};
ghost use Rattle.file_numbers.specs.Laws.{StoredLaws, laws32, laws16};

// A number that a file stores in SIZE bytes, the lowest first.
pub trait Stored: Copy {
    const SIZE: usize;

    ghost SIZE: { ℕ };

    // The number at a place of some bytes.
    ghost number: { List ℕ → ℕ → Self };

    // The bytes of a number.
    ghost bytes: { Self → List ℕ };

    // The number that these bytes begin with.
    fn read(from: &[u8]) -> Self
        requires { SIZE ≤ length from.now }
        ensures { result ≡ number from.now 0 };

    // Writes the number over the first SIZE bytes.
    fn write(self, to: &mut [u8])
        requires { SIZE ≤ length to.old }
        ensures { to.new ≡ overwrite 0 (bytes self) to.old };

    ghost laws: { StoredLaws SIZE number bytes };
}

// Two impls with the same bodies but for the type: std's byte methods belong to each type and to no trait, and `rt ci` takes no impl from a macro.
impl Stored for u32 {
    const SIZE: usize = 4;

    ghost SIZE = { 4 };

    ghost number = { number32 };

    ghost bytes = { bytes32 };

    ghost laws = { laws32 };

    fn read(from: &[u8]) -> u32 {
        u32::from_le_bytes(*from.first_chunk().unwrap())
    }

    fn write(self, to: &mut [u8]) {
        to[..4].copy_from_slice(&self.to_le_bytes());
    }
}

impl Stored for i16 {
    const SIZE: usize = 2;

    ghost SIZE = { 2 };

    ghost number = { number16 };

    ghost bytes = { bytes16 };

    ghost laws = { laws16 };

    fn read(from: &[u8]) -> i16 {
        i16::from_le_bytes(*from.first_chunk().unwrap())
    }

    fn write(self, to: &mut [u8]) {
        to[..2].copy_from_slice(&self.to_le_bytes());
    }
}

// The u64 at place `at`. A place, as the format has it: a wind record's two numbers are those at its places 1 and 9. No `Stored`, since no file
// stores a u64: a trait's `write`, and laws for it, would have no user.
pub fn number64(bytes: &[u8], at: usize) -> u64
    requires { at + 8 ≤ length bytes.now }
    ensures { result ≡ number64 bytes.now at }
{
    u64::from_le_bytes(*bytes[at..].first_chunk().unwrap())
}
