// What the programs read and write: a buffer filled from a file or from standard input, and what a program makes of it.
#![tactic(auto)]

ghost use Rattle.std.specs.Prelude.{◌≡◌, ◌^◌, ◌≤◌, ◌<◌, length, take, IfOk};
ghost use Rattle.std.specs.Io.KnownBytes.{Appends, Consumes, IsAtEnd};
ghost use Rattle.program_input.specs.Printed.{Printed};
ghost use Rattle.program_input.specs.declared.TheConstants.{FILE};

use std::io;
use std::io::{Read, Write};

// One byte more than a field file may have.
pub const FILE: usize = 65_537;

// Reads until the buffer is full or the input ends, and answers how many bytes of the buffer are read: they are the input's first ones, where it
// is known which these are, and fewer than the buffer has only where the input has no more. A `while`, since the input says how far a turn reads.
pub fn fill<R: Read>(input: &mut R, buffer: &mut [u8]) -> io::Result<usize>
    ensures within { IfOk result (λ n. n ≤ length buffer.new) }
    ensures bytes { IfOk result (λ n. Consumes (R.remaining input.old) (R.remaining input.new) (take n buffer.new)) }
    ensures all { IfOk result (λ n. n < length buffer.new → IsAtEnd (R.remaining input.new)) }
{
    let mut done = 0;
    while done < buffer.len() {
        let n = input.read(&mut buffer[done..])?;
        if n == 0 {
            return Ok(done);
        }
        done += n;
    }
    Ok(done)
}

// Writes what a program prints for a file: `print` leaves it at the front of a buffer of OUT bytes, and answers its length.
pub fn print_file<const OUT: usize, W: Write, F: FnOnce(&[u8], &mut [u8]) -> usize>(
    output: &mut W,
    file: &[u8],
    print: F,
) -> io::Result<()>
    requires size { OUT < 2 ^ 63 }
    requires callable { (out : _) → length out.now ≡ OUT → F.pre print file out }
    requires within { (out : _) (n : _) (left : _) → length out.now ≡ OUT → F.post print file out n left → n ≤ length left.now }
    ensures { IfOk result (λ _. Printed (F.post print file.entry) OUT (Appends (W.contents output.old) (W.contents output.new))) }
{
    let mut out = [0u8; OUT];
    let end = print(file, &mut out);
    output.write_all(&out[..end])
}

// Reads one file, and writes what a program prints for it.
pub fn run<const OUT: usize, R: Read, W: Write, F: FnOnce(&[u8], &mut [u8]) -> usize>(
    input: &mut R,
    output: &mut W,
    print: F,
) -> io::Result<()>
    requires size { OUT < 2 ^ 63 }
    requires callable { (file : _) (out : _) → length out.now ≡ OUT → F.pre print file out }
    requires within { (file : _) (out : _) (n : _) (left : _) → length out.now ≡ OUT → F.post print file out n left → n ≤ length left.now }
    ensures { IfOk result (λ _. (file : _) × Consumes (R.remaining input.old) (R.remaining input.new) file.now × (length file.now < FILE → IsAtEnd (R.remaining input.new)) × Printed (F.post print file) OUT (Appends (W.contents output.old) (W.contents output.new))) }
{
    let mut file = [0u8; FILE];
    let n = fill(input, &mut file)?;
    print_file::<OUT, W, F>(output, &file[..n], print)
}
