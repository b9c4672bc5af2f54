// Maps: pages at the edges of a block, and each refusal.
use super::show::Answer;
use super::{buffers, calls};
use rules::Shape;
use std::io;

// A byte of a page that was not written.
const UNWRITTEN: u8 = b'?';

pub(crate) fn run(rt: &impl Print) -> io::Result<()> {
    pages(rt)?;
    refusals(rt)?;
    tracers(rt)?;
    totals(rt)
}

// A map's answer, and its page.
fn map(
    rt: &impl Print,
    edge: &str,
    page: &mut [u8],
    field: &[u32],
    shape: Shape,
    tracer: usize,
) -> io::Result<()> {
    let answer = Answer(map::map(page, field, shape, tracer));
    if page.iter().all(|&byte| byte == UNWRITTEN) {
        return println!(rt; "map, {edge}: {answer}, page unchanged");
    }
    println!(rt; "map, {edge}: {answer}")?;
    rt.write_all(page)?;
    println!(rt; "")
}

// One element that holds 1.
fn one() -> [u32; 88] {
    let mut field = [0u32; 88];
    field[9] = 1;
    field[10] = 1;
    field
}

// Masses 1 to 7 in the remainders.
fn seven() -> [u32; 88] {
    let mut field = [0u32; 88];
    field[9] = 1;
    field[19] = 2;
    field[29] = 3;
    field[39] = 4;
    field[49] = 5;
    field[59] = 6;
    field[69] = 7;
    field[70] = 28;
    field
}

// And all that is left to 100,000,000 in the last of eight elements.
fn eight() -> [u32; 88] {
    let mut field = seven();
    field[70] = 99_999_972;
    field[80] = 100_000_000;
    field
}

// The same in the one element of tracer 7.
fn eighth_tracer() -> [u32; 88] {
    let mut field = [0u32; 88];
    field[77] = 99_999_972;
    field[87] = 99_999_972;
    field
}

// One column, a whole block, one column more, rows from the north on, and a page with surplus.
fn pages(rt: &impl Print) -> io::Result<()> {
    for (edge, length, field, shape, tracer) in [
        ("1 by 1", 222, one(), calls::shape(1, 1, 1), 0),
        ("7 by 1", 222, seven(), calls::shape(7, 1, 1), 0),
        ("8 by 1", 370, eight(), calls::shape(8, 1, 1), 0),
        ("2 by 4", 444, eight(), calls::shape(2, 4, 1), 0),
        (
            "1 by 1, tracer 7",
            225,
            eighth_tracer(),
            calls::shape(1, 1, 8),
            7,
        ),
    ] {
        let mut page = [UNWRITTEN; 444];
        map(rt, edge, &mut page[..length], &field, shape, tracer)?;
    }
    Ok(())
}

// 2, and 4 for the field: calls on the sample, with a page of just the length that the shape of most cases needs; and 4 for the page.
fn refusals(rt: &impl Print) -> io::Result<()> {
    let sample = buffers::sample();
    for (edge, shape) in [
        ("nx 0", calls::shape(0, 1, 2)),
        ("ny 65", calls::shape(2, 65, 2)),
        ("62 numbers for 63", buffers::three_tracers()),
        ("64 by 64, 8 tracers", calls::shape(64, 64, 8)),
    ] {
        map(rt, edge, &mut [UNWRITTEN; 222], &sample, shape, 0)?;
    }
    short(rt, "221 bytes for 222", 1)
}

// 6 of the named tracer alone, and 7; then two faults.
fn tracers(rt: &impl Print) -> io::Result<()> {
    let odd = buffers::remainder_36();
    let pair = buffers::pair();
    for (edge, tracer) in [
        ("remainder 36", 0),
        ("remainder 36 in the other tracer", 1),
        ("tracer 2 of 2", 2),
    ] {
        map(rt, edge, &mut [UNWRITTEN; 222], &odd, pair, tracer)?;
    }
    short(rt, "remainder 36 and 221 bytes", 0)?;
    short(rt, "tracer 2 of 2 and 221 bytes", 2)
}

// A tracer 0 with a remainder 36, and a page that is a byte too short.
fn short(rt: &impl Print, edge: &str, tracer: usize) -> io::Result<()> {
    let odd = buffers::remainder_36();
    let pair = buffers::pair();
    map(rt, edge, &mut [UNWRITTEN; 221], &odd, pair, tracer)
}

// A sum above the limit, and one that is not the stored total.
fn totals(rt: &impl Print) -> io::Result<()> {
    let pair = buffers::pair();
    for (edge, field) in [
        ("a total of 100000001", buffers::total_of(17)),
        ("118 stored of 119", buffers::stored(118)),
        ("120 stored of 119", buffers::stored(120)),
    ] {
        map(rt, edge, &mut [UNWRITTEN; 222], &field, pair, 0)?;
    }
    Ok(())
}
