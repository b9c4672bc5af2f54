// The last number that passes, and the first that doesn't.
use super::buffers;
use super::calls::{self, Case, Change};
use rules::Way;
use std::io;

pub(crate) fn run(rt: &impl Print) -> io::Result<()> {
    east_winds(rt)?;
    north_winds(rt)?;
    withdrawals(rt)?;
    full_loads(rt)?;
    full_emissions(rt)
}

// Winds of the face of element (i, 0) that looks one way.
fn winds(rt: &impl Print, way: Way, i: usize, rows: &[(&str, i16)]) -> io::Result<()> {
    for &(edge, wind) in rows {
        let face = calls::face(way, i, 0, wind);
        Case::new(rt, edge, buffers::pair()).wind(buffers::winds(), face)?;
    }
    Ok(())
}

fn east_winds(rt: &impl Print) -> io::Result<()> {
    winds(
        rt,
        Way::East,
        1,
        &[
            ("1024 at (1, 0)", 1024),
            ("-1024 at (1, 0)", -1024),
            ("1025 at (1, 0)", 1025),
            ("-1025 at (1, 0)", -1025),
            ("32767 at (1, 0)", i16::MAX),
            ("-32768 at (1, 0)", i16::MIN),
        ],
    )
}

fn north_winds(rt: &impl Print) -> io::Result<()> {
    winds(
        rt,
        Way::North,
        0,
        &[
            ("1024 at (0, 0)", 1024),
            ("-1024 at (0, 0)", -1024),
            ("1025 at (0, 0)", 1025),
            ("-1025 at (0, 0)", -1025),
        ],
    )
}

fn withdrawals(rt: &impl Print) -> io::Result<()> {
    let sample = buffers::sample();
    let shape = buffers::pair();
    let place = calls::at(0, 0, 0);
    let before = Case::new(rt, "before the withdrawals", shape);
    before.mass(sample, place)?;
    before.total(sample, 0)?;
    for (edge, q) in [
        ("0 of 77", 0),
        ("76 of 77", 76),
        ("77 of 77", 77),
        ("78 of 77", 78),
        ("u64 maximum of 77", u64::MAX),
    ] {
        Case::new(rt, edge, shape).apply(sample, place, Change::Withdrawal(q))?;
    }
    Ok(())
}

fn full_loads(rt: &impl Print) -> io::Result<()> {
    for (edge, numbers) in [
        ("total 100000000", buffers::full_numbers(0)),
        ("total 100000001", buffers::full_numbers(1)),
        ("every number the u32 maximum", [u32::MAX; 26]),
    ] {
        Case::new(rt, edge, buffers::pair()).load(buffers::sample(), numbers, 0)?;
    }
    Ok(())
}

fn full_emissions(rt: &impl Print) -> io::Result<()> {
    let shape = buffers::pair();
    let place = calls::at(0, 1, 0);
    let nearly = buffers::total_of(6);
    let full = buffers::total_of(16);
    Case::new(rt, "nearly full", shape).total(nearly, 0)?;
    for (edge, before, q) in [
        ("10 to 99999990", nearly, 10),
        ("11 to 99999990", nearly, 11),
        ("u64 maximum to 99999990", nearly, u64::MAX),
        ("0 to 100000000", full, 0),
        ("1 to 100000000", full, 1),
    ] {
        Case::new(rt, edge, shape).apply(before, place, Change::Emission(q))?;
    }
    Ok(())
}
