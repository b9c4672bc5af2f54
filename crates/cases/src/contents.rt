// What calls leave in the buffers: whole elements, surplus numbers, and grids of one row or column.
use super::buffers;
use super::calls::{self, Case, Change};
use super::show::{self, Numbers};
use rules::Way;
use std::io;

pub(crate) fn run(rt: &impl Print) -> io::Result<()> {
    elements(rt)?;
    loaded(rt)?;
    cleared(rt)?;
    grids(rt)?;
    grid_winds(rt)
}

// The ten numbers are 5 in an element of mass 185: 180 in its values, and its remainder. The total comes after them.
fn elements(rt: &impl Print) -> io::Result<()> {
    let empty = [0u32; 11];
    let mut fives = [5u32; 11];
    fives[10] = 185;
    for (edge, before, change) in [
        ("35 into an empty element", empty, Change::Emission(35)),
        ("36 into an empty element", empty, Change::Emission(36)),
        ("37 into an empty element", empty, Change::Emission(37)),
        ("30 into ten fives", fives, Change::Emission(30)),
        ("31 into ten fives", fives, Change::Emission(31)),
        ("5 of ten fives", fives, Change::Withdrawal(5)),
        ("6 of ten fives", fives, Change::Withdrawal(6)),
        ("184 of ten fives", fives, Change::Withdrawal(184)),
        ("185 of ten fives", fives, Change::Withdrawal(185)),
        ("186 of ten fives", fives, Change::Withdrawal(186)),
    ] {
        element(rt, edge, before, change)?;
    }
    Ok(())
}

// A change of the only element of a field, its ten numbers and the total.
fn element(rt: &impl Print, edge: &str, before: [u32; 11], change: Change) -> io::Result<()> {
    let mut element = before;
    let answer = change.call(&mut element, calls::shape(1, 1, 1), calls::at(0, 0, 0));
    println!(rt; "{change}, {edge}: {answer}, element{}", Numbers(&element))
}

// A load over elements that have remainders; field and loaded numbers have one surplus number each.
fn loaded(rt: &impl Print) -> io::Result<()> {
    let mut lent = [3u32; 43];
    let mut numbers = [2u32; 19];
    lent[42] = 777;
    numbers[18] = 55;
    let answer = show::outcome(field::load(&mut lent, &numbers, buffers::pair(), 0));
    let edge = "one surplus number, over remainders 3";
    println!(rt; "load, {edge}: {answer}, field{}", Numbers(&lent))
}

// Fresh, with one surplus number in each buffer.
fn cleared(rt: &impl Print) -> io::Result<()> {
    let mut lent = [3u32; 43];
    let mut winds = buffers::winds();
    lent[42] = 777;
    let answer = show::outcome(field::fresh(&mut lent, &mut winds, buffers::pair()));
    let field = Numbers(&lent);
    let winds = Numbers(&winds);
    println!(rt; "fresh, one surplus number: {answer}, field{field}, winds{winds}")
}

// An element's mass, and an emission of 5 into it.
fn grids(rt: &impl Print) -> io::Result<()> {
    for (edge, shape, i, j) in [
        ("1 by 1, element (0, 0)", calls::shape(1, 1, 1), 0, 0),
        ("1 by 1, element (1, 0)", calls::shape(1, 1, 1), 1, 0),
        ("1 by 1, element (0, 1)", calls::shape(1, 1, 1), 0, 1),
        ("1 by 3, element (0, 2)", calls::shape(1, 3, 1), 0, 2),
        ("1 by 3, element (2, 0)", calls::shape(1, 3, 1), 2, 0),
        ("3 by 1, element (2, 0)", calls::shape(3, 1, 1), 2, 0),
        ("3 by 1, element (0, 2)", calls::shape(3, 1, 1), 0, 2),
    ] {
        let field = match (shape.nx, shape.ny) {
            (1, 1) => buffers::one_element(),
            _ => buffers::three(),
        };
        let place = calls::at(0, i, j);
        let case = Case::new(rt, edge, shape);
        case.mass(field, place)?;
        case.apply(field, place, Change::Emission(5))?;
    }
    Ok(())
}

fn grid_winds(rt: &impl Print) -> io::Result<()> {
    let one = calls::shape(1, 1, 1);
    let column = calls::shape(1, 2, 1);
    for (edge, shape, way, j) in [
        ("1 by 1", one, Way::East, 0),
        ("1 by 1", one, Way::North, 0),
        ("1 by 2, element (0, 1)", column, Way::East, 1),
        ("1 by 2, element (0, 1)", column, Way::North, 1),
    ] {
        let face = calls::face(way, 0, j, 5);
        Case::new(rt, edge, shape).wind(buffers::winds(), face)?;
    }
    Ok(())
}
