//! Names by number, and which designs are regular.

use blif_model::{Bit, Cube, Design, NameTable, Table, is_regular};
use net_base::{List, Name};
use std::alloc::Global;

// Three names, of which the last was there: its number is the first one's.
fn number_all(names: &mut NameTable) -> Option<[u32; 3]> {
    if !names.is_empty() {
        return None;
    }
    let first = names.number(b"a").ok()?;
    let second = names.number(b"b").ok()?;
    let again = names.number(b"a").ok()?;
    Some([first, second, again])
}

fn are_numbered(names: &NameTable, numbers: [u32; 3]) -> bool {
    numbers == [0u32, 1, 0]
        && names.len() == 2
        && names.as_slice()[0].bytes() == b"a".as_slice()
        && names.as_slice()[1].bytes() == b"b".as_slice()
}

fn is_found(alloc: Global, names: &NameTable) -> Option<bool> {
    let there = Name::of(alloc, b"b").ok()?;
    let other = Name::of(alloc, b"c").ok()?;
    Some(names.find(&there) == Some(1) && names.find(&other).is_none())
}

fn are_kept(alloc: Global) -> Option<bool> {
    let mut names = NameTable::new(alloc);
    let numbers = number_all(&mut names)?;
    Some(are_numbered(&names, numbers) && is_found(alloc, &names)?)
}

#[test]
fn a_name_keeps_the_number_of_its_first_appearance(rt: HostRuntime) {
    assert!(rt; are_kept(rt.alloc()) == Some(true));
}

// Inputs, outputs, pins and bits of the one table, whose target is signal 1 of two, and whether the design is regular.
type Row = (
    &'static [u32],
    &'static [u32],
    &'static [u32],
    &'static [Bit],
    bool,
);

static DESIGNS: [Row; 5] = [
    (&[0], &[1], &[0], &[Bit::Zero], true),
    (&[0], &[1, 0], &[0, 0], &[Bit::One, Bit::Any], true),
    // An input listed twice, a pin without a name, a row that is too short.
    (&[0, 0], &[1], &[0], &[Bit::Zero], false),
    (&[0], &[1], &[2], &[Bit::Zero], false),
    (&[0], &[1], &[0, 0], &[Bit::Zero], false),
];

fn table(alloc: Global, pins: &[u32], bits: &[Bit]) -> Option<Table> {
    let bits = List::from_slice(alloc, bits).ok()?;
    let mut rows = List::new(alloc);
    rows.push(Cube { bits }).ok()?;
    Some(Table {
        line: 1,
        pins: List::from_slice(alloc, pins).ok()?,
        target: 1,
        rows,
        on: true,
    })
}

fn design(alloc: Global, row: &Row) -> Option<Design> {
    let (inputs, outputs, pins, bits, _) = *row;
    let inputs = List::from_slice(alloc, inputs).ok()?;
    let outputs = List::from_slice(alloc, outputs).ok()?;
    let mut tables = List::new(alloc);
    tables.push(table(alloc, pins, bits)?).ok()?;
    let mut names = NameTable::new(alloc);
    number_all(&mut names)?;
    Some(Design {
        name: Name::of(alloc, b"m").ok()?,
        names,
        inputs,
        outputs,
        tables,
    })
}

fn is_judged(alloc: Global, row: &Row) -> Option<bool> {
    let design = design(alloc, row)?;
    Some(is_regular(alloc, &design).ok()? == row.4)
}

#[test]
fn regular_designs_are_told_from_others(rt: HostRuntime) {
    let alloc = rt.alloc();
    assert!(rt;
        DESIGNS
            .iter()
            .all(|row| is_judged(alloc, row) == Some(true))
    );
}
