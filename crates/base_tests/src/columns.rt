//! Columns that are locked, taken and unlocked, and the rows that have equal cells.

use crate::keys::MIXED;
use mq_base::{NoMemory, Seq, Text, Value, ValueType};
use sealed_column::{
    Clear, Column, DetKind, Locked, OpeKind, Pair, RndKind, SchemeKind, groups, pairs,
};
use std::alloc::Global;
use std::test::Fail;

// The cells of INT -1, 0 and 5 under the order-preserving and the deterministic scheme, computed apart, by another program.
const ASCENDING: [&[u8]; 3] = [
    &[
        0x3e, 0x07, 0x82, 0x8d, 0x84, 0xef, 0x82, 0x46, 0x80, 0xe9, 0x88, 0x06, 0x80, 0x1a, 0x7f,
        0x53, 0x7e, 0x5f, 0x73, 0x6d, 0x84, 0x3f, 0x7c, 0x78, 0x82, 0x30, 0x7d, 0x0a, 0x8a, 0x75,
        0x85, 0x0a,
    ],
    &[
        0x3e, 0x92, 0x01, 0xf0, 0x01, 0x0c, 0x00, 0xd9, 0x01, 0x48, 0x01, 0x06, 0x01, 0x60, 0x00,
        0x64, 0x01, 0xce, 0x00, 0x2b, 0x00, 0x88, 0x00, 0xe8, 0x01, 0x11, 0x01, 0x2b, 0x00, 0x93,
        0x01, 0x5a,
    ],
    &[
        0x3e, 0x92, 0x01, 0xf0, 0x01, 0x0c, 0x00, 0xd9, 0x01, 0x48, 0x01, 0x06, 0x01, 0x60, 0x00,
        0x64, 0x01, 0xce, 0x00, 0x2b, 0x00, 0x88, 0x00, 0xe8, 0x01, 0x11, 0x01, 0x2b, 0x00, 0x93,
        0x02, 0xbc,
    ],
];

const EQUAL: [&[u8]; 3] = [
    &[
        0x10, 0x32, 0x85, 0xe5, 0x75, 0xbf, 0xac, 0xe1, 0xcd, 0x2f, 0x66, 0xff, 0x5d, 0x12, 0xe0,
        0x1b,
    ],
    &[
        0xc1, 0x65, 0x2b, 0x27, 0xd8, 0xf1, 0xc8, 0xc6, 0x5c, 0x49, 0xfb, 0x86, 0x71, 0xe4, 0xe1,
        0x99,
    ],
    &[
        0x30, 0x88, 0x5a, 0x7f, 0xa9, 0xa2, 0xbb, 0x96, 0xcb, 0xad, 0x68, 0x70, 0xd9, 0x89, 0xc9,
        0xfb,
    ],
];

// The randomised cell of INT 0 at step 2 and row 1.
const RANDOM: &[u8] = &[
    0x00, 0x00, 0x00, 0x02, 0x00, 0x00, 0x00, 0x00, 0x00, 0x00, 0x00, 0x01, 0x82, 0x4c, 0xc7, 0xf3,
    0x0c, 0xd2, 0x55, 0x45, 0x7d, 0x74, 0x87, 0x39, 0x12, 0xde, 0x8b, 0x8a,
];

// The column of INT -1, 0 and 5.
fn worked_column(alloc: Global) -> Result<Column<Clear>, NoMemory> {
    let values = vec![in alloc; Value::Int(-1), Value::Int(0), Value::Int(5)]?;
    Ok(Column::of(ValueType::Int, Seq::of(values)))
}

// That column under a scheme, locked at step 2.
fn locked_column<S: SchemeKind>(alloc: Global) -> Result<Column<Locked<S>>, NoMemory> {
    match worked_column(alloc)?.lock(alloc, &MIXED, 2) {
        Ok(locked) => Ok(locked),
        Err((_, no_memory)) => Err(no_memory),
    }
}

// Whether cells are these bytes.
fn are_cells(cells: &[Text], wanted: &[&[u8]]) -> bool {
    cells.len() == wanted.len()
        && cells
            .iter()
            .zip(wanted)
            .all(|(cell, bytes)| cell.as_bytes() == *bytes)
}

// Whether the worked column is locked as these cells, of which one is taken, and unlocked as it was.
fn is_locked_as<S: SchemeKind>(alloc: Global, wanted: &[&[u8]; 3]) -> Result<bool, NoMemory> {
    let locked = locked_column::<S>(alloc)?;
    if locked.rows() != 3 || !are_cells(locked.cells(), wanted) {
        return Ok(false);
    }
    let taken = locked.take(alloc, &[2])?;
    if !are_cells(taken.cells(), &wanted[2..]) {
        return Ok(false);
    }
    match locked.unlock(alloc, &MIXED) {
        Ok(opened) => Ok(
            opened.cells() == [Value::Int(-1), Value::Int(0), Value::Int(5)].as_slice(),
        ),
        Err((_, no_memory)) => Err(no_memory),
    }
}

#[test]
fn columns_are_locked_and_unlocked(rt: HostRuntime) -> Result<(), Fail> {
    assert!(rt; is_locked_as::<OpeKind>(rt.alloc(), &ASCENDING)?);
    assert!(rt; is_locked_as::<DetKind>(rt.alloc(), &EQUAL)?);
    Ok(())
}

#[test]
fn randomised_cells_name_their_step_and_row(rt: HostRuntime) -> Result<(), Fail> {
    let locked = locked_column::<RndKind>(rt.alloc())?;
    assert_eq!(rt; locked.rows(), 3);
    assert!(rt; are_cells(&locked.cells()[1..2], &[RANDOM]));
    Ok(())
}

const PAIRED: [Pair; 4] = [
    Pair { left: 0, right: 0 },
    Pair { left: 0, right: 1 },
    Pair { left: 2, right: 0 },
    Pair { left: 2, right: 1 },
];

#[test]
fn rows_with_equal_cells_are_found(rt: HostRuntime) -> Result<(), Fail> {
    let paired = pairs(rt.alloc(), &[1u64, 2, 1], &[1, 1, 3])?;
    assert_eq!(rt; paired.as_slice(), PAIRED.as_slice());
    let grouped = groups(rt.alloc(), &[2u64, 1, 2])?;
    assert_eq!(rt; grouped.len(), 2);
    assert_eq!(rt; grouped[0].as_slice(), [0, 2].as_slice());
    assert_eq!(rt; grouped[1].as_slice(), [1].as_slice());
    Ok(())
}
