//! Columns that are locked and unlocked, beside the bare seals of the same values.

ghost use Rattle.std.specs.List.{All};
ghost use Rattle.mq_base.specs.Bytes.{IsShort};

use crate::seals::seal_each;
use crate::timing::{hundredths, nanos_since, rows_a_second};
use crate::values::{KEY, STEP, Shape, column_of, rows_made, type_name};
use mq_base::{Scheme, ValueType};
use sealed_column::{Clear, Column, DetKind, OpeKind, RndKind, SchemeKind};
use std::io;
use std::time::Instant;

// A column that is timed.
#[derive(Clone, Copy)]
struct Case {
    scheme: Scheme,
    ty: ValueType,
    shape: Shape,
}

// The nanoseconds that a column took, and what came out: the bytes of the first cell, and the rows after unlocking.
#[derive(Clone, Copy)]
struct Times {
    bare: u64,
    lock: u64,
    unlock: u64,
    bytes: usize,
    rows: u64,
}

fn scheme_name(scheme: Scheme) -> &'static str {
    match scheme {
        Scheme::Rnd => "randomised",
        Scheme::Det => "deterministic",
        Scheme::Ope => "order-preserving",
    }
}

// The nanoseconds that the bare seals of a column's values take.
fn bare_nanos(rt: &HostRuntime, scheme: Scheme, column: &Column<Clear>) -> io::Result<u64>
    requires { All IsShort column.now.cells }
{
    let start = Instant::now(rt)?;
    let mixed = seal_each(scheme, column.cells());
    let nanos = nanos_since(rt, start)?;
    // No run comes to this number, but no compiler can know it, and so none drops the seals.
    if mixed == u128::MAX {
        eprintln!(rt; "the seals came to the largest number")?;
    }
    Ok(nanos)
}

// Times a column under a scheme.
fn column_times<S: SchemeKind>(rt: &HostRuntime, column: Column<Clear>) -> io::Result<Times>
    requires { All IsShort column.cells }
{
    let bare = bare_nanos(rt, S::SCHEME, &column)?;
    let start = Instant::now(rt)?;
    let locked = column
        .lock::<S>(rt.alloc(), &KEY, STEP)
        .map_err(|_| io::ErrorKind::OutOfMemory)?;
    let lock = nanos_since(rt, start)?;
    let bytes = match locked.cells() {
        [first, ..] => first.as_bytes().len(),
        [] => 0,
    };
    let start = Instant::now(rt)?;
    let opened = locked
        .unlock(rt.alloc(), &KEY)
        .map_err(|_| io::ErrorKind::OutOfMemory)?;
    let unlock = nanos_since(rt, start)?;
    Ok(Times {
        bare,
        lock,
        unlock,
        bytes,
        rows: opened.rows(),
    })
}

fn case_times(rt: &HostRuntime, case: Case, rows: u32) -> io::Result<Times> {
    let column = column_of(rt.alloc(), case.ty, case.shape, rows).map_err(
        |_| io::ErrorKind::OutOfMemory,
    )?;
    match case.scheme {
        Scheme::Rnd => column_times::<RndKind>(rt, column),
        Scheme::Det => column_times::<DetKind>(rt, column),
        Scheme::Ope => column_times::<OpeKind>(rt, column),
    }
}

// Prints the line of a case. The ratio is the time of `lock` to that of the bare seals.
fn report(rt: &HostRuntime, case: Case, count: u32) -> io::Result<()> {
    let times = case_times(rt, case, rows_made(count))?;
    let scheme = scheme_name(case.scheme);
    let ty = type_name(case.ty);
    let shape = case.shape.name();
    if count == 0 {
        let Times { rows, bytes, .. } = times;
        return println!(rt; "{scheme} {ty}, {shape}: {rows} cells of {bytes} bytes");
    }
    let lock = rows_a_second(count, times.lock);
    let unlock = rows_a_second(count, times.unlock);
    let bare = rows_a_second(count, times.bare);
    let ratio = hundredths(times.lock, times.bare);
    let (whole, part) = (ratio / 100, ratio % 100);
    println!(rt;
        "{scheme} {ty}, {shape}: locked a second {lock}, unlocked {unlock}, bare seals {bare}, ratio {whole}.{part:02}"
    )
}

/// Prints the lines of all columns.
pub(crate) fn report_columns(rt: &HostRuntime, count: u32) -> io::Result<()> {
    for scheme in [Scheme::Det, Scheme::Ope, Scheme::Rnd] {
        for ty in [ValueType::Int, ValueType::Text] {
            for shape in [Shape::AllDistinct, Shape::FewDistinct] {
                report(rt, Case { scheme, ty, shape }, count)?;
            }
        }
    }
    Ok(())
}
