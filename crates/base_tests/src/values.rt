//! Values as bytes and as digits, their order, sets of attributes, lists and texts.
ghost use Rattle.std.specs.Prelude.{◌≡◌, IfOk};
ghost use Rattle.mq_base.specs.Bytes.{IsShort};
ghost use Rattle.mq_base.specs.declared.value.Value.TheVariants as value;

use mq_base::{AttrId, AttrSet, NoMemory, Seq, Text, Value};
use std::alloc::Global;
use std::cmp::Ordering;
use std::process::Abort;
use std::test::Fail;

fn text(alloc: Global, bytes: &[u8]) -> Result<Value, NoMemory>
    ensures { IfOk result (λ v. v ≡ value.Text bytes.now) }
{
    Ok(Value::Text(Text::copied(alloc, bytes)?))
}

// Whether the block is `front` and zeros up to the width, and the place after it stays.
fn has_block(value: &Value, width: usize, front: &[u8]) -> bool
    requires { IsShort value.now }
{
    if front.len() > width || width > 122 {
        return false;
    }
    let mut want = [7u8; 123];
    want[..width].fill(0);
    want[..front.len()].copy_from_slice(front);
    let mut out = [7u8; 123];
    value.block_into(&mut out) == width && out == want
}

// Whether the digit string is `front` and zeros up to the width, and the place after it stays.
fn has_digits(value: &Value, width: usize, front: &[u16]) -> bool
    requires { IsShort value.now }
{
    if front.len() > width || width > 120 {
        return false;
    }
    let mut want = [7u16; 121];
    want[..width].fill(0);
    want[..front.len()].copy_from_slice(front);
    let mut out = [7u16; 121];
    value.digits_into(&mut out) == width && out == want
}

// A number, the bytes of its block as a number, and its digits.
const INTEGERS: [(i128, u128, [u16; 16]); 5] = [
    (i128::MIN, 0, [1; 16]),
    (
        -0x8000_0000_0000_0000,
        0x7fff_ffff_ffff_ffff_8000_0000_0000_0000,
        [
            128, 256, 256, 256, 256, 256, 256, 256, 129, 1, 1, 1, 1, 1, 1, 1,
        ],
    ),
    (
        -1,
        0x7fff_ffff_ffff_ffff_ffff_ffff_ffff_ffff,
        [
            128, 256, 256, 256, 256, 256, 256, 256, 256, 256, 256, 256, 256, 256, 256, 256,
        ],
    ),
    (
        5,
        0x8000_0000_0000_0000_0000_0000_0000_0005,
        [129, 1, 1, 1, 1, 1, 1, 1, 1, 1, 1, 1, 1, 1, 1, 6],
    ),
    (i128::MAX, u128::MAX, [256; 16]),
];

fn check_integers(rt: &impl Abort, rows: &[(i128, u128, [u16; 16])]) {
    for (number, block, digits) in rows {
        let value = Value::Int(*number);
        assert!(rt;
            has_block(&value, 16, &block.to_be_bytes()),
            "the block of {number}"
        );
        assert!(rt; has_digits(&value, 16, digits), "the digits of {number}");
    }
}

#[test]
fn writes_integers(rt: HostRuntime) {
    check_integers(&rt, &INTEGERS);
}

// A text, the front of its block and the front of its digits.
const TEXTS: [(&[u8], &[u8], &[u16]); 4] = [
    (b"", &[0], &[]),
    (b"a", &[1, 97], &[98]),
    (b"a\0", &[2, 97, 0], &[98, 1]),
    (
        b"stroke",
        &[6, 115, 116, 114, 111, 107, 101],
        &[116, 117, 115, 112, 108, 102],
    ),
];

// Whether a text of at most 120 bytes has this front of its block and of its digits.
fn is_written(alloc: Global, bytes: &[u8], block: &[u8], digits: &[u16]) -> Result<bool, NoMemory> {
    if bytes.len() > 120 {
        return Ok(false);
    }
    let value = text(alloc, bytes)?;
    Ok(has_block(&value, 122, block) && has_digits(&value, 120, digits))
}

fn check_texts(
    rt: &impl Abort,
    alloc: Global,
    rows: &[(&[u8], &[u8], &[u16])],
) -> Result<(), NoMemory> {
    for (bytes, block, digits) in rows {
        assert!(rt; is_written(alloc, bytes, block, digits)?, "{bytes:?}");
    }
    Ok(())
}

#[test]
fn writes_texts(rt: HostRuntime) -> Result<(), Fail> {
    check_texts(&rt, rt.alloc(), &TEXTS)?;
    let mut longest = [255u8; 121];
    longest[0] = 120;
    assert!(rt; is_written(rt.alloc(), &[255; 120], &longest, &[256; 120])?);
    Ok(())
}

// The digits of a text of at most 120 bytes.
fn digits_of(alloc: Global, bytes: &[u8]) -> Result<[u16; 120], NoMemory> {
    let mut digits = [7u16; 120];
    if bytes.len() <= 120 {
        text(alloc, bytes)?.digits_into(&mut digits);
    }
    Ok(digits)
}

#[test]
fn keeps_the_order_of_texts(rt: HostRuntime) -> Result<(), Fail> {
    let empty = digits_of(rt.alloc(), b"")?;
    let shorter = digits_of(rt.alloc(), b"a")?;
    let longer = digits_of(rt.alloc(), b"a\0")?;
    assert!(rt; empty < shorter);
    assert!(rt; shorter < longer);
    Ok(())
}

const NUMBERS: [i128; 4] = [i128::MIN, -10, 9, 10];

const LATER_TEXTS: [&[u8]; 4] = [b"", b"B", b"B\0", b"a"];

// Numbers and then texts, as values.
fn values_of(alloc: Global, numbers: &[i128], texts: &[&[u8]]) -> Result<Vec<Value>, NoMemory> {
    let mut values = Vec::new(alloc);
    for number in numbers {
        values.push(Value::Int(*number))?;
    }
    for bytes in texts {
        values.push(text(alloc, bytes)?)?;
    }
    Ok(values)
}

// Whether the value at this place compares with each as the places do.
fn is_placed(values: &[Value], at: usize) -> bool {
    for (i, other) in values.iter().enumerate() {
        if at < values.len() && values[at].cmp(other) != at.cmp(&i) {
            return false;
        }
    }
    true
}

#[test]
fn orders_values(rt: HostRuntime) -> Result<(), Fail> {
    let values = values_of(rt.alloc(), &NUMBERS, &LATER_TEXTS)?;
    assert_eq!(rt; values.len(), 8);
    for at in 0..8 {
        assert!(rt; is_placed(&values, at), "{at}");
    }
    Ok(())
}

#[test]
fn sets_of_attributes(rt: HostRuntime) {
    let set = AttrSet::EMPTY.with(AttrId(3)).with(AttrId(63));
    let other = AttrSet(0b11000);
    let holds = [
        set == AttrSet(0x8000_0000_0000_0008),
        set.has(AttrId(63)),
        !set.has(AttrId(4)),
        set.union(other) == AttrSet(0x8000_0000_0000_0018),
        set.intersection(other) == AttrSet(8),
        set.difference(other) == AttrSet(0x8000_0000_0000_0000),
        AttrSet(8).is_subset(set),
        !set.is_subset(AttrSet(8)),
        AttrSet::EMPTY.is_empty(),
        set.first() == Some(AttrId(3)),
        AttrSet::EMPTY.first() == None,
    ];
    assert_eq!(rt; holds, [true; 11]);
}

// Whether two numbers that are pushed are a list, which comes after a front of it.
fn is_pushed(alloc: Global) -> Result<bool, NoMemory> {
    let mut numbers = Seq::new(alloc);
    numbers.push(4u8)?;
    let mut shorter = Seq::new(alloc);
    shorter.push(4u8)?;
    numbers.push(2)?;
    let is_listed = numbers.as_slice() == [4, 2].as_slice();
    let same = Seq::of(numbers.into_vec());
    Ok(is_listed && same.cmp(&shorter) == Ordering::Greater)
}

// Whether a text keeps its bytes, also as a copy, and stands after an earlier one.
fn is_kept(alloc: Global) -> Result<bool, NoMemory> {
    let name = Text::copied(alloc, b"stroke")?;
    let copy = name.clone()?;
    let earlier = Text::of(Vec::from_slice(alloc, b"s")?);
    Ok(name.as_bytes() == b"stroke".as_slice() && copy == name && earlier < name)
}

#[test]
fn lists_and_texts(rt: HostRuntime) -> Result<(), Fail> {
    assert!(rt; is_pushed(rt.alloc())?);
    assert!(rt; is_kept(rt.alloc())?);
    Ok(())
}

#[test]
fn want_of_memory_has_its_words(rt: HostRuntime) -> Result<(), Fail> {
    assert_eq!(rt; NoMemory.to_string(rt.alloc())?.as_str(), "no memory");
    Ok(())
}
