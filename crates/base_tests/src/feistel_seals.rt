//! The vectors of the deterministic seal.
ghost use Rattle.std.specs.Prelude.{◌<◌};

use crate::keys::{MIXED, ONES, ZEROS};
use cipher_feistel::{seal_into, unseal_into};
use std::alloc::{AllocError, Global};
use std::process::Abort;
use std::test::Fail;

// A key, the first bytes of a block, which zero bytes follow up to the cell's length, and the cell.
const VECTORS: [([u8; 32], &str, &str); 8] = [
    // the integer -2^63
    (
        ZEROS,
        "7fffffffffffffff80",
        "82743f154f76ef56be64c0a1a26c56c6",
    ),
    (
        MIXED,
        "7fffffffffffffff80",
        "b0c092957365d1ccc1f6f9b071442b0f",
    ),
    (
        ONES,
        "7fffffffffffffff80",
        "c0676a0107857831afa6477a93917916",
    ),
    // the text "stroke"
    (
        MIXED,
        "067374726f6b65",
        "a94dbec53c250b9bdb4c51ddc18ad081120dc4f4a8a04e507174bbec9b811ea8a763219fdcb86df15815397f21d4dc1fd889a0ab098eaf5741820191bc157cbf5b46a0fa0003b8942fd8e41a281f351f88c8b366e905c59a6268d0617b9a3123f2769e525096a8ca2c993e9e27a2ca11b93b8c0dbf17b23ee8df",
    ),
    // the text of the bytes 0 to 59
    (
        ZEROS,
        "3c000102030405060708090a0b0c0d0e0f101112131415161718191a1b1c1d1e1f202122232425262728292a2b2c2d2e2f303132333435363738393a3b",
        "59672d751bcd840434162499f8977a3bc4fedd51b6638ed7cbd81e19b8823d1aa74ed0c3bd8dec68c02a1022f277cedcfbb67f04c9e740e959ea9a239e986114b807e7a8795e7615bdb187cdb6168a6286a0c0dd6a55032f98e13a800481c524767fc75a8e146093d786772b432ee0835d5922c49c436ce583af",
    ),
    // 2, 6 and 122 bytes, computed with Python's hashlib
    (MIXED, "0102", "c07d"),
    (MIXED, "7374726f6b65", "b6b24abebf75"),
    (
        MIXED,
        "000102030405060708090a0b0c0d0e0f101112131415161718191a1b1c1d1e1f202122232425262728292a2b2c2d2e2f303132333435363738393a3b3c3d3e3f404142434445464748494a4b4c4d4e4f505152535455565758595a5b5c5d5e5f606162636465666768696a6b6c6d6e6f70717273747576777879",
        "b34c4cc69868d43e8354734602999a8cccf01b2dec129317aaa931a9d37ad04a4cd8f8d321eb72c02465bf8ede46aba58ec56a5a7dfb36e9b301667cf7dc39bb1dfddcc412cbd47a539e3e66c88f7d396b3ab9f3fa03232059de8c7d8f5a236f3dd5de1a8333eea8bbeba6428a42777efcd1f58f77d0aecbb97c",
    ),
];

fn digit(byte: u8) -> u8
    ensures { result < 16 }
{
    match byte {
        b'0'..=b'9' => byte - b'0',
        b'a'..=b'f' => byte - b'a' + 10,
        _ => 0,
    }
}

// The bytes that the hexadecimal digits of `text` spell.
fn bytes_of(alloc: Global, text: &str) -> Result<Vec<u8>, AllocError> {
    let mut bytes = Vec::new(alloc);
    for pair in text.as_bytes().chunks_exact(2) {
        bytes.push(digit(pair[0]) * 16 + digit(pair[1]))?;
    }
    Ok(bytes)
}

// Whether the block has the cell, and the cell gives the block back.
fn is_vector(key: &[u8; 32], block: &[u8], cell: &[u8]) -> bool {
    if cell.len() % 2 != 0 || cell.len() > 122 || block.len() != cell.len() {
        return false;
    }
    let mut out = [0; 122];
    let out = &mut out[..cell.len()];
    seal_into(key, block, out);
    if *out != *cell {
        return false;
    }
    unseal_into(key, cell, out);
    *out == *block
}

fn check(
    rt: &impl Abort,
    alloc: Global,
    rows: &[([u8; 32], &str, &str)],
) -> Result<(), AllocError> {
    for (key, front, cell) in rows {
        let cell = bytes_of(alloc, cell)?;
        let mut block = bytes_of(alloc, front)?;
        block.resize(cell.len(), 0)?;
        assert!(rt; is_vector(key, &block, &cell), "the block of {front}");
    }
    Ok(())
}

#[test]
fn seals_and_opens(rt: HostRuntime) -> Result<(), Fail> {
    check(&rt, rt.alloc(), &VECTORS)?;
    Ok(())
}
