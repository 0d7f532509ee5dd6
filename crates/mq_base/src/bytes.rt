ghost use Rattle.std.specs.Prelude.{◌≡◌, ◌<◌, ◌≤◌, length, take, drop, ◌∷◌};
ghost use Rattle.std.specs.List.{All};
ghost use Rattle.std.specs.Ordering.{nat_cmp};
ghost use Rattle.std.specs.Cmp.Lexicographic.{slice_cmp};
ghost use Rattle.mq_base.specs.declared.value.Value.{Value};
ghost use Rattle.mq_base.specs.Value.{type_of, value_cmp};
ghost use Rattle.mq_base.specs.Bytes.{IsShort, Fits, int_block, filled, digits, block_of, digits_of, block_length, digits_length};

use crate::value::Value;

impl Value {
    /// Writes the block, which determines the value, at the front of `out`, and answers its length: 16 for an
    /// INT and 122 for a TEXT, which has at most 120 bytes. What follows the block stays.
    /// docs/CIPHERS.md, "Values as bytes".
    pub fn block_into(&self, out: &mut [u8]) -> usize
        requires room { 122 ≤ length out.old }
        requires short { IsShort self.now }
        ensures written { take result out.new ≡ block_of self.now }
        ensures len { result ≡ length (block_of self.now) }
        ensures by_type { result ≡ block_length (type_of self.now) }
        ensures rest { drop result out.new ≡ drop result out.old }
        ensures fits { Fits self.now }
        ensures determines { (other : Value) → Fits other → block_of other ≡ block_of self.now → other ≡ self.now }
    {
        let width = self.block_width();
        self.fill_block(&mut out[..width]);
        width
    }

    /// Writes the digit string at the front of `out`, and answers its length: 16 for an INT and 120 for a TEXT,
    /// which has at most 120 bytes. Each digit is at most 256. Digit strings of one type, compared digit by
    /// digit, are in the order of the values. What follows the digit string stays.
    /// docs/CIPHERS.md, "Values as bytes".
    pub fn digits_into(&self, out: &mut [u16]) -> usize
        requires room { 120 ≤ length out.old }
        requires short { IsShort self.now }
        ensures written { take result out.new ≡ digits_of self.now }
        ensures len { result ≡ length (digits_of self.now) }
        ensures by_type { result ≡ digits_length (type_of self.now) }
        ensures rest { drop result out.new ≡ drop result out.old }
        ensures fits { Fits self.now }
        ensures ordered { (other : Value) → Fits other → type_of other ≡ type_of self.now
            → slice_cmp nat_cmp (digits_of other) (digits_of self.now) ≡ value_cmp other self.now }
        ensures small { All (λ digit. digit ≤ 256) (digits_of self.now) }
    {
        let width = self.digits_width();
        self.fill_digits(&mut out[..width]);
        width
    }

    /// The number of bytes of the block.
    fn block_width(&self) -> usize
        ensures { result ≡ block_length (type_of self.now) }
    {
        match self {
            Value::Int(_) => 16,
            Value::Text(_) => 122,
        }
    }

    /// The number of digits of the digit string.
    fn digits_width(&self) -> usize
        ensures { result ≡ digits_length (type_of self.now) }
    {
        match self {
            Value::Int(_) => 16,
            Value::Text(_) => 120,
        }
    }

    /// Fills `out` with the block.
    fn fill_block(&self, out: &mut [u8])
        requires room { length out.old ≡ block_length (type_of self.now) }
        requires short { IsShort self.now }
        ensures written { out.new ≡ block_of self.now }
        ensures fits { Fits self.now }
    {
        match self {
            Value::Int(x) => out.copy_from_slice(&int_bytes(*x)),
            Value::Text(text) => fill_with_text(text.as_bytes(), out),
        }
    }

    /// Fills `out` with the digit string.
    fn fill_digits(&self, out: &mut [u16])
        requires room { length out.old ≡ digits_length (type_of self.now) }
        requires short { IsShort self.now }
        ensures written { out.new ≡ digits_of self.now }
        ensures fits { Fits self.now }
        ensures small { All (λ digit. digit ≤ 256) (digits_of self.now) }
    {
        match self {
            Value::Int(x) => fill_with_digits(&int_bytes(*x), out),
            Value::Text(text) => fill_with_digits(text.as_bytes(), out),
        }
    }
}

/// The bytes of x + 2^127, the highest first.
fn int_bytes(x: i128) -> [u8; 16]
    ensures value { result ≡ int_block x }
    ensures len { length result ≡ 16 }
{
    x.cast_unsigned().wrapping_add(1 << 127).to_be_bytes()
}

/// Fills `out` with the number of bytes, the bytes, and zeros.
fn fill_with_text(bytes: &[u8], out: &mut [u8])
    requires short { length bytes.now ≤ 120 }
    requires room { length bytes.now < length out.old }
    ensures { out.new ≡ filled (length out.old) (length bytes.now ∷ bytes.now) }
{
    out.fill(0);
    out[0] = bytes.len() as u8;
    out[1..bytes.len() + 1].copy_from_slice(bytes);
}

/// Fills `out` with one more than each byte, and zeros.
fn fill_with_digits(bytes: &[u8], out: &mut [u16])
    requires { length bytes.now ≤ length out.old }
    ensures written { out.new ≡ filled (length out.old) (digits bytes.now) }
    ensures small { All (λ digit. digit ≤ 256) (digits bytes.now) }
{
    out.fill(0);
    for (i, byte) in bytes.iter().enumerate() {
        out[i] = u16::from(*byte) + 1;
    }
}
