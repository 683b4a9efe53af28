// CRC-32 of lent bytes, from a table and bit by bit. 01, How a store is handed over: "The CRC is reflected, polynomial 0xEDB88320, start and
// final exclusive-or all ones." It is wal.rs's checksum (`compute_checksum`); that it is IEEE 802.3's is a law of crate laws.
#![tactic(auto)]

ghost use Rattle.std.specs.Prelude.{◌≡◌, true};
ghost use Rattle.crc32.specs.Table.{byte_table};
ghost use Rattle.basics.specs.Crc32.{shift, shifts, feed_byte, register, crc32, ieee_crc32};

pub mod table;

use table::TABLE;

const POLYNOMIAL: u32 = 0xEDB8_8320;

// "start and final exclusive-or all ones"
pub const ALL_ONES: u32 = u32::MAX;

// The table, laid down for the caller: its rule is one test, which the checker computes over all 256 numbers.
pub fn byte_table() -> [u32; 256]
    ensures { result ≡ byte_table }
{
    TABLE
}

// The register after eight shifts: the byte that falls out says which number goes in.
fn shift_byte(t: &[u32; 256], c: u32) -> u32
    requires { t.now ≡ byte_table }
    ensures { result ≡ shifts 8 c }
{
    (c >> 8) ^ t[(c % 256) as usize]
}

// The register after one more byte.
fn update(t: &[u32; 256], c: u32, b: u8) -> u32
    requires { t.now ≡ byte_table }
    ensures { result ≡ feed_byte c b }
{
    shift_byte(t, c ^ u32::from(b))
}

// The register after all bytes.
fn feed(t: &[u32; 256], c: u32, s: &[u8]) -> u32
    requires { t.now ≡ byte_table }
    ensures { result ≡ register c s.now }
{
    let mut r = c;
    for b in s {
        r = update(t, r, *b);
    }
    r
}

// The checksum of all bytes, from the table that is lent. An entry's checksum is this one, or one of the two below; a header's is looked up in
// the table by crate wal.
pub fn hash_by(t: &[u32; 256], s: &[u8]) -> u32
    requires { t.now ≡ byte_table }
    ensures { (result ≡ crc32 s.now) × (result ≡ ieee_crc32 s.now) }
{
    feed(t, ALL_ONES, s) ^ ALL_ONES
}

// The same from a table of its own.
pub fn hash(s: &[u8]) -> u32
    ensures { (result ≡ crc32 s.now) × (result ≡ ieee_crc32 s.now) }
{
    hash_by(&byte_table(), s)
}

// The checksums of two byte strings, a byte of the one and a byte of the other in turn: a look into the table waits for the one before it in the
// same string only.
pub fn hash_two(t: &[u32; 256], a: &[u8], b: &[u8]) -> (u32, u32)
    requires { t.now ≡ byte_table }
    ensures { (result.0 ≡ crc32 a.now) × (result.1 ≡ crc32 b.now) }
{
    let mut c: u32 = ALL_ONES;
    let mut d: u32 = ALL_ONES;
    for (x, y) in a.iter().zip(b) {
        c = update(t, c, *x);
        d = update(t, d, *y);
    }
    let both = a.len().min(b.len());
    (
        feed(t, c, &a[both..]) ^ ALL_ONES,
        feed(t, d, &b[both..]) ^ ALL_ONES,
    )
}

// The register after one shift: the bit that falls out says whether the polynomial goes in.
fn shift_once(c: u32) -> u32
    ensures { result ≡ shift c }
{
    if c % 2 == 1 {
        (c >> 1) ^ POLYNOMIAL
    } else {
        c >> 1
    }
}

// The register after one more byte, bit by bit.
fn update_bit_by_bit(c: u32, b: u8) -> u32
    ensures { result ≡ feed_byte c b }
{
    let mut r = c ^ u32::from(b);
    for _n in 0..8u32 {
        r = shift_once(r);
    }
    r
}

// The same checksum without the table, for comparison.
pub fn hash_bit_by_bit(s: &[u8]) -> u32
    ensures { (result ≡ crc32 s.now) × (result ≡ ieee_crc32 s.now) }
{
    let mut r = ALL_ONES;
    for b in s {
        r = update_bit_by_bit(r, *b);
    }
    r ^ ALL_ONES
}

// 02, item 3: "both give the same checksum for every byte string".
pub fn both_agree(s: &[u8]) -> bool
    ensures { result ≡ true }
{
    hash(s) == hash_bit_by_bit(s)
}
