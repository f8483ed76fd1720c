ghost use Rattle.std.specs.Prelude.{◌≡◌, ◌≢◌, ℕ, ◌+◌, ◌*◌, ◌^◌, ◌<◌, Some, None, length, drop, IsNone, IfSome};
ghost use Rattle.byteorder.specs.Endian.{big_number};
ghost use Rattle.page_journal.specs.Sums.{sum_on};
ghost use Rattle.page_journal.specs.SideBytes.{entry_width, front_bytes, side_header, header_width, read_rest, entry_bytes};

use byteorder::{BigEndian, ByteOrder};
use rec_types::PAGE_WIDTH;

/// How many bytes of a side file stand before its old pages.
pub(crate) const HEADER_WIDTH: usize = 40;

/// The same of one of the first version.
pub(crate) const OLD_HEADER_WIDTH: usize = 32;

/// How many bytes an old page takes with its number.
pub(crate) const ENTRY_WIDTH: usize = 4100;

/// The text that a side file begins with.
pub(crate) const SIDE_START: [u8; 8] = *b"BMKRJRNL";

const VERSION: u16 = 2;

const OLD_VERSION: u16 = 1;

/// Where the fields stand behind the magic.
const VERSION_AT: usize = 8;

const LONG_AT: usize = 12;

const COUNT_AT: usize = 16;

const REST_AT: usize = 24;

const SUM_AT: usize = 32;

/// Where the sum stands in the first version.
const OLD_SUM_AT: usize = 24;

const SUM_PRIME: u64 = 0x100_0000_01b3;

/// How many bytes stand before the old pages of a side file that says this of the others.
pub(crate) fn header_width(rest: Option<u64>) -> u64
    ensures { result ≡ header_width rest }
{
    match rest {
        Some(_) => HEADER_WIDTH as u64,
        None => OLD_HEADER_WIDTH as u64,
    }
}

/// Where the i-th old page of such a side file stands.
pub(crate) fn entry_start(rest: Option<u64>, i: u32) -> u64
    ensures { result ≡ header_width rest + 4100 * i }
{
    header_width(rest) + ENTRY_WIDTH as u64 * u64::from(i)
}

/// The sum of a side file goes on over the words of these bytes.
pub(crate) fn sum_on(sum: u64, bytes: &[u8]) -> u64
    ensures { result ≡ sum_on sum bytes.now }
{
    let mut sum = sum;
    for i in 0..bytes.len() / 4 {
        let word = BigEndian::read_u32(&bytes[4 * i..]);
        sum = (sum ^ u64::from(word)).wrapping_mul(SUM_PRIME);
    }
    sum
}

/// The header of a side file for a file of so many pages, of which so many are kept and the others have the sum
/// `rest`, with that sum.
fn spell_header(long: u32, kept: u32, rest: u64, sum: u64) -> [u8; HEADER_WIDTH]
    ensures { result ≡ side_header long kept (Some rest) sum }
{
    let mut header = [0; HEADER_WIDTH];
    header[..VERSION_AT].copy_from_slice(&SIDE_START);
    BigEndian::write_u16(&mut header[VERSION_AT..], VERSION);
    BigEndian::write_u32(&mut header[LONG_AT..], long);
    BigEndian::write_u32(&mut header[COUNT_AT..], kept);
    BigEndian::write_u64(&mut header[REST_AT..], rest);
    BigEndian::write_u64(&mut header[SUM_AT..], sum);
    header
}

/// The same, where the sum over the old pages is this one.
pub(crate) fn header_of(long: u32, kept: u32, rest: u64, sum: u64) -> [u8; HEADER_WIDTH]
    ensures { result ≡ side_header long kept (Some rest)
        (sum_on sum (front_bytes long kept (Some rest))) }
{
    let unsummed = spell_header(long, kept, rest, 0);
    spell_header(long, kept, rest, sum_on(sum, &unsummed[..SUM_AT]))
}

/// The header of a side file of the first version, which says nothing of the other pages.
fn spell_old_header(long: u32, kept: u32, sum: u64) -> [u8; OLD_HEADER_WIDTH]
    ensures { result ≡ side_header long kept None sum }
{
    let mut header = [0; OLD_HEADER_WIDTH];
    header[..VERSION_AT].copy_from_slice(&SIDE_START);
    BigEndian::write_u16(&mut header[VERSION_AT..], OLD_VERSION);
    BigEndian::write_u32(&mut header[LONG_AT..], long);
    BigEndian::write_u32(&mut header[COUNT_AT..], kept);
    BigEndian::write_u64(&mut header[OLD_SUM_AT..], sum);
    header
}

/// The same, where the sum over the old pages is this one.
pub(crate) fn old_header_of(long: u32, kept: u32, sum: u64) -> [u8; OLD_HEADER_WIDTH]
    ensures { result ≡ side_header long kept None (sum_on sum (front_bytes long kept None)) }
{
    let unsummed = spell_old_header(long, kept, 0);
    spell_old_header(long, kept, sum_on(sum, &unsummed[..OLD_SUM_AT]))
}

/// How many pages the file had, as the header of its side file says.
pub(crate) fn long_of(header: &[u8; HEADER_WIDTH]) -> u32
    ensures { result ≡ big_number 4 (drop 12 header.now) }
{
    BigEndian::read_u32(&header[LONG_AT..])
}

/// The version of a side file.
fn version_of(header: &[u8; HEADER_WIDTH]) -> u16
    ensures { result ≡ big_number 2 (drop 8 header.now) }
{
    BigEndian::read_u16(&header[VERSION_AT..])
}

/// The sum over the other pages, where one of the second version has it.
fn rest_in(header: &[u8; HEADER_WIDTH]) -> u64
    ensures { result ≡ big_number 8 (drop 24 header.now) }
{
    BigEndian::read_u64(&header[REST_AT..])
}

/// The sum over the other pages that it says, where it says one.
pub(crate) fn rest_of(header: &[u8; HEADER_WIDTH]) -> Option<u64>
    ensures { result ≡ read_rest header.now }
{
    if version_of(header) == VERSION {
        Some(rest_in(header))
    } else {
        None
    }
}

/// How many old pages a side file of so many bytes has, which says this of the others.
pub(crate) fn entries_in(rest: Option<u64>, len: u64) -> Option<u32>
    ensures found { IfSome result (λ m. len ≡ header_width rest + 4100 * m) }
    ensures none { IsNone result → (m : ℕ) → m < 2 ^ 32 → len ≢ header_width rest + 4100 * m }
{
    let entries = len.checked_sub(header_width(rest))?;
    if entries % ENTRY_WIDTH as u64 != 0 {
        return None;
    }
    u32::try_from(entries / ENTRY_WIDTH as u64).ok()
}

/// An old page behind its number.
pub(crate) fn entry_of(n: u32, page: &[u8; PAGE_WIDTH]) -> [u8; ENTRY_WIDTH]
    ensures { result ≡ entry_bytes n page.now }
{
    let mut entry = blank_entry();
    BigEndian::write_u32(&mut entry[..4], n);
    entry[4..].copy_from_slice(page);
    entry
}

/// The number of the page of an entry.
pub(crate) fn number_of(entry: &[u8; ENTRY_WIDTH]) -> u32
    ensures { result ≡ big_number 4 entry.now }
{
    BigEndian::read_u32(entry)
}

/// The page of an entry.
pub(crate) fn page_of(entry: &[u8; ENTRY_WIDTH], to: &mut [u8; PAGE_WIDTH])
    ensures { to.new ≡ drop 4 entry.now }
{
    to.copy_from_slice(&entry[4..]);
}

/// A header of zeros.
pub(crate) fn blank_header() -> [u8; HEADER_WIDTH] {
    [0; HEADER_WIDTH]
}

/// An entry of zeros.
pub(crate) fn blank_entry() -> [u8; ENTRY_WIDTH]
    ensures { length result ≡ entry_width }
{
    [0; ENTRY_WIDTH]
}
