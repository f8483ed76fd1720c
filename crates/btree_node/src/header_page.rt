ghost use Rattle.std.specs.Prelude.{◌≡◌, ◌+◌, ◌↔◌, Ok, IfOk, IfErr, IsTrue, if◌then◌else◌, length};
ghost use Rattle.btree_node.specs.Reading.{part};
ghost use Rattle.btree_node.specs.HeaderSpelling.{magic, header_spelling, HeaderFits, header_at, state_at, HeaderPassesBefore, FirstHeaderFault, clean_state, writing_state};
ghost use Rattle.btree_node.specs.declared.header.Header.{Header};
ghost use Rattle.btree_node.specs.declared.header.HeaderFault.TheVariants.{BadHeader};
ghost use Rattle.btree_node.specs.Layout.{second_version, IsVersion, IsOrder};

use crate::header::{Header, HeaderFault};
use crate::layout::{FIRST_VERSION, GREATEST_ORDER, SECOND_VERSION};
use crate::page_writer::PageWriter;
use crate::part::{part_of, u16_of, u32_of};
use rec_types::PAGE_WIDTH;

/// The text that a record file begins with.
const MAGIC: [u8; 8] = *b"BMKRFILE";

/// The state of a file that was closed.
const CLEAN: u8 = 1;

/// The state of a file that is being written.
const WRITING: u8 = 2;

/// Where the version stands, behind the magic.
pub const VERSION_AT: usize = 8;

/// Where the order of the tree stands.
pub const ORDER_AT: usize = 10;

/// Where the number of pages stands.
pub const PAGES_AT: usize = 12;

/// Where the root's page number stands.
pub const ROOT_AT: usize = 16;

/// Where the number of records stands.
pub const COUNT_AT: usize = 20;

/// Where the state stands, which is the last field.
pub const STATE_AT: usize = 24;

/// The header that the page spells, of a file that was closed. The faults in their order: BadMagic,
/// BadVersion with the version of the page, BadOrder, NotClean, BadHeader.
pub fn read_header(page: &[u8; PAGE_WIDTH]) -> Result<Header, HeaderFault>
    // What is read is spelled so.
    ensures found { IfOk result (λ h. HeaderFits h × (page.now ≡ header_spelling h clean_state)) }

    // What is spelled so is read.
    ensures only { (h : Header) → HeaderFits h → page.now ≡ header_spelling h clean_state
        → result ≡ Ok h }

    // Which fault it is.
    ensures fault { IfErr result (λ e. FirstHeaderFault page.now e) }
{
    let header = header_of(page)?;
    if spell_header(&header, true) == *page {
        Ok(header)
    } else {
        Err(HeaderFault::BadHeader)
    }
}

/// The one page that spells the header, of a file that is closed or being written.
pub fn write_header(header: &Header, clean: bool) -> [u8; PAGE_WIDTH]
    requires order { IsOrder header.now.order }
    requires version { header.now.version ≡ second_version }
    ensures { result ≡ header_spelling header.now (if clean then clean_state else writing_state) }
{
    spell_header(header, clean)
}

/// The same of a header of any version.
#[tactic(auto, unfolding(crate::specs::HeaderSpelling::header_spelling, crate::specs::HeaderSpelling::header_bytes, crate::specs::HeaderSpelling::magic))]
fn spell_header(header: &Header, clean: bool) -> [u8; PAGE_WIDTH]
    ensures { result ≡ header_spelling header.now (if clean then clean_state else writing_state) }
{
    let mut page = PageWriter::new();
    page.put(&MAGIC);
    page.put_u16(header.version);
    page.put_u16(header.order);
    page.put_u32(header.pages);
    page.put_u32(header.root);
    page.put_u32(header.count);
    page.put(&[state_byte(clean)]);
    page.finish()
}

#[tactic(auto, unfolding(crate::specs::HeaderSpelling::magic))]
fn has_magic(page: &[u8; PAGE_WIDTH]) -> bool
    ensures { IsTrue result ↔ (part 0 8 page.now ≡ magic) }
{
    part_of(page, 0, MAGIC.len()) == MAGIC.as_slice()
}

#[tactic(auto, unfolding(crate::specs::HeaderSpelling::state_at))]
fn state_of(page: &[u8; PAGE_WIDTH]) -> u8
    ensures { result ≡ state_at page.now }
{
    page[STATE_AT]
}

fn state_byte(clean: bool) -> u8
    ensures { result ≡ (if clean then clean_state else writing_state) }
{
    if clean { CLEAN } else { WRITING }
}

/// The header that stands at the fixed places of the page.
#[tactic(auto, unfolding(crate::specs::HeaderSpelling::HeaderPasses))]
fn header_of(page: &[u8; PAGE_WIDTH]) -> Result<Header, HeaderFault>
    ensures value { IfOk result (λ h. h ≡ header_at page.now) }
    ensures passes { IfOk result (λ _. HeaderPassesBefore page.now BadHeader) }
    ensures fault { IfErr result (λ e. FirstHeaderFault page.now e) }
{
    if !has_magic(page) {
        return Err(HeaderFault::BadMagic);
    }
    let version = u16_of(page, VERSION_AT);
    if !is_version(version) {
        return Err(HeaderFault::BadVersion(version));
    }
    if !is_order(u16_of(page, ORDER_AT)) {
        return Err(HeaderFault::BadOrder);
    }
    if state_of(page) == WRITING {
        return Err(HeaderFault::NotClean);
    }
    Ok(fields_of(page))
}

/// Whether a file of that version is opened.
fn is_version(version: u16) -> bool
    ensures { IsTrue result ↔ IsVersion version }
{
    version == FIRST_VERSION || version == SECOND_VERSION
}

fn is_order(k: u16) -> bool
    ensures { IsTrue result ↔ IsOrder k }
{
    (1..=GREATEST_ORDER).contains(&k)
}

#[tactic(auto, unfolding(crate::specs::HeaderSpelling::header_at))]
fn fields_of(page: &[u8; PAGE_WIDTH]) -> Header
    ensures { result ≡ header_at page.now }
{
    Header {
        version: u16_of(page, VERSION_AT),
        order: u16_of(page, ORDER_AT),
        pages: u32_of(page, PAGES_AT),
        root: u32_of(page, ROOT_AT),
        count: u32_of(page, COUNT_AT),
    }
}
