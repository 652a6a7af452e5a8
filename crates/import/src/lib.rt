// A captured response to RT 0 from 0 becomes a drive sheet.
#![tactic(auto)]

ghost use Rattle.std.specs.Prelude.{◌≡◌, ◌+◌, ◌≤◌, length};
ghost use Rattle.lent.specs.Wrote.{Wrote};
ghost use Rattle.text.specs.Response.{header_length};
ghost use Rattle.text.specs.Reading.{length_at, desc_at};
ghost use Rattle.capture.specs.inner.Behind.{behind};
ghost use Rattle.import.specs.Import.{imported};
ghost use Rattle.lent.specs.Maker.{outcome};
ghost use Rattle.import.specs.inner.Pieces.{row_at, HasSpace, Filled, sheet_bytes, Whole};

use lent::Made;
use text::Header;

// ---- a descriptor that the response has whole

// Its entry: the header bytes as they stand, and where its body will.
// Asks: a descriptor that the response has whole, which the check has read, and room for the entry, which 42 has shown before.
fn put_entry(sheet: &mut [u8], at: usize, s: &[u8], place: usize, offset: u32) -> usize
    requires { (place + 4 + length_at s.now place ≤ length s.now) × (at + 8 ≤ length sheet.old) }
    ensures { Wrote sheet.old at (row_at offset (desc_at s.now place)) result sheet.new }
{
    let behind = place + 4;
    layout::place_row(sheet, at, &s[place..behind], offset)
}

// Its body. Many features have none.
// Asks: a descriptor that the response has whole, its Additional Length, and room for the body, which 42 has shown before.
fn put_body(sheet: &mut [u8], at: usize, s: &[u8], place: usize, len: usize) -> usize
    requires { (len ≡ length_at s.now place) × (place + 4 + len ≤ length s.now) × (at + len ≤ length sheet.old) }
    ensures { Wrote sheet.old at (desc_at s.now place).body result sheet.new }
{
    if len == 0 {
        return at;
    }
    lent::place(sheet, at, s, place + 4, len)
}

// ---- the sheet

// The entries of the descriptors from a place on, and their bodies: both in one pass.
// Asks: descriptors that the response has whole, which the check has read, and room for entries and bodies, which 42 has shown before.
fn put_features(sheet: &mut [u8], entries: usize, body: usize, s: &[u8], first: usize) -> usize
    requires { HasSpace s.now entries body first sheet.old }
    ensures { Filled s.now entries body first sheet.old result sheet.new }
{
    let mut entry = entries;
    let mut next = body;
    let mut place = first;
    while place < s.len() {
        let len = reading::length_in(s, place) as usize;
        entry = put_entry(sheet, entry, s, place, next as u32);
        next = put_body(sheet, next, s, place, len);
        place += 4 + len;
    }
    next
}

// The whole sheet: n features behind feature 0.
// Asks: a sheet buffer with room, which 42 has shown before.
fn put_sheet(sheet: &mut [u8], s: &[u8], n: u16) -> usize
    requires { Whole s.now n sheet.old }
    ensures { Wrote sheet.old 0 (sheet_bytes (desc_at s.now header_length).body (behind s.now)) result sheet.new }
{
    let profiles = reading::body_at(s, Header::LENGTH);
    let entries = layout::put_counts(sheet, n, (profiles.len() / 4) as u16);
    let body = lent::copy(sheet, layout::profiles_behind(n), profiles);
    put_features(sheet, entries, body, s, reading::next_at(s, Header::LENGTH))
}

// The drive sheet of a captured response to RT 0 from 0, written to a lent buffer.
pub fn import(response: &[u8], sheet: &mut [u8]) -> Made
    ensures { outcome result sheet.new ≡ imported response.now sheet.old }
{
    let capture = capture::check(response);
    let fault = capture.refusal;
    if fault.number != 0 {
        return Made::refused(fault);
    }
    // Behind the counts and the entries stand profiles and bodies: the response without its header and the first four bytes of each descriptor.
    let n = capture.features;
    let heads = Header::LENGTH + 4 * (n as usize + 1);
    if sheet.len() < layout::profiles_behind(n) + (response.len() - heads) {
        return Made::refused(refusal::SHEET_BUFFER_SHORT);
    }
    Made::written(put_sheet(sheet, response, n))
}
