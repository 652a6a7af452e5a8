// A captured response is mended: a copy without the faults that can be mended, and a list of the changes.
#![tactic(auto)]

ghost use Rattle.std.specs.Prelude.{◌≡◌, ◌&&◌, [], ◌∷◌, ◌+◌, ◌≤◌, ◌<◌, leb, length, take};
ghost use Rattle.base.specs.Lists.{flat};
ghost use Rattle.lent.specs.Wrote.{Wrote};
ghost use Rattle.text.specs.Response.{bytes, header_length};
ghost use Rattle.text.specs.Reading.{length_at, desc_at};
ghost use Rattle.reading.specs.Places.{descs};
ghost use Rattle.reading.specs.Completed.{complete_fault};
ghost use Rattle.mend.specs.Mended.{with_both, forbidden, persistent_mended, flags_mended, mended_desc, mended_descs};
ghost use Rattle.mend.specs.Changes.{change_at, changes, notes};
ghost use Rattle.mend.specs.Mend.{outcome, refused, mends};
ghost use Rattle.mend.specs.inner.Plan.{off_in, plan_of, planned, planned_body, dirty};
ghost use Rattle.mend.specs.inner.Fixes.{Standing, Fixes};

use legal::Row;
use refusal::Refusal;
use text::{Feature, Flags, Header};

// What a mending answers: the refusal or none, how many bytes the copy has, and how many changes were noted.
#[derive(Clone, Copy)]
pub struct Mended {
    pub refusal: Refusal,
    pub length: usize,
    pub changes: usize,
}

// How a body is mended: by its row's masks, which byte 7 may count, and whether its cue sheet length is cleared.
#[derive(Clone, Copy)]
struct Plan {
    row: Row,
    n: u8,
    off: bool,
}

// ---- the flags

// Both flags set.
fn with_both(both: bool, flags: u8) -> u8
    ensures { result ≡ with_both both flags }
{
    if both {
        return flags / 4 * 4 + 3;
    }
    flags
}

// Whether Persistent is set where 34 forbids it, or 35, where that rule applies.
fn is_forbidden(barred: bool, flags: Flags) -> bool
    ensures { result ≡ forbidden barred flags.0 }
{
    if !flags.persistent() {
        return false;
    }
    if !flags.current() {
        return true;
    }
    barred
}

// Persistent cleared where it may not be.
fn persistent_mended(barred: bool, flags: u8) -> u8
    ensures { result ≡ persistent_mended barred flags }
{
    if is_forbidden(barred, Flags(flags)) {
        return flags / 4 * 4 + flags % 2;
    }
    flags
}

// The flags of a feature; barred says whether 35 applies.
fn flags_mended(f: Feature, barred: bool, flags: Flags) -> u8
    ensures { result ≡ flags_mended (leb f.0 0x0003) barred flags.0 }
{
    persistent_mended(barred, with_both(f.0 <= 0x0003, flags.0 % 64))
}

// Whether 35 applies.
fn is_barred(row: Row, removable: bool) -> bool
    ensures { result ≡ (row.3 && removable) }
{
    if !row.3 {
        return false;
    }
    removable
}

// ---- a body byte

// Whether body byte k is a part of a cue sheet length that is cleared.
fn is_cleared(off: bool, k: usize) -> bool
    ensures { result ≡ (off && leb 1 k && leb k 3) }
{
    if !off {
        return false;
    }
    if k < 1 {
        return false;
    }
    k <= 3
}

// Body byte k, which is b, mended.
fn byte_mended(plan: Plan, k: usize, b: u8) -> u8
    ensures { result ≡ planned plan k b }
{
    if is_cleared(plan.off, k) {
        return 0;
    }
    let mask = legal::mask_at(plan.row, plan.n, k);
    b & mask
}

// ---- a body

// Whether the cue sheet length is cleared.
fn is_off(f: Feature, body: &[u8]) -> bool
    ensures { result ≡ off_in f.0 body.now }
{
    if f.0 != 0x002E {
        return false;
    }
    let byte4 = fields::byte(body, 0);
    byte4 / 32 % 2 == 0
}

fn plan_of(row: Row, f: Feature, body: &[u8]) -> Plan
    ensures { result ≡ plan_of row f.0 body.now }
{
    Plan {
        row: row,
        n: fields::byte(body, 3),
        off: is_off(f, body),
    }
}

// Whether there is something to mend in a body: its Version is 0, its length is right, and the check finds 36 or 37.
fn is_dirty(row: Row, f: Feature, flags: Flags, body: &[u8]) -> bool
    ensures { result ≡ dirty row f.0 flags.0 body.now }
{
    let view = &body[..];
    if row.0.0 == legal::OTHER.0 {
        return false;
    }
    if flags.version() != 0 {
        return false;
    }
    let length = row.1;
    if legal::wrong_length(length, flags, fields::byte(view, 3), view.len()) {
        return false;
    }
    // field by field: a row whose fields were stored one by one is not fetched by one load then, which would wait for all of them
    let feature = row.0;
    let masks = row.2;
    let own = Row(feature, length, masks, row.3);
    let reserved = legal::reserved_fault(own, view);
    if reserved.number != 0 {
        return true;
    }
    let cue = legal::cue_fault(f, view);
    cue.number != 0
}

// ---- how many changes there are

// How many changes there are between two bytes.
fn differs(a: u8, b: u8) -> usize
    ensures { (result ≡ length (change_at 0 a b)) × (result ≤ 1) }
{
    if a == b {
        return 0;
    }
    1
}

fn count_body(plan: Plan, body: &[u8]) -> usize
    ensures { (result ≡ length (changes 0 body.now (planned_body plan body.now))) × (result ≤ length body.now) }
{
    let mut count: usize = 0;
    let mut k = 0;
    while k < body.len() {
        let b = body[k];
        count += differs(b, byte_mended(plan, k, b));
        k += 1;
    }
    count
}

// The changes of the descriptor at a place.
// Asks: a descriptor that is whole in the response; the walk has looked.
fn count_at(removable: bool, s: &[u8], at: usize) -> usize
    requires { at + 4 + length_at s.now at ≤ length s.now }
    ensures { (result ≡ length (changes 0 (bytes (desc_at s.now at)) (bytes (mended_desc removable (desc_at s.now at))))) × (result ≤ 4 + length_at s.now at) }
{
    let f = reading::number_in(s, at);
    let flags = reading::flags_in(s, at);
    let body = reading::body_at(s, at);
    let row = legal::row_of(f);
    let one = differs(flags.0, flags_mended(f, is_barred(row, removable), flags));
    if is_dirty(row, f, flags, body) {
        return one + count_body(plan_of(row, f, body), body);
    }
    one
}

// Asks: a response that is accepted and complete, which the reading's numbers and 29 have shown before.
fn count_all(removable: bool, s: &[u8]) -> usize
    requires { (complete_fault s.now).number ≡ 0 }
    ensures { result ≡ length (changes 0 (flat bytes (descs s.now)) (flat bytes (mended_descs removable (descs s.now)))) }
{
    let mut count: usize = 0;
    let mut at = Header::LENGTH;
    while at + 4 <= s.len() {
        count += count_at(removable, s, at);
        at = reading::next_at(s, at);
    }
    count
}

// ---- the copy and the list

// Notes a change, if there is one.
// Asks: a place of a response, which 14 holds below 65,535.
fn note(list: &mut [u32], n: usize, place: usize, old: u8, new: u8) -> usize
    requires { place < 65536 }
    ensures { Wrote list.old n (notes (change_at place old new)) result list.new }
{
    if old == new {
        return n;
    }
    if n < list.len() {
        list[n] = (place as u32 * 256 + old as u32) * 256 + new as u32;
        return n + 1;
    }
    n
}

// Puts a byte over the one that stands at a place, and notes the change, if it is one.
// Asks: a place of the copy, and below 65,536; the walk stays inside a response.
fn fix(copy: &mut [u8], list: &mut [u32], n: usize, place: usize, new: u8) -> usize
    requires { (place < length copy.old) × (place < 65536) }
    ensures { Fixes copy.old list.old n place (new ∷ []) result copy.new list.new }
{
    let old = copy[place];
    copy[place] = new;
    note(list, n, place, old, new)
}

// Puts a mended body over the one that stands at a place.
// Asks: room for the body in the copy, all of it below 65,536; it is a body of a response that stands in the copy.
fn fix_body(
    copy: &mut [u8],
    list: &mut [u32],
    n: usize,
    place: usize,
    plan: Plan,
    body: &[u8],
) -> usize
    requires { (place + length body.now ≤ length copy.old) × (place + length body.now ≤ 65536) }
    ensures { Fixes copy.old list.old n place (planned_body plan body.now) result copy.new list.new }
{
    let mut next = n;
    let mut k = 0;
    while k < body.len() {
        next = fix(copy, list, next, place + k, byte_mended(plan, k, body[k]));
        k += 1;
    }
    next
}

// The descriptor at a place.
// Asks: a whole descriptor of the response, which stands in the copy as it does there; nothing behind it was put over yet.
fn fix_at(
    copy: &mut [u8],
    list: &mut [u32],
    n: usize,
    removable: bool,
    s: &[u8],
    at: usize,
) -> usize
    requires { Standing s.now at copy.old }
    ensures { Fixes copy.old list.old n at (bytes (mended_desc removable (desc_at s.now at))) result copy.new list.new }
{
    let f = reading::number_in(s, at);
    let flags = reading::flags_in(s, at);
    let body = reading::body_at(s, at);
    let row = legal::row_of(f);
    let next = fix(
        copy,
        list,
        n,
        at + 2,
        flags_mended(f, is_barred(row, removable), flags),
    );
    if is_dirty(row, f, flags, body) {
        return fix_body(copy, list, next, at + 4, plan_of(row, f, body), body);
    }
    next
}

// Asks: a complete response, and a copy that begins with it; `mend` has copied it.
fn fix_all(copy: &mut [u8], list: &mut [u32], removable: bool, s: &[u8]) -> usize
    requires { ((complete_fault s.now).number ≡ 0) × (take (length s.now) copy.old ≡ s.now) }
    ensures { Fixes copy.old list.old 0 header_length (flat bytes (mended_descs removable (descs s.now))) result copy.new list.new }
{
    let mut n: usize = 0;
    let mut at = Header::LENGTH;
    while at + 4 <= s.len() {
        n = fix_at(copy, list, n, removable, s, at);
        at = reading::next_at(s, at);
    }
    n
}

// ---- the mender

fn refused(fault: Refusal) -> Mended
    ensures { result ≡ refused fault }
{
    Mended {
        refusal: fault,
        length: 0,
        changes: 0,
    }
}

// Mends a complete response to RT 0 from 0: a copy at the front of one buffer, the changes at the front of another, each as place * 65536 + old byte * 256 +
// new byte.
pub fn mend(response: &[u8], copy: &mut [u8], list: &mut [u32]) -> Mended
    ensures { outcome result copy.new list.new ≡ mends response.now copy.old list.old }
{
    let reading = reading::complete(response);
    let fault = reading.refusal;
    if fault.number != 0 {
        return refused(fault);
    }
    if copy.len() < response.len() {
        return refused(refusal::COPY_SHORT);
    }
    let removable = reading::reports(Feature(3), response);
    let count = count_all(removable, response);
    if list.len() < count {
        return refused(refusal::CHANGES_SHORT);
    }
    let length = lent::copy(copy, 0, response);
    let changes = fix_all(copy, list, removable, response);
    Mended {
        refusal: refusal::ACCEPTED,
        length: length,
        changes: changes,
    }
}
