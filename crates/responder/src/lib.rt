// The box: a sheet, a command and a lent buffer in; the refusal or the count of bytes sent out.
#![tactic(auto)]

ghost use Rattle.std.specs.Prelude.{◌≡◌, ◌+◌, ◌-◌, ◌*◌, ◌%◌, ◌^◌, ◌≤◌, ◌<◌, length};
ghost use Rattle.layout.specs.Layout.{stored};
ghost use Rattle.layout.specs.declared.Layout.TheVariants.{Rows, Columns};
ghost use Rattle.layout.specs.inner.Room.{Room};
ghost use Rattle.sheet.specs.Check.{end_before_entry};
ghost use Rattle.lent.specs.Wrote.{Wrote};
ghost use Rattle.text.specs.Response.{header};
ghost use Rattle.lent.specs.Maker.{outcome};
ghost use Rattle.responder.specs.Answer.{answered};
ghost use Rattle.responder.specs.Trusting.{trusting, trusting_command};
ghost use Rattle.responder.specs.Sized.{sized};
ghost use Rattle.responder.specs.inner.Fitted.{Fitted};
ghost use Rattle.responder.specs.inner.Index.{wanted_end, skips, desc_of, desc_bytes, piece, whole_bytes, going, pieces, piece_size, found_size, pieces_size, span, entries_size, zero_of, at_zero, zero_size, taken_from, taken_size, plan_of, full_bytes, limit};

use command::Command;
use layout::{Layout, Nth};
use lent::Made;
use text::{Feature, Flags, Header};

// ---- which entries are wanted

// The end of the wanted entries that start at from.
fn wanted_end(lay: Layout, s: &[u8], rt: u8, n: u16, sfn: Feature, from: u16) -> u16
    ensures { result ≡ wanted_end rt (stored lay s.now) n sfn.0 from }
{
    if rt < 2 {
        return n;
    }
    if n <= from {
        return from;
    }
    let feature = layout::feature_at(lay, s, from);
    if feature.0 == sfn.0 {
        return from + 1;
    }
    from
}

// RT 1 passes over what is not current.
fn skipped(rt: u8, flags: Flags) -> bool
    ensures { result ≡ skips rt flags.0 }
{
    if rt != 1 {
        return false;
    }
    !flags.current()
}

// ---- how many bytes they are

fn piece_size(lay: Layout, s: &[u8], rt: u8, i: u16) -> usize
    ensures { (result ≡ piece_size rt (stored lay s.now) i) × (result < 260) }
{
    if skipped(rt, layout::flags_at(lay, s, i)) {
        return 0;
    }
    4 + layout::length_at(lay, s, i) as usize
}

// Of any sheet.
fn pieces_slowly(lay: Layout, s: &[u8], rt: u8, from: u16, to: u16) -> usize
    ensures { (result ≡ pieces_size rt (stored lay s.now) from (to - from)) × (result ≤ 259 * (to - from)) }
{
    let mut size: usize = 0;
    let mut i = from;
    while i < to {
        size += piece_size(lay, s, rt, i);
        i += 1;
    }
    size
}

// Of an entry with these flags and a body so long: cases so plain that no branch is left of them.
fn found_size(rt: u8, flags: Flags, len: u8) -> u32
    ensures { (result ≡ found_size rt flags.0 len) × (result < 260) }
{
    if skipped(rt, flags) {
        return 0;
    }
    4 + len as u32
}

// With no look at the sheet's end, by numbers of which a register has room for several.
// Asks: entries of a sheet that has its contents; `pieces_size` has looked.
fn pieces_in(lay: Layout, s: &[u8], rt: u8, n: u16, from: u16, to: u16) -> usize
    requires { Room s.now n × (to ≤ n) }
    ensures { (result ≡ pieces_size rt (stored lay s.now) from (to - from)) × (result ≤ 259 * (to - from)) }
{
    let mut size: u32 = 0;
    let mut i = from;
    while i < to {
        let entry = layout::find(s, Nth { lay, n, i });
        size += found_size(rt, entry.flags, entry.length);
        i += 1;
    }
    size as usize
}

// The same, quickly where the sheet has its contents.
fn pieces_size(lay: Layout, s: &[u8], rt: u8, from: u16, to: u16) -> usize
    ensures { (result ≡ pieces_size rt (stored lay s.now) from (to - from)) × (result ≤ 259 * (to - from)) }
{
    let n = layout::feature_count(s);
    if n < to {
        return pieces_slowly(lay, s, rt, from, to);
    }
    if s.len() < layout::profiles_behind(n) {
        return pieces_slowly(lay, s, rt, from, to);
    }
    pieces_in(lay, s, rt, n, from, to)
}

// Where the body before that of entry i of n ends, with no look at the sheet's end.
// Asks: a sheet of n features that has its contents, and an index that is not behind them; `span_size` has looked.
fn end_in(lay: Layout, s: &[u8], n: u16, i: u16) -> usize
    requires { Room s.now n × (i ≤ n) }
    ensures { result ≡ end_before_entry (stored lay s.now) i }
{
    if i == 0 {
        return layout::bodies_at(s);
    }
    let last = layout::entry_in(s, Nth { lay, n, i: i - 1 });
    last.offset as usize + last.length as usize
}

// From the offsets of any sheet, with no look at the entries between.
fn span_slowly(lay: Layout, s: &[u8], from: u16, to: u16) -> usize
    ensures { (result ≡ span (stored lay s.now) from to) × (result < 5000000000) }
{
    let start = sheet::end_before(lay, s, from);
    let end = sheet::end_before(lay, s, to);
    4 * base::difference(to as usize, from as usize) + base::difference(end, start)
}

// The same, quickly where the sheet has its contents.
fn span_size(lay: Layout, s: &[u8], from: u16, to: u16) -> usize
    ensures { (result ≡ span (stored lay s.now) from to) × (result < 5000000000) }
{
    let n = layout::feature_count(s);
    if n < from {
        return span_slowly(lay, s, from, to);
    }
    if n < to {
        return span_slowly(lay, s, from, to);
    }
    if s.len() < layout::profiles_behind(n) {
        return span_slowly(lay, s, from, to);
    }
    let start = end_in(lay, s, n, from);
    let end = end_in(lay, s, n, to);
    4 * base::difference(to as usize, from as usize) + base::difference(end, start)
}

fn entries_size(lay: Layout, s: &[u8], rt: u8, from: u16, to: u16) -> usize
    ensures { (result ≡ entries_size rt (stored lay s.now) from to) × (result < 5000000000) }
{
    if rt == 1 {
        return pieces_size(lay, s, rt, from, to);
    }
    span_size(lay, s, from, to)
}

fn zero_size(s: &[u8], sfn: Feature) -> usize
    ensures { (result ≡ zero_size s.now sfn.0) × (result < 300000) }
{
    if sfn.0 == 0 {
        return 4 + 4 * (layout::profile_count(s) as usize);
    }
    0
}

#[derive(Clone, Copy)]
struct Plan {
    rt: u8,
    sfn: Feature,
    from: u16,
    to: u16,
    size: usize,
}

// The entries that a request takes where those that it wants start at from, with so many bytes behind the header.
fn taken(lay: Layout, s: &[u8], rt: u8, sfn: Feature, from: u16, size: usize) -> Plan
    ensures { result ≡ plan_of (stored lay s.now) rt sfn.0 from size }
{
    let n = layout::feature_count(s);
    let to = wanted_end(lay, s, rt, n, sfn, from);
    Plan {
        rt: rt,
        sfn: sfn,
        from: from,
        to: to,
        size: size,
    }
}

// The same from where they do start, with as many as there are.
fn planned(lay: Layout, s: &[u8], rt: u8, sfn: Feature) -> Plan
    ensures { result ≡ plan_of (stored lay s.now) rt sfn.0 (taken_from (stored lay s.now) sfn.0) (taken_size (stored lay s.now) rt sfn.0) }
{
    let view = &s[..];
    let n = layout::feature_count(view);
    let from = sheet::first_from(lay, view, n, sfn);
    let part = taken(lay, view, rt, sfn, from, 0);
    let zero = zero_size(view, sfn);
    let rest = entries_size(lay, view, rt, part.from, part.to);
    Plan {
        rt: rt,
        sfn: sfn,
        from: part.from,
        to: part.to,
        size: zero + rest,
    }
}

// ---- the bytes, as far as the buffer has room

// A descriptor, field by field.
fn put_fields(
    out: &mut [u8],
    at: usize,
    number: Feature,
    flags: Flags,
    length: u8,
    body: &[u8],
) -> usize
    ensures { Wrote out.old at (desc_of number.0 flags.0 length body.now) result out.new }
{
    let a = lent::put2(out, at, number.0);
    let b = lent::put(out, a, flags.0);
    let c = lent::put(out, b, length);
    lent::copy(out, c, body)
}

// An entry's descriptor, whatever the sheet has of the entry and the buffer of room.
fn put_entry(out: &mut [u8], at: usize, lay: Layout, s: &[u8], i: u16) -> usize
    ensures { Wrote out.old at (desc_bytes (stored lay s.now) i) result out.new }
{
    let feature = layout::feature_at(lay, s, i);
    let flags = layout::flags_at(lay, s, i);
    let length = layout::length_at(lay, s, i);
    let body = fields::part(s, layout::offset_at(lay, s, i) as usize, length as usize);
    put_fields(out, at, feature, flags, length, body)
}

fn put_slowly(out: &mut [u8], at: usize, lay: Layout, s: &[u8], rt: u8, i: u16) -> usize
    ensures { Wrote out.old at (piece rt (stored lay s.now) i) result out.new }
{
    if skipped(rt, layout::flags_at(lay, s, i)) {
        return at;
    }
    put_entry(out, at, lay, s, i)
}

// The descriptor of an entry from where its body stands and how long that is, with no look at the room.
// Asks: an entry of a sheet that has its contents, room for the descriptor, and a sheet that has the body, which `put_next` has shown before.
fn put_whole(out: &mut [u8], at: usize, s: &[u8], nth: Nth, body: usize, len: usize) -> usize
    requires { Room s.now nth.n × (nth.i < nth.n) × (at + 4 + len ≤ length out.old) × (body + len ≤ length s.now) }
    ensures { Wrote out.old at (whole_bytes (stored nth.lay s.now) nth.i body len) result out.new }
{
    let behind = layout::put_head(out, at, s, nth);
    if len == 0 {
        return behind;
    }
    // most bodies have four bytes: they go with no further look at the length
    if len == 4 {
        let end = body + 4;
        return lent::place4(out, behind, &s[body..end]);
    }
    lent::place(out, behind, s, body, len)
}

// How far a writing of entries has come: the next entry, and where its descriptor starts.
#[derive(Clone, Copy)]
struct Progress {
    i: u16,
    next: usize,
}

// What became of one entry: whether the walk stops before it, and where the next descriptor starts.
#[derive(Clone, Copy)]
struct Stepped {
    stops: bool,
    next: usize,
}

// An entry, where the sheet has the body and the buffer room for the descriptor, or nothing is sent of it; else nothing.
// Asks: an entry of a sheet that has its contents, and a place inside the buffer; the walks have both.
fn put_next(out: &mut [u8], at: usize, lay: Layout, s: &[u8], rt: u8, n: u16, i: u16) -> Stepped
    requires { Room s.now n × (i < n) × (at ≤ length out.old) }
    ensures { Wrote out.old at (going result.stops (piece rt (stored lay s.now) i)) result.next out.new }
{
    let nth = Nth { lay, n, i };
    let entry = layout::find(s, nth);
    let len = entry.length as usize;
    if out.len() < at + 4 + len {
        return Stepped {
            stops: true,
            next: at,
        };
    }
    let body = fields::inside4(s, entry.place) as usize;
    if s.len() < body + len {
        return Stepped {
            stops: true,
            next: at,
        };
    }
    if skipped(rt, entry.flags) {
        return Stepped {
            stops: false,
            next: at,
        };
    }
    let next = put_whole(out, at, s, nth, body, len);
    Stepped { stops: false, next }
}

// Entries one by one, as long as they fit. One walk for each layout, so that no round asks for it.
// Asks: entries of a sheet that has its contents, and a place inside the buffer; `put_fitting` has looked.
fn put_rows(out: &mut [u8], at: usize, s: &[u8], rt: u8, n: u16, from: u16, to: u16) -> Progress
    requires { Room s.now n × (to ≤ n) × (at ≤ length out.old) }
    ensures { Fitted rt (stored Rows s.now) from to out.old at result out.new }
{
    let mut next = at;
    let mut i = from;
    while i < to {
        let step = put_next(out, next, Layout::Rows, s, rt, n, i);
        next = step.next;
        if step.stops {
            return Progress { i, next };
        }
        i += 1;
    }
    Progress { i, next }
}

// The same in columns.
// Asks: entries of a sheet that has its contents, and a place inside the buffer; `put_fitting` has looked.
fn put_columns(out: &mut [u8], at: usize, s: &[u8], rt: u8, n: u16, from: u16, to: u16) -> Progress
    requires { Room s.now n × (to ≤ n) × (at ≤ length out.old) }
    ensures { Fitted rt (stored Columns s.now) from to out.old at result out.new }
{
    let mut next = at;
    let mut i = from;
    while i < to {
        let step = put_next(out, next, Layout::Columns, s, rt, n, i);
        next = step.next;
        if step.stops {
            return Progress { i, next };
        }
        i += 1;
    }
    Progress { i, next }
}

// The same of any sheet.
fn put_fitting(
    out: &mut [u8],
    at: usize,
    lay: Layout,
    s: &[u8],
    rt: u8,
    from: u16,
    to: u16,
) -> Progress
    ensures { Fitted rt (stored lay s.now) from to out.old at result out.new }
{
    let n = layout::feature_count(s);
    if n < to {
        return Progress { i: from, next: at };
    }
    if out.len() < at {
        return Progress { i: from, next: at };
    }
    if s.len() < layout::profiles_behind(n) {
        return Progress { i: from, next: at };
    }
    match lay {
        Layout::Rows => put_rows(out, at, s, rt, n, from, to),
        Layout::Columns => put_columns(out, at, s, rt, n, from, to),
    }
}

// Entries whatever the sheet has of them and the buffer of room. Stops where the buffer is full.
fn put_rest(out: &mut [u8], at: usize, lay: Layout, s: &[u8], rt: u8, from: u16, to: u16) -> usize
    ensures { Wrote out.old at (pieces rt (stored lay s.now) from (to - from)) result out.new }
{
    let mut next = at;
    let mut i = from;
    while i < to {
        if out.len() <= next {
            return next;
        }
        next = put_slowly(out, next, lay, s, rt, i);
        i += 1;
    }
    next
}

// All that fit, and then what is left of the buffer.
fn put_pieces(out: &mut [u8], at: usize, lay: Layout, s: &[u8], rt: u8, from: u16, to: u16) -> usize
    ensures { Wrote out.old at (pieces rt (stored lay s.now) from (to - from)) result out.new }
{
    let fitting = put_fitting(out, at, lay, s, rt, from, to);
    put_rest(out, fitting.next, lay, s, rt, fitting.i, to)
}

// Feature 0, straight from the profiles: its number, its flags, which are 3, and its length go as one number.
fn put_zero(out: &mut [u8], at: usize, count: u16, list: &[u8]) -> usize
    ensures { Wrote out.old at (zero_of count list.now) result out.new }
{
    let length = 4 * (count as usize) % 256;
    let behind = lent::put4(out, at, 3 * 256 + length as u32);
    lent::copy(out, behind, list)
}

fn put_zero_part(out: &mut [u8], at: usize, sfn: Feature, count: u16, list: &[u8]) -> usize
    ensures { Wrote out.old at (at_zero sfn.0 (zero_of count list.now)) result out.new }
{
    if sfn.0 == 0 {
        return put_zero(out, at, count, list);
    }
    at
}

fn put_header(out: &mut [u8], at: usize, h: Header) -> usize
    ensures { Wrote out.old at (header h.data_length h.profile.0) result out.new }
{
    let profile = h.profile;
    let a = lent::put4(out, at, h.data_length);
    // two bytes that are 0 stand before the profile
    lent::put4(out, a, profile.0 as u32)
}

// Data Length with so many bytes behind the header. It has four bytes; what an accepted sheet gives always fits.
fn data_length(size: usize) -> u32
    ensures { result ≡ (size + 4) % 2 ^ 32 }
{
    ((size % 0x1_0000_0000 + 4) % 0x1_0000_0000) as u32
}

// The whole response that a plan takes. The profiles are looked for once, for the header and for feature 0.
fn put_full(out: &mut [u8], lay: Layout, s: &[u8], p: Plan) -> usize
    ensures { Wrote out.old 0 (full_bytes (stored lay s.now) p) result out.new }
{
    let view = &s[..];
    let sfn = p.sfn;
    let count = layout::profile_count(view);
    let list = layout::profiles_part(view);
    let profile = profiles::current(list);
    let header = Header::new(data_length(p.size), profile);
    let a = put_header(out, 0, header);
    let b = put_zero_part(out, a, sfn, count, list);
    put_pieces(out, b, lay, view, p.rt, p.from, p.to)
}

// ---- the answers

// How many bytes are due where so many stand behind the header.
fn due(a: u16, size: usize) -> usize
    ensures { result ≡ limit a size }
{
    let most = text::most(a);
    let rest = base::least(size, most);
    base::least(most, Header::LENGTH + rest)
}

// Answers a request with no check of the sheet: from an accepted one, what `respond` answers.
pub fn send(lay: Layout, s: &[u8], rt: u8, sfn: Feature, a: u16, out: &mut [u8]) -> Made
    ensures { outcome result out.new ≡ trusting (stored lay s.now) rt sfn.0 a out.old }
{
    let plan = planned(lay, s, rt, sfn);
    let limit = due(a, plan.size);
    if out.len() < limit {
        return Made::refused(refusal::BUFFER_SHORT);
    }
    let count = put_full(&mut out[..limit], lay, s, plan);
    Made::written(count)
}

// How many bytes stand behind the header of the full response to a request.
pub fn size(lay: Layout, s: &[u8], rt: u8, sfn: Feature) -> usize
    ensures { result ≡ taken_size (stored lay s.now) rt sfn.0 }
{
    let found = planned(lay, s, rt, sfn);
    found.size
}

// Answers a request with no search for the first entry and no look at the entries to add up what `size` gives: told both, what `send` answers.
pub fn send_sized(
    lay: Layout,
    s: &[u8],
    rt: u8,
    sfn: Feature,
    a: u16,
    from: u16,
    size: usize,
    out: &mut [u8],
) -> Made
    ensures { outcome result out.new ≡ sized (stored lay s.now) rt sfn.0 a from size out.old }
{
    let cut = due(a, size);
    if out.len() < cut {
        return Made::refused(refusal::BUFFER_SHORT);
    }
    let told = taken(lay, s, rt, sfn, from, size);
    let count = put_full(&mut out[..cut], lay, s, told);
    Made::written(count)
}

// Answers a command with no check of the sheet: what a box does that has checked it once.
pub fn respond_accepted(lay: Layout, s: &[u8], command: &[u8], out: &mut [u8]) -> Made
    ensures { outcome result out.new ≡ trusting_command (stored lay s.now) command.now out.old }
{
    let fault = Command::fault(command);
    if fault.number != 0 {
        return Made::refused(fault);
    }
    let c = Command::read(command);
    send(lay, s, c.rt, c.sfn, c.allocation, out)
}

// Answers a command from any sheet.
pub fn respond(lay: Layout, s: &[u8], command: &[u8], out: &mut [u8]) -> Made
    ensures { outcome result out.new ≡ answered (stored lay s.now) command.now out.old }
{
    let unfit = sheet::check(lay, s);
    if unfit.number != 0 {
        return Made::refused(unfit);
    }
    respond_accepted(lay, s, command, out)
}
