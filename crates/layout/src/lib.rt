// Where a drive sheet's fields stand, read and written: nothing above this crate knows the layout of the contents. A field behind the sheet's end reads as 0.
#![tactic(auto)]

ghost use Rattle.std.specs.Prelude.{List, ℕ, ◌≡◌, ◌+◌, ◌*◌, ◌≤◌, ◌<◌, [], ◌∷◌, ◌++◌, length, get_or, set, take, drop};
ghost use Rattle.fields.specs.Field.{spell};
ghost use Rattle.fields.specs.Part.{PartOf};
ghost use Rattle.lent.specs.Wrote.{Wrote};
ghost use Rattle.layout.specs.Layout.{stored, features, profiles, profiles_behind, profiles_in, counts_bytes, number_place, flags_place, length_place, offset_place, number, flags, body_length, offset};
ghost use Rattle.base.specs.Lists.{each, flat};
ghost use Rattle.layout.specs.Contents.{entry_of, head_bytes, row_bytes, contents};
ghost use Rattle.layout.specs.inner.Found.{found_of};
ghost use Rattle.layout.specs.inner.Room.{Room};

use text::{Feature, Flags};

// How the contents stand: entry behind entry, or all feature numbers, then all flags, all body lengths, all offsets.
#[derive(Clone, Copy)]
pub enum Layout {
    Rows,
    Columns,
}

// ---- what stands alike in both layouts

#[tactic(auto, unfolding(crate::specs::Layout::features))]
pub fn feature_count(s: &[u8]) -> u16
    ensures { result ≡ features s.now }
{
    fields::get2(s, 0)
}

#[tactic(auto, unfolding(crate::specs::Layout::profiles))]
pub fn profile_count(s: &[u8]) -> u16
    ensures { result ≡ profiles s.now }
{
    fields::get2(s, 2)
}

// Where the profiles start behind the entries of that many features.
pub fn profiles_behind(features: u16) -> usize
    ensures { result ≡ profiles_behind features }
{
    4 + 8 * (features as usize)
}

// Where the bodies start.
pub fn bodies_at(s: &[u8]) -> usize
    ensures { result ≡ profiles_behind (features s.now) + 4 * profiles s.now }
{
    4 + 8 * (feature_count(s) as usize) + 4 * (profile_count(s) as usize)
}

// The profiles as they stand, which is as feature 0 sends them.
#[tactic(auto, using(fields::proofs::Parts::part_is), unfolding(crate::specs::Layout::profiles_in))]
pub fn profiles_part(s: &[u8]) -> &[u8]
    ensures { PartOf s.entry (profiles_behind (features s.now)) (profiles_in s.now) result }
{
    let at = 4 + 8 * (feature_count(s) as usize);
    fields::part(s, at, 4 * (profile_count(s) as usize))
}

// ---- where the fields of an entry stand: a formula each, as the format has them; one of constants would need four lines to name these

// Which entry: how the contents stand, how many entries they have, and the index of the one. They go together to whoever looks at an entry.
#[derive(Clone, Copy)]
pub struct Nth {
    pub lay: Layout,
    pub n: u16,
    pub i: u16,
}

#[tactic(auto, unfolding(crate::specs::Layout::number_place))]
fn number_place(nth: Nth) -> usize
    ensures { result ≡ number_place nth.lay nth.n nth.i }
{
    match nth.lay {
        Layout::Rows => 4 + 8 * (nth.i as usize),
        Layout::Columns => 4 + 2 * (nth.i as usize),
    }
}

#[tactic(auto, unfolding(crate::specs::Layout::flags_place))]
fn flags_place(nth: Nth) -> usize
    ensures { result ≡ flags_place nth.lay nth.n nth.i }
{
    match nth.lay {
        Layout::Rows => 4 + 8 * (nth.i as usize) + 2,
        Layout::Columns => 4 + 2 * (nth.n as usize) + nth.i as usize,
    }
}

#[tactic(auto, unfolding(crate::specs::Layout::length_place))]
fn length_place(nth: Nth) -> usize
    ensures { result ≡ length_place nth.lay nth.n nth.i }
{
    match nth.lay {
        Layout::Rows => 4 + 8 * (nth.i as usize) + 3,
        Layout::Columns => 4 + 3 * (nth.n as usize) + nth.i as usize,
    }
}

#[tactic(auto, unfolding(crate::specs::Layout::offset_place))]
fn offset_place(nth: Nth) -> usize
    ensures { result ≡ offset_place nth.lay nth.n nth.i }
{
    match nth.lay {
        Layout::Rows => 4 + 8 * (nth.i as usize) + 4,
        Layout::Columns => 4 + 4 * (nth.n as usize) + 4 * (nth.i as usize),
    }
}

// ---- an entry of any sheet

// Entry i of as many as the sheet says.
fn nth_of(lay: Layout, s: &[u8], i: u16) -> Nth
    ensures { (result.lay ≡ lay) × (result.n ≡ features s.now) × (result.i ≡ i) }
{
    Nth {
        lay,
        n: feature_count(s),
        i,
    }
}

// The feature number of entry i.
#[tactic(auto, unfolding(crate::specs::Layout::number))]
pub fn feature_at(lay: Layout, s: &[u8], i: u16) -> Feature
    ensures { result.0 ≡ number (stored lay s.now) i }
{
    Feature(fields::get2(s, number_place(nth_of(lay, s, i))))
}

#[tactic(auto, unfolding(crate::specs::Layout::flags))]
pub fn flags_at(lay: Layout, s: &[u8], i: u16) -> Flags
    ensures { result.0 ≡ flags (stored lay s.now) i }
{
    Flags(fields::byte(s, flags_place(nth_of(lay, s, i))))
}

#[tactic(auto, unfolding(crate::specs::Layout::body_length))]
pub fn length_at(lay: Layout, s: &[u8], i: u16) -> u8
    ensures { result ≡ body_length (stored lay s.now) i }
{
    fields::byte(s, length_place(nth_of(lay, s, i)))
}

#[tactic(auto, unfolding(crate::specs::Layout::offset))]
pub fn offset_at(lay: Layout, s: &[u8], i: u16) -> u32
    ensures { result ≡ offset (stored lay s.now) i }
{
    fields::get4(s, offset_place(nth_of(lay, s, i)))
}

// ---- an entry of a sheet that has its contents

#[derive(Clone, Copy)]
pub struct Entry {
    pub number: Feature,
    pub flags: Flags,
    pub length: u8,
    pub offset: u32,
}

// That entry, with no look at the sheet's end.
// Asks: a sheet of so many features that has its contents, and one of their indices; its length was held to `profiles_behind` or `bodies_at` before.
#[tactic(auto, using(crate::proofs::Laws::fields_inside), unfolding(crate::specs::Contents::entry_of, crate::specs::Layout::number, crate::specs::Layout::flags, crate::specs::Layout::body_length, crate::specs::Layout::offset))]
pub fn entry_in(s: &[u8], nth: Nth) -> Entry
    requires { Room s.now nth.n × (nth.i < nth.n) }
    ensures { result ≡ entry_of (stored nth.lay s.now) nth.i }
{
    Entry {
        number: Feature(fields::inside2(s, number_place(nth))),
        flags: Flags(fields::inside(s, flags_place(nth))),
        length: fields::inside(s, length_place(nth)),
        offset: fields::inside4(s, offset_place(nth)),
    }
}

// What a writer of descriptors looks at before it writes: flags and body length, and where the offset stands.
#[derive(Clone, Copy)]
pub struct Found {
    pub flags: Flags,
    pub length: u8,
    pub place: usize,
}

// Asks: the same as `entry_in`.
#[tactic(auto, unfolding(crate::specs::inner::Found::found_of, crate::specs::Layout::flags, crate::specs::Layout::body_length))]
pub fn find(s: &[u8], nth: Nth) -> Found
    requires { Room s.now nth.n × (nth.i < nth.n) }
    ensures { result ≡ found_of (stored nth.lay s.now) nth.i }
{
    let flags = Flags(fields::inside(s, flags_place(nth)));
    let length = fields::inside(s, length_place(nth));
    Found {
        flags,
        length,
        place: offset_place(nth),
    }
}

// Number, flags and body length gathered from where they stand.
// Asks: a sheet that has these bytes; `put_head` asks for all of its contents.
fn gathered(s: &[u8], number: usize, flags: usize, len: usize) -> [u8; 4]
    requires { (number + 2 ≤ length s.now) × (flags < length s.now) × (len < length s.now) }
    ensures { result ≡ take 2 (drop number s.now) ++ (get_or s.now flags 0 ∷ get_or s.now len 0 ∷ []) }
{
    let mut head = [0u8; 4];
    let end = number + 2;
    head[..2].copy_from_slice(&s[number..end]);
    head[2] = fields::inside(s, flags);
    head[3] = fields::inside(s, len);
    head
}

// Writes number, flags and body length of an entry, which is how a descriptor starts, with no look at the sheet's end or the buffer's.
// Asks: the same as `entry_in`, and room for the four bytes; whoever writes has looked at the buffer's length.
pub fn put_head(out: &mut [u8], at: usize, s: &[u8], nth: Nth) -> usize
    requires { Room s.now nth.n × (nth.i < nth.n) × (at + 4 ≤ length out.old) }
    ensures { Wrote out.old at (head_bytes (entry_of (stored nth.lay s.now) nth.i)) result out.new }
{
    let number = number_place(nth);
    match nth.lay {
        Layout::Rows => {
            let end = number + 4;
            lent::place4(out, at, &s[number..end])
        }
        Layout::Columns => {
            let head = gathered(s, number, flags_place(nth), length_place(nth));
            lent::place4(out, at, &head)
        }
    }
}

// ---- writing

// Writes the two counts to the front, as far as the buffer has room.
pub fn put_counts(out: &mut [u8], features: u16, profiles: u16) -> usize
    ensures { Wrote out.old 0 (counts_bytes features profiles) result out.new }
{
    let second = lent::put2(out, 0, features);
    lent::put2(out, second, profiles)
}

// Sets the flags of an entry in a lent sheet.
// Asks: an index of the entries, and a sheet that has them all; whoever changes a sheet has checked it.
pub fn set_flags(out: &mut [u8], nth: Nth, flags: Flags)
    requires { (nth.i < nth.n) × (profiles_behind nth.n ≤ length out.old) }
    ensures { out.new ≡ set out.old (flags_place nth.lay nth.n nth.i) flags.0 }
{
    let at = flags_place(nth);
    out[at] = flags.0;
}

// Writes an entry as a row, as far as the buffer has room.
fn put_row(out: &mut [u8], at: usize, e: Entry) -> usize
    ensures { Wrote out.old at (row_bytes e) result out.new }
{
    let a = lent::put2(out, at, e.number.0);
    let b = lent::put(out, a, e.flags.0);
    let c = lent::put(out, b, e.length);
    lent::put4(out, c, e.offset)
}

// Writes an entry as a row that starts with four bytes as they stand: number, flags and body length, which is how a descriptor starts.
// Asks: four bytes, and room for an entry; whoever writes has looked at the buffer's length.
pub fn place_row(out: &mut [u8], at: usize, head: &[u8], offset: u32) -> usize
    requires { (length head.now ≡ 4) × (at + 8 ≤ length out.old) }
    ensures { Wrote out.old at (head.now ++ spell 4 offset) result out.new }
{
    let behind = lent::place4(out, at, head);
    lent::set4(out, behind, offset)
}

// Writes something of each entry of a sheet, one behind the other, as far as the buffer has room.
// Asks: a sheet of n features that has its contents, as `put_contents` does, and a writer that may be called with any entry.
fn put_each<F: Fn(&mut [u8], usize, Entry) -> usize>(
    out: &mut [u8],
    at: usize,
    lay: Layout,
    s: &[u8],
    n: u16,
    put: F,
) -> usize
    requires { Room s.now n × F.IsAlwaysCallable put }
    ensures { (bytes : Entry → List ℕ) → ((o : _) (a : _) (e : _) (r : _) (q : _) → F.post put o a e r q → Wrote o.now a (bytes e) r q.now)
        → Wrote out.old at (flat bytes (each (entry_of (stored lay s.now)) 0 n)) result out.new }
{
    let mut next = at;
    for i in 0..n {
        next = put(out, next, entry_in(s, Nth { lay, n, i }));
    }
    next
}

// Writes the contents of a sheet so laid out in the layout that is asked for, as far as the buffer has room.
// Asks: a sheet of n features that has its contents; whoever converts has checked it.
pub fn put_contents(out: &mut [u8], at: usize, to: Layout, lay: Layout, s: &[u8], n: u16) -> usize
    requires { Room s.now n }
    ensures { Wrote out.old at (contents to (each (entry_of (stored lay s.now)) 0 n)) result out.new }
{
    match to {
        Layout::Rows => put_each(out, at, lay, s, n, put_row),
        Layout::Columns => {
            let a = put_each(out, at, lay, s, n, |o, i, e| lent::put2(o, i, e.number.0));
            let b = put_each(out, a, lay, s, n, |o, i, e| lent::put(o, i, e.flags.0));
            let c = put_each(out, b, lay, s, n, |o, i, e| lent::put(o, i, e.length));
            put_each(out, c, lay, s, n, |o, i, e| lent::put4(o, i, e.offset))
        }
    }
}
