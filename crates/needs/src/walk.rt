// The one walk over the lines of a table and the descriptors of a response.
ghost use Rattle.std.specs.Prelude.{◌≡◌, true};
ghost use Rattle.text.specs.Reading.{desc_at};
ghost use Rattle.reading.specs.Places.{descs};
ghost use Rattle.reading.specs.Completed.{complete_fault};
ghost use Rattle.reading.specs.inner.Between.{from};
ghost use Rattle.needs.specs.Required.{marked};
ghost use Rattle.needs.specs.Judge.{line_wrong, desc_wrong, is_too_long, said, lowest_in};
ghost use Rattle.needs.specs.inner.Table.{lines_in};
ghost use Rattle.needs.specs.inner.Walk.{ascends, fit_number, asks_nothing, after, step_here, step_from, step_for, first_long};

use super::table::{Column, Need};
use super::{Judgement, Wrong, table};
use text::{Feature, Flags, Header};

// Whether a descriptor is what a line asks for, or what is wrong with it.
#[derive(Clone, Copy)]
pub enum Fit {
    Fits,
    Lacks(Wrong),
}

// A step of the walk over the descriptors: for the next line it goes on at a place, or this feature breaks the profile.
#[derive(Clone, Copy)]
pub enum Step {
    On(usize),
    Stop(Feature, Wrong),
}

// No body is longer: Additional Length is a byte.
const ANY_LENGTH: u8 = 255;

// ---- the rules, on numbers

// Whether a line stands in the column with this mark.
pub fn is_marked(mark: u8, need: Need) -> bool
    ensures { result ≡ marked mark need }
{
    let shared = need.0 & mark;
    shared != 0
}

// Whether flags and a body of len bytes, with this byte at the line's place, are what the line asks for.
fn fit_rule(need: Need, longest: u8, flags: Flags, len: usize, byte: u8) -> Fit
    ensures { fit_number result ≡ line_wrong need longest flags.0 len byte }
{
    let least = need.2;
    if len < least as usize {
        return Fit::Lacks(Wrong::TooShort);
    }
    let bits = need.4;
    let kept = byte & bits;
    if kept != bits {
        return Fit::Lacks(Wrong::BitClear);
    }
    let wanted = need.5;
    let set = flags.0 & wanted;
    if set != wanted {
        return Fit::Lacks(Wrong::NotCurrent);
    }
    if (longest as usize) < len {
        return Fit::Lacks(Wrong::TooLong);
    }
    Fit::Fits
}

// Whether a line asks for its feature only, whatever its flags and body are.
fn asks_nothing(need: Need, longest: u8) -> bool
    ensures { result ≡ asks_nothing need longest }
{
    if longest != ANY_LENGTH {
        return false;
    }
    if need.2 != 0 {
        return false;
    }
    if need.4 != 0 {
        return false;
    }
    need.5 == 0
}

// ---- the rules, at a descriptor

// Whether the descriptor at a place is what a line asks for. Most lines need no look at flags and body.
pub fn fit_at(need: Need, longest: u8, s: &[u8], at: usize) -> Fit
    ensures { fit_number result ≡ desc_wrong need longest (desc_at s.now at) }
{
    if asks_nothing(need, longest) {
        return Fit::Fits;
    }
    let flags = reading::flags_at(s, at);
    let body = reading::body_at(s, at);
    fit_rule(
        need,
        longest,
        flags,
        body.len(),
        fields::byte(body, need.3 as usize),
    )
}

// Whether the descriptor at a place is longer than a body may be.
pub fn long_at(longest: u8, s: &[u8], at: usize) -> bool
    ensures { result ≡ is_too_long longest (desc_at s.now at) }
{
    if longest == ANY_LENGTH {
        return false;
    }
    let body = reading::body_at(s, at);
    (longest as usize) < body.len()
}

// ---- a step

// The step of a line at a descriptor whose number, not below the line's feature, is at hand.
fn step_at(need: Need, longest: u8, number: Feature, s: &[u8], at: usize) -> Step
    ensures { after s.now result ≡ step_here need longest number.0 s.now at }
{
    let feature = need.1;
    if number.0 != feature.0 {
        return Step::Stop(feature, Wrong::Absent);
    }
    match fit_at(need, longest, s, at) {
        Fit::Fits => Step::On(reading::next_at(s, at)),
        Fit::Lacks(wrong) => Step::Stop(feature, wrong),
    }
}

// The step of a line from a place on: it passes the descriptors below its feature, which may only be too long.
fn step_from(need: Need, longest: u8, s: &[u8], first: usize) -> Step
    ensures { after s.now result ≡ step_from need longest (from s.now first) }
{
    let mut at = first;
    while at < s.len() {
        let number = reading::number_at(s, at);
        if need.1.0 <= number.0 {
            return step_at(need, longest, number, s, at);
        }
        if long_at(longest, s, at) {
            return Step::Stop(number, Wrong::TooLong);
        }
        at = reading::next_at(s, at);
    }
    let feature = need.1;
    Step::Stop(feature, Wrong::Absent)
}

// The step of a line; one that does not stand in the column stays at the place.
fn step_for(column: Column, need: Need, s: &[u8], at: usize) -> Step
    ensures { after s.now result ≡ step_for column need (from s.now at) }
{
    if is_marked(column.1, need) {
        return step_from(need, column.2, s, at);
    }
    Step::On(at)
}

// ---- the walk

// The first descriptor from a place on that is longer than a body may be.
fn first_long(limit: u8, s: &[u8], first: usize) -> Judgement
    ensures { said result ≡ first_long limit (from s.now first) }
{
    let mut at = first;
    while at < s.len() {
        if long_at(limit, s, at) {
            return Judgement::Broken(reading::number_at(s, at), Wrong::TooLong);
        }
        at = reading::next_at(s, at);
    }
    Judgement::Conforms
}

// The lowest feature of a complete response that breaks a column of a table. Its lines ascend, and so do the descriptors: one walk over both.
// Asks: a response that is accepted and complete, which the reading's numbers and 29 have shown before, and a column whose lines ascend.
pub fn lowest_in(rows: &[u64], column: Column, s: &[u8]) -> Judgement
    requires { ((complete_fault s.now).number ≡ 0) × (ascends column.1 (lines_in rows.now) ≡ true) }
    ensures { said result ≡ lowest_in (lines_in rows.now) column (descs s.now) }
{
    let mut i = 0;
    let mut at = Header::LENGTH;
    while i < rows.len() {
        match step_for(column, table::line_read(rows[i]), s, at) {
            Step::On(next) => {
                at = next;
                i += 1;
            }
            Step::Stop(feature, wrong) => {
                return Judgement::Broken(feature, wrong);
            }
        }
    }
    first_long(column.2, s, at)
}
