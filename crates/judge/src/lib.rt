// The judge of other people's boxes: a sheet, a recorded command and the response that a box gave to it, and the verdict. The right box makes its response in a scratch buffer,
// and the two are compared; where they differ, boxes that get one thing wrong make theirs.
#![tactic(auto)]

ghost use Rattle.std.specs.Prelude.{◌≡◌, ◌≤◌, ◌<◌, ◌-◌, min, length, get_or, take, drop};
ghost use Rattle.lent.specs.Wrote.{Wrote};
ghost use Rattle.text.specs.Response.{selected, header, data_length, most, sent};
ghost use Rattle.profiles.specs.Profiles.{profiles_of};
ghost use Rattle.layout.specs.Layout.{stored};
ghost use Rattle.sheet.specs.Check.{Accepted};
ghost use Rattle.sheet.specs.Meaning.{meaning};
ghost use Rattle.judge.specs.Boxes.{sent_by, right, above, zero_for, raised, highest, highest_box, box_of, mistakes, sent_with};
ghost use Rattle.judge.specs.Verdict.{common, all_zero, compared, is_right, explained, judgement, unasked, alone, requested, judged};
ghost use Rattle.judge.specs.declared.Mistake.TheVariants.{OnlyAbove};

use command::Command;
use layout::Layout;
use refusal::Refusal;
use text::{Feature, Profile};

// What a box got wrong, where that explains its response.
#[derive(Clone, Copy)]
pub enum Mistake {
    // It sends only the features above SFN.
    OnlyAbove,
    // Its Data Length is cut with the allocation length.
    LengthCut,
    // Its Data Length counts all features, whatever was asked for.
    LengthOfAll,
    // Its Current Profile is the highest of the current ones.
    HighestCurrent,
    // Its Current Profile is the highest of all.
    HighestListed,
    // It gives RT 1 what RT 0 gets: features that are not current too.
    NotOnlyCurrent,
    // It gives RT 2 what RT 0 gets: features above SFN too.
    NotOnlyOne,
    // None of these explains it.
    Unexplained,
}

// What is said of a response.
#[derive(Clone, Copy)]
pub enum Verdict {
    // Exactly the bytes that are due.
    Exact,
    // The bytes due, so many of them, and zeros behind.
    Padded(usize),
    // The first so many of the bytes due, and no more, though the allocation length allows more.
    Short(usize),
    // The first byte that is not the one due, and what explains it.
    Wrong(usize, Mistake),
    // The command is to be refused, and was answered.
    Answered(Refusal),
    // Nothing is judged: the sheet is refused, or the scratch buffer is too short.
    Refused(Refusal),
}

// What a box makes of a request: the RT and the SFN that it goes by, and what it states in the header.
#[derive(Clone, Copy)]
struct Stated {
    rt: u8,
    sfn: Feature,
    data_length: u32,
    profile: Profile,
}

// The order in which mistakes are tried.
const MISTAKES: [Mistake; 7] = [
    Mistake::OnlyAbove,
    Mistake::LengthCut,
    Mistake::LengthOfAll,
    Mistake::HighestCurrent,
    Mistake::HighestListed,
    Mistake::NotOnlyCurrent,
    Mistake::NotOnlyOne,
];

// ---- two byte strings

// How many bytes at the front are the same.
fn common(a: &[u8], b: &[u8]) -> usize
    ensures { result ≡ common a.now b.now }
{
    let mut i = 0;
    while i < a.len() {
        if b.len() <= i {
            return i;
        }
        let x = fields::byte(a, i);
        let y = fields::byte(b, i);
        if x != y {
            return i;
        }
        i += 1;
    }
    i
}

// Whether there are only zeros from an index on.
fn zeros_from(s: &[u8], at: usize) -> bool
    ensures { result ≡ all_zero (drop at s.now) }
{
    let mut i = at;
    while i < s.len() {
        let x = fields::byte(s, i);
        if x != 0 {
            return false;
        }
        i += 1;
    }
    true
}

// A response where these bytes are due; nothing is explained yet.
fn compared(due: &[u8], response: &[u8]) -> Verdict
    ensures { result ≡ compared due.now response.now }
{
    let at = common(due, response);
    if at < due.len() {
        if at < response.len() {
            return Verdict::Wrong(at, Mistake::Unexplained);
        }
        return Verdict::Short(at);
    }
    if response.len() <= at {
        return Verdict::Exact;
    }
    if zeros_from(response, at) {
        return Verdict::Padded(at);
    }
    Verdict::Wrong(at, Mistake::Unexplained)
}

// Whether they are the bytes due, with zeros behind them or not.
fn is_right(verdict: Verdict) -> bool
    ensures { result ≡ is_right verdict }
{
    match verdict {
        Verdict::Exact => true,
        Verdict::Padded(_) => true,
        Verdict::Short(_) => false,
        Verdict::Wrong(_, _) => false,
        Verdict::Answered(_) => false,
        Verdict::Refused(_) => false,
    }
}

// ---- the boxes

// The Data Length that a request to an accepted sheet gets.
// Asks: an accepted sheet; the judge has checked it.
fn data_length(lay: Layout, s: &[u8], rt: u8, sfn: Feature) -> u32
    requires { Accepted (stored lay s.now) }
    ensures { result ≡ data_length (selected rt sfn.0 (meaning (stored lay s.now))) }
{
    let size = responder::size(lay, s, rt, sfn);
    (4 + size) as u32
}

// The same, cut with an allocation length.
fn cut_length(length: u32, a: u16) -> u32
    ensures { result ≡ min length (most a - 4) }
{
    let most = text::most(a);
    if most < 4 {
        return 0;
    }
    if (length as usize) < most - 4 {
        return length;
    }
    (most - 4) as u32
}

// The number behind SFN, where RT 0 or 1 asks for more than one feature.
fn above(rt: u8, sfn: Feature) -> Feature
    ensures { result.0 ≡ above rt sfn.0 }
{
    if rt >= 2 {
        return sfn;
    }
    if sfn.0 >= 65535 {
        return sfn;
    }
    Feature(sfn.0 + 1)
}

// 0 in place of one RT.
fn zero_for(which: u8, rt: u8) -> u8
    ensures { result ≡ zero_for which rt }
{
    if rt == which {
        return 0;
    }
    rt
}

// The higher of a number and that of a profile, which counts if all do or if it is current.
fn raised(every: bool, on: bool, number: u16, high: u16) -> u16
    ensures { result ≡ raised every on number high }
{
    if number <= high {
        return high;
    }
    if every {
        return number;
    }
    if on {
        return number;
    }
    high
}

// The highest of the listed profiles, of all or of the current ones; 0 if there is none.
fn highest(every: bool, b: &[u8]) -> Profile
    ensures { result.0 ≡ highest every (profiles_of b.now) 0 }
{
    let n = b.len() / 4;
    let mut high: u16 = 0;
    let mut i = 0;
    while i < n {
        let current = fields::inside(b, 4 * i + 2);
        let number = fields::inside2(b, 4 * i);
        high = raised(every, current % 2 == 1, number, high);
        i += 1;
    }
    Profile(high)
}

// The box that gets nothing wrong.
// Asks: the same as `data_length`.
fn right(lay: Layout, s: &[u8], rt: u8, sfn: Feature) -> Stated
    requires { Accepted (stored lay s.now) }
    ensures { result ≡ right rt sfn.0 (meaning (stored lay s.now)) }
{
    let length = data_length(lay, s, rt, sfn);
    let profile = profiles::current(layout::profiles_part(s));
    Stated {
        rt: rt,
        sfn: sfn,
        data_length: length,
        profile: profile,
    }
}

// Those that state another Data Length or another Current Profile.
// Asks: the same as `data_length`.
fn cut_box(lay: Layout, s: &[u8], rt: u8, sfn: Feature, a: u16) -> Stated
    requires { Accepted (stored lay s.now) }
    ensures { result ≡ box_of Mistake.LengthCut rt sfn.0 a (meaning (stored lay s.now)) }
{
    let b = right(lay, s, rt, sfn);
    let profile = b.profile;
    let length = cut_length(b.data_length, a);
    Stated {
        rt: rt,
        sfn: sfn,
        data_length: length,
        profile: profile,
    }
}

// Asks: the same as `data_length`.
fn all_box(lay: Layout, s: &[u8], rt: u8, sfn: Feature) -> Stated
    requires { Accepted (stored lay s.now) }
    ensures { result ≡ box_of Mistake.LengthOfAll rt sfn.0 0 (meaning (stored lay s.now)) }
{
    let all = right(lay, s, 0, Feature(0));
    let profile = all.profile;
    let length = all.data_length;
    Stated {
        rt: rt,
        sfn: sfn,
        data_length: length,
        profile: profile,
    }
}

// Asks: the same as `data_length`.
fn highest_box(every: bool, lay: Layout, s: &[u8], rt: u8, sfn: Feature) -> Stated
    requires { Accepted (stored lay s.now) }
    ensures { result ≡ highest_box every rt sfn.0 (meaning (stored lay s.now)) }
{
    let length = data_length(lay, s, rt, sfn);
    let profile = highest(every, layout::profiles_part(s));
    Stated {
        rt: rt,
        sfn: sfn,
        data_length: length,
        profile: profile,
    }
}

// The box of a mistake.
// Asks: the same as `data_length`.
fn box_of(why: Mistake, lay: Layout, s: &[u8], rt: u8, sfn: Feature, a: u16) -> Stated
    requires { Accepted (stored lay s.now) }
    ensures { result ≡ box_of why rt sfn.0 a (meaning (stored lay s.now)) }
{
    match why {
        Mistake::OnlyAbove => right(lay, s, rt, above(rt, sfn)),
        Mistake::LengthCut => cut_box(lay, s, rt, sfn, a),
        Mistake::LengthOfAll => all_box(lay, s, rt, sfn),
        Mistake::HighestCurrent => highest_box(false, lay, s, rt, sfn),
        Mistake::HighestListed => highest_box(true, lay, s, rt, sfn),
        Mistake::NotOnlyCurrent => right(lay, s, zero_for(1, rt), sfn),
        Mistake::NotOnlyOne => right(lay, s, zero_for(2, rt), sfn),
        Mistake::Unexplained => right(lay, s, rt, sfn),
    }
}

// ---- what they send

// A header over the front of a response, as far as it goes.
fn put_front(out: &mut [u8], length: u32, profile: Profile) -> usize
    ensures { Wrote out.old 0 (header length profile.0) result out.new }
{
    let a = lent::put4(out, 0, length);
    // two bytes that are 0 stand before the profile
    lent::put4(out, a, profile.0 as u32)
}

// What a box sends, at the front of the scratch buffer.
// Asks: an accepted sheet, and room for what any box may send; the judge has looked at both.
fn put_box(lay: Layout, s: &[u8], b: Stated, a: u16, scratch: &mut [u8]) -> usize
    requires { Accepted (stored lay s.now) × (most a ≤ length scratch.old) }
    ensures { (result ≤ length scratch.new) × (length scratch.new ≡ length scratch.old)
        × (take result scratch.new ≡ sent_by b a (meaning (stored lay s.now))) }
{
    let made = responder::send(lay, s, b.rt, b.sfn, a, scratch);
    let count = made.count;
    put_front(&mut scratch[..count], b.data_length, b.profile);
    count
}

// What the right box sends, and zeros behind it.
// Asks: the same as `put_box`.
fn put_due(lay: Layout, s: &[u8], c: Command, scratch: &mut [u8]) -> usize
    requires { Accepted (stored lay s.now) × (most c.allocation ≤ length scratch.old) }
    ensures { (result ≤ length scratch.new) × (length scratch.new ≡ length scratch.old)
        × (take result scratch.new ≡ sent c.rt c.sfn.0 c.allocation (meaning (stored lay s.now)))
        × (scratch.new ≡ alone (sent c.rt c.sfn.0 c.allocation (meaning (stored lay s.now))) (length scratch.old)) }
{
    lent::clear(scratch);
    let made = responder::send(lay, s, c.rt, c.sfn, c.allocation, scratch);
    made.count
}

// ---- what explains a response

// Whether the box of a mistake sends it, with zeros behind or not.
// Asks: the same as `put_box`.
fn is_box(
    why: Mistake,
    lay: Layout,
    s: &[u8],
    c: Command,
    response: &[u8],
    scratch: &mut [u8],
) -> bool
    requires { Accepted (stored lay s.now) × (most c.allocation ≤ length scratch.old) }
    ensures { (length scratch.new ≡ length scratch.old)
        × (result ≡ is_right (compared (sent_with why c.rt c.sfn.0 c.allocation (meaning (stored lay s.now))) response.now)) }
{
    let b = box_of(why, lay, s, c.rt, c.sfn, c.allocation);
    let count = put_box(lay, s, b, c.allocation, scratch);
    is_right(compared(&scratch[..count], response))
}

// Mistake i of those that are tried.
// Asks: an index inside the table; the walk stops at its end.
fn mistake_at(i: usize) -> Mistake
    requires { i < length mistakes }
    ensures { result ≡ get_or mistakes i OnlyAbove }
{
    MISTAKES[i]
}

// The first mistake whose box sends it.
// Asks: the same as `put_box`.
fn explained(lay: Layout, s: &[u8], c: Command, response: &[u8], scratch: &mut [u8]) -> Mistake
    requires { Accepted (stored lay s.now) × (most c.allocation ≤ length scratch.old) }
    ensures { (length scratch.new ≡ length scratch.old)
        × (result ≡ explained c.rt c.sfn.0 c.allocation (meaning (stored lay s.now)) response.now) }
{
    let mut i = 0;
    while i < MISTAKES.len() {
        let why = mistake_at(i);
        if is_box(why, lay, s, c, response, scratch) {
            return why;
        }
        i += 1;
    }
    Mistake::Unexplained
}

// ---- the verdict

// A response to a command that is refused.
fn unasked(fault: Refusal, response: &[u8]) -> Verdict
    ensures { result ≡ unasked fault response.now }
{
    if response.len() == 0 {
        return Verdict::Exact;
    }
    Verdict::Answered(fault)
}

// A response to a request.
// Asks: the same as `put_box`.
fn requested(lay: Layout, s: &[u8], c: Command, response: &[u8], scratch: &mut [u8]) -> Verdict
    requires { Accepted (stored lay s.now) × (most c.allocation ≤ length scratch.old) }
    ensures { judgement result scratch.new ≡ requested c.rt c.sfn.0 c.allocation (meaning (stored lay s.now)) response.now scratch.old }
{
    let count = put_due(lay, s, c, scratch);
    let found = compared(&scratch[..count], response);
    match found {
        Verdict::Wrong(at, _) => {
            let why = explained(lay, s, c, response, scratch);
            put_due(lay, s, c, scratch);
            Verdict::Wrong(at, why)
        }
        _ => found,
    }
}

// The verdict on a response that a box gave to a command. Afterwards the scratch buffer has what was due, and zeros behind, where that was looked at.
pub fn judge(lay: Layout, s: &[u8], command: &[u8], response: &[u8], scratch: &mut [u8]) -> Verdict
    ensures { judgement result scratch.new ≡ judged (stored lay s.now) command.now response.now scratch.old }
{
    let bad = sheet::check(lay, s);
    if bad.number != 0 {
        return Verdict::Refused(bad);
    }
    let fault = Command::fault(command);
    if fault.number != 0 {
        return unasked(fault, response);
    }
    let c = Command::read(command);
    if scratch.len() < text::most(c.allocation) {
        return Verdict::Refused(refusal::BUFFER_SHORT);
    }
    requested(lay, s, c, response, scratch)
}
