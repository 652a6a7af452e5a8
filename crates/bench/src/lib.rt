// The bench sweep: the driver's sweep run against the box of one sheet.
#![tactic(auto)]

ghost use Rattle.std.specs.Prelude.{◌≡◌, ◌≤◌, length};
ghost use Rattle.layout.specs.Layout.{stored};
ghost use Rattle.sheet.specs.Check.{Accepted};
ghost use Rattle.text.specs.Response.{most};
ghost use Rattle.sheet.specs.Meaning.{meaning};
ghost use Rattle.responder.specs.inner.Index.{taken_from};
ghost use Rattle.bench.specs.Bench.{buffers, state, ending, failing, first_fault, benched};
ghost use Rattle.bench.specs.inner.Loop.{wanted_size, Clean, Rounded, Ran};

use layout::Layout;
use refusal::Refusal;
use sweep::{Step, Sweep};

// What a bench sweep answers: the refusal or none, how many commands were sent (starts written), and how many bytes were collected.
#[derive(Clone, Copy)]
pub struct Benched {
    pub refusal: Refusal,
    pub commands: u32,
    pub collected: usize,
}

// What is refused before any round, where the response buffer has so many bytes.
fn first_fault(lay: Layout, s: &[u8], rt: u8, a: u16, space: usize) -> Refusal
    ensures { result ≡ first_fault (stored lay s.now) rt a space }
{
    let fault = sheet::check(lay, s);
    if fault.number != 0 {
        return fault;
    }
    let step = Sweep::start(rt, a);
    let fault = step.refusal;
    if fault.number != 0 {
        return fault;
    }
    if space < text::most(a) {
        return refusal::BUFFER_SHORT;
    }
    refusal::ACCEPTED
}

// One round against a sheet that is accepted: the start is noted, the box is asked, the driver takes just the bytes sent.
// Asks: an accepted sheet and a response buffer of C bytes or more, which the sheet's numbers and 12 have shown before; the entry where the request starts, the bytes that are left, and how many of the buffer can be dirty, which the rounds before leave.
fn one_round(
    lay: Layout,
    s: &[u8],
    w: Sweep,
    from: u16,
    left: usize,
    dirty: usize,
    response: &mut [u8],
    collected: &mut [u8],
    starts: &mut [u16],
) -> Step
    requires { Accepted (stored lay s.now) × (most w.allocation ≤ length response.old) × (left ≡ wanted_size (meaning (stored lay s.now)) w) × Clean dirty response.old × (from ≡ taken_from (stored lay s.now) w.next.0) }
    ensures { Rounded (meaning (stored lay s.now)) (state w (buffers response.old collected.old starts.old))
        result.refusal (state result.sweep (buffers response.new collected.new starts.new)) }
{
    let at = w.commands as usize;
    if starts.len() <= at {
        return Step {
            refusal: refusal::STARTS_FULL,
            sweep: w,
        };
    }
    let next = w.next;
    lent::note(starts, at, next.0);
    lent::clear(&mut response[..dirty]);
    let reply = responder::send_sized(lay, s, w.rt, next, w.allocation, from, left, response);
    let count = reply.count;
    w.take(&response[..count], collected)
}

// Round after round, until the sweep has ended or a round is refused. The first entry that is left, what is left of the size, and how many bytes of the
// response buffer can be dirty go along, so that a round costs what it sends.
// Asks: an accepted sheet, a response buffer of C bytes or more and a sweep that has just started; the sheet's numbers, 12 and the start come before.
fn all_rounds(
    lay: Layout,
    s: &[u8],
    w: Sweep,
    response: &mut [u8],
    collected: &mut [u8],
    starts: &mut [u16],
) -> Step
    requires { Accepted (stored lay s.now) × (most w.allocation ≤ length response.old) × (w.commands ≡ 0) }
    ensures { Ran (meaning (stored lay s.now)) (state w (buffers response.old collected.old starts.old))
        result.refusal (state result.sweep (buffers response.new collected.new starts.new)) }
{
    let most = text::most(w.allocation);
    let mut sweep = w;
    let n = layout::feature_count(s);
    let mut from = sheet::first_from(lay, s, n, w.next);
    let mut left = responder::size(lay, s, w.rt, w.next);
    let mut dirty = response.len();
    while !sweep.ended {
        let step = one_round(
            lay, s, sweep, from, left, dirty, response, collected, starts,
        );
        let fault = step.refusal;
        if fault.number != 0 {
            return step;
        }
        let next = step.sweep;
        left -= next.collected - sweep.collected;
        dirty = most;
        from = sheet::next_from(lay, s, n, next.next, from);
        sweep = next;
    }
    Step {
        refusal: refusal::ACCEPTED,
        sweep: sweep,
    }
}

// A refusal: its number, both counts 0, all three buffers set to zero.
fn refuse(fault: Refusal, response: &mut [u8], collected: &mut [u8], starts: &mut [u16]) -> Benched
    ensures { ending result (buffers response.new collected.new starts.new)
        ≡ failing (buffers response.old collected.old starts.old) fault }
{
    lent::clear(response);
    lent::clear(collected);
    lent::clear_list(starts);
    Benched {
        refusal: fault,
        commands: 0,
        collected: 0,
    }
}

// The bench sweep of any sheet: it is checked once, and then round follows round. A refusal leaves all three buffers zero throughout.
pub fn bench(
    lay: Layout,
    s: &[u8],
    rt: u8,
    a: u16,
    response: &mut [u8],
    collected: &mut [u8],
    starts: &mut [u16],
) -> Benched
    ensures { ending result (buffers response.new collected.new starts.new)
        ≡ benched (stored lay s.now) rt a (buffers response.old collected.old starts.old) }
{
    let fault = first_fault(lay, s, rt, a, response.len());
    if fault.number != 0 {
        return refuse(fault, response, collected, starts);
    }
    let start = Sweep::start(rt, a);
    let end = all_rounds(lay, s, start.sweep, response, collected, starts);
    let fault = end.refusal;
    if fault.number != 0 {
        return refuse(fault, response, collected, starts);
    }
    let w = end.sweep;
    Benched {
        refusal: refusal::ACCEPTED,
        commands: w.commands,
        collected: w.collected,
    }
}
