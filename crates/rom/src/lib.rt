// The ROM engine: a box that holds the complete response to RT 0 from 0 as an image, and no sheet. It walks to the first wanted feature, takes what it
// passed over off Data Length, and copies what stands there.
#![tactic(auto)]

ghost use Rattle.std.specs.Prelude.{◌≡◌, ◌++◌, ◌+◌, ◌-◌, ◌≤◌, min, length};
ghost use Rattle.fields.specs.Part.{PartOf};
ghost use Rattle.lent.specs.Wrote.{Wrote};
ghost use Rattle.lent.specs.Maker.{outcome};
ghost use Rattle.text.specs.Response.{header_length, most};
ghost use Rattle.rom.specs.Rom.{image_answered};
ghost use Rattle.rom.specs.Image.{image_requested, image_commanded};
ghost use Rattle.rom.specs.inner.Standing.{agrees, first_at, from_at, current_at, currents, one_at, wanted_at, less_passed, head_of};

use command::Command;
use lent::Made;
use text::{Feature, Flags, Header};

// ---- where the wanted descriptors stand

// The first descriptor numbered sfn or higher; the end of the image where there is none.
fn first_from(image: &[u8], sfn: Feature) -> usize
    ensures { result ≡ first_at (from_at sfn.0 image.now) image.now header_length }
{
    let mut at = Header::LENGTH;
    while at < image.len() {
        let number = reading::number_at(image, at);
        if sfn.0 <= number.0 {
            return at;
        }
        at = reading::next_at(image, at);
    }
    image.len()
}

// Whether a descriptor is current, or whether it is not.
fn agrees(on: bool, flags: Flags) -> bool
    ensures { result ≡ agrees on flags.0 }
{
    if on {
        return flags.current();
    }
    !flags.current()
}

// The first descriptor from a place on that is current, or that is not; the end of the image where there is none.
fn first_with(image: &[u8], from: usize, on: bool) -> usize
    ensures { (result ≡ first_at (current_at on image.now) image.now from) × (result ≤ length image.now) }
{
    let mut at = from;
    while at < image.len() {
        if agrees(on, reading::flags_at(image, at)) {
            return at;
        }
        at = reading::next_at(image, at);
    }
    image.len()
}

// What RT 0 or RT 2 wants, in one piece, where the first descriptor numbered sfn or higher is at a place.
fn one_part(image: &[u8], rt: u8, sfn: Feature, at: usize) -> &[u8]
    ensures { PartOf image.entry at (one_at rt sfn.0 image.now at) result }
{
    if rt == 0 {
        return fields::part(image, at, image.len());
    }
    let number = reading::number_at(image, at);
    if number.0 != sfn.0 {
        return fields::part(image, at, 0);
    }
    fields::part(image, at, 4 + reading::length_at(image, at) as usize)
}

// ---- how many bytes they are

// The current ones from a place on, run by run.
fn currents_size(image: &[u8], from: usize) -> usize
    ensures { (result ≡ length (currents image.now from)) × (result ≤ length image.now) }
{
    let mut size = 0;
    let mut at = first_with(image, from, true);
    while at < image.len() {
        let end = first_with(image, at, false);
        size += end - at;
        at = first_with(image, end, true);
    }
    size
}

fn wanted_size(image: &[u8], rt: u8, sfn: Feature, at: usize) -> usize
    ensures { (result ≡ length (wanted_at rt sfn.0 image.now at)) × (result ≤ length image.now) }
{
    if rt == 1 {
        return currents_size(image, at);
    }
    let part = one_part(image, rt, sfn, at);
    part.len()
}

// ---- the bytes, as far as the buffer has room

// Each run of current ones in one go. Stops where the buffer is full.
fn put_currents(out: &mut [u8], at: usize, image: &[u8], from: usize) -> usize
    ensures { Wrote out.old at (currents image.now from) result out.new }
{
    let mut next = at;
    let mut place = first_with(image, from, true);
    while place < image.len() {
        if out.len() <= next {
            return next;
        }
        let end = first_with(image, place, false);
        next = lent::copy(out, next, fields::part(image, place, end - place));
        place = first_with(image, end, true);
    }
    next
}

fn put_wanted(out: &mut [u8], at: usize, image: &[u8], rt: u8, sfn: Feature, place: usize) -> usize
    ensures { Wrote out.old at (wanted_at rt sfn.0 image.now place) result out.new }
{
    if rt == 1 {
        return put_currents(out, at, image, place);
    }
    lent::copy(out, at, one_part(image, rt, sfn, place))
}

// Data Length without what is passed over, where so many bytes behind the header are wanted.
fn less_passed(stated: u32, bytes: usize, size: usize) -> u32
    ensures { result ≡ less_passed stated bytes size }
{
    let passed = base::difference(base::difference(bytes, Header::LENGTH), size);
    base::difference(stated as usize, passed) as u32
}

// The header: that Data Length, and the rest as it stands.
fn put_head(out: &mut [u8], image: &[u8], size: usize) -> usize
    ensures { Wrote out.old 0 (head_of image.now size) result out.new }
{
    let length = less_passed(fields::get4(image, 0), image.len(), size);
    let a = lent::put4(out, 0, length);
    if image.len() < Header::LENGTH {
        return lent::copy(out, a, fields::part(image, 4, 4));
    }
    lent::put4(out, a, fields::inside4(image, 4))
}

// The whole response, where the first descriptor numbered sfn or higher is at a place and size bytes are wanted.
fn put_response(
    out: &mut [u8],
    image: &[u8],
    rt: u8,
    sfn: Feature,
    place: usize,
    size: usize,
) -> usize
    ensures { Wrote out.old 0 (head_of image.now size ++ wanted_at rt sfn.0 image.now place) result out.new }
{
    let a = put_head(out, image, size);
    put_wanted(out, a, image, rt, sfn, place)
}

// ---- the answers

// How many bytes are due of a response with so many behind the header.
fn due(image: &[u8], a: u16, size: usize) -> usize
    ensures { result ≡ min (most a) (length (head_of image.now size) + size) }
{
    let most = text::most(a);
    let rest = fields::part(image, 4, 4);
    base::least(most, 4 + rest.len() + base::least(size, most))
}

// Answers a request with no check of the image: from an accepted one, what the box of its sheet sends.
fn send(image: &[u8], rt: u8, sfn: Feature, a: u16, out: &mut [u8]) -> Made
    ensures { outcome result out.new ≡ image_requested image.now rt sfn.0 a out.old }
{
    let place = first_from(image, sfn);
    let size = wanted_size(image, rt, sfn, place);
    let limit = due(image, a, size);
    if out.len() < limit {
        return Made::refused(refusal::BUFFER_SHORT);
    }
    let count = put_response(&mut out[..limit], image, rt, sfn, place, size);
    Made::written(count)
}

// Answers a command with no check of the image: what a box does that has checked it once.
pub fn respond_accepted(image: &[u8], command: &[u8], out: &mut [u8]) -> Made
    ensures { outcome result out.new ≡ image_commanded image.now command.now out.old }
{
    let fault = Command::fault(command);
    if fault.number != 0 {
        return Made::refused(fault);
    }
    let c = Command::read(command);
    send(image, c.rt, c.sfn, c.allocation, out)
}

// Answers a command from any image.
pub fn respond(image: &[u8], command: &[u8], out: &mut [u8]) -> Made
    ensures { outcome result out.new ≡ image_answered image.now command.now out.old }
{
    let capture = capture::check(image);
    let fault = capture.refusal;
    if fault.number != 0 {
        return Made::refused(fault);
    }
    respond_accepted(image, command, out)
}
