// The exported functions, for C and Rust (include/gcf.h): one for each operation, over a sheet of either layout. Each returns the paper's number, or a count of bytes
// where nothing can be refused. Further results go to a lent array that has a place for each: to C a struct of as many uint64_t with names. The two of a sweep take its
// record and give a step, by value.
#![tactic(auto)]

ghost use Rattle.std.specs.Prelude.{◌≡◌};
ghost use Rattle.lent.specs.Wrote.{Wrote};
ghost use Rattle.text.specs.Reading.{reading};
ghost use Rattle.text.specs.Response.{return_limit, most};
ghost use Rattle.layout.specs.Layout.{stored};
ghost use Rattle.sheet.specs.Check.{verdict};
ghost use Rattle.convert.specs.Convert.{converted};
ghost use Rattle.load.specs.Load.{loading};
ghost use Rattle.command.specs.Command.{built};
ghost use Rattle.responder.specs.Answer.{answered};
ghost use Rattle.responder.specs.Trusting.{trusting_command};
ghost use Rattle.reading.specs.Stop.{stopped};
ghost use Rattle.reading.specs.Held.{place_in, held_of};
ghost use Rattle.descriptor.specs.Standing.{stands_at};
ghost use Rattle.listing.specs.Listing.{listing};
ghost use Rattle.sweep.specs.Sweep.{started, turn, stepped};
ghost use Rattle.bench.specs.Bench as bench;
ghost use Rattle.judge.specs.Boxes.{mistake_number};
ghost use Rattle.judge.specs.Verdict.{judgement, judged};
ghost use Rattle.checks.specs.Check.{checked};
ghost use Rattle.needs.specs.Judge as needs;
ghost use Rattle.mend.specs.Mend as mend;
ghost use Rattle.capture.specs.Capture.{capture_fault};
ghost use Rattle.import.specs.Import.{imported};
ghost use Rattle.rom.specs.Rom.{image_answered};
ghost use Rattle.rom.specs.Image.{image_commanded};
ghost use Rattle.sense.specs.Sense.{made, sensed};
ghost use Rattle.meanings.specs.Meanings.{sentence};
ghost use Rattle.abi.specs.Left.{layout_of, left, show_verdict, show_made, show_read, show_next, show_stop, show_benched, tells, telling, show_judgement, show_mended, show_finding, show_judged, kind_number, show_sensed};

use command::Command;
use judge::{Mistake, Verdict};
use layout::Layout;
use needs::Judgement;
use sense::{Kind, Sense};
use sweep::{Step, Sweep};
use text::{Feature, Profile};

// ---- the words

// The sentence of a number.
pub fn gcf_words(number: u8, text: &mut [u8]) -> usize
    ensures { Wrote text.old 0 (sentence number) result text.new }
{
    meanings::put_words(number, text)
}

// ---- the box

// The layout that C names by a bool, which has no third value.
fn layout_of(columns: bool) -> Layout
    ensures { result ≡ layout_of columns }
{
    if columns {
        return Layout::Columns;
    }
    Layout::Rows
}

// The number of a sheet. Told: the place of the profile or entry at fault.
pub fn gcf_check_sheet(columns: bool, sheet: &[u8], told: &mut [u64; 1]) -> u8
    ensures { left result tt told.new ≡ show_verdict (verdict (stored (layout_of columns) sheet.now)) }
{
    let verdict = sheet::check(layout_of(columns), sheet);
    *told = [verdict.place as u64];
    verdict.number
}

// Answers a command from any sheet. Told: bytes sent, the place of the profile or entry at fault.
pub fn gcf_respond(
    columns: bool,
    sheet: &[u8],
    command: &[u8],
    response: &mut [u8],
    told: &mut [u64; 2],
) -> u8
    ensures { left result response.new told.new
        ≡ show_made (answered (stored (layout_of columns) sheet.now) command.now response.old) }
{
    let answer = responder::respond(layout_of(columns), sheet, command, response);
    let fault = answer.refusal;
    *told = [answer.count as u64, fault.place as u64];
    fault.number
}

// Answers a command with no check of the sheet: what a box calls that has checked it once. Told: bytes sent, 0.
pub fn gcf_respond_accepted(
    columns: bool,
    sheet: &[u8],
    command: &[u8],
    response: &mut [u8],
    told: &mut [u64; 2],
) -> u8
    ensures { left result response.new told.new
        ≡ show_made (trusting_command (stored (layout_of columns) sheet.now) command.now response.old) }
{
    let trusted = responder::respond_accepted(layout_of(columns), sheet, command, response);
    let fault = trusted.refusal;
    *told = [trusted.count as u64, fault.place as u64];
    fault.number
}

// Lays a sheet out anew. Told: bytes of the sheet, the place of the profile or entry at fault.
pub fn gcf_convert(columns: bool, sheet: &[u8], to: bool, out: &mut [u8], told: &mut [u64; 2]) -> u8
    ensures { left result out.new told.new
        ≡ show_made (converted (layout_of to) (stored (layout_of columns) sheet.now) out.old) }
{
    let laid = convert::convert(layout_of(to), layout_of(columns), sheet, out);
    let fault = laid.refusal;
    *told = [laid.count as u64, fault.place as u64];
    fault.number
}

// The sheet as a medium leaves it that makes these features and these profiles current. Told: bytes of the sheet, the place of the profile or entry at fault. The two
// lists stand as C lends them: a slice of a declared type is none that the prover walks by itself, so that include/gcf.h alone has the two types here.
pub fn gcf_load(
    columns: bool,
    sheet: &[u8],
    features: &[u16],
    profiles: &[u16],
    loaded: &mut [u8],
    told: &mut [u64; 2],
) -> u8
    ensures { left result loaded.new told.new
        ≡ show_made (loading features.now profiles.now (stored (layout_of columns) sheet.now) loaded.old) }
{
    let leaves = load::load(layout_of(columns), sheet, features, profiles, loaded);
    let fault = leaves.refusal;
    *told = [leaves.count as u64, fault.place as u64];
    fault.number
}

// ---- the box with an image in place of a sheet

// The number of an image. Told: the place of the profile or entry at fault.
pub fn gcf_check_image(image: &[u8], told: &mut [u64; 1]) -> u8
    ensures { left result tt told.new ≡ show_verdict (capture_fault image.now) }
{
    let capture = capture::check(image);
    let fault = capture.refusal;
    *told = [fault.place as u64];
    fault.number
}

// Answers a command from any image. Told: bytes sent, the place of the profile or entry at fault.
pub fn gcf_respond_image(
    image: &[u8],
    command: &[u8],
    response: &mut [u8],
    told: &mut [u64; 2],
) -> u8
    ensures { left result response.new told.new
        ≡ show_made (image_answered image.now command.now response.old) }
{
    let sent = rom::respond(image, command, response);
    let fault = sent.refusal;
    *told = [sent.count as u64, fault.place as u64];
    fault.number
}

// Answers a command with no check of the image: what a box calls that has checked it once. Told: bytes sent, 0.
pub fn gcf_respond_image_accepted(
    image: &[u8],
    command: &[u8],
    response: &mut [u8],
    told: &mut [u64; 2],
) -> u8
    ensures { left result response.new told.new
        ≡ show_made (image_commanded image.now command.now response.old) }
{
    let known = rom::respond_accepted(image, command, response);
    let fault = known.refusal;
    *told = [known.count as u64, fault.place as u64];
    fault.number
}

// ---- the driver

// Makes the command of so many bytes, 10 or 12, that asks for these. Told: bytes written, 0.
pub fn gcf_build_command(
    length: usize,
    rt: u8,
    sfn: Feature,
    allocation: u16,
    command: &mut [u8],
    told: &mut [u64; 2],
) -> u8
    ensures { left result command.new told.new ≡ show_made (built length rt sfn.0 allocation command.old) }
{
    let built = Command::build(length, rt, sfn, allocation, command);
    let fault = built.refusal;
    *told = [built.count as u64, fault.place as u64];
    fault.number
}

// Reads a response. Told: profile, Data Length, whole descriptors, the place behind the last, 1 if complete.
pub fn gcf_read(rt: u8, sfn: Feature, response: &[u8], told: &mut [u64; 5]) -> u8
    ensures { left result tt told.new ≡ show_read (reading return_limit rt sfn.0 response.now) }
{
    let reading = reading::read(rt, sfn, response);
    let fault = reading.refusal;
    let profile = reading.profile;
    *told = [
        profile.0 as u64,
        reading.data_length as u64,
        reading.count as u64,
        reading.end as u64,
        reading.complete as u64,
    ];
    fault.number
}

// The descriptor at a place of a response, if it stands there whole. Told: feature, flags, Version, Persistent, Current, the place and the length of its body, the
// place of the next one.
pub fn gcf_next(place: usize, response: &[u8], told: &mut [u64; 8]) -> bool
    ensures { (result, told.new) ≡ show_next (stands_at response.now place) }
{
    let standing = descriptor::stands(response, place);
    let number = standing.number;
    let flags = standing.flags;
    *told = [
        number.0 as u64,
        flags.0 as u64,
        flags.version() as u64,
        flags.persistent() as u64,
        flags.current() as u64,
        standing.body as u64,
        standing.len as u64,
        standing.next as u64,
    ];
    standing.whole
}

// Where the reading of a response that may have at most so many bytes stops. Told: the place of the first descriptor that is at fault or not whole, and the feature
// that stands there.
pub fn gcf_stops(most: usize, rt: u8, sfn: Feature, response: &[u8], told: &mut [u64; 2])
    ensures { told.new ≡ show_stop (stopped most rt sfn.0 response.now) }
{
    let stop = reading::stops(most, rt, sfn, response);
    let feature = stop.feature;
    *told = [stop.at as u64, feature.0 as u64];
}

// Where a feature's descriptor stands in a response to RT 0 from 0, or would stand.
pub fn gcf_place(feature: Feature, response: &[u8]) -> usize
    ensures { result ≡ place_in feature.0 response.now }
{
    reading::place_of(feature, response)
}

// Copies a feature's descriptor out of the fresh response if whole there, else out of the kept one; none leaves the buffer as it is.
pub fn gcf_held<'a>(
    feature: Feature,
    fresh: &'a [u8],
    kept: &'a [u8],
    descriptor: &mut [u8],
) -> usize
    ensures { Wrote descriptor.old 0 (held_of feature.0 fresh.now kept.now) result descriptor.new }
{
    let part = reading::held(feature, fresh, kept);
    lent::copy(descriptor, 0, part)
}

// Lists a response as text.
pub fn gcf_list(response: &[u8], text: &mut [u8]) -> usize
    ensures { Wrote text.old 0 (listing response.now) result text.new }
{
    listing::list(response, text)
}

// C: the most bytes that a response with this allocation length has.
pub fn gcf_most(allocation: u16) -> usize
    ensures { result ≡ most allocation }
{
    text::most(allocation)
}

// Starts a sweep: the refusal or none, and the record.
pub fn gcf_sweep_start(rt: u8, allocation: u16) -> Step
    ensures { result ≡ started rt allocation }
{
    Sweep::start(rt, allocation)
}

// Takes a response to the sweep's next command, with any record: the refusal or none, and the record from then on.
pub fn gcf_sweep_take(sweep: Sweep, response: &[u8], out: &mut [u8]) -> Step
    ensures { turn result out.new ≡ stepped sweep response.now out.old }
{
    sweep.take(response, out)
}

// ---- the bench and the checks

// A bench sweep of a sheet. Told: commands, bytes collected, the place of the profile or entry at fault.
pub fn gcf_bench(
    columns: bool,
    sheet: &[u8],
    rt: u8,
    allocation: u16,
    response: &mut [u8],
    collected: &mut [u8],
    starts: &mut [u16],
    told: &mut [u64; 3],
) -> u8
    ensures { left result (bench.buffers response.new collected.new starts.new) told.new
        ≡ show_benched (bench.benched (stored (layout_of columns) sheet.now) rt allocation (bench.buffers response.old collected.old starts.old)) }
{
    let end = bench::bench(
        layout_of(columns),
        sheet,
        rt,
        allocation,
        response,
        collected,
        starts,
    );
    let fault = end.refusal;
    *told = [
        end.commands as u64,
        end.collected as u64,
        fault.place as u64,
    ];
    fault.number
}

// What a verdict tells: the number of a refusal, which verdict it is, the first byte that is not as it is to be, the mistake that explains it, the number that the command
// is to be refused with, and the place of the sheet's refusal.
#[derive(Clone, Copy)]
struct Telling {
    number: u8,
    said: u64,
    differs: u64,
    mistake: u64,
    refusal: u64,
    place: u64,
}

// The number that tells a mistake; 0 tells none.
fn mistake_number(why: Mistake) -> u64
    ensures { result ≡ mistake_number why }
{
    match why {
        Mistake::OnlyAbove => 1,
        Mistake::LengthCut => 2,
        Mistake::LengthOfAll => 3,
        Mistake::HighestCurrent => 4,
        Mistake::HighestListed => 5,
        Mistake::NotOnlyCurrent => 6,
        Mistake::NotOnlyOne => 7,
        Mistake::Unexplained => 0,
    }
}

// A verdict that refuses nothing, and what else it tells.
fn saying(which: u64, differs: usize, mistake: u64, refusal: u8) -> Telling
    ensures { result ≡ tells 0 which differs mistake refusal 0 }
{
    Telling {
        number: 0,
        said: which,
        differs: differs as u64,
        mistake: mistake,
        refusal: refusal as u64,
        place: 0,
    }
}

// What each verdict tells; none of them is 0.
fn tell(verdict: Verdict) -> Telling
    ensures { result ≡ telling verdict }
{
    match verdict {
        Verdict::Exact => saying(1, 0, 0, 0),
        Verdict::Padded(at) => saying(2, at, 0, 0),
        Verdict::Short(at) => saying(3, at, 0, 0),
        Verdict::Wrong(at, why) => saying(4, at, mistake_number(why), 0),
        Verdict::Answered(fault) => saying(5, 0, 0, fault.number),
        Verdict::Refused(fault) => Telling {
            number: fault.number,
            said: 0,
            differs: 0,
            mistake: 0,
            refusal: 0,
            place: fault.place as u64,
        },
    }
}

// Judges what another box sent for a command. Told: which verdict, the first byte that is not as it is to be, the mistake, the number that the command is to be refused
// with, the place of the profile or entry at fault.
pub fn gcf_judge(
    columns: bool,
    sheet: &[u8],
    command: &[u8],
    response: &[u8],
    due: &mut [u8],
    told: &mut [u64; 5],
) -> u8
    ensures { left result due.new told.new
        ≡ show_judgement (judged (stored (layout_of columns) sheet.now) command.now response.now due.old) }
{
    let verdict = judge::judge(layout_of(columns), sheet, command, response, due);
    let t = tell(verdict);
    *told = [t.said, t.differs, t.mistake, t.refusal, t.place];
    t.number
}

// Checks the descriptors of a response. Told: the feature at fault.
pub fn gcf_check_descriptors(response: &[u8], told: &mut [u64; 1]) -> u8
    ensures { left result tt told.new ≡ show_finding (checked response.now) }
{
    let finding = checks::check_descriptors(response);
    let fault = finding.refusal;
    let feature = finding.feature;
    *told = [feature.0 as u64];
    fault.number
}

// Mends a complete response in a copy, and lists the changes, each as place * 65536 + old byte * 256 + new byte. Told: bytes of the copy, changes.
pub fn gcf_mend(response: &[u8], copy: &mut [u8], changes: &mut [u32], told: &mut [u64; 2]) -> u8
    ensures { left result (copy.new, changes.new) told.new
        ≡ show_mended (mend.mends response.now copy.old changes.old) }
{
    let mended = mend::mend(response, copy, changes);
    let fault = mended.refusal;
    *told = [mended.length as u64, mended.changes as u64];
    fault.number
}

// Whether a response has what a profile requires. Told: what is wrong with the lowest feature that breaks the profile, 0 if none does, and that feature.
pub fn gcf_check_profile(profile: Profile, response: &[u8], told: &mut [u64; 2]) -> u8
    ensures { left result tt told.new ≡ show_judged (needs.judged profile.0 response.now) }
{
    let judgement = needs::check_profile(profile, response);
    match judgement {
        Judgement::Conforms => {
            *told = [0, 0];
            0
        }
        Judgement::Broken(f, wrong) => {
            let number = wrong.number();
            *told = [number as u64, f.0 as u64];
            0
        }
        Judgement::Refused(fault) => {
            *told = [0, 0];
            fault.number
        }
    }
}

// ---- import

// Turns a captured response to RT 0 from 0 into a drive sheet in rows. Told: bytes of the sheet, the place of the profile or entry at fault.
pub fn gcf_import(response: &[u8], sheet: &mut [u8], told: &mut [u64; 2]) -> u8
    ensures { left result sheet.new told.new ≡ show_made (imported response.now sheet.old) }
{
    let made = import::import(response, sheet);
    let fault = made.refusal;
    *told = [made.count as u64, fault.place as u64];
    fault.number
}

// ---- sense data

// The number that tells a kind; 0 tells none.
fn kind_number(kind: Kind) -> u64
    ensures { result ≡ kind_number kind }
{
    match kind {
        Kind::Nothing => 1,
        Kind::Operation => 2,
        Kind::Field => 3,
        Kind::Trouble => 4,
    }
}

// Makes the sense data for a number that a command gave. Told: bytes written, 0.
pub fn gcf_make_sense(number: u8, sense: &mut [u8], told: &mut [u64; 2]) -> u8
    ensures { left result sense.new told.new ≡ show_made (made number sense.old) }
{
    let written = sense::make(number, sense);
    let fault = written.refusal;
    *told = [written.count as u64, fault.place as u64];
    fault.number
}

// What received sense data means. Told: the number of the kind, 0 where it is refused.
pub fn gcf_read_sense(sense: &[u8], told: &mut [u64; 1]) -> u8
    ensures { left result tt told.new ≡ show_sensed (sensed sense.now) }
{
    let meaning = sense::read(sense);
    match meaning {
        Sense::Means(kind) => {
            *told = [kind_number(kind)];
            0
        }
        Sense::Refused(fault) => {
            *told = [0];
            fault.number
        }
    }
}
