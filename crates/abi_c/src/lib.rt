// The archive's functions, for C and Rust (include/gcf.h): each calls the function of the same name in `abi`, and states its contract. A crate is a library or a static library, not both, and the
// theorems of `demands` speak of the library's.
#![tactic(auto)]

ghost use Rattle.std.specs.Prelude.{◌≡◌};
ghost use Rattle.lent.specs.Wrote.{Wrote};
ghost use Rattle.text.specs.Reading.{reading};
ghost use Rattle.text.specs.Response.{return_limit, most};
ghost use Rattle.layout.specs.Layout.{stored};
ghost use Rattle.sheet.specs.Check.{verdict};
ghost use Rattle.convert.specs.Convert.{converted};
ghost use Rattle.load.specs.Load.{loading};
ghost use Rattle.command.specs.Command.{built};
ghost use Rattle.responder.specs.Answer.{answered};
ghost use Rattle.responder.specs.Trusting.{trusting_command};
ghost use Rattle.reading.specs.Stop.{stopped};
ghost use Rattle.reading.specs.Held.{place_in, held_of};
ghost use Rattle.descriptor.specs.Standing.{stands_at};
ghost use Rattle.listing.specs.Listing.{listing};
ghost use Rattle.sweep.specs.Sweep.{started, turn, stepped};
ghost use Rattle.bench.specs.Bench as bench;
ghost use Rattle.judge.specs.Verdict.{judged};
ghost use Rattle.checks.specs.Check.{checked};
ghost use Rattle.needs.specs.Judge as needs;
ghost use Rattle.mend.specs.Mend as mend;
ghost use Rattle.capture.specs.Capture.{capture_fault};
ghost use Rattle.import.specs.Import.{imported};
ghost use Rattle.rom.specs.Rom.{image_answered};
ghost use Rattle.rom.specs.Image.{image_commanded};
ghost use Rattle.sense.specs.Sense.{made, sensed};
ghost use Rattle.meanings.specs.Meanings.{sentence};
ghost use Rattle.abi.specs.Left.{layout_of, left, show_verdict, show_made, show_read, show_next, show_stop, show_benched, show_judgement, show_mended, show_finding, show_judged, show_sensed};

use sweep::{Step, Sweep};
use text::{Feature, Profile};

// ---- the words

// The sentence of a number.
#[unsafe(no_mangle)]
pub extern "C" fn gcf_words(number: u8, text: &mut [u8]) -> usize
    ensures { Wrote text.old 0 (sentence number) result text.new }
{
    abi::gcf_words(number, text)
}

// ---- the box

// The number of a sheet. Told: the place of the profile or entry at fault.
#[unsafe(no_mangle)]
pub extern "C" fn gcf_check_sheet(columns: bool, sheet: &[u8], told: &mut [u64; 1]) -> u8
    ensures { left result tt told.new ≡ show_verdict (verdict (stored (layout_of columns) sheet.now)) }
{
    abi::gcf_check_sheet(columns, sheet, told)
}

// Answers a command from any sheet. Told: bytes sent, the place of the profile or entry at fault.
#[unsafe(no_mangle)]
pub extern "C" fn gcf_respond(
    columns: bool,
    sheet: &[u8],
    command: &[u8],
    response: &mut [u8],
    told: &mut [u64; 2],
) -> u8
    ensures { left result response.new told.new
        ≡ show_made (answered (stored (layout_of columns) sheet.now) command.now response.old) }
{
    abi::gcf_respond(columns, sheet, command, response, told)
}

// Answers a command with no check of the sheet: what a box calls that has checked it once. Told: bytes sent, 0.
#[unsafe(no_mangle)]
pub extern "C" fn gcf_respond_accepted(
    columns: bool,
    sheet: &[u8],
    command: &[u8],
    response: &mut [u8],
    told: &mut [u64; 2],
) -> u8
    ensures { left result response.new told.new
        ≡ show_made (trusting_command (stored (layout_of columns) sheet.now) command.now response.old) }
{
    abi::gcf_respond_accepted(columns, sheet, command, response, told)
}

// Lays a sheet out anew. Told: bytes of the sheet, the place of the profile or entry at fault.
#[unsafe(no_mangle)]
pub extern "C" fn gcf_convert(
    columns: bool,
    sheet: &[u8],
    to: bool,
    out: &mut [u8],
    told: &mut [u64; 2],
) -> u8
    ensures { left result out.new told.new
        ≡ show_made (converted (layout_of to) (stored (layout_of columns) sheet.now) out.old) }
{
    abi::gcf_convert(columns, sheet, to, out, told)
}

// The sheet as a medium leaves it that makes these features and these profiles current. Told: bytes of the sheet, the place of the profile or entry at fault. The two
// lists stand as C lends them: a slice of a declared type is none that the prover walks by itself, so that include/gcf.h alone has the two types here.
#[unsafe(no_mangle)]
pub extern "C" fn gcf_load(
    columns: bool,
    sheet: &[u8],
    features: &[u16],
    profiles: &[u16],
    loaded: &mut [u8],
    told: &mut [u64; 2],
) -> u8
    ensures { left result loaded.new told.new
        ≡ show_made (loading features.now profiles.now (stored (layout_of columns) sheet.now) loaded.old) }
{
    abi::gcf_load(columns, sheet, features, profiles, loaded, told)
}

// ---- the box with an image in place of a sheet

// The number of an image. Told: the place of the profile or entry at fault.
#[unsafe(no_mangle)]
pub extern "C" fn gcf_check_image(image: &[u8], told: &mut [u64; 1]) -> u8
    ensures { left result tt told.new ≡ show_verdict (capture_fault image.now) }
{
    abi::gcf_check_image(image, told)
}

// Answers a command from any image. Told: bytes sent, the place of the profile or entry at fault.
#[unsafe(no_mangle)]
pub extern "C" fn gcf_respond_image(
    image: &[u8],
    command: &[u8],
    response: &mut [u8],
    told: &mut [u64; 2],
) -> u8
    ensures { left result response.new told.new
        ≡ show_made (image_answered image.now command.now response.old) }
{
    abi::gcf_respond_image(image, command, response, told)
}

// Answers a command with no check of the image: what a box calls that has checked it once. Told: bytes sent, 0.
#[unsafe(no_mangle)]
pub extern "C" fn gcf_respond_image_accepted(
    image: &[u8],
    command: &[u8],
    response: &mut [u8],
    told: &mut [u64; 2],
) -> u8
    ensures { left result response.new told.new
        ≡ show_made (image_commanded image.now command.now response.old) }
{
    abi::gcf_respond_image_accepted(image, command, response, told)
}

// ---- the driver

// Makes the command of so many bytes, 10 or 12, that asks for these. Told: bytes written, 0.
#[unsafe(no_mangle)]
pub extern "C" fn gcf_build_command(
    length: usize,
    rt: u8,
    sfn: Feature,
    allocation: u16,
    command: &mut [u8],
    told: &mut [u64; 2],
) -> u8
    ensures { left result command.new told.new ≡ show_made (built length rt sfn.0 allocation command.old) }
{
    abi::gcf_build_command(length, rt, sfn, allocation, command, told)
}

// Reads a response. Told: profile, Data Length, whole descriptors, the place behind the last, 1 if complete.
#[unsafe(no_mangle)]
pub extern "C" fn gcf_read(rt: u8, sfn: Feature, response: &[u8], told: &mut [u64; 5]) -> u8
    ensures { left result tt told.new ≡ show_read (reading return_limit rt sfn.0 response.now) }
{
    abi::gcf_read(rt, sfn, response, told)
}

// The descriptor at a place of a response, if it stands there whole. Told: feature, flags, Version, Persistent, Current, the place and the length of its body, the
// place of the next one.
#[unsafe(no_mangle)]
pub extern "C" fn gcf_next(place: usize, response: &[u8], told: &mut [u64; 8]) -> bool
    ensures { (result, told.new) ≡ show_next (stands_at response.now place) }
{
    abi::gcf_next(place, response, told)
}

// Where the reading of a response that may have at most so many bytes stops. Told: the place of the first descriptor that is at fault or not whole, and the feature
// that stands there.
#[unsafe(no_mangle)]
pub extern "C" fn gcf_stops(most: usize, rt: u8, sfn: Feature, response: &[u8], told: &mut [u64; 2])
    ensures { told.new ≡ show_stop (stopped most rt sfn.0 response.now) }
{
    abi::gcf_stops(most, rt, sfn, response, told);
}

// Where a feature's descriptor stands in a response to RT 0 from 0, or would stand.
#[unsafe(no_mangle)]
pub extern "C" fn gcf_place(feature: Feature, response: &[u8]) -> usize
    ensures { result ≡ place_in feature.0 response.now }
{
    abi::gcf_place(feature, response)
}

// Copies a feature's descriptor out of the fresh response if whole there, else out of the kept one; none leaves the buffer as it is.
#[unsafe(no_mangle)]
pub extern "C" fn gcf_held<'a>(
    feature: Feature,
    fresh: &'a [u8],
    kept: &'a [u8],
    descriptor: &mut [u8],
) -> usize
    ensures { Wrote descriptor.old 0 (held_of feature.0 fresh.now kept.now) result descriptor.new }
{
    abi::gcf_held(feature, fresh, kept, descriptor)
}

// Lists a response as text.
#[unsafe(no_mangle)]
pub extern "C" fn gcf_list(response: &[u8], text: &mut [u8]) -> usize
    ensures { Wrote text.old 0 (listing response.now) result text.new }
{
    abi::gcf_list(response, text)
}

// C: the most bytes that a response with this allocation length has.
#[unsafe(no_mangle)]
pub extern "C" fn gcf_most(allocation: u16) -> usize
    ensures { result ≡ most allocation }
{
    abi::gcf_most(allocation)
}

// Starts a sweep: the refusal or none, and the record.
#[unsafe(no_mangle)]
pub extern "C" fn gcf_sweep_start(rt: u8, allocation: u16) -> Step
    ensures { result ≡ started rt allocation }
{
    abi::gcf_sweep_start(rt, allocation)
}

// Takes a response to the sweep's next command, with any record: the refusal or none, and the record from then on.
#[unsafe(no_mangle)]
pub extern "C" fn gcf_sweep_take(sweep: Sweep, response: &[u8], out: &mut [u8]) -> Step
    ensures { turn result out.new ≡ stepped sweep response.now out.old }
{
    abi::gcf_sweep_take(sweep, response, out)
}

// ---- the bench and the checks

// A bench sweep of a sheet. Told: commands, bytes collected, the place of the profile or entry at fault.
#[unsafe(no_mangle)]
pub extern "C" fn gcf_bench(
    columns: bool,
    sheet: &[u8],
    rt: u8,
    allocation: u16,
    response: &mut [u8],
    collected: &mut [u8],
    starts: &mut [u16],
    told: &mut [u64; 3],
) -> u8
    ensures { left result (bench.buffers response.new collected.new starts.new) told.new
        ≡ show_benched (bench.benched (stored (layout_of columns) sheet.now) rt allocation (bench.buffers response.old collected.old starts.old)) }
{
    abi::gcf_bench(
        columns, sheet, rt, allocation, response, collected, starts, told,
    )
}

// Judges what another box sent for a command. Told: which verdict, the first byte that is not as it is to be, the mistake, the number that the command is to be refused
// with, the place of the profile or entry at fault.
#[unsafe(no_mangle)]
pub extern "C" fn gcf_judge(
    columns: bool,
    sheet: &[u8],
    command: &[u8],
    response: &[u8],
    due: &mut [u8],
    told: &mut [u64; 5],
) -> u8
    ensures { left result due.new told.new
        ≡ show_judgement (judged (stored (layout_of columns) sheet.now) command.now response.now due.old) }
{
    abi::gcf_judge(columns, sheet, command, response, due, told)
}

// Checks the descriptors of a response. Told: the feature at fault.
#[unsafe(no_mangle)]
pub extern "C" fn gcf_check_descriptors(response: &[u8], told: &mut [u64; 1]) -> u8
    ensures { left result tt told.new ≡ show_finding (checked response.now) }
{
    abi::gcf_check_descriptors(response, told)
}

// Mends a complete response in a copy, and lists the changes, each as place * 65536 + old byte * 256 + new byte. Told: bytes of the copy, changes.
#[unsafe(no_mangle)]
pub extern "C" fn gcf_mend(
    response: &[u8],
    copy: &mut [u8],
    changes: &mut [u32],
    told: &mut [u64; 2],
) -> u8
    ensures { left result (copy.new, changes.new) told.new
        ≡ show_mended (mend.mends response.now copy.old changes.old) }
{
    abi::gcf_mend(response, copy, changes, told)
}

// Whether a response has what a profile requires. Told: what is wrong with the lowest feature that breaks the profile, 0 if none does, and that feature.
#[unsafe(no_mangle)]
pub extern "C" fn gcf_check_profile(profile: Profile, response: &[u8], told: &mut [u64; 2]) -> u8
    ensures { left result tt told.new ≡ show_judged (needs.judged profile.0 response.now) }
{
    abi::gcf_check_profile(profile, response, told)
}

// ---- import

// Turns a captured response to RT 0 from 0 into a drive sheet in rows. Told: bytes of the sheet, the place of the profile or entry at fault.
#[unsafe(no_mangle)]
pub extern "C" fn gcf_import(response: &[u8], sheet: &mut [u8], told: &mut [u64; 2]) -> u8
    ensures { left result sheet.new told.new ≡ show_made (imported response.now sheet.old) }
{
    abi::gcf_import(response, sheet, told)
}

// ---- sense data

// Makes the sense data for a number that a command gave. Told: bytes written, 0.
#[unsafe(no_mangle)]
pub extern "C" fn gcf_make_sense(number: u8, sense: &mut [u8], told: &mut [u64; 2]) -> u8
    ensures { left result sense.new told.new ≡ show_made (made number sense.old) }
{
    abi::gcf_make_sense(number, sense, told)
}

// What received sense data means. Told: the number of the kind, 0 where it is refused.
#[unsafe(no_mangle)]
pub extern "C" fn gcf_read_sense(sense: &[u8], told: &mut [u64; 1]) -> u8
    ensures { left result tt told.new ≡ show_sensed (sensed sense.now) }
{
    abi::gcf_read_sense(sense, told)
}
