// What a program has memory for, whole: an answer, the sheet of a capture, a listing. Each is as long as it can be, so that no number for a short buffer is ever given.
#![tactic(auto)]

ghost use Rattle.std.specs.Prelude.{◌≡◌, take};
ghost use Rattle.std.specs.Counts.{IsPrefixLen};
ghost use Rattle.refusal.specs.First.{unless, ◌or_else◌};
ghost use Rattle.lent.specs.Maker.{outcome, refusing, making};
ghost use Rattle.command.specs.Command.{command_fault};
ghost use Rattle.layout.specs.Layout.{stored};
ghost use Rattle.sheet.specs.Check.{verdict};
ghost use Rattle.responder.specs.Answer.{due};
ghost use Rattle.listing.specs.Listing.{listing};
ghost use Rattle.capture.specs.Capture.{capture_fault};
ghost use Rattle.import.specs.Import.{sheet_from};

use layout::Layout;
use lent::Made;
use text::Header;

// The answer, whole: the buffer has room for the longest answer, so that 12 is never given.
pub fn answer_of(
    lay: Layout,
    sheet: &[u8],
    command: &[u8],
    response: &mut [u8; Header::RETURN_LIMIT],
) -> Made
    ensures prefix_len { IsPrefixLen result.count response.new }
    ensures response_after { outcome result response.new ≡ unless (verdict (stored lay sheet.now) or_else command_fault command.now) (refusing response.old)
        (making (due (stored lay sheet.now) command.now) response.old) }
{
    responder::respond(lay, sheet, command, response)
}

// The longest sheet: of the 65,532 bytes of the longest response 12 give way to the counts, 4, and each of at most 16,380 further descriptors grows by 4.
pub const LONGEST_SHEET: usize = 131044;

// The sheet, whole: the buffer has room for the longest, so 42 is never given.
pub fn sheet_of(s: &[u8], sheet: &mut [u8; LONGEST_SHEET]) -> Made
    ensures prefix_len { IsPrefixLen result.count sheet.new }
    ensures sheet_after { outcome result sheet.new ≡ unless (capture_fault s.now) (refusing sheet.old) (making (sheet_from s.now).bytes sheet.old) }
{
    import::import(s, sheet)
}

// The listing, whole: the text has room for the longest.
pub fn listed(s: &[u8], text: &mut [u8; listing::LONGEST]) -> usize
    ensures prefix_len { IsPrefixLen result text.new }
    ensures text_after { take result text.new ≡ listing s.now }
{
    listing::list(s, text)
}
