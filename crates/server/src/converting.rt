// Writes the sheet in the other layout to standard output. A refusal is a line on standard error, and nothing is written then.
ghost use Rattle.std.specs.Prelude.{◌≡◌, ◌≤◌, length};
ghost use Rattle.std.specs.Counts.{IsPrefixLen};
ghost use Rattle.refusal.specs.First.{unless};
ghost use Rattle.lent.specs.Maker.{outcome, refusing, making};
ghost use Rattle.layout.specs.Layout.{stored};
ghost use Rattle.layout.specs.Contents.{laid};
ghost use Rattle.sheet.specs.Check.{verdict};

use layout::Layout;
use lent::Made;
use program_io::streams;
use program_words::sheets;

// The sheet laid out anew, whole where the buffer is as long as the sheet: no sheet that is taken is longer, so that 42 is never given.
fn laid_out(to: Layout, lay: Layout, sheet: &[u8], out: &mut [u8]) -> Made
    ensures prefix_len { IsPrefixLen result.count out.new }
    ensures out_after { length sheet.now ≤ length out.old → outcome result out.new ≡ unless (verdict (stored lay sheet.now)) (refusing out.old)
        (making (laid to (stored lay sheet.now)).bytes out.old) }
{
    convert::convert(to, lay, sheet, out)
}

fn other(lay: Layout) -> Layout {
    match lay {
        Layout::Rows => Layout::Columns,
        Layout::Columns => Layout::Rows,
    }
}

pub fn convert(host: HostRuntime, lay: Layout, sheet: &[u8], out: &mut [u8]) {
    let made = laid_out(other(lay), lay, sheet, out);
    let refusal = made.refusal;
    if refusal.number != 0 {
        sheets::say_refused(host, refusal, lay, sheet);
        return;
    }
    let count = made.count;
    streams::say(host, &out[..count]);
}
