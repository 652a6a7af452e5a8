// A drive sheet laid out anew: rows become columns, columns become rows.
#![tactic(auto)]

ghost use Rattle.std.specs.Prelude.{◌≡◌};
ghost use Rattle.lent.specs.Wrote.{Wrote};
ghost use Rattle.lent.specs.Maker.{outcome};
ghost use Rattle.layout.specs.Layout.{stored, features};
ghost use Rattle.layout.specs.Contents.{laid};
ghost use Rattle.layout.specs.inner.Room.{Room};
ghost use Rattle.convert.specs.Convert.{converted};

use layout::Layout;
use lent::Made;

// The counts, the contents as they shall stand, and what stands behind them.
// Asks: a sheet that has its contents, which its check has shown before.
fn put_laid(out: &mut [u8], to: Layout, lay: Layout, s: &[u8]) -> usize
    requires { Room s.now (features s.now) }
    ensures { Wrote out.old 0 (laid to (stored lay s.now)).bytes result out.new }
{
    let n = layout::feature_count(s);
    let behind = layout::profiles_behind(n);
    let a = lent::copy(out, 0, fields::part(s, 0, 4));
    let b = layout::put_contents(out, a, to, lay, s, n);
    lent::copy(out, b, &s[behind..])
}

// The sheet s, which is laid out so, as a sheet laid out as `to`, written to a lent buffer.
pub fn convert(to: Layout, lay: Layout, s: &[u8], out: &mut [u8]) -> Made
    ensures { outcome result out.new ≡ converted to (stored lay s.now) out.old }
{
    let fault = sheet::check(lay, s);
    if fault.number != 0 {
        return Made::refused(fault);
    }
    if out.len() < s.len() {
        return Made::refused(refusal::SHEET_BUFFER_SHORT);
    }
    let count = put_laid(out, to, lay, s);
    Made::written(count)
}
