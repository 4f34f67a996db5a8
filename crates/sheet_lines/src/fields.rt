// A weight's field.
ghost use Rattle.std.specs.Prelude.{◌≡◌};
ghost use Rattle.sheet_lines.specs.Cursor.{weight_at};

use text::Number;

// The weight at a place of the sheet.
pub fn weight_at(s: &[u8], at: usize) -> Option<Number>
    ensures { result ≡ weight_at s.now at }
{
    text::inner::number_at(s, at, b'\t', 16777215)
}
