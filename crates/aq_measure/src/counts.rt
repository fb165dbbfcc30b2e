//! What a body has, counted in two ways.
ghost use Rattle.std.specs.Prelude.{◌≡◌, ◌≤◌, ◌==◌, length, map, sum, count_by};
ghost use Rattle.aq_rules.specs.Lines.Lines.{body_lines};
ghost use Rattle.aq_measure.specs.Counts.{field_count, field_count_in};

use aq_base::MOST_BYTES;
use aq_forms::lines_of;
use aq_rd::{Fields, MOST_FIELDS};

/// The lines of a body that are not skipped, and their fields. The fields of so many lines fit,
/// however long each is.
#[derive(Drop)]
pub struct FieldCounts {
    pub lines: u32,
    pub fields: u128,
}

/// The line ends and the bars of a body.
#[derive(Drop)]
pub struct BarCounts {
    pub ends: usize,
    pub bars: usize,
}

/// Cuts a body into lines and each line into fields, as a scan does.
pub fn fields_in(body: &[u8]) -> FieldCounts
    requires { length body.now ≤ MOST_BYTES }
    ensures lines { result.lines ≡ length (body_lines body.now) }
    ensures fields { result.fields ≡ sum (map field_count_in (body_lines body.now)) }
{
    let mut lines = 0;
    let mut fields = 0;
    for line in lines_of(body) {
        lines += 1;
        fields += u128::from(field_count(line.text));
    }
    FieldCounts { lines, fields }
}

// How many fields a line has: none if a byte is outside 20 to 7E (hexadecimal), or if a text
// stands after the fields of every form. That is asked so that the places of the fields are kept,
// which the compiler would else leave out.
fn field_count(line: &[u8]) -> u64
    ensures { result ≡ field_count line.now }
{
    match Fields::new(line) {
        Ok(texts) if !texts.has_text_behind(MOST_FIELDS) => texts.count() as u64,
        _ => 0,
    }
}

/// Counts in one loop over the bytes.
pub fn bars_in(body: &[u8]) -> BarCounts
    ensures ends { result.ends ≡ count_by (λ byte. byte == 10) body.now }
    ensures bars { result.bars ≡ count_by (λ byte. byte == 124) body.now }
{
    let mut ends = 0;
    let mut bars = 0;
    for byte in body {
        ends += usize::from(*byte == b'\n');
        bars += usize::from(*byte == b'|');
    }
    BarCounts { ends, bars }
}
