// A row filled by the digits of a shape, run after run: each reads what stands in front, and lends the rest.
ghost use Rattle.std.specs.Prelude.{◌+◌, ◌≤◌, ◌≡◌, length};
ghost use Rattle.formats.specs.Digits.{formats_by, size_of};
ghost use Rattle.row_reader.specs.ReadRow.{beginning};
ghost use Rattle.row_reader.specs.Inner.{text_numbers, tail_in, rest_in, row_in};

use formats::{Shape, count, read_run, size};

// In place of the digits of what is repeated: a text and zeros.
pub(crate) const TEXT: u64 = 0xf;

// How long a text is, and how many bytes stand after it.
fn fill_text(row: &mut [u64], s: &[u8])
    requires { 2 ≤ length row.old }
    ensures { row.new ≡ beginning (text_numbers s.now) row.old }
{
    let n = padded::text_length(s);
    row[0] = n as u64;
    row[1] = (s.len() - n) as u64;
}

// How often the digits' bytes are repeated, or what there is of a text.
fn fill_tail(row: &mut [u64], s: &[u8], each: u64)
    requires { length (tail_in each s.now) ≤ length row.old }
    ensures { row.new ≡ beginning (tail_in each s.now) row.old }
{
    if each == 0 {
        return;
    }
    if each == TEXT {
        fill_text(row, s);
        return;
    }
    row[0] = (s.len() / size(each)) as u64;
}

fn fill_rest(row: &mut [u64], s: &[u8], more: u64, each: u64)
    requires more_in_bounds { size_of (formats_by more) ≤ length s.now }
    requires s_in_bounds { length (rest_in more each s.now) ≤ length row.old }
    ensures { row.new ≡ beginning (rest_in more each s.now) row.old }
{
    let start = count(more);
    let at = size(more);
    read_run(row, s, more);
    fill_tail(&mut row[start..], &s[at..], each);
}

pub(crate) fn fill(row: &mut [u64], s: &[u8], shape: Shape)
    requires more_in_bounds { size_of (formats_by shape.head) + size_of (formats_by shape.more) ≤ length s.now }
    requires s_in_bounds { length (row_in shape s.now) ≤ length row.old }
    ensures { row.new ≡ beginning (row_in shape s.now) row.old }
{
    let head = shape.head;
    let start = count(head);
    let at = size(head);
    read_run(row, s, head);
    fill_rest(&mut row[start..], &s[at..], shape.more, shape.each);
}
