// Lines of text in a lent buffer: a letter and five numbers in decimal.
// Read specs/Decimal.antt (a number) and specs/Line.antt (a line) first.
// A line that has no room changes nothing, and still says where it would end.
#![tactic(auto)]

ghost use Rattle.std.specs.Prelude.{◌≡◌, ◌+◌, ◌-◌, ◌%◌, ◌^◌, ◌≤◌, ◌∷◌, length};
ghost use Rattle.std.proofs.lemmas.List.Edits.{sets};
ghost use Rattle.wire.specs.Number.{bytes_stored};
ghost use Rattle.text.specs.Decimal.{decimal};
ghost use Rattle.text.specs.Line.{fields, line};

// How many digits a number has. It and put_digits divide until one digit is left; the must-fail edit `digits_of_base_eight` holds them.
fn digit_count(n: u64) -> usize
    ensures { (result ≡ length (decimal n)) × (result ≤ 20) }
{
    let mut count = 1;
    let mut rest = n;
    while 10 <= rest {
        rest = rest / 10;
        count += 1;
    }
    count
}

// Stores the digits of a number so that the last stands before end, and says where the first stands.
fn put_digits(buf: &mut [u8], end: usize, n: u64) -> usize
    requires n_len_bound { length (decimal n) ≤ end }
    requires end_in_bounds { end ≤ length buf.old }
    ensures value { result ≡ end - length (decimal n) }
    ensures buf_after { buf.new ≡ sets buf.old (end - length (decimal n)) (decimal n) }
{
    let mut at = end;
    let mut rest = n;
    while 10 <= rest {
        at -= 1;
        buf[at] = 48 + (rest % 10) as u8;
        rest = rest / 10;
    }
    at -= 1;
    buf[at] = 48 + rest as u8;
    at
}

// Stores a space and a number before end, and says where the space stands.
fn put_number(buf: &mut [u8], end: usize, n: u64) -> usize
    requires n_len_bound { length (decimal n) + 1 ≤ end }
    requires end_in_bounds { end ≤ length buf.old }
    ensures value { result ≡ end - (length (decimal n) + 1) }
    ensures buf_after { buf.new ≡ sets buf.old (end - (length (decimal n) + 1)) (32 ∷ decimal n) }
{
    let at = put_digits(buf, end, n) - 1;
    buf[at] = 32;
    at
}

// How long a line is.
fn line_length(numbers: [u64; 5]) -> usize
    ensures { result ≡ length (fields numbers) + 2 }
{
    let mut length = 2;
    for n in &numbers {
        length += digit_count(*n) + 1;
    }
    length
}

// Stores each number behind a space, the last before end: from the last to the first, so that no digits are counted again.
fn put_fields(buf: &mut [u8], end: usize, numbers: [u64; 5])
    requires numbers_len_bound { length (fields numbers) ≤ end }
    requires end_in_bounds { end ≤ length buf.old }
    ensures { buf.new ≡ sets buf.old (end - length (fields numbers)) (fields numbers) }
{
    let mut to = end;
    for i in (0..5).rev() {
        to = put_number(buf, to, numbers[i]);
    }
}

// Stores a line at an offset where it has room, and says where it ends or would end.
pub fn put_line(buf: &mut [u8], at: usize, letter: u8, numbers: [u64; 5]) -> usize
    ensures value { result ≡ (at + length (line letter numbers)) % 2 ^ 64 }
    ensures buf_after { buf.new ≡ bytes_stored (line letter numbers) buf.old at }
{
    let n = line_length(numbers);
    let end = std::num::wrapping_add_usize(at, n);
    if buf.len() < n {
        return end;
    }
    if buf.len() - n < at {
        return end;
    }
    buf[at] = letter;
    let last = end - 1;
    buf[last] = 10;
    put_fields(buf, last, numbers);
    end
}
