// A listing, a refusal and rows of numbers as text, into a lent buffer of bytes; a number read from a word.
#![tactic(auto)]

ghost use Rattle.std.specs.Prelude.{◌≡◌, [], ◌∷◌, ◌≤◌, length};
ghost use Rattle.io.specs.Digits.{last_digits};
ghost use Rattle.text.specs.Text.{decimal, field_text, spaced_text, fields_text, form_text, fields_in, kinds, form_in, beside_line, beside_text};
ghost use Rattle.text.specs.Text.{around_within, listing_within, beside_within, refusal_within, numbers_within, overlaid, HasRoom, Puts};
ghost use Rattle.text.specs.Text.{word_of, same};
ghost use Rattle.text.specs.Text.{rest_text, time_text, timed_text, timed_within, parted};
ghost use Rattle.text.specs.Text.{owed_title, last_title, later_titles, titles_within};

// The last digits of a number, as many as the part has bytes.
fn spell(part: &mut [u8], n: u64)
    ensures { part.new ≡ last_digits 10 (length part.old) n }
{
    let mut rest = n;
    for i in (0..part.len()).rev() {
        part[i] = b'0' + (rest % 10) as u8;
        rest /= 10;
    }
}

// The table of a listing's lines, by their kind.
#[tactic(auto, unfolding(crate::specs::Text::kinds))]
fn form_of(kind: u64) -> Option<(u8, usize)>
    ensures { result ≡ form_in kinds kind }
{
    match kind {
        1 => Some((b'S', 5)),
        2 => Some((b'D', 4)),
        3 => Some((b'E', 3)),
        _ => None,
    }
}

// How many of the numbers that are left stand beside a line: the first, if there is one; none beside
// line 3.
fn beside_line(kind: u64, beside: &[u64]) -> usize
    ensures { result ≡ length (beside_line kind beside.now) }
{
    if kind == 3 { 0 } else { beside.len().min(1) }
}

// A text that is put part by part into a lent buffer, and where it ends.
#[derive(Drop)]
struct Out<'a> {
    buf: &'a mut [u8],
    at: usize,
}

impl Out<'_> {
    // Bytes as they are. This and the next methods ask for the room that their text takes.
    fn bytes(&mut self, text: &[u8])
        requires { HasRoom self.old text.now }
        ensures { Puts self.old text.now self.new }
    {
        let end = self.at + text.len();
        self.buf[self.at..end].copy_from_slice(text);
        self.at = end;
    }

    fn byte(&mut self, byte: u8)
        requires { HasRoom self.old (byte ∷ []) }
        ensures { Puts self.old (byte ∷ []) self.new }
    {
        self.buf[self.at] = byte;
        self.at += 1;
    }

    // A number in decimal.
    fn number(&mut self, n: u64)
        requires { HasRoom self.old (decimal n) }
        ensures { Puts self.old (decimal n) self.new }
    {
        let mut digits = [0; 20];
        let k = io::decimal(n, &mut digits);
        self.bytes(&digits[..k]);
    }

    // .. with the space before it.
    fn field(&mut self, n: u64)
        requires { HasRoom self.old (field_text n) }
        ensures { Puts self.old (field_text n) self.new }
    {
        self.byte(b' ');
        self.number(n);
    }

    // Numbers so.
    fn spaced(&mut self, fields: &[u64])
        requires { HasRoom self.old (spaced_text fields.now) }
        ensures { Puts self.old (spaced_text fields.now) self.new }
    {
        for field in fields {
            self.field(*field);
        }
    }

    // .. and the newline.
    fn fields(&mut self, fields: &[u64])
        requires { HasRoom self.old (fields_text fields.now) }
        ensures { Puts self.old (fields_text fields.now) self.new }
    {
        self.spaced(fields);
        self.byte(b'\n');
    }

    // A line in its form, a letter and the first so many of its fields, with what stands beside it; nothing
    // for no form.
    fn line(&mut self, form: Option<(u8, usize)>, fields: &[u64], beside: &[u64])
        requires form_in_bounds { fields_in form ≤ length fields.now }
        requires room { HasRoom self.old (form_text form fields.now beside.now) }
        ensures { Puts self.old (form_text form fields.now beside.now) self.new }
    {
        let Some((letter, count)) = form else {
            return;
        };
        self.byte(letter);
        self.spaced(&fields[..count]);
        self.fields(beside);
    }

    // Line after line, up to and with line 3, with the number that stands beside each.
    fn lines(&mut self, list: &[u64], beside: &[u64])
        requires { HasRoom self.old (beside_text list.now beside.now) }
        ensures { Puts self.old (beside_text list.now beside.now) self.new }
    {
        let mut left = beside;
        for line in list.chunks_exact(6) {
            let kind = line[0];
            let n = beside_line(kind, left);
            self.line(form_of(kind), &line[1..], &left[..n]);
            if kind == 3 {
                break;
            }
            left = &left[n..];
        }
    }

    // A time in hundred-millionths of a second: the seconds, a point, and eight digits.
    fn time(&mut self, time: u64)
        requires { HasRoom self.old (time_text time) }
        ensures { Puts self.old (time_text time) self.new }
    {
        self.number(time / 100000000);
        self.byte(b'.');
        let mut digits = [0; 8];
        spell(&mut digits, time);
        self.bytes(&digits);
    }

    // Numbers, each with the space behind it, then a time and the newline.
    fn timed(&mut self, list: &[u64], time: u64)
        requires { HasRoom self.old (timed_text list.now time) }
        ensures { Puts self.old (timed_text list.now time) self.new }
    {
        for n in list {
            self.number(*n);
            self.byte(b' ');
        }
        self.time(time);
        self.byte(b'\n')
    }

    // The title of what is owed of so many bytes, with the space before it.
    fn owed_title(&mut self, size: u32)
        requires { HasRoom self.old (32 ∷ owed_title size) }
        ensures { Puts self.old (32 ∷ owed_title size) self.new }
    {
        self.bytes(b" owed_");
        self.number(u64::from(size));
    }

    // The title of a time, if one is the last field, and the newline.
    fn last_title(&mut self, timed: bool)
        requires { HasRoom self.old (rest_text (last_title timed)) }
        ensures { Puts self.old (rest_text (last_title timed)) self.new }
    {
        if timed {
            self.bytes(b" wait_seconds\n");
        } else {
            self.bytes(b"\n");
        }
    }

    // The titles behind the first five, and the newline.
    fn later_titles(&mut self, sizes: &[u32], timed: bool)
        requires { HasRoom self.old (rest_text (later_titles sizes.now timed)) }
        ensures { Puts self.old (rest_text (later_titles sizes.now timed)) self.new }
    {
        for size in sizes {
            self.owed_title(*size);
        }
        self.last_title(timed);
    }
}

// The text of a listing at the start of a lent buffer, and how many bytes it has; nothing, and 0, where
// the buffer has fewer than 18 bytes for each number.
pub fn listing_text(list: &[u64], buf: &mut [u8]) -> usize
    ensures value { result ≡ length (listing_within list.now (length buf.old)) }
    ensures buf_after { buf.new ≡
        overlaid (listing_within list.now (length buf.old)) buf.old }
{
    if buf.len() / 18 < list.len() {
        return 0;
    }
    let mut out = Out { buf, at: 0 };
    out.lines(list, &[]);
    out.at
}

// The same with a column more: the numbers beside the list, one for each line before line 3, as the last
// field of that line; a line has none where they are fewer. Nothing, and 0, where the buffer has fewer
// than 18 bytes for each number of the list and 21 for each beside it.
pub fn beside_text(list: &[u64], beside: &[u64], buf: &mut [u8]) -> usize
    ensures value { result ≡ length
        (beside_within list.now beside.now (length buf.old)) }
    ensures buf_after { buf.new ≡
        overlaid (beside_within list.now beside.now (length buf.old))
        buf.old }
{
    if buf.len() / 18 < list.len() || (buf.len() - 18 * list.len()) / 21 < beside.len() {
        return 0;
    }
    let mut out = Out { buf, at: 0 };
    out.lines(list, beside);
    out.at
}

// The line of a refusal at the start of a lent buffer of 44 bytes at least, and how many bytes it has;
// nothing, and 0, where the buffer has fewer.
pub fn refusal_text(number: u64, place: u64, buf: &mut [u8]) -> usize
    ensures value { result ≡ length (refusal_within number place (length buf.old)) }
    ensures buf_after { buf.new ≡
        overlaid (refusal_within number place (length buf.old)) buf.old }
{
    if buf.len() < 44 {
        return 0;
    }
    let mut out = Out { buf, at: 0 };
    out.byte(b'R');
    out.fields(&[number, place]);
    out.at
}

// The text of numbers alone at the start of a lent buffer, and how many bytes it has; nothing, and 0,
// where the buffer has fewer than 21 bytes for each number.
pub fn numbers_text(list: &[u64], buf: &mut [u8]) -> usize
    ensures value { result ≡ length (numbers_within list.now (length buf.old)) }
    ensures buf_after { buf.new ≡
        overlaid (numbers_within list.now (length buf.old)) buf.old }
{
    if buf.len() / 21 < list.len() {
        return 0;
    }
    let Some((first, others)) = list.split_first() else {
        return 0;
    };
    let mut out = Out { buf, at: 0 };
    out.number(*first);
    out.fields(others);
    out.at
}

// The text of numbers and a time, in hundred-millionths of a second, as the last field, at the start of
// a lent buffer, and how many bytes it has; nothing, and 0, where the buffer has fewer than 30 bytes for
// each field.
pub fn timed_text(list: &[u64], time: u64, buf: &mut [u8]) -> usize
    ensures value { result ≡ length (timed_within list.now time (length buf.old)) }
    ensures buf_after { buf.new ≡
        overlaid (timed_within list.now time (length buf.old)) buf.old }
{
    if buf.len() / 30 <= list.len() {
        return 0;
    }
    let mut out = Out { buf, at: 0 };
    out.timed(list, time);
    out.at
}

// The titles of the figures' columns, of what is owed of these numbers of bytes and of a time if one is
// the last field, at the start of a lent buffer, and how many bytes they have; nothing, and 0, where the
// buffer has fewer than 30 bytes for each of 6 and of the numbers.
pub fn titles_text(sizes: &[u32], timed: bool, buf: &mut [u8]) -> usize
    ensures value { result ≡ length (titles_within sizes.now timed (length buf.old)) }
    ensures buf_after { buf.new ≡
        overlaid (titles_within sizes.now timed (length buf.old)) buf.old }
{
    if buf.len() / 30 < sizes.len() + 6 {
        return 0;
    }
    let mut out = Out { buf, at: 0 };
    out.bytes(b"flow quantum maximum C wait");
    out.later_titles(sizes, timed);
    out.at
}

// A lent text with another byte in place of each space.
pub fn part_by(parting: u8, text: &mut [u8])
    ensures { text.new ≡ parted parting text.old }
{
    for byte in text.iter_mut() {
        if *byte == b' ' {
            *byte = parting;
        }
    }
}

// A number between two texts, at the start of a lent buffer, and how many bytes that is; nothing, and 0,
// where the buffer has fewer than the texts and 20.
pub fn around_text(front: &[u8], n: u64, back: &[u8], buf: &mut [u8]) -> usize
    ensures value { result ≡ length
        (around_within front.now n back.now (length buf.old)) }
    ensures buf_after { buf.new ≡
        overlaid (around_within front.now n back.now (length buf.old))
        buf.old }
{
    if buf.len() < front.len() + 20 || buf.len() - 20 - front.len() < back.len() {
        return 0;
    }
    let mut out = Out { buf, at: 0 };
    out.bytes(front);
    out.number(n);
    out.bytes(back);
    out.at
}

// The largest number that a word says: eighteen nines, so that one digit more still fits 64 bits.
pub const MOST_NUMBER: u64 = 999999999999999999;

// The number that a word of decimal digits says.
pub fn word_of(word: &[u8]) -> Option<u64>
    ensures { result ≡ word_of word.now }
{
    if word.is_empty() {
        return None;
    }
    let mut n = 0;
    for byte in word {
        if !byte.is_ascii_digit() {
            return None;
        }
        n = 10 * n + u64::from(*byte - b'0');
        if MOST_NUMBER < n {
            return None;
        }
    }
    Some(n)
}

// Whether two words have the same bytes.
pub fn same(a: &[u8], b: &[u8]) -> bool
    ensures { result ≡ same a.now b.now }
{
    a == b
}
