// Scripts, which the programs of examples read from standard input, letter by letter. A script is text with calls in brackets, as
// `[t 0004 0101]`: a letter, then bytes in hex. The text is written as it stands, but for a `#` and what follows it up to the end of its line,
// and a program writes the answer to a call in the place of the call. In a call `fact step count*` stands for `count` facts of four bytes, each
// byte of a fact differing from that of the fact before by the byte of the step. Where a script is not understood a `?` is written, which is in
// no stored output. What is written goes to a writer: an error is that writer's, comes only where a `?` or bytes to be shown are written, as the
// clauses `err` say, and leaves nothing but what the writer took.
#![tactic(auto)]

ghost use Rattle.std.specs.Prelude.{◌≡◌, ℕ, ◌-◌, ◌*◌, ◌<◌, ◌⊎◌, List, true, Ok, IfOk, OnOk, OnErr, IfSome};
ghost use Rattle.std.specs.List.{FoldsTo};
ghost use Rattle.scripts.specs.Rooms.{byte_at, with_byte, number_at, inside_of, put_bytes, CannotPut, flat_entry, flat_table, table_after, summed, sum_of};
ghost use Rattle.scripts.specs.declared.Part.{Part};
ghost use Rattle.scripts.specs.declared.Part.TheVariants.{InBytes, AtSecondDigit};
ghost use Rattle.scripts.specs.Scripts.{NoDigit, CannotRepeat, IsFault, letters_of, NextLetter, Turn};
ghost use Rattle.scripts.specs.Scripts.{part_of, no_bytes, begun_script, is_plain, is_text, text_after, digit_of, with_digits, repeated_facts, with_repeats, call_after, script_after};

use std::io;
use std::io::{Read, Write};

// Where in a script one is.
#[derive(Clone, Copy, PartialEq, Eq, Debug)]
pub enum Part {
    // In its text, outside of comments and calls.
    InText,
    // Behind a `#`, up to the end of the line.
    InComment,
    // Before the letter of a call.
    AtLetter,
    // In the bytes of a call.
    InBytes,
    // In them too, behind the first digit of a byte.
    AtSecondDigit(u8),
    // Behind the call.
    Called,
    // At a number that stands for no part: nothing is text there, and a letter is read as in the text.
    Other(u8),
}

// A part by its number. Behind the first digit of a byte, 4, that digit is 0; another is given by `AtSecondDigit` itself.
impl From<u8> for Part {
    ghost from_gives = { λ n part. part ≡ part_of n };

    fn from(number: u8) -> Part
        ensures { result ≡ part_of number }
    {
        match number {
            0 => Part::InText,
            1 => Part::InComment,
            2 => Part::AtLetter,
            3 => Part::InBytes,
            4 => Part::AtSecondDigit(0),
            5 => Part::Called,
            _ => Part::Other(number),
        }
    }
}

// Room for a table, an output or the bytes of a call, or for a block with one byte and a number behind it.
pub type Room = [u8; 5253];

// The bytes of a call, and how many they are. There is no heap: they have fixed room, and a size that is over it is told by a `?`.
#[derive(Clone, Copy)]
pub struct Bytes {
    pub room: Room,
    pub size: usize,
}

// A script as far as it is read: where one is, and of a call its letter and its bytes.
#[derive(Clone, Copy)]
pub struct Script {
    pub part: Part,
    pub letter: u8,
    pub bytes: Bytes,
}

// A size or an offset that lies inside a room; 0 for one that does not, and a `?` is written.
pub fn inside<W: Write>(out: &mut W, size: usize) -> io::Result<usize>
    ensures done { IfOk result (λ r. (r ≡ inside_of size) × (r < 5253)) }
    ensures err { OnErr result (5252 < size) }
{
    if 5252 < size {
        out.write_all(b"?")?;
        return Ok(0);
    }
    Ok(size)
}

// The byte at a place; behind the last one the first.
fn byte(room: &Room, at: usize) -> usize
    ensures { (result ≡ byte_at room.now at) × (result < 256) }
{
    usize::from(room[at % 5253])
}

fn set(room: &mut Room, at: usize, x: usize)
    ensures { room.new ≡ with_byte room.old at x }
{
    room[at % 5253] = (x % 256) as u8;
}

// The number of two bytes at a place.
pub fn number(room: &Room, at: usize) -> usize
    requires { at < 65536 }
    ensures { (result ≡ number_at room.now at) × (result < 65536) }
{
    256 * byte(room, at) + byte(room, at + 1)
}

// The room with the bytes of a call in it: an offset, and what stands there.
pub fn put<W: Write>(out: &mut W, room: Room, bytes: &Bytes) -> io::Result<Room>
    ensures done { IfOk result (λ r. r ≡ put_bytes room bytes.now) }
    ensures err { OnErr result (CannotPut bytes.now) }
{
    let mut next = room;
    // By place: that of a byte in the room is worked out from its own, and may lie outside.
    for i in 2..inside(out, bytes.size)? {
        let at = inside(out, number(&bytes.room, 0) + i - 2)?;
        set(&mut next, at, byte(&bytes.room, i));
    }
    Ok(next)
}

// An entry of the flat table of n kinds: beside 0, which is under all, and 1, which is above all, no kind is under another.
fn flat_entry(p: usize, n: usize) -> usize
    ensures { result ≡ flat_entry p n }
{
    if n == 0 {
        return 0;
    }
    match (p / n, p % n) {
        (i, j) if i == j => i,
        (1, j) => j,
        (i, 1) => i,
        _ => 0,
    }
}

fn flat_table(n: usize) -> Room
    ensures { result ≡ flat_table n }
{
    // By place: what `array::from_fn` ensures at a place leaves open which n its closure has there.
    let mut table = [0u8; 5253];
    for p in 0..5253 {
        table[p] = (flat_entry(p, n) % 256) as u8;
    }
    table
}

// The table after a call: `k`, the flat table of so many kinds; `e`, bytes put into the table.
pub fn next_table<W: Write>(out: &mut W, letter: u8, table: Room, bytes: &Bytes) -> io::Result<Room>
    ensures done { IfOk result (λ r. r ≡ table_after letter table bytes.now) }
    ensures err { OnErr result ((letter ≡ 101) × CannotPut bytes.now) }
{
    // A letter is the script's own name for a call, and other letters are the programs' own.
    match letter {
        b'k' => Ok(flat_table(number(&bytes.room, 0))),
        b'e' => put(out, table, bytes),
        _ => Ok(table),
    }
}

fn no_bytes() -> Bytes
    ensures { result ≡ no_bytes }
{
    Bytes {
        room: [0u8; 5253],
        size: 0,
    }
}

// A script of which nothing is read.
pub fn begun() -> Script
    ensures { result ≡ begun_script }
{
    Script {
        part: Part::InText,
        letter: 0,
        bytes: no_bytes(),
    }
}

// Whether a letter begins neither a comment nor a call.
fn is_plain(c: u8) -> bool
    ensures { result ≡ is_plain c }
{
    c != b'#' && c != b'['
}

// Whether a letter is one of the text, which is written. The part is given as such or by its number.
pub fn is_text<P: Into<Part>>(part: P, c: u8) -> bool
    ensures { (p : Part) × (P.converts part p) × (result ≡ is_text p c) }
{
    match part.into() {
        Part::InText | Part::Called => is_plain(c),
        _ => false,
    }
}

// Where one is behind a letter outside of calls.
fn text_after(part: Part, c: u8) -> Part
    ensures { result ≡ text_after part c }
{
    match (part, c) {
        (Part::InComment, b'\n') => Part::InText,
        (Part::InComment, _) | (_, b'#') => Part::InComment,
        (_, b'[') => Part::AtLetter,
        _ => Part::InText,
    }
}

// The value of a hex digit; 0 for a letter that is none, and a `?` is written.
fn digit<W: Write>(out: &mut W, c: u8) -> io::Result<u8>
    ensures done { IfOk result (λ r. (r ≡ digit_of c) × (r < 16)) }
    ensures err { OnErr result (NoDigit c) }
{
    match c {
        b'0'..=b'9' => Ok(c - b'0'),
        b'A'..=b'F' => Ok(c - b'A' + 10),
        _ => {
            out.write_all(b"?")?;
            Ok(0)
        }
    }
}

// The bytes with one more, of two digits.
fn with_digits<W: Write>(out: &mut W, bytes: &Bytes, first: u8, second: u8) -> io::Result<Bytes>
    ensures done { IfOk result (λ r. r ≡ with_digits bytes.now first second) }
    ensures err { OnErr result (5252 < bytes.now.size) }
{
    let size = inside(out, bytes.size)?;
    let mut room = bytes.room;
    let x = 16 * usize::from(first) + usize::from(second);
    set(&mut room, size, x);
    Ok(Bytes {
        room,
        size: size + 1,
    })
}

// So many facts, of which the first stands at a place, with its step behind it.
fn repeated(room: &Room, base: usize, count: usize) -> Room
    requires { (base < 5253) × (count < 256) }
    ensures { result ≡ repeated_facts room.now base (4 * count - 4) }
{
    let mut next = *room;
    // By place: a byte is made of the one four before it, which may just have been made, and behind the last place comes the first.
    for i in 4..4 * count {
        let step = byte(room, base + 4 + i % 4);
        let x = byte(&next, base + i - 4) + step;
        set(&mut next, base + i, x);
    }
    next
}

// The bytes with the last nine of them, a fact, its step and a number, made so many facts.
fn with_repeats<W: Write>(out: &mut W, bytes: &Bytes) -> io::Result<Bytes>
    ensures done { IfOk result (λ r. r ≡ with_repeats bytes.now) }
    ensures err { OnErr result (CannotRepeat bytes.now) }
{
    let size = inside(out, bytes.size)?;
    if size < 9 {
        out.write_all(b"?")?;
        return Ok(*bytes);
    }
    let base = size - 9;
    let count = byte(&bytes.room, base + 8);
    Ok(Bytes {
        room: repeated(&bytes.room, base, count),
        size: base + 4 * count,
    })
}

// The script behind a letter among the bytes of a call.
fn call_after<W: Write>(out: &mut W, script: Script, c: u8) -> io::Result<Script>
    ensures done { IfOk result (λ r. r ≡ call_after script c) }
    ensures err { OnErr result (IsFault script c) }
{
    match c {
        b' ' | b'\n' => Ok(script),
        b']' => Ok(Script {
            part: Part::Called,
            ..script
        }),
        b'*' => Ok(Script {
            part: Part::InBytes,
            bytes: with_repeats(out, &script.bytes)?,
            ..script
        }),
        _ => Ok(Script {
            part: Part::AtSecondDigit(digit(out, c)?),
            ..script
        }),
    }
}

// The script behind its next letter.
pub fn after<W: Write>(out: &mut W, script: Script, c: u8) -> io::Result<Script>
    ensures done { IfOk result (λ r. r ≡ script_after script c) }
    ensures err { OnErr result (((script.part ≡ InBytes) × IsFault script c)
        ⊎ ((first : ℕ) × ((script.part ≡ AtSecondDigit first) × (NoDigit c ⊎ (5252 < script.bytes.size))))) }
{
    match script.part {
        Part::AtLetter => Ok(Script {
            part: Part::InBytes,
            letter: c,
            bytes: no_bytes(),
        }),
        Part::InBytes => call_after(out, script, c),
        Part::AtSecondDigit(first) => {
            let second = digit(out, c)?;
            Ok(Script {
                part: Part::InBytes,
                bytes: with_digits(out, &script.bytes, first, second)?,
                ..script
            })
        }
        part => Ok(Script {
            part: text_after(part, c),
            ..script
        }),
    }
}

// The sum with one more byte, which is written where it is to be shown.
fn with_byte<W: Write>(out: &mut W, sum: usize, x: usize, shown: bool) -> io::Result<usize>
    requires { x < 256 }
    ensures done { IfOk result (λ r. r ≡ summed sum x) }
    ensures err { OnErr result (shown ≡ true) }
{
    if shown {
        write!(out, " {x:02X}")?;
    }
    Ok((sum % 65521 * 31 + x) % 65521)
}

// A sum by which so many bytes of a room and their places tell; the bytes are written too where they are to be shown.
pub fn sum<W: Write>(out: &mut W, room: &Room, size: usize, shown: bool) -> io::Result<usize>
    ensures done { IfOk result (λ r. r ≡ sum_of room.now size) }
    ensures err { OnErr result ((shown ≡ true) × (0 < size)) }
{
    let mut sum = 0;
    // By place: a size may be over the room's, and behind the last byte the first is read.
    for i in 0..size {
        sum = with_byte(out, sum, byte(room, i), shown)?;
    }
    Ok(sum)
}

// The next letter of a script; none at the end of the input, nor at a zero byte.
fn next_letter<R: Read>(input: &mut R) -> io::Result<Option<u8>>
    ensures { IfOk result (λ c. NextLetter c (R.remaining input.old) (R.remaining input.new)) }
{
    let mut letters = [0u8; 1];
    if input.read(&mut letters)? == 0 || letters[0] == 0 {
        return Ok(None);
    }
    Ok(Some(letters[0]))
}

// Writes the text of the script that is read, and gives each call to `answer`, which writes what stands in its place.
pub fn run<R: Read, W: Write, F: FnMut(&mut W, &Script) -> io::Result<()>>(
    input: &mut R,
    out: &mut W,
    mut answer: F,
) -> io::Result<()>
    requires { (f : _) (w : _) (s : _) → F.pre f w s }
    ensures { OnOk result ((letters : List ℕ) × IfSome (R.remaining input.old) (λ xs. letters ≡ letters_of 65536 xs) × (last : _)
        × FoldsTo (Turn (λ f script g. (w : _) × (s : _) × (v : _) × (s.now ≡ script) × F.step f w s (Ok tt) v g)) (begun_script, answer) letters last) }
{
    let mut script = begun();
    for _ in 0..65536usize {
        let Some(c) = next_letter(input)? else {
            return Ok(());
        };
        if is_text(script.part, c) {
            out.write_all(&[c])?;
        }
        script = after(out, script, c)?;
        if let Part::Called = script.part {
            answer(out, &script)?;
        }
    }
    Ok(())
}
