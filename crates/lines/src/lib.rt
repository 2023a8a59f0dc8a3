// One line about a call: a word, then number, place and third. Its text is made in an array first, so that its bytes can be had without a writer,
// and go to one in one write.
#![tactic(auto)]

ghost use Rattle.std.specs.Prelude.{◌≡◌, [], ◌∷◌, ◌+◌, ◌<◌, ◌≤◌, length, OnOk};
ghost use Rattle.std.specs.Io.KnownBytes.{Appends};
ghost use Rattle.decimals.specs.Decimal.{longest_number, decimal};
ghost use Rattle.lines.specs.Text.{line, line_of, text_of, blank, room, longest_word, holding, put};

use replies::Reply;
use std::io;
use std::io::Write;

const ROOM: usize = 40;

// Its first `size` bytes are the text, the others zero. (Not a word and numbers for std to print: std prints a part at a time, to what may refuse.)
#[derive(Clone, Copy)]
pub struct Line {
    pub bytes: [u8; ROOM],
    pub size: usize,
}

impl Line {
    // No text.
    pub fn empty() -> Line
        ensures { result ≡ holding [] }
    {
        Line {
            bytes: [0; ROOM],
            size: 0,
        }
    }

    fn with_byte(self, x: u8) -> Line
        requires { self.size < room }
        ensures { result ≡ put self (x ∷ []) }
    {
        let size = self.size;
        let mut bytes = self.bytes;
        bytes[size] = x;
        Line {
            bytes,
            size: size + 1,
        }
    }

    fn with_word(self, word: &[u8]) -> Line
        requires { self.size + length word.now ≤ room }
        ensures { result ≡ put self word.now }
    {
        let mut line = self;
        for x in word {
            line = line.with_byte(*x);
        }
        line
    }

    // All digits but the last, then the last.
    fn with_decimal(self, x: u32) -> Line
        requires { self.size + length (decimal x) ≤ room }
        ensures { result ≡ put self (decimal x) }
    {
        if x < 10 {
            return self.with_byte(decimals::digit(x));
        }
        self.with_decimal(x / 10).with_byte(decimals::digit(x % 10))
    }

    // A blank, then the number in decimal.
    fn with_number(self, x: u32) -> Line
        requires { self.size + (1 + longest_number) ≤ room }
        ensures { result ≡ put self (blank ∷ decimal x) }
    {
        self.with_byte(b' ').with_decimal(x)
    }

    // The line of a word and three numbers.
    pub fn of(word: &[u8], number: u32, place: u32, third: u32) -> Line
        requires { length word.now ≤ longest_word }
        ensures bytes { result ≡ holding (line word.now number place third) }
        ensures text { text_of result ≡ line word.now number place third }
    {
        let said = Line::empty().with_word(word);
        let told = said
            .with_number(number)
            .with_number(place)
            .with_number(third);
        told.with_byte(b'\n')
    }

    // The line of a word and a reply.
    pub fn of_reply(word: &[u8], reply: Reply) -> Line
        requires { length word.now ≤ longest_word }
        ensures bytes { result ≡ holding (line_of word.now reply) }
        ensures text { text_of result ≡ line_of word.now reply }
    {
        let number = u32::from(replies::number_of(reply));
        let place = replies::place_of(reply);
        let third = replies::third_of(reply);
        Line::of(word, number, place, third)
    }

    // Writes the text of the line, the line feed at its end with it: all of it in one write, where the writer takes it.
    pub fn write<W: Write>(&self, out: &mut W) -> io::Result<()>
        ensures { OnOk result (Appends (W.contents out.old) (W.contents out.new) (text_of self.now)) }
    {
        let size = self.size.min(ROOM);
        out.write_all(&self.bytes[..size])
    }
}
