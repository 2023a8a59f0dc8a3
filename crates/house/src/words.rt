// Whether a table is the house table: "yes" is proved, "no" says nothing. A constant is laid out on the stack where its function starts, element by
// element, which for 1,089 bytes takes longer than to compare them. So the table stands here as words of eight bytes, and these are compared in two
// halves, each short enough for the compiler to unroll its loop: the words are then part of the code, and nothing is laid out.
ghost use Rattle.std.specs.Prelude.{◌≡◌, true, ◌+◌, ◌*◌, ◌≤◌, length, take, drop};
ghost use Rattle.std.specs.Int.{w64, to_le_bytes};
ghost use Rattle.house.specs.Meets.{house_table};
ghost use Rattle.house.specs.Words.{bytes_of};

// The house table without its last byte: eight bytes a word, the first the lowest. That these are its bytes is computed in the proof of `is_house`.
const WORDS: [u64; 136] = [
    0x0000000000000000,
    0x0000000000000000,
    0x0000000000000000,
    0x0000000000000000,
    0x0605040302010000,
    0x0e0d0c0b0a090807,
    0x161514131211100f,
    0x1e1d1c1b1a191817,
    0x000000020200201f,
    0x0d000b0d0b000000,
    0x151f1d1b19171500,
    0x1d001b0019001700,
    0x0003000300001f00,
    0x0c000e0c00000000,
    0x201e1c1a18160e00,
    0x1c001a0018001600,
    0x0000040020001e00,
    0x0000000807060504,
    0x0000000000000000,
    0x0000000000000000,
    0x0005000000000000,
    0x0000000000050500,
    0x0000000000000000,
    0x0000000000000000,
    0x0600000000000000,
    0x0000000600060000,
    0x0000000000000000,
    0x0000000000000000,
    0x0000000000000000,
    0x0007000007000007,
    0x0000000000000000,
    0x0000000000000000,
    0x0000000000000000,
    0x0000000800000800,
    0x0000000000000008,
    0x0000000000000000,
    0x0000000000000000,
    0x0000000c0b090000,
    0x00000c0b00090000,
    0x161500000011100f,
    0x000000001a191817,
    0x00000e0d0a000000,
    0x0d00000a00000000,
    0x001413120000000e,
    0x1d1c1b0000000000,
    0x00000b0b00201f1e,
    0x000b000b00000000,
    0x0000001917150000,
    0x0000001900170015,
    0x0c000c0000000000,
    0x00000c0000000000,
    0x00001a181600000c,
    0x001a001800160000,
    0x0d0d000000000000,
    0x0d00000000000000,
    0x1b000000000d0000,
    0x0000000000001f1d,
    0x0e00001f001d001b,
    0x0000000000000e00,
    0x0000000e0000000e,
    0x0000000000201e1c,
    0x0020001e001c0000,
    0x000000000016150f,
    0x000f00001615000f,
    0x0000161500000000,
    0x0000000000000000,
    0x0000000018171000,
    0x0000001817001000,
    0x1700000000000010,
    0x0000000000000018,
    0x0000001a19110000,
    0x00001a1900110000,
    0x0000000000110000,
    0x000000001a190000,
    0x00001c1b12000000,
    0x1b00001200000000,
    0x000000120000001c,
    0x001c1b0000000000,
    0x001e1d1300000000,
    0x0000130000000000,
    0x0013000000001e1d,
    0x0000000000000000,
    0x201f140000001e1d,
    0x0014000000000000,
    0x0000000000201f00,
    0x0000000000000014,
    0x151500201f000000,
    0x0015000000000000,
    0x0000001500000015,
    0x0000000000150000,
    0x1600000000000000,
    0x1600000000001600,
    0x0000160000160000,
    0x0000001600000000,
    0x0000000000000000,
    0x0000000000001717,
    0x1700000000170017,
    0x0017000000000000,
    0x0000000000000000,
    0x0000000018001800,
    0x0000001800001800,
    0x0000000000000018,
    0x0000000000000018,
    0x0000000019190000,
    0x0000001900190000,
    0x0000000000190000,
    0x0000000000190000,
    0x00001a001a000000,
    0x001a00001a000000,
    0x000000001a000000,
    0x0000001a00000000,
    0x00001b1b00000000,
    0x00001b0000000000,
    0x00001b000000001b,
    0x001b000000000000,
    0x1c001c0000000000,
    0x001c000000000000,
    0x001c0000001c0000,
    0x0000000000000000,
    0x1d1d00000000001c,
    0x1d00000000000000,
    0x00000000001d0000,
    0x000000000000001d,
    0x1e000000001d0000,
    0x0000000000001e00,
    0x0000001e0000001e,
    0x0000000000001e00,
    0x0000001e00000000,
    0x0000000000001f1f,
    0x0000001f00001f00,
    0x000000001f000000,
    0x001f000000000000,
    0x0000000020002000,
    0x0020000000200000,
    0x0000002000000000,
    0x0000000000000000,
];

// Eight bytes as one number, the first the lowest.
fn word_of(eight: [u8; 8]) -> u64
    ensures { to_le_bytes w64 result ≡ eight }
{
    u64::from_le_bytes(eight)
}

// The eight bytes at a place.
fn word_at(bytes: &[u8], at: usize) -> u64
    requires { at + 8 ≤ length bytes.now }
    ensures { to_le_bytes w64 result ≡ take 8 (drop at bytes.now) }
{
    word_of(bytes[at..at + 8].try_into().unwrap())
}

// The bits in which bytes differ from those of words, all gathered.
fn differing(bytes: &[u8], words: &[u64]) -> u64
    requires { length bytes.now ≡ 8 * length words.now }
    ensures { result ≡ 0 → bytes.now ≡ bytes_of words.now }
{
    let mut any = 0u64;
    for (i, &word) in words.iter().enumerate() {
        any |= word_at(bytes, 8 * i) ^ word;
    }
    any
}

// Whether a table with as many bytes as the house table is that one. The last byte, which is 32, stands in no word.
pub fn is_house(table: &[u8]) -> bool
    requires { length table.now ≡ 1089 }
    ensures { result ≡ true → table.now ≡ house_table }
{
    let words = &WORDS[..];
    let any = differing(&table[..544], &words[..68])
        | differing(&table[544..1088], &words[68..])
        | (u64::from(table[1088]) ^ 32);
    any == 0
}
