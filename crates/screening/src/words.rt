// Whether all facts fit, told at once: "yes" is proved, "no" says nothing. The four bytes of a fact are taken as one number. Each byte gets its
// highest bit and loses its limit, and has that bit still if it was not below the limit; the tag says which limits. The loop has no branch
// beside its end and only gathers bits, so that several facts can be handled at once. (Limits are put together by `|`:
// then four facts are one load and the tags stay where they are.)
ghost use Rattle.std.specs.Prelude.{◌≡◌, true, cond, ℕ, ◌<◌, ◌≤◌, Ok};
ghost use Rattle.std.specs.Int.Bits.{bit_and};
ghost use Rattle.packets.specs.Packet.{fact_at, fact_count};
ghost use Rattle.screening.specs.Screening.{first_bad_fact};
ghost use Rattle.screening.specs.Words.{four_bytes, high_bits, limits_for, gathered, Word, Limits, Clear};

use super::Filled;

// The highest bit of each of four bytes.
const HIGH_BITS: u32 = 0x80808080;

// The four bytes of a fact, the first the lowest.
fn word_of(fact: &[u8; 4]) -> u32
    ensures { Word fact.now 0 result }
{
    u32::from_le_bytes(*fact)
}

// The limits of a fact's bytes: a tag may be any number below 128.
fn limits(a: usize, x: usize, y: usize) -> u32
    requires { (a ≤ 128) × (x ≤ 128) × (y ≤ 128) }
    ensures { result ≡ four_bytes 128 a x y }
{
    (128 + 256 * a + 65536 * x + 16777216 * y) as u32
}

fn only(b: bool, x: u32) -> u32
    ensures { result ≡ cond b x 0 }
{
    if b { x } else { 0 }
}

// The limits for a tag: 0, which no byte is below, where it is none of the three.
fn limits_for(tag: u32, kind: u32, same: u32, link: u32) -> u32
    ensures { result ≡ limits_for tag kind same link }
{
    only(tag == 1, kind) | only(tag == 2, same) | only(tag == 3, link)
}

// The bits of a fact, and those that its bytes have left when their limits are taken off.
fn bits(word: u32, kind: u32, same: u32, link: u32) -> u32
    requires { Limits kind same link }
    ensures { result ≡ gathered word kind same link }
{
    word | ((word | HIGH_BITS) - limits_for(word % 256, kind, same, link))
}

// The bits of all facts. Where no highest bit is among them, no fact has one.
fn all_bits(filled: &Filled<'_>, kind: u32, same: u32, link: u32) -> u32
    requires { Limits kind same link }
    ensures { bit_and result high_bits ≡ 0 → (i : ℕ) → i < fact_count filled.now → Clear kind same link filled.now (fact_at filled.now i) }
{
    let mut any = 0u32;
    for fact in filled.facts() {
        any |= bits(word_of(fact), kind, same, link);
    }
    any
}

// Whether every fact fits, where joints and kinds are at most 128.
pub fn all_fit(filled: &Filled<'_>, n: usize) -> bool
    ensures { result ≡ true → first_bad_fact n filled.now ≡ Ok 0 }
{
    let joints = filled.packet.joint_count();
    if 128 < joints || 128 < n {
        return false;
    }
    let kind = limits(joints, n, 1);
    let same = limits(joints, joints, 1);
    let link = limits(joints, 16, joints);
    all_bits(filled, kind, same, link) & HIGH_BITS == 0
}
