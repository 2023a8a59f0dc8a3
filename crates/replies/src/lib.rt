// The replies of every call: done, or refused for a cause that has its number in the table 'Replies'.
#![tactic(auto)]

ghost use Rattle.std.specs.Prelude.{◌≡◌, ◌^◌, ◌<◌};
ghost use Rattle.replies.specs.Replies.{cause_number, number, place, third, packed};

// Why a call is refused.
#[derive(Clone, Copy, Debug, PartialEq, Eq)]
pub enum Cause {
    // 1: n or V out of range, a lent slice that has not its size, or a text that is too long.
    BadSize,
    // 2: a table entry that is no kind, at its offset.
    NoKind,
    // 3: a table law broken, at the offset of the entry read.
    LawBroken,
    // 4: the block is not well formed.
    BadBlock,
    // 5: the packet has under six bytes, or not as many as it states.
    BadLength,
    // 6: the packet's version is not 1.
    BadVersion,
    // 7: purpose, ties or joint count, at the first wrong byte.
    BadHeader,
    // 8: no number of facts fits the length.
    BadCount,
    // 9: a tie or a fact with an unknown tag, a number out of range or an unused byte not 0, at its first byte.
    BadPart,
    // 10: a rule joint that is not reached; its place is the smallest.
    NotReached,
    // 11: no picture satisfies the taken facts and the packet's together, at the first byte of the first fact up to which none does.
    Clash,
    // 12: the output is shorter than what is to be written.
    ShortOutput,
    // 20: the text is no term, or deeper than 16, at the first offset where nothing can continue it.
    NoTerm,
    // 21: a number of a text out of range, at its first digit; or the joint chosen, at 0.
    OutOfRange,
    // 22: the term says more facts than a packet holds.
    TooManyFacts,
    // 23: the rig is no tree from the chosen joint.
    NoTree,
}

// Refused for a cause, at a place.
#[derive(Clone, Copy, Debug, PartialEq, Eq)]
pub struct Refusal(pub Cause, pub u32);

// Done, with the third number; or refused.
pub type Reply = Result<u32, Refusal>;

// The one table from a cause to its number.
impl From<Cause> for u8 {
    ghost from_gives = { λ c r. r ≡ cause_number c };

    fn from(c: Cause) -> u8
        ensures { result ≡ cause_number c }
    {
        match c {
            Cause::BadSize => 1,
            Cause::NoKind => 2,
            Cause::LawBroken => 3,
            Cause::BadBlock => 4,
            Cause::BadLength => 5,
            Cause::BadVersion => 6,
            Cause::BadHeader => 7,
            Cause::BadCount => 8,
            Cause::BadPart => 9,
            Cause::NotReached => 10,
            Cause::Clash => 11,
            Cause::ShortOutput => 12,
            Cause::NoTerm => 20,
            Cause::OutOfRange => 21,
            Cause::TooManyFacts => 22,
            Cause::NoTree => 23,
        }
    }
}

// The numbers of a reply. Functions and no methods, since `Reply` is std's `Result`.
pub fn number_of(r: Reply) -> u8
    ensures { result ≡ number r }
{
    match r {
        Ok(_) => 0,
        Err(Refusal(cause, _)) => u8::from(cause),
    }
}

pub fn place_of(r: Reply) -> u32
    ensures { result ≡ place r }
{
    match r {
        Ok(_) => 0,
        Err(Refusal(_, place)) => place,
    }
}

// A refusal has third 0.
pub fn third_of(r: Reply) -> u32
    ensures { result ≡ third r }
{
    r.unwrap_or(0)
}

// The one number that the host gets. A third number of 24 bits leaves the place its own 32.
pub fn to_host(r: Reply) -> u64
    requires { third r < 2 ^ 24 }
    ensures { result ≡ packed r }
{
    let number = u64::from(number_of(r));
    let third = u64::from(third_of(r));
    let place = u64::from(place_of(r));
    number + 256 * third + 4294967296 * place
}
