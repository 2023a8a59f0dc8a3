// The words that packets and rules are made of. A rig joint's number and a rule joint's number are two types, so that
// neither is ever used for the other; a tie is the one place that holds both.
#![tactic(auto)]

ghost use Rattle.std.specs.Prelude.{◌≡◌};
ghost use Rattle.meaning.specs.Decoding.{decoded, OnJoints, Renamed};
ghost use Rattle.meaning.specs.Rule.{verdict_number};

#[derive(Clone, Copy, PartialEq, Eq, Debug)]
pub struct RigJoint(pub u8);

#[derive(Clone, Copy, PartialEq, Eq, Debug)]
pub struct RuleJoint(pub u8);

#[derive(Clone, Copy, PartialEq, Eq, Debug)]
pub struct Tie {
    pub rule: RuleJoint,
    pub rig: RigJoint,
}

// A fact on joints of a type: a kind, an equality, or a numbered link.
#[derive(Clone, Copy, PartialEq, Eq, Debug)]
pub enum Fact<J> {
    Kind(J, u8),
    Same(J, J),
    Link(J, u8, J),
}

pub type RigFact = Fact<RigJoint>;

// A fact on a rule's own joints.
pub type RuleFact = Fact<RuleJoint>;

impl<J> Fact<J> {
    // The same fact, its joints under the names that f gives them.
    pub fn map<K, F: Fn(J) -> K + Drop>(self, f: F) -> Fact<K>
        requires { OnJoints (F.pre f) (decoded self) }
        ensures { Renamed (F.post f) (decoded self) (decoded result) }
    {
        match self {
            Fact::Kind(a, kind) => Fact::Kind(f(a), kind),
            Fact::Same(a, b) => Fact::Same(f(a), f(b)),
            Fact::Link(a, link, c) => Fact::Link(f(a), link, f(c)),
        }
    }
}

// What the library says of a rule.
#[derive(Clone, Copy, PartialEq, Eq, Debug)]
pub enum Verdict {
    Applies,
    RuledOut,
    Waits,
}

// The verdict's number: the third number of a reply to asking.
impl From<Verdict> for u32 {
    ghost from_gives = { λ v n. n ≡ verdict_number v };

    fn from(v: Verdict) -> u32 {
        match v {
            Verdict::Applies => 1,
            Verdict::RuledOut => 2,
            Verdict::Waits => 3,
        }
    }
}
