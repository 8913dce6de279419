#![tactic(auto)]

// What a call answers: that it was accepted, or why it was refused (docs/FORMAT.md, Refusals).
ghost use Rattle.std.specs.Prelude.{◌≡◌};
ghost use Rattle.answers.specs.Answers.{number_of, block_of, rule_of};

use image::Fault;

// Why a call is refused. `Malformed` carries the first failing pair (K1): the block, and the rule that fails there, by its number. (A number and no enum
// of the rules: `bad_rule` answers whatever number it is given, and an enum would ask more of its callers.)
#[derive(Clone, Copy, Debug, PartialEq, Eq)]
pub enum Refusal {
    BadGeometry,
    BadBuffer,
    BadNumber,
    Malformed(u32, u32),
    Unmapped,
    WornOut,
    NoRoom,
}

// The first failing pair as a refusal: so a call hands on what the check gives. (By name and not by `?`, which calls std.)
impl From<Fault> for Refusal {
    ghost use Rattle.answers.specs.declared.Refusal.TheVariants.{Malformed};

    ghost from_gives = { λ fault refusal. refusal ≡ Malformed fault.block fault.rule };

    fn from(fault: Fault) -> Refusal {
        Refusal::Malformed(fault.block, fault.rule)
    }
}

// The answer of a call that gives nothing else where it is accepted.
pub type Answer = Result<(), Refusal>;

// An answer's number in the table of refusals; 0 is acceptance. (This and the next two stay functions: README and docs/USING.md name them.)
pub fn number(answer: Answer) -> u32
    ensures { result ≡ number_of answer }
{
    match answer {
        Ok(()) => 0,
        Err(Refusal::BadGeometry) => 1,
        Err(Refusal::BadBuffer) => 2,
        Err(Refusal::BadNumber) => 3,
        Err(Refusal::Malformed(_, _)) => 4,
        Err(Refusal::Unmapped) => 5,
        Err(Refusal::WornOut) => 6,
        Err(Refusal::NoRoom) => 10,
    }
}

// The block that it names, 0 where it names none.
pub fn bad_block(answer: Answer) -> u32
    ensures { result ≡ block_of answer }
{
    match answer {
        Err(Refusal::Malformed(block, _)) => block,
        _ => 0,
    }
}

// The rule that it names, 0 where it names none.
pub fn bad_rule(answer: Answer) -> u32
    ensures { result ≡ rule_of answer }
{
    match answer {
        Err(Refusal::Malformed(_, rule)) => rule,
        _ => 0,
    }
}
