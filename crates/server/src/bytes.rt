// A phase and a rule in one byte each, for a host that keeps a connection as bytes.
ghost use Rattle.std.specs.Prelude.{◌≡◌, ok_or};
ghost use Rattle.server.specs.Bytes.{phase_byte, phase_of, rule_byte, rule_of};

use crate::{Phase, Rule};

impl From<Phase> for u8 {
    ghost from_gives = { λ phase n. n ≡ phase_byte phase };

    fn from(phase: Phase) -> u8 {
        match phase {
            Phase::Closed => 0,
            Phase::Hello => 1,
            Phase::KeyExchange => 2,
            Phase::Change => 3,
            Phase::Finished => 4,
            Phase::Complete => 5,
        }
    }
}

// The phase of a byte, if it is that of one.
impl TryFrom<u8> for Phase {
    type Error = ();

    ghost try_from_gives = { λ n r. r ≡ ok_or (phase_of n) tt };

    fn try_from(byte: u8) -> Result<Phase, ()> {
        match byte {
            0 => Ok(Phase::Closed),
            1 => Ok(Phase::Hello),
            2 => Ok(Phase::KeyExchange),
            3 => Ok(Phase::Change),
            4 => Ok(Phase::Finished),
            5 => Ok(Phase::Complete),
            _ => Err(()),
        }
    }
}

impl From<Rule> for u8 {
    ghost from_gives = { λ rule n. n ≡ rule_byte rule };

    fn from(rule: Rule) -> u8 {
        match rule {
            Rule::Tell => 1,
            Rule::Hide => 2,
        }
    }
}

// The rule of a byte, if it is that of one.
impl TryFrom<u8> for Rule {
    type Error = ();

    ghost try_from_gives = { λ n r. r ≡ ok_or (rule_of n) tt };

    fn try_from(byte: u8) -> Result<Rule, ()> {
        match byte {
            1 => Ok(Rule::Tell),
            2 => Ok(Rule::Hide),
            _ => Err(()),
        }
    }
}
