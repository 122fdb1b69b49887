// A phase in one byte, for a host that keeps a connection as bytes.
ghost use Rattle.std.specs.Prelude.{◌≡◌, ok_or};
ghost use Rattle.client.specs.Bytes.{phase_byte, phase_of};

use crate::Phase;

impl From<Phase> for u8 {
    ghost from_gives = { λ phase n. n ≡ phase_byte phase };

    fn from(phase: Phase) -> u8 {
        match phase {
            Phase::Closed => 0,
            Phase::Hello => 1,
            Phase::KeyExchange => 2,
            Phase::Done => 3,
            Phase::Change => 4,
            Phase::Finished => 5,
            Phase::Complete => 6,
        }
    }
}

// The phase of a byte, if it is that of one.
impl TryFrom<u8> for Phase {
    type Error = ();

    ghost try_from_gives = { λ n r. r ≡ ok_or (phase_of n) tt };

    fn try_from(byte: u8) -> Result<Phase, ()> {
        match byte {
            0 => Ok(Phase::Closed),
            1 => Ok(Phase::Hello),
            2 => Ok(Phase::KeyExchange),
            3 => Ok(Phase::Done),
            4 => Ok(Phase::Change),
            5 => Ok(Phase::Finished),
            6 => Ok(Phase::Complete),
            _ => Err(()),
        }
    }
}
