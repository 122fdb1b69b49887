// The transcript of one connection: the running hash of its handshake messages, each added to it
// where it stands (document 01, "Secrets").
#![tactic(auto)]

ghost use Rattle.std.specs.Prelude.{◌≡◌};
ghost use Rattle.refusal.specs.Lent.{Answers};
ghost use Rattle.sha256.specs.State.{absorb, finished};
ghost use Rattle.transcript.specs.Transcript.{begun, added};

use refusal::Refusal;
use sha256::Sha256;

// The running hash of one connection's handshake messages, headers included.
#[derive(Drop)]
pub struct Transcript {
    hash: Sha256,
}

// The transcript of a connection to which no message has come.
pub fn start() -> Transcript
    ensures { result ≡ begun }
{
    Transcript {
        hash: Sha256::new(),
    }
}

// The transcript where it stands, with one more message.
#[tactic(auto, unfolding(crate::specs::Transcript::added))]
pub fn add(t: &mut Transcript, message: &[u8])
    ensures { t.new ≡ added t.old message.now }
{
    let before = t.hash;
    let after = before.update(message);
    t.hash = after;
}

// The handshake hash: SHA-256 of all messages so far, at the front of the lent output.
pub fn handshake_hash(t: &Transcript, out: &mut [u8]) -> Result<usize, Refusal>
    ensures { Answers (finished t.now.hash) out.old result out.new }
{
    t.hash.finish(out)
}

// The running hash with one more message: `add` for a caller that keeps the hash by value.
#[tactic(auto, unfolding(crate::specs::Transcript::added))]
pub fn with_message(state: Sha256, message: &[u8]) -> Sha256
    ensures { result ≡ absorb state message.now }
{
    let mut t = Transcript { hash: state };
    add(&mut t, message);
    t.hash
}

// The handshake hash of the messages in the running hash: `handshake_hash` for such a caller.
pub fn hash_of(state: Sha256, out: &mut [u8]) -> Result<usize, Refusal>
    ensures { Answers (finished state) out.old result out.new }
{
    let t = Transcript { hash: state };
    handshake_hash(&t, out)
}
