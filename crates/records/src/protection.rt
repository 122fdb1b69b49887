// Connection states, and records that are sealed and opened under them.
ghost use Rattle.std.specs.Prelude.{◌≡◌, true, ◌≤◌, length};
ghost use Rattle.refusal.specs.Lent.{Answers};
ghost use Rattle.records.specs.Protection as Protection;
ghost use Rattle.records.specs.Protection.{initial_state, protected_by, mac_of, sealing};

use crate::{Content, ContentType, State, header};
use layout::put;
use refusal::Refusal;

// The state of a direction at the start.
pub fn initial() -> State
    ensures { result ≡ initial_state }
{
    State {
        protected: false,
        sequence: 0,
        key: [0u8; 32],
    }
}

// The state of a direction from its change of cipher on.
pub fn protected_by(key: [u8; 32]) -> State
    ensures { result ≡ protected_by key }
{
    State {
        protected: true,
        sequence: 0,
        key,
    }
}

// The last sequence number.
pub const LAST: u64 = 0xffff_ffff_ffff_ffff;

// The state when one more record was sent or taken.
pub fn counted(s: State) -> State
    ensures { result ≡ Protection.counted s }
{
    let key = s.key;
    let protected = s.protected;
    let sequence = s.sequence;
    if sequence == LAST {
        return s;
    }
    State {
        protected,
        sequence: sequence + 1,
        key,
    }
}

// How many bytes the protection adds.
fn added(s: State) -> usize
    ensures { result ≡ Protection.added s }
{
    if s.protected {
        return 32;
    }
    0
}

// The MAC of a content, no longer than its length field can say, in a record whose type and version are these.
fn mac_of(key: [u8; 32], sequence: u64, front: [u8; 3], content: &[u8]) -> [u8; 32]
    requires { length content.now ≤ 65535 }
    ensures { result ≡ mac_of key sequence front content.now }
{
    let number = endian::bytes::<8>(sequence);
    let size = endian::bytes::<2>(content.len() as u64);
    let head = [
        number[0], number[1], number[2], number[3], number[4], number[5], number[6], number[7],
        front[0], front[1], front[2], size[0], size[1],
    ];
    let mut value = [0u8; 32];
    let _ = keys::hmac_of_two(&key, &head, content, &mut value);
    value
}

// A record with this content at the front of the lent output: R5 where the content is over 16,384 bytes, then R1.
pub fn seal(s: State, kind: ContentType, content: &[u8], out: &mut [u8]) -> Result<usize, Refusal>
    ensures { Answers (sealing s kind content.now) out.old result out.new }
{
    let n = content.len();
    if 16384 < n {
        return Err(Refusal::BadValue);
    }
    if !s.protected {
        let head = header::made(kind, n);
        return put::two(&head, content, out);
    }
    if out.len() < 37 + n {
        return Err(Refusal::ShortOutput);
    }
    let key = s.key;
    let head = header::made(kind, n + 32);
    let value = mac_of(key, s.sequence, [head[0], head[1], head[2]], content);
    let at = 5 + n;
    let _ = put::two(&head, content, out);
    lists::copy(&value, &mut out[at..]);
    Ok(37 + n)
}

// Whether the MAC behind the content is right, where there is protection. All of it is compared, whatever its bytes are.
fn right_mac(s: State, received: &[u8]) -> bool
    requires protected_value { s.protected ≡ true }
    requires received_len_bound { length received.now ≤ 65535 }
    ensures { result ≡ Protection.right_mac s received.now }
{
    if received.len() < 37 {
        return false;
    }
    let key = s.key;
    let end = received.len() - 32;
    let value = mac_of(
        key,
        s.sequence,
        [received[0], received[1], received[2]],
        &received[5..end],
    );
    lists::same(&received[end..], &value)
}

// The tests on a record that came under this state.
pub fn open(s: State, received: &[u8]) -> Result<Content, Refusal>
    ensures { result ≡ Protection.opened s received.now }
{
    let extra = added(s);
    let kind = header::read(received, extra)?;
    if s.protected {
        if !right_mac(s, received) {
            return Err(Refusal::BadRecordMac);
        }
    }
    Ok(Content {
        kind,
        len: received.len() - 5 - extra,
    })
}
