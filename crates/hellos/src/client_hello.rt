// ClientHello.
ghost use Rattle.std.specs.Prelude.{◌≡◌, ◌&&◌, length};
ghost use Rattle.std.specs.Option.{option_copied};
ghost use Rattle.endian.specs.Vector.{writable};
ghost use Rattle.refusal.specs.Lent.{Answers};
ghost use Rattle.layout.specs.Layout.{written};
ghost use Rattle.layout.specs.Place.{part_at, ruled};
ghost use Rattle.hellos.specs.ClientHello.{client_hello, suites_length, methods_length, client_body, client_place, client_given};

use crate::hello;
use layout::{Part, header, place, types};
use refusal::Refusal;

// What a ClientHello holds, and where. Its random stands at 6, its session id at 39; a suite is two
// bytes of the suites, a compression method one of the methods, and `extensions::next` goes through
// the block. A block that is absent and one that is empty are different.
#[derive(Clone, Copy)]
pub struct Client {
    pub version: usize,
    pub session_len: usize,
    pub suites: Part,
    pub methods: Part,
    pub block: Option<Part>,
}

// Where the suites stand that start at `at`.
fn suites(message: &[u8], at: usize) -> Option<Part>
    ensures { result ≡ ruled suites_length (part_at 2 message.now at) }
{
    place::part16(message, at).filter(|part| 2 <= part.len && part.len % 2 == 0)
}

// Where the compression methods stand that start at `at`.
fn methods(message: &[u8], at: usize) -> Option<Part>
    ensures { result ≡ ruled methods_length (part_at 1 message.now at) }
{
    place::part8(message, at).filter(|part| 1 <= part.len)
}

// The tests on the body of a message whose header is tested already.
pub fn read_body(message: &[u8]) -> Option<Client>
    ensures { result ≡ client_body message.now }
{
    let session = hello::session_id(message)?;
    let suites = suites(message, session.start + session.len)?;
    let methods = methods(message, suites.start + suites.len)?;
    let block = hello::tail(message, methods.start + methods.len)?;
    let version = endian::number16(message[4], message[5]);
    Some(Client {
        version,
        session_len: session.len,
        suites,
        methods,
        block,
    })
}

pub fn read(message: &[u8]) -> Option<Client>
    ensures { result ≡ client_place message.now }
{
    header::test(types::CLIENT_HELLO, message).ok()?;
    read_body(message)
}

// ---- writing

// Whether suites and compression methods are such as a ClientHello may carry.
fn lists_valid(suites: &[u8], methods: &[u8]) -> bool
    ensures { result ≡ (writable 2 suites.now && suites_length (length suites.now)
        && (writable 1 methods.now && methods_length (length methods.now))) }
{
    (2..=65535).contains(&suites.len())
        && suites.len() % 2 == 0
        && (1..=255).contains(&methods.len())
}

// A ClientHello.
pub fn write(
    version: usize,
    random: &[u8],
    session_id: &[u8],
    suites: &[u8],
    methods: &[u8],
    block: Option<&[u8]>,
    out: &mut [u8],
) -> Result<usize, Refusal>
    ensures { Answers (written client_hello (client_given version random.now session_id.now suites.now methods.now (option_copied block.entry)))
        out.old result out.new }
{
    if !lists_valid(suites, methods) {
        return Err(Refusal::BadValue);
    }
    let suites_size = endian::bytes::<2>(suites.len() as u64);
    let methods_size = [methods.len() as u8];
    hello::write(
        types::CLIENT_HELLO,
        version,
        random,
        session_id,
        &suites_size,
        suites,
        &methods_size,
        methods,
        block,
        out,
    )
}
