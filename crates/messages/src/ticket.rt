// NewSessionTicket: a lifetime hint and a ticket.
ghost use Rattle.std.specs.Prelude.{◌≡◌};
ghost use Rattle.refusal.specs.Lent.{Answers};
ghost use Rattle.layout.specs.Layout.{written};
ghost use Rattle.messages.specs.NewSessionTicket.{new_session_ticket, ticket_place};

use layout::{Part, place, put, types};
use refusal::Refusal;

// What a NewSessionTicket holds: the lifetime hint, and where its ticket stands.
#[derive(Clone, Copy)]
pub struct Ticket {
    pub lifetime_hint: u32,
    pub ticket: Part,
}

pub fn read(message: &[u8]) -> Option<Ticket>
    ensures { result ≡ ticket_place message.now }
{
    let ticket = place::last16_of(types::NEW_SESSION_TICKET, message, 8)?;
    let lifetime_hint = endian::number32(message[4], message[5], message[6], message[7]);
    Some(Ticket {
        lifetime_hint,
        ticket,
    })
}

pub fn write(lifetime_hint: u32, ticket: &[u8], out: &mut [u8]) -> Result<usize, Refusal>
    ensures { Answers (written new_session_ticket (record { lifetime_hint = lifetime_hint; ticket = ticket.now })) out.old result out.new }
{
    let n = ticket.len();
    if 16374 < n {
        return Err(Refusal::BadValue);
    }
    let body = endian::bytes::<3>((n + 6) as u64);
    let hint = endian::bytes::<4>(u64::from(lifetime_hint));
    let size = endian::bytes::<2>(n as u64);
    let head = [
        types::NEW_SESSION_TICKET,
        body[0],
        body[1],
        body[2],
        hint[0],
        hint[1],
        hint[2],
        hint[3],
        size[0],
        size[1],
    ];
    put::two(&head, ticket, out)
}
