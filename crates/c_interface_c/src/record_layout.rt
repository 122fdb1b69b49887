// What C calls of `c_interface::record_layout`, with the same clauses.
ghost use Rattle.std.specs.Prelude.{◌≡◌, pos};
ghost use Rattle.records.specs.Protection.{initial_state, opened};
ghost use Rattle.records.specs.Joining.{message_end};
ghost use Rattle.c_interface.specs.Codes.{Codes, Reads};
ghost use Rattle.c_interface.specs.Records.{read_record, under, sealing_as, opened_code};

#[unsafe(no_mangle)]
pub extern "C" fn tn_read_record(received: &[u8], added: usize, fields: &mut [u32; 3]) -> i32
    ensures { Reads (read_record added received.now) fields.old result fields.new }
{
    c_interface::record_layout::tn_read_record(received, added, fields)
}

#[unsafe(no_mangle)]
pub extern "C" fn tn_write_record(kind: u8, content: &[u8], out: &mut [u8]) -> i32
    ensures { Codes (sealing_as initial_state kind content.now) out.old result out.new }
{
    c_interface::record_layout::tn_write_record(kind, content, out)
}

#[unsafe(no_mangle)]
pub extern "C" fn tn_seal_record(
    key: &[u8; 32],
    sequence: u64,
    kind: u8,
    content: &[u8],
    out: &mut [u8],
) -> i32
    ensures { Codes (sealing_as (under key.now sequence) kind content.now) out.old result out.new }
{
    c_interface::record_layout::tn_seal_record(key, sequence, kind, content, out)
}

#[unsafe(no_mangle)]
pub extern "C" fn tn_open_record(key: &[u8; 32], sequence: u64, received: &[u8]) -> i32
    ensures { result ≡ opened_code (opened (under key.now sequence) received.now) }
{
    c_interface::record_layout::tn_open_record(key, sequence, received)
}

#[unsafe(no_mangle)]
pub extern "C" fn tn_message_end(header: &[u8; 4]) -> i32
    ensures { result ≡ pos (message_end header.now) }
{
    c_interface::record_layout::tn_message_end(header)
}
