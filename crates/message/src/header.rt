// The fixed part of a message.
ghost use Rattle.std.specs.Prelude.{◌≡◌, ◌+◌, ◌≤◌, length};
ghost use Rattle.message.specs.Messages.{header, header_rest};
ghost use Rattle.message.specs.Pieces.{Wrote};

use crate::message::Message;
use crate::put::put_bytes;

// Opcode, hardware type and length, hops; transaction id; seconds and flags; client address; then the rest.
pub(crate) fn put_header(buf: &mut [u8], at: usize, m: Message) -> usize
    requires { at + 240 ≤ length buf.old }
    ensures wrote { Wrote at (header m.id m.client m.hardware) buf.old result buf.new }
    ensures value { result ≡ at + 240 }
{
    let start = [1u8, 1, 6, 0];
    let xid = octets::word::split4(m.id);
    let zeros = [0u8; 4];
    let ciaddr = octets::word::split4(m.client);
    let n1 = put_bytes(buf, at, &start);
    let n2 = put_bytes(buf, n1, &xid);
    let n3 = put_bytes(buf, n2, &zeros);
    let n4 = put_bytes(buf, n3, &ciaddr);
    put_rest(buf, n4, m.hardware)
}

// The three other addresses, hardware address, server name, file, and the magic cookie.
fn put_rest(buf: &mut [u8], at: usize, hardware: [u8; 6]) -> usize
    requires { at + 224 ≤ length buf.old }
    ensures wrote { Wrote at (header_rest hardware) buf.old result buf.new }
    ensures value { result ≡ at + 224 }
{
    let addresses = [0u8; 12];
    let zeros = [0u8; 202];
    let cookie = octets::item::MAGIC_NUMBER;
    let n1 = put_bytes(buf, at, &addresses);
    let n2 = put_bytes(buf, n1, &hardware);
    let n3 = put_bytes(buf, n2, &zeros);
    put_bytes(buf, n3, &cookie)
}
