//! The first bytes of a client, by which HTTP and TLS are told.
ghost use Rattle.std.specs.Prelude.{◌≡◌, ◌≢◌, ◌<◌, ◌≤◌, ◌++◌, ℕ, IfErr, IfOk, IfSome, List, false, length, true};
ghost use Rattle.std.specs.Io.KnownBytes.{Consumes, IsAtEnd};
ghost use Rattle.listening.specs.Request.{has_line, is_foreign, is_request, may_become};

use crate::client::Unserved;
use arrayvec::ArrayVec;
use std::io;
use std::io::Read;

/// The bytes of the longest text with which a request begins.
const LONGEST: usize = 8;

/// The first byte of a TLS record that begins a handshake (RFC 8446, section 5.1). No line that is a
/// statement begins with it.
const HANDSHAKE: u8 = 0x16;

/// The first bytes of a client, by which its beginning is told.
pub(crate) type Head = ArrayVec<u8, LONGEST>;

/// Tells whether bytes begin as an HTTP request does: with a method and a blank, or with
/// `DELETE /`, since a statement may begin with DELETE and a blank.
fn is_request(bytes: &[u8]) -> bool
    ensures { result ≡ is_request bytes.now }
{
    bytes.starts_with(b"GET ")
        || bytes.starts_with(b"HEAD ")
        || bytes.starts_with(b"POST ")
        || bytes.starts_with(b"PUT ")
        || bytes.starts_with(b"OPTIONS ")
        || bytes.starts_with(b"CONNECT ")
        || bytes.starts_with(b"TRACE ")
        || bytes.starts_with(b"PATCH ")
        || bytes.starts_with(b"DELETE /")
}

/// Tells whether bytes begin as an HTTP request or as a TLS handshake does.
pub(crate) fn is_foreign(bytes: &[u8]) -> bool
    ensures { result ≡ is_foreign bytes.now }
{
    bytes.starts_with(&[HANDSHAKE]) || is_request(bytes)
}

/// Tells whether bytes are the first ones of such a beginning, or all of it.
fn may_become(bytes: &[u8]) -> bool
    ensures { result ≡ may_become bytes.now }
{
    [HANDSHAKE].starts_with(bytes)
        || b"GET ".starts_with(bytes)
        || b"HEAD ".starts_with(bytes)
        || b"POST ".starts_with(bytes)
        || b"PUT ".starts_with(bytes)
        || b"OPTIONS ".starts_with(bytes)
        || b"CONNECT ".starts_with(bytes)
        || b"TRACE ".starts_with(bytes)
        || b"PATCH ".starts_with(bytes)
        || b"DELETE /".starts_with(bytes)
}

/// Reads a client's first bytes. An error if they begin as an HTTP request or a TLS handshake does; if a
/// line is awaited and there is no byte of one before the client ends; or if the reader fails.
pub(crate) fn read_first<I: Read>(reader: &mut I, awaits_line: bool) -> Result<Head, Unserved>
    ensures took { IfOk result (λ head.
        Consumes (I.remaining reader.old) (I.remaining reader.new) head.items) }
    ensures foreign { IfSome (I.remaining reader.old)
        (λ bytes. is_foreign bytes ≡ true → IfOk result (λ _. ⊥)) }
    ensures line { awaits_line ≡ true → IfSome (I.remaining reader.old)
        (λ bytes. has_line bytes ≡ false → IfOk result (λ _. ⊥)) }
    ensures why { IfErr result (λ why. why ≢ Unserved.Memory) }
{
    let Ok(head) = read_head(reader) else {
        return Err(Unserved::Read);
    };
    if is_foreign(head.as_slice()) {
        return Err(Unserved::Foreign);
    }
    if awaits_line && !has_line(&head) {
        return Err(Unserved::NoLine);
    }
    Ok(head)
}

/// Tells whether bytes have a first line, which the end of the text may end.
fn has_line(head: &Head) -> bool
    ensures { result ≡ has_line head.now.items }
{
    !head.is_empty()
}

/// Reads first bytes, until they show whether the client begins as an HTTP request or a TLS
/// handshake does: what is behind them changes nothing. No such beginning has a line feed, so a line
/// is never waited for once it has ended.
fn read_head<I: Read>(reader: &mut I) -> io::Result<Head>
    ensures took { IfOk result (λ head.
        Consumes (I.remaining reader.old) (I.remaining reader.new) head.items) }
    ensures shown { IfOk result (λ head. IfSome (I.remaining reader.old)
        (λ bytes. is_foreign bytes ≡ is_foreign head.items)) }
{
    let mut head = Head::new();
    while is_unshown(&head) {
        if read_more(reader, &mut head)? == 0 {
            break;
        }
    }
    Ok(head)
}

/// Tells whether bytes behind these may change whether the client begins as an HTTP request or a TLS
/// handshake does. There is room for one then.
fn is_unshown(head: &Head) -> bool
    ensures room { result ≡ true → length head.now.items < LONGEST }
    ensures shown { result ≡ false → (more : List ℕ)
        → is_foreign (head.now.items ++ more) ≡ is_foreign head.now.items }
{
    !head.is_full() && may_become(head.as_slice())
}

/// Reads more first bytes, as far as there is room for them. Returns their number.
fn read_more<I: Read>(reader: &mut I, head: &mut Head) -> io::Result<usize>
    requires room { length head.old.items < LONGEST }
    ensures took { IfOk result (λ n. (bytes : List ℕ)
        × (head.new.items ≡ head.old.items ++ bytes) × (length bytes ≡ n)
        × Consumes (I.remaining reader.old) (I.remaining reader.new) bytes) }
    ensures end { IfOk result (λ n. n ≡ 0 → IsAtEnd (I.remaining reader.new)) }
{
    let mut bytes = [0u8; LONGEST];
    let room = bytes.split_at_mut(head.remaining_capacity()).0;
    let n = reader.read(room)?;
    let _ = head.try_extend_from_slice(bytes.split_at(n).0);
    Ok(n)
}
