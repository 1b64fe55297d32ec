ghost use Rattle.std.specs.Prelude.{◌≡◌, ◌+◌, ◌^◌, ◌<◌, ◌≤◌, ◌∷◌, ◌++◌, length, IsOk, OnOk, OnErr, vec_len};
ghost use Rattle.std.specs.Prelude.{vec_capacity, if◌then◌else◌};
ghost use Rattle.std.specs.Int.{w32, w64, to_be_bytes};
ghost use Rattle.audit_base.specs.Hashes.{AreHashes};
ghost use Rattle.audit_wire.specs.Frame.{frame};
ghost use Rattle.audit_wire.specs.Reply.{reply_body, reply_byte, hash_list, state_tail, IsReply, HasReplyFields};
ghost use Rattle.audit_wire.specs.Reply.{IsWholeReply};

use crate::hash_list::HashList;
use crate::limits::LENGTH_BYTES;
use crate::reply::Reply;
use crate::reply_kind::ReplyKind;
use crate::room::put;
use audit_base::Hash;
use std::alloc::{AllocError, Global};

// A body begins with its kind in one byte and the request tag in four. An index, a count, a sector or a generation has
// eight bytes, a version two; how many hashes there are, a code or a mark has one.
const HEAD: usize = 5;

const NUMBER: usize = 8;

const VERSION: usize = 2;

/// Appends the frame of a reply to `out`. The only error is that memory is refused; the bytes of `out` are then
/// unchanged.
pub fn write_reply(_alloc: Global, reply: &Reply, out: &mut Vec<u8>) -> Result<(), AllocError>
    requires { IsReply reply.now }
    ensures ok { OnOk result (out.new.items ≡ out.old.items ++ frame (reply_body reply.now)) }
    ensures err { OnErr result (out.new.items ≡ out.old.items) }
    // Nothing is allocated if the capacity suffices, and capacity is never given back.
    ensures room { vec_len out.old + length (frame (reply_body reply.now)) ≤ vec_capacity out.old → IsOk result }
    ensures capacity { vec_capacity out.old ≤ vec_capacity out.new }
    // The parts of the reply fit their fields, so it can be read back from its frame.
    ensures whole { IsOk result → IsWholeReply reply.now }
{
    let size = body_size(reply);
    out.reserve(LENGTH_BYTES + size)?;
    put(out, &(size as u16).to_be_bytes());
    put_body(out, reply);
    Ok(())
}

/// Returns the length of a reply's frame in bytes.
pub fn frame_size(reply: &Reply) -> usize
    requires { IsReply reply.now }
    ensures { result ≡ length (frame (reply_body reply.now)) }
{
    LENGTH_BYTES + body_size(reply)
}

// The length of a reply's body.
fn body_size(reply: &Reply) -> usize
    requires { IsReply reply.now }
    ensures size { result ≡ length (reply_body reply.now) }
    ensures fits { result < 2 ^ 16 }
{
    match reply {
        Reply::Acknowledgement { root, .. } => HEAD + 2 * NUMBER + hash_size(root),
        Reply::Commitment { root, .. } => HEAD + NUMBER + hash_size(root),
        Reply::Membership { hashes, entry, .. } => {
            HEAD + 1 + hashes.as_bytes().len() + entry.as_slice().len()
        }
        Reply::Incremental { hashes, .. } => HEAD + 1 + hashes.as_bytes().len(),
        Reply::Entry { entry, .. } => HEAD + entry.as_slice().len(),
        Reply::State { root, .. } => HEAD + 4 * NUMBER + hash_size(root) + VERSION + 1,
        Reply::Place { .. } => HEAD + 2 * NUMBER,
        Reply::Placed { root, key, .. } => HEAD + 2 * NUMBER + hash_size(root) + hash_size(key),
        Reply::Refused { .. } => HEAD + 1,
    }
}

fn hash_size(hash: &Hash) -> usize
    ensures value { result ≡ length hash.now }
    ensures few { result ≤ 32 }
{
    hash.len()
}

/// Appends the body of a reply, within the capacity.
fn put_body(out: &mut Vec<u8>, reply: &Reply)
    requires reply { IsReply reply.now }
    requires room { vec_len out.old + length (reply_body reply.now) ≤ vec_capacity out.old }
    ensures items { out.new.items ≡ out.old.items ++ reply_body reply.now }
    ensures capacity { vec_capacity out.old ≤ vec_capacity out.new }
    ensures fields { HasReplyFields reply.now }
{
    match reply {
        Reply::Acknowledgement {
            tag,
            index,
            count,
            root,
        } => {
            put_head(out, ReplyKind::Acknowledgement, *tag);
            put(out, &index.to_be_bytes());
            put(out, &count.to_be_bytes());
            put(out, root);
        }
        Reply::Commitment { tag, count, root } => {
            put_head(out, ReplyKind::Commitment, *tag);
            put(out, &count.to_be_bytes());
            put(out, root);
        }
        Reply::Membership { tag, hashes, entry } => {
            put_head(out, ReplyKind::Membership, *tag);
            put_hashes(out, hashes);
            put(out, entry.as_slice());
        }
        Reply::Incremental { tag, hashes } => {
            put_head(out, ReplyKind::Incremental, *tag);
            put_hashes(out, hashes);
        }
        Reply::Entry { tag, entry } => {
            put_head(out, ReplyKind::Entry, *tag);
            put(out, entry.as_slice());
        }
        Reply::State {
            tag,
            count,
            root,
            end,
            sectors,
            generation,
            version,
            closed,
        } => {
            put_head(out, ReplyKind::State, *tag);
            put(out, &count.to_be_bytes());
            put(out, root);
            put_state_tail(out, *end, *sectors, *generation, *version, *closed);
        }
        Reply::Place { tag, number, count } => {
            put_head(out, ReplyKind::Place, *tag);
            put_number(out, *number);
            put_number(out, *count);
        }
        Reply::Placed {
            tag,
            index,
            count,
            root,
            key,
        } => {
            put_head(out, ReplyKind::Placed, *tag);
            put_number(out, *index);
            put_number(out, *count);
            put(out, root);
            put(out, key);
        }
        Reply::Refused { tag, refusal } => {
            put_head(out, ReplyKind::Refused, *tag);
            put(out, &[refusal.code()]);
        }
    }
}

fn put_head(out: &mut Vec<u8>, kind: ReplyKind, tag: u32)
    requires { vec_len out.old + 5 ≤ vec_capacity out.old }
    ensures items { out.new.items ≡ out.old.items ++ reply_byte kind ∷ to_be_bytes w32 tag }
    ensures capacity { vec_capacity out.old ≤ vec_capacity out.new }
{
    put(out, &[kind.byte()]);
    put(out, &tag.to_be_bytes());
}

fn put_hashes(out: &mut Vec<u8>, hashes: &HashList)
    requires few { length hashes.now < 2 ^ 8 }
    requires room { vec_len out.old + length (hash_list hashes.now) ≤ vec_capacity out.old }
    ensures items { out.new.items ≡ out.old.items ++ hash_list hashes.now }
    ensures capacity { vec_capacity out.old ≤ vec_capacity out.new }
    ensures whole { AreHashes hashes.now }
{
    put(out, &[hashes.as_slice().len() as u8]);
    put(out, hashes.as_bytes());
}

// Appends the fields of a state after its commitment.
fn put_state_tail(
    out: &mut Vec<u8>,
    end: u64,
    sectors: u64,
    generation: u64,
    version: u16,
    closed: bool,
)
    requires { vec_len out.old + 27 ≤ vec_capacity out.old }
    ensures items { out.new.items ≡ out.old.items ++ state_tail end sectors generation version closed }
    ensures capacity { vec_capacity out.old ≤ vec_capacity out.new }
{
    put_number(out, end);
    put_number(out, sectors);
    put_number(out, generation);
    put(out, &version.to_be_bytes());
    put(out, &[mark_of(closed)]);
}

// The mark of a log that is closed or not.
fn mark_of(closed: bool) -> u8
    ensures { result ≡ (if closed then 1 else 0) }
{
    u8::from(closed)
}

fn put_number(out: &mut Vec<u8>, number: u64)
    requires { vec_len out.old + 8 ≤ vec_capacity out.old }
    ensures items { out.new.items ≡ out.old.items ++ to_be_bytes w64 number }
    ensures capacity { vec_capacity out.old ≤ vec_capacity out.new }
{
    put(out, &number.to_be_bytes());
}
