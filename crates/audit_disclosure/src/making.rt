//! Disclosures that are made.
ghost use Rattle.std.specs.Prelude.{◌≡◌, ◌⊎◌, ◌++◌, IfOk, IfErr, IfSome, OnOk};
ghost use Rattle.audit_verify.specs.declared.verifying.TheConstants.{BYTE_LIMIT};
ghost use Rattle.audit_verify.specs.GivenUp.{IsGivenUpFrom};
ghost use Rattle.audit_disclosure.specs.Choosing.{DisclosesChosen, FailsDisclosing, StopsKeys, TakesKeys, chosen_key, start_after};

use crate::choice::Choice;
use crate::disclosure::{DisclosedKey, Disclosure, Start};
use audit_chain::Key;
use audit_proof::Commitment;
use audit_verify::{Accepted, Cause, EntryReader, FallibleRead, State, VerifyFault, check_from};
use std::alloc::{AllocError, Global};

/// What is disclosed of a verified export.
#[derive(Drop)]
pub struct Chosen {
    /// The keys of the chosen entries.
    pub disclosure: Disclosure,
    /// The number of all entries of the log.
    pub count: u64,
}

/// Verifies the bytes of an export that follow a state, given a commitment to the whole log, as `check_from` does, and
/// then returns the keys of the chosen entries, which it takes from a second reader of the same bytes. It holds these
/// keys and one entry. If the second bytes are others, it returns a fault of theirs, or `WrongCommitment` if their count
/// or last link isn't that of the first ones.
pub fn disclose<R: FallibleRead>(
    alloc: Global,
    first: &mut R,
    second: &mut R,
    from: &State,
    commitment: &Commitment,
    choice: &Choice,
) -> Result<Chosen, VerifyFault>
    ensures chosen { IfOk result (λ chosen. IfSome (R.remaining first.old) (λ bytes. IfSome (R.remaining second.old)
        (λ again. DisclosesChosen choice.now from.now commitment.now bytes chosen.disclosure.start
        chosen.disclosure.keys.items chosen.count))) }

    // A returned fault is one of the first bytes; or these are verified, and it is one of the second ones.
    ensures fault { IfErr result (λ fault. IfSome (R.remaining first.old) (λ bytes. IfSome (R.remaining second.old)
        (λ again. FailsDisclosing from.now commitment.now bytes again fault))) }
    ensures read { IfErr result (λ fault. fault.cause ≡ Cause.ReadFault
        → IsGivenUpFrom from.now BYTE_LIMIT (R.remaining first.old) (R.remaining first.new) (R.failed first.new) fault
        ⊎ IsGivenUpFrom from.now BYTE_LIMIT (R.remaining second.old) (R.remaining second.new) (R.failed second.new)
        fault) }
{
    let next = check_from(first, from, commitment)?;
    let keys = keys_again(alloc, second, from, &next.end(), choice)?;
    Ok(Chosen {
        disclosure: Disclosure {
            start: start_after(from),
            keys,
        },
        count: next.count(),
    })
}

// Where an export after a state begins.
fn start_after(from: &State) -> Start
    ensures { result ≡ start_after from.now }
{
    Start {
        link: *from.link(),
        tree: from.frontier().copy(),
    }
}

// Reads an export again, and returns the keys of the chosen entries.
fn keys_again<R: FallibleRead>(
    alloc: Global,
    reader: &mut R,
    from: &State,
    accepted: &Accepted,
    choice: &Choice,
) -> Result<Vec<DisclosedKey>, VerifyFault>
    ensures keys { IfOk result (λ keys. IfSome (R.remaining reader.old)
        (λ again. TakesKeys choice.now from.now accepted.now again keys.items)) }
    ensures fault { IfErr result (λ fault. IfSome (R.remaining reader.old)
        (λ again. StopsKeys from.now accepted.now again fault)) }
    ensures read { IfErr result (λ fault. fault.cause ≡ Cause.ReadFault → IsGivenUpFrom from.now BYTE_LIMIT
        (R.remaining reader.old) (R.remaining reader.new) (R.failed reader.new) fault) }
{
    let mut entries = EntryReader::from_state(from);
    let mut key = first_key(from);
    let mut keys = Vec::new(alloc);
    while let Some(event) = entries.next_event(alloc, reader)? {
        add_chosen(&mut keys, choice, &key, entries.count() - 1, event.kind())?;
        key = key.next_key();
    }
    if !entries.has_reached(accepted) {
        return Err(VerifyFault {
            index: entries.count(),
            cause: Cause::WrongCommitment,
        });
    }
    Ok(keys)
}

// The key of the first entry after a state.
fn first_key(from: &State) -> Key
    ensures { result ≡ from.now.key }
{
    Key::from_bytes(*from.key().bytes())
}

// Adds the key of the keystream of an entry that is sealed under this key, if it is chosen.
fn add_chosen(
    keys: &mut Vec<DisclosedKey>,
    choice: &Choice,
    key: &Key,
    index: u64,
    kind: u32,
) -> Result<(), VerifyFault>
    ensures added { OnOk result (keys.new.items ≡ keys.old.items ++ chosen_key choice.now key.now index kind) }
    ensures memory { IfErr result (λ fault. fault.cause ≡ Cause.Memory) }
{
    match push_chosen(keys, choice, key, index, kind) {
        Ok(()) => Ok(()),
        Err(_) => Err(VerifyFault {
            index,
            cause: Cause::Memory,
        }),
    }
}

fn push_chosen(
    keys: &mut Vec<DisclosedKey>,
    choice: &Choice,
    key: &Key,
    index: u64,
    kind: u32,
) -> Result<(), AllocError>
    ensures { OnOk result (keys.new.items ≡ keys.old.items ++ chosen_key choice.now key.now index kind) }
{
    if choice.has(index, kind) {
        let key = key.entry_key(kind);
        keys.push(DisclosedKey { index, key })?;
    }
    Ok(())
}
