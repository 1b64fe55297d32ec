// Entries that are judged four at once, and those that are left over. The faults are known by construction.
use crate::tests::{add_bytes, counted_log, counting_key, turn};
use audit_verify::{Cause, EntryReader, State, VerifyFault, advance};
use std::alloc::Global;
use std::process::Abort;

const MOST: usize = 70;

// The verdict on bytes of at most `MOST` entries, as their leaf hashes are taken and then as their events are: the
// number of entries, or the fault.
fn verdicts_on(alloc: Global, bytes: &[u8]) -> [Result<u64, VerifyFault>; 2] {
    [count_leaves(bytes), count_events(alloc, bytes)]
}

fn count_leaves(mut bytes: &[u8]) -> Result<u64, VerifyFault> {
    Ok(advance(&mut bytes, &State::first(&counting_key()))?.count())
}

fn count_events(alloc: Global, mut bytes: &[u8]) -> Result<u64, VerifyFault> {
    let mut entries = EntryReader::new(&counting_key());
    for _ in 0..MOST {
        entries.next_event(alloc, &mut bytes)?;
    }
    Ok(entries.count())
}

// Asserts that the bytes have this fault if the byte at this place is changed.
fn expect_fault(
    rt: &impl Abort,
    alloc: Global,
    bytes: &mut [u8],
    place: usize,
    fault: VerifyFault,
) {
    turn(bytes, place, 1);
    assert!(rt; verdicts_on(alloc, bytes) == [Err(fault); 2]);
    turn(bytes, place, 1);
}

#[test]
fn every_number_of_entries_with_a_fault_at_each_place(rt: HostRuntime) {
    let log = counted_log(&rt, rt.alloc(), MOST as u32);
    let mut bytes = Vec::new(rt.alloc());
    let mut ends = Vec::new(rt.alloc());
    for entry in &log.entries {
        add_bytes(&rt, &mut bytes, entry);
        ends.push(bytes.len()).expect(&rt, "memory");
        let count = ends.len() as u64;
        assert!(rt; verdicts_on(rt.alloc(), &bytes) == [Ok(count); 2]);
        let mut index = 0_u64;
        for end in &ends {
            let [link, mac] = [Cause::BadLink, Cause::BadMac].map(|cause| VerifyFault {
                index,
                cause,
            });
            expect_fault(&rt, rt.alloc(), &mut bytes, end.saturating_sub(33), link);
            expect_fault(&rt, rt.alloc(), &mut bytes, end.saturating_sub(1), mac);
            index = index.wrapping_add(1);
        }
    }
}
