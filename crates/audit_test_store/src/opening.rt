// The expected values come from the rows of the format's definition, and from an independent model of the store.
use audit_chain::{Event, FIRST_LINK, Key, Sealed, seal};
use audit_disk::{FailOnce, MemDisk, Sectors};
use audit_log::{Chosen, GENERATION_LIMIT, Header, VERSION, write_header};
use audit_store_commit::LogIndex;
use audit_store_opening::{HeaderRefusal, ScanFault, find_header, index_room, judge, scan};
use audit_tree::leaf_hash;
use std::alloc::Global;
use std::process::Abort;

// A device of this many sectors of zeros.
fn device(rt: &impl Abort, alloc: Global, sectors: u64) -> MemDisk {
    MemDisk::new(alloc, sectors).expect(rt, "a device")
}

// A header with this generation on a device of `sectors` sectors, over one entry if `some` is set.
fn header(generation: u64, sectors: u64, some: bool) -> Header {
    Header {
        version: VERSION,
        closed: false,
        generation,
        sectors,
        count: if some { 1 } else { 0 },
        end: if some { 3 } else { 2 },
        root: if some { [1; 32] } else { [0; 32] },
        last_link: if some { [2; 32] } else { [0; 32] },
        key: Key::from_bytes([3; 32]),
    }
}

// A device of `size` sectors with these headers.
fn with_headers(rt: &impl Abort, alloc: Global, size: u64, headers: &[Header]) -> MemDisk {
    let mut disk = device(rt, alloc, size);
    for header in headers {
        check!(rt; disk.size() >= 2 && header.meets_rules(header.generation % 2));
        write_header(&mut disk, header).expect(rt, "a header");
    }
    disk
}

// Whether the header with this generation was found, and was found to differ from the other one as expected.
fn is_found(found: Result<Chosen, HeaderRefusal>, generation: u64, differ: bool) -> bool {
    match found {
        Ok(chosen) => chosen.header.generation == generation && chosen.differ == differ,
        Err(_) => false,
    }
}

const LAST: u64 = GENERATION_LIMIT - 1;

// A device of `size` sectors with the header of no entries of one generation, and the header of another.
fn with_two(
    rt: &impl Abort,
    alloc: Global,
    size: u64,
    older: u64,
    newer: u64,
    some: bool,
) -> MemDisk {
    let headers = [header(older, 16, false), header(newer, 16, some)];
    with_headers(rt, alloc, size, &headers)
}

#[test]
fn headers_found(rt: HostRuntime) {
    for (generation, some, differ) in [
        (2, false, false),
        (2, true, true),
        (9, true, true),
        (LAST - 1, true, true),
        (LAST, false, false),
    ] {
        let mut disk = with_two(&rt, rt.alloc(), 16, generation - 1, generation, some);
        check!(&rt; is_found(find_header(&mut disk), generation, differ) && disk.calls() == 3);
    }
}

#[test]
fn the_only_header_found(rt: HostRuntime) {
    let mut disk = with_headers(&rt, rt.alloc(), 3, &[header(1, 3, false)]);
    check!(&rt; is_found(find_header(&mut disk), 1, true));
}

fn refusal_of<D: Sectors>(disk: &mut D) -> Option<HeaderRefusal> {
    find_header(disk).err()
}

#[test]
fn devices_of_no_store(rt: HostRuntime) {
    let mut small = device(&rt, rt.alloc(), 1);
    check!(&rt; refusal_of(&mut small) == Some(HeaderRefusal::NotAStore) && small.calls() == 1);
    let mut zeros = device(&rt, rt.alloc(), 16);
    check!(&rt; refusal_of(&mut zeros) == Some(HeaderRefusal::NotAStore));
}

#[test]
fn a_header_refused_beside_a_damaged_one(rt: HostRuntime) {
    let mut damaged = with_headers(&rt, rt.alloc(), 16, &[header(9, 16, true)]);
    check!(&rt; damaged.size() == 16);
    damaged.write(0, &[1; 512]).expect(&rt, "a write");
    check!(&rt; refusal_of(&mut damaged) == Some(HeaderRefusal::DamagedHeader));
}

#[test]
fn headers_refused(rt: HostRuntime) {
    for (older, newer, size, refusal) in [
        (4, 7, 16, HeaderRefusal::HeadersDisagree),
        (4, 5, 20, HeaderRefusal::HeadersDisagree),
        (LAST - 1, LAST, 20, HeaderRefusal::HeadersDisagree),
        (LAST - 1, LAST, 16, HeaderRefusal::Worn),
    ] {
        let mut disk = with_two(&rt, rt.alloc(), size, older, newer, true);
        check!(&rt; refusal_of(&mut disk) == Some(refusal));
    }
}

// The first sync fails.
#[test]
fn a_header_refused_by_a_failing_device(rt: HostRuntime) {
    let disk = with_headers(&rt, rt.alloc(), 16, &[header(1, 16, false)]);
    let mut failing = FailOnce::new(disk, 0);
    check!(&rt; refusal_of(&mut failing) == Some(HeaderRefusal::Device));
    check!(&rt; is_found(find_header(&mut failing), 1, true));
}

// The entry of kind 1 with the payload `hi`, under a key of zeros.
fn seal_hi(rt: &impl Abort, alloc: Global) -> Sealed {
    let event = Event::new(alloc, 1, b"hi").expect(rt, "an event");
    seal(alloc, &Key::from_bytes([0; 32]), &FIRST_LINK, &event).expect(rt, "a sealed entry")
}

// The sector that begins with these bytes.
fn sector_of(bytes: &[u8]) -> [u8; 512] {
    let mut sector = [0; 512];
    for (to, from) in sector.iter_mut().zip(bytes.iter()) {
        *to = *from;
    }
    sector
}

// A device with this entry in its first log sector.
fn with_entry(rt: &impl Abort, alloc: Global, bytes: &[u8]) -> MemDisk {
    let mut disk = device(rt, alloc, 16);
    check!(rt; disk.size() == 16);
    disk.write(2, &sector_of(bytes)).expect(rt, "a write");
    disk
}

// The header of a log of one entry.
fn header_after(sealed: &Sealed) -> Header {
    Header {
        version: VERSION,
        closed: false,
        generation: 4,
        sectors: 16,
        count: 1,
        end: 3,
        root: leaf_hash(&sealed.bytes),
        last_link: sealed.link,
        key: Key::from_bytes(*sealed.next.bytes()),
    }
}

// Reads the log into an index, which takes the same verdict as judging it alone.
fn scanned(
    rt: &impl Abort,
    alloc: Global,
    disk: &mut MemDisk,
    header: &Header,
) -> Result<LogIndex, ScanFault> {
    check!(rt; header.meets_rules(header.generation % 2) && disk.size() == header.sectors);
    let judged = judge(disk, header);
    let found = scan(disk, header, index_room(alloc, header).expect(rt, "memory"));
    check!(rt; judged.err() == found.as_ref().err().copied());
    found
}

fn is_damaged(found: Result<LogIndex, ScanFault>) -> bool {
    found.err() == Some(ScanFault::DamagedLog { index: 1 })
}

#[test]
fn log_scanned(rt: HostRuntime) {
    let sealed = seal_hi(&rt, rt.alloc());
    let mut disk = with_entry(&rt, rt.alloc(), &sealed.bytes);
    let index = scanned(&rt, rt.alloc(), &mut disk, &header_after(&sealed)).expect(&rt, "an index");
    check!(&rt; index.count() == 1 && index.first_sector(0) == Some(2));
}

// First the header states another last link, then also one more entry.
#[test]
fn log_refused(rt: HostRuntime) {
    let sealed = seal_hi(&rt, rt.alloc());
    let mut disk = with_entry(&rt, rt.alloc(), &sealed.bytes);
    let mut header = header_after(&sealed);
    header.last_link = [1; 32];
    check!(&rt; is_damaged(scanned(&rt, rt.alloc(), &mut disk, &header)));
    header.count = 2;
    header.end = 4;
    check!(&rt; is_damaged(scanned(&rt, rt.alloc(), &mut disk, &header)));
}
