// Frame packings as clips hold them, and the cases of the table.
use crate::packings::FramePackings;
use frame_packing::message::{Arrangement, FramePacking, GridPositions, PackingFlags, PackingId};
use kinds::fault::{LookFault, Offered};
use kinds::kind::Kind;
use layouts::fault::{Fault, FieldFault};
use records::period::Period;
use records::record::Record;
use std::process::Abort;
use std::test::Fail;

// What an offer answers: the number and the place of its refusal, as they are told, 0 and 0 where it is granted, 255
// where it is passed; numbers, as the tables of the documents have them.
fn told(kind: &mut FramePackings, payload: &[u8]) -> (u8, usize) {
    match kind.offer(payload) {
        Ok(Offered::Granted) => (0, 0),
        Ok(Offered::Passed) => (255, 0),
        Err(fault) => (fault.number(), fault.place()),
    }
}

// The number of a refusal, or 0 where there is none; a number, as the tables of the documents have them.
fn number(answer: Result<usize, LookFault>) -> u8 {
    match answer {
        Ok(_) => 0,
        Err(fault) => fault.number(),
    }
}

// No id; a number, as the tables of the documents have them.
const NONE: u32 = u32::MAX;

// The ids in force.
fn ids(kind: &FramePackings) -> [u32; 4] {
    let mut ids = [NONE; 4];
    for (n, id) in ids.iter_mut().enumerate() {
        if let Some(thing) = kind.in_force(n) {
            *id = thing.content.id.number;
        }
    }
    ids
}

// Offers payloads in order: what each answers, and the ids in force then.
fn offers(rt: &impl Abort, kind: &mut FramePackings, table: &[(&[u8], (u8, usize), [u32; 4])]) {
    for (payload, want, after) in table {
        assert_eq!(rt; told(kind, payload), *want);
        assert_eq!(rt; ids(kind), *after);
    }
}

const ONE: [u8; 5] = [0x40, 0xA0, 0x40, 0x00, 0x48];

const TWO: [u8; 5] = [0x60, 0xA0, 0x40, 0x00, 0x48];

const THREE: [u8; 5] = [0x20, 0x28, 0x10, 0x00, 0x12];

const FOUR: [u8; 5] = [0x28, 0x28, 0x10, 0x00, 0x12];

const FIVE: [u8; 5] = [0x30, 0x28, 0x10, 0x00, 0x12];

// D0 has id 0, a cancel bit, an extension bit and the closing bits; 11 40 the same with id 7; C0 does not close.
#[test]
fn cancels(rt: HostRuntime) -> Result<(), Fail> {
    let mut kind = <FramePackings as Kind>::empty();
    offers(
        &rt,
        &mut kind,
        &[
            (&[0xD0], (0, 0), [NONE; 4]),
            (&TWO, (0, 0), [2, NONE, NONE, NONE]),
            (&ONE, (0, 0), [1, 2, NONE, NONE]),
            (&[0xC0], (9, 3), [1, 2, NONE, NONE]),
            (&[0xD0], (0, 0), [NONE; 4]),
            (&ONE, (0, 0), [1, NONE, NONE, NONE]),
            (&[0x11, 0x40], (0, 0), [NONE; 4]),
        ],
    );
    let message = <FramePacking as Record>::read(&[0x11, 0x40])?;
    assert_eq!(rt; message.id.number, 7, "a cancel keeps its id");
    assert!(rt; message.cancels());
    let mut buffer = [9; 3];
    assert!(rt; message.write(&mut buffer).is_ok());
    assert_eq!(rt; buffer, [0x11, 0x40, 9]);
    Ok(())
}

// A fifth id is refused by 11, but first by what it lacks; another content of an id in force is granted.
#[test]
fn four_ids(rt: HostRuntime) {
    let mut kind = <FramePackings as Kind>::empty();
    let other = [0x60, 0x60, 0x80, 0x00, 0x00, 0x00, 0x48];
    offers(
        &rt,
        &mut kind,
        &[
            (&FOUR, (0, 0), [4, NONE, NONE, NONE]),
            (&ONE, (0, 0), [1, 4, NONE, NONE]),
            (&THREE, (0, 0), [1, 3, 4, NONE]),
            (&TWO, (0, 0), [1, 2, 3, 4]),
            (&FIVE, (11, 0), [1, 2, 3, 4]),
            (&FIVE[0..4], (6, 26), [1, 2, 3, 4]),
            (&other, (0, 0), [1, 2, 3, 4]),
        ],
    );
    let mut buffer = [9; 8];
    assert_eq!(rt; number(kind.payload(1, &mut buffer)), 0);
    assert_eq!(rt; buffer, [0x60, 0x60, 0x80, 0x00, 0x00, 0x00, 0x48, 9]);
    assert_eq!(rt; kind.payload_len(4), None);
    assert_eq!(rt; number(kind.payload(4, &mut buffer)), 12);
    assert_eq!(rt; number(kind.payload(1, &mut buffer[0..6])), 13);
    offers(
        &rt,
        &mut kind,
        &[
            (&[0xD0], (0, 0), [NONE; 4]),
            (&FIVE, (0, 0), [5, NONE, NONE, NONE]),
        ],
    );
}

// Ids 0 and 2 are once here.
#[test]
fn pictures(rt: HostRuntime) {
    let mut kind = <FramePackings as Kind>::empty();
    offers(
        &rt,
        &mut kind,
        &[
            (&[0x82, 0x81, 0x00, 0x02], (0, 0), [0, NONE, NONE, NONE]),
            (&ONE, (0, 0), [0, 1, NONE, NONE]),
            (&[0x60, 0xA0, 0x40, 0x00, 0xA0], (0, 0), [0, 1, 2, NONE]),
            (&THREE, (0, 0), [0, 1, 2, 3]),
            (&FIVE, (11, 0), [0, 1, 2, 3]),
        ],
    );
    kind.picture(false);
    assert_eq!(rt; ids(&kind), [1, 3, NONE, NONE], "those that stay");
    assert_eq!(rt; told(&mut kind, &FIVE), (0, 0), "there is room again");
    kind.picture(false);
    assert_eq!(rt; ids(&kind), [1, 3, 5, NONE]);
    kind.picture(true);
    assert_eq!(rt; ids(&kind), [NONE; 4], "a new sequence");
}

// Passed: 256, whatever follows it and also as a cancel, 511, 2,147,483,648 and the greatest; 32 zeros are no id.
// Granted: 255, 512 and 2,147,483,647. Where four are in force a reserved id is passed too.
#[test]
fn reserved_ids(rt: HostRuntime) {
    let mut kind = <FramePackings as Kind>::empty();
    let first = [0x00, 0x80, 0x82, 0x81, 0x00, 0x01, 0x20];
    offers(
        &rt,
        &mut kind,
        &[
            (&first, (255, 0), [NONE; 4]),
            (&first[0..3], (255, 0), [NONE; 4]),
            (&first[0..2], (6, 0), [NONE; 4]),
            (&[0x00, 0x80, 0xD0], (255, 0), [NONE; 4]),
            (&[0x00, 0x40, 0x00], (255, 0), [NONE; 4]),
            (&[0, 0, 0, 1, 0, 0, 0, 2], (255, 0), [NONE; 4]),
            (&[0, 0, 0, 1, 0xFF, 0xFF, 0xFF, 0xFE], (255, 0), [NONE; 4]),
            (&[0, 0, 0, 0, 0xFF], (7, 0), [NONE; 4]),
            (
                &[0, 0, 0, 1, 0, 0, 0, 0, 0x0A, 0x04, 0x00, 0x04],
                (0, 0),
                [2_147_483_647, NONE, NONE, NONE],
            ),
            (
                &[0x00, 0x40, 0x20, 0xA0, 0x40, 0x00, 0x48],
                (0, 0),
                [512, 2_147_483_647, NONE, NONE],
            ),
            (
                &[0x00, 0x80, 0x02, 0x81, 0x00, 0x01, 0x20],
                (0, 0),
                [255, 512, 2_147_483_647, NONE],
            ),
            (&ONE, (0, 0), [1, 255, 512, 2_147_483_647]),
            (&first, (255, 0), [1, 255, 512, 2_147_483_647]),
        ],
    );
    assert!(rt;
        <FramePacking as Record>::read(&first).is_err(),
        "no record has such an id"
    );
}

// Too short, periods of 16,385 and 16,384, a byte too many, reserved bits, and an extension bit of 1.
#[test]
fn faults(rt: HostRuntime) {
    let mut kind = <FramePackings as Kind>::empty();
    let zero = [0, NONE, NONE, NONE];
    offers(
        &rt,
        &mut kind,
        &[
            (&[], (6, 0), [NONE; 4]),
            (&[0x80], (6, 2), [NONE; 4]),
            (
                &[0x82, 0x81, 0x00, 0x00, 0x00, 0x08, 0x00, 0x48],
                (7, 30),
                [NONE; 4],
            ),
            (
                &[0x82, 0x81, 0x00, 0x00, 0x00, 0x08, 0x00, 0x28],
                (0, 0),
                zero,
            ),
            (&[0x82, 0x81, 0x00, 0x02, 0x80], (9, 32), zero),
            (&[0x82, 0x81, 0x00, 0x01, 0x60, 0xFF], (0, 0), zero),
            (&[0x82, 0x81, 0x02, 0x01, 0x20], (0, 0), zero),
        ],
    );
    let mut buffer = [9; 6];
    assert_eq!(rt; number(kind.payload(0, &mut buffer)), 0);
    assert_eq!(rt;
        buffer,
        [0x82, 0x81, 0x00, 0x01, 0x20, 9],
        "reserved bits are written as 0"
    );
}

// The greatest four: 17 bytes three times and 18 bytes once, each framed by two more, make 77.
#[test]
fn greatest(rt: HostRuntime) {
    let mut kind = <FramePackings as Kind>::empty();
    let high = [
        0, 0, 0, 3, 0xFF, 0xFF, 0xFF, 0xF8, 0x18, 0x10, 0x3C, 0x48, 0xC0, 0, 0, 0x80, 2,
    ];
    let mut next = high;
    next[7] = 0xF0;
    let mut third = high;
    third[7] = 0xE8;
    let highest = [
        0, 0, 0, 1, 0, 0, 0, 0, 6, 4, 0x0F, 0x12, 0x30, 0, 0, 0x20, 0, 0xA0,
    ];
    let last = 2_147_483_647;
    offers(
        &rt,
        &mut kind,
        &[
            (&highest, (0, 0), [last, NONE, NONE, NONE]),
            (&high, (0, 0), [last - 1, last, NONE, NONE]),
            (&next, (0, 0), [last - 2, last - 1, last, NONE]),
            (&third, (0, 0), [last - 3, last - 2, last - 1, last]),
        ],
    );
    assert_eq!(rt; kind.payload_len(2), Some(17));
    assert_eq!(rt; kind.payload_len(3), Some(18));
    assert_eq!(rt; <FramePackings as Kind>::GREATEST, 77);
    assert_eq!(rt; <FramePackings as Kind>::TYPE, 45);
}

#[test]
fn clips(rt: HostRuntime) -> Result<(), Fail> {
    let heap = rt.alloc();
    let table: [(&[u8], &str); 4] = [
        (
            &[0x80, 0x41, 0x00, 0x01, 0x20],
            "frame packing: frames interleaved as a checkerboard, frame 0 for the left eye, no frame flipped, quincunx sampling, period 1, id 0",
        ),
        (
            &[0x81, 0x81, 0x00, 0x00, 0x00, 0x01, 0x20],
            "frame packing: frames side by side, frame 0 for the left eye, no frame flipped, grid positions 0, 0 and 0, 0 sixteenths of a sample, period 1, id 0",
        ),
        (
            &[0x82, 0x81, 0x00, 0x02],
            "frame packing: frames one after the other, frame 0 for the left eye, no frame flipped, period 0, id 0",
        ),
        (
            &[0x82, 0x81, 0x10, 0x02],
            "frame packing: frames one after the other, frame 0 for the left eye, no frame flipped, this picture is frame 0, period 0, id 0",
        ),
    ];
    for (payload, words) in table {
        let mut buffer = [0; 7];
        let mut kind = <FramePackings as Kind>::empty();
        assert_eq!(rt; told(&mut kind, payload), (0, 0));
        let Some(thing) = kind.in_force(0) else {
            return Err(Fail::new("it is not in force"));
        };
        let packing = thing.content;
        assert_eq!(rt; format!(in heap; "{packing}")?.as_str(), words);
        assert_eq!(rt; number(kind.payload(0, &mut buffer)), 0);
        assert!(rt; buffer.starts_with(payload), "written as it was read");
        assert_eq!(rt; kind.payload_len(0), Some(payload.len()));
    }
    Ok(())
}

#[test]
fn made(rt: HostRuntime) -> Result<(), Fail> {
    let flags = PackingFlags {
        spatial_flipping: true,
        frame0_flipped: true,
        field_views: true,
        current_frame_is_frame0: false,
        frame0_self_contained: false,
        frame1_self_contained: false,
    };
    let grid = GridPositions::new(0, 8, 8, 0)?;
    let period = Period::new(3)?;
    let arrangement = Arrangement::new(4, false, 2, flags, Some(grid), period)?;
    let message = FramePacking {
        id: PackingId::new(2)?,
        arrangement: Some(arrangement),
    };
    let mut buffer = [0; 7];
    assert!(rt; message.write(&mut buffer).is_ok());
    assert_eq!(rt; buffer, [0x60, 0x80, 0xB8, 0x08, 0x80, 0x00, 0x22]);
    assert!(rt; <FramePacking as Record>::read(&buffer)? == message);
    assert!(rt; GridPositions::new(0, 16, 0, 0).is_err());
    assert!(rt;
        Arrangement::new(4, true, 2, flags, Some(grid), period).is_err(),
        "quincunx"
    );
    assert!(rt;
        Arrangement::new(5, false, 2, flags, Some(grid), period).is_err(),
        "type 5"
    );
    assert!(rt;
        Arrangement::new(4, false, 2, flags, None, period).is_err(),
        "no grid"
    );
    assert!(rt; Arrangement::new(128, true, 2, flags, None, period).is_err());
    assert!(rt; Arrangement::new(4, true, 64, flags, None, period).is_err());
    assert!(rt; PackingId::new(255).is_ok() && PackingId::new(512).is_ok());
    assert!(rt; PackingId::new(256).is_err() && PackingId::new(511).is_err());
    assert!(rt; PackingId::new(2_147_483_647).is_ok() && PackingId::new(2_147_483_648).is_err());
    Ok(())
}
