// The deep cases of the layer, the scratch and the frame.
use crate::fill::fill;
use crate::frame::Messages;
use crate::source::{Clean, Source, SourceFault};
use crate::unescaped::Unescaped;
use crate::writer::{framed_len, put_last, put_message};
use std::alloc::{AllocError, Global};
use std::test::Fail;

// The answer of a fill through the layer, what the scratch holds, and what the layer answers then.
fn filled(heap: Global, below: &[u8], room: usize) -> Result<String, AllocError> {
    let mut scratch = [9; 5];
    let mut source = Unescaped::new(Clean::new(below));
    let room = room.min(5);
    let answer = fill(&mut source, &mut scratch[0..room]);
    let next = told(heap, source.next())?;
    format!(in heap; "{answer:?} {scratch:?} {next}")
}

// What a source answers.
fn told(heap: Global, next: Result<Option<u8>, SourceFault>) -> Result<String, AllocError> {
    match next {
        Ok(Some(byte)) => format!(in heap; "Byte({byte})"),
        Ok(None) => format!(in heap; "End"),
        Err(_) => format!(in heap; "Fault"),
    }
}

// The messages of a unit, or why it is refused.
fn read(heap: Global, unit: &[u8]) -> Result<String, AllocError> {
    let mut text = String::new(heap);
    match Messages::new(unit) {
        Ok(messages) => {
            for m in messages {
                text = format!(in heap; "{text}{} at {} {:?};", m.kind, m.place, m.payload)?;
            }
            Ok(text)
        }
        Err(fault) => format!(in heap; "{fault:?}"),
    }
}

#[test]
fn deep_cases(rt: HostRuntime) -> Result<(), Fail> {
    let heap = rt.alloc();
    let table: [(&[u8], usize, &str); 7] = [
        (&[0, 0, 3], 5, "Ok(2) [0, 0, 9, 9, 9] End"),
        (&[0, 0, 3, 3], 5, "Ok(3) [0, 0, 3, 9, 9] End"),
        (&[0, 0, 3, 0, 0, 3, 1], 5, "Ok(5) [0, 0, 0, 0, 1] End"),
        (
            &[0, 0, 0],
            5,
            "Err(Source { taken: 2 }) [0, 0, 9, 9, 9] Fault",
        ),
        (
            &[0, 0, 3, 4],
            2,
            "Err(Source { taken: 2 }) [0, 0, 9, 9, 9] Fault",
        ),
        (
            &[1, 2, 3, 4],
            2,
            "Err(Room { taken: 2 }) [1, 2, 9, 9, 9] Byte(4)",
        ),
        (&[], 0, "Ok(0) [9, 9, 9, 9, 9] End"),
    ];
    for (below, room, want) in table {
        assert_eq!(rt; filled(heap, below, room)?.as_str(), want);
    }
    let table: [(&[u8], &str); 6] = [
        (&[], ""),
        (&[0x80], "Frame { at: 0 }"),
        (&[0x90, 1, 2], "Frame { at: 2 }"),
        (&[1, 0, 0x90, 1, 0x80], "Frame { at: 2 }"),
        (&[1, 0, 0x90, 1, 5, 0x80], "1 at 0 [];144 at 2 [5];"),
        (&[0x80, 0, 0x80], "128 at 0 [];"),
    ];
    for (unit, want) in table {
        assert_eq!(rt; read(heap, unit)?.as_str(), want);
    }
    let mut unit = [0xFF; 261];
    unit[257] = 0;
    unit[258] = 0;
    unit[259] = 0x80;
    assert_eq!(rt; read(heap, &unit[0..260])?.as_str(), "65535 at 0 [];");
    unit[257] = 0xFF;
    unit[259] = 0;
    unit[260] = 0x80;
    assert_eq!(rt; read(heap, &unit[0..261])?.as_str(), "Frame { at: 0 }");
    Ok(())
}

#[test]
fn there_and_back(rt: HostRuntime) -> Result<(), Fail> {
    let heap = rt.alloc();
    let mut source = Unescaped::new(Clean::new(&[0x90, 4, 0, 0, 3, 1, 0, 0x80]));
    let mut scratch = [0; 7];
    let taken = fill(&mut source, &mut scratch)?;
    assert!(rt; taken == 7);
    assert_eq!(rt; read(heap, &scratch)?.as_str(), "144 at 0 [0, 0, 1, 0];");
    let mut buffer = [0; 7];
    assert_eq!(rt; framed_len(144, 4), Some(6));
    let end = put_message(144, &[0, 0, 1, 0], &mut buffer, 0).ok_or("no room")?;
    assert_eq!(rt; put_last(&mut buffer, end), Some(7));
    assert_eq!(rt; buffer, scratch);
    Ok(())
}
