// Payloads at the edges of what is taken, and packings that are written and read again.
use crate::RegionwisePacking;
use crate::guard_band::GuardBand;
use crate::region::Region;
use crate::shapes::{Rectangle, Sides, Size};
use kinds::content::Content;
use layouts::fault::{Fault, FieldFault};
use records::record::Record;
use std::test::Fail;

// One region that fills a packed picture of 8 by 4 samples.
const ONE: [u8; 39] = [
    0x40, 0x01, 0, 0, 0, 16, 0, 0, 0, 8, 0, 8, 0, 4, 0x00, 0, 0, 0, 16, 0, 0, 0, 8, 0, 0, 0, 0, 0,
    0, 0, 0, 0, 8, 0, 4, 0, 0, 0, 0,
];

// The first bits of the fields of three regions, the first and the last with a guard band.
const STARTS: [usize; 62] = [
    0, 1, 2, 3, 8, 16, 48, 80, 96, 112, 116, 119, 120, 152, 184, 216, 248, 264, 280, 296, 312, 320,
    328, 336, 344, 345, 348, 351, 354, 357, 360, 364, 367, 368, 400, 432, 464, 496, 512, 528, 544,
    560, 564, 567, 568, 600, 632, 664, 696, 712, 728, 744, 760, 768, 776, 784, 792, 793, 796, 799,
    802, 805,
];

// The number and the place of a payload's refusal, as they are told, or 0 and 0 where it is taken: numbers, as the tables of the documents have them.
fn told(payload: &[u8]) -> (u8, usize) {
    match Option::<RegionwisePacking>::read(payload) {
        Ok(_) => (0, 0),
        Err(fault) => (fault.number(), fault.place()),
    }
}

// What is told of that region with one byte changed, as numbers too.
fn told_with(index: usize, value: u8) -> (u8, usize) {
    let mut payload = ONE;
    if let Some(byte) = payload.get_mut(index) {
        *byte = value;
    }
    told(&payload)
}

// The field that is cut where a payload of three regions ends at a bit.
fn cut(end: usize) -> usize {
    STARTS
        .iter()
        .rev()
        .copied()
        .find(|start| *start <= end)
        .unwrap_or(0)
}

fn guarded() -> Result<Region, FieldFault> {
    let widths = Sides {
        left: 0,
        right: 2,
        top: 0,
        bottom: 255,
    };
    let types = Sides {
        left: 0,
        right: 1,
        top: 2,
        bottom: 7,
    };
    let band = GuardBand::new(widths, true, types)?;
    region(5, Some(band))
}

fn region(transform: u8, guard: Option<GuardBand>) -> Result<Region, FieldFault> {
    let projected = Rectangle {
        width: 640,
        height: 320,
        top: 70_000,
        left: 4_294_967_295,
    };
    let packed = Rectangle {
        width: 64,
        height: 32,
        top: 1,
        left: 2,
    };
    Region::new(transform, projected, packed, guard)
}

fn packing(regions: &[Region]) -> Result<RegionwisePacking, FieldFault> {
    let projected = Size {
        width: 4_096,
        height: 2_048,
    };
    let packed = Size {
        width: 66,
        height: 33,
    };
    RegionwisePacking::new(true, false, projected, packed, regions)
}

#[test]
fn regions_at_the_edge(rt: HostRuntime) {
    assert_eq!(rt; told(&ONE), (0, 0), "it fills the picture");
    assert_eq!(rt; told_with(38, 1), (8, 112), "a column outside");
    assert_eq!(rt; told_with(36, 1), (8, 112), "a row outside");
    assert_eq!(rt; told_with(11, 7), (8, 112), "a picture less wide");
    assert_eq!(rt; told_with(37, 0xFF), (8, 112), "far outside");
    assert_eq!(rt; told_with(32, 0), (7, 112), "no width");
    assert_eq!(rt; told_with(34, 0), (7, 112), "no height");
    assert_eq!(rt; told_with(18, 0), (7, 112), "no projected width");
    assert_eq!(rt; told_with(22, 0), (7, 112), "no projected height");
    assert_eq!(rt; told_with(14, 0xF0), (0, 0), "reserved bits are ignored");
    let mut narrow = ONE;
    narrow[32] = 7;
    narrow[38] = 1;
    assert_eq!(rt; told(&narrow), (0, 0), "its last column is the picture's");
    narrow[38] = 2;
    assert_eq!(rt; told(&narrow), (8, 112));
}

#[test]
fn counts_and_sizes(rt: HostRuntime) {
    assert_eq!(rt; told(&[0x40, 0]), (7, 8), "no regions");
    assert_eq!(rt; told(&[0x40, 33]), (8, 8), "33 regions");
    assert_eq!(rt; told(&[0x40, 32]), (6, 16), "32 regions, and no sizes");
    assert_eq!(rt; told_with(1, 0), (7, 8));
    assert_eq!(rt; told_with(1, 33), (8, 8));
    assert_eq!(rt; told_with(1, 2), (6, 312), "the second region is missing");
    assert_eq!(rt; told_with(5, 0), (7, 16), "no projected width");
    assert_eq!(rt; told_with(9, 0), (7, 48), "no projected height");
    assert_eq!(rt; told_with(11, 0), (7, 80), "no packed width");
    assert_eq!(rt; told_with(13, 0), (7, 96), "no packed height");
}

#[test]
fn cancel(rt: HostRuntime) -> Result<(), Fail> {
    let mut buffer = [7; 2];
    assert_eq!(rt; told(&[0xC0]), (0, 0));
    assert_eq!(rt; told(&[0x80]), (9, 1), "it does not close");
    assert_eq!(rt; told(&[0xC0, 0x80]), (9, 1));
    assert!(rt;
        Option::<RegionwisePacking>::read(&[0xC0])?.is_none(),
        "C0 cancels"
    );
    assert_eq!(rt; None::<RegionwisePacking>.write(&mut buffer)?, 1);
    assert_eq!(rt; buffer, [0xC0, 7]);
    Ok(())
}

#[test]
fn every_truncation(rt: HostRuntime) -> Result<(), Fail> {
    let first = guarded()?;
    let message = Some(packing(&[first, region(0, None)?, first])?);
    let mut buffer = [0; 102];
    assert_eq!(rt; message.write(&mut buffer)?, 101);
    // by number, since the payload is cut at every length, and there is nothing but lengths to go over
    for len in 0..101 {
        let bits = len * 8;
        assert_eq!(rt; told(&buffer[0..len]), (6, cut(bits)), "{}", len);
    }
    assert_eq!(rt; told(&buffer[0..101]), (0, 0));
    assert_eq!(rt; told(&buffer), (9, 808), "a byte too many");
    Ok(())
}

#[test]
fn written_and_read(rt: HostRuntime) -> Result<(), Fail> {
    let first = guarded()?;
    let second = region(0, None)?;
    let message = Some(packing(&[first, second])?);
    let mut buffer = [0; 70];
    let mut again = [0; 70];
    assert_eq!(rt; message.write(&mut buffer)?, 70);
    assert_eq!(rt;
        buffer[43],
        0x82,
        "not used, and types 0, 1 and the start of 2"
    );
    assert_eq!(rt; buffer[44], 0xB8, "the rest of 2, 7 and reserved bits of 0");
    let Some(read) = Option::<RegionwisePacking>::read(&buffer)? else {
        return Err(Fail::new("it is no cancel"));
    };
    assert_eq!(rt; read.persistence, true);
    assert_eq!(rt; read.matching, false);
    assert_eq!(rt; read.projected.width, 4_096);
    assert_eq!(rt; read.projected.height, 2_048);
    assert_eq!(rt; read.packed.width, 66);
    assert_eq!(rt; read.packed.height, 33);
    assert_eq!(rt; read.regions.len(), 2);
    assert_eq!(rt;
        read.regions.get(0),
        Some(first),
        "guard widths of 0 are taken"
    );
    assert_eq!(rt; read.regions.get(1), Some(second));
    assert_eq!(rt; read.regions.get(2), None);
    assert_eq!(rt; read.write(&mut again)?, 70);
    assert_eq!(rt; again, buffer);
    Ok(())
}

#[test]
fn the_most(rt: HostRuntime) -> Result<(), Fail> {
    let first = guarded()?;
    let most = packing(&[first; 32])?;
    assert_eq!(rt; most.payload_len(), 1_006);
    assert_eq!(rt;
        <RegionwisePacking as Content>::GREATEST,
        1_011,
        "five bytes more, framed"
    );
    let mut buffer = [0; 1_006];
    assert_eq!(rt; most.write(&mut buffer)?, 1_006);
    assert_eq!(rt; told(&buffer), (0, 0));
    let mut short = [0; 1_005];
    assert!(rt; most.write(&mut short).is_err());
    let Err(fault) = packing(&[first; 33]) else {
        return Err(Fail::new("33 regions are too many"));
    };
    assert_eq!(rt; (fault.number(), fault.place()), (8, 0));
    Ok(())
}

#[test]
fn in_words(rt: HostRuntime) -> Result<(), Fail> {
    let text = format!(in rt.alloc(); "{}", packing(&[guarded()?])?)?;
    assert_eq!(rt;
        text.as_str(),
        "region-wise packing: 1 region, packed picture 66 by 33, projected picture 4096 by 2048, constituent picture matching 0, persistence 1"
    );
    Ok(())
}
