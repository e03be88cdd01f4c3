// The set of kinds that the player ships, upward by type.
#![tactic(auto)]

ghost use Rattle.std.specs.Prelude.{refl};
ghost use Rattle.book.proofs.Propers.{proper-by};

use content_light_level::ContentLightLevel;
use cubemap::Cubemap;
use display_orientation::DisplayOrientation;
use equirectangular::Equirectangular;
use frame_packings::packings::FramePackings;
use kinds::content::Content;
use kinds::kind::Kind;
use kinds::single::Single;
use regionwise_packing::RegionwisePacking;
use sets::list::{Both, End, Kinds, With};
use sets::set::Set;
use sphere_rotation::SphereRotation;

pub struct Shipped {}

impl Set for Shipped {
    type List = Both<
        With<FramePackings, With<Single<DisplayOrientation>, With<Single<ContentLightLevel>, End>>>,
        Both<
            With<Single<Equirectangular>, With<Single<Cubemap>, End>>,
            With<Single<SphereRotation>, With<Single<RegionwisePacking>, End>>,
        >,
    >;

    ghost proper = { proper-by _ refl };
}

#[cfg(test)]
mod tests {
    use super::*;
    use book::fault::Refusal;
    use kinds::fault::Offered;
    use layouts::fault::Fault;
    use records::record::Record;
    use std::process::Abort;
    use std::test::Fail;
    use units::source::Clean;
    use visit::visit::Visit;

    // The tests go over any set, and are run over the shipped one, which each names once: so the prover looks into it
    // once.
    #[test]
    fn cubemap(rt: HostRuntime) -> Result<(), Fail> {
        cubemap_of::<Shipped>(&rt)
    }

    #[test]
    fn light_level_and_orientation(rt: HostRuntime) -> Result<(), Fail> {
        light_level_and_orientation_of::<Shipped>(&rt)
    }

    #[test]
    fn outside_and_short(rt: HostRuntime) -> Result<(), Fail> {
        outside_and_short_of::<Shipped>(&rt)
    }

    #[test]
    fn cues(rt: HostRuntime) -> Result<(), Fail> {
        cues_of::<Shipped>(&rt)
    }

    // What a message answers: the number and the place of its refusal, or 0 where it is granted and 255 where it is passed;
    // numbers, as the tables of the documents have them.
    fn told<S: Set>(visit: &mut Visit<S>, kind: u32, payload: &[u8]) -> (u8, usize) {
        match visit.message(kind, payload) {
            Ok(Offered::Granted) => (0, 0),
            Ok(Offered::Passed) => (255, 0),
            Err(refusal) => (refusal.number(), refusal.place()),
        }
    }

    // The number of a refusal, or 0 where there is none; a number, as the tables of the documents have them.
    fn number(answer: Result<usize, Refusal>) -> u8 {
        match answer {
            Ok(_) => 0,
            Err(refusal) => refusal.number(),
        }
    }

    fn cubemap_of<S: Set>(rt: &impl Abort) -> Result<(), Fail> {
        let mut visit: Visit<S> = Visit::new();
        let mut buffer = [0; 1];
        assert_eq!(rt; told(&mut visit, 151, &[0x60]), (1, 0));
        visit.picture(false);
        assert_eq!(rt; told(&mut visit, 151, &[0x60]), (0, 0), "60 is granted");
        visit.picture(false);
        assert_eq!(rt; number(visit.look(151, 0, &mut buffer)), 0, "and stays");
        assert_eq!(rt; buffer, [0x60]);
        assert_eq!(rt; told(&mut visit, 151, &[0x20]), (0, 0), "20 is granted");
        visit.picture(false);
        assert_eq!(rt; number(visit.look(151, 0, &mut buffer)), 12, "and is once");
        assert_eq!(rt; told(&mut visit, 151, &[0x60]), (0, 0));
        assert_eq!(rt; told(&mut visit, 151, &[0xC0]), (0, 0), "C0 is granted");
        assert_eq!(rt; number(visit.look(151, 0, &mut buffer)), 12, "and cancels");
        assert_eq!(rt; told(&mut visit, 151, &[]), (6, 0), "no bytes");
        assert_eq!(rt; told(&mut visit, 151, &[0x40]), (9, 2), "40 does not close");
        Ok(())
    }

    fn light_level_and_orientation_of<S: Set>(rt: &impl Abort) -> Result<(), Fail> {
        let mut visit: Visit<S> = Visit::new();
        let mut buffer = [0; 4];
        visit.picture(true);
        assert_eq!(rt; told(&mut visit, 144, &[0x03, 0xE8, 0x00, 0xC8]), (0, 0));
        assert_eq!(rt; told(&mut visit, 144, &[0x03, 0xE8, 0x00, 0xC8]), (0, 0));
        assert_eq!(rt; told(&mut visit, 144, &[0x03, 0xE8, 0x00, 0xC9]), (10, 0));
        assert_eq!(rt; told(&mut visit, 47, &[0x48, 0x00, 0x14]), (0, 0));
        visit.picture(false);
        assert_eq!(rt;
            number(visit.look(47, 0, &mut buffer)),
            12,
            "48 00 14 is once"
        );
        assert_eq!(rt; told(&mut visit, 47, &[0x48, 0x00, 0x09]), (0, 0));
        visit.picture(false);
        assert_eq!(rt; number(visit.look(47, 0, &mut buffer)), 0, "48 00 09 stays");
        assert_eq!(rt; number(visit.look(144, 0, &mut buffer)), 0);
        assert_eq!(rt; buffer, [0x03, 0xE8, 0x00, 0xC8]);
        let Some(orientation) = Option::<DisplayOrientation>::read(&[0x48, 0x00, 0x14])? else {
            return Err(Fail::new("48 00 14 is no cancel"));
        };
        assert_eq!(rt; orientation.rotation, 16384);
        Ok(())
    }

    fn outside_and_short_of<S: Set>(rt: &impl Abort) -> Result<(), Fail> {
        let mut visit: Visit<S> = Visit::new();
        let mut buffer = [7; 3];
        assert_eq!(rt; number(visit.look(144, 0, &mut buffer)), 1);
        visit.picture(false);
        assert_eq!(rt;
            told(&mut visit, 5, &[1, 2, 3]),
            (255, 0),
            "outside the set"
        );
        assert_eq!(rt; number(visit.look(144, 0, &mut buffer)), 12);
        assert_eq!(rt; told(&mut visit, 144, &[0, 1, 0, 1]), (0, 0));
        assert_eq!(rt; number(visit.look(144, 1, &mut buffer)), 12);
        assert_eq!(rt; number(visit.look(144, 0, &mut buffer)), 13);
        assert_eq!(rt; buffer, [7, 7, 7], "the buffer is as it was");
        Ok(())
    }

    // The number of the refusal of a unit of clean bytes, with its place, or 0 and 0; numbers, as the tables of the
    // documents have them.
    fn load<S: Set>(visit: &mut Visit<S>, bytes: &[u8], scratch: &mut [u8]) -> (u8, usize) {
        match visit.unit(&mut Clean::new(bytes), scratch) {
            Ok(_) => (0, 0),
            Err(refusal) => (refusal.number(), refusal.place()),
        }
    }

    fn cues_of<S: Set>(rt: &impl Abort) -> Result<(), Fail> {
        let unit = [0x97, 1, 0x60, 0x80];
        let mut scratch = [0; 16];
        let mut buffer = [0; 4];
        let mut visit: Visit<S> = Visit::new();
        assert_eq!(rt; saved(&visit, &mut buffer), (1, 0), "before a picture");
        visit.picture(false);
        assert_eq!(rt; saved(&visit, &mut []), (0, 0), "nothing needs no buffer");
        assert_eq!(rt; load(&mut visit, &unit, &mut scratch), (0, 0));
        assert_eq!(rt; saved(&visit, &mut buffer), (4, 1));
        assert_eq!(rt; buffer, unit);
        assert_eq!(rt; saved(&visit, &mut [7; 3]), (13, 0), "no room");
        // a new visit from what was saved saves the same
        let Ok(other) = Visit::<S>::resume(&unit, true, &mut scratch) else {
            return Err(Fail::new("what was saved is granted"));
        };
        let mut again = [0; 4];
        assert_eq!(rt; saved(&other, &mut again), (4, 1));
        assert_eq!(rt; again, unit);
        let Err(refusal) = Visit::<S>::resume(&[0x97, 1, 0x40, 0x80], true, &mut scratch) else {
            return Err(Fail::new("a refused message refuses the visit"));
        };
        assert_eq!(rt; refusal.number(), 9);
        Ok(())
    }

    // The length and the messages of a catch-up, or the number of its refusal and 0; numbers, as the tables of the documents
    // have them.
    fn saved<S: Set>(visit: &Visit<S>, buffer: &mut [u8]) -> (usize, usize) {
        match visit.catch_up(buffer) {
            Ok(told) => (told.len, told.messages),
            Err(refusal) => (usize::from(refusal.number()), 0),
        }
    }
}
