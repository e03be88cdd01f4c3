// What is in force, in words: a line for each thing.
use crate::session::front;
use frame_packing::message::FramePacking;
use frame_packings::packing::Packing;
use kinds::content::Content;
use kinds::kind::Kind;
use records::record::Record;
use sets::set::Set;
use std::fmt::Display;
use std::io;
use visit::visit::Visit;

// Shows every thing in force, upward by type.
pub fn show<S: Set>(rt: &HostRuntime, visit: &Visit<S>) -> io::Result<()> {
    println!(rt; "show:")?;
    let packings = show_packings(rt, visit)?;
    let orientation = show_content::<display_orientation::DisplayOrientation, S>(rt, visit)?;
    let level = show_content::<content_light_level::ContentLightLevel, S>(rt, visit)?;
    let equirectangular = show_content::<equirectangular::Equirectangular, S>(rt, visit)?;
    let cubemap = show_content::<cubemap::Cubemap, S>(rt, visit)?;
    let rotation = show_content::<sphere_rotation::SphereRotation, S>(rt, visit)?;
    let regions = show_content::<regionwise_packing::RegionwisePacking, S>(rt, visit)?;
    if packings || orientation || level || equirectangular || cubemap || rotation || regions {
        return Ok(());
    }
    println!(rt; "  nothing is in force")
}

// Shows the thing of a kind that holds one, as a look hands it out; false where nothing of it is in force.
fn show_content<C: Content + Display, S: Set>(
    rt: &HostRuntime,
    visit: &Visit<S>,
) -> io::Result<bool> {
    let mut buffer = [0u8; 1_006];
    let kind = C::TYPE;
    let Ok(len) = visit.look(kind, 0, &mut buffer) else {
        return Ok(false);
    };
    let Ok(Some(content)) = C::read(front(&buffer, len)) else {
        return Ok(false);
    };
    let stay = content.stay();
    println!(rt; "  {kind} {content}; {stay}")?;
    Ok(true)
}

// Shows the frame packings in force, upward by id; false where there are none.
fn show_packings<S: Set>(rt: &HostRuntime, visit: &Visit<S>) -> io::Result<bool> {
    let kind = <frame_packings::packings::FramePackings as Kind>::TYPE;
    // a look asks for a payload by its number
    for n in 0..4 {
        let mut buffer = [0u8; 18];
        let Ok(len) = visit.look(kind, n, &mut buffer) else {
            return Ok(n > 0);
        };
        if let Ok(message) = <FramePacking as Record>::read(front(&buffer, len)) {
            show_packing(rt, kind, message)?;
        }
    }
    Ok(true)
}

fn show_packing(rt: &HostRuntime, kind: u32, message: FramePacking) -> io::Result<()> {
    let Some(arrangement) = message.arrangement else {
        return Ok(());
    };
    let packing = Packing {
        id: message.id,
        arrangement,
    };
    let stay = packing.stay();
    println!(rt; "  {kind} {packing}; {stay}")
}
