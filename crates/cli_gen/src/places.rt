//! Where the made files are put.
ghost use Rattle.std.specs.Prelude.{◌≡◌, codes, IfOk};
ghost use Rattle.outside.specs.Files.{temp_of};
ghost use Rattle.patch_gen.specs.Patches.{file_name};
ghost use Rattle.cli_gen.specs.Preparing.{ArePlaces};

use outside::Name;
use std::alloc::{AllocError, Global};

/// The name of a made file, and that of its temporary.
#[derive(Drop)]
pub struct MadeFileNames {
    pub name: Name,
    pub temp: Name,
}

/// The places of so many files, from `gen/f1` on.
pub fn places_of(alloc: Global, count: u32) -> Result<Vec<MadeFileNames>, AllocError>
    ensures { IfOk result (λ places. ArePlaces places.items count) }
{
    let front = front_name(alloc)?;
    let mut places = Vec::with_capacity(alloc, count as usize)?;
    for done in 0..count {
        let place = place_of(alloc, &front, done + 1)?;
        places.push(place)?;
    }
    Ok(places)
}

/// What each name begins with.
fn front_name(alloc: Global) -> Result<Name, AllocError>
    ensures { IfOk result (λ name. name ≡ codes "gen/f") }
{
    match Name::new(alloc, b"gen/f") {
        Ok(name) => Ok(name),
        Err(_) => Err(AllocError),
    }
}

fn place_of(alloc: Global, front: &Name, number: u32) -> Result<MadeFileNames, AllocError>
    requires { front.now ≡ codes "gen/f" }
    ensures name { IfOk result (λ place. place.name ≡ file_name number) }
    ensures temp { IfOk result (λ place. place.temp ≡ temp_of (file_name number)) }
{
    let digits = format!(in alloc; "{number}")?;
    let name = front.followed_by(alloc, digits.as_str())?;
    let temp = name.temporary(alloc)?;
    Ok(MadeFileNames { name, temp })
}
