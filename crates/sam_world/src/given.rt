//! The files that a world is made with.

ghost use Rattle.std.specs.Prelude.{◌≡◌, ◌≤◌, IfOk, All, length};
ghost use Rattle.sam_runes.specs.Texts.{most_files};
ghost use Rattle.sam_host.specs.Given.{AreNames, given_of};
ghost use Rattle.sam_world.specs.Given.{AreShort, IsFile};
ghost use Rattle.sam_crossing.specs.World.{new_world};

use crate::world::World;
use sam_runes::{Runes, Text, TextFault};
use std::alloc::{AllocError, Global};

/// Makes the first world of files of these names and texts, as `World::new` does. There are at most `MOST_FILES` of them. Each name has 1
/// to `MOST_IN_NAME` runes and each text at most `MAX_RUNES`, as in a script. The only error is out of memory.
#[tactic(auto, using(crate::proofs::GivenLaws::given_many))]
pub fn first_world(alloc: Global, files: &[(Runes, Runes)]) -> Result<World, AllocError>
    requires count { length files.now ≤ most_files }
    requires each { All IsFile files.now }
    ensures { IfOk result (λ world. world ≡ new_world files.now) }
{
    let given = given_files(alloc, files)?;
    match World::new(alloc, given) {
        Ok(world) => Ok(world),
        Err(_) => Err(AllocError),
    }
}

/// Returns copies of files, names and texts, as `Host::new` and `World::new` take them. Each is as [`first_world`] wants it. The only error
/// is out of memory.
pub fn given_files(
    alloc: Global,
    files: &[(Runes, Runes)],
) -> Result<Vec<(Runes, Text)>, AllocError>
    requires each { All IsFile files.now }
    ensures given { IfOk result (λ given. given_of given.items ≡ files.now) }
    ensures names { IfOk result (λ given. AreNames given.items) }
{
    let mut given = Vec::new(alloc);
    for file in files {
        let name = file.0.copy(alloc)?;
        let text = match Text::from_runes(alloc, file.1.as_slice()) {
            Ok(text) => text,
            Err(TextFault::TooLong) => unreachable!(),
            Err(TextFault::OutOfMemory) => return Err(AllocError),
        };
        given.push((name, text))?;
    }
    Ok(given)
}

/// Makes known that each text is within the limit of texts. A text shows this when it is asked for its length, and the first world
/// needs it.
pub(crate) fn texts_are_short(files: &[(Runes, Text)])
    ensures { AreShort files.now }
{
    for file in files {
        let _ = file.1.len();
    }
}
