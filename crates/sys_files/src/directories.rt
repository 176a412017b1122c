//! The way to a name, from directory to directory. Each is opened through the one before it, and what is opened must be what stood
//! there itself, so that no link is followed but in the part of a name that the operator gave.
//!
//! A name in a directory that is held open is reached as `/proc/self/fd/N/name`, wherever the directory is by then. Where there is
//! no `/proc`, or a directory may be searched and not read, the names on the way are looked at again each time.

use crate::found::{Found, Identity, found_at_path, found_behind, found_itself, told};
use crate::held::AllHeld;
use crate::paths::{PERMISSION_DENIED, Path, leads_nowhere, not_a_directory, too_long};
use crate::rights::Rights;
use crate::spots::{LocatedName, WalkedPath, is_too_many, passed, put_front, unsynced};
use crate::text::{LONGEST_PATH, Text};
use std::alloc::{AllocError, Global};
use std::fs::{File, OpenFile};
use std::rt::Files;
use std::{fs, io};

/// How much longer a path can be than the name that it leads to.
const ROOM_IN_FRONT: usize = 64;

/// Whether files and directories are synced.
#[derive(Clone, Copy)]
pub enum Syncs {
    /// Each file before its name is put, and each directory in which a name changed.
    Each,
    /// None, so that a stop of the machine may leave anything.
    None,
}

impl Syncs {
    pub fn are_made(self) -> bool {
        match self {
            Syncs::Each => true,
            Syncs::None => false,
        }
    }
}

#[derive(Drop)]
pub struct Directories {
    pub(crate) held: AllHeld,
    pub(crate) path: Text,
    pub(crate) second: Text,
    /// Whether names are reached through open directories; it is tried at the first one.
    is_through: Option<bool>,
    /// The last way ended at something that is no directory.
    pub(crate) is_cut_off: bool,
    /// A directory that stays open while another one is looked for.
    pub(crate) staying: Option<usize>,
    /// The first name that was taken already when a temporary was to be made.
    taken: Text,
    syncs: Syncs,
    /// Whether a file that is a link is the one behind it.
    pub(crate) follows: bool,
}

impl Directories {
    pub fn new(alloc: Global, syncs: Syncs, follows: bool) -> Result<Directories, AllocError> {
        let held = AllHeld::new(alloc)?;
        let path = Text::new(alloc, LONGEST_PATH + ROOM_IN_FRONT)?;
        let second = Text::new(alloc, LONGEST_PATH + ROOM_IN_FRONT)?;
        let taken = Text::new(alloc, LONGEST_PATH + ROOM_IN_FRONT)?;
        Ok(Directories {
            held,
            path,
            second,
            is_through: None,
            is_cut_off: false,
            staying: None,
            taken,
            syncs,
            follows,
        })
    }

    /// The way to a name, or nothing where it doesn't go through directories alone. Those that are missing are made where
    /// `makes_way`.
    pub fn way<'a, R: Files<File = File>>(
        &mut self,
        rt: &R,
        name: Path<'a>,
        makes_way: bool,
    ) -> io::Result<Option<LocatedName<'a>>> {
        if name.text.len() >= LONGEST_PATH {
            return Err(too_long());
        }
        self.is_cut_off = false;
        let mut spot = self.nearest(name);
        let walked = spot.walked;
        for (slash, _) in name.behind(walked).match_indices('/') {
            match self.step(rt, name, spot, walked.saturating_add(slash), makes_way) {
                Ok(Some(next)) => spot = next,
                Ok(None) => return Ok(None),
                Err(error) => return Err(error),
            }
        }
        Ok(Some(LocatedName {
            spot,
            name,
            other: None,
        }))
    }

    /// The way to a name, or the error where it goes through anything but directories.
    pub fn open_way<'a, R: Files<File = File>>(
        &mut self,
        rt: &R,
        name: Path<'a>,
        makes_way: bool,
    ) -> io::Result<LocatedName<'a>> {
        match self.way(rt, name, makes_way) {
            Ok(Some(place)) => Ok(place),
            Ok(None) => Err(not_a_directory()),
            Err(error) => Err(error),
        }
    }

    /// How far the way is gone already, in directories that are held.
    fn nearest(&mut self, name: Path<'_>) -> WalkedPath {
        if matches!(self.is_through, Some(false)) {
            return WalkedPath::HERE;
        }
        match self.held.nearest(name) {
            Some(place) => self.spot_of(place),
            None => WalkedPath::HERE,
        }
    }

    fn spot_of(&self, place: usize) -> WalkedPath {
        let walked = self.held.length(place);
        let inside = match self.held.get(place) {
            Some(held) => held.inside,
            None => Rights::NONE,
        };
        WalkedPath {
            base: Some(place),
            from: walked,
            walked,
            held: Some(place),
            refusal: PERMISSION_DENIED,
            inside,
        }
    }

    /// Goes into the directory that ends with the slash at this place, which is made where it is missing and `makes_way`.
    fn step<R: Files<File = File>>(
        &mut self,
        rt: &R,
        name: Path<'_>,
        spot: WalkedPath,
        slash: usize,
        makes_way: bool,
    ) -> io::Result<Option<WalkedPath>> {
        let is_given = slash.max(1) <= name.given;
        // (the first slash of an absolute name is the root)
        let end = if slash == 0 { 1 } else { slash };
        let part = name.text.get(spot.from..end).unwrap_or("");
        self.path.clear();
        put_front(&self.held, spot, &mut self.path)?;
        self.path.add(part)?;
        let mut seen = found_at_path(rt, self.path.as_str(), is_given)?;
        if !seen.is_there && makes_way {
            self.will_change_at(rt, spot)?;
            make_directory(rt, self.path.as_str())?;
            seen = found_at_path(rt, self.path.as_str(), is_given)?;
        }
        if seen.is_directory {
            self.enter(rt, name, spot, slash, seen)
        } else {
            self.is_cut_off = seen.is_there;
            Ok(None)
        }
    }

    /// Holds the directory that was seen at the path, where it can be opened.
    fn enter<R: Files<File = File>>(
        &mut self,
        rt: &R,
        name: Path<'_>,
        spot: WalkedPath,
        slash: usize,
        seen: Found,
    ) -> io::Result<Option<WalkedPath>> {
        let walked = slash.saturating_add(1);
        let inside = spot.inside.met(seen.rights.inside());
        let front = Path {
            text: name.text.get(..walked).unwrap_or(name.text),
            given: name.given,
        };
        if let Some(place) = self.held.place_of(front, seen.identity) {
            return Ok(Some(self.entered(rt, place, spot, walked, seen)));
        }
        // Nothing but a directory is opened so.
        self.path.add("/")?;
        let file = match self.open_directory(rt, spot) {
            Ok(file) => file,
            Err(error) => return passed(
                error,
                WalkedPath {
                    walked,
                    held: None,
                    inside,
                    ..spot
                },
            ),
        };
        match told(file.metadata()) {
            Ok(found) if found.identity.is_same(seen.identity) => {}
            Ok(_) => return Ok(None),
            Err(error) => return Err(error),
        }
        let staying = [spot.base, self.staying];
        let place = self.held.hold(front, file, seen.identity, inside, staying)?;
        Ok(Some(self.entered(rt, place, spot, walked, seen)))
    }

    /// The directory is held at this place, so the way goes on from there.
    fn entered<R: Files<File = File>>(
        &mut self,
        rt: &R,
        place: usize,
        spot: WalkedPath,
        walked: usize,
        seen: Found,
    ) -> WalkedPath {
        if self.goes_through(rt, place, seen) {
            return self.spot_of(place);
        }
        WalkedPath {
            walked,
            held: Some(place),
            inside: spot.inside.met(seen.rights.inside()),
            ..spot
        }
    }

    /// Whether a name is reached through the directory that is held at this place, which is this one.
    fn goes_through<R: Files<File = File>>(&mut self, rt: &R, place: usize, seen: Found) -> bool {
        if let Some(known) = self.is_through {
            return known;
        }
        self.second.clear();
        let found = match self.held.add_path(place, &mut self.second) {
            Ok(()) => found_behind(rt, self.second.as_str()),
            Err(error) => Err(error),
        };
        let is_through = matches!(found, Ok(found) if found.identity.is_same(seen.identity));
        self.is_through = Some(is_through);
        is_through
    }

    /// Opens the directory at the path. Where too many files are open, directories are let go that aren't needed now.
    fn open_directory<R: Files<File = File>>(
        &mut self,
        rt: &R,
        spot: WalkedPath,
    ) -> io::Result<File> {
        match File::open(rt, self.path.as_str()) {
            Ok(file) => return Ok(file),
            Err(error) => {
                if !is_too_many(&error) {
                    return Err(error);
                }
            }
        }
        self.held.let_go([spot.base, self.staying]);
        File::open(rt, self.path.as_str())
    }

    /// Has the directory open in which a name is about to change, so that each error of its sync is seen. One that can't be opened
    /// is a fault before the change.
    pub fn will_change<R: Files<File = File>>(
        &mut self,
        rt: &R,
        place: LocatedName<'_>,
    ) -> io::Result<()> {
        self.will_change_at(rt, place.spot)
    }

    fn will_change_at<R: Files<File = File>>(
        &mut self,
        rt: &R,
        spot: WalkedPath,
    ) -> io::Result<()> {
        if !self.syncs.are_made() {
            return Ok(());
        }
        let place = match spot.held {
            Some(place) => place,
            None if spot.walked == 0 => match self.working_directory(rt) {
                Ok(place) => place,
                Err(error) => return Err(unsynced(error)),
            },
            None => return Err(unsynced(io::Error::from_raw_os_error(spot.refusal))),
        };
        self.held.change(place);
        Ok(())
    }

    /// The place of the working directory, which is opened to be synced alone.
    fn working_directory<R: Files<File = File>>(&mut self, rt: &R) -> io::Result<usize> {
        let front = Path { text: "", given: 0 };
        if let Some(place) = self.held.place_of(front, Identity::HERE) {
            return Ok(place);
        }
        let file = match File::open(rt, ".") {
            Ok(file) => file,
            Err(error) => return Err(error),
        };
        self.held.hold(
            front,
            file,
            Identity::HERE,
            Rights::ALL,
            [self.staying, None],
        )
    }

    /// Syncs each directory in which a name was made, moved or taken away.
    pub fn sync(&mut self) -> io::Result<()> {
        self.held.sync()
    }

    /// A directory that isn't synced yet.
    pub fn unsynced(&self) -> &str {
        self.held.first_changed()
    }

    /// The first name that was taken already when a temporary was to be made, or nothing.
    pub fn taken(&self) -> &str {
        self.taken.as_str()
    }

    /// Keeps the name, if it is the first. Of one for which there is no room it keeps nothing.
    pub fn note_taken(&mut self, place: LocatedName<'_>, last: &str) {
        if self.taken.len() == 0 {
            let front = self.taken.set(place.name.directories());
            if front.is_err() || self.taken.add(last).is_err() {
                self.taken.clear();
            }
        }
    }

    /// What the system gave to a new file in the directory before that is executed.
    pub fn usual_rights(&self, place: LocatedName<'_>) -> Option<Rights> {
        match place.spot.held {
            Some(held) => match self.held.get(held) {
                Some(held) => held.usual,
                None => None,
            },
            None => None,
        }
    }

    pub fn know_usual(&mut self, place: LocatedName<'_>, rights: Rights) {
        if let Some(held) = place.spot.held {
            if let Some(held) = self.held.get_mut(held) {
                held.usual = Some(rights);
            }
        }
    }
}

/// Makes a directory where nothing was found behind the path. Where that is a link, the system only says that it exists.
fn make_directory<R: Files>(rt: &R, path: &str) -> io::Result<()> {
    match fs::create_dir(rt, path) {
        Ok(()) => Ok(()),
        Err(error) => match found_itself(rt, path) {
            Ok(found) if found.is_link => Err(leads_nowhere()),
            _ => Err(error),
        },
    }
}
