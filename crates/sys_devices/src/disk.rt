//! The tree of files.
ghost use Rattle.outside.specs.Silent.{silent_tree};

use crate::faults::Faults;
use crate::line_ends::LineEnds;
use crate::passed::Passed;
use outside::{Failed, Name, TimeChange, Tree};
use std::alloc::{AllocError, Global};
use std::fs::File;
use std::io;
use std::io::ErrorKind;
use std::rt::{Files, Stdout};
use sys_files::{Kind, OpenFiles, Path, Syncs, Trouble};

/// What stands at a name at which no file can be put.
const NO_FILE: &str = "not a regular file";

/// What the words of a run say of its tree.
#[derive(Drop)]
pub struct TreeWords {
    /// Whose it is.
    pub kind: Kind,
    /// Whether each file that is read has a patch text.
    pub is_text: bool,
    /// The directory that the run works in, where the operator gives one.
    pub root: Option<String>,
    /// The file of its patch text, where that is one.
    pub patch: Option<Name>,
    /// The output and the reject file, where the words name them.
    pub output: Option<Name>,
    pub rejects: Option<Name>,
    /// Whether the output is standard output.
    pub is_standard: bool,
    /// Whether a file that is a link is the one behind it.
    pub follows: bool,
    /// Whether files and directories are synced.
    pub syncs: Syncs,
    /// Whether it is that of a filter, which reads all its files as texts.
    pub is_filter: bool,
}

/// The files, and the count of their faults. It tells no content.
#[derive(Drop)]
pub struct Disk<'r, R: Files<File = File>> {
    files: OpenFiles<'r, R>,
    faults: Faults,
    seen: ReadNotes,
}

/// What is kept of the files that are read, for the lines behind a run.
#[derive(Drop)]
struct ReadNotes {
    places: TreeWords,
    passed: Passed,
    ends: LineEnds,
    /// The names of the patch texts of a stack's commands before this one.
    before: String,
}

impl<'r, R: Files<File = File>> Disk<'r, R> {
    /// The tree of a stack of patches has saves, whose rights have rules of their own. Where the operator gives the directory
    /// that a run works in, nothing begins unless it is there, nor where a directory stands in place of a file that the words name.
    /// All the memory that its calls want is taken here.
    pub fn new(
        alloc: Global,
        rt: &'r R,
        places: TreeWords,
        temporary: &str,
        standard: Stdout,
    ) -> Result<Disk<'r, R>, AllocError> {
        let (kind, syncs, follows) = (places.kind, places.syncs, places.follows);
        let files = match OpenFiles::new(alloc, rt, kind, syncs, follows, temporary, standard) {
            Ok(files) => files,
            Err(error) => return Err(error),
        };
        Ok(Disk {
            files,
            faults: Faults::new(alloc),
            seen: ReadNotes {
                places,
                passed: Passed::new(alloc, kind.is_stack()),
                ends: LineEnds::new(alloc),
                before: String::new(alloc),
            },
        })
    }

    /// Takes away the temporaries that a run left which a fault of another file broke off, and the last directories that are empty.
    /// Nothing is called behind it.
    pub fn end(&mut self) {
        self.files.end_run();
    }

    /// What failed last.
    pub fn trouble(&self) -> Option<&Trouble> {
        self.faults.trouble.as_ref()
    }

    /// The name of the last file that was looked for and isn't there, and why, as `d/n: not found`.
    pub fn missing(&self, alloc: Global) -> Result<Option<String>, AllocError> {
        self.files.missing(alloc)
    }

    /// The first name that was taken already when a temporary was to be made, or nothing.
    pub fn taken(&self) -> &str {
        self.files.taken()
    }

    /// The lines on files that keep their own times.
    pub fn undated(&self) -> &str {
        self.files.undated()
    }

    /// What is kept of the patch text that was read last.
    pub fn passed(&self) -> &Passed {
        &self.seen.passed
    }

    /// The names of the files of the patch texts that the commands of a stack before the last one took, each with a line feed behind it.
    pub fn taken_before(&self) -> &str {
        self.seen.before.as_str()
    }

    /// How the lines of the files end that were read to be patched.
    pub fn ends(&self) -> &LineEnds {
        &self.seen.ends
    }

    /// A file of up to so many bytes, where it is there. No fault is counted, so it is asked behind a run.
    pub fn text(&mut self, alloc: Global, name: &Name, most: u32) -> Option<Vec<u8>> {
        let path = Path::of(name);
        let size = match self.files.size(path) {
            Ok(Some(size)) if size <= u64::from(most) => size as usize,
            _ => return None,
        };
        let mut text = match vec![in alloc; 0u8; size] {
            Ok(text) => text,
            Err(_) => return None,
        };
        match self.files.read_at(path, 0, &mut text) {
            Ok(count) => {
                text.truncate(count);
                Some(text)
            }
            Err(_) => None,
        }
    }
}

/// A command of a stack begins, behind another one it may be. Other runs have one command.
fn begin_command<R: Files<File = File>>(files: &mut OpenFiles<'_, R>, seen: &mut ReadNotes) {
    if seen.places.kind.is_stack() {
        files.begin_run();
        seen.begin();
    }
}

impl ReadNotes {
    /// Keeps the name of the text that the command before took, and forgets the rest of it.
    fn begin(&mut self) {
        let name = self.passed.file();
        if !name.is_empty() {
            let _ = self.before.push_str(name);
            let _ = self.before.push('\n');
        }
        self.passed.forget();
        self.ends.forget();
    }

    /// Keeps which file has the patch text.
    fn note_file(&mut self, name: &str) {
        if is_patch(&self.places, name) {
            self.passed.name(name);
        }
    }

    /// Looks at what was read, where that is the front of a file: lets a patch text go by, which is read at once, or notes how the
    /// first line ends of a file that may be patched, which has no patch text and keeps nothing of a stack.
    fn see(&mut self, name: &str, at: u64, read: &io::Result<usize>, buf: &[u8]) {
        let (0, Ok(count)) = (at, read) else {
            return;
        };
        let front = buf.get(..*count).unwrap_or(&[]);
        if is_patch(&self.places, name) {
            self.passed.whole(front);
            return;
        }
        if self.places.kind.is_stack()
            && (name.starts_with("patches/") || name.starts_with(".pc/"))
        {
            return;
        }
        self.ends.note(name, front);
    }
}

/// Whether the file has a patch text of which something is said behind the run.
fn is_patch(places: &TreeWords, name: &str) -> bool {
    match &places.patch {
        Some(patch) => patch.text() == name,
        None if places.is_text => true,
        None => {
            places.kind.is_stack() && name.starts_with("patches/") && name != "patches/series"
        }
    }
}

/// Whether the file has a text that may come from a pipe or a device. What a filter writes parts of is none, since they stand beside it.
fn is_text(places: &TreeWords, name: &str) -> bool {
    match &places.patch {
        Some(patch) => patch.text() == name,
        None => places.is_filter,
    }
}

/// The size of a file, or of a text that may come from a pipe or a device.
fn size_at<R: Files<File = File>>(
    files: &mut OpenFiles<'_, R>,
    places: &TreeWords,
    path: Path<'_>,
) -> io::Result<Option<u64>> {
    if is_text(places, path.text) {
        files.size_of_text(path)
    } else {
        files.size(path)
    }
}

/// Whether a run can begin, and the name that is meant: its directory is there, and what stands at the names of its outputs is known.
fn begun<'a, R: Files<File = File>>(
    files: &mut OpenFiles<'_, R>,
    places: &'a TreeWords,
) -> (&'a str, io::Result<()>) {
    if let Some(root) = &places.root {
        if let Err(error) = files.find_root(&places.root) {
            return (root.as_str(), Err(error));
        }
    }
    let output = found_output(files, &places.output, places.is_standard);
    if output.1.is_err() {
        return output;
    }
    let free = found_free(files, &places.output);
    if free.1.is_err() {
        return free;
    }
    let rejects = found_rejects(files, &places.rejects);
    if rejects.1.is_err() {
        return rejects;
    }
    found_free(files, &places.rejects)
}

/// Whether a file can be put at the name, as far as the system tells.
fn found_free<'a, R: Files<File = File>>(
    files: &mut OpenFiles<'_, R>,
    name: &'a Option<Name>,
) -> (&'a str, io::Result<()>) {
    match name {
        Some(name) => match files.is_barred(Path::of(name), false) {
            Ok(true) => (
                name.text(),
                Err(io::Error::new(ErrorKind::AlreadyExists, NO_FILE)),
            ),
            _ => (name.text(), Ok(())),
        },
        None => (".", Ok(())),
    }
}

fn found_output<'a, R: Files<File = File>>(
    files: &mut OpenFiles<'_, R>,
    name: &'a Option<Name>,
    is_standard: bool,
) -> (&'a str, io::Result<()>) {
    match name {
        Some(name) => (name.text(), files.find_output(Path::of(name), is_standard)),
        None => (".", Ok(())),
    }
}

fn found_rejects<'a, R: Files<File = File>>(
    files: &mut OpenFiles<'_, R>,
    name: &'a Option<Name>,
) -> (&'a str, io::Result<()>) {
    match name {
        Some(name) => (name.text(), files.find_rejects(Path::of(name))),
        None => (".", Ok(())),
    }
}

impl<'r, R: Files<File = File>> Tree for Disk<'r, R> {
    ghost use Rattle.std.proofs.lemmas.Option.{none-some};

    ghost view = { λ d. silent_tree d.faults.count };

    ghost told_may_stay = { λ d f is. absurd (none-some f is) };

    /// That the tree is settled when a run begins is a premise over real files: all that is looked for is its directory, and what
    /// stands at the names that the words give.
    fn settle(&mut self) -> Result<(), Failed> {
        begin_command(&mut self.files, &mut self.seen);
        let (name, done) = begun(&mut self.files, &self.seen.places);
        self.faults.answer(name, done)
    }

    fn size(&mut self, name: &Name) -> Result<Option<u64>, Failed> {
        let path = Path::of(name);
        let done = size_at(&mut self.files, &self.seen.places, path);
        self.seen.note_file(path.text);
        self.faults.answer(path.text, done)
    }

    fn is_barred(&mut self, name: &Name, link: bool) -> Result<bool, Failed> {
        let done = self.files.is_barred(Path::of(name), link);
        self.faults.answer(name.text(), done)
    }

    fn is_read_only(&mut self, name: &Name) -> Result<bool, Failed> {
        let done = self.files.is_read_only(Path::of(name));
        self.faults.answer(name.text(), done)
    }

    fn read_at(&mut self, name: &Name, at: u64, buf: &mut [u8]) -> Result<usize, Failed> {
        let path = Path::of(name);
        let done = self.files.read_at(path, at, buf);
        self.seen.see(path.text, at, &done, buf);
        self.faults.answer(path.text, done)
    }

    fn has_dir(&mut self, name: &Name, parts: u64) -> Result<bool, Failed> {
        let done = self.files.has_dir(Path::of(name), parts);
        self.faults.answer(name.text(), done)
    }

    fn last_number(&mut self, name: &Name) -> Result<u64, Failed> {
        let done = self.files.last_number(Path::of(name));
        self.faults.answer(name.text(), done)
    }

    fn start(&mut self, temp: &Name) -> Result<(), Failed> {
        let done = self.files.start(Path::of(temp));
        let blamed = self.files.blamed_in_start(Path::of(temp), done.is_err());
        self.faults.answer(blamed, done)
    }

    fn append(&mut self, temp: &Name, piece: &[u8]) -> Result<(), Failed> {
        let done = self.files.append(Path::of(temp), piece);
        self.faults.answer(temp.text(), done)
    }

    fn set_executable(&mut self, temp: &Name, executable: bool) -> Result<(), Failed> {
        let done = self.files.set_executable(Path::of(temp), executable);
        self.faults.answer(temp.text(), done)
    }

    fn set_link(&mut self, temp: &Name) -> Result<(), Failed> {
        let done = self.files.set_link(Path::of(temp));
        self.faults.answer(temp.text(), done)
    }

    fn set_time(&mut self, temp: &Name, to: &Name, change: TimeChange) -> Result<(), Failed> {
        let done = self.files.set_time(Path::of(temp), Path::of(to), change);
        self.faults.answer(to.text(), done)
    }

    fn seal(&mut self, temp: &Name) -> Result<(), Failed> {
        let done = self.files.seal(Path::of(temp));
        self.faults.answer(temp.text(), done)
    }

    fn swap(&mut self, temp: &Name, to: &Name) -> Result<(), Failed> {
        let done = self.files.swap(Path::of(temp), Path::of(to));
        let blamed = self.files.blamed(Path::of(to), done.is_err()).text;
        let told = self.faults.answer(blamed, done);
        self.files.give_up(Path::of(temp), told.is_err());
        told
    }

    fn drop_name(&mut self, name: &Name) -> Result<(), Failed> {
        let done = self.files.remove(Path::of(name));
        self.faults.answer(name.text(), done)
    }

    fn fix_names(&mut self) -> Result<(), Failed> {
        let done = self.files.sync_directories();
        self.faults.answer(self.files.unsynced(), done)
    }
}
