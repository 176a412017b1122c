//! A file that is another one when it is read again.
ghost use Rattle.std.specs.Prelude.{◌≡◌, ◌≤◌, length, IsErr};
ghost use Rattle.outside.specs.TreeView.{IsCall};
ghost use Rattle.outside.specs.Silent.{silent_tree};

use outside::{Failed, Name, TimeChange, Tree};

/// Whatever name is asked for, a file that gives its first bytes until it is read from its start a second time, and then the others,
/// as many. It can only be read, and tells nothing.
#[derive(Drop)]
pub struct ChangingFile {
    pub first: Vec<u8>,
    pub others: Vec<u8>,
    pub begun: u32,
    pub faults: u64,
}

impl ChangingFile {
    // A call that isn't there fails.
    fn fails(&mut self) -> Result<(), Failed>
        ensures call { IsCall (silent_tree self.old.faults) (silent_tree self.new.faults) result }
        ensures err { IsErr result }
    {
        if self.faults < u64::MAX {
            self.faults += 1;
        }
        Err(Failed)
    }
}

// Copies the bytes from a place on as far as there is room, and answers how many.
fn copy(bytes: &[u8], at: usize, buf: &mut [u8]) -> usize
    ensures count { result ≤ length buf.old }
{
    let from = bytes.len().min(at);
    let rest = &bytes[from..];
    let count = rest.len().min(buf.len());
    buf[..count].copy_from_slice(&rest[..count]);
    count
}

impl Tree for ChangingFile {
    ghost use Rattle.std.proofs.lemmas.Option.{none-some};

    ghost view = { λ s. silent_tree s.faults };

    ghost told_may_stay = { λ s f is. absurd (none-some f is) };

    fn settle(&mut self) -> Result<(), Failed> {
        Ok(())
    }

    fn size(&mut self, _name: &Name) -> Result<Option<u64>, Failed> {
        Ok(Some(self.first.len() as u64))
    }

    fn read_at(&mut self, _name: &Name, at: u64, buf: &mut [u8]) -> Result<usize, Failed> {
        if at == 0 {
            self.begun = self.begun.saturating_add(1);
        }
        let bytes = if self.begun < 2 {
            &self.first
        } else {
            &self.others
        };
        Ok(copy(bytes, at as usize, buf))
    }

    fn is_barred(&mut self, _name: &Name, _link: bool) -> Result<bool, Failed> {
        Ok(false)
    }

    fn is_read_only(&mut self, _name: &Name) -> Result<bool, Failed> {
        Ok(false)
    }

    fn last_number(&mut self, _name: &Name) -> Result<u64, Failed> {
        Ok(0)
    }

    fn has_dir(&mut self, _name: &Name, _parts: u64) -> Result<bool, Failed> {
        Ok(false)
    }

    fn start(&mut self, _temp: &Name) -> Result<(), Failed> {
        self.fails()
    }

    fn append(&mut self, _temp: &Name, _piece: &[u8]) -> Result<(), Failed> {
        self.fails()
    }

    fn set_executable(&mut self, _temp: &Name, _executable: bool) -> Result<(), Failed> {
        self.fails()
    }

    fn set_link(&mut self, _temp: &Name) -> Result<(), Failed> {
        self.fails()
    }

    fn set_time(&mut self, _temp: &Name, _to: &Name, _change: TimeChange) -> Result<(), Failed> {
        self.fails()
    }

    fn seal(&mut self, _temp: &Name) -> Result<(), Failed> {
        self.fails()
    }

    fn swap(&mut self, _temp: &Name, _to: &Name) -> Result<(), Failed> {
        self.fails()
    }

    fn drop_name(&mut self, _name: &Name) -> Result<(), Failed> {
        self.fails()
    }

    fn fix_names(&mut self) -> Result<(), Failed> {
        self.fails()
    }
}
