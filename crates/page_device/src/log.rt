// The log of a device in memory. A call for whose entry no memory was found is counted.
ghost use Rattle.std.specs.Prelude.{◌≡◌, ℕ, ◌+◌, ◌<◌, ◌≤◌, ◌^◌, ◌++◌, ◌∷◌, [], length, replicate, take, IsOk, OnOk, OnErr};
ghost use Rattle.std.specs.Bool.{OnTrue, OnFalse};
ghost use Rattle.page_device.specs.Disk.{DeviceState, state_after};
ghost use Rattle.page_device.specs.Memory.{lost_call, kept_at};

use crate::{LogEntry, NoMemory};
use std::alloc::Global;
use std::marker::Model;

#[derive(Drop)]
pub struct Log {
    entries: Vec<LogEntry>,
    // For each entry, the calls directly before it for which no memory was found.
    lost_before: Vec<u64>,
    // The calls since the last entry for which no memory was found.
    lost: u64,
}

impl Model for Log {
    ghost use Rattle.std.specs.Prelude.{◌≡◌, ◌-◌, ◌++◌, length, replicate, min, vec_len, vec_capacity};
    ghost use Rattle.page_device.specs.Memory.{LogView, entries_of, lost_call};

    ghost Value = { LogView };

    ghost view = { λ l. record {
      all = entries_of l.entries.items l.lost_before.items ++ replicate l.lost lost_call;
      kept = l.entries.items;
      spare = min (vec_capacity l.entries - vec_len l.entries) (vec_capacity l.lost_before - vec_len l.lost_before);
    } };

    ghost invariant = { λ l. length l.lost_before.items ≡ length l.entries.items };
}

impl Log {
    pub fn new(alloc: Global) -> Log
        ensures all { result.all ≡ [] }
        ensures kept { result.kept ≡ [] }
    {
        Log {
            entries: Vec::new(alloc),
            lost_before: Vec::new(alloc),
            lost: 0,
        }
    }

    /// Makes room for at least so many further entries.
    pub fn reserve(&mut self, entries: usize) -> Result<(), NoMemory>
        ensures all { self.new.all ≡ self.old.all }
        ensures kept { self.new.kept ≡ self.old.kept }
        ensures ok { OnOk result (entries ≤ self.new.spare) }
        ensures spare { self.old.spare ≤ self.new.spare }
        ensures succeeds { entries ≤ self.old.spare → IsOk result }
    {
        if self.entries.reserve(entries).is_err() {
            return Err(NoMemory);
        }
        if self.lost_before.reserve(entries).is_err() {
            return Err(NoMemory);
        }
        Ok(())
    }

    /// Keeps an entry, for which there is room.
    pub fn keep(&mut self, entry: LogEntry)
        requires { 0 < self.old.spare }
        ensures all { self.new.all ≡ self.old.all ++ entry ∷ [] }
        ensures kept { self.new.kept ≡ self.old.kept ++ entry ∷ [] }
        ensures spare { self.old.spare ≡ self.new.spare + 1 }
    {
        self.entries.push_reserved(entry);
        self.lost_before.push_reserved(self.lost);
        self.lost = 0;
    }

    /// Counts a call for whose entry no memory was found.
    pub fn lose(&mut self)
        ensures counted { length self.new.all + 1 < 2 ^ 64 → self.new.all ≡ self.old.all ++ lost_call ∷ [] }
        ensures some { (n : ℕ) × (self.new.all ≡ self.old.all ++ replicate n lost_call) }
        ensures one { length self.new.all ≤ length self.old.all + 1 }
        ensures kept { self.new.kept ≡ self.old.kept }
        ensures spare { self.new.spare ≡ self.old.spare }
    {
        self.lost = self.lost.saturating_add(1);
    }

    /// The entries that were kept.
    pub fn kept(&self) -> &[LogEntry]
        ensures { result.now ≡ self.now.kept }
    {
        self.entries.as_slice()
    }

    /// How many of the kept entries are among the first `at` calls. Goes over the log.
    pub fn kept_by(&self, at: u64) -> usize
        ensures within { result ≤ length self.now.kept }
        ensures state { (s : DeviceState) → state_after s (take result self.now.kept) ≡ state_after s (take at self.now.all) }
    {
        kept_among(&self.lost_before, at)
    }
}

// Of entries that so many lost calls stand before, how many are among the first `at` calls.
fn kept_among(lost_before: &[u64], at: u64) -> usize
    ensures { result ≡ kept_at lost_before.now at }
{
    let mut left = at;
    for (i, lost) in lost_before.iter().enumerate() {
        if left <= *lost {
            return i;
        }
        left = left - *lost - 1;
    }
    lost_before.len()
}
