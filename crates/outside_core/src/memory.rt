ghost use Rattle.std.specs.Prelude.{◌≡◌, ◌+◌, ◌≤◌, ◌++◌, ◌-◌, false, [], length, take, min, vec_len, vec_capacity, IfOk};

use crate::plan::FaultPlan;
use crate::reads::{Got, Source};
use crate::writes::{Put, Sink};
use std::alloc::{AllocError, Global};
use std::marker::Model;

/// Bytes in memory, whose reads never fail. Contracts see the bytes left.
#[derive(Drop)]
pub struct SureSource {
    bytes: Vec<u8>,
    at: usize,
}

impl Model for SureSource {
    ghost use Rattle.std.specs.Prelude.{ℕ, List, drop, ◌≤◌, vec_len};

    ghost Value = { List ℕ };

    ghost view = { λ s. drop s.at s.bytes.items };

    ghost invariant = { λ s. s.at ≤ vec_len s.bytes };
}

impl SureSource {
    /// A source of these bytes.
    pub fn new(bytes: Vec<u8>) -> SureSource
        ensures { result ≡ bytes.items }
    {
        SureSource { bytes, at: 0 }
    }

    /// Moves bytes to the front of the buffer, as many as are left and have room, and says how
    /// many.
    fn give(&mut self, buf: &mut [u8]) -> usize
        ensures count { result ≡ min (length self.old) (length buf.old) }
        ensures bytes { self.old ≡ take result buf.new ++ self.new }
    {
        let left = &self.bytes[self.at..];
        let n = left.len().min(buf.len());
        buf[..n].copy_from_slice(&left[..n]);
        self.at += n;
        n
    }
}

impl Source for SureSource {
    ghost use Rattle.std.specs.Prelude.{◌<◌, ◌≤◌, Some, length, min};
    ghost use Rattle.outside_core.specs.Outside.{Reads, got_of};

    ghost left = { λ s. Some s };

    ghost faults = { λ s. 0 };

    fn read(&mut self, buf: &mut [u8]) -> Got
        requires { 0 < length buf.old }
        ensures got { result ≡ got_of (min (length self.old) (length buf.old)) }
        ensures bytes { Reads (Some self.old) (Some self.new) buf.new result }
    {
        match self.give(buf) {
            0 => Got::End,
            n => Got::Bytes(n),
        }
    }
}

/// Bytes in memory, whose reads fail at listed numbers.
///
/// Contracts see the bytes left, the numbers of the reads that fail, the number of the next read
/// and the faults so far.
#[derive(Drop)]
pub struct MemSource {
    source: SureSource,
    plan: FaultPlan,
}

impl Model for MemSource {
    ghost use Rattle.outside_core.specs.Memory.{MemBytes};

    ghost Value = { MemBytes };

    ghost view = { λ s. record { left = s.source; plan = s.plan } };
}

impl MemSource {
    ghost use Rattle.outside_core.specs.Memory.{planned};

    /// A source of these bytes, which fails at the reads whose numbers, from 0, stand in `fails`.
    pub fn new(bytes: Vec<u8>, fails: Vec<u64>) -> MemSource
        ensures left { result.left ≡ bytes.items }
        ensures plan { result.plan ≡ planned fails.items }
    {
        MemSource {
            source: SureSource::new(bytes),
            plan: FaultPlan::new(fails),
        }
    }
}

impl Source for MemSource {
    ghost use Rattle.std.specs.Prelude.{◌<◌, ◌≤◌, Some, length, min, if◌then◌else◌};
    ghost use Rattle.outside_core.specs.Outside.{Rose, Reads, IfReadFailed, got_of, count_after_read};
    ghost use Rattle.outside_core.specs.Memory.{is_due, called};

    ghost left = { λ s. Some s.left };

    ghost faults = { λ s. s.plan.faults };

    fn read(&mut self, buf: &mut [u8]) -> Got
        requires { 0 < length buf.old }

        // It fails exactly at the listed numbers, and else gives as many bytes as are left and have
        // room.
        ensures got { result ≡ (if is_due self.old.plan then Got.Failed
            else got_of (min (length self.old.left) (length buf.old))) }
        ensures bytes { Reads (Some self.old.left) (Some self.new.left) buf.new result }

        // Each read is numbered, and each that fails is a fault.
        ensures failed { IfReadFailed result (Rose self.old.plan.faults self.new.plan.faults) }
        ensures counted { self.old.plan.faults ≤ self.new.plan.faults }
        ensures plan { self.new.plan
            ≡ called self.old.plan (count_after_read self.old.plan.faults result) }
    {
        if self.plan.call() {
            self.plan.fail();
            return Got::Failed;
        }
        self.source.read(buf)
    }
}

/// Bytes kept in memory, and the room for more of them.
#[derive(Drop)]
struct Store {
    bytes: Vec<u8>,
    spare: usize,
    ghost fits: { vec_len bytes + spare ≤ vec_capacity bytes },
}

impl Store {
    fn new(alloc: Global, room: usize) -> Result<Store, AllocError>
        ensures { IfOk result (λ s. (s.bytes.items ≡ []) × (s.spare ≡ room)) }
    {
        Ok(Store {
            bytes: Vec::with_capacity(alloc, room)?,
            spare: room,
        })
    }

    /// Keeps the piece, for which there is room.
    fn keep(&mut self, piece: &[u8])
        requires { length piece.now ≤ self.old.spare }
        ensures bytes { self.new.bytes.items ≡ self.old.bytes.items ++ piece.now }
        ensures spare { self.new.spare ≡ self.old.spare - length piece.now }
    {
        let Ok(()) = self.bytes.extend_from_slice(piece) else {
            unreachable!();
        };
        self.spare -= piece.len();
    }
}

/// A sink in memory, whose writes fail at listed numbers and where the piece is longer than the
/// room left.
///
/// Contracts see the bytes taken, the room left, the numbers of the writes that fail, the number of
/// the next write and the faults so far.
#[derive(Drop)]
pub struct MemSink {
    store: Store,
    plan: FaultPlan,
}

impl Model for MemSink {
    ghost use Rattle.outside_core.specs.Memory.{MemRoom};

    ghost Value = { MemRoom };

    ghost view = { λ s.
        record { kept = s.store.bytes.items; spare = s.store.spare; plan = s.plan } };
}

impl MemSink {
    ghost use Rattle.outside_core.specs.Memory.{planned};

    /// A sink with room for so many bytes, which fails at the writes whose numbers, from 0, stand
    /// in `fails`.
    pub fn new(alloc: Global, room: usize, fails: Vec<u64>) -> Result<MemSink, AllocError>
        ensures { IfOk result (λ s.
            (s.kept ≡ []) × (s.spare ≡ room) × (s.plan ≡ planned fails.items)) }
    {
        Ok(MemSink {
            store: Store::new(alloc, room)?,
            plan: FaultPlan::new(fails),
        })
    }

    /// The bytes taken.
    pub fn taken(&self) -> &[u8]
        ensures { result.now ≡ self.now.kept }
    {
        self.store.bytes.as_slice()
    }

    /// How many more bytes there is room for.
    pub fn spare(&self) -> usize
        ensures { result ≡ self.now.spare }
    {
        self.store.spare
    }
}

impl Sink for MemSink {
    ghost use Rattle.std.specs.Prelude.{◌≤◌, ◌-◌, Some, length, if◌then◌else◌};
    ghost use Rattle.outside_core.specs.Outside.{Rose, Writes, IfWriteFailed, count_after_write};
    ghost use Rattle.outside_core.specs.Memory.{write_fails, called};

    ghost taken = { λ s. Some s.kept };

    ghost faults = { λ s. s.plan.faults };

    fn write(&mut self, piece: &[u8]) -> Put
        // It fails exactly at the listed numbers and where there is no room, and takes nothing
        // then.
        ensures put { result ≡ (if write_fails self.old piece.now then Put.Failed 0 else Put.All) }
        ensures bytes { Writes (Some self.old.kept) (Some self.new.kept) piece.now result }
        ensures spare { self.new.spare ≡ (if write_fails self.old piece.now then self.old.spare
            else self.old.spare - length piece.now) }

        // Each write is numbered, and each that fails is a fault.
        ensures failed { IfWriteFailed result (Rose self.old.plan.faults self.new.plan.faults) }
        ensures counted { self.old.plan.faults ≤ self.new.plan.faults }
        ensures plan { self.new.plan
            ≡ called self.old.plan (count_after_write self.old.plan.faults result) }
    {
        if self.plan.call() || self.store.spare < piece.len() {
            self.plan.fail();
            return Put::Failed(0);
        }
        self.store.keep(piece);
        Put::All
    }
}

/// A sink in memory that never fails.
///
/// From the first piece on that is longer than the room left, it keeps nothing more and tells its
/// bytes no more. Contracts see the bytes kept, the room left and whether there was such a piece.
#[derive(Drop)]
pub struct SureSink {
    store: Store,
    full: bool,
}

impl Model for SureSink {
    ghost use Rattle.outside_core.specs.Memory.{SureRoom};

    ghost Value = { SureRoom };

    ghost view = { λ s.
        record { kept = s.store.bytes.items; spare = s.store.spare; full = s.full } };
}

impl SureSink {
    /// A sink with room for so many bytes.
    pub fn new(alloc: Global, room: usize) -> Result<SureSink, AllocError>
        ensures { IfOk result (λ s. (s.kept ≡ []) × (s.spare ≡ room) × (s.full ≡ false)) }
    {
        Ok(SureSink {
            store: Store::new(alloc, room)?,
            full: false,
        })
    }

    /// The bytes of the writes before the first that did not fit.
    pub fn taken(&self) -> &[u8]
        ensures { result.now ≡ self.now.kept }
    {
        self.store.bytes.as_slice()
    }

    /// How many more bytes there is room for.
    pub fn spare(&self) -> usize
        ensures { result ≡ self.now.spare }
    {
        self.store.spare
    }
}

impl Sink for SureSink {
    ghost use Rattle.std.specs.Prelude.{◌++◌, ◌-◌, ◌||◌, length, nat_lt, if◌then◌else◌};
    ghost use Rattle.outside_core.specs.Memory.{told};
    ghost use Rattle.outside_core.specs.Outside.{Writes};

    ghost taken = { told };

    ghost faults = { λ s. 0 };

    fn write(&mut self, piece: &[u8]) -> Put
        ensures put { result ≡ Put.All }
        ensures bytes { Writes (told self.old) (told self.new) piece.now result }

        // It is full from the first piece on that is longer than the room, and keeps nothing then.
        ensures full { self.new.full ≡ (self.old.full || nat_lt self.old.spare (length piece.now)) }
        ensures kept { self.new.kept ≡ (if self.new.full then self.old.kept
            else self.old.kept ++ piece.now) }
        ensures spare { self.new.spare ≡ (if self.new.full then self.old.spare
            else self.old.spare - length piece.now) }
    {
        if self.store.spare < piece.len() {
            self.full = true;
        }
        if !self.full {
            self.store.keep(piece);
        }
        Put::All
    }
}
