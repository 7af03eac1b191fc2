// A sealed file in memory, and its reader.
ghost use Rattle.std.specs.Prelude.{◌≡◌, ◌-◌, ◌++◌, Some, length, min, take, drop, true, is_ok, is_err, IfOk};
ghost use Rattle.fd_bytes.specs.Causes.{HasCause};
ghost use Rattle.fd_disk.specs.Reading.{ReadsBytes, ReadsCount, raised};
ghost use Rattle.fd_file_mem.specs.{Plans.{FailsByPlan, IsAnew, after_call, is_due}, Told.{reader_asked, reader_bytes, reader_faults, reader_plan, reader_reads, sealed_bytes, sealed_made, sealed_name, sealed_plan}};

use crate::MemFault;
use crate::disk::counted;
use crate::plan::{Op, Plan};
use fd_disk::{Down, FileName, Reader, Sealed};
use std::alloc::Global;

/// A file in memory that changes no more.
#[derive(Drop)]
pub struct MemSealed {
    name: Vec<u8>,
    made: Option<FileName>,
    bytes: Vec<u8>,
    plan: Plan,
}

impl MemSealed {
    /// A sealed file of these bytes.
    pub fn new(name: Vec<u8>, made: Option<FileName>, bytes: Vec<u8>, plan: Plan) -> MemSealed
        ensures name { sealed_name result ≡ name }
        ensures made { sealed_made result ≡ made }
        ensures bytes { sealed_bytes result ≡ bytes }
        ensures plan { sealed_plan result ≡ plan }
    {
        MemSealed {
            name,
            made,
            bytes,
            plan,
        }
    }

    /// The file's bytes.
    pub fn bytes(&self) -> &[u8]
        ensures { result.now ≡ (sealed_bytes self.now).items }
    {
        &self.bytes
    }
}

/// A sealed file in memory that is being read.
#[derive(Drop)]
pub struct MemReader {
    bytes: Vec<u8>,
    faults: u64,
    plan: Plan,
    reads: u64,
    asked: u64,
}

impl Reader<MemFault> for MemReader {
    ghost use Rattle.std.specs.Prelude.{Some, length};
    ghost use Rattle.fd_file_mem.specs.Past.{len_told};

    ghost bytes = { λ r. Some r.bytes.items };

    ghost len = { λ r. length r.bytes.items };

    ghost faults = { λ r. r.faults };

    ghost reads = { λ r. r.reads };

    ghost asked = { λ r. r.asked };

    ghost len_told = { λ r b is. len_told r.bytes.items b is };

    fn read_at(&mut self, at: u64, into: &mut [u8]) -> Result<usize, MemFault>
        ensures count { ReadsCount (length (reader_bytes self.old)) at (length into.old) result }
        ensures bytes { ReadsBytes (Some (reader_bytes self.old)) at into.old into.new result }
        ensures same { Some (reader_bytes self.new) ≡ Some (reader_bytes self.old) }
        ensures len { length (reader_bytes self.new) ≡ length (reader_bytes self.old) }
        ensures reads { reader_reads self.new ≡ raised (reader_reads self.old) 1 }
        ensures asked { reader_asked self.new ≡ raised (reader_asked self.old) (length into.old) }
        ensures cause { HasCause (reader_faults self.old) (reader_faults self.new) result }
        ensures fails { FailsByPlan (is_due Op.Read (reader_plan self.old)) (reader_plan self.old).fuse.allowed true (is_ok result) (is_err result) }
        ensures counted { reader_plan self.new ≡ after_call Op.Read (reader_plan self.old) }
    {
        self.reads = self.reads.saturating_add(1);
        self.asked = self.asked.saturating_add(into.len() as u64);
        if self.plan.meets(Op::Read) {
            return Err(counted(&mut self.faults));
        }
        Ok(copied(&self.bytes, at, into))
    }
}

impl Sealed<MemFault> for MemSealed {
    ghost use Rattle.std.specs.Prelude.{Some, length};
    ghost use Rattle.fd_file_mem.specs.Past.{len_told};

    type Reader = MemReader;

    ghost bytes = { λ z. Some z.bytes.items };

    ghost len = { λ z. length z.bytes.items };

    ghost name = { λ z. z.name.items };

    ghost made = { λ z. z.made };

    ghost len_told = { λ r b is. len_told r.bytes.items b is };

    fn len(&self) -> u64 {
        self.bytes.len() as u64
    }

    fn reader(&self, alloc: Global) -> Result<MemReader, Down<MemFault>>
        ensures bytes { IfOk result (λ r. Some (reader_bytes r) ≡ Some (sealed_bytes self.now).items) }
        ensures len { IfOk result (λ r. length (reader_bytes r) ≡ length (sealed_bytes self.now).items) }
        ensures new { IfOk result (λ r. (reader_reads r ≡ 0) × (reader_asked r ≡ 0)) }
        ensures plan { IfOk result (λ r. IsAnew (sealed_plan self.now).fails.items (sealed_plan self.now).fuse.allowed (reader_plan r)) }
    {
        let (Ok(plan), Ok(bytes)) = (self.plan.again(alloc), self.bytes.to_vec(alloc)) else {
            return Err(Down::NoMemory);
        };
        Ok(MemReader {
            bytes,
            faults: 0,
            plan,
            reads: 0,
            asked: 0,
        })
    }
}

// Copies what stands from a place on, as far as both go.
pub(crate) fn copied(bytes: &[u8], at: u64, into: &mut [u8]) -> usize
    ensures count { result ≡ min (length into.old) (length bytes.now - at) }
    ensures bytes { into.new ≡ take result (drop at bytes.now) ++ drop result into.old }
{
    if at >= bytes.len() as u64 {
        return 0;
    }
    let rest = &bytes[at as usize..];
    let n = if rest.len() < into.len() {
        rest.len()
    } else {
        into.len()
    };
    into[..n].copy_from_slice(&rest[..n]);
    n
}
