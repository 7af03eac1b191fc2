ghost use Rattle.std.specs.Prelude.{◌≡◌, ◌≤◌, ◌⊎◌, true, Some, length, is_some, IfOk, IfErr, OnOk, OnErr, option_map};
ghost use Rattle.fd_bytes.specs.Causes.{Rose};
ghost use Rattle.fd_disk.specs.{Causes.{OnFault, OnNoMemory}, Images.{synced, written}};
ghost use Rattle.fd_index.specs.Pages.{IsIndex, index_of};
ghost use Rattle.fd_segment.specs.Steps.{StopsSealing};
ghost use Rattle.sha2.specs.Sha256.{sha256};

use fd_disk::{Disk, Down};
use fd_index::IndexBuilder;
use sha2::{Digest, Sha256};
use std::alloc::Global;

/// Syncs the fields, writes the index of the records and syncs it. Gives the index's length in bytes and its SHA-256. After
/// an `Err` what a read gives of the fields is as before.
pub(crate) fn make_firm<F: Send, T: Disk<F>>(
    alloc: Global,
    records: &IndexBuilder,
    fields: &mut T,
    index: &mut T,
) -> Result<(u64, Option<[u8; 32]>), Down<F>>
    ensures fields { OnOk result (T.file fields.new ≡ option_map synced (T.file fields.old)) }
    ensures index { OnOk result (T.file index.new ≡ option_map synced (option_map (λ f. written f 0 (index_of records.now.records)) (T.file index.old))) }
    ensures format { OnOk result (IsIndex records.now.records (index_of records.now.records)) }
    ensures len { IfOk result (λ n. n.0 ≡ length (index_of records.now.records)) }
    ensures digest { IfOk result (λ n. n.1 ≡ Some (sha256 (index_of records.now.records))) }
    ensures reaches { IfOk result (λ n. n.0 ≤ T.extent index.new) }
    ensures synced { OnOk result ((T.is_synced fields.new ≡ true) × (T.is_synced index.new ≡ true)) }
    ensures extent { T.extent fields.new ≡ T.extent fields.old }
    ensures name { (T.name fields.new ≡ T.name fields.old) × (T.name index.new ≡ T.name index.old) }
    ensures made { (T.made fields.new ≡ T.made fields.old) × (T.made index.new ≡ T.made index.old) }
    ensures stops { IfErr result (λ e. OnFault e (StopsSealing (index_of records.now.records) (T.file fields.old) (T.file index.old) (T.file fields.new) (T.file index.new))) }
    ensures same { OnErr result (option_map (λ f. f.reads) (T.file fields.new) ≡ option_map (λ f. f.reads) (T.file fields.old)) }
    ensures told { (is_some (T.file fields.new) ≡ is_some (T.file fields.old)) × (is_some (T.file index.new) ≡ is_some (T.file index.old)) }
    ensures untouched { IfErr result (λ e. OnNoMemory e ((fields.new ≡ fields.old) × (index.new ≡ index.old))) }
    ensures later { (T.faults fields.old ≤ T.faults fields.new) × (T.faults index.old ≤ T.faults index.new) }
    ensures cause { IfErr result (λ e. OnFault e (Rose (T.faults fields.old) (T.faults fields.new) ⊎ Rose (T.faults index.old) (T.faults index.new))) }
{
    let bytes = match records.bytes(alloc) {
        Ok(bytes) => bytes,
        Err(_) => return Err(Down::NoMemory),
    };
    if let Err(fault) = fields.sync() {
        return Err(Down::Fault(fault));
    }
    if let Err(fault) = index.write_at(0, &bytes) {
        return Err(Down::Fault(fault));
    }
    if let Err(fault) = index.sync() {
        return Err(Down::Fault(fault));
    }
    let digest = Sha256::digest(&*bytes);
    Ok((bytes.len() as u64, Some(digest)))
}
