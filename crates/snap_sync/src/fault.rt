// Why a sync did not end.
ghost use Rattle.std.specs.Prelude.{◌≡◌};
ghost use Rattle.snap_sync.specs.Fault.{of_listing};

use array_scan::ScanFault;
use file_table::Table;
use folder_listing::ListingFault;
use snap_report::RunFault;

/// Why a sync did not end.
#[derive(Drop)]
pub enum SyncFault {
    /// The layout is refused, before anything is written. The table of the last sync is handed back.
    Scan(ScanFault, Table),
    /// The run broke off. `Folder` comes only for a folder that could not be listed, and `Memory` only before the vault
    /// was touched.
    Run(RunFault),
}

impl From<ListingFault> for SyncFault {
    ghost from_gives = { λ listing fault. fault ≡ of_listing listing };

    fn from(fault: ListingFault) -> SyncFault {
        match fault {
            ListingFault::Folder { disk } => SyncFault::Run(RunFault::Folder { disk }),
            ListingFault::Memory => SyncFault::Run(RunFault::Memory),
        }
    }
}
