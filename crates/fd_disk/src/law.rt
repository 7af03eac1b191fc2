ghost use Rattle.fd_disk.specs.CrashLaws.{FolderBackChangesNone, FolderWithAllBack, FoundLeavesWhole, KeepsBoth, KeptStands, NewShelfChangesNone, PlantLeavesWhole, SealedStands, ShelfBackChangesNone, StoreWithAllBack, TableBackChangesNone, TableOutChangesNone};

/// What holds of every crash while things are out, over all that a dataset and a store may have and all that a crash may
/// leave of them. A file that a shelf keeps stands from `keep` on, whatever is put back afterwards, and so does a file of
/// the folder that no shelf which is out has made. Handing out and putting back changes no image, but of files that a
/// shelf created and didn't keep. With everything back the images are those of the folders alone. And a crash in the
/// middle of `found` or `plant` leaves nothing or the whole.
pub fn every_image()
    ensures folder_back { FolderWithAllBack }
    ensures store_back { StoreWithAllBack }
    ensures kept { KeptStands }
    ensures both { KeepsBoth }
    ensures sealed { SealedStands }
    ensures shelf { NewShelfChangesNone }
    ensures table { TableOutChangesNone }
    ensures give_table { TableBackChangesNone }
    ensures give_shelf { ShelfBackChangesNone }
    ensures give_folder { FolderBackChangesNone }
    ensures found { FoundLeavesWhole }
    ensures plant { PlantLeavesWhole }
{}
