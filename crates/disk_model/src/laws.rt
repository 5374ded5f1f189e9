//! What follows from the definitions of the disk model. The calls do nothing: their contracts are laws.
ghost use Rattle.std.specs.Prelude.{◌≡◌, ◌≢◌, ℕ, ◌<◌, List, [], ◌∷◌, ◌++◌, length, Bool, true, false, IsTrue, None, Some};
ghost use Rattle.disk_model.specs.Cause.{Counts};
ghost use Rattle.disk_model.specs.Files.{Files, parity_of, content_of};
ghost use Rattle.disk_model.specs.Folder.{FolderView, FolderDone, SetStamp};
ghost use Rattle.disk_model.specs.Machine.{Machine, IsSteady, AllGiveBytes, IsWithin, replay, files_of, draft_in, staged_in, step_of, by_calls, opened_with, images_of};
ghost use Rattle.disk_model.specs.Moments.{Remembers};
ghost use Rattle.disk_model.specs.Path.{IsRecordPath};
ghost use Rattle.disk_model.specs.Stopped.{MayBeLeft, LeavesAlone, IsOwnOrApart, KeepsPlace, EachCall, StandsKept, AreAnswered};
ghost use Rattle.disk_model.specs.Tree.{Tree, File, file_of, path_of, IsTree};
ghost use Rattle.disk_model.specs.Writing.{Does};
ghost use Rattle.disk_model.specs.Vault.{VaultDone, writes_vault, plain_done, ParitySync, Publish, HasFiles, IsWellFormed, ChangesBy, Holds, IsSettled};

use crate::{Draft, Stamp};

/// A vault that was opened in order and keeps its calls, and of which a stop leaves what these calls allow, meets
/// the trait: it is well formed, each call changes it by the trait's step, its count is raised by each call that writes
/// and by no other, and a sync and a publish hold.
pub fn a_vault_by_its_calls_meets_the_trait()
    ensures formed { (opened : Machine) (calls : List VaultDone) (told : Bool) (faults : ℕ) →
        IsSteady opened → AllGiveBytes calls → IsWellFormed (by_calls opened calls told faults) }
    ensures changes { (opened : Machine) (calls : List VaultDone) (done : VaultDone)
        (told now_told : Bool) (faults now_faults : ℕ) →
        IsSteady opened → AllGiveBytes calls → IsWithin (replay opened calls) done.call → (IsTrue now_told → IsTrue told) →
        ChangesBy (step_of (replay opened calls) done.call)
        (by_calls opened calls told faults) (by_calls opened (calls ++ done ∷ []) now_told now_faults) }
    ensures remembers { (opened : Machine) (calls : List VaultDone) (done : VaultDone) (told now_told : Bool) →
        Remembers (images_of told opened calls) (images_of now_told opened (calls ++ done ∷ [])) }
    ensures counts { (opened : Machine) (calls : List VaultDone) (done : VaultDone) (told now_told : Bool) (faults now_faults : ℕ) →
        Counts (writes_vault done.call) (by_calls opened calls told faults).writes
        (by_calls opened (calls ++ done ∷ []) now_told now_faults).writes }
    ensures synced { (opened : Machine) (calls : List VaultDone) (level : ℕ) (told : Bool) (faults : ℕ) →
        IsSteady opened → AllGiveBytes calls → level < length (replay opened calls).levels →
        Holds (λ files. parity_of files level ≡ parity_of (files_of (replay opened calls)) level)
        (by_calls opened (calls ++ plain_done (ParitySync level) false ∷ []) told faults) }
    ensures published { (opened : Machine) (calls : List VaultDone) (copy : ℕ) (told : Bool) (faults : ℕ) →
        copy < length (replay opened calls).copies → draft_in (replay opened calls) copy ≡ Draft.Sealed →
        Holds (λ files. content_of files copy ≡ Some (staged_in (replay opened calls) copy))
        (by_calls opened (calls ++ plain_done (Publish copy) false ∷ []) told faults) }
{}

/// A vault that was just opened is in order, reads as what it was opened with, and a stop leaves just that.
pub fn an_opened_vault_is_settled()
    ensures steady { (files : Files) (levels copies : ℕ) → HasFiles levels copies files → IsSteady (opened_with files) }
    ensures reads { (files : Files) → files_of (opened_with files) ≡ files }
    ensures settled { (files : Files) (told : Bool) (faults : ℕ) → IsSettled (by_calls (opened_with files) [] told faults) }
{}

/// A folder that doesn't keep a stamp changes nothing where it is set.
pub fn no_stamp_is_set_that_is_not_kept()
    ensures { (keeps : Stamp → Bool) (path : List ℕ) (stamp : Stamp) (old new : Tree) → keeps stamp ≡ false →
        Does keeps (SetStamp path stamp) old new → new ≡ old }
{}

/// Wherever a run that writes a folder is stopped, a file that none of its calls names stays.
pub fn a_file_that_no_call_names_stays()
    ensures { (keeps : Stamp → Bool) (calls : List FolderDone) (old new : Tree) (name : List ℕ) →
        EachCall (LeavesAlone name) calls → MayBeLeft keeps calls old new → file_of new name ≡ file_of old name }
{}

/// Wherever a run that writes a folder is stopped, PATH's file stands under one of its names with each byte that no
/// call touched: a file at PATH that isn't replaced, and the lost file of a PATH that isn't there.
pub fn bytes_that_no_call_touches_stay()
    ensures place { (keeps : Stamp → Bool) (path : List ℕ) (calls : List FolderDone) (old new : Tree) (file : File) →
        file_of old (path_of path false) ≡ Some file →
        EachCall (IsOwnOrApart path) calls → EachCall (KeepsPlace path false) calls →
        MayBeLeft keeps calls old new → StandsKept path calls file new }
    ensures lost { (keeps : Stamp → Bool) (path : List ℕ) (calls : List FolderDone) (old new : Tree) (file : File) →
        file_of old (path_of path true) ≡ Some file → file_of old (path_of path false) ≡ None →
        EachCall (IsOwnOrApart path) calls → EachCall (KeepsPlace path true) calls →
        MayBeLeft keeps calls old new → StandsKept path calls file new }
    ensures apart { (path other : List ℕ) → IsRecordPath path → IsRecordPath other → other ≢ path →
        (one two : Bool) → path_of other one ≢ path_of path two }
{}

/// A folder that meets its trait stands, as it reads after its calls, among what a stop within them may leave. What a
/// stop may leave is a tree, and a later stop may leave it too.
pub fn a_folder_stands_among_what_a_stop_may_leave()
    ensures answered { (calls : List FolderDone) (old new : FolderView) → IsTrue old.tells →
        AreAnswered calls old new → MayBeLeft old.keeps calls old.tree new.tree }
    ensures tree { (keeps : Stamp → Bool) (calls : List FolderDone) (old new : Tree) →
        IsTree old → MayBeLeft keeps calls old new → IsTree new }
    ensures then { (keeps : Stamp → Bool) (first more : List FolderDone) (old mid new : Tree) →
        MayBeLeft keeps first old mid → MayBeLeft keeps more mid new → MayBeLeft keeps (first ++ more) old new }
    ensures later { (keeps : Stamp → Bool) (first more : List FolderDone) (old new : Tree) →
        IsTree old → MayBeLeft keeps first old new → MayBeLeft keeps (first ++ more) old new }
{}
