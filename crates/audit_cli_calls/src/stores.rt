//! Systems on which commands open stores, and make new ones.
ghost use Rattle.std.specs.Prelude.{◌≡◌, ℕ, List, [], ◌∷◌, IfOk, IfErr};
ghost use Rattle.audit_cli_base.specs.Faults.{IsNoWordFault};
ghost use Rattle.audit_cli_calls.specs.StoreCalls.{StoresModel, a_letting_go, an_opening, opened_by, unknown_stores};
ghost use Rattle.audit_cli_calls.specs.StoreCalls.{a_making, made_by};
ghost use Rattle.audit_disk.specs.FileDisk.{file_disk_view};
ghost use Rattle.audit_disk.specs.FileFacts.{IsMadeDevice};
ghost use Rattle.audit_disk.specs.declared.files.TheConstants.{OWNER_ONLY};

use audit_cli_base::{CommandError, FileDevice, FileStore, Opened, open_store_extending};
use audit_disk::{FileDisk, OsFile, SystemFile, SystemFiles};
use audit_disk_model::Sectors;
use audit_proof::Commitment;
use std::alloc::Global;

/// A system on which commands open stores. Code that is generic over it knows which stores were opened and let go, in
/// order, and as what each was let go: so nothing can be done to a store in between, and none can be opened besides,
/// without its contract saying so.
pub trait Stores<S> {
    /// Which stores were opened and let go.
    ghost calls: { StoresModel Self S };

    /// A store is the one in the file at a path, as its opening left it, and one that this system opens.
    ghost at: { Self → List ℕ → S → Type 0 };

    /// Opens the store in a file. Opening may write to the file, to repair what a crash left unfinished.
    fn open(&mut self, alloc: Global, path: &str) -> Result<Opened<S>, CommandError>
        ensures did { calls.DidCalls self.old self.new (an_opening path.now (opened_by result) ∷ []) }
        ensures cause { IfErr result IsNoWordFault }
        ensures at { IfOk result (λ opened. at self.old path.now opened.content) };

    /// Lets a store go, which unlocks its file.
    fn let_go(&mut self, store: S)
        ensures { calls.DidCalls self.old self.new (a_letting_go store ∷ []) };
}

/// A system on which commands also make the devices of new stores. Code that is generic over it knows which devices were
/// made, at which paths, between which openings.
pub trait NewStores<S, D: Sectors>: Stores<S> {
    /// A device of this many sectors is the one in the file that was made at a path, as its making left it.
    ghost made_at: { List ℕ → ℕ → D → Type 0 };

    /// Makes a file that only its owner can open, with a device of zero sectors. An existing file isn't overwritten.
    fn make(&mut self, alloc: Global, path: &str, sectors: u64) -> Result<Opened<D>, CommandError>
        ensures did { Self.calls.DidCalls self.old self.new (a_making path.now sectors (made_by result) ∷ []) }
        ensures cause { IfErr result IsNoWordFault }
        ensures size { IfOk result (λ opened. (D.view opened.content).size ≡ sectors) }
        ensures made { IfOk result (λ opened. made_at path.now sectors opened.content) };
}

/// The stores in the files of a system. If a commitment is given, the first store is opened only if its log extends it:
/// what a command opens besides is another log.
#[derive(Drop)]
pub struct SystemStores<'a, F> {
    rt: &'a F,
    older: Option<Commitment>,
}

impl<'a, F> SystemStores<'a, F> {
    ghost use Rattle.std.specs.Prelude.{◌≡◌, None, Some};
    ghost use Rattle.audit_cli_calls.specs.StoreCalls.{commitment_to_extend};

    /// Those of this system.
    pub fn new(rt: &'a F) -> SystemStores<'a, F>
        ensures { commitment_to_extend result ≡ None }
    {
        SystemStores { rt, older: None }
    }

    /// Those of this system, of which the first one's log extends a commitment, if one is given.
    pub fn extending(rt: &'a F, older: Option<Commitment>) -> SystemStores<'a, F>
        ensures { commitment_to_extend result ≡ older }
    {
        SystemStores { rt, older }
    }
}

/// Each call is the system's. Of a store that was opened its file's path, content and events are known, and of the first
/// one that its log extends the commitment that was given.
impl<F: SystemFiles> Stores<FileStore<F::File>> for SystemStores<'_, F>
where
    F::File: SystemFile,
{
    ghost use Rattle.audit_cli_base.specs.OpenedStore.{IsExtendingStoreAt};
    ghost use Rattle.audit_cli_calls.specs.StoreCalls.{unknown_stores, commitment_to_extend};

    ghost calls = { unknown_stores };

    ghost at = { λ stores path store. IsExtendingStoreAt F.File.facts F.File.positioned
        (commitment_to_extend stores) path store };

    fn open(
        &mut self,
        alloc: Global,
        path: &str,
    ) -> Result<Opened<FileStore<F::File>>, CommandError> {
        let older = self.older;
        self.older = None;
        open_store_extending(self.rt, alloc, path, older)
    }

    fn let_go(&mut self, store: FileStore<F::File>) {}
}

/// Each call is the system's. A device that was made is in a file that was made at its path for its owner alone, locked,
/// and given its length.
impl<F: SystemFiles> NewStores<FileStore<F::File>, FileDevice<F::File>> for SystemStores<'_, F>
where
    F::File: SystemFile,
{
    ghost use Rattle.audit_disk.specs.FileDisk.{file_disk_view};
    ghost use Rattle.audit_disk.specs.FileFacts.{IsMadeDevice};
    ghost use Rattle.audit_disk.specs.declared.files.TheConstants.{OWNER_ONLY};

    ghost made_at = { λ path sectors device. IsMadeDevice F.File.facts F.File.positioned
        path OWNER_ONLY sectors (file_disk_view device) };

    fn make(
        &mut self,
        alloc: Global,
        path: &str,
        sectors: u64,
    ) -> Result<Opened<FileDevice<F::File>>, CommandError> {
        let content = FileDisk::create(self.rt, alloc, path, sectors)?;
        let identity = content.identity()?;
        Ok(Opened { content, identity })
    }
}
