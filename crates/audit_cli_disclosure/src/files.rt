//! Systems with the files of commands about disclosures.
ghost use Rattle.std.specs.Prelude.{[], ◌∷◌, IfErr};
ghost use Rattle.audit_cli_base.specs.Faults.{IsNoWordFault};
ghost use Rattle.audit_cli_disclosure.specs.FileCalls.{FilesModel, ExportBytes, a_file_opening, a_look_for_nothing};
ghost use Rattle.audit_cli_disclosure.specs.FileCalls.{an_export_opening, a_file_making, seen_result, unknown_files};

use crate::export_reader::{ExportReader, kept_twice};
use crate::new_file::{judge_nothing, make_new};
use audit_cli_base::CommandError;
use audit_disk::{SystemFile, SystemFiles};
use audit_verify::FallibleRead;
use std::alloc::Global;
use std::fs::OpenFile;
use std::io::Read;

/// The readers of an export, each over all of its bytes.
#[derive(Drop)]
pub struct Readers<R> {
    /// That of the first pass.
    pub first: R,
    /// That of the second pass.
    pub second: R,
}

/// A system with files. Code that is generic over it knows which calls were made, in order, and how each ended: so
/// nothing can be opened, made or left out, and no result made up, without its contract saying so.
pub trait AuditorFiles {
    /// What its calls do.
    ghost calls: { FilesModel Self };

    /// An open file.
    type File: Read + Drop;

    /// A reader of an export.
    type Export: FallibleRead + Drop;

    /// Opens what is at a path, to be read.
    fn open(&mut self, path: &str) -> Result<Self::File, CommandError>
        ensures did { calls.DidCalls self.old self.new
            (a_file_opening path.now (seen_result Self.File.remaining result) ∷ []) }
        ensures cause { IfErr result IsNoWordFault };

    /// Looks whether nothing is at a path. If something is, the error is `FileExists`.
    fn look_for_nothing(&mut self, path: &str) -> Result<(), CommandError>
        ensures did { calls.DidCalls self.old self.new (a_look_for_nothing path.now result ∷ []) }
        ensures cause { IfErr result IsNoWordFault };

    /// Opens an export to be read twice. What can't be read twice, such as a pipe, is read and kept.
    fn open_export(
        &mut self,
        alloc: Global,
        path: &str,
    ) -> Result<Readers<Self::Export>, CommandError>
        ensures did { calls.DidCalls self.old self.new (an_export_opening path.now (seen_result
            (λ readers. record {
              first = Self.Export.remaining readers.first;
              second = Self.Export.remaining readers.second;
            }) result) ∷ []) }
        ensures cause { IfErr result IsNoWordFault };

    /// Makes a file with these bytes, which its owner alone can open, where nothing is. If something is there, the
    /// error is `FileExists`. A file that couldn't be written whole and synced is removed again, if the system allows
    /// it.
    fn make(&mut self, path: &str, bytes: &[u8]) -> Result<(), CommandError>
        ensures did { calls.DidCalls self.old self.new (a_file_making path.now bytes.now result ∷ []) }
        ensures cause { IfErr result IsNoWordFault };
}

/// The files of a system.
#[derive(Drop)]
pub struct SystemAuditorFiles<'a, F> {
    rt: &'a F,
}

impl<'a, F> SystemAuditorFiles<'a, F> {
    /// Those of this system.
    pub fn new(rt: &'a F) -> SystemAuditorFiles<'a, F> {
        SystemAuditorFiles { rt }
    }
}

/// Each call is the system's. Nothing is known of its files.
impl<F: SystemFiles> AuditorFiles for SystemAuditorFiles<'_, F>
where
    F::File: SystemFile,
{
    ghost calls = { unknown_files };

    type File = F::File;

    type Export = ExportReader<F::File>;

    fn open(&mut self, path: &str) -> Result<F::File, CommandError> {
        Ok(self.rt.open_to_read(path)?)
    }

    fn look_for_nothing(&mut self, path: &str) -> Result<(), CommandError> {
        judge_nothing(self.rt, path)
    }

    fn open_export(
        &mut self,
        alloc: Global,
        path: &str,
    ) -> Result<Readers<ExportReader<F::File>>, CommandError> {
        let first = self.rt.open_to_read(path)?;
        if !first.metadata()?.is_file() {
            return kept_twice(alloc, first);
        }
        let second = self.rt.open_to_read(path)?;
        Ok(Readers {
            first: ExportReader::File(first),
            second: ExportReader::File(second),
        })
    }

    fn make(&mut self, path: &str, bytes: &[u8]) -> Result<(), CommandError> {
        make_new(self.rt, path, bytes)
    }
}
