//! The sizes of a session's files, by their names.
ghost use Rattle.std.specs.Prelude.{◌≡◌, ◌<◌, ◌∷◌, ◌++◌, [], ℕ, List, find, length, position, Some, IfSome, IsSome, OnOk};
ghost use Rattle.std.specs.Option.{option_map};
ghost use Rattle.std.specs.Str.{bytes_eq};
ghost use Rattle.own_model.specs.FileService.{File as ModelFile, is_named, rewritten, without};
ghost use Rattle.own_model.specs.Text.{bytes_of_hex, hex_bytes};
ghost use Rattle.session_proto.specs.File.{HasHex, model_request};
ghost use Rattle.budget_meter.specs.Sizes.{Keeps, new_file};
ghost use Rattle.budget_meter.specs.RequestTests.{Changes, IsCreated, IsDone, IsWritten};

use crate::outcomes::{is_granted, is_plain_done};
use core_calls::Answer;
use session_proto::FileRequest;
use std::alloc::{AllocError, Global};

// A file of a session.
#[derive(Drop)]
struct File {
    name: Vec<u8>,
    size: u64,
}

/// The files of a session in the order of their creation, each with its name and its size in bytes.
#[derive(Drop)]
pub(crate) struct FileSizes {
    files: Vec<File>,
}

impl FileSizes {
    /// Creates the list of files of a new session.
    pub(crate) fn new(alloc: Global) -> FileSizes
        ensures { Keeps result [] }
    {
        FileSizes {
            files: Vec::new(alloc),
        }
    }

    /// Returns the size of the file that has a name, if there is one.
    pub(crate) fn size(&self, name: &[u8]) -> Option<u64>
        ensures { (files : List ModelFile) → Keeps self.now files →
            result ≡ option_map (λ file. length file.bytes) (find (is_named name.now) files) }
    {
        let place = self.place(name)?;
        Some(self.files[place].size)
    }

    // Adds an empty file.
    fn add(&mut self, alloc: Global, name: &[u8]) -> Result<(), AllocError>
        ensures { OnOk result ((files : List ModelFile) (chunk offset : ℕ) →
            Keeps self.old files →
            Keeps self.new (files ++ new_file name.now chunk offset ∷ [])) }
    {
        let mut kept = Vec::new(alloc);
        kept.extend_from_slice(name)?;
        self.files.push(File {
            name: kept,
            size: 0,
        })?;
        Ok(())
    }

    // Sets the size of the file that has a name, if there is one.
    fn resize(&mut self, name: &[u8], size: u64)
        ensures { (files : List ModelFile) (bytes : List ℕ) → length bytes ≡ size →
            Keeps self.old files → Keeps self.new (rewritten name.now bytes files) }
    {
        if let Some(place) = self.place(name) {
            self.files[place].size = size;
        }
    }

    // Removes the file that has a name, if there is one.
    fn remove(&mut self, name: &[u8])
        ensures { (files : List ModelFile) → Keeps self.old files →
            Keeps self.new (without name.now files) }
    {
        if let Some(place) = self.place(name) {
            let _ = self.files.remove(place);
        }
    }

    /// Records the effect of an answered request on the files. Returns an error if the host is out of memory.
    pub(crate) fn keep(
        &mut self,
        alloc: Global,
        request: FileRequest<'_>,
        reply: Answer<'_>,
    ) -> Result<(), AllocError>
        requires { HasHex request }
        ensures { OnOk result ((old new : List ModelFile) → Keeps self.old old →
            Changes (Some (model_request request.entry)) reply.entry.text.now old new → Keeps self.new new) }
    {
        match request {
            FileRequest::Create(file) => self.create(alloc, file, reply)?,
            FileRequest::Write { file, offset, hex } => {
                self.write(file, offset, byte_count(hex), reply);
            }
            FileRequest::Put {
                file,
                offset,
                len,
                ..
            } => self.write(file, offset, len, reply),
            FileRequest::Clear(file) => self.clear(file, reply),
            FileRequest::Drop(file) => self.drop_file(file, reply),
            _ => (),
        }
        Ok(())
    }

    // Records a new file, if it was created.
    fn create(&mut self, alloc: Global, name: &[u8], reply: Answer<'_>) -> Result<(), AllocError>
        ensures { OnOk result ((old new : List ModelFile) → Keeps self.old old →
            IsCreated name.now reply.entry.text.now old new → Keeps self.new new) }
    {
        if is_plain_done(reply) {
            self.add(alloc, name)?;
        }
        Ok(())
    }

    // Records that `count` bytes of a file were written from an offset on.
    fn write(&mut self, name: &[u8], offset: u64, count: u64, reply: Answer<'_>)
        ensures { (old new : List ModelFile) → Keeps self.old old →
            IsWritten name.now offset count reply.entry.text.now old new → Keeps self.new new }
    {
        if !is_granted(reply) {
            return;
        }
        if let Some(size) = self.size(name) {
            self.resize(name, size.max(offset.saturating_add(count)));
        }
    }

    // Records that a file was cleared.
    fn clear(&mut self, name: &[u8], reply: Answer<'_>)
        ensures { (old new : List ModelFile) → Keeps self.old old →
            IsDone reply.entry.text.now (rewritten name.now [] old) old new → Keeps self.new new }
    {
        if is_granted(reply) {
            self.resize(name, 0);
        }
    }

    // Records that a file was removed.
    fn drop_file(&mut self, name: &[u8], reply: Answer<'_>)
        ensures { (old new : List ModelFile) → Keeps self.old old →
            IsDone reply.entry.text.now (without name.now old) old new → Keeps self.new new }
    {
        if is_granted(reply) {
            self.remove(name);
        }
    }

    // The place of the file that has a name.
    fn place(&self, name: &[u8]) -> Option<usize>
        ensures place { result ≡ position (λ file. bytes_eq file.name.items name.now)
            self.now.files.items }
        ensures within { IfSome result (λ place. place < length self.now.files.items) }
    {
        self.files
            .iter()
            .position(|file| file.name.as_slice() == name)
    }
}

/// Returns the number of bytes that hexadecimal digits denote.
pub(crate) fn byte_count(hex: &[u8]) -> u64
    requires { IsSome (bytes_of_hex hex.now) }
    ensures { result ≡ length (hex_bytes hex.now) }
{
    hex.len() as u64 / 2
}
